//! What a faultless line adds to the lines before it.

ghost use Rattle.std.specs.Prelude.{◌≡◌, [], ◌∷◌, IfOk, OnOk, None};
ghost use Rattle.halide_pipeline.specs.Pipelines.{lookup};
ghost use Rattle.halide_parser.specs.Meaning as spec;
ghost use Rattle.halide_parser.specs.inner.JudgedLines.{tree_of};

use crate::judging::Judged;
use crate::readers::{AlgorithmReader, func_place};
use crate::rules::height_of;
use halide_parser_syntax::{AlgorithmLine, Change, Definition, NamedExtents, ReductionBounds};
use halide_pipeline::{Expr, Func, Input, Output, Reduction, Source, Update};
use sqlite_items::Items;
use std::alloc::AllocError;

/// The tree of an expression; one without faults has one.
fn tree_of(judged: Judged) -> Expr
    ensures { result ≡ tree_of judged }
{
    match judged.into_tree() {
        Some(tree) => tree,
        None => Expr::Number(0),
    }
}

fn second_tree(index: Option<Judged>) -> Option<Expr>
    ensures { result ≡ spec.second_tree tree_of index }
{
    match index {
        None => None,
        Some(judged) => Some(tree_of(judged)),
    }
}

fn reduction_of(bounds: ReductionBounds) -> Reduction
    ensures { result ≡ spec.reduction_of bounds }
{
    let minimum = if bounds.is_negative {
        halide_pipeline::words::subtract(0, bounds.minimum)
    } else {
        bounds.minimum
    };
    Reduction {
        name: bounds.name,
        minimum,
        extent: bounds.extent,
    }
}

fn second_reduction(bounds: Option<ReductionBounds>) -> Option<Reduction>
    ensures { result ≡ spec.second_reduction bounds }
{
    match bounds {
        None => None,
        Some(bounds) => Some(reduction_of(bounds)),
    }
}

fn update_of(change: Change<Judged>) -> Update
    ensures { result ≡ spec.update_of tree_of change }
{
    let Change {
        left_x,
        left_y,
        right,
        first,
        second,
        ..
    } = change;
    Update {
        left_x: tree_of(left_x),
        left_y: second_tree(left_y),
        right: tree_of(right),
        first: reduction_of(first),
        second: second_reduction(second),
    }
}

/// Adds an input.
fn add_input(
    reader: &mut AlgorithmReader,
    extents: NamedExtents,
    is_bytes: bool,
) -> Result<(), AllocError>
    requires { lookup extents.name reader.old.names ≡ None }
    ensures { OnOk result (reader.new ≡ spec.with_input reader.old extents is_bytes) }
{
    let height = height_of(&extents);
    let dimensions = if extents.height.is_some() { 2 } else { 1 };
    let place = reader.inputs.len();
    reader.inputs.push(Input {
        width: extents.width,
        height,
        dimensions,
        is_bytes,
    })?;
    let source = Source::Input(place);
    reader
        .names
        .add(reader.alloc, extents.name.as_slice(), source)?;
    reader.last_func = None;
    Ok(())
}

/// Adds a Func.
fn add_func(reader: &mut AlgorithmReader, definition: Definition<Judged>) -> Result<(), AllocError>
    requires { lookup definition.name reader.old.names ≡ None }
    ensures { OnOk result (reader.new ≡ spec.with_func tree_of reader.old definition) }
{
    let Definition {
        name,
        first_argument,
        second_argument,
        right,
    } = definition;
    let place = reader.funcs.len();
    reader.funcs.push(Func {
        first_argument,
        second_argument,
        pure: tree_of(right),
        updates: Items::new(reader.alloc),
    })?;
    reader
        .names
        .add(reader.alloc, name.as_slice(), Source::Func(place))?;
    reader.last_func = Some(place);
    Ok(())
}

/// The Func with one more update.
#[tactic(auto, unfolding(crate::specs::Meaning::with_update))]
fn updated(func: Func, update: Update) -> Result<Func, AllocError>
    ensures { IfOk result (λ found. spec.with_update (func ∷ []) update ≡ found ∷ []) }
{
    let mut func = func;
    func.updates.push(update)?;
    Ok(func)
}

/// Adds an update to the last Func.
#[tactic(auto, using(crate::proofs::Updates::updates_by, crate::proofs::Updates::updates_none))]
fn add_update(funcs: &mut Items<Func>, update: Update) -> Result<(), AllocError>
    ensures { OnOk result (funcs.new ≡ spec.with_update funcs.old update) }
{
    match funcs.pop() {
        None => {
            drop(update);
            Ok(())
        }
        Some(func) => {
            let func = updated(func, update)?;
            funcs.push(func)?;
            Ok(())
        }
    }
}

/// Adds what a faultless line says.
pub fn apply(reader: &mut AlgorithmReader, line: AlgorithmLine<Judged>) -> Result<(), AllocError>
    requires { spec.IsFree reader.old line }
    ensures { OnOk result (reader.new ≡ spec.applied tree_of reader.old line) }
{
    match line {
        AlgorithmLine::Blank => Ok(()),
        AlgorithmLine::Input { extents, is_bytes } => Ok(add_input(reader, extents, is_bytes)?),
        AlgorithmLine::Func(definition) => Ok(add_func(reader, definition)?),
        AlgorithmLine::Update(change) => {
            add_update(&mut reader.funcs, update_of(change))?;
            Ok(())
        }
        AlgorithmLine::Output(extents) => {
            let height = height_of(&extents);
            let dimensions = if extents.height.is_some() { 2 } else { 1 };
            let func = match func_place(reader, extents.name.as_slice()) {
                Some(place) => place,
                None => 0,
            };
            reader.output = Some(Output {
                func,
                width: extents.width,
                height,
                dimensions,
            });
            Ok(())
        }
    }
}
