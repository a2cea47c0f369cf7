//! What a Func reads that is computed, inlined Funcs put in place.

ghost use Rattle.std.specs.Prelude.{◌≡◌, ◌≤◌, ◌<◌, ◌+◌, ◌^◌, ◌++◌, OnOk, IfOk};
ghost use Rattle.bounds_ranges.specs.Expressions.{AreFit, AreFitReads};
ghost use Rattle.bounds_ranges.specs.Numbers as ranges;
ghost use Rattle.bounds_ranges.specs.Ranges.{IsFit};
ghost use Rattle.bounds.specs.Inference as spec;

use crate::boxes::{NO_LOOPS, SourceBox};
use bounds_ranges::bases::no_base;
use bounds_ranges::expressions::{
    OwnCalls, RangeScope, ReadRange, Variables, ranged, ranged_update,
};
use bounds_ranges::ranges::{Ends, LEAST, Lasts, ORIGIN, Range, fit, literal};
use halide_pipeline::{Expr, Func, Pipeline, Reduction, Source, Update};
use std::alloc::AllocError;

/// A Func as it reads: where it is in its pipeline, and where its arguments lie.
#[derive(Clone, Copy)]
pub struct ReadingFunc<'a> {
    pub pipeline: &'a Pipeline,
    /// Which Funcs are inlined.
    pub flags: &'a [bool],
    /// The Func's place, from 0.
    pub place: usize,
    /// The box in which its arguments lie.
    pub view: &'a SourceBox,
}

/// The end that stands for a word, as a signed number.
fn spot(word: u32) -> u64
    ensures is { result ≡ ranges.spot word }
    ensures high { result ≤ 2 ^ 62 + 2 ^ 31 }
{
    u64::from(word.wrapping_add(1 << 31)) + LEAST
}

/// The range of a reduction variable.
fn reduction_range(lasts: &Lasts, reduction: &Reduction) -> Range
    ensures value { result ≡ spec.reduction_range lasts.now reduction.now }
    ensures fits { IsFit lasts.now result }
{
    let low = spot(reduction.minimum);
    let ends = Ends {
        low,
        high: low + u64::from(reduction.extent.saturating_sub(1)),
    };
    fit(lasts, no_base(), ends)
}

/// The range of a second one, 0 where there is none.
fn second_range(lasts: &Lasts, second: &Option<Reduction>) -> Range
    ensures value { result ≡ spec.second_range lasts.now second.now }
    ensures fits { IsFit lasts.now result }
{
    match second {
        None => literal(lasts, 0),
        Some(own) => reduction_range(lasts, own),
    }
}

/// The variables of a pure definition, whose arguments lie in this box.
#[tactic(auto, using(crate::proofs::Variables::are_fit))]
fn pure_variables(view: &SourceBox) -> Variables
    requires x { IsFit view.now.lasts view.now.x }
    requires y { IsFit view.now.lasts view.now.y }
    ensures value { result ≡ spec.pure_variables view.now }
    ensures fits { AreFit view.now.lasts result }
{
    let zero = literal(&view.lasts, 0);
    Variables {
        first_argument: view.x,
        second_argument: view.y,
        first_reduction: zero,
        second_reduction: zero,
    }
}

/// Those of an update.
#[tactic(auto, using(crate::proofs::Variables::are_fit))]
fn update_variables(view: &SourceBox, update: &Update) -> Variables
    requires x { IsFit view.now.lasts view.now.x }
    requires y { IsFit view.now.lasts view.now.y }
    ensures value { result ≡ spec.update_variables view.now update.now }
    ensures fits { AreFit view.now.lasts result }
{
    Variables {
        first_argument: view.x,
        second_argument: view.y,
        first_reduction: reduction_range(&view.lasts, &update.first),
        second_reduction: second_range(&view.lasts, &update.second),
    }
}

fn own_calls(func_index: usize, update: &Update) -> OwnCalls
    ensures { result ≡ spec.own_calls func_index update.now }
{
    OwnCalls {
        func: func_index,
        first_in_place: update.is_first_in_place(),
        second_in_place: update.is_second_in_place(),
    }
}

/// The range of a left index, after what it reads.
#[tactic(auto, unfolding(crate::specs::Inference::left))]
fn ask_left(
    reader: &ReadingFunc<'_>,
    update: &Update,
    index: &Expr,
    asked: &mut Vec<ReadRange>,
) -> Result<Range, AllocError>
    requires x { IsFit reader.now.view.now.lasts reader.now.view.now.x }
    requires y { IsFit reader.now.view.now.lasts reader.now.view.now.y }
    requires reads { AreFitReads reader.now.view.now.lasts asked.old.items }
    ensures range { IfOk result (λ r. r
        ≡ (spec.left reader.now.pipeline.now.inputs reader.now.pipeline.now.funcs reader.now.flags.now
        reader.now.place reader.now.view.now update.now index.now).range) }
    ensures fits { IfOk result (λ r. IsFit reader.now.view.now.lasts r) }
    ensures asked { OnOk result (asked.new.items ≡ asked.old.items
        ++ (spec.left reader.now.pipeline.now.inputs reader.now.pipeline.now.funcs reader.now.flags.now
        reader.now.place reader.now.view.now update.now index.now).asked) }
    ensures reads { OnOk result (AreFitReads reader.now.view.now.lasts asked.new.items) }
{
    let variables = update_variables(reader.view, update);
    let own = own_calls(reader.place, update);
    let scope = RangeScope {
        lasts: &reader.view.lasts,
        inputs: reader.pipeline.inputs(),
        funcs: reader.pipeline.funcs(),
        flags: reader.flags,
        count: reader.place,
        variables: &variables,
    };
    let range = ranged_update(&scope, &own, true, index, asked)?;
    Ok(range)
}

/// The same of a second left index; 0 where there is none.
fn ask_second_left(
    reader: &ReadingFunc<'_>,
    update: &Update,
    asked: &mut Vec<ReadRange>,
) -> Result<Range, AllocError>
    requires x { IsFit reader.now.view.now.lasts reader.now.view.now.x }
    requires y { IsFit reader.now.view.now.lasts reader.now.view.now.y }
    requires reads { AreFitReads reader.now.view.now.lasts asked.old.items }
    ensures range { IfOk result (λ r. r
        ≡ (spec.second_left reader.now.pipeline.now.inputs reader.now.pipeline.now.funcs reader.now.flags.now
        reader.now.place reader.now.view.now update.now update.now.left_y).range) }
    ensures fits { IfOk result (λ r. IsFit reader.now.view.now.lasts r) }
    ensures asked { OnOk result (asked.new.items ≡ asked.old.items
        ++ (spec.second_left reader.now.pipeline.now.inputs reader.now.pipeline.now.funcs reader.now.flags.now
        reader.now.place reader.now.view.now update.now update.now.left_y).asked) }
    ensures reads { OnOk result (AreFitReads reader.now.view.now.lasts asked.new.items) }
{
    match &update.left_y {
        None => Ok(literal(&reader.view.lasts, 0)),
        Some(index) => {
            let range = ask_left(reader, update, index, asked)?;
            Ok(range)
        }
    }
}

/// Appends what the right side of an update reads.
#[tactic(auto, unfolding(crate::specs::Inference::right))]
fn ask_right(
    reader: &ReadingFunc<'_>,
    update: &Update,
    asked: &mut Vec<ReadRange>,
) -> Result<(), AllocError>
    requires few { reader.now.place < 2 ^ 63 }
    requires x { IsFit reader.now.view.now.lasts reader.now.view.now.x }
    requires y { IsFit reader.now.view.now.lasts reader.now.view.now.y }
    requires reads { AreFitReads reader.now.view.now.lasts asked.old.items }
    ensures asked { OnOk result (asked.new.items ≡ asked.old.items
        ++ (spec.right reader.now.pipeline.now.inputs reader.now.pipeline.now.funcs reader.now.flags.now
        reader.now.place reader.now.view.now update.now).asked) }
    ensures reads { OnOk result (AreFitReads reader.now.view.now.lasts asked.new.items) }
{
    let variables = update_variables(reader.view, update);
    let own = own_calls(reader.place, update);
    let scope = RangeScope {
        lasts: &reader.view.lasts,
        inputs: reader.pipeline.inputs(),
        funcs: reader.pipeline.funcs(),
        flags: reader.flags,
        count: reader.place + 1,
        variables: &variables,
    };
    ranged_update(&scope, &own, false, &update.right, asked)?;
    Ok(())
}

/// Appends what an update of the Func reads, and its left side as a read of the Func.
#[tactic(auto, unfolding(crate::specs::Inference::update_asked), using(bounds_ranges::proofs::Walking::fit_behind))]
pub fn ask_update(
    reader: &ReadingFunc<'_>,
    update: &Update,
    asked: &mut Vec<ReadRange>,
) -> Result<(), AllocError>
    requires few { reader.now.place < 2 ^ 63 }
    requires x { IsFit reader.now.view.now.lasts reader.now.view.now.x }
    requires y { IsFit reader.now.view.now.lasts reader.now.view.now.y }
    requires reads { AreFitReads reader.now.view.now.lasts asked.old.items }
    ensures asked { OnOk result (asked.new.items ≡ asked.old.items
        ++ spec.update_asked reader.now.pipeline.now.inputs reader.now.pipeline.now.funcs reader.now.flags.now
        reader.now.place reader.now.view.now update.now) }
    ensures reads { OnOk result (AreFitReads reader.now.view.now.lasts asked.new.items) }
{
    let x = ask_left(reader, update, &update.left_x, asked)?;
    let y = ask_second_left(reader, update, asked)?;
    asked.push(ReadRange {
        source: Source::Func(reader.place),
        x,
        y,
    })?;
    ask_right(reader, update, asked)?;
    Ok(())
}

/// The same of updates.
fn ask_updates(
    reader: &ReadingFunc<'_>,
    updates: &[Update],
    asked: &mut Vec<ReadRange>,
) -> Result<(), AllocError>
    requires few { reader.now.place < 2 ^ 63 }
    requires x { IsFit reader.now.view.now.lasts reader.now.view.now.x }
    requires y { IsFit reader.now.view.now.lasts reader.now.view.now.y }
    requires reads { AreFitReads reader.now.view.now.lasts asked.old.items }
    ensures asked { OnOk result (asked.new.items ≡ asked.old.items
        ++ spec.updates_asked reader.now.pipeline.now.inputs reader.now.pipeline.now.funcs reader.now.flags.now
        reader.now.place reader.now.view.now updates.now) }
    ensures reads { OnOk result (AreFitReads reader.now.view.now.lasts asked.new.items) }
{
    match updates {
        [] => Ok(()),
        [update, others @ ..] => {
            ask_update(reader, update, asked)?;
            ask_updates(reader, others, asked)?;
            Ok(())
        }
    }
}

/// Appends all that the Func reads; `func` has its definitions.
#[tactic(auto, unfolding(crate::specs::Inference::func_asked))]
pub fn ask_func(
    reader: &ReadingFunc<'_>,
    func: &Func,
    asked: &mut Vec<ReadRange>,
) -> Result<(), AllocError>
    requires few { reader.now.place < 2 ^ 63 }
    requires x { IsFit reader.now.view.now.lasts reader.now.view.now.x }
    requires y { IsFit reader.now.view.now.lasts reader.now.view.now.y }
    requires reads { AreFitReads reader.now.view.now.lasts asked.old.items }
    ensures asked { OnOk result (asked.new.items ≡ asked.old.items
        ++ spec.func_asked reader.now.pipeline.now.inputs reader.now.pipeline.now.funcs reader.now.flags.now
        reader.now.place reader.now.view.now func.now) }
    ensures reads { OnOk result (AreFitReads reader.now.view.now.lasts asked.new.items) }
{
    let variables = pure_variables(reader.view);
    let scope = RangeScope {
        lasts: &reader.view.lasts,
        inputs: reader.pipeline.inputs(),
        funcs: reader.pipeline.funcs(),
        flags: reader.flags,
        count: reader.place,
        variables: &variables,
    };
    ranged(&scope, &func.pure, asked)?;
    ask_updates(reader, func.updates.as_slice(), asked)?;
    Ok(())
}

/// Arguments that may be anywhere from -2^24 to 2^24.
pub fn unplaced() -> SourceBox
    ensures value { result ≡ spec.unplaced }
    ensures x { IsFit result.lasts result.x }
    ensures y { IsFit result.lasts result.y }
{
    let ends = Ends {
        low: ORIGIN - (1 << 24),
        high: ORIGIN + (1 << 24),
    };
    let anywhere = fit(&NO_LOOPS, no_base(), ends);
    SourceBox {
        x: anywhere,
        y: anywhere,
        lasts: NO_LOOPS,
    }
}
