//! Stores of updates at the points where loops stand.

ghost use Rattle.std.specs.Prelude.{◌≡◌, ◌+◌, ◌<◌, ◌≤◌, ◌^◌, Bool, IfOk, List, true, ◌*◌, length};
ghost use Rattle.halide_pipeline.specs.Words as word;
ghost use Rattle.halide_pipeline.specs.Pixel.{Reads, variable as variable_in};
ghost use Rattle.halide_pipeline.specs.Points.{Hold, Point};
ghost use Rattle.bounds_inlining.specs.Inlining.{flagged, inlined};
ghost use Rattle.bounds_inlining.specs.Laws.{seen_variable};
ghost use Rattle.bounds_inlining.specs.Values.{values as valuing, seeing};
ghost use Rattle.loop_ir.specs.Counters.{Values};
ghost use Rattle.loop_ir.specs.Depths.{depth};
ghost use Rattle.loop_ir.specs.Expressions.{linear_value, loads, value};
ghost use Rattle.loop_ir.specs.Needs.{greatest_need, need};
ghost use Rattle.loop_ir.specs.Runs.{is_about};
ghost use Rattle.loop_ir.specs.Sizes.{whole_size};
ghost use Rattle.lowering_expressions.specs.Lowering.{environment, place as place_in, placed};
ghost use Rattle.lowering_expressions.specs.Sizing.{AreShort, AreShortArguments, IsShort};
ghost use Rattle.lowering.specs.Registers.{second_taken, update_taken};
ghost use Rattle.lowering.specs.Sizes.{IsGivenIndex, update_counted};
ghost use Rattle.lowering.specs.Updates as spec;
ghost use Rattle.lowering_nests.specs.LoopLanes.{IsLeaf};

use crate::stores::{LoweredFunc, whole_of};
use halide_pipeline::{Expr, Reduction, Update, Variable};
use loop_ir::expressions as terms;
use loop_ir::expressions::Linear;
use loop_ir::statements::{Stmt, Store};
use lowering_expressions::calls::counted_from;
use lowering_expressions::{Arguments, Callees, Corner, lowered};
use std::alloc::{AllocError, Global};

/// The sum of two.
fn plus(alloc: Global, sum: Linear, other: &Linear) -> Result<Linear, AllocError>
    ensures value { IfOk result (λ new_sum. (values : Values) → linear_value values new_sum
        ≡ word.add (linear_value values sum) (linear_value values other.now)) }
    ensures few { IfOk result (λ new_sum. length new_sum.terms ≤ length sum.terms + length other.now.terms) }
{
    let opposite = Linear::of_number(alloc, 0).minus(other)?;
    let new_sum = sum.minus(&opposite)?;
    Ok(new_sum)
}

/// What stands for a second reduction variable of an update of the Func at a place, where there is one.
fn second_of(
    alloc: Global,
    func_index: usize,
    second: &Option<Reduction>,
) -> Result<Linear, AllocError>
    ensures value { IfOk result (λ made. (values : Values) → linear_value values made
        ≡ spec.second_reduced values func_index second.now) }
    ensures few { IfOk result (λ made. length made.terms ≤ 1) }
{
    match second {
        None => Ok(Linear::of_number(alloc, 0)),
        Some(reduction) => {
            let whole = whole_of(alloc, func_index, Variable::SecondReduction)?;
            Ok(whole.plus_number(reduction.minimum))
        }
    }
}

/// What stands for the variables of an update of the Func at a place: its arguments, counted from its corner, and the
/// reduction variables, from their minimum.
fn arguments_of(
    alloc: Global,
    func_index: usize,
    corner: &Corner,
    update: &Update,
) -> Result<Arguments, AllocError>
    ensures short { IfOk result (λ made. IsShort corner.now → AreShortArguments made) }
    ensures values { IfOk result (λ made. (values : Values) → environment values made
        ≡ spec.visited_point values func_index corner.now update.now) }
{
    let across = whole_of(alloc, func_index, Variable::FirstArgument)?;
    let down = whole_of(alloc, func_index, Variable::SecondArgument)?;
    let first_argument = plus(alloc, across, &corner.x)?;
    let second_argument = plus(alloc, down, &corner.y)?;
    let first = whole_of(alloc, func_index, Variable::FirstReduction)?;
    let first_reduction = first.plus_number(update.first.minimum);
    let second_reduction = second_of(alloc, func_index, &update.second)?;
    Ok(Arguments {
        first_argument,
        second_argument,
        first_reduction,
        second_reduction,
    })
}

/// What a second index comes to, 0 where none is written.
fn second_index(
    alloc: Global,
    reader: &LoweredFunc<'_>,
    arguments: &Arguments,
    index: &Option<Expr>,
) -> Result<terms::Expr, AllocError>
    ensures value { IfOk result (λ expression. (reads : Reads) (values : Values) → value reads values expression
        ≡ spec.index_of (inlined (valuing (placed reader.now.corners.now values reads)) (flagged reader.now.flags.now)
        reader.now.funcs.now reader.now.place (variable_in (environment values arguments.now))) index.now) }
    ensures loads { IfOk result (λ expression. (reads : Reads) (values : Values) (test : Point → Bool)
        → Hold (λ point. test (place_in reader.now.corners.now values point))
        (spec.points_of_index (λ e. (inlined (seeing (placed reader.now.corners.now values reads))
        (flagged reader.now.flags.now) reader.now.funcs.now reader.now.place (seen_variable
        (environment values arguments.now)) e).points) index.now)
        → Hold test (loads reads values expression)) }
    ensures needs { IfOk result (λ expression. need expression ≤ second_taken reader.now.flags.now reader.now.funcs.now
        reader.now.place index.now) }
    ensures sizes { IfOk result (λ expression. AreShort reader.now.corners.now → AreShortArguments arguments.now
        → IsGivenIndex reader.now.flags.now reader.now.funcs.now reader.now.place index.now expression) }
{
    match index {
        None => Ok(terms::Expr::Number(0)),
        Some(index) => {
            let callees = Callees {
                funcs: reader.funcs,
                flags: reader.flags,
                count: reader.place,
                corners: reader.corners,
            };
            let expression = lowered(alloc, &callees, arguments, index)?;
            Ok(expression)
        }
    }
}

/// The store of an update of a Func, where the loops over whole variables stand: at the point that its
/// left side names, counted from the Func's corner.
///
/// # Errors
///
/// Memory ran out.
pub fn update_store(
    alloc: Global,
    reader: &LoweredFunc<'_>,
    corner: &Corner,
    update: &Update,
) -> Result<Stmt, AllocError>
    requires { reader.now.place + 1 < 2 ^ 64 }
    ensures stores { IfOk result (λ made. spec.StoresUpdate reader.now.corners.now (flagged reader.now.flags.now)
        reader.now.funcs.now reader.now.place corner.now update.now made) }
    ensures hits { IfOk result (λ made. spec.HitsUpdate reader.now.corners.now (flagged reader.now.flags.now)
        reader.now.funcs.now reader.now.place corner.now update.now made) }
    ensures leaf { IfOk result IsLeaf }
    ensures about { IfOk result (λ made. is_about reader.now.place made ≡ true) }
    ensures sound { IfOk result (λ made. spec.IsSoundUpdate reader.now.corners.now (flagged reader.now.flags.now)
        reader.now.funcs.now reader.now.place corner.now update.now made) }
    ensures depth { IfOk result (λ made. depth made ≡ 0) }
    ensures needs { IfOk result (λ made. greatest_need made ≤ update_taken reader.now.flags.now reader.now.funcs.now
        reader.now.place update.now) }
    ensures sizes { IfOk result (λ made. AreShort reader.now.corners.now → IsShort corner.now
        → whole_size made + 8 ≤ 64 * update_counted reader.now.flags.now reader.now.funcs.now reader.now.place
        update.now) }
{
    let arguments = arguments_of(alloc, reader.place, corner, update)?;
    let callees = Callees {
        funcs: reader.funcs,
        flags: reader.flags,
        count: reader.place,
        corners: reader.corners,
    };
    let column = lowered(alloc, &callees, &arguments, &update.left_x)?;
    let row = second_index(alloc, reader, &arguments, &update.left_y)?;
    let with_own = Callees {
        count: reader.place + 1,
        ..callees
    };
    let value = lowered(alloc, &with_own, &arguments, &update.right)?;
    let x = counted_from(alloc, column, &corner.x)?;
    let y = counted_from(alloc, row, &corner.y)?;
    Ok(Stmt::Store(Store {
        func: reader.place,
        x,
        y,
        value,
    }))
}
