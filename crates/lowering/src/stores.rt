//! Stores of definitions at the points where loops stand.

ghost use Rattle.std.specs.Prelude.{◌≡◌, ◌≤◌, ◌%◌, ◌^◌, IfOk, List, max, true, ◌+◌, ◌*◌, length};
ghost use Rattle.halide_pipeline.specs.Words as word;
ghost use Rattle.halide_pipeline.specs.Pixel.{at_point};
ghost use Rattle.bounds_inlining.specs.Inlining.{flagged};
ghost use Rattle.loop_ir.specs.Counters.{Values};
ghost use Rattle.loop_ir.specs.Depths.{depth};
ghost use Rattle.loop_ir.specs.Expressions.{linear_value};
ghost use Rattle.loop_ir.specs.Needs.{greatest_need};
ghost use Rattle.loop_ir.specs.Runs.{is_about};
ghost use Rattle.loop_ir.specs.Sizes.{whole_size};
ghost use Rattle.lowering_expressions.specs.Lowering.{environment};
ghost use Rattle.lowering_expressions.specs.Sizing.{AreShort, AreShortArguments, IsShort};
ghost use Rattle.lowering_nests.specs.LoopLanes.{IsLeaf};
ghost use Rattle.lowering.specs.PurePhases.{HitsPure, IsSoundPure, MissesPure, StoresPure, whole_at};
ghost use Rattle.lowering.specs.Registers.{taken};
ghost use Rattle.lowering.specs.Sizes.{counted};

use halide_pipeline::{Expr, Func, Variable};
use loop_ir::expressions as terms;
use loop_ir::expressions::{Counter, Linear};
use loop_ir::statements::{Stmt, Store};
use lowering_expressions::{Arguments, Callees, Corner, lowered};
use schedule_lines::LoopId;
use std::alloc::{AllocError, Global};

/// A Func whose definitions are lowered, and what its calls need.
#[derive(Clone, Copy)]
pub struct LoweredFunc<'a> {
    pub funcs: &'a [Func],
    /// Which Funcs are inlined.
    pub flags: &'a [bool],
    /// The corner of each Func's box.
    pub corners: &'a [Corner],
    /// The Func's place, from 0.
    pub place: usize,
}

/// Where the loop over a whole variable of the Func at a place is.
pub(crate) fn whole_of(
    alloc: Global,
    func_index: usize,
    variable: Variable,
) -> Result<Linear, AllocError>
    ensures value { IfOk result (λ sum. (values : Values) → linear_value values sum
        ≡ whole_at values func_index variable) }
    ensures one { IfOk result (λ sum. length sum.terms ≡ 1) }
{
    let counter = Counter {
        func: func_index,
        id: LoopId::Whole(variable),
    };
    let sum = Linear::of_counter(alloc, counter)?;
    Ok(sum)
}

/// A sum.
#[tactic(auto, using(crate::proofs::BaseWords::added_is))]
fn added(alloc: Global, first: Linear, second: &Linear) -> Result<Linear, AllocError>
    ensures value { IfOk result (λ sum. (values : Values) → linear_value values sum
        ≡ word.add (linear_value values first) (linear_value values second.now)) }
    ensures few { IfOk result (λ sum. length sum.terms ≤ length first.terms + length second.now.terms) }
{
    let opposite = Linear::of_number(alloc, 0).minus(second)?;
    let sum = first.minus(&opposite)?;
    Ok(sum)
}

/// What stands for the variables of the pure definition of the Func at a place: its points, counted from the corner of
/// its box.
fn arguments_of(alloc: Global, func_index: usize, corner: &Corner) -> Result<Arguments, AllocError>
    ensures short { IfOk result (λ made. IsShort corner.now → AreShortArguments made) }
    ensures values { IfOk result (λ made. (values : Values) → environment values made
        ≡ at_point (word.add (whole_at values func_index Variable.FirstArgument) (linear_value values corner.now.x))
        (word.add (whole_at values func_index Variable.SecondArgument) (linear_value values corner.now.y))) }
{
    let x = whole_of(alloc, func_index, Variable::FirstArgument)?;
    let y = whole_of(alloc, func_index, Variable::SecondArgument)?;
    let first_argument = added(alloc, x, &corner.x)?;
    let second_argument = added(alloc, y, &corner.y)?;
    Ok(Arguments {
        first_argument,
        second_argument,
        first_reduction: Linear::of_number(alloc, 0),
        second_reduction: Linear::of_number(alloc, 0),
    })
}

/// The store of a pure definition of a Func, whose box has this corner, where the loops over whole
/// variables stand.
///
/// # Errors
///
/// Memory ran out.
pub fn pure_store(
    alloc: Global,
    reader: &LoweredFunc<'_>,
    corner: &Corner,
    pure: &Expr,
) -> Result<Stmt, AllocError>
    ensures stores { IfOk result (λ made. StoresPure reader.now.corners.now (flagged reader.now.flags.now)
        reader.now.funcs.now reader.now.place corner.now pure.now made) }
    ensures hits { IfOk result (HitsPure reader.now.place) }
    ensures misses { IfOk result (MissesPure reader.now.place) }
    ensures about { IfOk result (λ made. is_about reader.now.place made ≡ true) }
    ensures leaf { IfOk result IsLeaf }
    ensures sound { IfOk result (λ made. IsSoundPure reader.now.corners.now (flagged reader.now.flags.now)
        reader.now.funcs.now reader.now.place corner.now pure.now made) }
    ensures depth { IfOk result (λ made. depth made ≡ 0) }
    ensures needs { IfOk result (λ made. greatest_need made ≤ max 1 (taken reader.now.flags.now reader.now.funcs.now
        reader.now.place pure.now)) }
    ensures sizes { IfOk result (λ made. AreShort reader.now.corners.now → IsShort corner.now
        → whole_size made + 8 ≤ 64 * counted reader.now.flags.now reader.now.funcs.now reader.now.place pure.now) }
{
    let arguments = arguments_of(alloc, reader.place, corner)?;
    let callees = Callees {
        funcs: reader.funcs,
        flags: reader.flags,
        count: reader.place,
        corners: reader.corners,
    };
    let value = lowered(alloc, &callees, &arguments, pure)?;
    let x = whole_of(alloc, reader.place, Variable::FirstArgument)?;
    let y = whole_of(alloc, reader.place, Variable::SecondArgument)?;
    Ok(Stmt::Store(Store {
        func: reader.place,
        x: terms::Expr::Linear(x),
        y: terms::Expr::Linear(y),
        value,
    }))
}
