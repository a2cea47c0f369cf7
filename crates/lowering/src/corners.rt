//! Corners of boxes.

ghost use Rattle.std.specs.Prelude.{◌≡◌, ◌≤◌, ◌+◌, ◌*◌, ◌%◌, ◌^◌, List, IfOk, OnOk, length, slice_get};
ghost use Rattle.std.specs.Option.{option_copied};
ghost use Rattle.bounds.specs.Boxes as bounds_boxes;
ghost use Rattle.bounds_laws.specs.ConsumerLaws.{iteration_at, values_in};
ghost use Rattle.lowering_expressions.specs.Sizing.{AreShort, IsShort};
ghost use Rattle.loop_ir.specs.Counters.{Values};
ghost use Rattle.loop_ir.specs.Expressions.{linear_value, sum_of};
ghost use Rattle.lowering.specs.Corners as spec;
ghost use Rattle.bounds.specs.Extents as planes;
ghost use Rattle.lowering_nests.specs.Nests.{loops_of};
ghost use Rattle.bounds_ranges.specs.Ranges.{less_sum, more_sum};

use bounds::SourceBox;
use bounds::views::inner_count;
use bounds_ranges::bases::Multiple;
use bounds_ranges::ranges::{LEAST, Range};
use halide_pipeline::words;
use loop_ir::expressions::{Counter, Linear, Term};
use lowering_expressions::Corner;
use schedule::{ComputeLevel, FuncPlacement, FuncPlan};
use schedule_lines::{Loop, LoopId};
use sqlite_items::Items;
use std::alloc::{AllocError, Global};

/// The word that is at an end of a range.
pub(crate) fn word_at(end: u64) -> u32
    ensures { result ≡ planes.word_at end }
{
    ((end.saturating_sub(LEAST) + (1 << 31)) % (1 << 32)) as u32
}

/// What is at the iteration of the loop at a place, if it isn't among this many loops that stand inside.
fn counter_at(func: usize, loops: &[Loop], inner: usize, at: usize) -> Option<Counter>
    ensures { (values : Values) → spec.counted_at values result
        ≡ iteration_at inner (loops_of func values) loops.now at }
{
    if at < inner {
        return None;
    }
    match loops.get(at) {
        None => None,
        Some(own) => Some(Counter { func, id: own.id }),
    }
}

/// What is at the iterations of a loop of the Func at a place and of those outside of it.
fn counters_from(func: usize, plan: &FuncPlan, inside: LoopId) -> [Option<Counter>; 5]
    ensures { (values : Values) → spec.counted values result ≡ values_in plan.now inside (loops_of func values) }
{
    let loops = plan.pure.loops.as_slice();
    let inner = inner_count(inside, loops);
    [
        counter_at(func, loops, inner, 0),
        counter_at(func, loops, inner, 1),
        counter_at(func, loops, inner, 2),
        counter_at(func, loops, inner, 3),
        counter_at(func, loops, inner, 4),
    ]
}

/// No counters, for a box that has no base.
fn no_counters() -> [Option<Counter>; 5]
    ensures { (values : Values) → spec.counted values result ≡ bounds_boxes.no_loops }
{
    [None, None, None, None, None]
}

/// What is at the iterations that the base of a Func's box counts.
fn counters_of(plans: &[FuncPlan], level: ComputeLevel) -> [Option<Counter>; 5]
    ensures { (values : Values) → spec.counted values result ≡ spec.iterations_for plans.now level values }
{
    match level {
        ComputeLevel::At(at) => match plans.get(at.func) {
            None => no_counters(),
            Some(plan) => counters_from(at.func, plan, at.inside),
        },
        ComputeLevel::Root => no_counters(),
        ComputeLevel::Inlined => no_counters(),
        ComputeLevel::Nowhere => no_counters(),
    }
}

/// The word that a multiple comes to.
fn stride_of(multiple: Multiple) -> u32
    ensures { (result + multiple.less) % 2 ^ 32 ≡ multiple.more % 2 ^ 32 }
{
    words::subtract(
        (multiple.more % (1 << 32)) as u32,
        (multiple.less % (1 << 32)) as u32,
    )
}

/// Adds a counter times a multiple, if there is a counter.
#[tactic(auto, using(crate::proofs::BaseWords::term_more))]
fn add_multiple(
    multiple: Multiple,
    counter: Option<Counter>,
    terms: &mut Items<Term>,
) -> Result<(), AllocError>
    ensures few { OnOk result (length terms.new ≤ length terms.old + 1) }
    ensures sum { OnOk result ((values : Values)
        → (sum_of values terms.new + multiple.less * spec.counted_at values counter) % 2 ^ 32
        ≡ (sum_of values terms.old + multiple.more * spec.counted_at values counter) % 2 ^ 32) }
{
    match counter {
        None => Ok(()),
        Some(counter) => {
            let stride = stride_of(multiple);
            terms.push(Term { counter, stride })?;
            Ok(())
        }
    }
}

/// Adds counters times the multiples of a base.
#[tactic(auto, using(crate::proofs::BaseWords::sums_follow))]
fn add_base(
    base: &[Multiple],
    counters: &[Option<Counter>],
    terms: &mut Items<Term>,
) -> Result<(), AllocError>
    ensures few { OnOk result (length terms.new ≤ length terms.old + length counters.now) }
    ensures sum { OnOk result ((values : Values)
        → (sum_of values terms.new + less_sum base.now (spec.counted values counters.now)) % 2 ^ 32
        ≡ (sum_of values terms.old + more_sum base.now (spec.counted values counters.now)) % 2 ^ 32) }
{
    match base {
        [] => Ok(()),
        [own, multiples @ ..] => match counters {
            [] => Ok(()),
            [counter, others @ ..] => {
                add_multiple(*own, *counter, terms)?;
                add_base(multiples, others, terms)?;
                Ok(())
            }
        },
    }
}

/// Where a range begins, while its base counts what these stand at.
#[tactic(auto, using(crate::proofs::BaseWords::begins_at))]
fn first_of(
    alloc: Global,
    range: &Range,
    counters: &[Option<Counter>],
) -> Result<Linear, AllocError>
    ensures few { IfOk result (λ made. length made.terms ≤ length counters.now) }
    ensures value { IfOk result (λ made. (values : Values) → linear_value values made
        ≡ spec.first_of range.now (spec.counted values counters.now)) }
{
    let mut terms = Items::new(alloc);
    add_base(&range.base, counters, &mut terms)?;
    let number = word_at(range.low);
    Ok(Linear { number, terms })
}

/// The corner of the box of a Func that is computed there.
///
/// # Errors
///
/// Memory ran out.
pub fn corner_of(
    alloc: Global,
    plans: &[FuncPlan],
    level: ComputeLevel,
    source_box: &SourceBox,
) -> Result<Corner, AllocError>
    ensures short { IfOk result IsShort }
    ensures is { IfOk result (λ corner. spec.IsCorner plans.now level source_box.now corner) }
{
    let counters = counters_of(plans, level);
    let x = first_of(alloc, &source_box.x, &counters)?;
    let y = first_of(alloc, &source_box.y, &counters)?;
    Ok(Corner { x, y })
}

/// The corner of a box; 0, 0 where there is none.
fn corner_or_none(
    alloc: Global,
    plans: &[FuncPlan],
    level: ComputeLevel,
    source_box: &Option<SourceBox>,
) -> Result<Corner, AllocError>
    ensures short { IfOk result IsShort }
    ensures is { IfOk result (λ corner. spec.IsCornerOf plans.now level source_box.now corner) }
{
    match source_box {
        None => {
            let x = Linear::of_number(alloc, 0);
            let y = Linear::of_number(alloc, 0);
            Ok(Corner { x, y })
        }
        Some(source_box) => {
            let corner = corner_of(alloc, plans, level, source_box)?;
            Ok(corner)
        }
    }
}

/// The corner of each box, of Funcs of which this becomes.
///
/// # Errors
///
/// Memory ran out.
pub fn corners_of(
    alloc: Global,
    plans: &[FuncPlan],
    boxes: &[Option<SourceBox>],
    standings: &[FuncPlacement],
) -> Result<Vec<Corner>, AllocError>
    ensures short { IfOk result (λ corners. AreShort corners.items) }
    ensures are { IfOk result (λ corners. spec.AreCorners plans.now boxes.now standings.now corners.items) }
{
    match boxes {
        [] => Ok(Vec::new(alloc)),
        [own, others @ ..] => match standings {
            [] => Ok(Vec::new(alloc)),
            [standing, behind @ ..] => {
                let mut corners = corners_of(alloc, plans, others, behind)?;
                let corner = corner_or_none(alloc, plans, standing.place, own)?;
                corners.insert(0, corner)?;
                Ok(corners)
            }
        },
    }
}

/// The corner at a place, if there is one.
pub(crate) fn corner_at(corners: &[Corner], func_index: usize) -> Option<&Corner>
    ensures { option_copied result ≡ slice_get corners.now func_index }
{
    corners.get(func_index)
}
