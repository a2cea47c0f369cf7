//! Between which numbers the arguments of a Func lie where it reads a source.

ghost use Rattle.std.specs.Prelude.{◌≡◌, ◌≤◌, ◌+◌, ◌*◌, ◌^◌, nat_lt, not, if◌then◌else◌, Some, IfOk, length, slice_get};
ghost use Rattle.schedule_loops.specs.Visits.{AreSplits};
ghost use Rattle.schedule_loops.specs.Reach as reaching;
ghost use Rattle.bounds_ranges.specs.Ranges.{zero_multiple};
ghost use Rattle.bounds_ranges.specs.Ranges.{IsFit};
ghost use Rattle.bounds.specs.Boxes.{IsBox};
ghost use Rattle.bounds.specs.Views as spec;
ghost use Rattle.bounds.specs.Extents as spec_extents;

use crate::boxes::{ConsumerLoop, SourceBox, extents_of};
use bounds_ranges::bases::{Base, Multiple, less_sum, more_sum, no_base};
use bounds_ranges::ranges::{Ends, Lasts, Range, fit};
use halide_pipeline::Variable;
use schedule::{ComputeLevel, FuncPlan, Schedule};
use schedule_lines::stages::same_id;
use schedule_lines::{Loop, LoopId, Stage};
use schedule_loops::LoopSizes;
use std::alloc::{AllocError, Global};

/// How many loops stand inside this one.
pub fn inner_count(id: LoopId, loops: &[Loop]) -> usize
    ensures is { result ≡ spec.inner_count id loops.now }
    ensures few { result ≤ length loops.now }
{
    match loops {
        [] => 0,
        [first, outside @ ..] => {
            if same_id(first.id, id) {
                0
            } else {
                inner_count(id, outside) + 1
            }
        }
    }
}

/// The greatest value of the loop at a place; 0 where none is there.
fn last_at(sizes: &LoopSizes, loops: &[Loop], at: usize) -> u32
    ensures { result ≡ spec.last_at sizes.now.extents sizes.now.splits loops.now at }
{
    match loops.get(at) {
        None => 0,
        Some(own) => sizes.size(own.id).count.saturating_sub(1),
    }
}

/// The greatest value of each loop.
fn lasts_in(sizes: &LoopSizes, loops: &[Loop]) -> Lasts
    ensures { result ≡ spec.lasts_in sizes.now.extents sizes.now.splits loops.now }
{
    [
        last_at(sizes, loops, 0),
        last_at(sizes, loops, 1),
        last_at(sizes, loops, 2),
        last_at(sizes, loops, 3),
        last_at(sizes, loops, 4),
    ]
}

/// The sizes of the loops of a pure definition over a box.
pub fn sizes_of(
    alloc: Global,
    stage: &Stage,
    source_box: &SourceBox,
) -> Result<LoopSizes, AllocError>
    requires splits { AreSplits stage.now.splits }
    requires near { IsBox source_box.now }
    ensures { IfOk result (λ sizes. sizes
        ≡ record { extents = spec_extents.extents_of source_box.now; splits = stage.now.splits }) }
{
    let sizes = LoopSizes::new(alloc, extents_of(source_box), stage.splits.as_slice())?;
    Ok(sizes)
}

/// A loop of a stage.
#[tactic(auto, unfolding(crate::specs::Views::consumer_loop_in))]
fn consumer_loop_in(sizes: &LoopSizes, loops: &[Loop], id: LoopId) -> ConsumerLoop
    ensures { result ≡ spec.consumer_loop_in sizes.now.extents sizes.now.splits loops.now id }
{
    ConsumerLoop {
        inside: id,
        inner: inner_count(id, loops),
        lasts: lasts_in(sizes, loops),
    }
}

/// A loop of the pure definition of a Func with this box.
pub fn consumer_loop(
    alloc: Global,
    plan: &FuncPlan,
    source_box: &SourceBox,
    id: LoopId,
) -> Result<ConsumerLoop, AllocError>
    requires small { spec.IsSmall plan.now.pure }
    requires near { IsBox source_box.now }
    ensures { IfOk result (λ consumer. consumer ≡ spec.consumer_loop plan.now source_box.now id) }
{
    let sizes = sizes_of(alloc, &plan.pure, source_box)?;
    Ok(consumer_loop_in(&sizes, plan.pure.loops.as_slice(), id))
}

/// How far an iteration of a loop takes a variable.
fn multiple_of(sizes: &LoopSizes, variable: Variable, stage_loop: &Loop) -> Multiple
    ensures { result ≡ spec.multiple_of sizes.now.splits variable (Some stage_loop.now) }
{
    if stage_loop.variable == variable {
        Multiple {
            more: u64::from(sizes.size(stage_loop.id).stride),
            less: 0,
        }
    } else {
        Multiple { more: 0, less: 0 }
    }
}

/// How far an iteration of the loop at a place takes a variable, if it is not one of the first this many.
fn multiple_at(
    sizes: &LoopSizes,
    loops: &[Loop],
    variable: Variable,
    inner: usize,
    at: usize,
) -> Multiple
    ensures { result ≡ spec.multiple_at sizes.now.splits loops.now variable inner at }
{
    if at < inner {
        return Multiple { more: 0, less: 0 };
    }
    match loops.get(at) {
        None => Multiple { more: 0, less: 0 },
        Some(own) => multiple_of(sizes, variable, own),
    }
}

/// The multiples of a variable in the loops after the first this many.
fn base_in(sizes: &LoopSizes, loops: &[Loop], variable: Variable, inner: usize) -> Base
    ensures { result ≡ spec.base_in sizes.now.splits loops.now variable inner }
{
    [
        multiple_at(sizes, loops, variable, inner, 0),
        multiple_at(sizes, loops, variable, inner, 1),
        multiple_at(sizes, loops, variable, inner, 2),
        multiple_at(sizes, loops, variable, inner, 3),
        multiple_at(sizes, loops, variable, inner, 4),
    ]
}

/// The most that loops can add to a variable.
fn reach(sizes: &LoopSizes, loops: &[Loop], variable: Variable) -> u64
    requires { length loops.now ≤ 5 }
    ensures is { result ≡ reaching.reach sizes.now.extents sizes.now.splits variable loops.now }
    ensures few { result ≤ length loops.now * 2 ^ 56 }
{
    match loops {
        [] => 0,
        [own, others @ ..] => sizes.most_added(own, variable) + reach(sizes, others, variable),
    }
}

/// The range of an argument of the consumer, of whose loops the first this many take all their values.
fn argument(
    lasts: &Lasts,
    sizes: &LoopSizes,
    loops: &[Loop],
    inner: usize,
    variable: Variable,
    range: &Range,
) -> Range
    requires few { length loops.now ≤ 5 }
    requires inside { inner ≤ length loops.now }
    requires ordered { range.now.low ≤ range.now.high }
    requires high { range.now.high ≤ 2 ^ 62 + 2 ^ 31 }
    ensures value { result ≡ spec.argument lasts.now sizes.now.extents sizes.now.splits loops.now inner variable
        range.now }
    ensures fits { IsFit lasts.now result }
{
    let (inside, outside) = loops.split_at(inner);
    if sizes.has_uneven(outside, variable) {
        let ends = Ends {
            low: range.low,
            high: range.high,
        };
        fit(lasts, no_base(), ends)
    } else {
        let ends = Ends {
            low: range.low,
            high: range.low + reach(sizes, inside, variable),
        };
        fit(lasts, base_in(sizes, loops, variable, inner), ends)
    }
}

/// The arguments of the consumer, of whose loops the first this many take all their values.
#[tactic(auto, unfolding(crate::specs::Views::consumer_view_in))]
fn consumer_view_in(
    sizes: &LoopSizes,
    loops: &[Loop],
    inner: usize,
    source_box: &SourceBox,
    consumer: &ConsumerLoop,
) -> SourceBox
    requires few { length loops.now ≤ 5 }
    requires inside { inner ≤ length loops.now }
    requires near { IsBox source_box.now }
    ensures value { result ≡ spec.consumer_view_in sizes.now.extents sizes.now.splits loops.now inner source_box.now
        consumer.now }
    ensures x { IsFit result.lasts result.x }
    ensures y { IsFit result.lasts result.y }
{
    let lasts = consumer.lasts;
    SourceBox {
        x: argument(
            &lasts,
            sizes,
            loops,
            inner,
            Variable::FirstArgument,
            &source_box.x,
        ),
        y: argument(
            &lasts,
            sizes,
            loops,
            inner,
            Variable::SecondArgument,
            &source_box.y,
        ),
        lasts,
    }
}

/// The arguments of the consumer.
fn consumer_view(
    alloc: Global,
    stage: &Stage,
    source_box: &SourceBox,
    consumer: &ConsumerLoop,
) -> Result<SourceBox, AllocError>
    requires small { spec.IsSmall stage.now }
    requires near { IsBox source_box.now }
    ensures value { IfOk result (λ view. view ≡ spec.consumer_view stage.now source_box.now consumer.now) }
    ensures x { IfOk result (λ view. IsFit view.lasts view.x) }
    ensures y { IfOk result (λ view. IsFit view.lasts view.y) }
{
    let sizes = sizes_of(alloc, stage, source_box)?;
    let loops = stage.loops.as_slice();
    let inner = inner_count(consumer.inside, loops);
    Ok(consumer_view_in(&sizes, loops, inner, source_box, consumer))
}

/// The multiple of a loop that is one of the first this many.
fn inner_multiple(inner: usize, at: usize, multiple: Multiple) -> Multiple
    ensures { result ≡ if nat_lt at inner then multiple else zero_multiple }
{
    if at < inner {
        multiple
    } else {
        Multiple { more: 0, less: 0 }
    }
}

/// The multiples of the first this many loops.
fn inner_part(inner: usize, base: Base) -> Base
    ensures { result ≡ spec.inner_part inner base }
{
    let [b0, b1, b2, b3, b4] = base;
    [
        inner_multiple(inner, 0, b0),
        inner_multiple(inner, 1, b1),
        inner_multiple(inner, 2, b2),
        inner_multiple(inner, 3, b3),
        inner_multiple(inner, 4, b4),
    ]
}

/// The multiple of a loop that is not one of the first this many.
fn outer_multiple(inner: usize, at: usize, multiple: Multiple) -> Multiple
    ensures { result ≡ if not (nat_lt at inner) then multiple else zero_multiple }
{
    if at < inner {
        Multiple { more: 0, less: 0 }
    } else {
        multiple
    }
}

/// The multiples of the loops after the first this many.
fn outer_part(inner: usize, base: Base) -> Base
    ensures { result ≡ spec.outer_part inner base }
{
    let [b0, b1, b2, b3, b4] = base;
    [
        outer_multiple(inner, 0, b0),
        outer_multiple(inner, 1, b1),
        outer_multiple(inner, 2, b2),
        outer_multiple(inner, 3, b3),
        outer_multiple(inner, 4, b4),
    ]
}

/// A range, where the first this many loops take all their values.
#[tactic(auto, using(crate::proofs::Settling::less_parts, crate::proofs::Settling::more_parts))]
fn settled(inner: usize, lasts: &Lasts, range: &Range) -> Range
    requires { IsFit lasts.now range.now }
    ensures value { result ≡ spec.settled inner lasts.now range.now }
    ensures fits { IsFit lasts.now result }
{
    let part = inner_part(inner, range.base);
    Range {
        base: outer_part(inner, range.base),
        low: range.low - less_sum(&part, lasts),
        high: range.high + more_sum(&part, lasts),
    }
}

fn settled_box(inner: usize, source_box: &SourceBox) -> SourceBox
    requires { IsBox source_box.now }
    ensures value { result ≡ spec.settled_box inner source_box.now }
    ensures x { IsFit result.lasts result.x }
    ensures y { IsFit result.lasts result.y }
{
    SourceBox {
        x: settled(inner, &source_box.lasts, &source_box.x),
        y: settled(inner, &source_box.lasts, &source_box.y),
        lasts: source_box.lasts,
    }
}

/// Whether the Func at a place is computed at root.
fn is_root_at(schedule: &Schedule, at: usize) -> bool
    ensures { result ≡ spec.is_root_at (slice_get schedule.now.standings at) }
{
    match schedule.standing(at) {
        None => false,
        Some(own) => matches!(own.place, ComputeLevel::Root),
    }
}

/// The arguments of the Func at a place, which has this box, where it reads a source that is computed at the consumer's
/// loop, or elsewhere where there is none.
pub fn view(
    alloc: Global,
    schedule: &Schedule,
    at: usize,
    source_box: &SourceBox,
    consumer: &Option<ConsumerLoop>,
) -> Result<SourceBox, AllocError>
    requires small { spec.AreSmall schedule.now }
    requires near { IsBox source_box.now }
    ensures value { IfOk result (λ view. view
        ≡ spec.view_of (slice_get schedule.now.funcs at) (slice_get schedule.now.standings at) source_box.now
        consumer.now) }
    ensures x { IfOk result (λ view. IsFit view.lasts view.x) }
    ensures y { IfOk result (λ view. IsFit view.lasts view.y) }
{
    let Some(consumer) = consumer else {
        return Ok(*source_box);
    };
    if !is_root_at(schedule, at) {
        return Ok(settled_box(consumer.inner, source_box));
    }
    match schedule.funcs.get(at) {
        None => Ok(*source_box),
        Some(plan) => {
            let view = consumer_view(alloc, &plan.pure, source_box, consumer)?;
            Ok(view)
        }
    }
}
