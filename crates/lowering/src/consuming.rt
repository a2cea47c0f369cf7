//! Loops of a consumer, with the nests of the Funcs that are computed at them.

ghost use Rattle.std.specs.Prelude.{◌≡◌, ◌-◌, ◌<◌, ◌≤◌, ◌^◌, ◌+◌, ◌++◌, IfOk, OnOk, length, slice_get, suc, true};
ghost use Rattle.std.specs.Prelude.{◌*◌};
ghost use Rattle.std.specs.Option.{option_copied};
ghost use Rattle.schedule.specs.declared.placements.ComputeLevel.TheVariants as places;
ghost use Rattle.schedule_loops.specs.Visits.{AreSplits, counts};
ghost use Rattle.schedule_loops.specs.Visits.{parallel};
ghost use Rattle.bounds.specs.Extents.{box_in};
ghost use Rattle.loop_ir.specs.Depths.{depth};
ghost use Rattle.loop_ir.specs.Needs.{greatest_need};
ghost use Rattle.loop_ir.specs.Runs.{is_about};
ghost use Rattle.loop_ir.specs.Sizes.{whole_size};
ghost use Rattle.bounds_weights.specs.Weight.{flags_of};
ghost use Rattle.lowering_nests.specs.Nests.{AreFew};
ghost use Rattle.lowering.specs.ProducedFuncs as produced;
ghost use Rattle.lowering.specs.Consuming as spec;
ghost use Rattle.lowering.specs.PurePhases.{inside_of};
ghost use Rattle.bounds.specs.Stages.{IsComputedAt};
ghost use Rattle.lowering.specs.Registers.{most_need};
ghost use Rattle.lowering.specs.LoopLanes.{MayAlwaysBeAtOnce};
ghost use Rattle.lowering.specs.Sizes.{shares};
ghost use Rattle.lowering.specs.Updates.{IsUpdateAt};

use crate::computed::ComputedFunc;
use crate::corners::{corner_at, corners_of};
use crate::nests::pure_nest;
use crate::updates::{UpdateOf, update_nest};
use bounds::{Plan, SourceBox};
use loop_ir::statements::Stmt;
use lowering_nests::loops::loop_once;
use lowering_nests::splits::with_splits;
use schedule::{ComputeLevel, FuncPlacement, LoopPosition};
use schedule_lines::stages::same_id;
use schedule_lines::{Loop, Stage};
use schedule_loops::{Extents, LoopSizes};
use sqlite_items::{Boxed, Items};
use std::alloc::{AllocError, Global};

/// Whether a place is at a loop of the consumer.
fn is_at_loop_of(consumer: usize, level: ComputeLevel) -> bool
    ensures { result ≡ produced.is_at_loop_of consumer level }
{
    match level {
        ComputeLevel::At(at) => at.func == consumer,
        ComputeLevel::Root => false,
        ComputeLevel::Inlined => false,
        ComputeLevel::Nowhere => false,
    }
}

/// Whether the output reaches a Func that is computed at a loop of the consumer.
fn is_produced(consumer: usize, placement: &FuncPlacement) -> bool
    ensures { result ≡ produced.is_produced consumer placement.now }
{
    placement.is_reached && is_at_loop_of(consumer, placement.place)
}

/// Adds the places of the Funcs that are computed at loops of the consumer, of those from a place on.
fn add_produced(
    consumer: usize,
    at: usize,
    standings: &[FuncPlacement],
    places: &mut Items<usize>,
) -> Result<(), AllocError>
    requires { at + length standings.now < 2 ^ 64 }
    ensures { OnOk result (places.new ≡ places.old ++ produced.produced_from consumer at standings.now) }
{
    match standings {
        [] => Ok(()),
        [first, others @ ..] => {
            if is_produced(consumer, first) {
                places.push(at)?;
            }
            add_produced(consumer, at + 1, others, places)?;
            Ok(())
        }
    }
}

/// The places of the Funcs that are computed at loops of the consumer, in order.
///
/// # Errors
///
/// Memory ran out.
pub fn produced_places(
    alloc: Global,
    consumer: usize,
    standings: &[FuncPlacement],
) -> Result<Items<usize>, AllocError>
    ensures { IfOk result (λ places. places ≡ produced.produced_from consumer 0 standings.now) }
{
    let mut places = Items::new(alloc);
    add_produced(consumer, 0, standings, &mut places)?;
    Ok(places)
}

/// Whether the output reaches a Func that is computed at this loop.
fn is_computed_at(at: LoopPosition, placement: &FuncPlacement) -> bool
    ensures { result ≡ produced.is_computed_at at placement.now }
{
    placement.is_reached
        && match placement.place {
            ComputeLevel::At(other) => other.func == at.func && same_id(other.inside, at.inside),
            ComputeLevel::Root => false,
            ComputeLevel::Inlined => false,
            ComputeLevel::Nowhere => false,
        }
}

/// The box at a place, if there is one.
pub fn box_at(boxes: &[Option<SourceBox>], func_index: usize) -> Option<&SourceBox>
    ensures { option_copied result ≡ box_in (slice_get boxes.now func_index) }
{
    match boxes.get(func_index) {
        Some(Some(own)) => Some(own),
        _ => None,
    }
}

/// The nest of an update of a Func that is computed at a loop, after the nests of the stages before it.
fn with_update(
    alloc: Global,
    plan: &Plan<'_>,
    at: LoopPosition,
    of: &UpdateOf<'_>,
    before: Stmt,
) -> Result<Stmt, AllocError>
    requires parts { IsComputedAt plan.now.pipeline plan.now.schedule plan.now.boxes (places.At at)
        of.now.computed.place of.now.computed.func.now of.now.computed.plan.now of.now.computed.own.now }
    requires update { IsUpdateAt plan.now.schedule of.now.computed.place of.now.computed.func.now
        of.now.computed.plan.now of.now.at of.now.update.now of.now.stage.now }
    requires before { spec.DoesNests plan.now.pipeline plan.now.schedule plan.now.boxes at
        of.now.computed.place of.now.computed.func.now of.now.computed.own.now of.now.at before }
    requires alone { spec.StoresInIt of.now.computed.place before }
    requires sound { spec.IsSoundNest plan.now.pipeline plan.now.schedule plan.now.boxes at
        of.now.computed.place of.now.computed.func.now of.now.computed.own.now before }
    requires few { depth before ≤ 9 }
    requires needs { greatest_need before ≤ most_need plan.now.pipeline plan.now.schedule }
    requires sizes { whole_size before ≤ 64 * shares (flags_of plan.now.schedule.standings)
        plan.now.pipeline.funcs of.now.computed.func.now of.now.computed.plan.now of.now.at }
    requires at_once { MayAlwaysBeAtOnce before }
    requires about { is_about of.now.computed.place before ≡ true }
    ensures does { IfOk result (spec.DoesNests plan.now.pipeline plan.now.schedule plan.now.boxes
        at of.now.computed.place of.now.computed.func.now of.now.computed.own.now (suc of.now.at)) }
    ensures alone { IfOk result (spec.StoresInIt of.now.computed.place) }
    ensures sound { IfOk result (spec.IsSoundNest plan.now.pipeline plan.now.schedule
        plan.now.boxes at of.now.computed.place of.now.computed.func.now of.now.computed.own.now) }
    ensures few { IfOk result (λ statement. depth statement ≤ 9) }
    ensures needs { IfOk result (λ statement. greatest_need statement ≤ most_need plan.now.pipeline
        plan.now.schedule) }
    ensures sizes { IfOk result (λ statement. whole_size statement ≤ 64 * shares (flags_of plan.now.schedule.standings)
        plan.now.pipeline.funcs of.now.computed.func.now of.now.computed.plan.now (suc of.now.at)) }
    ensures at_once { IfOk result MayAlwaysBeAtOnce }
    ensures about { IfOk result (λ statement. is_about of.now.computed.place statement ≡ true) }
{
    let schedule = plan.schedule();
    let plans = schedule.funcs.as_slice();
    let standings = schedule.standings.as_slice();
    let corners = corners_of(alloc, plans, plan.boxes().funcs.as_slice(), standings)?;
    let Some(corner) = corner_at(&corners, of.computed.place) else {
        return Ok(before);
    };
    let next = update_nest(alloc, plan, &corners, corner, of)?;
    let statement = in_order(alloc, Some(before), next)?;
    Ok(statement)
}

/// The nests of the pure definition and the first this many updates of a Func that is computed at a loop, one after the
/// other.
fn nests_upto(
    alloc: Global,
    plan: &Plan<'_>,
    at: LoopPosition,
    computed: &ComputedFunc<'_>,
    count: usize,
) -> Result<Stmt, AllocError>
    requires parts { IsComputedAt plan.now.pipeline plan.now.schedule plan.now.boxes (places.At at)
        computed.now.place computed.now.func.now computed.now.plan.now computed.now.own.now }
    requires count { count ≤ length computed.now.func.now.updates }
    ensures does { IfOk result (spec.DoesNests plan.now.pipeline plan.now.schedule plan.now.boxes
        at computed.now.place computed.now.func.now computed.now.own.now count) }
    ensures alone { IfOk result (spec.StoresInIt computed.now.place) }
    ensures sound { IfOk result (spec.IsSoundNest plan.now.pipeline plan.now.schedule
        plan.now.boxes at computed.now.place computed.now.func.now computed.now.own.now) }
    ensures few { IfOk result (λ statement. depth statement ≤ 9) }
    ensures needs { IfOk result (λ statement. greatest_need statement ≤ most_need plan.now.pipeline
        plan.now.schedule) }
    ensures sizes { IfOk result (λ statement. whole_size statement ≤ 64 * shares (flags_of plan.now.schedule.standings)
        plan.now.pipeline.funcs computed.now.func.now computed.now.plan.now count) }
    ensures at_once { IfOk result MayAlwaysBeAtOnce }
    ensures about { IfOk result (λ statement. is_about computed.now.place statement ≡ true) }
{
    // What every plan keeps is known once its parts are read.
    let _schedule = plan.schedule();
    let Some(number) = count.checked_sub(1) else {
        let statement = pure_nest(alloc, plan, at, computed)?;
        return Ok(statement);
    };
    let before = nests_upto(alloc, plan, at, computed, number)?;
    let Some(update) = computed.func.updates.get(number) else {
        return Ok(before);
    };
    let Some(stage) = computed.plan.updates.get(number) else {
        return Ok(before);
    };
    let of = UpdateOf {
        computed: *computed,
        at: number,
        update,
        stage,
    };
    let statement = with_update(alloc, plan, at, &of, before)?;
    Ok(statement)
}

/// The nests of the stages of a Func that is computed at a loop, one after the other.
fn stage_nests(
    alloc: Global,
    plan: &Plan<'_>,
    at: LoopPosition,
    computed: &ComputedFunc<'_>,
) -> Result<Stmt, AllocError>
    requires parts { IsComputedAt plan.now.pipeline plan.now.schedule plan.now.boxes (places.At at)
        computed.now.place computed.now.func.now computed.now.plan.now computed.now.own.now }
    ensures { IfOk result (λ statement. spec.IsNestOf plan.now.pipeline plan.now.schedule plan.now.boxes
        at computed.now.place statement) }
{
    let count = computed.func.updates.len();
    let statement = nests_upto(alloc, plan, at, computed, count)?;
    Ok(statement)
}

/// The nests of the Func at a place, if it is computed at this loop.
fn nests_of(
    alloc: Global,
    plan: &Plan<'_>,
    at: LoopPosition,
    func_index: usize,
) -> Result<Option<Stmt>, AllocError>
    ensures { IfOk result (spec.IsNestAt plan.now.pipeline plan.now.schedule plan.now.boxes at
        func_index) }
{
    let schedule = plan.schedule();
    let Some(standing) = schedule.standing(func_index) else {
        return Ok(None);
    };
    if !is_computed_at(at, standing) {
        return Ok(None);
    }
    let Some(func) = plan.pipeline().func(func_index) else {
        return Ok(None);
    };
    let Some(func_plan) = schedule.funcs.get(func_index) else {
        return Ok(None);
    };
    let Some(own) = box_at(plan.boxes().funcs.as_slice(), func_index) else {
        return Ok(None);
    };
    let computed = ComputedFunc {
        place: func_index,
        func,
        plan: func_plan,
        own,
    };
    let statement = stage_nests(alloc, plan, at, &computed)?;
    Ok(Some(statement))
}

/// A statement and then another one; the other alone, if there is none first.
fn in_order(alloc: Global, first: Option<Stmt>, rest: Stmt) -> Result<Stmt, AllocError>
    ensures { IfOk result (spec.DoesFirst first rest) }
{
    match first {
        None => Ok(rest),
        Some(first) => {
            let first = Boxed::new(alloc, first)?;
            let rest = Boxed::new(alloc, rest)?;
            Ok(Stmt::Sequence(first, rest))
        }
    }
}

/// The nests of the Funcs from a place on that are computed at a loop, in order, and then what is inside.
fn nests_before(
    alloc: Global,
    plan: &Plan<'_>,
    at: LoopPosition,
    from: usize,
    inside: Stmt,
) -> Result<Stmt, AllocError>
    ensures { IfOk result (λ statement. spec.HasNests plan.now.pipeline plan.now.schedule plan.now.boxes
        at from inside statement) }
{
    if plan.schedule().standings.len() <= from {
        return Ok(inside);
    }
    let rest = nests_before(alloc, plan, at, from + 1, inside)?;
    let found = nests_of(alloc, plan, at, from)?;
    let statement = in_order(alloc, found, rest)?;
    Ok(statement)
}

/// Loops of a consumer, the innermost first, around a statement, in each of them first the nests of the Funcs that are
/// computed at it.
fn loops_around(
    alloc: Global,
    plan: &Plan<'_>,
    consumer: usize,
    sizes: &LoopSizes,
    loops: &[Loop],
    leaf: Stmt,
) -> Result<Stmt, AllocError>
    requires splits { AreSplits sizes.now.splits }
    requires few { AreFew sizes.now.extents }
    ensures { IfOk result (λ statement. spec.HasLoops plan.now.pipeline plan.now.schedule plan.now.boxes
        consumer (counts sizes.now.extents sizes.now.splits) leaf loops.now statement) }
{
    match loops {
        [] => Ok(leaf),
        [inside @ .., own] => {
            let inner = loops_around(alloc, plan, consumer, sizes, inside, leaf)?;
            let at = LoopPosition {
                func: consumer,
                inside: own.id,
            };
            let body = nests_before(alloc, plan, at, 0, inner)?;
            let statement = loop_once(alloc, consumer, sizes, own, body)?;
            Ok(statement)
        }
    }
}

/// The loops inside the parallel one, which is the outermost, where there is one.
pub(crate) fn inside_parallel(stage: &Stage) -> &[Loop]
    ensures { result.now ≡ inside_of (parallel stage.now) stage.now.loops }
{
    let loops = stage.loops.as_slice();
    match stage.parallel() {
        None => loops,
        Some(_) => {
            let (inside, _) = loops.split_at(loops.len().saturating_sub(1));
            inside
        }
    }
}

/// First the nests of the Funcs that are computed at the parallel loop, where there is one.
fn outermost(
    alloc: Global,
    plan: &Plan<'_>,
    consumer: usize,
    stage: &Stage,
    inner: Stmt,
) -> Result<Stmt, AllocError>
    ensures { IfOk result (λ statement. spec.HasOutermost plan.now.pipeline plan.now.schedule
        plan.now.boxes consumer (parallel stage.now) inner statement) }
{
    match stage.parallel() {
        None => Ok(inner),
        Some(own) => {
            let at = LoopPosition {
                func: consumer,
                inside: own.id,
            };
            let statement = nests_before(alloc, plan, at, 0, inner)?;
            Ok(statement)
        }
    }
}

/// What each task of a stage of a consumer does: the store under the loops inside the parallel one, with the nests of
/// the Funcs that are computed at them.
///
/// # Errors
///
/// Memory ran out.
pub fn body_of(
    alloc: Global,
    plan: &Plan<'_>,
    consumer: usize,
    stage: &Stage,
    extents: Extents,
    store: Stmt,
) -> Result<Stmt, AllocError>
    requires splits { AreSplits stage.now.splits }
    requires few { AreFew extents }
    ensures { IfOk result (λ statement. spec.IsBody plan.now.pipeline plan.now.schedule plan.now.boxes
        consumer stage.now extents store statement) }
{
    let splits = stage.splits.as_slice();
    let sizes = LoopSizes::new(alloc, extents, splits)?;
    let leaf = with_splits(alloc, consumer, extents, splits, store)?;
    let inside = inside_parallel(stage);
    let inner = loops_around(alloc, plan, consumer, &sizes, inside, leaf)?;
    let statement = outermost(alloc, plan, consumer, stage, inner)?;
    Ok(statement)
}
