//! Which Funcs the output reaches, and where each Func is computed.

ghost use Rattle.std.specs.Prelude.{◌≡◌, ◌+◌, ◌<◌, ◌^◌, IfOk, length};
ghost use Rattle.schedule.specs.Placements as spec;

use crate::calls::place_calls;
use crate::plans::{ComputeLine, FuncPlan};
use halide_pipeline::{Pipeline, Source};
use schedule_lines::lines::{Computed, LoopNames};
use schedule_lines::stages::{Loop, LoopId, Mark, find, is_marked, same_id};
use sqlite_items::at;
use std::alloc::{AllocError, Global};

/// A loop of the pure definition of a Func.
#[derive(Clone, Copy, Debug, PartialEq, Eq)]
pub struct LoopPosition {
    /// The Func's place in the pipeline, from 0.
    pub func: usize,
    pub inside: LoopId,
}

/// Where a Func is computed.
#[derive(Clone, Copy, Debug, PartialEq, Eq)]
pub enum ComputeLevel {
    /// In each expression that calls it.
    Inlined,
    /// As a whole, before any use.
    Root,
    /// At the start of each iteration of a loop, as far as the iteration needs it. The loop is one of a later
    /// Func at root without updates, and is not vectorized.
    At(LoopPosition),
    /// Its compute line names no such loop, or it is used outside of the loop. In an accepted schedule only a Func
    /// that the output does not reach is computed nowhere.
    Nowhere,
}

/// What becomes of a Func.
#[derive(Clone, Copy, Debug, PartialEq, Eq)]
pub struct FuncPlacement {
    /// Whether the output calls it, or another Func that is reached.
    pub is_reached: bool,
    pub place: ComputeLevel,
}

/// Whether one of the Funcs from a place on that are reached calls this Func.
fn is_read(pipeline: &Pipeline, func: usize, at: usize, placements: &[FuncPlacement]) -> bool
    requires { at + length placements.now < 2 ^ 64 }
    ensures { result ≡ spec.is_read pipeline.now func at placements.now }
{
    match placements {
        [] => false,
        [first, others @ ..] => {
            (first.is_reached && place_calls(pipeline, at, func))
                || is_read(pipeline, func, at + 1, others)
        }
    }
}

/// Whether one of the Funcs from a place on that are flagged calls this Func.
fn is_called(pipeline: &Pipeline, func: usize, at: usize, flags: &[bool]) -> bool
    requires { at + length flags.now < 2 ^ 64 }
    ensures { result ≡ spec.is_called pipeline.now func at flags.now }
{
    match flags {
        [] => false,
        [first, others @ ..] => {
            (*first && place_calls(pipeline, at, func)) || is_called(pipeline, func, at + 1, others)
        }
    }
}

fn is_root_line(compute: &Option<ComputeLine>) -> bool
    ensures { result ≡ spec.is_root_line compute.now }
{
    match compute {
        None => false,
        Some(line) => match &line.computed {
            Computed::Root => true,
            Computed::At(_) => false,
        },
    }
}

/// Whether a Func can be the one at whose loops others are computed.
fn is_consumer(pipeline: &Pipeline, func: usize, plan: &FuncPlan) -> bool
    ensures { result ≡ spec.is_consumer pipeline.now func plan.now }
{
    (func == pipeline.output().func || is_root_line(&plan.compute)) && plan.updates.len() == 0
}

/// The loop with a name of such a Func.
fn loop_in(pipeline: &Pipeline, func: usize, name: &[u8], plan: &FuncPlan) -> Option<LoopPosition>
    ensures { result ≡ spec.loop_in pipeline.now func name.now plan.now }
{
    if !is_consumer(pipeline, func, plan) {
        return None;
    }
    match find(plan.pure.loops.as_slice(), name) {
        Some(own) if !is_marked(own, Mark::Vectorized) => Some(LoopPosition {
            func,
            inside: own.id,
        }),
        _ => None,
    }
}

/// The loop with these names, of a Func after the one at a place.
fn consumer(
    pipeline: &Pipeline,
    plans: &[FuncPlan],
    func_index: usize,
    names: &LoopNames,
) -> Option<LoopPosition>
    ensures { result ≡ spec.consumer pipeline.now plans.now func_index names.now }
{
    match pipeline.source(names.func.as_slice()) {
        Some(Source::Func(func)) if func_index < func => match at(plans, func) {
            None => None,
            Some(plan) => loop_in(pipeline, func, names.inside.as_slice(), plan),
        },
        _ => None,
    }
}

/// Whether the first loop is met no later than the second, going outward.
fn comes_first(loop_id: LoopId, other: LoopId, loops: &[Loop]) -> bool
    ensures { result ≡ spec.comes_first loop_id other loops.now }
{
    match loops {
        [] => false,
        [first, outside @ ..] => {
            if same_id(first.id, loop_id) {
                true
            } else if same_id(first.id, other) {
                false
            } else {
                comes_first(loop_id, other, outside)
            }
        }
    }
}

/// Whether a loop is the other or is inside it.
fn is_within(plans: &[FuncPlan], other: LoopPosition, position: LoopPosition) -> bool
    ensures { result ≡ spec.is_within plans.now other position }
{
    match at(plans, position.func) {
        None => false,
        Some(plan) => {
            position.func == other.func
                && comes_first(position.inside, other.inside, plan.pure.loops.as_slice())
        }
    }
}

/// Whether the uses that a Func makes stand outside of a loop.
fn is_away(
    pipeline: &Pipeline,
    plans: &[FuncPlan],
    consumer: LoopPosition,
    func: usize,
    level: ComputeLevel,
    flags: &[bool],
) -> bool
    requires { func + 1 + length flags.now < 2 ^ 64 }
    ensures { result ≡ spec.is_away pipeline.now plans.now consumer func level flags.now }
{
    match level {
        ComputeLevel::Inlined => is_called(pipeline, func, func + 1, flags),
        ComputeLevel::At(own) => !is_within(plans, consumer, own),
        ComputeLevel::Root | ComputeLevel::Nowhere => true,
    }
}

/// Of the Funcs from a place on, whether the output reaches each and the uses that it makes stand outside of a
/// loop.
fn outside(
    alloc: Global,
    pipeline: &Pipeline,
    plans: &[FuncPlan],
    consumer: LoopPosition,
    func: usize,
    placements: &[FuncPlacement],
) -> Result<Vec<bool>, AllocError>
    requires { func + length placements.now < 2 ^ 64 }
    ensures flags { IfOk result (λ flags. flags.items ≡ spec.outside pipeline.now plans.now consumer func
        placements.now) }
    ensures count { IfOk result (λ flags. length flags.items ≡ length placements.now) }
{
    match placements {
        [] => Ok(Vec::new(alloc)),
        [first, others @ ..] => {
            let mut flags = outside(alloc, pipeline, plans, consumer, func + 1, others)?;
            let flag = first.is_reached
                && func != consumer.func
                && is_away(
                    pipeline,
                    plans,
                    consumer,
                    func,
                    first.place,
                    flags.as_slice(),
                );
            flags.insert(0, flag)?;
            Ok(flags)
        }
    }
}

/// Where the Func at a place is computed that is to be computed at a loop.
fn place_at(
    alloc: Global,
    pipeline: &Pipeline,
    plans: &[FuncPlan],
    func: usize,
    names: &LoopNames,
    placements: &[FuncPlacement],
) -> Result<ComputeLevel, AllocError>
    requires { func + 1 + length placements.now < 2 ^ 64 }
    ensures { IfOk result (λ place. place ≡ spec.place_at pipeline.now plans.now func placements.now
        (spec.consumer pipeline.now plans.now func names.now)) }
{
    match consumer(pipeline, plans, func, names) {
        None => Ok(ComputeLevel::Nowhere),
        Some(own) => {
            let flags = outside(alloc, pipeline, plans, own, func + 1, placements)?;
            if is_called(pipeline, func, func + 1, flags.as_slice()) {
                Ok(ComputeLevel::Nowhere)
            } else {
                Ok(ComputeLevel::At(own))
            }
        }
    }
}

/// Where the Func at a place is computed.
fn place_of(
    alloc: Global,
    pipeline: &Pipeline,
    plans: &[FuncPlan],
    func: usize,
    plan: &FuncPlan,
    placements: &[FuncPlacement],
) -> Result<ComputeLevel, AllocError>
    requires { func + 1 + length placements.now < 2 ^ 64 }
    ensures { IfOk result (λ place. place ≡ spec.place pipeline.now plans.now func plan.now placements.now) }
{
    if func == pipeline.output().func {
        return Ok(ComputeLevel::Root);
    }
    match &plan.compute {
        None => Ok(ComputeLevel::Inlined),
        Some(line) => match &line.computed {
            Computed::Root => Ok(ComputeLevel::Root),
            Computed::At(names) => Ok(place_at(alloc, pipeline, plans, func, names, placements)?),
        },
    }
}

/// What becomes of the Funcs from a place on.
fn standings_from(
    alloc: Global,
    pipeline: &Pipeline,
    plans: &[FuncPlan],
    func: usize,
    rest: &[FuncPlan],
) -> Result<Vec<FuncPlacement>, AllocError>
    requires { func + length rest.now < 2 ^ 64 }
    ensures standings { IfOk result (λ placements. placements.items ≡ spec.standings_from pipeline.now plans.now func
        rest.now) }
    ensures count { IfOk result (λ placements. length placements.items ≡ length rest.now) }
{
    match rest {
        [] => Ok(Vec::new(alloc)),
        [first, others @ ..] => {
            let mut placements = standings_from(alloc, pipeline, plans, func + 1, others)?;
            let behind = placements.as_slice();
            let is_reached = func == pipeline.output().func
                || is_read(pipeline, func, func + 1, behind);
            let place = place_of(alloc, pipeline, plans, func, first, behind)?;
            placements.insert(0, FuncPlacement { is_reached, place })?;
            Ok(placements)
        }
    }
}

/// What becomes of each Func.
#[tactic(auto, unfolding(crate::specs::Placements::standings))]
pub fn standings(
    alloc: Global,
    pipeline: &Pipeline,
    plans: &[FuncPlan],
) -> Result<Vec<FuncPlacement>, AllocError>
    ensures { IfOk result (λ placements. placements.items ≡ spec.standings pipeline.now plans.now) }
{
    let placements = standings_from(alloc, pipeline, plans, 0, plans)?;
    Ok(placements)
}
