//! How many registers the expressions of stages need at once.

ghost use Rattle.std.specs.Prelude.{◌≡◌, ℕ, IfOk};
ghost use Rattle.bounds_weights.specs.Weight as spec;
ghost use Rattle.bounds_weights.specs.inner.Tables as inner;

use crate::weighing::{inlined_flags, is_computed};
use bounds_inlining::needs::{Need, need_calls, registers};
use halide_pipeline::{Expr, Func, Pipeline, Update};
use schedule::{FuncPlacement, FuncPlan, Schedule};
use schedule_lines::stages::{Mark, Stage, find_marked};
use std::alloc::{AllocError, Global};

/// The greatest need of any stage, and the greatest of one that is vectorized by 16. Numbers past the greatest `u32`
/// count as that.
#[derive(Clone, Copy, Debug, PartialEq, Eq)]
pub struct StageNeeds {
    pub greatest: u32,
    /// 0 where no stage is vectorized by 16.
    pub greatest_by_16: u32,
}

impl StageNeeds {
    /// Whether no code is made, since some need is above 64.
    pub fn is_too_deep(self) -> bool
        ensures { result ≡ spec.is_too_deep self }
    {
        self.greatest > 64
    }

    /// Whether some need doesn't fit the registers: one above 12, or above 6 in a stage that is vectorized by 16.
    pub fn has_frames(self) -> bool
        ensures { result ≡ spec.has_frames self }
    {
        self.greatest > 12 || self.greatest_by_16 > 6
    }
}

/// What an expression needs, or the greatest `u32`, by the table of all Funcs.
fn all_registers(calls: &[Option<Need>], expr: &Expr) -> u32
    ensures { inner.NeedsAs calls.now result (λ flags funcs. spec.need_in flags funcs expr.now) }
{
    registers(calls, expr)
}

fn second_need(calls: &[Option<Need>], index: &Option<Expr>) -> u32
    ensures { inner.NeedsAs calls.now result (λ flags funcs. spec.second_need flags funcs index.now) }
{
    match index {
        None => 0,
        Some(index) => all_registers(calls, index),
    }
}

/// What the expressions of an update need.
fn update_need(calls: &[Option<Need>], update: &Update) -> u32
    ensures { inner.NeedsAs calls.now result (λ flags funcs. spec.update_need flags funcs update.now) }
{
    let left = all_registers(calls, &update.left_x).max(second_need(calls, &update.left_y));
    all_registers(calls, &update.right).max(left)
}

/// What the expressions of a stage need, of the pure definition or of the update at a place (0 where there is none);
/// or the greatest `u32` if they need more. The table is that of all Funcs, as `need_calls` gives it.
pub fn stage_need(calls: &[Option<Need>], func: &Func, update: Option<usize>) -> u32
    ensures { inner.NeedsAs calls.now result (λ flags funcs. spec.stage_need flags funcs func.now update) }
{
    match update {
        None => all_registers(calls, &func.pure),
        Some(at) => match func.updates.get(at) {
            None => 0,
            Some(update) => update_need(calls, update),
        },
    }
}

/// Whether a stage's vectorized loop has 16 iterations.
fn is_by_16(stage: &Stage) -> bool
    ensures { result ≡ spec.is_by_16 stage.now }
{
    match find_marked(stage.loops.as_slice(), Mark::Vectorized) {
        None => false,
        Some(own) => match own.inner_of {
            None => false,
            Some(factor) => factor == 16,
        },
    }
}

fn no_needs() -> StageNeeds
    ensures { result ≡ spec.no_needs }
{
    StageNeeds {
        greatest: 0,
        greatest_by_16: 0,
    }
}

/// The needs of a stage that needs so much.
fn needs_of(need: u32, stage: &Stage) -> StageNeeds
    ensures { result ≡ spec.needs_of need stage.now }
{
    StageNeeds {
        greatest: need,
        greatest_by_16: if is_by_16(stage) { need } else { 0 },
    }
}

/// The greater of two.
fn both(a: StageNeeds, b: StageNeeds) -> StageNeeds
    ensures { result ≡ spec.both a b }
{
    StageNeeds {
        greatest: a.greatest.max(b.greatest),
        greatest_by_16: a.greatest_by_16.max(b.greatest_by_16),
    }
}

/// The needs of updates, each with its stage.
fn updates_needs(calls: &[Option<Need>], updates: &[Update], stages: &[Stage]) -> StageNeeds
    ensures { inner.AllNeedsAs calls.now result (λ flags funcs. spec.updates_needs flags funcs updates.now stages.now) }
{
    match updates {
        [] => no_needs(),
        [update, updates @ ..] => match stages {
            [] => no_needs(),
            [stage, stages @ ..] => both(
                needs_of(update_need(calls, update), stage),
                updates_needs(calls, updates, stages),
            ),
        },
    }
}

/// The needs of a Func's stages, if it is computed.
fn computed_needs(
    calls: &[Option<Need>],
    func: &Func,
    plan: &FuncPlan,
    placement: &FuncPlacement,
) -> StageNeeds
    ensures { inner.AllNeedsAs calls.now result (λ flags funcs. spec.computed_needs flags funcs func.now plan.now
        placement.now) }
{
    if !is_computed(placement) {
        return no_needs();
    }
    let pure = needs_of(all_registers(calls, &func.pure), &plan.pure);
    both(
        pure,
        updates_needs(calls, func.updates.as_slice(), plan.updates.as_slice()),
    )
}

/// The needs of Funcs, each with its plan and what becomes of it.
fn funcs_needs(
    calls: &[Option<Need>],
    funcs: &[Func],
    plans: &[FuncPlan],
    standings: &[FuncPlacement],
) -> StageNeeds
    ensures { inner.AllNeedsAs calls.now result (λ flags all. spec.funcs_needs flags all funcs.now plans.now
        standings.now) }
{
    match funcs {
        [] => no_needs(),
        [func, funcs @ ..] => match plans {
            [] => no_needs(),
            [plan, plans @ ..] => match standings {
                [] => no_needs(),
                [own, standings @ ..] => both(
                    computed_needs(calls, func, plan, own),
                    funcs_needs(calls, funcs, plans, standings),
                ),
            },
        },
    }
}

/// The needs of all stages that are computed.
fn total_needs(
    alloc: Global,
    funcs: &[Func],
    plans: &[FuncPlan],
    standings: &[FuncPlacement],
) -> Result<StageNeeds, AllocError>
    ensures { IfOk result (λ own. own
        ≡ inner.capped_needs (spec.funcs_needs (spec.flags_of standings.now) funcs.now funcs.now plans.now
        standings.now)) }
{
    let flags = inlined_flags(alloc, standings)?;
    let calls = need_calls(alloc, funcs, flags.as_slice())?;
    Ok(funcs_needs(calls.as_slice(), funcs, plans, standings))
}

/// The needs of all stages that are computed (`specs/Weight.antt`), in time that is linear in the texts. A number past
/// the greatest `u32` counts as that, so each limit is told as it is.
///
/// # Errors
///
/// Memory ran out.
#[tactic(auto, unfolding(crate::specs::Weight::needs))]
pub fn needs(
    pipeline: &Pipeline,
    schedule: &Schedule,
    alloc: Global,
) -> Result<StageNeeds, AllocError>
    ensures value { IfOk result (λ stage_needs. stage_needs ≡ inner.capped_needs (spec.needs pipeline.now schedule.now)) }
    ensures deep { IfOk result (λ stage_needs. spec.is_too_deep stage_needs ≡ spec.is_too_deep
        (spec.needs pipeline.now schedule.now)) }
    ensures frames { IfOk result (λ stage_needs. spec.has_frames stage_needs ≡ spec.has_frames
        (spec.needs pipeline.now schedule.now)) }
{
    let plans = schedule.funcs.as_slice();
    let stage_needs = total_needs(
        alloc,
        pipeline.funcs(),
        plans,
        schedule.standings.as_slice(),
    )?;
    Ok(stage_needs)
}
