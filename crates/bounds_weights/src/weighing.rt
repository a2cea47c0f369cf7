//! What all stages together weigh.

ghost use Rattle.std.specs.Prelude.{◌≡◌, ◌<◌, ◌≤◌, ℕ, IfOk, length};
ghost use Rattle.schedule.specs.Legal as legal;
ghost use Rattle.bounds_weights.specs.Weight as spec;
ghost use Rattle.bounds_weights.specs.inner.Tables as inner;

use crate::copies::{all_copies, consumer_copies};
use crate::faults::WeightError;
use bounds_inlining::counts::{CountCall, count_calls, nodes};
use halide_pipeline::{Expr, Func, Pipeline, Update};
use schedule::{ComputeLevel, FuncPlacement, FuncPlan, Schedule};
use schedule_lines::stages::Stage;
use std::alloc::{AllocError, Global};

/// All stages together weigh no more than this.
const MOST_WEIGHT: u32 = 4096;

/// Whether a Func is inlined that is computed here.
fn is_inlined(level: ComputeLevel) -> bool
    ensures { result ≡ legal.is_inlined level }
{
    matches!(level, ComputeLevel::Inlined)
}

/// Whether a Func is computed: the output reaches it, and it isn't inlined.
pub fn is_computed(placement: &FuncPlacement) -> bool
    ensures { result ≡ spec.is_computed placement.now }
{
    placement.is_reached && !is_inlined(placement.place)
}

/// Which Funcs are inlined.
pub fn inlined_flags(alloc: Global, standings: &[FuncPlacement]) -> Result<Vec<bool>, AllocError>
    ensures { IfOk result (λ flags. flags.items ≡ spec.flags_of standings.now) }
{
    match standings {
        [] => Ok(Vec::new(alloc)),
        [own, others @ ..] => {
            let mut flags = inlined_flags(alloc, others)?;
            flags.insert(0, is_inlined(own.place))?;
            Ok(flags)
        }
    }
}

fn second_nodes(calls: &[Option<CountCall>], index: &Option<Expr>) -> u32
    ensures { inner.CountsAs calls.now result (λ flags funcs. spec.second_nodes flags funcs index.now) }
{
    match index {
        None => 0,
        Some(index) => all_nodes(calls, index),
    }
}

/// The nodes of an expression, or the greatest `u32`, by the table of all Funcs.
fn all_nodes(calls: &[Option<CountCall>], expr: &Expr) -> u32
    ensures { inner.CountsAs calls.now result (λ flags funcs. spec.nodes_in flags funcs expr.now) }
{
    nodes(calls, expr)
}

/// The nodes of an update's expressions.
fn update_nodes(calls: &[Option<CountCall>], update: &Update) -> u32
    ensures { inner.CountsAs calls.now result (λ flags funcs. spec.update_nodes flags funcs update.now) }
{
    let left = all_nodes(calls, &update.left_x).saturating_add(second_nodes(calls, &update.left_y));
    all_nodes(calls, &update.right).saturating_add(left)
}

/// How many loops a stage has.
fn loop_count(stage: &Stage) -> u32
    ensures { result ≡ inner.capped (length stage.now.loops) }
{
    u32::try_from(stage.loops.len()).unwrap_or(u32::MAX)
}

/// What a stage weighs whose expressions have this many nodes.
fn stage_weight(nodes: u32, stage: &Stage) -> u32
    ensures { (n : ℕ) → nodes ≡ inner.capped n → result ≡ inner.capped (spec.stage_weight n stage.now) }
{
    let size = nodes.saturating_add(loop_count(stage));
    size.saturating_mul(all_copies(stage.loops.as_slice()))
}

/// What updates weigh, each with its stage.
fn updates_weight(calls: &[Option<CountCall>], updates: &[Update], stages: &[Stage]) -> u32
    ensures { inner.CountsAs calls.now result (λ flags funcs. spec.updates_weight flags funcs updates.now stages.now) }
{
    match updates {
        [] => 0,
        [update, updates @ ..] => match stages {
            [] => 0,
            [stage, stages @ ..] => stage_weight(update_nodes(calls, update), stage).saturating_add(
                updates_weight(calls, updates, stages),
            ),
        },
    }
}

/// What the stages of a Func weigh.
fn func_weight(
    calls: &[Option<CountCall>],
    plans: &[FuncPlan],
    func: &Func,
    plan: &FuncPlan,
    placement: &FuncPlacement,
) -> u32
    ensures { inner.CountsAs calls.now result (λ flags funcs. spec.func_weight flags funcs plans.now func.now plan.now
        placement.now) }
{
    let pure = stage_weight(all_nodes(calls, &func.pure), &plan.pure);
    let updates = updates_weight(calls, func.updates.as_slice(), plan.updates.as_slice());
    pure.saturating_add(updates)
        .saturating_mul(consumer_copies(plans, placement.place))
}

/// What a Func weighs, if it is computed.
fn computed_weight(
    calls: &[Option<CountCall>],
    plans: &[FuncPlan],
    func: &Func,
    plan: &FuncPlan,
    placement: &FuncPlacement,
) -> u32
    ensures { inner.CountsAs calls.now result (λ flags funcs. spec.computed_weight flags funcs plans.now func.now
        plan.now placement.now) }
{
    if is_computed(placement) {
        func_weight(calls, plans, func, plan, placement)
    } else {
        0
    }
}

/// What Funcs weigh, each with its plan and what becomes of it.
fn funcs_weight(
    calls: &[Option<CountCall>],
    plans: &[FuncPlan],
    funcs: &[Func],
    rest: &[FuncPlan],
    standings: &[FuncPlacement],
) -> u32
    ensures { inner.CountsAs calls.now result (λ flags all. spec.funcs_weight flags all plans.now funcs.now rest.now
        standings.now) }
{
    match funcs {
        [] => 0,
        [func, funcs @ ..] => match rest {
            [] => 0,
            [plan, rest @ ..] => match standings {
                [] => 0,
                [own, standings @ ..] => computed_weight(
                    calls, plans, func, plan, own,
                ).saturating_add(funcs_weight(calls, plans, funcs, rest, standings)),
            },
        },
    }
}

/// What all stages that are computed weigh together, or the greatest `u32` if that is more.
fn total_weight(
    alloc: Global,
    funcs: &[Func],
    plans: &[FuncPlan],
    standings: &[FuncPlacement],
) -> Result<u32, AllocError>
    ensures { IfOk result (λ total. total
        ≡ inner.capped (spec.funcs_weight (spec.flags_of standings.now) funcs.now plans.now funcs.now plans.now
        standings.now)) }
{
    let flags = inlined_flags(alloc, standings)?;
    let calls = count_calls(alloc, funcs, flags.as_slice())?;
    Ok(funcs_weight(calls.as_slice(), plans, funcs, plans, standings))
}

/// What all stages of a schedule weigh together, or the greatest `u32` if that is more.
#[tactic(auto, unfolding(crate::specs::Weight::weight))]
pub fn weight(pipeline: &Pipeline, schedule: &Schedule, alloc: Global) -> Result<u32, AllocError>
    ensures { IfOk result (λ total. total ≡ inner.capped (spec.weight pipeline.now schedule.now)) }
{
    let plans = schedule.funcs.as_slice();
    let total = total_weight(
        alloc,
        pipeline.funcs(),
        plans,
        schedule.standings.as_slice(),
    )?;
    Ok(total)
}

/// Whether a total is let pass.
fn judge(total: u32) -> Result<(), WeightError>
    ensures { (weight : ℕ) → total ≡ inner.capped weight → spec.Judges weight result }
{
    if total > MOST_WEIGHT {
        Err(WeightError::TooHeavy)
    } else {
        Ok(())
    }
}

/// Lets pass a schedule whose stages together weigh at most 4,096 (`specs/Weight.antt`), in time that is linear in
/// the texts.
///
/// # Errors
///
/// The stages are too heavy. Memory ran out.
pub fn weigh(pipeline: &Pipeline, schedule: &Schedule, alloc: Global) -> Result<(), WeightError>
    ensures { spec.Judges (spec.weight pipeline.now schedule.now) result }
{
    judge(weight(pipeline, schedule, alloc)?)
}
