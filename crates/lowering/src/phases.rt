//! The phases of a pipeline.

ghost use Rattle.std.specs.Prelude.{◌≡◌, ◌≤◌, ◌*◌, List, IfOk, Ok, length, suc};
ghost use Rattle.schedule.specs.Accepted.{IsAccepted};
ghost use Rattle.bounds.specs.Verdict.{inferred};
ghost use Rattle.loop_ir.specs.declared.statements.Phase.{Phase as MadePhase};
ghost use Rattle.lowering.specs.Lowered as spec;
ghost use Rattle.bounds.specs.Stages.{IsAtRoot};
ghost use Rattle.lowering.specs.Registers.{TakeFew};
ghost use Rattle.lowering.specs.Sizes.{words_of};
ghost use Rattle.bounds_weights.specs.Weight.{weight};

use crate::computed::ComputedFunc;
use crate::consuming::box_at;
use crate::pure_phases::{is_at_root, pure_phase};
use crate::updates::{UpdateOf, update_phase};
use bounds::{Boxes, Plan};
use halide_pipeline::Pipeline;
use loop_ir::statements::Phase;
use schedule::Schedule;
use std::alloc::{AllocError, Global};

/// The phase of the stage with this number of a Func that is computed at root, if it has that stage.
fn stage_phase(
    alloc: Global,
    plan: &Plan<'_>,
    computed: &ComputedFunc<'_>,
    number: usize,
) -> Result<Option<Phase>, AllocError>
    requires at { IsAtRoot plan.now.pipeline plan.now.schedule plan.now.boxes computed.now.place
        computed.now.func.now computed.now.plan.now computed.now.own.now }
    ensures { IfOk result (spec.IsStagePhaseIfThere plan.now.pipeline plan.now.schedule
        plan.now.boxes computed.now.place computed.now.func.now computed.now.plan.now computed.now.own.now
        number) }
{
    // What every plan keeps is known once its parts are read.
    let _schedule = plan.schedule();
    let Some(at) = number.checked_sub(1) else {
        let phase = pure_phase(alloc, plan, computed)?;
        return Ok(Some(phase));
    };
    let Some(update) = computed.func.updates.get(at) else {
        return Ok(None);
    };
    let Some(stage) = computed.plan.updates.get(at) else {
        return Ok(None);
    };
    let of = UpdateOf {
        computed: *computed,
        at,
        update,
        stage,
    };
    let phase = update_phase(alloc, plan, &of)?;
    Ok(Some(phase))
}

/// Puts the phase of a stage of a Func that is computed at root after those of the stages before it.
fn with_stage(
    alloc: Global,
    plan: &Plan<'_>,
    computed: &ComputedFunc<'_>,
    number: usize,
    before: Vec<Phase>,
) -> Result<Vec<Phase>, AllocError>
    requires at { IsAtRoot plan.now.pipeline plan.now.schedule plan.now.boxes computed.now.place
        computed.now.func.now computed.now.plan.now computed.now.own.now }
    requires number { number ≤ length computed.now.func.now.updates }
    ensures { IfOk result (λ made. (others : List MadePhase)
        → spec.ArePhasesOf plan.now.pipeline plan.now.schedule plan.now.boxes computed.now.place
        computed.now.func.now computed.now.plan.now computed.now.own.now others number before.items
        → spec.ArePhasesOf plan.now.pipeline plan.now.schedule plan.now.boxes computed.now.place
        computed.now.func.now computed.now.plan.now computed.now.own.now others (suc number) made.items) }
{
    let found = stage_phase(alloc, plan, computed, number)?;
    let Some(phase) = found else {
        return Ok(before);
    };
    let mut phases = before;
    phases.push(phase)?;
    Ok(phases)
}

/// Puts the phases of the stages of a Func that is computed at root, up to the one with this number, after others.
fn with_stages(
    alloc: Global,
    plan: &Plan<'_>,
    computed: &ComputedFunc<'_>,
    last: usize,
    others: Vec<Phase>,
) -> Result<Vec<Phase>, AllocError>
    requires at { IsAtRoot plan.now.pipeline plan.now.schedule plan.now.boxes computed.now.place
        computed.now.func.now computed.now.plan.now computed.now.own.now }
    requires last { last ≤ length computed.now.func.now.updates }
    ensures { IfOk result (λ phases. spec.ArePhasesOf plan.now.pipeline plan.now.schedule
        plan.now.boxes computed.now.place computed.now.func.now computed.now.plan.now computed.now.own.now
        others.items (suc last) phases.items) }
{
    let before = match last.checked_sub(1) {
        None => others,
        Some(before) => with_stages(alloc, plan, computed, before, others)?,
    };
    let phases = with_stage(alloc, plan, computed, last, before)?;
    Ok(phases)
}

/// Puts the phases of the Func at a place after those of the Funcs before it.
fn with_func(
    alloc: Global,
    plan: &Plan<'_>,
    func_index: usize,
    others: Vec<Phase>,
) -> Result<Vec<Phase>, AllocError>
    requires others { spec.AreLowered plan.now.pipeline plan.now.schedule plan.now.boxes func_index
        others.items }
    ensures { IfOk result (λ phases. spec.AreLowered plan.now.pipeline plan.now.schedule
        plan.now.boxes (suc func_index) phases.items) }
{
    let schedule = plan.schedule();
    let Some(standing) = schedule.standing(func_index) else {
        return Ok(others);
    };
    if !is_at_root(standing) {
        return Ok(others);
    }
    let Some(func) = plan.pipeline().func(func_index) else {
        return Ok(others);
    };
    let Some(func_plan) = schedule.funcs.get(func_index) else {
        return Ok(others);
    };
    let Some(own) = box_at(plan.boxes().funcs.as_slice(), func_index) else {
        return Ok(others);
    };
    let last = func.updates.len();
    let computed = ComputedFunc {
        place: func_index,
        func,
        plan: func_plan,
        own,
    };
    let phases = with_stages(alloc, plan, &computed, last, others)?;
    Ok(phases)
}

/// The phases of the first this many Funcs.
fn lower_first(alloc: Global, plan: &Plan<'_>, count: usize) -> Result<Vec<Phase>, AllocError>
    ensures { IfOk result (λ phases. spec.AreLowered plan.now.pipeline plan.now.schedule
        plan.now.boxes count phases.items) }
{
    if count == 0 {
        return Ok(Vec::new(alloc));
    }
    let before = lower_first(alloc, plan, count - 1)?;
    let phases = with_func(alloc, plan, count - 1, before)?;
    Ok(phases)
}

/// The phases of a pipeline: one for each stage of each Func that is computed at root and that the output reaches, in
/// order of the text; its tasks are the iterations of the stage's parallel loop, or one.
///
/// Done one after the other from buffers of zeros, the tasks of each in any order and whatever private buffers hold
/// before each, they leave the output's pixels (`specs/Lowered.antt`). No more than 14 counters stand around a store, a
/// task's own among them, expressions need no more registers than weights count (`specs/Registers.antt`), and their
/// code asks for no more than 64 words for each unit that the schedule weighs (`specs/Sizes.antt`).
///
/// # Errors
///
/// Memory ran out.
pub fn lower(
    alloc: Global,
    pipeline: &Pipeline,
    schedule: &Schedule,
    boxes: &Boxes,
) -> Result<Vec<Phase>, AllocError>
    requires accepted { IsAccepted pipeline.now schedule.now }
    requires boxes { inferred pipeline.now schedule.now ≡ Ok boxes.now }
    ensures phases { IfOk result (λ phases. spec.AreLowered pipeline.now schedule.now boxes.now
        (length pipeline.now.funcs) phases.items) }
    ensures few { IfOk result (λ phases. TakeFew pipeline.now schedule.now phases.items) }
    ensures light { IfOk result (λ phases. words_of phases.items ≤ 64 * weight pipeline.now schedule.now) }
    ensures pixels { IfOk result (λ phases. spec.DoPixels pipeline.now schedule.now boxes.now phases.items) }
    ensures output { IfOk result (λ phases. spec.LeaveOutput pipeline.now schedule.now boxes.now phases.items) }
{
    let count = pipeline.funcs().len();
    let plan = Plan::new(pipeline, schedule, boxes);
    let phases = lower_first(alloc, &plan, count)?;
    Ok(phases)
}
