//! The stages that are phases, and where the code of each lies.

ghost use Rattle.std.specs.Prelude.{◌≡◌, ◌+◌, ◌*◌, ◌<◌, ◌^◌, ◌++◌, IfOk, OnOk, codes, length, slice_get, unwrap_or};
ghost use Rattle.std.specs.Fmt.{decimal};
ghost use Rattle.std.specs.String.{string_bytes};
ghost use Rattle.disassembler.specs.Listing.{hexadecimal_text};
ghost use Rattle.memory.specs.Access.{text_start};
ghost use Rattle.bounds.specs.Extents.{box_in};
ghost use Rattle.bounds.specs.Tasks as counts;
ghost use Rattle.hrv_map.specs.Lines.{newline};
ghost use Rattle.hrv_map.specs.Phases as spec;
ghost use Rattle.hrv_map.specs.Stages.{phase_lines};

use crate::lines::box_at;
use crate::names::name_at;
use crate::stages::push_stage_lines;
use bounds::tasks::tasks;
use bounds::{Boxes, Plan};
use disassembler::push_hexadecimal;
use halide_pipeline::{Func, Update};
use memory::TEXT_START;
use schedule::{ComputeLevel, Schedule};
use schedule_lines::stages::StageName;
use sqlite_items::Items;
use std::alloc::{AllocError, Global};
use task_code_statements::stages::CodeStage;

/// A phase, and which words of the text are its code.
#[derive(Clone, Copy, Debug, PartialEq, Eq)]
pub struct CodePhase {
    /// From 0.
    pub number: u64,
    pub stage: StageName,
    /// How many iterations harts share.
    pub tasks: u32,
    /// The place of its first word in the text, from 0.
    pub first: u32,
    /// The place after its last word.
    pub end: u32,
}

/// Appends the updates of a Func from a place on.
#[tactic(auto, unfolding(crate::specs::Phases::updates_from))]
fn push_updates(
    stages: &mut Vec<StageName>,
    func: usize,
    at: usize,
    updates: &[Update],
) -> Result<(), AllocError>
    requires { at + length updates.now < 2 ^ 64 }
    ensures { OnOk result (stages.new.items ≡ stages.old.items ++ spec.updates_from func at updates.now) }
{
    let [_, others @ ..] = updates else {
        return Ok(());
    };
    stages.push(StageName {
        func,
        update: Some(at),
    })?;
    push_updates(stages, func, at + 1, others)?;
    Ok(())
}

/// Appends the stages of a Func at root, if it has a box.
fn push_all(
    stages: &mut Vec<StageName>,
    boxes: &Boxes,
    index: usize,
    func: &Func,
) -> Result<(), AllocError>
    ensures { OnOk result (stages.new.items ≡ stages.old.items
        ++ spec.stages_in index func.now (box_in (slice_get boxes.now.funcs index))) }
{
    if let None = box_at(boxes.funcs.as_slice(), index) {
        return Ok(());
    }
    stages.push(StageName {
        func: index,
        update: None,
    })?;
    push_updates(stages, index, 0, func.updates.as_slice())?;
    Ok(())
}

/// Appends the stages of a Func that are phases.
fn push_stages_of(
    stages: &mut Vec<StageName>,
    schedule: &Schedule,
    boxes: &Boxes,
    index: usize,
    func: &Func,
) -> Result<(), AllocError>
    ensures { OnOk result (stages.new.items ≡ stages.old.items
        ++ spec.stages_if index func.now (box_in (slice_get boxes.now.funcs index))
        (slice_get schedule.now.standings index)) }
{
    let Some(standing) = schedule.standing(index) else {
        return Ok(());
    };
    match standing.place {
        ComputeLevel::Root => push_all(stages, boxes, index, func)?,
        ComputeLevel::At(_) | ComputeLevel::Inlined | ComputeLevel::Nowhere => {}
    }
    Ok(())
}

/// Appends the stages that are phases, of the Funcs from a place on.
#[tactic(auto, unfolding(crate::specs::Phases::stages_from))]
fn push_stages(
    stages: &mut Vec<StageName>,
    schedule: &Schedule,
    boxes: &Boxes,
    index: usize,
    funcs: &[Func],
) -> Result<(), AllocError>
    requires { index + length funcs.now < 2 ^ 64 }
    ensures { OnOk result (stages.new.items ≡ stages.old.items ++ spec.stages_from schedule.now boxes.now index
        funcs.now) }
{
    let [func, others @ ..] = funcs else {
        return Ok(());
    };
    push_stages_of(stages, schedule, boxes, index, func)?;
    push_stages(stages, schedule, boxes, index + 1, others)?;
    Ok(())
}

/// The stages that are phases, in order.
pub(crate) fn stages_of(alloc: Global, plan: &Plan<'_>) -> Result<Vec<StageName>, AllocError>
    ensures { IfOk result (λ stages. stages.items ≡ spec.stages_from plan.now.schedule plan.now.boxes 0
        plan.now.pipeline.funcs) }
{
    let mut stages = Vec::new(alloc);
    push_stages(
        &mut stages,
        plan.schedule(),
        plan.boxes(),
        0,
        plan.pipeline().funcs(),
    )?;
    Ok(stages)
}

/// How many tasks the phase of a stage has.
fn tasks_of(alloc: Global, plan: &Plan<'_>, stage: StageName) -> Result<u32, AllocError>
    ensures { IfOk result (λ count. count ≡ unwrap_or (counts.tasks plan.now.pipeline plan.now.schedule
        plan.now.boxes.funcs stage)
        0) }
{
    let count = tasks(
        alloc,
        plan.pipeline(),
        plan.schedule(),
        &plan.boxes().funcs,
        stage,
    )?;
    Ok(count.unwrap_or(0))
}

/// How many tasks the phase of each stage has.
#[tactic(auto, unfolding(crate::specs::Phases::tasks_each))]
pub(crate) fn push_tasks(
    alloc: Global,
    list: &mut Vec<u32>,
    plan: &Plan<'_>,
    stages: &[StageName],
) -> Result<(), AllocError>
    ensures { OnOk result (list.new.items ≡ list.old.items ++ spec.tasks_each plan.now.pipeline
        plan.now.schedule plan.now.boxes
        stages.now) }
{
    let [stage, others @ ..] = stages else {
        return Ok(());
    };
    let count = tasks_of(alloc, plan, *stage)?;
    list.push(count)?;
    push_tasks(alloc, list, plan, others)?;
    Ok(())
}

/// Appends the phases with these stages and numbers of tasks, each of which ends at a word of the text where the next
/// one begins.
#[tactic(auto, unfolding(crate::specs::Phases::phases_from))]
pub(crate) fn push_phases(
    phases: &mut Vec<CodePhase>,
    number: u64,
    first: u32,
    stages: &[StageName],
    tasks: &[u32],
    ends: &[u32],
) -> Result<(), AllocError>
    requires { number + length stages.now < 2 ^ 64 }
    ensures { OnOk result (phases.new.items ≡ phases.old.items ++ spec.phases_from number first stages.now tasks.now
        ends.now) }
{
    let [stage, stages @ ..] = stages else {
        return Ok(());
    };
    let [count, tasks @ ..] = tasks else {
        return Ok(());
    };
    let [end, ends @ ..] = ends else {
        return Ok(());
    };
    phases.push(CodePhase {
        number,
        stage: *stage,
        tasks: *count,
        first,
        end: *end,
    })?;
    push_phases(phases, number + 1, *end, stages, tasks, ends)?;
    Ok(())
}

/// Appends `.PLACE` of an update.
pub(crate) fn push_update(text: &mut String, update: Option<usize>) -> Result<(), AllocError>
    ensures { OnOk result (string_bytes text.new ≡ string_bytes text.old ++ spec.update_text update) }
{
    if let Some(at) = update {
        write!(text, ".{at}")?;
    }
    Ok(())
}

/// The address of a word of the text.
pub(crate) fn address_of(place: u32) -> u64
    ensures { result ≡ text_start + 4 * place }
{
    u64::from(TEXT_START) + 4 * u64::from(place)
}

/// What is after the name of a phase's stage: ` tasks N code FIRST BEHIND`.
#[tactic(auto, unfolding(crate::specs::Phases::code_text))]
fn code_text(alloc: Global, phase: &CodePhase) -> Result<String, AllocError>
    ensures { IfOk result (λ text. string_bytes text ≡ spec.code_text phase.now) }
{
    let tasks = phase.tasks;
    let mut text = String::new(alloc);
    push_update(&mut text, phase.stage.update)?;
    write!(text, " tasks {tasks} code ")?;
    push_hexadecimal(&mut text, 8, address_of(phase.first))?;
    text.push_str(" ")?;
    push_hexadecimal(&mut text, 8, address_of(phase.end))?;
    text.push_str("\n")?;
    Ok(text)
}

/// What is before the name of a phase's stage.
fn number_text(alloc: Global, number: u64) -> Result<String, AllocError>
    ensures { IfOk result (λ text. string_bytes text ≡ codes "phase " ++ decimal number ++ codes " stage ") }
{
    let mut text = String::new(alloc);
    write!(text, "phase {number} stage ")?;
    Ok(text)
}

/// `phase PHASE stage NAME tasks N code FIRST BEHIND`
#[tactic(auto, unfolding(crate::specs::Phases::phase_line))]
fn push_phase_line(
    alloc: Global,
    out: &mut Vec<u8>,
    names: &Items<Items<u8>>,
    phase: &CodePhase,
) -> Result<(), AllocError>
    ensures { OnOk result (out.new.items ≡ out.old.items ++ spec.phase_line names.now phase.now) }
{
    let number = number_text(alloc, phase.number)?;
    let code = code_text(alloc, phase)?;
    out.extend_from_slice(number.as_bytes())?;
    out.extend_from_slice(name_at(names, phase.stage.func))?;
    out.extend_from_slice(code.as_bytes())?;
    Ok(())
}

/// The lines of phases, after each of them those of the stages inside it.
#[tactic(auto, unfolding(crate::specs::Stages::phase_lines))]
pub(crate) fn push_phase_lines(
    alloc: Global,
    out: &mut Vec<u8>,
    names: &Items<Items<u8>>,
    phases: &[CodePhase],
    stages: &[CodeStage],
) -> Result<(), AllocError>
    ensures { OnOk result (out.new.items ≡ out.old.items ++ phase_lines names.now phases.now stages.now) }
{
    let [phase, others @ ..] = phases else {
        return Ok(());
    };
    push_phase_line(alloc, out, names, phase)?;
    let behind = push_stage_lines(alloc, out, names, phase, stages)?;
    push_phase_lines(alloc, out, names, others, behind)?;
    Ok(())
}
