//! The text that says where everything of a program lies.

ghost use Rattle.std.specs.Prelude.{◌≡◌, ◌<◌, ◌≤◌, ◌^◌, ◌++◌, IfOk, OnOk};
ghost use Rattle.hrv_map.specs.Lines as lines;
ghost use Rattle.hrv_map.specs.Maps as spec;

use crate::lines::{control_line, push_frames_line, push_func_lines, push_input_lines};
use crate::names::{SourceNames, names_of};
use crate::phases::{CodePhase, push_phase_lines, push_phases, push_tasks, stages_of};
use bounds::Plan;
use std::alloc::{AllocError, Global};
use task_code_statements::stages::CodeStage;

/// Appends the line of a phase's words of control.
fn push_control_line(alloc: Global, out: &mut Vec<u8>, phase: u64) -> Result<(), AllocError>
    requires { phase < 2 ^ 32 }
    ensures { OnOk result (out.new.items ≡ out.old.items ++ lines.control_line phase) }
{
    let line = control_line(alloc, phase)?;
    out.extend_from_slice(line.as_bytes())?;
    Ok(())
}

/// Appends the lines of the words of control of the first this many phases.
fn push_control_lines(alloc: Global, out: &mut Vec<u8>, phases: u64) -> Result<(), AllocError>
    requires { phases ≤ 4194304 }
    ensures { OnOk result (out.new.items ≡ out.old.items ++ spec.control_lines phases) }
{
    for phase in 0..phases {
        push_control_line(alloc, out, phase)?;
    }
    Ok(())
}

/// Where the parts of the data lie.
#[tactic(auto, unfolding(crate::specs::Maps::layout_text))]
fn push_layout(
    alloc: Global,
    out: &mut Vec<u8>,
    names: &SourceNames,
    plan: &Plan<'_>,
) -> Result<(), AllocError>
    requires { plan.now.boxes.layout.phases ≤ 4194304 }
    ensures { OnOk result (out.new.items ≡ out.old.items ++ spec.layout_text names.now plan.now.pipeline
        plan.now.schedule plan.now.boxes) }
{
    let layout = &plan.boxes().layout;
    push_control_lines(alloc, out, layout.phases)?;
    push_input_lines(
        alloc,
        out,
        &names.inputs,
        &layout.inputs,
        0,
        plan.pipeline().inputs(),
    )?;
    push_func_lines(alloc, out, &names.funcs, plan, 0, plan.pipeline().funcs())?;
    push_frames_line(alloc, out, layout)?;
    Ok(())
}

/// The phases in the order of their code.
#[tactic(auto, unfolding(crate::specs::Maps::phases_of))]
fn phases_of(alloc: Global, plan: &Plan<'_>, ends: &[u32]) -> Result<Vec<CodePhase>, AllocError>
    ensures { IfOk result (λ phases. phases.items ≡ spec.phases_of plan.now.pipeline plan.now.schedule
        plan.now.boxes ends.now) }
{
    let stages = stages_of(alloc, plan)?;
    let mut tasks = Vec::new(alloc);
    push_tasks(alloc, &mut tasks, plan, stages.as_slice())?;
    let mut phases = Vec::new(alloc);
    push_phases(&mut phases, 0, 0, stages.as_slice(), tasks.as_slice(), ends)?;
    Ok(phases)
}

/// The text of a plan: where the parts of the data lie, and which words of the machine's text are the code of each
/// phase, and of stages inside. Names are those that the algorithm's text gives; the code of each phase ends at a
/// word of the machine's text, by its place from 0, and stages inside are in the order of their code.
///
/// # Errors
///
/// Memory ran out.
#[tactic(auto, unfolding(crate::specs::Maps::text_of))]
pub fn map_text(
    alloc: Global,
    algorithm: &str,
    plan: &Plan<'_>,
    ends: &[u32],
    stages: &[CodeStage],
) -> Result<Vec<u8>, AllocError>
    requires phases { plan.now.boxes.layout.phases ≤ 4194304 }
    ensures { IfOk result (λ text. text.items ≡ spec.map_text algorithm.now plan.now.pipeline plan.now.schedule
        plan.now.boxes ends.now stages.now) }
{
    let names = names_of(alloc, algorithm)?;
    let phases = phases_of(alloc, plan, ends)?;
    let mut out = Vec::new(alloc);
    push_layout(alloc, &mut out, &names, plan)?;
    push_phase_lines(alloc, &mut out, &names.funcs, phases.as_slice(), stages)?;
    Ok(out)
}
