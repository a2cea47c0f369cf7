//! The lines of stages that are computed inside of phases.

ghost use Rattle.std.specs.Prelude.{◌≡◌, ◌++◌, IfOk, OnOk, codes};
ghost use Rattle.std.specs.Fmt.{decimal};
ghost use Rattle.std.specs.String.{string_bytes};
ghost use Rattle.hrv_map.specs.Stages as spec;

use crate::names::name_at;
use crate::phases::{CodePhase, address_of, push_update};
use disassembler::push_hexadecimal;
use sqlite_items::Items;
use std::alloc::{AllocError, Global};
use task_code_statements::stages::CodeStage;

/// Whether a stage's words are inside those of a phase, and there are some.
fn is_inside(phase: &CodePhase, stage: &CodeStage) -> bool
    ensures { result ≡ spec.is_inside phase.now stage.now }
{
    phase.first <= stage.first && stage.first < stage.end && stage.end <= phase.end
}

/// What is after the name of a stage: `.PLACE` of an update, and ` FIRST BEHIND`.
#[tactic(auto, unfolding(crate::specs::Stages::range_text))]
fn range_text(alloc: Global, code_stage: &CodeStage) -> Result<String, AllocError>
    ensures { IfOk result (λ text. string_bytes text ≡ spec.range_text code_stage.now) }
{
    let mut text = String::new(alloc);
    push_update(&mut text, code_stage.stage.update)?;
    text.push_str(" ")?;
    push_hexadecimal(&mut text, 8, address_of(code_stage.first))?;
    text.push_str(" ")?;
    push_hexadecimal(&mut text, 8, address_of(code_stage.end))?;
    text.push_str("\n")?;
    Ok(text)
}

/// What is before the name of a stage.
fn number_text(alloc: Global, number: u64) -> Result<String, AllocError>
    ensures { IfOk result (λ text. string_bytes text ≡ codes "code " ++ decimal number ++ codes " stage ") }
{
    let mut text = String::new(alloc);
    write!(text, "code {number} stage ")?;
    Ok(text)
}

/// `code PHASE stage NAME FIRST BEHIND`
#[tactic(auto, unfolding(crate::specs::Stages::stage_line))]
fn push_stage_line(
    alloc: Global,
    out: &mut Vec<u8>,
    names: &Items<Items<u8>>,
    phase: &CodePhase,
    code_stage: &CodeStage,
) -> Result<(), AllocError>
    ensures { OnOk result (out.new.items ≡ out.old.items ++ spec.stage_line names.now phase.now code_stage.now) }
{
    let number = number_text(alloc, phase.number)?;
    let range = range_text(alloc, code_stage)?;
    out.extend_from_slice(number.as_bytes())?;
    out.extend_from_slice(name_at(names, code_stage.stage.func))?;
    out.extend_from_slice(range.as_bytes())?;
    Ok(())
}

/// The line of a stage, if it is inside.
fn push_inside(
    alloc: Global,
    out: &mut Vec<u8>,
    names: &Items<Items<u8>>,
    phase: &CodePhase,
    stage: &CodeStage,
) -> Result<(), AllocError>
    ensures { OnOk result (out.new.items ≡ out.old.items ++ spec.line_inside names.now phase.now stage.now) }
{
    if is_inside(phase, stage) {
        push_stage_line(alloc, out, names, phase, stage)?;
    }
    Ok(())
}

/// The lines of the stages inside a phase, in front of those that begin after it, and which these are.
#[tactic(auto, unfolding(crate::specs::Stages::stage_lines, crate::specs::Stages::stages_behind))]
pub(crate) fn push_stage_lines<'a>(
    alloc: Global,
    out: &mut Vec<u8>,
    names: &Items<Items<u8>>,
    phase: &CodePhase,
    stages: &'a [CodeStage],
) -> Result<&'a [CodeStage], AllocError>
    ensures lines { OnOk result (out.new.items ≡ out.old.items ++ spec.stage_lines names.now phase.now stages.now) }
    ensures behind { IfOk result (λ behind. behind.now ≡ spec.stages_behind phase.now stages.now) }
{
    let [own, others @ ..] = stages else {
        return Ok(stages);
    };
    if own.first >= phase.end {
        return Ok(stages);
    }
    push_inside(alloc, out, names, phase, own)?;
    let behind = push_stage_lines(alloc, out, names, phase, others)?;
    Ok(behind)
}
