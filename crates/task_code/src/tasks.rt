//! The code of a task: by forms in registers, and where these don't suffice, by loop variables alone.

ghost use Rattle.std.specs.Prelude.{◌≡◌, ◌+◌, ◌^◌, ◌<◌, OnErr, OnOk, IfErr, IfOk};
ghost use Rattle.task_code.specs.Faults.{IsTaskFault};
ghost use Rattle.task_code.specs.Tasks.{EmitsTask};
ghost use Rattle.task_code.specs.inner.Emitting.{EmitsTaskIf};

use crate::sizes::task_size;
use loop_ir::statements::Phase;
use std::alloc::{AllocError, Global};
use task_code_scalar::layouts::Places;
use task_code_scalar::{CodeFault, append};
use task_code_statements::stages::{CodeStage, add_moved};
use task_code_statements::tasks as forms;
use task_code_variables::tasks as variables;

/// Appends the code of one task with forms in registers, where there is such code and it is no longer than the phase
/// asks for; it says whether it did.
fn emit_by_forms(
    alloc: Global,
    phase: &Phase,
    places: &Places,
    ticket: u32,
    code: &mut Vec<u32>,
    stages: &mut Vec<CodeStage>,
) -> Result<bool, AllocError>
    requires { ticket + 4 < 2 ^ 32 }
    ensures ok { IfOk result (λ found. EmitsTaskIf code.old.items code.new.items phase.now places.now ticket found) }
    ensures err { OnErr result (code.new.items ≡ code.old.items) }
{
    let mut words = Vec::new(alloc);
    let mut inside = Vec::new(alloc);
    let most = task_size(phase) as usize;
    match forms::emit_task(alloc, phase, places, ticket, &mut words, &mut inside, most) {
        Ok(()) => {
            if words.len() > most {
                return Ok(false);
            }
            let found = inside.as_slice();
            add_moved(stages, found, code.len())?;
            append(code, words.as_slice())?;
            Ok(true)
        }
        Err(CodeFault::OutOfMemory(error)) => Err(error),
        Err(CodeFault::TooLong) => Ok(false),
        Err(CodeFault::TooDeep) => Ok(false),
    }
}

/// Appends the code of one task: by forms where they suffice, else by loop variables alone. The list of stages grows
/// even where no code is appended.
fn emit_words(
    alloc: Global,
    phase: &Phase,
    places: &Places,
    ticket: u32,
    code: &mut Vec<u32>,
    stages: &mut Vec<CodeStage>,
) -> Result<(), CodeFault>
    requires { ticket + 4 < 2 ^ 32 }
    ensures ok { OnOk result (EmitsTask code.old.items code.new.items phase.now places.now ticket) }
    ensures err { OnErr result (code.new.items ≡ code.old.items) }
    ensures fault { IfErr result (IsTaskFault phase.now places.now) }
{
    if emit_by_forms(alloc, phase, places, ticket, code, stages)? {
        return Ok(());
    }
    variables::emit_task(alloc, phase, places, ticket, code, stages)?;
    Ok(())
}

/// Appends the code of one task of a phase.
///
/// It finds the task's number in x12 and the hart's in x10, and ends after its last word, with the addresses of the
/// ticket word and of the gate word after it in x13 and x14, 1 in x15 and the number of tasks in x16; x10 and x11
/// stay. Wherever it is it does each task of the phase to the buffers in memory, in turns that depend on the task
/// alone (`DoesTask` of `task_code_statements/specs/Tasks.antt`), and it has no more words than the phase asks for. It
/// also adds which of the words it takes for the code of stages inside the phase; no clause speaks of that.
///
/// # Errors
///
/// Where memory runs out, the phase asks for 2^18 words or more, or an expression or a nest of loops has no registers
/// left: what is so then is in `specs/Faults.antt`. Code and stages are as they were.
#[tactic(auto, using(crate::proofs::Promising::cut_back))]
pub fn emit(
    alloc: Global,
    phase: &Phase,
    places: &Places,
    ticket: u32,
    code: &mut Vec<u32>,
    stages: &mut Vec<CodeStage>,
) -> Result<(), CodeFault>
    requires { ticket + 4 < 2 ^ 32 }
    ensures ok { OnOk result (EmitsTask code.old.items code.new.items phase.now places.now ticket) }
    ensures err { OnErr result (code.new.items ≡ code.old.items) }
    ensures stages { OnErr result (stages.new.items ≡ stages.old.items) }
    ensures fault { IfErr result (IsTaskFault phase.now places.now) }
{
    let before = code.len();
    let mut inside = Vec::new(alloc);
    emit_words(alloc, phase, places, ticket, code, &mut inside)?;
    if let Err(error) = stages.extend_from_slice(inside.as_slice()) {
        code.truncate(before);
        return Err(CodeFault::OutOfMemory(error));
    }
    Ok(())
}
