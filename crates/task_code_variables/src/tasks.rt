//! The code of one task of a phase, with loop variables alone in registers.

ghost use Rattle.std.specs.Prelude.{◌≡◌, ◌<◌, ◌+◌, ◌^◌, [], IfErr, IfOk, OnErr, OnOk};
ghost use Rattle.task_code_variables.specs.Statements.{IsStatementFault};
ghost use Rattle.task_code_variables.specs.Tasks as spec;
ghost use Rattle.task_code_variables.specs.Tasks.{AppendsShortTask};

use crate::renaming::numbered;
use crate::statements::emit_statement;
use loop_ir::expressions::Counter;
use loop_ir::statements::Phase;
use std::alloc::{AllocError, Global};
use task_code_registers::scopes::Held;
use task_code_scalar::layouts::Places;
use task_code_scalar::loops::with_counter;
use task_code_scalar::{CodeFault, append};
use task_code_statements::stages::{Code, CodeStage, add_moved, no_stages};
use task_code_statements::tasks::{emit_restored, with_drawn};
use task_code_values::sites::Site;

/// The task's own loop, if it has one.
fn loops_around(alloc: Global, counter: Option<Counter>) -> Result<Vec<Counter>, AllocError>
    ensures { IfOk result (λ counters. counters.items ≡ spec.loops_around counter) }
{
    match counter {
        None => Ok(Vec::new(alloc)),
        Some(own) => {
            let counters = with_counter(alloc, &[], own)?;
            Ok(counters)
        }
    }
}

/// What registers hold where a task begins.
fn held_first(alloc: Global, counter: Option<Counter>) -> Result<Vec<Held>, AllocError>
    ensures { IfOk result (λ made. made.items ≡ spec.held_first counter) }
{
    match counter {
        None => Ok(Vec::new(alloc)),
        Some(_) => {
            let made = with_drawn(alloc, numbered(0))?;
            Ok(made)
        }
    }
}

/// The words of one task of a phase.
fn task_words(alloc: Global, phase: &Phase, places: &Places, ticket: u32) -> Result<Code, CodeFault>
    requires { ticket + 4 < 2 ^ 32 }
    ensures ok { IfOk result (λ code. AppendsShortTask [] code.words.items phase.now places.now ticket) }
    ensures fault { IfErr result (IsStatementFault places.now (spec.held_first phase.now.counter) phase.now.body) }
{
    let around = loops_around(alloc, phase.counter)?;
    let scope = held_first(alloc, phase.counter)?;
    let site = Site {
        places,
        scope: scope.as_slice(),
    };
    let mut code = Code {
        words: Vec::new(alloc),
        stages: no_stages(alloc, &phase.body),
    };
    emit_statement(alloc, &mut code, &site, around.as_slice(), &phase.body)?;
    emit_restored(&mut code.words, ticket, phase.tasks)?;
    Ok(code)
}

/// Appends the code of one task of a phase.
///
/// It also adds which of the words it takes for the code of stages inside the phase; no clause speaks of that.
///
/// It finds the task's number in x12 and the hart's in x10, and ends after its last word, with the addresses of the
/// ticket word and of the gate word after it in x13 and x14, 1 in x15 and the number of tasks in x16.
///
/// # Errors
///
/// As of [`emit_statement`], where the task begins.
pub fn emit_task(
    alloc: Global,
    phase: &Phase,
    places: &Places,
    ticket: u32,
    code: &mut Vec<u32>,
    stages: &mut Vec<CodeStage>,
) -> Result<(), CodeFault>
    requires { ticket + 4 < 2 ^ 32 }
    ensures ok { OnOk result (AppendsShortTask code.old.items code.new.items phase.now places.now ticket) }
    ensures err { OnErr result (code.new.items ≡ code.old.items) }
    ensures fault { IfErr result (IsStatementFault places.now (spec.held_first phase.now.counter) phase.now.body) }
{
    let made = task_words(alloc, phase, places, ticket)?;
    let found = made.stages.list.as_slice();
    add_moved(stages, found, code.len())?;
    append(code, made.words.as_slice())?;
    Ok(())
}
