//! The words of phases, one after the other.

ghost use Rattle.std.specs.Prelude.{◌≡◌, ◌+◌, ◌<◌, ◌≤◌, ◌++◌, ◌∷◌, [], OnOk, IfErr, IfOk, length};
ghost use Rattle.std.specs.List.{AllByRecursion};
ghost use Rattle.work_sharing.specs.Turns.{ticket_word};
ghost use Rattle.vector_codegen.specs.Programs as spec;
ghost use Rattle.vector_codegen.specs.inner.Emitting.{EmitsPhase, EmitsPhases, IsEnd, IsPhaseAtFault};

use crate::emit_phase;
use loop_ir::statements::Phase;
use memory::{DATA_START, MOST_WORDS};
use std::alloc::{AllocError, Global};
use task_code::{CodeStage, add_last, emit};
use task_code_scalar::CodeFault;
use task_code_scalar::layouts::Places;

/// A program has at most this many phases: the code around a phase's tasks takes 16 words.
const MOST_PHASES: usize = MOST_WORDS / 16;

/// Harts count tasks in a word, with those that they draw in vain.
const MOST_TASKS: u32 = 1 << 31;

/// The address of a phase's ticket word.
fn ticket_of(number: u32) -> u32
    requires { number < 16384 }
    ensures is { result ≡ ticket_word number }
    ensures low { result + 4 < 4294967296 }
{
    DATA_START + 8 * number
}

/// What is of a program while its phases are laid one after the other.
#[derive(Drop)]
struct BegunProgram {
    words: Vec<u32>,
    /// The place after the last word of each phase, from 0.
    ends: Vec<usize>,
    /// Stages inside of phases, in the order of their code.
    stages: Vec<CodeStage>,
}

/// Appends the words of the phase with this number, and the stages inside it.
fn push_phase(
    alloc: Global,
    begun: &mut BegunProgram,
    places: &Places,
    number: u32,
    phase: &Phase,
    is_last: bool,
) -> Result<(), CodeFault>
    requires { number < 16384 }
    ensures emits { OnOk result (EmitsPhase begun.old.words.items begun.new.words.items places.now number is_last
        phase.now) }
    ensures ends { OnOk result (begun.new.ends.items ≡ begun.old.ends.items) }
    ensures few { OnOk result (spec.HasFewTasks phase.now) }
    ensures err { IfErr result (IsPhaseAtFault places.now phase.now) }
{
    if phase.tasks > MOST_TASKS {
        return Err(CodeFault::TooLong);
    }
    let ticket = ticket_of(number);
    let mut words = Vec::new(alloc);
    let mut inside = Vec::new(alloc);
    emit(alloc, phase, places, ticket, &mut words, &mut inside)?;
    emit_phase(
        &mut begun.words,
        is_last,
        ticket,
        phase.tasks,
        words.as_slice(),
    )?;
    // The way back to the draw is one word.
    let behind = begun.words.len().saturating_sub(1);
    add_last(&mut begun.stages, inside.as_slice(), words.len(), behind)?;
    Ok(())
}

/// Appends where the code of a phase ends.
fn push_end(ends: &mut Vec<usize>, end: usize) -> Result<(), AllocError>
    ensures { OnOk result (ends.new.items ≡ ends.old.items ++ end ∷ []) }
{
    ends.push(end)?;
    Ok(())
}

/// Appends the words of phases, the first of which has this number, where the code of each ends, and the stages inside.
fn push_phases(
    alloc: Global,
    begun: &mut BegunProgram,
    places: &Places,
    number: u32,
    phases: &[Phase],
) -> Result<(), CodeFault>
    requires { number + length phases.now ≤ 16384 }
    ensures emits { OnOk result (EmitsPhases begun.old.words.items begun.new.words.items begun.old.ends.items
        begun.new.ends.items places.now number phases.now) }
    ensures few { OnOk result (AllByRecursion spec.HasFewTasks phases.now) }
    ensures err { IfErr result (spec.ArePhasesAtFault places.now phases.now) }
{
    let [phase, others @ ..] = phases else {
        return Ok(());
    };
    push_phase(alloc, begun, places, number, phase, others.is_empty())?;
    push_end(&mut begun.ends, begun.words.len())?;
    push_phases(alloc, begun, places, number + 1, others)?;
    Ok(())
}

/// Appends numbers that fit words.
fn push_ends(narrow: &mut Vec<u32>, ends: &[usize]) -> Result<(), AllocError>
    requires { AllByRecursion IsEnd ends.now }
    ensures { OnOk result (narrow.new.items ≡ narrow.old.items ++ ends.now) }
{
    let [end, others @ ..] = ends else {
        return Ok(());
    };
    narrow.push(*end as u32)?;
    push_ends(narrow, others)?;
    Ok(())
}

/// The words of a program, and where the code of each phase ends in them, and that of stages inside of phases is.
#[derive(Drop)]
pub struct Program {
    pub words: Vec<u32>,
    /// The place after the last word of each phase, from 0.
    pub ends: Vec<u32>,
    /// Stages inside of phases, in the order of their code.
    pub stages: Vec<CodeStage>,
}

/// The words of the program that phases make, where buffers lie so, and where the code of each phase ends: whichever
/// instructions stand for a task, they do it (`specs/Programs.antt`).
///
/// # Errors
///
/// Memory ran out; the phases ask for more words than a text may have, or one has more than 2^31 tasks; or an
/// expression or a nest of loops has no registers left.
pub fn generate(alloc: Global, phases: &[Phase], places: &Places) -> Result<Program, CodeFault>
    ensures ok { IfOk result (λ program. spec.IsProgramTo places.now phases.now program.words.items
        program.ends.items) }
    ensures err { IfErr result (spec.ArePhasesAtFault places.now phases.now) }
{
    if phases.len() > MOST_PHASES {
        return Err(CodeFault::TooLong);
    }
    let mut begun = BegunProgram {
        words: Vec::new(alloc),
        ends: Vec::new(alloc),
        stages: Vec::new(alloc),
    };
    push_phases(alloc, &mut begun, places, 0, phases)?;
    if begun.words.len() > MOST_WORDS {
        return Err(CodeFault::TooLong);
    }
    let mut ends = Vec::new(alloc);
    push_ends(&mut ends, begun.ends.as_slice())?;
    let BegunProgram { words, stages, .. } = begun;
    Ok(Program {
        words,
        ends,
        stages,
    })
}
