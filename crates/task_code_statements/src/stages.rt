//! Which words are the code of stages that are computed inside a phase of another Func.

ghost use Rattle.std.specs.Prelude.{◌≡◌, []};

use loop_ir::statements::Stmt;
use schedule_lines::stages::StageName;
use sqlite_items::Boxed;
use std::alloc::{AllocError, Global};
use task_code_borders::parting::is_part;

/// A stage inside a phase, and words that are the code of its nest.
#[derive(Clone, Copy)]
pub struct CodeStage {
    pub stage: StageName,
    /// The place of the first word, from 0.
    pub first: u32,
    /// The place after the last word.
    pub end: u32,
}

/// The stages inside a phase, in the order of their code.
pub struct Stages {
    /// The Func of the phase.
    pub own: usize,
    pub list: Vec<CodeStage>,
}

impl Drop for Stages {
    fn drop(self) {
        let Stages { list, own: _ } = self;
        drop(list);
    }
}

/// Words, and which of them are the code of stages inside their phase.
pub struct Code {
    pub words: Vec<u32>,
    pub stages: Stages,
}

impl Drop for Code {
    fn drop(self) {
        let Code { words, stages } = self;
        drop(words);
        drop(stages);
    }
}

/// The Func whose stage a statement is: nests of other Funcs stand in front of its own stores.
fn func_of(statement: &Stmt) -> usize {
    match statement {
        Stmt::Store(store) => store.func,
        Stmt::Sequence(_, second) => func_of(second.get()),
        Stmt::For(_, _, _, body) => func_of(body.get()),
        Stmt::Bind(_, _, _, body) => func_of(body.get()),
    }
}

/// None yet, inside a phase with this body.
pub fn no_stages(alloc: Global, body: &Stmt) -> Stages {
    Stages {
        own: func_of(body),
        list: Vec::new(alloc),
    }
}

/// None yet, inside the same phase.
pub fn none_beside(alloc: Global, stages: &Stages) -> Stages {
    Stages {
        own: stages.own,
        list: Vec::new(alloc),
    }
}

/// No words yet, of the same phase.
pub fn no_words_beside(alloc: Global, code: &Code) -> Code
    ensures { result.words.items ≡ [] }
{
    Code {
        words: Vec::new(alloc),
        stages: none_beside(alloc, &code.stages),
    }
}

/// A place in a text, which has no more than 2^18 words.
fn narrow(place: usize) -> u32 {
    if place < 1 << 32 {
        place as u32
    } else {
        u32::MAX
    }
}

/// Adds what is between these places, if the statement is the nest of a stage of another Func than the phase's.
fn add_nest(
    stages: &mut Stages,
    statement: &Stmt,
    update: Option<usize>,
    first: usize,
    behind: usize,
) -> Result<(), AllocError> {
    // Of a sequence each statement is added by itself, and parts of a loop with the loop around them.
    if let Stmt::Sequence(_, _) = statement {
        return Ok(());
    }
    if is_part(statement) {
        return Ok(());
    }
    let func = func_of(statement);
    if func == stages.own {
        return Ok(());
    }
    stages.list.push(CodeStage {
        stage: StageName { func, update },
        first: narrow(first),
        end: narrow(behind),
    })?;
    Ok(())
}

/// The update after the stage that was added last.
fn next_update(list: &[CodeStage]) -> Option<usize> {
    match list {
        [.., last] => match last.stage.update {
            None => Some(0),
            Some(at) => Some(at.saturating_add(1)),
        },
        [] => Some(0),
    }
}

/// Adds the first statement of a sequence, whose code is between these places: of another Func than the phase's it
/// is the pure definition.
///
/// # Errors
///
/// Memory ran out.
pub fn add_first(
    stages: &mut Stages,
    statement: &Boxed<Stmt>,
    first: usize,
    behind: usize,
) -> Result<(), AllocError> {
    add_nest(stages, statement.get(), None, first, behind)?;
    Ok(())
}

/// Adds the second statement of a sequence, whose code is between these places: of another Func than the phase's it
/// is the update after the stages in front.
///
/// # Errors
///
/// Memory ran out.
pub fn add_second(
    stages: &mut Stages,
    statement: &Boxed<Stmt>,
    first: usize,
    behind: usize,
) -> Result<(), AllocError> {
    let update = next_update(stages.list.as_slice());
    add_nest(stages, statement.get(), update, first, behind)?;
    Ok(())
}

/// Adds stages whose words were copied after this many others.
///
/// # Errors
///
/// Memory ran out.
pub fn add_moved(
    list: &mut Vec<CodeStage>,
    inner: &[CodeStage],
    by: usize,
) -> Result<(), AllocError> {
    let by = narrow(by);
    for own in inner {
        list.push(CodeStage {
            stage: own.stage,
            first: own.first.saturating_add(by),
            end: own.end.saturating_add(by),
        })?;
    }
    Ok(())
}

/// Adds stages of words that were copied to the end of this many.
///
/// # Errors
///
/// Memory ran out.
pub fn add_last(
    list: &mut Vec<CodeStage>,
    inner: &[CodeStage],
    words: usize,
    behind: usize,
) -> Result<(), AllocError> {
    add_moved(list, inner, behind.saturating_sub(words))?;
    Ok(())
}
