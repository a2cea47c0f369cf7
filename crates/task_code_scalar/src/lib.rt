//! What code of tasks is on, whichever code it is.
//!
//! - [`instructions`]: single scalar instructions, appended as words (`specs/Words.antt`); literals and jumps are those
//!   of `specs/Code.antt`.
//! - [`layouts`]: where buffers lie in memory. Which of their points may be written and loaded, and where a hart's
//!   frame lies: `specs/Layout.antt`; what an expression loads: `specs/Evaluation.antt`.
//! - [`loops`]: loop variables around a statement; `specs/Fitting.antt` adds up the turns of a loop's iterations.
//! - [`CodeFault`]: why no code is given, and what has room (`specs/Faults.antt`).
//!
//! A *setting* (`specs/Doing.antt`) is what stays while a task is done. There is, too, what is asked of its
//! statement, and of memory.
#![tactic(auto)]

ghost use Rattle.std.specs.Prelude.{◌≡◌};
ghost use Rattle.task_code_scalar.specs.declared.CodeFault.TheVariants as faults;

pub mod instructions;
pub mod layouts;
pub mod loops;

pub use crate::instructions::append;
use std::alloc::AllocError;

/// Why no code is given (`specs/Faults.antt`).
#[derive(Debug, Drop)]
pub enum CodeFault {
    OutOfMemory(AllocError),
    /// The code asks for as many words as a text may have, or more.
    TooLong,
    /// An expression takes more registers than there are and more words than a hart's frame has, frames lie
    /// in the last 64 KiB of addresses, a divisor is 0, or more than 14 loop variables stand around a statement.
    TooDeep,
}

impl From<AllocError> for CodeFault {
    ghost from_gives = { λ error fault. fault ≡ faults.OutOfMemory error };

    fn from(error: AllocError) -> CodeFault {
        CodeFault::OutOfMemory(error)
    }
}
