//! The machine code of one task of a phase.
//!
//! - [`emit`]: appends words that do each task of a phase, wherever they stand (`specs/Tasks.antt`), or says why there
//!   are none (`specs/Faults.antt`). Which instructions they are is its own matter.
//! - [`CodeStage`], [`add_last`], [`emit_restored`]: of `task_code_statements`, passed on.
//! - `sizes`: how many words a task may ask for.
//! - [`laws`]: appended words stand in the text that goes on from there, and an instance of all that is promised of
//!   tasks (`specs/Example.antt`).
#![tactic(auto)]

pub mod laws;
mod sizes;
mod tasks;

pub use crate::tasks::emit;
pub use task_code_statements::stages::{CodeStage, add_last};
pub use task_code_statements::tasks::emit_restored;
