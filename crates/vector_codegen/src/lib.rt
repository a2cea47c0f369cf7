//! The words of a program that computes a pipeline's phases, one after the other: the code around that of their tasks.
//!
//! - [`generate`]: the words of a program, with where the code of each phase ends (`specs/Programs.antt`), and
//!   [`program_laws`]: they have the program at the beginning of the text, and how many they are.
//! - [`emit_phase`]: appends the words of a phase (`specs/PhaseCode.antt`).
//! - [`phase_laws`]: where each task's code does its task, such a program shares its work as the promises of
//!   `work_sharing` on every list of turns ask (`specs/Sharing.antt`).
//! - [`CodeStage`]: of `task_code_statements`, passed on.
#![tactic(auto)]

mod generation;
mod phase_laws;
mod phases;
mod program_laws;

pub use crate::generation::{Program, generate};
pub use crate::phase_laws::programs_share;
pub use crate::phases::emit_phase;
pub use crate::program_laws::{programs_are_short, programs_stand};
pub use task_code::CodeStage;
