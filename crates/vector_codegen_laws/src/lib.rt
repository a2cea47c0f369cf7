//! The phases of a pipeline in memory, as programs whose harts share their tasks: where the buffers of a pipeline lie
//! for the code of its tasks (`specs/Places.antt`), what each byte of the data is for while a phase's tasks are done,
//! and what it holds (`specs/Uses.antt`); and what the promises on every list of turns ask of a program
//! (`specs/Sharing.antt`).
//!
//! - [`memory_laws`]: points of buffers lie where the layout has them (`specs/Points.antt`); what a task touches lies
//!   so that its code may touch it (`specs/Settings.antt`); what memory holds before and after a task
//!   (`specs/Held.antt`); that turns which write a vectorized Func's points write whole runs (`specs/RunBytes.antt`).
//! - [`sharing_laws`]: phases whose code is in the text share their work, and leave the pixels of Funcs at root.
//! - [`stage_laws`]: which stages phases compute, and that those of pure definitions write all points
//!   (`specs/Whole.antt`).
//! The generator itself (`generate`) is passed on, since whoever has a program made wants what is promised of it.
#![tactic(auto)]

mod memory_laws;
mod sharing_laws;
mod stage_laws;

pub use crate::memory_laws::{
    memory_holds_funcs, points_are_there, tasks_are_laid, turns_write_runs,
};
pub use crate::sharing_laws::phases_are_shared;
pub use crate::stage_laws::stages_are_whole;
pub use vector_codegen::{CodeStage, Program, generate};
