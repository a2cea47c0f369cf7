//! What the loops of a stage do: how many iterations each has and how far an iteration goes, what they visit and in
//! which order, and what each iteration of the parallel loop visits.
//!
//! - [`extents`]: how many values each variable takes.
//! - [`sizes`]: iterations and strides of the loops (`specs/Visits.antt`, `specs/Sizes.antt`).
//! - [`reach`]: how far loops take a variable (`specs/Reach.antt`).
//! - [`laws`]: what holds of every stage that lines make, and of every accepted one (`specs/Laws.antt`, over
//!   `specs/Visits.antt`, `specs/Reach.antt` and `specs/Stages.antt`), and which line a fault names
//!   (`specs/FaultLines.antt`).
//! - `specs/Runs.antt`: what a stage visits while its innermost loop takes all its values.
//!
//! A stage's loops come from the first loops of its Func, and an accepted stage keeps the rules of marked loops:
//! both are `schedule`'s words, so this crate is on it.
#![tactic(auto)]

pub mod extents;
pub mod laws;
mod reach;
pub mod sizes;

pub use crate::extents::Extents;
pub use crate::sizes::{LoopSize, LoopSizes};
