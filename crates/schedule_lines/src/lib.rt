//! One line of a schedule: its words, what they say, and what a line does to the loops of its stage.
//!
//! - [`faults`]: what can be wrong with a schedule.
//! - [`words`], [`lines`]: the words of a line and their grammar (`specs/Lines.antt`).
//! - [`stages`]: the loops of a stage, and the splits that they come from (`specs/Directives.antt`).
//! - [`directives`]: what a line does to the loops of its stage (`specs/Directives.antt`).
//! - [`laws`]: what every stage keeps that lines make (`specs/Making.antt`).
#![tactic(auto)]

pub mod directives;
pub mod faults;
pub mod laws;
pub mod lines;
pub mod stages;
pub mod words;

pub use crate::faults::ScheduleFault;
pub use crate::stages::{Loop, LoopId, Mark, Marked, Split, Stage, StageName, Tail};
