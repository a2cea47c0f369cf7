//! Runs of one thread, in which numbers of a generator say which hart makes the next turns: those of one seed are the
//! same each time.
//!
//! - [`drawing`]: the turns of a run, made on a machine and added to its log; [`draw_run`], over `specs/Drawing.antt`.
#![tactic(auto)]

mod drawing;

pub use crate::drawing::{DrawRules, draw_run};
