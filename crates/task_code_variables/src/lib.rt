//! The machine code of statements and tasks with loop variables alone in registers, for those that forms leave no room
//! for (`task_code_statements`). Stores, loops and tests are put together of the same parts, but nothing is left out:
//! unrolled loops, and those of one iteration, are loops, each split loop is tested, and its value takes a register.
//!
//! - [`renaming`]: stores by variables that are numbered by how many loops stand around theirs (`specs/Renaming.antt`).
//! - [`splits`]: the values of split loops (`specs/Splits.antt`).
//! - [`collecting`]: vectorized loops whose iterations each put a pixel into a lane (`specs/Collecting.antt`).
//! - [`statements`]: appends what does a statement (`specs/Statements.antt`).
//! - [`tasks`]: appends what does one task of a phase (`specs/Tasks.antt`).
#![tactic(auto)]

mod collecting;
mod renaming;
mod splits;
mod statements;
pub mod tasks;
