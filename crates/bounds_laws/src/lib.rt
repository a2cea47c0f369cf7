//! Which Funcs have boxes; boxes hold all that is read, and no more than is asked; where readers stand: laws of
//! `bounds`, each the contract of a function that does nothing.
//!
//! - [`box_laws`]: which Funcs have boxes, and that boxes are the least that hold all ranges that are asked
//!   (`specs/Reached.antt`, `specs/Least.antt`).
//! - [`caller_laws`]: which Funcs another reads, also through inlined ones, and where the readers stand
//!   (`specs/Callers.antt`, `specs/StandingWhere.antt`).
//! - [`laws`]: **what is read lies in its box**, for all that the output's pixels read, what those read, and so on
//!   (`specs/Laws.antt`, `specs/Closure.antt`).
//! - [`consumer_laws`]: so do the arguments to which loops take a Func, and what is read there of a Func at a loop
//!   (`specs/ConsumerLaws.antt`).
#![tactic(auto)]

pub mod box_laws;
pub mod caller_laws;
pub mod consumer_laws;
pub mod laws;
