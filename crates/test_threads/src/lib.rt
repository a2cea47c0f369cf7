//! Tests of machines that threads share, as no file of cases can ask.
//!
//! - [`boards`]: numbers and a stop on a board.
//! - [`counters`]: a program of two harts that is driven, stopped, held, and run on from a log, and by one hart alone;
//!   what gates are asked.
//! - [`glances`]: the same program, looked at through glances of its machine.
//! - [`locks`]: turns under a lock, one by one.
//! - [`strips`]: a compiled blur, of whose harts one is abandoned, and in two phases that all of them end.
#![tactic(auto)]

#[cfg(test)]
mod boards;
#[cfg(test)]
mod counters;
#[cfg(test)]
mod glances;
#[cfg(test)]
mod locks;
#[cfg(test)]
mod strips;
