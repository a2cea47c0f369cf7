//! Vector instructions of machine code, and the groups of vector registers that they work on: a lane for each
//! iteration of a vectorized loop.
//!
//! - [`groups`]: groups of vector registers (`specs/Groups.antt`).
//! - [`vectors`]: appends single vector instructions.
//! - [`marks`]: those that mark a lane and put numbers into it.
#![tactic(auto)]

pub mod groups;
pub mod marks;
pub mod vectors;
