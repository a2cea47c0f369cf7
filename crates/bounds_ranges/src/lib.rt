//! Between which numbers the value of an expression lies.
//!
//! - [`bases`]: sums of multiples of loops (`specs/Ranges.antt`).
//! - [`ranges`]: ranges, and what operations make of them (`specs/Ranges.antt`).
//! - [`expressions`]: **the range of an expression through its inlined Funcs, and of the points that it reads**; the
//!   same in an update, whose arguments may be anywhere in an index that doesn't stand in place
//!   (`specs/Expressions.antt`).
//! - [`laws`]: each value and each point lies in its range (`specs/Laws.antt`).
#![tactic(auto)]

pub mod bases;
pub mod expressions;
pub mod laws;
pub mod ranges;
