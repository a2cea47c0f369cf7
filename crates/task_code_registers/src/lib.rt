//! Numbers and sums of loop variables in registers. Contracts say what the appended code does, and not which
//! instructions it has (`specs/Emitting.antt`).
//!
//! - [`registers`]: which register is for what.
//! - [`scopes`]: what registers hold while code runs, each a form: a sum of loop variables and of the hart's number
//!   (`specs/Scopes.antt`); which registers are left.
//! - [`numbers`]: appends what leaves a number, or a register plus or times a number.
//! - [`sums`]: appends what leaves a form's value or makes an address, from the nearest form that a register holds
//!   or term by term.
//! - [`indexed`]: appends what makes a form of a held one and a scaled index (`specs/Indexed.antt`).
//! - [`points`]: the address of a point, whose column and row are sums of loop variables, as a form
//!   (`specs/Points.antt`).
//! - [`holding`]: appends what holds a form in a register while a loop runs, and what makes of the forms of an
//!   iteration those of the next one (`specs/Holding.antt`).
//! - [`terms`]: room for the terms of a sum.
//! - [`laws`]: scopes may be entered one after the other; a loop that is tested at its bottom does its iterations
//!   (`specs/Looping.antt`).
#![tactic(auto)]

pub mod holding;
pub mod indexed;
pub mod laws;
pub mod numbers;
pub mod points;
pub mod registers;
pub mod scopes;
pub mod sums;
pub mod terms;
