//! Expressions with names in place of parts whose values registers hold. A name is a loop variable that no loop has.
//!
//! - [`copies`]: expressions once more, whether two are the same, and which load nothing (`specs/Copies.antt`).
//! - [`names`]: names of expressions, and [`renaming`]: expressions and stores with names in place of parts
//!   (`specs/Names.antt`). `marks` guesses where names stand in an expression; nothing is promised of that.
#![tactic(auto)]

pub mod copies;
mod marks;
pub mod names;
pub mod renaming;
