//! Expressions with their inlined Funcs put in place.
//!
//! - `specs/Inlining.antt`: **one fold of expressions through inlined Funcs**, over any algebra, and its instances for
//!   points read, nodes and need; `specs/Values.antt` that for values.
//! - [`counts`], [`needs`]: an expression's nodes and need, in time that is linear in the texts of the Funcs.
//! - [`funcs`]: which Funcs are inlined.
//! - [`laws`]: what inlining keeps (`specs/Laws.antt`), that what is read in the text is seen through inlined Funcs
//!   (`specs/Passing.antt`), and that values, nodes and need are those of the tree with inlined Funcs put in place
//!   (`specs/Trees.antt`).
#![tactic(auto)]

pub mod counts;
mod funcs;
pub mod laws;
pub mod needs;

pub use crate::funcs::inlined_func;
