//! The machine code of statements and of tasks, over what registers hold. Contracts say what the appended code does,
//! and not which instructions it has.
//!
//! What is known:
//!
//! - `contexts`: of loop variables while code runs (`specs/Contexts.antt`).
//! - `names`: registers that hold what stays the same while a loop runs (`specs/Naming.antt`), and `starts`: which
//!   values get them.
//! - `splits`: the values of split loops as sums (`specs/Splits.antt`), and `lessers`: the lesser of two as an
//!   expression.
//!
//! What code is made of a statement:
//!
//! - `statements`: appends what does it, with forms that registers hold (`specs/Statements.antt`).
//! - `methods`: how the iterations of a loop are done.
//! - `vectorizing`: a vectorized loop whose iterations store all at once (`specs/Vectorizing.antt`).
//! - `guards`: the tests in front of such a store.
//! - `parting`: loops in two parts, of which the first needs no tests, and what is known to do nothing
//!   (`specs/Idling.antt`).
//! - [`tasks`]: appends what does one task of a phase (`specs/Tasks.antt`).
//! - [`stages`]: which words are the code of stages inside a phase.
//!
//! Stores by other variables:
//!
//! - `rewriting`: by those that aren't known (`specs/Rewriting.antt`), and `making`: without clamps that cut nothing
//!   off too (`specs/Making.antt`).
//! - `replacing`: with an expression for a variable (`specs/Replacing.antt`).
//! - `plain`: without names, `lacking`: without one variable, `mentions`: which variables there are.
//!
//! Guesses, of which nothing is promised:
//!
//! - `guessing`: what of a loop's body is worth a name, and `staying`: what of it stays the same in all iterations.
//! - `room`: how many registers a loop leaves to those inside, and `costs`: how many turns code takes.
#![tactic(auto)]

mod contexts;
mod costs;
mod guards;
mod guessing;
mod lacking;
mod lessers;
mod making;
mod mentions;
mod methods;
mod names;
mod parting;
mod plain;
mod replacing;
mod rewriting;
mod room;
mod splits;
pub mod stages;
mod starts;
mod statements;
mod staying;
pub mod tasks;
mod vectorizing;
