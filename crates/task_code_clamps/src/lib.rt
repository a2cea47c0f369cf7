//! Expressions without clamps that cut nothing off, where loop variables stay below the counts of their loops.
//!
//! - [`ranges`]: between which numbers a word lies (`specs/Ranges.antt`).
//! - [`clamps`]: what expressions are without such clamps, part by part (`specs/Clamps.antt`).
//! - [`steps`]: clamps that cut at one number alone, as sums with a test (`specs/Steps.antt`).
#![tactic(auto)]

pub mod clamps;
mod ranges;
mod steps;
