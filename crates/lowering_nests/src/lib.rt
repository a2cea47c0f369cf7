//! Statements with the loops of a stage around them, whose contracts say what the loops do and not what they look like,
//! but for how many counters they add, that expressions need no more registers, and how many words of code they ask
//! for.
//!
//! - [`nests`]: **a body under each of the values that a stage's loops visit, in order** (`specs/Nests.antt`). Whether
//!   the lanes of a vectorized loop may be done at once: `specs/LoopLanes.antt`.
//! - [`splits`]: the values of loops that are split.
//! - [`loops`]: loops around a body.
//! - `fronts`: the tests at a body's front, those that a loop doesn't change first.
//! - [`laws`]: a statement repeats itself.
#![tactic(auto)]

mod fronts;
pub mod laws;
pub mod loops;
pub mod nests;
pub mod splits;
