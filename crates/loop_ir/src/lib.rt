//! Loop nests over buffers, and what they do.
//!
//! - [`expressions`]: expressions over the values of loops and what buffers hold, and sums of counters times strides
//!   (`specs/Expressions.antt`).
//! - [`statements`]: stores, loops and tests; a phase is a statement that is run once for each of its tasks. How many
//!   counters stand around a store: `specs/Depths.antt`; how many registers expressions need: `specs/Needs.antt`; how
//!   many words of code a statement may ask for: `specs/Sizes.antt`. Whether one writes and loads only points that are
//!   there: `specs/Soundness.antt`; whether the lanes of vectorized loops may be done at once: `specs/LoopLanes.antt`.
//! - [`parts`]: expressions and statements that are taken apart (`specs/Parts.antt`).
//! - [`buffers`]: pixels of inputs and Funcs (`specs/Buffers.antt`).
//! - [`running`]: **what a statement and a phase do to the buffers** (`specs/Running.antt`). Running one takes no
//!   memory.
//! - [`laws`]: what an expression loads decides its value, and a point stays where nothing is stored at it
//!   (`specs/Stores.antt`).
#![tactic(auto)]

pub mod buffers;
pub mod expressions;
pub mod laws;
mod linear;
pub mod parts;
pub mod running;
pub mod statements;
