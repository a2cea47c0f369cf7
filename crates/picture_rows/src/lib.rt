//! Rows of words: the values of an expression at places one beside the other, and what operations make of them.
//!
//! - [`rows`]: a row is one word, words that go up by 1, such words between two bounds, or a list of words
//!   (`specs/Rows.antt`).
//! - [`clamps`]: words between two bounds.
//! - [`windows`]: stretches of a row that are known.
//! - [`loops`]: what an operation makes of lists of words, place by place.
#![tactic(auto)]

pub mod clamps;
mod loops;
pub mod rows;
pub mod windows;

pub use crate::clamps::Clamp;
pub use crate::rows::Row;
pub use crate::windows::Window;
