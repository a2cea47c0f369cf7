//! A board that threads share: a word for each hart, and a word that says whether a stop was asked.
//!
//! The words lie in an `atomic_table`, whose rule (`specs/Rule.antt`) says: the word of a hart is the
//! number of the seat that has the hart, no word is less than what a glance has seen of it, and the stop word is never
//! cleared. Four kinds of step keep it (`specs/Steps.antt`), each one exchange on one word: add to
//! a seat's word, look at a seat's word, ask for a stop, look at the stop word. None waits.
//!
//! - [`boards`]: the board, its seats and its glances, and a board that is being closed ([`Closing`]).
//! - [`dealing`], [`closing`]: a board's beginning and end.
//! - [`steps`]: what is done on a board.
#![tactic(auto)]

pub mod boards;
mod closing;
mod dealing;
mod known;
mod rule;
mod steps;

pub use crate::boards::{Board, BoardSeat, Closing, Glance};
