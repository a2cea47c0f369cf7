//! The turns of a log as lines.
//!
//! - [`wanted`]: which turns are wanted ([`TurnsWanted`]).
//! - [`texts`]: the line of a turn ([`push_turn`]), over `specs/TraceText.antt`.
//! - [`passes`]: the lines of a piece of a log ([`trace_piece`]), so that never all of them stand in memory.
//! - [`traced`]: a text, and what is known of its words ([`TracedText`]).
//! - [`laws`]: pieces make the whole (`specs/Laws.antt`).
//! - `ranges`: the words that a turn touches; `effects`: what it does, as a text.
#![tactic(auto)]

mod effects;
pub mod laws;
pub mod passes;
mod ranges;
pub mod texts;
pub mod traced;
pub mod wanted;

pub use crate::passes::{TracePiece, trace_piece};
pub use crate::texts::push_turn;
pub use crate::traced::TracedText;
pub use crate::wanted::TurnsWanted;
