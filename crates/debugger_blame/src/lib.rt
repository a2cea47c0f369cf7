//! Who wrote a word of data: the last turn of a log that wrote one of its bytes, also where it wrote the value that
//! was there.
//!
//! - [`writes`]: the turn with what it found and left ([`Write`]).
//! - [`passes`]: one pass over a log, up to the last such turn ([`last_write`]), over `specs/LastWrites.antt`.
//! - [`marks`]: one pass over a log for words that stand in a row, each marked with its last turn ([`mark_words`]),
//!   over `specs/Marks.antt`.
//! - `stores`: what an instruction stores.
//! - `quiets`: words of text that store nothing.
//! - [`laws`]: the hart of that turn is the last writer of a byte that the theorem on assignments names; what the turn
//!   left in the word is there after all turns.
#![tactic(auto)]

pub mod laws;
pub mod marks;
mod passes;
mod quiets;
mod stores;
pub mod writes;

pub use crate::marks::{MarkedRange, Marking, mark_words};
pub use crate::passes::last_write;
pub use crate::writes::Write;
