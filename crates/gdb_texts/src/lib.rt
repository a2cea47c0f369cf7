//! What gdb is told of a machine.
//!
//! - [`descriptions`]: its registers ([`push_description`]); [`memory_maps`]: its memory ([`push_memory_map`]), both as
//!   XML.
//! - [`pieces`]: pieces of such a text, as gdb asks for them ([`push_piece`]).
//!
//! `specs/Texts.antt` defines all of it.
#![tactic(auto)]

pub mod descriptions;
mod elements;
pub mod memory_maps;
pub mod pieces;

pub use crate::descriptions::push_description;
pub use crate::memory_maps::push_memory_map;
pub use crate::pieces::push_piece;
