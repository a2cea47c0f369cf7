//! Changes of memory that are whole or don't happen: many elements stored at once, and an addition in memory.
//!
//! [`store_elements`] judges all addresses before it writes the first, so a fault of one element leaves memory as it
//! was. [`add_to_word`] answers the word that was there before. Both work over every memory of the law of
//! [`memory::Bytes`], and `specs/Elements.antt` says which accesses the elements are.
#![tactic(auto)]

mod additions;
mod elements;

pub use crate::additions::add_to_word;
pub use crate::elements::{bytes_of, store_elements};
