//! Memory: words of text, which are never written, and bytes of data, both by their addresses.
//!
//! [`Bytes`] is what a memory must do: its law is that a read gives the byte that is at an address,
//! and that a write puts one byte and leaves every other. [`Memory`] is the plain one. The functions
//! [`read_u8`] to [`write_u32`] work over every memory of that law: they read and write numbers of 8,
//! 16 and 32 bits with their lowest byte first, and refuse a misaligned address before one that lies
//! outside.
//!
//! `specs/Access.antt` says where text and data lie and what is at an address, and has the numbers and the traps.
#![tactic(auto)]

mod bytes;
mod laws;
mod memories;
mod numbers;

pub use crate::bytes::{Bytes, DATA_START, MOST_BYTES, MOST_WORDS, TEXT_START};
pub use crate::laws::{
    a_number_lies_at_its_places, writes_keep_bytes, writes_keep_the_size, writes_leave_other_bytes,
};
pub use crate::memories::Memory;
pub use crate::numbers::{
    check_store, read_for_amo, read_u8, read_u16, read_u32, write_u8, write_u16, write_u32,
};
