//! Words from instructions, and instructions from words.
//!
//! [`encode`] gives the one word that means an instruction, and [`decode`] the instruction that a
//! word means, or `None` exactly where no row of the instruction table fits the word. What a word
//! means is said by `Means` of the crate `rv_insn`, over its literal table; nothing here adds to
//! it. The laws say that a word means at most one instruction, and that no two rows of the table
//! share a name or fit one word.
//!
//! RISC-V Unprivileged ISA 20191213: the formats are those of sections 2.2 "Base Instruction
//! Formats" and 2.3 "Immediate Encoding Variants", the atomic addition is of section 8.4 "Atomic
//! Memory Operations", and the numbers of the rows are those of chapter 24 "RV32/64G Instruction
//! Set Listings".
#![tactic(auto)]

mod decoding;
mod encoding;
mod fields;
mod laws;
mod opcodes;
mod packing;
mod vector_decoding;
mod vector_encoding;

pub use crate::decoding::decode;
pub use crate::encoding::encode;
pub use crate::laws::{decoded_is_meant, names_are_distinct, one_meaning, rows_are_apart};
