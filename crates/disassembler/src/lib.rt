//! The listing of machine words: assembly text, a line for each word.
//!
//! [`write_line`] appends the line of a word, whatever the word is: a mnemonic and operands where it
//! means an instruction, else `.word` and the number (`specs/Listing.antt`); [`write_lines`] appends those of
//! several words, and [`write_addressed_lines`] says in a comment of each where its word is. [`laws`] say that such
//! a line, read as assembly text, gives back what it shows (`specs/Reading.antt`).
#![tactic(auto)]

pub mod laws;
mod lines;
mod listings;
mod numbers;
mod operands;

pub use crate::lines::write_line;
pub use crate::listings::{write_addressed_lines, write_lines};
pub use crate::numbers::push_hexadecimal;
