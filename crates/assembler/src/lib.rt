//! The assembler: a text becomes the entry, the words, the bytes and the output of an image.
//!
//! A text is read twice. The first time [`surveys`] finds out where labels lie, by the front of each line
//! (`specs/Places.antt`). The second time each line is judged with all labels known (`specs/Judging.antt`,
//! `specs/Lines.antt`); the first faulty line decides, by its least fault (`specs/Faults.antt`). What a text
//! without faulty lines means is in `specs/Object.antt`: its words are those that the instruction table
//! has for its lines.
//!
//! - [`faults`]: why a text is refused ([`AsmFault`]).
//! - [`locations`], [`labels`], [`surveys`]: where lines lie, and what labels name.
//! - [`operations`]: what mnemonics and directives name; [`operands`], [`commands`], [`lines`]: what lines give.
//! - [`building`], [`objects`], [`assembling`]: the object of a text.
//! - [`laws`]: that the listing of words assembles to these words (`specs/Listings.antt`).
#![tactic(auto)]

mod assembling;
mod building;
mod commands;
pub mod faults;
mod labels;
pub mod laws;
pub mod lines;
mod locations;
mod objects;
pub mod operands;
mod operations;
mod products;
mod surveys;

pub use crate::assembling::assemble;
pub use crate::faults::AsmFault;
pub use crate::objects::Object;
