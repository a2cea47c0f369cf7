//! The rows of the instruction table as text has them: mnemonics, and how operands are written.
//!
//! A [`MnemonicForm`] is an instruction without its operands. It has a mnemonic and a list of [`Slot`]s, one
//! for each operand, that say how the operand is written and which field of the row it gives. With
//! numbers for all fields a form is an instruction, and an instruction gives its form and numbers back.
//! The assembler reads by this one table, and the listing writes by it.
//!
//! - [`forms`]: the forms, and their mnemonics (`specs/Forms.antt`); which form a mnemonic names is in
//!   `specs/Named.antt`.
//! - [`slots`]: how operands are written, and the slots of each form (`specs/Slots.antt`).
//! - [`fields`]: the numbers in an instruction's fields.
//! - [`registers`]: the register that a word names (`specs/Registers.antt`).
//! - [`configurations`]: the vtype that four names say (`specs/Configuration.antt`).
//! - [`laws`]: that mnemonics tell forms apart, that forms and fields tell instructions apart, and that
//!   operands fill a form's fields (`specs/Placing.antt`).
#![tactic(auto)]

mod building;
mod configurations;
mod fields;
pub mod forms;
pub mod laws;
mod names;
mod registers;
mod search;
mod shapes;
pub mod slots;
mod values;
mod vector_building;
mod vector_names;

pub use crate::configurations::vtype_named;
pub use crate::fields::Fields;
pub use crate::forms::{MnemonicForm, VectorForm};
pub use crate::registers::{integer_register, vector_register};
pub use crate::slots::Slot;
