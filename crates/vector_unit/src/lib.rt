//! The vector unit of a hart: its registers, its configuration, and the vector instructions that touch no
//! memory.
//!
//! [`VectorState::configure`] and [`VectorState::execute`] are the instructions. Loads and stores are executed
//! by the crate that has a memory: [`VectorState::refuses`], [`VectorState::addresses`],
//! [`VectorState::active_numbers`] and [`VectorState::load`] are the unit's part in them.
//!
//! `specs/Vector.antt` has the state and its configuration, and what each instruction leaves, gives and refuses,
//! `specs/Operations.antt` what each operation makes of two elements, and `specs/Accesses.antt` where
//! the elements of loads and stores lie. Nothing here allocates.
#![tactic(auto)]

pub mod accesses;
mod bits;
mod comparisons;
pub mod configuration;
mod elements;
mod execution;
mod numbers;
mod operands;
mod operations;
mod pair_operations;
mod singles;
mod states;
mod vtypes;
mod whole_comparisons;
mod whole_elements;
mod whole_instructions;
mod wholes;
mod word_comparisons;

pub use crate::accesses::Spacing;
pub use crate::configuration::RequestedLength;
pub use crate::numbers::Numbers;
pub use crate::states::{VILL, VectorState};
