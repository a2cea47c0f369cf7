//! One hart: its state and one turn of it, over any memory that keeps the law of [`Bytes`].
//!
//! The contract that crates above use is that of [`Hart::step`]: the hart, the data, the text and the outcome after a
//! call are those of one turn as `specs/Turn.antt` defines it, over the instruction table. `specs/Scalar.antt` has what
//! each scalar instruction computes and does, `specs/VectorRows.antt` what vector instructions touch and leave (over
//! `vector_unit`'s definitions of what they make of registers), `specs/HartState.antt` the state of a hart, and
//! `specs/Meanings.antt` what turns take of a word.
#![tactic(auto)]

mod accesses;
mod alu;
mod element_accesses;
mod execution;
pub mod harts;
mod meanings;
mod pieces;
mod runs;
mod scalars;
mod scattered;
mod vectors;

pub use crate::harts::{Hart, Status};
pub use crate::meanings::Meaning;
