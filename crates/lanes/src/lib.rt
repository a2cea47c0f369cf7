//! Vector registers as lanes: the integer operations of the vector instructions on all elements of a
//! register at once, for elements of 8, 16 and 32 bits.
//!
//! [`LaneKind`] is a kind of element with the operations on two of them. [`Lanes`] is a register's N
//! elements. Sums, order, bits, shifts, low products, comparisons and merges of all of them are operations
//! on vectors of the processor, one set a kind ([`LaneKernels`]); high products, quotients, remainders and
//! reductions are one loop for each shape, whatever the kind. [`masks`] says which elements are active, and
//! writes results as bits of a register. Nothing here allocates.
//!
//! `specs/Words.antt` defines each operation on two words, over the width, the elements of a register, masks, and
//! what is done with each element.
#![tactic(auto)]

mod comparisons;
mod kernels;
mod kinds;
pub mod laws;
mod masks;
mod operations;
mod registers;
pub mod vectors;

pub use crate::kinds::LaneKind;
pub use crate::masks::{active, mask_bit, mask_bits, write_four_mask_bits, write_mask_bits};
pub use crate::registers::Lanes;
pub use crate::vectors::LaneKernels;
