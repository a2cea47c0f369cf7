//! The machine's instructions as values, and the table that says which words mean them.
//!
//! An instruction is a value of [`Insn`]: an enum of groups, each with its operands and, where the
//! group has several rows of the instruction table, the operation that names the row. Every value
//! has all the fields of its row and nothing else, so each one is spelled by exactly one word.
//!
//! The table itself is in `specs/Table.antt` as literal data, and `specs/Encoding.antt` says
//! what it is for a word to mean an instruction. The crate `rv_encoding` computes both directions.
#![tactic(auto)]

mod immediates;
pub mod instructions;
pub mod operations;
pub mod outcomes;
mod registers;
pub mod vector_instructions;
pub mod vector_operations;

pub use crate::immediates::{
    BranchOffset, Imm5, Imm12, Imm20, JumpOffset, Length5, ShiftAmount, Vtype10, Vtype11,
};
pub use crate::instructions::Insn;
pub use crate::operations::{AluImmOp, AluOp, BranchOp, LoadOp, ShiftOp, StoreOp};
pub use crate::outcomes::{Outcome, Trap};
pub use crate::registers::{Reg, VReg};
pub use crate::vector_instructions::{Addressing, VectorInsn};
pub use crate::vector_operations::{
    AddressMode, ArithmeticViOp, ArithmeticVvOp, ArithmeticVxOp, CompareViOp, CompareVvOp,
    CompareVxOp, ElementWidth, MultiplyOp, ReductionOp, ShiftViOp,
};
