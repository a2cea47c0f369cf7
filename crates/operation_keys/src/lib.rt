//! The keys that tell the operations of a group of instructions apart: the fields funct3, funct7 and funct6 of their
//! rows, or the width of a load or store; and the operation that has given keys.
//!
//! The keys are those of the instruction table of `rv_insn`, read by `specs/Operations.antt`. RISC-V Unprivileged ISA
//! 20191213, chapter 24 "RV32/64G Instruction Set Listings"; RISC-V Vector Extension 1.0, chapter 19 "Vector
//! Instruction Listing".
#![tactic(auto)]

mod scalar_keys;
mod vector_keys;

pub use crate::scalar_keys::{
    alu_funct3, alu_funct7, alu_imm_funct3, alu_imm_op, alu_op, branch_funct3, branch_op,
    load_funct3, load_op, shift_funct3, shift_funct7, shift_op, store_funct3, store_op,
};
pub use crate::vector_keys::{
    arithmetic_vi_funct6, arithmetic_vi_op, arithmetic_vv_funct6, arithmetic_vv_op,
    arithmetic_vx_funct6, arithmetic_vx_op, compare_vi_funct6, compare_vi_op, compare_vv_funct6,
    compare_vv_op, compare_vx_funct6, compare_vx_op, multiply_funct6, multiply_op,
    reduction_funct6, reduction_op, shift_vi_funct6, shift_vi_op, width_funct3, width_of,
};
