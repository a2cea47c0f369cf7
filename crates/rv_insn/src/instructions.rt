//! Instructions as values.

use crate::immediates::{BranchOffset, Imm12, Imm20, JumpOffset, ShiftAmount};
use crate::operations::{AluImmOp, AluOp, BranchOp, LoadOp, ShiftOp, StoreOp};
use crate::registers::Reg;
use crate::vector_instructions::VectorInsn;

/// An instruction with all the fields of its row of the instruction table.
#[derive(Clone, Copy)]
pub enum Insn {
    /// `lui rd,imm`: the immediate becomes the upper 20 bits of `rd`, the lower 12 are 0.
    Lui {
        rd: Reg,
        imm: Imm20,
    },
    /// `auipc rd,imm`: the immediate's 20 bits, shifted to the upper end of a word, are added to the
    /// address of this instruction.
    Auipc {
        rd: Reg,
        imm: Imm20,
    },
    /// `jal rd,offset`: goes on at the offset from this instruction, and links in `rd`.
    Jal {
        rd: Reg,
        offset: JumpOffset,
    },
    /// `jalr rd,imm(rs1)`: goes on at `rs1 + imm`, with the lowest bit cleared, and links in `rd`.
    Jalr {
        rd: Reg,
        rs1: Reg,
        imm: Imm12,
    },
    /// A conditional branch on `rs1` and `rs2`, as far as the offset from this instruction.
    Branch {
        op: BranchOp,
        rs1: Reg,
        rs2: Reg,
        offset: BranchOffset,
    },
    /// A load into `rd` from the address `rs1 + imm`.
    Load {
        op: LoadOp,
        rd: Reg,
        rs1: Reg,
        imm: Imm12,
    },
    /// A store of `rs2` at the address `rs1 + imm`.
    Store {
        op: StoreOp,
        rs1: Reg,
        rs2: Reg,
        imm: Imm12,
    },
    /// An operation on `rs1` and an immediate, with its result in `rd`.
    AluImm {
        op: AluImmOp,
        rd: Reg,
        rs1: Reg,
        imm: Imm12,
    },
    /// A shift of `rs1` by an amount in the word, with its result in `rd`.
    Shift {
        op: ShiftOp,
        rd: Reg,
        rs1: Reg,
        amount: ShiftAmount,
    },
    /// An operation on `rs1` and `rs2`, with its result in `rd`.
    Alu {
        op: AluOp,
        rd: Reg,
        rs1: Reg,
        rs2: Reg,
    },
    /// `amoadd.w rd,rs2,(rs1)`: adds `rs2` to the word at `rs1`, and gives `rd` the word before, in
    /// one step. The bits `aq` and `rl` change nothing on a machine of one order.
    AmoaddW {
        rd: Reg,
        rs1: Reg,
        rs2: Reg,
        aq: bool,
        rl: bool,
    },
    /// `fence`, in its one form that orders all accesses: changes nothing on a machine of one order.
    Fence,
    /// `ecall`: the hart has finished.
    Ecall,
    /// `ebreak`: a trap.
    Ebreak,
    /// A vector instruction.
    Vector(VectorInsn),
}
