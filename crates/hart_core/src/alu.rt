//! What the scalar instructions compute, from the numbers of registers and immediates.

ghost use Rattle.std.specs.Prelude.{◌≡◌};
ghost use Rattle.hart_core.specs.Scalar.{computed as computed_of};
ghost use Rattle.hart_core.specs.Scalar.{computed_with_immediate as computed_with_immediate_of};
ghost use Rattle.hart_core.specs.Scalar.{shifted as shifted_of, is_taken as is_taken_of, extended};

use lanes::LaneKind;
use rv_insn::{AluImmOp, AluOp, BranchOp, Imm12, ShiftAmount, ShiftOp};

/// The result of an operation on the numbers of `rs1` and `rs2`.
#[inline]
pub fn computed(op: AluOp, a: u32, b: u32) -> u32
    ensures { result ≡ computed_of op a b }
{
    match op {
        AluOp::Add => a.add(b),
        AluOp::Sub => a.sub(b),
        AluOp::Sll => a.shift_left(b),
        AluOp::Slt => u32::from(a.less_signed(b)),
        AluOp::Sltu => u32::from(a.less_unsigned(b)),
        AluOp::Xor => a.xor(b),
        AluOp::Srl => a.shift_right_logical(b),
        AluOp::Sra => a.shift_right_arithmetic(b),
        AluOp::Or => a.or(b),
        AluOp::And => a.and(b),
        AluOp::Mul => a.multiply(b),
        AluOp::Mulh => a.multiply_high_signed(b),
        AluOp::Mulhsu => a.multiply_high_signed_unsigned(b),
        AluOp::Mulhu => a.multiply_high_unsigned(b),
        AluOp::Div => a.divide_signed(b),
        AluOp::Divu => a.divide_unsigned(b),
        AluOp::Rem => a.remainder_signed(b),
        AluOp::Remu => a.remainder_unsigned(b),
    }
}

/// The result of an operation on the number of `rs1` and the extended immediate.
#[inline]
pub fn computed_with_immediate(op: AluImmOp, a: u32, imm: Imm12) -> u32
    ensures { result ≡ computed_with_immediate_of op a (extended imm) }
{
    let b = extend(imm);
    match op {
        AluImmOp::Addi => a.add(b),
        AluImmOp::Slti => u32::from(a.less_signed(b)),
        AluImmOp::Sltiu => u32::from(a.less_unsigned(b)),
        AluImmOp::Xori => a.xor(b),
        AluImmOp::Ori => a.or(b),
        AluImmOp::Andi => a.and(b),
    }
}

/// The number of `rs1` shifted by an amount.
#[inline]
pub fn shifted(op: ShiftOp, a: u32, amount: ShiftAmount) -> u32
    ensures { result ≡ shifted_of op a amount }
{
    let amount = u32::from(amount.value());
    match op {
        ShiftOp::Slli => a.shift_left(amount),
        ShiftOp::Srli => a.shift_right_logical(amount),
        ShiftOp::Srai => a.shift_right_arithmetic(amount),
    }
}

/// Whether a branch on the numbers of `rs1` and `rs2` is taken.
#[inline]
pub fn is_taken(op: BranchOp, a: u32, b: u32) -> bool
    ensures { result ≡ is_taken_of op a b }
{
    match op {
        BranchOp::Beq => a.equal(b),
        BranchOp::Bne => a.not_equal(b),
        BranchOp::Blt => a.less_signed(b),
        BranchOp::Bge => b.less_or_equal_signed(a),
        BranchOp::Bltu => a.less_unsigned(b),
        BranchOp::Bgeu => b.less_or_equal_unsigned(a),
    }
}

/// An immediate as a word, its sign extended.
pub fn extend(imm: Imm12) -> u32
    ensures { result ≡ extended imm }
{
    imm.value().cast_unsigned()
}
