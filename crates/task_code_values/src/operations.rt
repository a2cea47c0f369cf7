//! What operations make of registers: in a third one, so that operands stay.

ghost use Rattle.std.specs.Prelude.{◌≡◌, ◌≢◌, ◌⊎◌, ◌<◌, [], ◌∷◌, OnOk};
ghost use Rattle.rv_insn.specs.declared.instructions.Insn.TheVariants.{AluImm};
ghost use Rattle.rv_insn.specs.declared.operations.AluImmOp.TheVariants.{Andi};
ghost use Rattle.task_code_scalar.specs.Code.{lower};
ghost use Rattle.task_code_scalar.specs.Words.{Emits};
ghost use Rattle.halide_pipeline.specs.Words as word;
ghost use Rattle.task_code_registers.specs.Registers.{IsPlace, IsSource};
ghost use Rattle.task_code_registers.specs.Scopes.{IsKept};
ghost use Rattle.task_code_values.specs.Making.{Blends, IsStack, MakesFrom, MakesOfTwo, Selects};

use crate::operands::emit_number_operand;
use halide_pipeline::Operation;
use rv_insn::{AluImmOp, AluOp, Insn, ShiftOp};
use std::alloc::{AllocError, Global};
use task_code_registers::numbers::{lower_part, power_of_two};
use task_code_registers::registers::{ADDRESS, SCRATCH, SECOND_SCRATCH, ZERO};
use task_code_registers::scopes::Held;
use task_code_scalar::instructions::{alu, alu_small, put, register, shift};

/// The sign bit's place in a word.
const SIGN_BIT: u8 = 31;

/// Appends what leaves the second of two registers where the scratch register is 1, and the first where it is 0.
///
/// # Errors
///
/// Memory ran out.
pub fn emit_blend(code: &mut Vec<u32>, r: u8, a: u8, b: u8) -> Result<(), AllocError>
    requires { IsPlace r × (IsSource a × IsSource b) }
    ensures { OnOk result (Blends code.old.items code.new.items r a b) }
{
    alu(code, AluOp::Sub, SECOND_SCRATCH, b, a)?;
    alu(code, AluOp::Mul, SECOND_SCRATCH, SECOND_SCRATCH, SCRATCH)?;
    alu(code, AluOp::Add, r, a, SECOND_SCRATCH)?;
    Ok(())
}

/// Appends what an operation makes of two registers.
///
/// # Errors
///
/// Memory ran out.
pub fn emit_operation(
    code: &mut Vec<u32>,
    op: Operation,
    r: u8,
    a: u8,
    b: u8,
) -> Result<(), AllocError>
    requires { IsPlace r × (IsSource a × IsSource b) }
    ensures { OnOk result (MakesOfTwo code.old.items code.new.items 4 r a b (word.applied op)) }
{
    match op {
        Operation::Add => alu(code, AluOp::Add, r, a, b),
        Operation::Subtract => alu(code, AluOp::Sub, r, a, b),
        Operation::Multiply => alu(code, AluOp::Mul, r, a, b),
        Operation::Minimum => {
            alu(code, AluOp::Slt, SCRATCH, b, a)?;
            emit_blend(code, r, a, b)
        }
        Operation::Maximum => {
            alu(code, AluOp::Slt, SCRATCH, a, b)?;
            emit_blend(code, r, a, b)
        }
        Operation::Less => alu(code, AluOp::Slt, r, a, b),
        Operation::LessOrEqual => {
            alu(code, AluOp::Slt, r, b, a)?;
            alu_small(code, AluImmOp::Sltiu, r, r, 1)
        }
        Operation::Greater => alu(code, AluOp::Slt, r, b, a),
        Operation::GreaterOrEqual => {
            alu(code, AluOp::Slt, r, a, b)?;
            alu_small(code, AluImmOp::Sltiu, r, r, 1)
        }
        Operation::Equal => {
            alu(code, AluOp::Sub, r, a, b)?;
            alu_small(code, AluImmOp::Sltiu, r, r, 1)
        }
        Operation::NotEqual => {
            alu(code, AluOp::Sub, r, a, b)?;
            alu(code, AluOp::Sltu, r, ZERO, r)
        }
    }
}

/// Appends what leaves the second of three registers where the first isn't 0, and else the third.
///
/// # Errors
///
/// Memory ran out.
pub fn emit_selection(
    code: &mut Vec<u32>,
    r: u8,
    condition: u8,
    a: u8,
    b: u8,
) -> Result<(), AllocError>
    requires { IsPlace r × (IsSource condition × (IsSource a × IsSource b)) }
    ensures { OnOk result (Selects code.old.items code.new.items r condition a b) }
{
    alu(code, AluOp::Sltu, SCRATCH, ZERO, condition)?;
    emit_blend(code, r, b, a)?;
    Ok(())
}

/// Appends what leaves the quotient of a register by a literal, rounded to minus infinity: a shift where the literal is
/// a power of two. Else the complement of a negative number is divided, and the quotient's complement taken.
///
/// # Errors
///
/// Memory ran out.
pub fn emit_quotient(
    alloc: Global,
    code: &mut Vec<u32>,
    scope: &[Held],
    divisor: u32,
    a: u8,
    r: u8,
) -> Result<(), AllocError>
    requires place { IsStack r }
    requires operand { IsSource a × ((a ≡ r) ⊎ IsKept scope.now a) }
    requires some { 0 < divisor }
    ensures { OnOk result (MakesFrom code.old.items code.new.items 6 scope.now r a (λ v. word.divide v divisor)) }
{
    if let Some(k) = power_of_two(divisor) {
        shift(code, ShiftOp::Srai, r, a, k)?;
        return Ok(());
    }
    let s = emit_number_operand(alloc, code, scope, divisor, ADDRESS)?;
    shift(code, ShiftOp::Srai, SCRATCH, a, SIGN_BIT)?;
    alu(code, AluOp::Xor, r, a, SCRATCH)?;
    alu(code, AluOp::Divu, r, r, s)?;
    alu(code, AluOp::Xor, r, r, SCRATCH)?;
    Ok(())
}

/// How large a power of two is at most whose predecessor an immediate is.
const MOST_MASKED: u32 = 2048;

/// Appends what leaves the bits of a register that a mask has.
fn emit_masked(code: &mut Vec<u32>, r: u8, a: u8, mask: u32) -> Result<(), AllocError>
    requires { (r < 32) × (a < 32) }
    ensures { OnOk result (Emits code.old.items code.new.items (AluImm Andi r a (lower mask) ∷ [])) }
{
    let rd = register(r);
    let rs1 = register(a);
    let imm = lower_part(mask);
    put(
        code,
        &Insn::AluImm {
            op: AluImmOp::Andi,
            rd,
            rs1,
            imm,
        },
    )?;
    Ok(())
}

/// Appends what leaves the remainder of a register by a literal, which isn't negative: its low bits where the literal
/// is a power of two that an immediate is for. Else of a negative number's complement the remainder is taken away from
/// the divisor less 1.
///
/// # Errors
///
/// Memory ran out.
pub fn emit_remainder(
    alloc: Global,
    code: &mut Vec<u32>,
    scope: &[Held],
    divisor: u32,
    a: u8,
    r: u8,
) -> Result<(), AllocError>
    requires place { IsStack r }
    requires operand { IsSource a × ((a ≡ r) ⊎ IsKept scope.now a) }
    requires some { 0 < divisor }
    ensures { OnOk result (MakesFrom code.old.items code.new.items 8 scope.now r a (λ v. word.remainder v divisor)) }
{
    if divisor <= MOST_MASKED && power_of_two(divisor).is_some() {
        emit_masked(code, r, a, divisor - 1)?;
        return Ok(());
    }
    let s = emit_number_operand(alloc, code, scope, divisor, ADDRESS)?;
    shift(code, ShiftOp::Srai, SCRATCH, a, SIGN_BIT)?;
    alu(code, AluOp::Xor, r, a, SCRATCH)?;
    alu(code, AluOp::Remu, r, r, s)?;
    alu(code, AluOp::Xor, r, r, SCRATCH)?;
    alu(code, AluOp::And, SCRATCH, SCRATCH, s)?;
    alu(code, AluOp::Add, r, r, SCRATCH)?;
    Ok(())
}
