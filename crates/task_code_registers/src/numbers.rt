//! Numbers, and registers plus or times a number.

ghost use Rattle.std.specs.Prelude.{◌≡◌, ◌+◌, ◌*◌, ◌%◌, ◌^◌, ◌<◌, ◌≤◌, [], ◌∷◌, IfSome, OnOk, true};
ghost use Rattle.rv_insn.specs.declared.instructions.Insn.TheVariants.{AluImm, Lui};
ghost use Rattle.rv_insn.specs.declared.operations.AluImmOp.TheVariants.{Addi};
ghost use Rattle.task_code_scalar.specs.Code.{lower, upper};
ghost use Rattle.task_code_scalar.specs.Words.{Emits};
ghost use Rattle.task_code_registers.specs.Emitting.{Fits, Makes, MakesOf};
ghost use Rattle.task_code_registers.specs.Registers.{IsSource, IsTarget};

use crate::registers::{SCRATCH, ZERO};
use halide_pipeline::words;
use rv_insn::{AluImmOp, AluOp, Imm12, Imm20, Insn, ShiftOp};
use std::alloc::AllocError;
use task_code_scalar::instructions::{alu, emit_literal, put, register, shift};

/// Whether an immediate of 12 bits stands for a word.
pub fn fits(number: u32) -> bool
    ensures yes { result ≡ true → Fits number }
    ensures otherwise { Fits number → result ≡ true }
{
    number < 2048 || number >= 0xffff_f800
}

/// The low 12 bits of a word, as the signed number that an immediate is.
pub fn lower_part(value: u32) -> Imm12
    ensures { result ≡ lower value }
{
    let low = (value % 4096) as i32;
    if low < 2048 {
        Imm12::new(low).unwrap()
    } else {
        Imm12::new(low - 4096).unwrap()
    }
}

/// The upper 20 bits, and one more where the low ones stand for a negative number.
fn upper_part(value: u32) -> Imm20
    ensures { result ≡ upper value }
{
    let rounded = (value as u64 + 2048) / 4096 % (1 << 20);
    Imm20::new(rounded as u32).unwrap()
}

fn add_small(code: &mut Vec<u32>, r: u8, s: u8, number: u32) -> Result<(), AllocError>
    requires { (r < 32) × (s < 32) }
    ensures { OnOk result (Emits code.old.items code.new.items (AluImm Addi r s (lower number) ∷ [])) }
{
    let rd = register(r);
    let rs1 = register(s);
    let imm = lower_part(number);
    put(
        code,
        &Insn::AluImm {
            op: AluImmOp::Addi,
            rd,
            rs1,
            imm,
        },
    )?;
    Ok(())
}

fn load_upper(code: &mut Vec<u32>, r: u8, value: u32) -> Result<(), AllocError>
    requires { r < 32 }
    ensures { OnOk result (Emits code.old.items code.new.items (Lui r (upper value) ∷ [])) }
{
    let rd = register(r);
    let imm = upper_part(value);
    put(code, &Insn::Lui { rd, imm })?;
    Ok(())
}

/// Appends what leaves a number in a register.
///
/// # Errors
///
/// Memory ran out.
pub fn emit_number(code: &mut Vec<u32>, r: u8, number: u32) -> Result<(), AllocError>
    requires { IsTarget r }
    ensures { OnOk result (Makes code.old.items code.new.items 2 r (λ f. number)) }
{
    if fits(number) {
        add_small(code, r, ZERO, number)?;
        return Ok(());
    }
    if number % 4096 == 0 {
        load_upper(code, r, number)?;
        return Ok(());
    }
    emit_literal(code, r, number)?;
    Ok(())
}

/// The immediate nearest to a number that none holds.
fn first_half(number: u32) -> u32 {
    if number < 1 << 31 { 2047 } else { 0xffff_f800 }
}

/// Appends what leaves the sum of a register and a number: nothing where it is there already, and two immediates
/// where these reach as far, which take no scratch register and one instruction less.
///
/// # Errors
///
/// Memory ran out.
pub fn emit_plus(code: &mut Vec<u32>, r: u8, s: u8, number: u32) -> Result<(), AllocError>
    requires { IsTarget r × IsSource s }
    ensures any { OnOk result (MakesOf code.old.items code.new.items 3 r s (λ v. (v + number) % 2 ^ 32)) }
    ensures small { Fits number → OnOk result (MakesOf code.old.items code.new.items 1 r s
        (λ v. (v + number) % 2 ^ 32)) }
{
    if number == 0 && r == s {
        return Ok(());
    }
    if fits(number) {
        add_small(code, r, s, number)?;
        return Ok(());
    }
    let first = first_half(number);
    let second = words::subtract(number, first);
    if fits(first) && fits(second) {
        add_small(code, r, s, first)?;
        add_small(code, r, r, second)?;
        return Ok(());
    }
    emit_number(code, SCRATCH, number)?;
    alu(code, AluOp::Add, r, s, SCRATCH)?;
    Ok(())
}

/// Which power of two a number is, of those from one on.
fn power_from(number: u32, power: u64, exponent: u8) -> Option<u8>
    requires { (power ≡ 2 ^ exponent) × (exponent ≤ 32) }
    ensures { IfSome result (λ k. (k < 32) × (number ≡ 2 ^ k)) }
{
    if exponent >= 32 {
        return None;
    }
    if u64::from(number) == power {
        return Some(exponent);
    }
    power_from(number, 2 * power, exponent + 1)
}

/// Which power of two a number is.
pub fn power_of_two(number: u32) -> Option<u8>
    ensures { IfSome result (λ k. (k < 32) × (number ≡ 2 ^ k)) }
{
    power_from(number, 1, 0)
}

/// Appends what leaves the product of a register and a number: a shift where it is a power of two.
///
/// # Errors
///
/// Memory ran out.
pub fn emit_times(code: &mut Vec<u32>, r: u8, s: u8, number: u32) -> Result<(), AllocError>
    requires { IsTarget r × IsSource s }
    ensures { OnOk result (Makes code.old.items code.new.items 3 r (λ f. (f s * number) % 2 ^ 32)) }
{
    if number == 0 {
        emit_number(code, r, 0)?;
        return Ok(());
    }
    match power_of_two(number) {
        Some(k) => {
            shift(code, ShiftOp::Slli, r, s, k)?;
            Ok(())
        }
        None => {
            emit_number(code, SCRATCH, number)?;
            alu(code, AluOp::Mul, r, s, SCRATCH)?;
            Ok(())
        }
    }
}
