//! Words, and single instructions as words.

ghost use Rattle.std.specs.Prelude.{◌≡◌, ℕ, ◌+◌, ◌*◌, ◌-◌, ◌/◌, ◌%◌, ◌^◌, ◌<◌, ◌≤◌, [], ◌∷◌, ◌++◌, pos};
ghost use Rattle.std.specs.Prelude.{IfErr, OnErr, OnOk};
ghost use Rattle.rv_insn.specs.declared.instructions.Insn.TheVariants.{Alu, AluImm, Branch, Jal, Lui, Shift};
ghost use Rattle.rv_insn.specs.declared.operations.AluImmOp.TheVariants.{Addi};
ghost use Rattle.rv_insn.specs.declared.operations.BranchOp.TheVariants.{Bltu};
ghost use Rattle.task_code_scalar.specs.Code.{back, forth, literal, lower, upper};
ghost use Rattle.task_code_scalar.specs.Faults.{IsFault};
ghost use Rattle.task_code_scalar.specs.Words.{Emits};

use crate::CodeFault;
use rv_encoding::{decoded_is_meant, encode};
use rv_insn::{
    AluImmOp, AluOp, BranchOffset, BranchOp, Imm12, Imm20, Insn, JumpOffset, Reg, ShiftAmount,
    ShiftOp,
};
use std::alloc::AllocError;

/// Appends words.
pub fn append(code: &mut Vec<u32>, more: &[u32]) -> Result<(), AllocError>
    ensures ok { OnOk result (code.new.items ≡ code.old.items ++ more.now) }
    ensures err { OnErr result (code.new.items ≡ code.old.items) }
{
    code.extend_from_slice(more)?;
    Ok(())
}

/// The register with this number.
pub fn register(number: u8) -> Reg
    requires { number < 32 }
    ensures { result ≡ number }
{
    Reg::new(number).unwrap()
}

/// Appends the word of an instruction.
pub fn put(code: &mut Vec<u32>, insn: &Insn) -> Result<(), AllocError>
    ensures { OnOk result (Emits code.old.items code.new.items (insn.now ∷ [])) }
{
    decoded_is_meant();
    let word = encode(insn);
    code.push(word)?;
    Ok(())
}

/// Appends an operation on two registers.
pub fn alu(code: &mut Vec<u32>, op: AluOp, rd: u8, rs1: u8, rs2: u8) -> Result<(), AllocError>
    requires { (rd < 32) × (rs1 < 32) × (rs2 < 32) }
    ensures { OnOk result (Emits code.old.items code.new.items (Alu op rd rs1 rs2 ∷ [])) }
{
    let rd = register(rd);
    let rs1 = register(rs1);
    let rs2 = register(rs2);
    put(code, &Insn::Alu { op, rd, rs1, rs2 })?;
    Ok(())
}

/// Appends an operation on a register and a small number.
pub fn alu_small(
    code: &mut Vec<u32>,
    op: AluImmOp,
    rd: u8,
    rs1: u8,
    number: u8,
) -> Result<(), AllocError>
    requires { (rd < 32) × (rs1 < 32) × (number < 2) }
    ensures { OnOk result (Emits code.old.items code.new.items (AluImm op rd rs1 (pos number) ∷ [])) }
{
    let rd = register(rd);
    let rs1 = register(rs1);
    let imm = Imm12::new(number as i32).unwrap();
    put(code, &Insn::AluImm { op, rd, rs1, imm })?;
    Ok(())
}

/// Appends a shift.
pub fn shift(
    code: &mut Vec<u32>,
    op: ShiftOp,
    rd: u8,
    rs1: u8,
    amount: u8,
) -> Result<(), AllocError>
    requires { (rd < 32) × (rs1 < 32) × (amount < 32) }
    ensures { OnOk result (Emits code.old.items code.new.items (Shift op rd rs1 amount ∷ [])) }
{
    let rd = register(rd);
    let rs1 = register(rs1);
    let amount = ShiftAmount::new(amount).unwrap();
    put(
        code,
        &Insn::Shift {
            op,
            rd,
            rs1,
            amount,
        },
    )?;
    Ok(())
}

fn upper_part(value: u32) -> Imm20
    ensures { result ≡ upper value }
{
    let rounded = (value as u64 + 2048) / 4096 % (1 << 20);
    Imm20::new(rounded as u32).unwrap()
}

fn lower_part(value: u32) -> Imm12
    ensures { result ≡ lower value }
{
    let low = (value % 4096) as i32;
    if low < 2048 {
        Imm12::new(low).unwrap()
    } else {
        Imm12::new(low - 4096).unwrap()
    }
}

fn load_upper(code: &mut Vec<u32>, r: u8, value: u32) -> Result<(), AllocError>
    requires { r < 32 }
    ensures { OnOk result (Emits code.old.items code.new.items (Lui r (upper value) ∷ [])) }
{
    let rd = register(r);
    let imm = upper_part(value);
    put(code, &Insn::Lui { rd, imm })?;
    Ok(())
}

fn add_lower(code: &mut Vec<u32>, r: u8, value: u32) -> Result<(), AllocError>
    requires { r < 32 }
    ensures { OnOk result (Emits code.old.items code.new.items (AluImm Addi r r (lower value) ∷ [])) }
{
    let rd = register(r);
    let imm = lower_part(value);
    put(
        code,
        &Insn::AluImm {
            op: AluImmOp::Addi,
            rd,
            rs1: rd,
            imm,
        },
    )?;
    Ok(())
}

/// Appends what leaves a number in a register.
///
/// # Errors
///
/// Memory ran out.
pub fn emit_literal(code: &mut Vec<u32>, r: u8, value: u32) -> Result<(), AllocError>
    requires { r < 32 }
    ensures { OnOk result (Emits code.old.items code.new.items (literal r value)) }
{
    load_upper(code, r, value)?;
    add_lower(code, r, value)?;
    Ok(())
}

/// Appends a branch over the next instruction, made where the first register is below the second.
pub fn branch_below(code: &mut Vec<u32>, r: u8, s: u8) -> Result<(), AllocError>
    requires { (r < 32) × (s < 32) }
    ensures { OnOk result (Emits code.old.items code.new.items (Branch Bltu r s (pos 4) ∷ [])) }
{
    let rs1 = register(r);
    let rs2 = register(s);
    let offset = BranchOffset::new(4).unwrap();
    put(
        code,
        &Insn::Branch {
            op: BranchOp::Bltu,
            rs1,
            rs2,
            offset,
        },
    )?;
    Ok(())
}

/// Appends a jump over this many words, its own among them.
pub fn jump_forth(code: &mut Vec<u32>, words: usize) -> Result<(), CodeFault>
    requires { words ≤ 2 ^ 40 }
    ensures ok { OnOk result (Emits code.old.items code.new.items (Jal 0 (forth words) ∷ [])) }
    ensures err { IfErr result (IsFault (2 ^ 18 ≤ words) ⊥) }
{
    if words >= 1 << 18 {
        return Err(CodeFault::TooLong);
    }
    let rd = register(0);
    let offset = JumpOffset::new(2 * words as i32).unwrap();
    put(code, &Insn::Jal { rd, offset })?;
    Ok(())
}

/// Appends a jump back by this many words.
pub fn jump_back(code: &mut Vec<u32>, words: usize) -> Result<(), CodeFault>
    requires { (1 ≤ words) × (words ≤ 2 ^ 40) }
    ensures ok { OnOk result (Emits code.old.items code.new.items (Jal 0 (back words) ∷ [])) }
    ensures err { IfErr result (IsFault (2 ^ 18 ≤ words) ⊥) }
{
    if words >= 1 << 18 {
        return Err(CodeFault::TooLong);
    }
    let rd = register(0);
    let offset = JumpOffset::new(-(2 * words as i32)).unwrap();
    put(code, &Insn::Jal { rd, offset })?;
    Ok(())
}
