//! What is after a loop's body.

ghost use Rattle.std.specs.Prelude.{◌≡◌, ◌+◌, ◌*◌, ◌-◌, ◌^◌, ◌<◌, ◌≤◌, [], ◌∷◌, length};
ghost use Rattle.std.specs.Prelude.{IfErr, IfOk, OnOk, pos, true};
ghost use Rattle.rv_insn.specs.declared.instructions.Insn.TheVariants.{Branch};
ghost use Rattle.rv_insn.specs.declared.operations.BranchOp.TheVariants.{Beq, Bne};
ghost use Rattle.task_code_scalar.specs.Code.{back};
ghost use Rattle.task_code_scalar.specs.Faults.{IsFault};
ghost use Rattle.task_code_scalar.specs.Words.{Emits};
ghost use Rattle.task_code_loops.specs.Beginning as beginning;
ghost use Rattle.task_code_loops.specs.Beginning.{CanEnd};
ghost use Rattle.task_code_loops.specs.Ending.{EndsLoop, GoesBack, MakesLimit, end_words};

use crate::beginning::BegunLoop;
use crate::tests::Limit;
use rv_insn::{BranchOffset, BranchOp, Insn};
use std::alloc::AllocError;
use task_code_registers::holding::emit_advance;
use task_code_registers::numbers::emit_number;
use task_code_registers::registers::SCRATCH;
use task_code_scalar::CodeFault;
use task_code_scalar::instructions::{jump_back, put, register};

/// How many words a branch reaches back over.
const BRANCH_REACH: usize = 1024;

/// Appends what leaves a loop's limit in a register, which it returns.
fn emit_limit(code: &mut Vec<u32>, limit: Limit) -> Result<u8, AllocError>
    requires { beginning.may_be_limit limit ≡ true }
    ensures { IfOk result (MakesLimit code.old.items code.new.items limit) }
{
    match limit {
        Limit::Register(register) => Ok(register),
        Limit::Number(number) => {
            emit_number(code, SCRATCH, number)?;
            Ok(SCRATCH)
        }
    }
}

/// Appends a branch back by this many words, made where two registers differ.
fn branch_back(code: &mut Vec<u32>, a: u8, b: u8, words: usize) -> Result<(), AllocError>
    requires { (a < 32) × (b < 32) × (1 ≤ words) × (words ≤ 1024) }
    ensures { OnOk result (Emits code.old.items code.new.items (Branch Bne a b (back words) ∷ [])) }
{
    let rs1 = register(a);
    let rs2 = register(b);
    let offset = BranchOffset::new(-(2 * words as i32)).unwrap();
    put(
        code,
        &Insn::Branch {
            op: BranchOp::Bne,
            rs1,
            rs2,
            offset,
        },
    )?;
    Ok(())
}

/// Appends a branch over the next instruction, made where two registers are the same.
fn branch_over(code: &mut Vec<u32>, a: u8, b: u8) -> Result<(), AllocError>
    requires { (a < 32) × (b < 32) }
    ensures { OnOk result (Emits code.old.items code.new.items (Branch Beq a b (pos 4) ∷ [])) }
{
    let rs1 = register(a);
    let rs2 = register(b);
    let offset = BranchOffset::new(4).unwrap();
    put(
        code,
        &Insn::Branch {
            op: BranchOp::Beq,
            rs1,
            rs2,
            offset,
        },
    )?;
    Ok(())
}

/// Appends what goes back over this many words where two registers differ: a branch, or, where it doesn't reach so far,
/// a branch over a jump.
fn emit_back(code: &mut Vec<u32>, a: u8, b: u8, words: usize) -> Result<(), CodeFault>
    requires { (a < 32) × (b < 32) × (words ≤ 2 ^ 32) }
    ensures ok { OnOk result (GoesBack code.old.items code.new.items a b words) }
    ensures err { IfErr result (IsFault (2 ^ 18 ≤ words + 1) ⊥) }
{
    if 1 <= words && words <= BRANCH_REACH {
        branch_back(code, a, b, words)?;
        return Ok(());
    }
    branch_over(code, a, b)?;
    jump_back(code, words + 1)?;
    Ok(())
}

/// Appends what is after the body of a loop, which begins at a place of the code: what makes of the forms of an
/// iteration those of the next one, and the way back to the body while there is one.
///
/// # Errors
///
/// Memory ran out, or the body has nearly as many words as a text may have.
pub fn end_loop(code: &mut Vec<u32>, begun: &BegunLoop, body_start: usize) -> Result<(), CodeFault>
    requires begun { CanEnd begun.now }
    requires start { body_start ≤ length code.old.items }
    ensures ok { OnOk result (EndsLoop code.old.items code.new.items begun.now (length code.old.items - body_start)) }
    ensures err { IfErr result (IsFault (2 ^ 18 ≤ length code.old.items - body_start + end_words begun.now) ⊥) }
{
    emit_advance(code, begun.inner.as_slice(), begun.counter)?;
    let limit = emit_limit(code, begun.limit)?;
    let words = code.len() - body_start;
    if words >= 1 << 18 {
        return Err(CodeFault::TooLong);
    }
    emit_back(code, begun.register, limit, words)?;
    Ok(())
}
