//! The code of a phase around that of its tasks.

ghost use Rattle.std.specs.Prelude.{◌≡◌, ◌+◌, ◌-◌, ◌<◌, ◌≤◌, ◌^◌, ◌∷◌, IfErr, List, OnOk, [], false, length, negsuc};
ghost use Rattle.std.specs.Prelude.{pos};
ghost use Rattle.rv_insn.specs.declared.instructions.Insn.{Insn as Instruction};
ghost use Rattle.rv_insn.specs.declared.instructions.Insn.TheVariants as insns;
ghost use Rattle.rv_insn.specs.declared.operations.BranchOp.TheVariants.{Bgeu, Bne};
ghost use Rattle.rv_insn.specs.declared.operations.LoadOp.TheVariants.{Lw};
ghost use Rattle.memory.specs.Access.{most_words};
ghost use Rattle.task_code_scalar.specs.Faults.{IsFault};
ghost use Rattle.task_code_scalar.specs.Words.{Emits};
ghost use Rattle.vector_codegen.specs.PhaseCode as spec;

use rv_insn::{BranchOffset, BranchOp, Imm12, Insn, LoadOp};
use std::alloc::AllocError;
use task_code::emit_restored;
use task_code_scalar::instructions::{jump_back, jump_forth, put, register};
use task_code_scalar::{CodeFault, append};

/// Appends that 1 is added to the word at the address in x13 or x14, of which `rd` gets what was there.
fn count_up(code: &mut Vec<u32>, rd: u8, address: u8) -> Result<(), AllocError>
    requires { (rd < 32) × (address < 32) }
    ensures { OnOk result (Emits code.old.items code.new.items (insns.AmoaddW rd address 15 false false ∷ [])) }
{
    let rd = register(rd);
    let rs1 = register(address);
    let rs2 = register(15);
    put(
        code,
        &Insn::AmoaddW {
            rd,
            rs1,
            rs2,
            aq: false,
            rl: false,
        },
    )?;
    Ok(())
}

/// Appends a branch by this many half-words back.
fn branch_back(
    code: &mut Vec<u32>,
    op: BranchOp,
    r: u8,
    s: u8,
    halves: u8,
) -> Result<(), AllocError>
    requires { (r < 32) × ((s < 32) × ((1 ≤ halves) × (halves < 64))) }
    ensures { OnOk result (Emits code.old.items code.new.items (insns.Branch op r s (negsuc (halves - 1)) ∷ [])) }
{
    let rs1 = register(r);
    let rs2 = register(s);
    let offset = BranchOffset::new(-(halves as i32)).unwrap();
    put(
        code,
        &Insn::Branch {
            op,
            rs1,
            rs2,
            offset,
        },
    )?;
    Ok(())
}

/// Appends a load of the gate word.
fn look(code: &mut Vec<u32>) -> Result<(), AllocError>
    ensures { OnOk result (Emits code.old.items code.new.items (insns.Load Lw 17 14 (pos 0) ∷ [])) }
{
    let rd = register(17);
    let rs1 = register(14);
    let imm = Imm12::new(0).unwrap();
    put(
        code,
        &Insn::Load {
            op: LoadOp::Lw,
            rd,
            rs1,
            imm,
        },
    )?;
    Ok(())
}

/// Appends the gate, and the way over this many words that follow.
fn emit_gate(code: &mut Vec<u32>, words: usize) -> Result<(), CodeFault>
    requires { words ≤ 2 ^ 30 }
    ensures ok { OnOk result (Emits code.old.items code.new.items (spec.door_code false words)) }
    ensures err { IfErr result (IsFault (2 ^ 18 ≤ words + 1) ⊥) }
{
    count_up(code, 0, 14)?;
    look(code)?;
    branch_back(code, BranchOp::Bne, 17, 11, 2)?;
    jump_forth(code, words + 1)?;
    Ok(())
}

/// Appends the door of a phase: its end, or its gate and the way over this many words that follow.
fn emit_door(code: &mut Vec<u32>, is_last: bool, words: usize) -> Result<(), CodeFault>
    requires { words ≤ 2 ^ 30 }
    ensures ok { OnOk result (Emits code.old.items code.new.items (spec.door_code is_last words)) }
    ensures err { IfErr result (IsFault (2 ^ 18 ≤ words + 1) ⊥) }
{
    if is_last {
        put(code, &Insn::Ecall)?;
    } else {
        emit_gate(code, words)?;
    }
    Ok(())
}

/// How many words the door has.
fn door_words(is_last: bool) -> usize
    ensures is { result ≡ spec.door_words is_last }
    ensures few { result ≤ 4 }
{
    if is_last { 1 } else { 4 }
}

/// How many half-words the door lies before the draw's second word.
fn halves_to_door(is_last: bool) -> u8
    ensures is { negsuc (result - 1) ≡ spec.to_door is_last }
    ensures some { (1 ≤ result) × (result < 64) }
{
    if is_last { 4 } else { 10 }
}

/// Appends the draw.
fn emit_draw(code: &mut Vec<u32>, is_last: bool) -> Result<(), AllocError>
    ensures { OnOk result (Emits code.old.items code.new.items (spec.draw_code is_last)) }
{
    count_up(code, 12, 13)?;
    let halves = halves_to_door(is_last);
    branch_back(code, BranchOp::Bgeu, 12, 16, halves)?;
    Ok(())
}

/// Appends the code of tasks, and the way back to the draw.
fn emit_tasks(code: &mut Vec<u32>, words: &[u32]) -> Result<(), CodeFault>
    requires { length words.now < 2 ^ 20 }
    ensures ok { OnOk result ((made : List Instruction) → Emits [] words.now made
        → Emits code.old.items code.new.items (spec.tasks_code made)) }
    ensures err { IfErr result (IsFault (2 ^ 18 ≤ length words.now + 2) ⊥) }
{
    append(code, words)?;
    jump_back(code, words.len() + 2)?;
    Ok(())
}

/// Appends the code of a phase around the words of its tasks' code, which `specs/PhaseCode.antt` has.
///
/// # Errors
///
/// Memory ran out, or the phase has more words than a text may have. Part of the code may then have been appended.
pub fn emit_phase(
    code: &mut Vec<u32>,
    is_last: bool,
    ticket: u32,
    tasks: u32,
    words: &[u32],
) -> Result<(), CodeFault>
    requires { ticket + 4 < 2 ^ 32 }
    ensures ok { OnOk result ((made : List Instruction) → Emits [] words.now made
        → Emits code.old.items code.new.items
        (spec.phase_code is_last ticket (record { tasks = tasks; insns = made }))) }
    ensures err { IfErr result (IsFault ((made : List Instruction) → Emits [] words.now made
        → most_words < length (spec.phase_code is_last ticket (record { tasks = tasks; insns = made }))) ⊥) }
{
    if words.len() >= 1 << 18 {
        return Err(CodeFault::TooLong);
    }
    emit_restored(code, ticket, tasks)?;
    let way = door_words(is_last) + 1;
    jump_forth(code, way)?;
    emit_door(code, is_last, words.len() + 3)?;
    emit_draw(code, is_last)?;
    emit_tasks(code, words)?;
    Ok(())
}
