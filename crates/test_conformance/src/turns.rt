//! What one instruction changes.

ghost use Rattle.std.specs.Prelude.{◌≡◌, IfOk, length};

use crate::failures::CaseFailure;
use crate::harts::{
    HartState, push_configuration, push_registers, push_status, push_vectors, state_of,
};
use assembler::{Object, assemble};
use hart_core::Status;
use loader::Image;
use memory::DATA_START;
use multi_hart::Machine;
use std::alloc::{AllocError, Global};
use test_cases::Part;

/// For each instruction, its line and what it changes after a program that reaches it.
pub fn push_changes(alloc: Global, parts: &[Part], out: &mut String) -> Result<(), CaseFailure> {
    let [before, instructions] = parts else {
        return Err(CaseFailure::Malformed("not two parts"));
    };
    let before = assemble(before.named("before")?, alloc)?;
    for line in instructions.named("instructions")?.lines() {
        writeln!(out, "{line}")?;
        let word = word_of(alloc, line)?;
        push_change(alloc, &before, word, out)?;
    }
    Ok(())
}

/// The word of an instruction's line.
fn word_of(alloc: Global, line: &str) -> Result<u32, CaseFailure> {
    let object = assemble(line, alloc)?;
    match object.words() {
        [word] => Ok(*word),
        _ => Err(CaseFailure::Malformed("a line that is not one instruction")),
    }
}

/// What a word changes after a program that reaches it.
fn push_change(
    alloc: Global,
    before: &Object,
    word: u32,
    out: &mut String,
) -> Result<(), CaseFailure> {
    let turns = before.words().len() as u64;
    let old = ran(alloc, before, word, turns)?;
    let new = ran(alloc, before, word, turns.saturating_add(1))?;
    let state = state_of(&old, 0);
    push_hart_changes(&state, &state_of(&new, 0), out)?;
    push_data_changes(&old, &new, before.data().len(), out)?;
    Ok(())
}

/// A machine of one hart after this many turns of a program with a word after it.
fn ran(alloc: Global, before: &Object, word: u32, turns: u64) -> Result<Machine, CaseFailure>
    ensures { IfOk result (λ machine. length machine.harts ≡ 1) }
{
    let mut words = before.words().to_vec(alloc)?;
    words.push(word)?;
    let bytes = before.data().to_vec(alloc)?;
    let image = Image::new(before.entry(), words, bytes, None)?;
    let mut machine = image.machine(alloc, 1)?;
    if turns > 0 {
        let _outcome = machine.run_same(0, turns);
    }
    Ok(machine)
}

/// What a hart holds that it didn't hold before, and where it is, if that isn't after the instruction.
fn push_hart_changes(old: &HartState, new: &HartState, out: &mut String) -> Result<(), AllocError> {
    push_registers(&old.registers, &new.registers, out)?;
    if (new.vl, new.vtype) != (old.vl, old.vtype) {
        push_configuration(new, out)?;
    }
    push_vectors(&old.vectors, &new.vectors, out)?;
    if new.status != Status::Running || new.pc != old.pc.wrapping_add(4) {
        push_place(new, out)?;
    }
    Ok(())
}

/// Whether a hart runs, and the address of the instruction that is due.
fn push_place(state: &HartState, out: &mut String) -> Result<(), AllocError> {
    let pc = state.pc;
    out.push_str("  ")?;
    push_status(state.status, out)?;
    writeln!(out, " pc 0x{pc:08x}")
}

/// A line for each word of this many bytes of data that isn't as before. A last word that isn't whole is left out.
fn push_data_changes(
    old: &Machine,
    new: &Machine,
    bytes: usize,
    out: &mut String,
) -> Result<(), AllocError> {
    let words = u32::try_from(bytes / 4).unwrap_or(u32::MAX);
    for place in 0..words {
        let address = DATA_START.wrapping_add(place.wrapping_mul(4));
        push_word_change(address, old.word(address), new.word(address), out)?;
    }
    Ok(())
}

fn push_word_change(
    address: u32,
    old: Option<u32>,
    new: Option<u32>,
    out: &mut String,
) -> Result<(), AllocError> {
    match new {
        Some(word) if new != old => writeln!(out, "  0x{address:08x} 0x{word:08x}"),
        _ => Ok(()),
    }
}
