//! The line of a turn.

ghost use Rattle.std.specs.Prelude.{◌≡◌, ◌<◌, ◌++◌, ◌^◌, length, IfOk, OnOk};
ghost use Rattle.std.specs.String.{string_bytes};
ghost use Rattle.disassembler.specs.Listing.{line_of};
ghost use Rattle.multi_hart.specs.Run.{hart_at, turn};
ghost use Rattle.turn_traces.specs.TraceText as spec;

use crate::effects::{WordsTouched, push_ending, push_memory, push_scalars, push_vectors};
use crate::ranges::{words_read, words_written};
use crate::traced::TracedText;
use disassembler::{push_hexadecimal, write_line};
use hart_core::Status;
use multi_hart::Machine;
use std::alloc::{AllocError, Global};

/// Room for what most turns do, in bytes.
const USUAL_EFFECTS: usize = 128;

/// Makes the turn of a number, of a hart, on a machine whose text this is, and appends its line:
/// `turn K hart H pc 0xPPPPPPPP INSTRUCTION` and what the turn changes in registers, reads or writes in memory, and
/// comes to; or `idle` in place of all that, where the hart doesn't run.
#[tactic(auto, unfolding(crate::specs::TraceText::turn_line))]
pub fn push_turn(
    text: &mut Vec<u8>,
    machine: &mut Machine,
    traced: &TracedText,
    hart: usize,
    number: u64,
) -> Result<(), AllocError>
    requires text { traced.now ≡ machine.old.text }
    requires there { hart < length machine.old.harts }
    ensures text { OnOk result (text.new.items ≡ text.old.items ++ spec.turn_line number hart machine.old) }
    ensures state { OnOk result (machine.new ≡ turn machine.old hart) }
{
    let head = head_text(*text.allocator(), number, hart, machine.pc(hart))?;
    text.extend_from_slice(head.as_bytes())?;
    let Status::Running = machine.status(hart) else {
        let _ = machine.turn(hart);
        text.extend_from_slice(b"idle\n")?;
        return Ok(());
    };
    push_made(text, machine, traced, hart)
}

/// `turn K hart H pc 0xPPPPPPPP `
#[tactic(auto, unfolding(crate::specs::TraceText::head_text))]
fn head_text(alloc: Global, number: u64, hart: usize, pc: u32) -> Result<String, AllocError>
    ensures { IfOk result (λ text. string_bytes text ≡ spec.head_text number hart pc) }
{
    let mut text = String::new(alloc);
    write!(text, "turn {number} hart {hart} pc ")?;
    push_hexadecimal(&mut text, 8, u64::from(pc))?;
    text.push_str(" ")?;
    Ok(text)
}

/// Makes a turn, and appends its instruction and what it does.
#[tactic(auto, unfolding(crate::specs::TraceText::made_text))]
fn push_made(
    text: &mut Vec<u8>,
    machine: &mut Machine,
    traced: &TracedText,
    hart: usize,
) -> Result<(), AllocError>
    requires text { traced.now ≡ machine.old.text }
    requires there { hart < length machine.old.harts }
    ensures text { OnOk result (text.new.items ≡ text.old.items ++ spec.made_text machine.old hart) }
    ensures state { OnOk result (machine.new ≡ turn machine.old hart) }
{
    push_instruction(text, traced.word_at(machine.pc(hart)))?;
    let effects = effects_text(*text.allocator(), machine, traced, hart)?;
    text.extend_from_slice(effects.as_bytes())?;
    Ok(())
}

/// Appends the instruction that a word means, without a line feed.
fn push_instruction(text: &mut Vec<u8>, word: u32) -> Result<(), AllocError>
    ensures { OnOk result (text.new.items ≡ text.old.items ++ line_of word) }
{
    write_line(word, text)?;
    let _ = text.pop();
    Ok(())
}

/// Makes a turn, and says what it does.
#[tactic(auto, unfolding(crate::specs::TraceText::effects_text))]
fn effects_text(
    alloc: Global,
    machine: &mut Machine,
    traced: &TracedText,
    hart: usize,
) -> Result<String, AllocError>
    requires text { traced.now ≡ machine.old.text }
    requires there { hart < length machine.old.harts }
    ensures text { IfOk result (λ text. string_bytes text ≡ spec.effects_text machine.old (turn machine.old hart) hart
        (spec.words_in (spec.reads_next machine.old hart)) (spec.words_in (spec.writes_next machine.old hart))) }
    ensures state { OnOk result (machine.new ≡ turn machine.old hart) }
{
    let accesses = traced.next_accesses(machine, hart);
    let touched = WordsTouched {
        read: words_read(&accesses),
        written: words_written(&accesses),
    };
    let first = touched.first();
    let hart_before = machine.hart(hart).duplicate();
    let before = held(machine, first);
    let _ = machine.turn(hart);
    let after = held(machine, first);
    let hart_after = machine.hart(hart);
    let mut text = String::with_capacity(alloc, USUAL_EFFECTS)?;
    push_scalars(&mut text, &hart_before, hart_after)?;
    push_memory(&mut text, &touched, before, after)?;
    push_vectors(&mut text, &hart_before, hart_after)?;
    push_ending(&mut text, hart_after.status())?;
    text.push_str("\n")?;
    Ok(text)
}

/// What a word holds, and 0 where there is none.
fn held(machine: &Machine, word: u64) -> u32
    requires { word < 2 ^ 32 }
    ensures { result ≡ spec.held machine.now word }
{
    machine.word(word as u32).unwrap_or(0)
}
