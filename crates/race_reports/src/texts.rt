//! The first race of a log as a text.

ghost use Rattle.std.specs.Prelude.{◌≡◌, ◌≤◌, ◌<◌, ◌++◌, length, unwrap_or, IfOk, OnOk};
ghost use Rattle.std.specs.String.{string_bytes};
ghost use Rattle.memory.specs.Access.{fetched, most_words};
ghost use Rattle.race_reports.specs.RaceText as spec;

use crate::found::FirstRace;
use crate::passes::first_race;
use disassembler::{push_hexadecimal, write_line};
use memory::TEXT_START;
use multi_hart::Machine;
use std::alloc::{AllocError, Global};
use turn_log::TurnLog;

/// Makes the turns of a log on a machine whose text has these words, up to the first place at which two harts race
/// outside the words of data `but`, and says it: `none`, or the lines `place K`, `hart H pc 0xPPPPPPPP INSTRUCTION` of
/// the hart that writes and of the other one, and `word 0xAAAAAAAA`.
pub fn races_text(
    alloc: Global,
    machine: &mut Machine,
    words: &[u32],
    log: &TurnLog,
    but: &[u32],
) -> Result<Vec<u8>, AllocError>
    requires text { words.now ≡ machine.old.text }
    requires few { length words.now ≤ most_words }
    requires harts { length machine.old.harts ≡ log.now.harts }
    ensures { IfOk result (λ text. text.items ≡ spec.races_text but.now machine.old log.now.turns) }
{
    let Some(found) = first_race(alloc, machine, words, log, but)? else {
        return Vec::from_slice(alloc, b"none\n");
    };
    race_text(alloc, machine, words, &found)
}

/// The lines of a race, on the machine at its place.
#[tactic(auto, unfolding(crate::specs::RaceText::race_text))]
fn race_text(
    alloc: Global,
    machine: &Machine,
    words: &[u32],
    found: &FirstRace,
) -> Result<Vec<u8>, AllocError>
    requires text { words.now ≡ machine.now.text }
    requires few { length words.now ≤ most_words }
    requires writer { found.now.turns.writer < length machine.now.harts }
    requires other { found.now.turns.other < length machine.now.harts }
    ensures { IfOk result (λ text. text.items ≡ spec.race_text machine.now found.now) }
{
    let place = place_line(alloc, found.place)?;
    let word = word_line(alloc, found.turns.byte)?;
    let mut text = place.into_bytes();
    push_hart(&mut text, machine, words, found.turns.writer)?;
    push_hart(&mut text, machine, words, found.turns.other)?;
    text.extend_from_slice(word.as_bytes())?;
    Ok(text)
}

/// `place K`
#[tactic(auto, unfolding(crate::specs::RaceText::place_line))]
fn place_line(alloc: Global, place: u64) -> Result<String, AllocError>
    ensures { IfOk result (λ text. string_bytes text ≡ spec.place_line place) }
{
    let mut text = String::new(alloc);
    write!(text, "place {place}\n")?;
    Ok(text)
}

/// `word 0xAAAAAAAA`, of the word that has a byte.
#[tactic(auto, unfolding(crate::specs::RaceText::word_line))]
fn word_line(alloc: Global, byte: u64) -> Result<String, AllocError>
    ensures { IfOk result (λ text. string_bytes text ≡ spec.word_line byte) }
{
    let mut text = String::new(alloc);
    text.push_str("word ")?;
    push_hexadecimal(&mut text, 8, byte / 4 * 4)?;
    text.push_str("\n")?;
    Ok(text)
}

/// `hart H pc 0xPPPPPPPP ` and the instruction that is due.
#[tactic(auto, unfolding(crate::specs::RaceText::hart_line))]
fn push_hart(
    text: &mut Vec<u8>,
    machine: &Machine,
    words: &[u32],
    hart: usize,
) -> Result<(), AllocError>
    requires text { words.now ≡ machine.now.text }
    requires few { length words.now ≤ most_words }
    requires there { hart < length machine.now.harts }
    ensures { OnOk result (text.new.items ≡ text.old.items ++ spec.hart_line machine.now hart) }
{
    let pc = machine.pc(hart);
    let standing = standing_text(*text.allocator(), hart, pc)?;
    text.extend_from_slice(standing.as_bytes())?;
    write_line(word_at(words, pc), text)?;
    Ok(())
}

/// `hart H pc 0xPPPPPPPP `
#[tactic(auto, unfolding(crate::specs::RaceText::standing_text))]
fn standing_text(alloc: Global, hart: usize, pc: u32) -> Result<String, AllocError>
    ensures { IfOk result (λ text. string_bytes text ≡ spec.standing_text hart pc) }
{
    let mut text = String::new(alloc);
    write!(text, "hart {hart} pc ")?;
    push_hexadecimal(&mut text, 8, u64::from(pc))?;
    text.push_str(" ")?;
    Ok(text)
}

/// The word of text at an address, and 0 where there is none.
fn word_at(words: &[u32], pc: u32) -> u32
    requires { length words.now ≤ most_words }
    ensures { result ≡ unwrap_or (fetched words.now pc) 0 }
{
    if pc < TEXT_START || !pc.is_multiple_of(4) {
        return 0;
    }
    words
        .get(((pc - TEXT_START) / 4) as usize)
        .copied()
        .unwrap_or(0)
}
