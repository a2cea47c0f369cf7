//! Profiles as texts.

ghost use Rattle.std.specs.Prelude.{◌≡◌, ◌+◌, ◌*◌, ◌<◌, ◌≤◌, ◌^◌, ◌++◌, [], ◌∷◌, ℕ, All, length, slice_get, IfOk, OnOk};
ghost use Rattle.std.specs.String.{string_bytes};
ghost use Rattle.memory.specs.Access.{most_words, text_start};
ghost use Rattle.multi_hart.specs.Run.{run};
ghost use Rattle.turn_log.specs.TurnLog.{most_turns};
ghost use Rattle.run_reports.specs.ProfileText as spec;
ghost use Rattle.run_reports.specs.inner.Counting.{AreFew, count_in, counts_in};

use crate::profiles::{HartProfile, profile};
use disassembler::{push_hexadecimal, write_line};
use memory::TEXT_START;
use multi_hart::Machine;
use std::alloc::{AllocError, Global};
use turn_log::TurnLog;

/// Makes the turns of a log on a machine whose text has these words, and says where they go: a line
/// `hart H turns T idle I` for each hart, and a line `TOTAL C0 C1 .. 0xAAAAAAAA INSTRUCTION` for each word, with the
/// turns that each hart made there.
pub fn profile_text(
    alloc: Global,
    machine: &mut Machine,
    words: &[u32],
    log: &TurnLog,
) -> Result<Vec<u8>, AllocError>
    requires text { words.now ≡ machine.old.text }
    requires few { length words.now ≤ most_words }
    requires harts { length machine.old.harts ≡ log.now.harts }
    ensures text { IfOk result (λ text. text.items ≡ spec.profile_text machine.old log.now.turns) }
    ensures state { OnOk result (machine.new ≡ run machine.old log.now.turns) }
{
    // What this ensures says that the harts of a log are eight at most, and its turns few.
    let _harts = log.harts();
    let profiles = profile(alloc, machine, words, log)?;
    text_of(alloc, words, &profiles)
}

/// All lines of profiles over words.
fn text_of(alloc: Global, words: &[u32], profiles: &[HartProfile]) -> Result<Vec<u8>, AllocError>
    requires few { length words.now ≤ most_words }
    requires harts { length profiles.now ≤ 8 }
    requires counts { All (AreFew (length words.now)) profiles.now }
    ensures { IfOk result (λ text. text.items
        ≡ spec.lines_of (counts_in profiles.now) (length profiles.now) words.now) }
{
    let head = hart_lines(alloc, profiles)?;
    let mut text = head.into_bytes();
    push_words(&mut text, words, profiles)?;
    Ok(text)
}

/// The lines of all harts.
fn hart_lines(alloc: Global, profiles: &[HartProfile]) -> Result<String, AllocError>
    ensures { IfOk result (λ text. string_bytes text ≡ spec.hart_lines (counts_in profiles.now) (length profiles.now)) }
{
    let mut text = String::new(alloc);
    for hart in 0..profiles.len() {
        push_hart(&mut text, hart, &profiles[hart])?;
    }
    Ok(text)
}

/// `hart H turns T idle I`
#[tactic(auto, unfolding(crate::specs::ProfileText::hart_line))]
fn push_hart(text: &mut String, hart: usize, profile: &HartProfile) -> Result<(), AllocError>
    ensures { OnOk result (string_bytes text.new ≡ string_bytes text.old
        ++ spec.hart_line hart profile.now.made profile.now.idle) }
{
    let HartProfile { made, idle, .. } = profile;
    write!(text, "hart {hart} turns {made} idle {idle}\n")?;
    Ok(())
}

/// The lines of all words.
fn push_words(text: &mut Vec<u8>, words: &[u32], profiles: &[HartProfile]) -> Result<(), AllocError>
    requires few { length words.now ≤ most_words }
    requires harts { length profiles.now ≤ 8 }
    requires counts { All (AreFew (length words.now)) profiles.now }
    ensures { OnOk result (text.new.items ≡ text.old.items
        ++ spec.word_lines (counts_in profiles.now) (length profiles.now) words.now (length words.now)) }
{
    for place in 0..words.len() {
        push_word(text, place, words[place], profiles)?;
    }
    Ok(())
}

/// `TOTAL C0 C1 .. 0xAAAAAAAA INSTRUCTION`, for the word at a place.
#[tactic(auto, unfolding(crate::specs::ProfileText::word_line))]
fn push_word(
    text: &mut Vec<u8>,
    place: usize,
    word: u32,
    profiles: &[HartProfile],
) -> Result<(), AllocError>
    requires place { place < most_words }
    requires harts { length profiles.now ≤ 8 }
    requires counts { All (AreFew (place + 1)) profiles.now }
    ensures { OnOk result (text.new.items ≡ text.old.items
        ++ spec.word_line (counts_in profiles.now) (length profiles.now) place word) }
{
    let counts = place_text(*text.allocator(), place, profiles)?;
    text.extend_from_slice(counts.as_bytes())?;
    write_line(word, text)?;
    Ok(())
}

/// `TOTAL C0 C1 .. 0xAAAAAAAA `
#[tactic(auto, unfolding(crate::specs::ProfileText::place_text))]
fn place_text(alloc: Global, place: usize, profiles: &[HartProfile]) -> Result<String, AllocError>
    requires place { place < most_words }
    requires harts { length profiles.now ≤ 8 }
    requires counts { All (AreFew (place + 1)) profiles.now }
    ensures { IfOk result (λ text. string_bytes text
        ≡ spec.place_text (counts_in profiles.now) (length profiles.now) place) }
{
    let total = total_at(place, profiles);
    let mut text = String::new(alloc);
    write!(text, "{total}")?;
    push_columns(&mut text, place, profiles)?;
    text.push_str(" ")?;
    push_hexadecimal(&mut text, 8, u64::from(TEXT_START) + 4 * place as u64)?;
    text.push_str(" ")?;
    Ok(text)
}

/// The turns that all harts made at a word.
fn total_at(place: usize, profiles: &[HartProfile]) -> u64
    requires harts { length profiles.now ≤ 8 }
    requires counts { All (AreFew (place + 1)) profiles.now }
    ensures { result ≡ spec.total (counts_in profiles.now) place (length profiles.now) }
{
    let mut total = 0;
    for hart in 0..profiles.len() {
        total += count_at(profiles, hart, place);
    }
    total
}

/// The turns that each hart made at a word, a space before each.
fn push_columns(text: &mut String, place: usize, profiles: &[HartProfile]) -> Result<(), AllocError>
    requires { All (AreFew (place + 1)) profiles.now }
    ensures { OnOk result (string_bytes text.new ≡ string_bytes text.old
        ++ spec.columns (counts_in profiles.now) place (length profiles.now)) }
{
    for hart in 0..profiles.len() {
        let count = count_at(profiles, hart, place);
        write!(text, " {count}")?;
    }
    Ok(())
}

/// The turns that a hart made at a word.
fn count_at(profiles: &[HartProfile], hart: usize, place: usize) -> u64
    requires hart { hart < length profiles.now }
    requires counts { All (AreFew (place + 1)) profiles.now }
    ensures count { result ≡ count_in place (slice_get profiles.now hart) }
    ensures few { result ≤ 8 * most_turns }
{
    profiles[hart].counts[place]
}
