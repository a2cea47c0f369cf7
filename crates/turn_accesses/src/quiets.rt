//! Words of text that touch no memory and are executed one after the other, counted once.

ghost use Rattle.std.specs.Prelude.{◌≡◌, ◌+◌, ◌≤◌, ℕ, List, Some, length, slice_get, IfOk};
ghost use Rattle.rv_encoding.specs.Decoding.{decoded};
ghost use Rattle.turn_accesses.specs.Quiet.{AreCounts, AreQuiet, IsQuietFrom, goes_on, some_goes_on};

use crate::tables::access_of;
use memory::TEXT_START;
use rv_encoding::decode;
use rv_insn::Insn;
use std::alloc::{AllocError, Global};

/// How far words are counted.
const MOST_QUIET: u32 = 1024;

/// For each of the words how many from it on touch no memory and are executed one after the other, up to the first that
/// may go on elsewhere.
pub fn quiets_of(alloc: Global, words: &[u32]) -> Result<Vec<u32>, AllocError>
    ensures { IfOk result (λ counts. AreCounts words.now counts.items) }
{
    let mut counts = vec![in alloc; 0; words.len()]?;
    count_all(words, &mut counts);
    Ok(counts)
}

/// Counts from each word on, the last word first.
fn count_all(words: &[u32], counts: &mut [u32])
    requires counts { AreCounts words.now counts.old }
    requires as_many { length counts.old ≡ length words.now }
    ensures { AreCounts words.now counts.new }
{
    let mut at = words.len();
    let mut next = 0;
    'words: while at > 0 {
        at -= 1;
        next = count_from(words[at], next);
        counts[at] = next;
    }
}

/// How many there are from a word on, where this many are from the next one on.
fn count_from(word: u32, next: u32) -> u32
    ensures { (words : List ℕ) (place : ℕ) → slice_get words place ≡ Some word → AreQuiet words (place + 1) next
        → AreQuiet words place result }
{
    if access_of(word).is_some() {
        return 0;
    }
    if !word_goes_on(word) {
        return 1;
    }
    next.min(MOST_QUIET) + 1
}

/// Whether the next word is due after a turn of this one.
fn word_goes_on(word: u32) -> bool
    ensures { result ≡ some_goes_on (decoded word) }
{
    match decode(word) {
        Some(insn) => goes_on(&insn),
        None => false,
    }
}

/// Whether the next word is due after a turn of the instruction.
fn goes_on(insn: &Insn) -> bool
    ensures { result ≡ goes_on insn.now }
{
    match insn {
        Insn::Jal { .. } | Insn::Jalr { .. } | Insn::Branch { .. } | Insn::Ecall | Insn::Ebreak => {
            false
        }
        _ => true,
    }
}

/// How many of the words from an address on are executed one after the other and touch no memory, by what was counted.
#[inline(always)]
pub fn quiet_at(counts: &[u32], pc: u32) -> u32
    ensures { (text : List ℕ) → AreCounts text counts.now → 1 ≤ result → IsQuietFrom text pc result }
{
    if pc < TEXT_START || pc % 4 != 0 {
        return 0;
    }
    match counts.get(((pc - TEXT_START) / 4) as usize) {
        Some(count) => *count,
        None => 0,
    }
}
