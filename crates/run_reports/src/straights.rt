//! Words of text that are executed one after the other, counted once.

ghost use Rattle.std.specs.Prelude.{◌≡◌, ◌+◌, ◌*◌, ◌≤◌, ◌<◌, ℕ, List, Some, None, length, slice_get, IfOk, IfSome};
ghost use Rattle.std.specs.Prelude.{◌≢◌};
ghost use Rattle.memory.specs.Access.{text_start};
ghost use Rattle.rv_encoding.specs.Decoding.{decoded};
ghost use Rattle.run_reports.specs.inner.Straight.{AreCounts, AreStraight, goes_on, some_goes_on};

use memory::TEXT_START;
use rv_encoding::decode;
use rv_insn::Insn;
use std::alloc::{AllocError, Global};

/// How far words are counted.
const MOST_STRAIGHT: u32 = 1024;

/// For each of the words how many from it on are executed one after the other, up to the first that may go on
/// elsewhere.
pub(crate) fn straights_of(alloc: Global, words: &[u32]) -> Result<Vec<u32>, AllocError>
    ensures { IfOk result (λ counts. AreCounts words.now counts.items) }
{
    let mut counts = vec![in alloc; 1; words.len()]?;
    count_all(words, &mut counts);
    Ok(counts)
}

/// Counts from each word on, the last word first.
fn count_all(words: &[u32], counts: &mut [u32])
    requires { AreCounts words.now counts.old }
    ensures { AreCounts words.now counts.new }
{
    let mut at = words.len();
    let mut next = 0;
    'words: while at > 0 {
        at -= 1;
        next = count_from(words[at], next);
        counts[at] = next;
    }
}

/// How many there are from a word on, where this many are from the next one on.
fn count_from(word: u32, next: u32) -> u32
    ensures straight { (words : List ℕ) (place : ℕ) → slice_get words place ≡ Some word
        → AreStraight words (place + 1) next → AreStraight words place result }
    ensures some { 1 ≤ result }
{
    if word_goes_on(word) {
        next.min(MOST_STRAIGHT) + 1
    } else {
        1
    }
}

/// Whether the next word is due after a turn of this one.
fn word_goes_on(word: u32) -> bool
    ensures { result ≡ some_goes_on (decoded word) }
{
    match decode(word) {
        Some(insn) => goes_on(&insn),
        None => false,
    }
}

/// Whether the next word is due after a turn of the instruction.
fn goes_on(insn: &Insn) -> bool
    ensures { result ≡ goes_on insn.now }
{
    match insn {
        Insn::Jal { .. } | Insn::Jalr { .. } | Insn::Branch { .. } | Insn::Ecall | Insn::Ebreak => {
            false
        }
        _ => true,
    }
}

/// The place of the word at an address in a text of this many words.
#[inline(always)]
pub(crate) fn place_of(words: usize, pc: u32) -> Option<usize>
    ensures within { IfSome result (λ place. place < words) }
    ensures stands { IfSome result (λ place. pc ≡ text_start + 4 * place) }
    ensures outside { result ≡ None → (place : ℕ) → place < words → pc ≢ text_start + 4 * place }
{
    if pc < TEXT_START || pc % 4 != 0 {
        return None;
    }
    let place = ((pc - TEXT_START) / 4) as usize;
    if place >= words {
        return None;
    }
    Some(place)
}
