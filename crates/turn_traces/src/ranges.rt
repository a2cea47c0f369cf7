//! The words that a turn touches.

ghost use Rattle.std.specs.Prelude.{◌≡◌, ◌≤◌, ◌<◌, ◌++◌, ◌^◌, ◌||◌, ◌==◌, ℕ, List, Option, Some, IfSome};
ghost use Rattle.memory.specs.Access.{access_at, places_of, touched};
ghost use Rattle.hart_core.specs.VectorRows.{accesses_at, size_of};
ghost use Rattle.turn_accesses.specs.Accesses.{reads_in, writes_in};
ghost use Rattle.turn_traces.specs.TraceText as spec;

use rv_insn::ElementWidth;
use turn_accesses::{AccessKind, Accesses};

/// Words from one on up to another one, by their addresses.
#[derive(Clone, Copy, Debug, PartialEq, Eq)]
pub struct WordRange {
    pub first: u64,
    pub last: u64,
}

/// The words that are read.
pub(crate) fn words_read(accesses: &Accesses) -> Option<WordRange>
    ensures words { result ≡ spec.words_in (reads_in accesses.now) }
    ensures low { IfSome result (λ words. words.first < 2 ^ 32) }
{
    match accesses {
        Accesses::Nothing => None,
        Accesses::Number {
            kind: AccessKind::Stores,
            ..
        } => None,
        Accesses::Elements {
            kind: AccessKind::Stores,
            ..
        } => None,
        Accesses::Number { address, width, .. } => words_of(&[*address], *width),
        Accesses::Elements {
            addresses,
            width,
            ..
        } => words_of(addresses.as_slice(), *width),
    }
}

/// The words that are written.
pub(crate) fn words_written(accesses: &Accesses) -> Option<WordRange>
    ensures words { result ≡ spec.words_in (writes_in accesses.now) }
    ensures low { IfSome result (λ words. words.first < 2 ^ 32) }
{
    match accesses {
        Accesses::Nothing => None,
        Accesses::Number {
            kind: AccessKind::Loads,
            ..
        } => None,
        Accesses::Elements {
            kind: AccessKind::Loads,
            ..
        } => None,
        Accesses::Number { address, width, .. } => words_of(&[*address], *width),
        Accesses::Elements {
            addresses,
            width,
            ..
        } => words_of(addresses.as_slice(), *width),
    }
}

/// The words of numbers of a width at addresses.
fn words_of(addresses: &[u32], width: ElementWidth) -> Option<WordRange>
    ensures words { result ≡ spec.words_in (touched (accesses_at width addresses.now)) }
    ensures low { IfSome result (λ words. words.first < 2 ^ 32) }
{
    let [address, others @ ..] = addresses else {
        return None;
    };
    let words = words_of(others, width);
    Some(around_number(*address, width, words))
}

/// The words of a number of a width at an address, and of others.
fn around_number(address: u32, width: ElementWidth, others: Option<WordRange>) -> WordRange
    ensures words { (places : List ℕ) → others ≡ spec.words_in places
        → Some result ≡ spec.words_in (places_of (access_at (size_of width) address) ++ places) }
    ensures low { result.first ≤ address }
{
    let first = u64::from(address);
    match width {
        ElementWidth::Bits8 => around(first, others),
        ElementWidth::Bits16 => around(first, Some(around(first + 1, others))),
        ElementWidth::Bits32 => {
            let last = around(first + 3, others);
            let last_two = around(first + 2, Some(last));
            around(first, Some(around(first + 1, Some(last_two))))
        }
    }
}

/// The word of a byte, and others.
fn around(place: u64, others: Option<WordRange>) -> WordRange
    ensures words { result ≡ spec.around (spec.word_of place) others }
    ensures low { result.first ≤ place }
{
    let word = place / 4 * 4;
    let one = WordRange {
        first: word,
        last: word,
    };
    match others {
        None => one,
        Some(words) => joined(one, words),
    }
}

/// From the first of two ranges' words to the last.
pub(crate) fn joined(one: WordRange, other: WordRange) -> WordRange
    ensures { result ≡ spec.joined one other }
{
    WordRange {
        first: if one.first < other.first {
            one.first
        } else {
            other.first
        },
        last: if one.last < other.last {
            other.last
        } else {
            one.last
        },
    }
}

/// Whether one of the bytes that a turn touches is a word's.
pub(crate) fn touches(accesses: &Accesses, word: u32) -> bool
    ensures { result ≡ spec.has_byte_of word (reads_in accesses.now) || spec.has_byte_of word (writes_in accesses.now) }
{
    match accesses {
        Accesses::Nothing => false,
        Accesses::Number { address, width, .. } => touches_any(&[*address], *width, word),
        Accesses::Elements {
            addresses,
            width,
            ..
        } => touches_any(addresses.as_slice(), *width, word),
    }
}

/// Whether one of the numbers of a width at addresses has a byte of a word.
fn touches_any(addresses: &[u32], width: ElementWidth, word: u32) -> bool
    ensures { result ≡ spec.has_byte_of word (touched (accesses_at width addresses.now)) }
{
    match addresses {
        [] => false,
        [address, others @ ..] => covers(*address, width, word) || touches_any(others, width, word),
    }
}

/// Whether a number of a width at an address has a byte of a word.
fn covers(address: u32, width: ElementWidth, word: u32) -> bool
    ensures { result ≡ spec.has_byte_of word (places_of (access_at (size_of width) address)) }
{
    let first = u64::from(address);
    match width {
        ElementWidth::Bits8 => is_of(first, word),
        ElementWidth::Bits16 => is_of(first, word) || is_of(first + 1, word),
        ElementWidth::Bits32 => {
            is_of(first, word)
                || is_of(first + 1, word)
                || is_of(first + 2, word)
                || is_of(first + 3, word)
        }
    }
}

/// Whether a byte is a word's.
fn is_of(place: u64, word: u32) -> bool
    ensures { result ≡ (spec.word_of place == word) }
{
    place / 4 * 4 == u64::from(word)
}
