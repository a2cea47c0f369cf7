//! Whether two turns race.

ghost use Rattle.std.specs.Prelude.{◌≡◌, ◌||◌};
ghost use Rattle.memory.specs.Access.{access_at, places_of, touched};
ghost use Rattle.hart_core.specs.VectorRows.{accesses_at, size_of};
ghost use Rattle.multi_hart.specs.Run.{is_in};
ghost use Rattle.work_sharing.specs.Turns.{is_byte_of};
ghost use Rattle.turn_accesses.specs.Accesses.{reads_in, writes_in};
ghost use Rattle.race_reports.specs.Races as spec;

use rv_insn::ElementWidth;
use turn_accesses::{AccessKind, Accesses};

/// The first byte that one turn writes and another one touches, outside these words.
pub(crate) fn shared_by(but: &[u32], one: &Accesses, other: &Accesses) -> Option<u64>
    ensures { result ≡ spec.first_shared but.now (reads_in other.now) (writes_in other.now) (writes_in one.now) }
{
    match one {
        Accesses::Nothing => None,
        Accesses::Number {
            kind: AccessKind::Loads,
            ..
        } => None,
        Accesses::Elements {
            kind: AccessKind::Loads,
            ..
        } => None,
        Accesses::Number { address, width, .. } => first_shared(but, &[*address], *width, other),
        Accesses::Elements {
            addresses,
            width,
            ..
        } => first_shared(but, addresses.as_slice(), *width, other),
    }
}

/// The first byte of numbers of a width at addresses that a turn touches, outside these words.
#[tactic(auto, using(crate::proofs::Sharing::found_in_both))]
fn first_shared(
    but: &[u32],
    addresses: &[u32],
    width: ElementWidth,
    other: &Accesses,
) -> Option<u64>
    ensures { result ≡ spec.first_shared but.now (reads_in other.now) (writes_in other.now)
        (touched (accesses_at width addresses.now)) }
{
    let [address, others @ ..] = addresses else {
        return None;
    };
    match shared_byte(but, *address, width, other) {
        Some(byte) => Some(byte),
        None => first_shared(but, others, width, other),
    }
}

/// The first byte of a number of a width at an address that a turn touches, outside these words.
fn shared_byte(but: &[u32], address: u32, width: ElementWidth, other: &Accesses) -> Option<u64>
    ensures { result ≡ spec.first_shared but.now (reads_in other.now) (writes_in other.now)
        (places_of (access_at (size_of width) address)) }
{
    let first = u64::from(address);
    match width {
        ElementWidth::Bits8 => shared_of(but, &[first], other),
        ElementWidth::Bits16 => shared_of(but, &[first, first + 1], other),
        ElementWidth::Bits32 => { shared_of(but, &[first, first + 1, first + 2, first + 3], other) }
    }
}

/// The first of these bytes that a turn touches, outside these words.
fn shared_of(but: &[u32], places: &[u64], other: &Accesses) -> Option<u64>
    ensures { result ≡ spec.first_shared but.now (reads_in other.now) (writes_in other.now) places.now }
{
    let [place, others @ ..] = places else {
        return None;
    };
    if is_shared(but, *place, other) {
        return Some(*place);
    }
    shared_of(but, others, other)
}

/// Whether a byte is one that a turn touches, in none of these words.
fn is_shared(but: &[u32], place: u64, other: &Accesses) -> bool
    ensures { result ≡ spec.is_shared but.now (reads_in other.now) (writes_in other.now) place }
{
    touches(other, place) && !is_byte_of(but, place)
}

/// Whether a byte is in one of these words.
fn is_byte_of(words: &[u32], place: u64) -> bool
    ensures { result ≡ is_byte_of words.now place }
{
    match words {
        [] => false,
        [word, others @ ..] => {
            let first = u64::from(*word);
            first <= place && place < first + 4 || is_byte_of(others, place)
        }
    }
}

/// Whether a turn touches a byte.
fn touches(accesses: &Accesses, place: u64) -> bool
    ensures { result ≡ is_in place (reads_in accesses.now) || is_in place (writes_in accesses.now) }
{
    match accesses {
        Accesses::Nothing => false,
        Accesses::Number { address, width, .. } => touches_any(&[*address], *width, place),
        Accesses::Elements {
            addresses,
            width,
            ..
        } => touches_any(addresses.as_slice(), *width, place),
    }
}

/// Whether one of the numbers of a width at addresses has the byte at a place.
fn touches_any(addresses: &[u32], width: ElementWidth, place: u64) -> bool
    ensures { result ≡ is_in place (touched (accesses_at width addresses.now)) }
{
    match addresses {
        [] => false,
        [address, others @ ..] => covers(*address, width, place)
            || touches_any(others, width, place),
    }
}

/// Whether a number of a width at an address has the byte at a place.
fn covers(address: u32, width: ElementWidth, place: u64) -> bool
    ensures { result ≡ is_in place (places_of (access_at (size_of width) address)) }
{
    let first = u64::from(address);
    match width {
        ElementWidth::Bits8 => place == first,
        ElementWidth::Bits16 => place == first || place == first + 1,
        ElementWidth::Bits32 => {
            place == first || place == first + 1 || place == first + 2 || place == first + 3
        }
    }
}
