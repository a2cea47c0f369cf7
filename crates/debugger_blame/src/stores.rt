//! Whether instructions store to a word.

ghost use Rattle.std.specs.Prelude.{◌≡◌, ◌+◌, ◌<◌, ◌^◌, [], None};
ghost use Rattle.memory.specs.Access.{access_at, places_of, touched};
ghost use Rattle.hart_core.specs.HartState.{register};
ghost use Rattle.hart_core.specs.Scalar.{illegal_fault};
ghost use Rattle.hart_core.specs.VectorRows.{accesses_at, size_of};
ghost use Rattle.multi_hart.specs.Run.{is_in};
ghost use Rattle.work_sharing.specs.Turns.{is_word_in};
ghost use Rattle.debugger_writes.specs.Stored.{places_in, places_stored};

use debugger_writes::{Stored, number_stored, numbers_stored};
use hart_core::Hart;
use rv_insn::{ElementWidth, Insn};

/// Whether an instruction that is legal in the hart's state stores a byte of a word, where it makes no other trap.
pub(crate) fn stores_to(hart: &Hart, insn: &Insn, word: u32) -> bool
    ensures { illegal_fault insn.now hart.now ≡ None → result ≡ is_word_in word (places_stored insn.now hart.now) }
{
    match number_stored(hart, insn) {
        Some(number) => touches_any(&[number.address], number.width, word),
        None => touches(&numbers_stored(hart, insn), word),
    }
}

/// Whether a byte of the word is stored.
fn touches(stored: &Stored, word: u32) -> bool
    ensures { result ≡ is_word_in word (places_in stored.now) }
{
    match stored {
        Stored::Nothing => false,
        Stored::Number { address, width } => touches_any(&[*address], *width, word),
        Stored::Elements { addresses, width } => { touches_any(addresses.as_slice(), *width, word) }
    }
}

/// Whether numbers of a width at addresses have a byte of a word.
fn touches_any(addresses: &[u32], width: ElementWidth, word: u32) -> bool
    ensures { result ≡ is_word_in word (touched (accesses_at width addresses.now)) }
{
    let first = u64::from(word);
    covers_any(addresses, width, first)
        || covers_any(addresses, width, first + 1)
        || covers_any(addresses, width, first + 2)
        || covers_any(addresses, width, first + 3)
}

/// Whether one of the numbers of a width at addresses has the byte at a place.
#[tactic(auto, using(crate::proofs::Storing::in_both))]
fn covers_any(addresses: &[u32], width: ElementWidth, place: u64) -> bool
    ensures { result ≡ is_in place (touched (accesses_at width addresses.now)) }
{
    match addresses {
        [] => false,
        [address, others @ ..] => covers(*address, width, place)
            || covers_any(others, width, place),
    }
}

/// Whether a number of a width at an address has the byte at a place.
fn covers(address: u32, width: ElementWidth, place: u64) -> bool
    ensures { result ≡ is_in place (places_of (access_at (size_of width) address)) }
{
    let first = u64::from(address);
    match width {
        ElementWidth::Bits8 => place == first,
        ElementWidth::Bits16 => place == first || place == first + 1,
        ElementWidth::Bits32 => {
            place == first || place == first + 1 || place == first + 2 || place == first + 3
        }
    }
}
