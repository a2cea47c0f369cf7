//! Pages that are marked as written.

ghost use Rattle.std.specs.Prelude.{◌≡◌, ◌+◌, ◌-◌, ◌/◌, ◌<◌, ◌≤◌, ◌^◌, ℕ, false, true, length};
ghost use Rattle.memory.specs.Access.{access_at, bytes_in, places_of, touched};
ghost use Rattle.memory.specs.Access.{data_start};
ghost use Rattle.hart_core.specs.VectorRows.{accesses_at, size_of};
ghost use Rattle.multi_hart.specs.Run.{is_in};
ghost use Rattle.debugger_writes.specs.Stored.{places_in};
ghost use Rattle.debugger_writes.specs.Pages.{Marked, is_written, lowest, over};
ghost use Rattle.debugger_writes.specs.inner.Covering.{Covers};

use crate::Stored;
use crate::pages::{PAGE, PageCopy};
use memory::DATA_START;
use rv_insn::ElementWidth;

/// Marks the pages of these copies.
pub fn mark_pages(written: &mut [bool], pages: &[PageCopy])
    ensures marked { Marked written.old written.new }
    ensures others { (f : ℕ → ℕ) (i : ℕ) → is_written written.new (i / 4096) ≡ false → over pages.now f i ≡ f i }
{
    if let [first, others @ ..] = pages {
        mark_page(written, first.number);
        mark_pages(written, others);
    }
}

/// Marks the pages that are there.
pub fn mark_below(written: &mut [bool], below: &[Option<PageCopy>])
    ensures marked { Marked written.old written.new }
    ensures others { (f : ℕ → ℕ) (i : ℕ) → is_written written.new (i / 4096) ≡ false → lowest below.now f i ≡ f i }
{
    for (number, slot) in below.iter().enumerate() {
        if slot.is_some() {
            mark_page(written, number);
        }
    }
}

/// Marks a page.
#[tactic(auto, using(crate::proofs::Marking::marked_one, crate::proofs::Marking::marked_none, crate::proofs::Marking::is_marked, crate::proofs::Marking::past_marked))]
fn mark_page(written: &mut [bool], number: usize)
    ensures marked { Marked written.old written.new }
    ensures is { is_written written.new number ≡ true }
{
    if number < written.len() {
        written[number] = true;
    }
}

/// Marks the pages of all bytes that are stored.
#[tactic(auto, using(crate::proofs::Marking::marked_none, crate::proofs::Marking::covers_none))]
pub(crate) fn mark_stored(written: &mut [bool], stored: &Stored)
    ensures marked { Marked written.old written.new }
    ensures covers { Covers written.new (places_in stored.now) }
{
    match stored {
        Stored::Nothing => {}
        Stored::Number { address, width } => mark_number(written, *address, *width),
        Stored::Elements { addresses, width } => {
            mark_numbers(written, addresses.as_slice(), *width);
        }
    }
}

/// Marks the pages of numbers of a width at addresses.
#[tactic(auto, using(crate::proofs::Marking::marked_none, crate::proofs::Marking::marked_then, crate::proofs::Marking::covers_none, crate::proofs::Marking::covers_both, crate::proofs::Marking::covers_later))]
fn mark_numbers(written: &mut [bool], addresses: &[u32], width: ElementWidth)
    ensures marked { Marked written.old written.new }
    ensures covers { Covers written.new (touched (accesses_at width addresses.now)) }
{
    if let [address, others @ ..] = addresses {
        mark_number(written, *address, width);
        mark_numbers(written, others, width);
    }
}

/// Marks the pages of a number of a width at an address: those of its first byte and of its last.
#[tactic(auto, using(crate::proofs::Marking::marked_then, crate::proofs::Marking::marked_stays, crate::proofs::Marking::covers_number))]
fn mark_number(written: &mut [bool], address: u32, width: ElementWidth)
    ensures marked { Marked written.old written.new }
    ensures covers { Covers written.new (places_of (access_at (size_of width) address)) }
{
    let first = u64::from(address);
    mark_byte(written, first);
    mark_byte(written, first + last_byte(width));
}

/// How far the last byte of a number of a width lies after the first.
fn last_byte(width: ElementWidth) -> u64
    ensures { result + 1 ≡ bytes_in (size_of width) }
{
    match width {
        ElementWidth::Bits8 => 0,
        ElementWidth::Bits16 => 1,
        ElementWidth::Bits32 => 3,
    }
}

/// Marks the page of a byte, if it is one of data.
#[tactic(auto, using(crate::proofs::Marking::marked_none))]
fn mark_byte(written: &mut [bool], place: u64)
    ensures marked { Marked written.old written.new }
    ensures is { data_start ≤ place → is_written written.new ((place - data_start) / 4096) ≡ true }
{
    let start = u64::from(DATA_START);
    if place >= start {
        mark_page(written, ((place - start) / PAGE as u64) as usize);
    }
}
