//! The lines of several words.

ghost use Rattle.std.specs.Prelude.{◌≡◌, ℕ, ◌+◌, ◌*◌, ◌<◌, ◌^◌, ◌++◌, length, take, OnOk, OnErr};
ghost use Rattle.disassembler.specs.Listing.{addressed_listing, listing};

use crate::lines::{write_addressed_line, write_line};
use std::alloc::AllocError;

/// Appends the lines of words, one after the other. An `Err` says that there was no memory, and leaves what is in
/// `out` as it was.
pub fn write_lines(words: &[u32], out: &mut Vec<u8>) -> Result<(), AllocError>
    ensures appended { OnOk result (out.new.items ≡ out.old.items ++ listing words.now) }
    ensures unchanged { OnErr result (out.new.items ≡ out.old.items) }
{
    let start = out.len();
    let pushed = push_lines(words, out);
    if pushed.is_err() {
        out.truncate(start);
    }
    pushed
}

/// The same, but that after an `Err` the lines of this many first words stand in `out`.
fn push_lines(words: &[u32], out: &mut Vec<u8>) -> Result<(), AllocError>
    ensures appended { OnOk result (out.new.items ≡ out.old.items ++ listing words.now) }
    ensures begun { OnErr result ((count : ℕ) × (out.new.items ≡ out.old.items ++ listing (take count words.now))) }
{
    let mut rest = words;
    while let [word, others @ ..] = rest {
        write_line(*word, out)?;
        rest = others;
    }
    Ok(())
}

/// Appends the lines of words, each with a comment that says its address: the first word is at `start`. After an
/// `Err`, for want of memory, the lines of some first words stand in `out`.
pub fn write_addressed_lines(words: &[u32], start: u32, out: &mut Vec<u8>) -> Result<(), AllocError>
    requires { start + 4 * length words.now < 2 ^ 32 }
    ensures { OnOk result (out.new.items ≡ out.old.items ++ addressed_listing start words.now) }
{
    let mut rest = words;
    let mut address = start;
    while let [word, others @ ..] = rest {
        write_addressed_line(*word, address, out)?;
        address += 4;
        rest = others;
    }
    Ok(())
}
