//! Memory, as gdb reads it.

ghost use Rattle.std.specs.Prelude.{◌≡◌, ◌++◌, ◌<◌, ◌≤◌, ◌/◌, ◌%◌, ◌^◌, length, OnOk};
ghost use Rattle.memory.specs.Access.{data_start, most_words};
ghost use Rattle.multi_hart.specs.Run.{State};
ghost use Rattle.debugger.specs.Places.{state_here};
ghost use Rattle.gdb_session.specs.Memories as spec;
ghost use Rattle.gdb_session.specs.Texts.{hex_of};

use crate::texts::{push_hex, push_refused};
use debugger::Session;
use memory::{DATA_START, TEXT_START};
use std::alloc::AllocError;

/// Appends this many bytes from an address on, up to the first that isn't there.
#[tactic(auto, unfolding(crate::specs::Memories::memory_text))]
pub fn push_memory(
    out: &mut Vec<u8>,
    session: &Session,
    address: u32,
    count: u32,
) -> Result<(), AllocError>
    ensures { OnOk result (out.new.items ≡ out.old.items
        ++ spec.memory_text (state_here session.now.state) address count) }
{
    match byte_at(session, address as usize) {
        Some(_byte) => push_bytes(out, session, address as usize, count),
        None => push_refused(out),
    }
}

/// The same, where there may be none.
fn push_bytes(
    out: &mut Vec<u8>,
    session: &Session,
    address: usize,
    count: u32,
) -> Result<(), AllocError>
    requires { address < 2 ^ 32 }
    ensures { OnOk result (out.new.items ≡ out.old.items
        ++ hex_of (spec.bytes_from (state_here session.now.state) address count)) }
{
    for number in 0..count {
        let Some(byte) = byte_at(session, address + number as usize) else {
            return Ok(());
        };
        push_hex(out, &[byte])?;
    }
    Ok(())
}

/// The byte of text or data at an address.
#[tactic(auto, unfolding(crate::specs::Memories::byte_in))]
fn byte_at(session: &Session, address: usize) -> Option<u8>
    ensures { result ≡ spec.byte_in (state_here session.now.state) address }
{
    let words = session.words();
    if address < DATA_START as usize {
        text_byte(words, address)
    } else {
        data_byte(session.machine().data(), address)
    }
}

/// The byte at an address of data.
fn data_byte(bytes: &[u8], address: usize) -> Option<u8>
    requires { data_start ≤ address }
    ensures { (state : State) → bytes.now ≡ state.memory → length state.text ≤ most_words
        → result ≡ spec.byte_in state address }
{
    let offset = address - DATA_START as usize;
    if offset < bytes.len() {
        Some(bytes[offset])
    } else {
        None
    }
}

/// The byte at an address before data.
fn text_byte(words: &[u32], address: usize) -> Option<u8>
    requires { address < data_start }
    ensures { (state : State) → words.now ≡ state.text → result ≡ spec.byte_in state address }
{
    if address < TEXT_START as usize {
        return None;
    }
    let offset = address - TEXT_START as usize;
    if offset / 4 < words.len() {
        Some(byte_of(words[offset / 4], offset % 4))
    } else {
        None
    }
}

/// The byte of a word at a place of it, its lowest byte first.
fn byte_of(word: u32, place: usize) -> u8
    requires { place < 4 }
    ensures { result ≡ word / 256 ^ place % 256 }
{
    word.to_le_bytes()[place]
}
