//! Pieces of texts.

ghost use Rattle.std.specs.Prelude.{◌≡◌, ◌++◌, OnOk};
ghost use Rattle.gdb_texts.specs.Texts as spec;

use std::alloc::AllocError;

/// Appends a piece of a text: at most this many bytes from an offset on, and in front whether more follow.
pub fn push_piece(out: &mut Vec<u8>, text: &[u8], offset: u32, count: u32) -> Result<(), AllocError>
    ensures { OnOk result (out.new.items ≡ out.old.items ++ spec.piece_of text.now offset count) }
{
    let (_, rest) = text.split_at(text.len().min(offset as usize));
    let (piece, others) = rest.split_at(rest.len().min(count as usize));
    out.push(if others.is_empty() { b'l' } else { b'm' })?;
    out.extend_from_slice(piece)?;
    Ok(())
}
