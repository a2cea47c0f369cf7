//! Reading images from bytes.

ghost use Rattle.std.specs.Prelude.{◌≡◌, ◌+◌, ◌*◌, ◌/◌, ◌^◌, ◌<◌, ◌≤◌, IfOk, IfErr, OnOk, Ok, length, drop};
ghost use Rattle.loader.specs.Image.{ImageContents, IsImage};
ghost use Rattle.loader.specs.Spelling.{number_at, numbers_in, output_at, header_length, word_count, byte_count};
ghost use Rattle.loader.specs.Spelling.{stored_count, whole_length, padded, stores_zero, format_of, contents_in};
ghost use Rattle.loader.specs.Spelling.{judged_in, image_in, image_of, Spells, Answers};

use crate::faults::LoadFault;
use crate::formats::Format;
use crate::images::Image;
use crate::outputs::Output;
use byteorder::{ByteOrder, LittleEndian};
use memory::{MOST_BYTES, MOST_WORDS};
use std::alloc::{AllocError, Global};

/// The number at a place.
#[tactic(auto, unfolding(crate::specs::Spelling::number_at))]
fn number_at(bytes: &[u8], place: usize) -> u32
    requires { place + 4 ≤ length bytes.now }
    ensures { result ≡ number_at bytes.now place }
{
    LittleEndian::read_u32(&bytes[place..place + 4])
}

/// The output that a header names.
fn output_at(bytes: &[u8]) -> Option<Output>
    requires { 32 ≤ length bytes.now }
    ensures { result ≡ output_at bytes.now }
{
    let output = Output {
        address: number_at(bytes, 16),
        width: number_at(bytes, 20),
        height: number_at(bytes, 24),
        stride: number_at(bytes, 28),
    };
    if output.address == 0 && output.width == 0 && output.height == 0 && output.stride == 0 {
        return None;
    }
    Some(output)
}

/// The format whose letters stand in front.
#[tactic(auto, unfolding(crate::specs::Spelling::format_of))]
fn format_of(bytes: &[u8]) -> Option<Format>
    ensures { result ≡ format_of bytes.now }
{
    if bytes.starts_with(&Format::Hrv1.magic()) {
        return Some(Format::Hrv1);
    }
    if bytes.starts_with(&Format::Hrv2.magic()) {
        return Some(Format::Hrv2);
    }
    None
}

/// How many of the data bytes are stored.
fn stored_count(format: Format, bytes: &[u8]) -> usize
    requires { header_length format ≤ length bytes.now }
    ensures value { result ≡ stored_count format bytes.now }
    ensures fits { result < 2 ^ 32 }
{
    match format {
        Format::Hrv1 => number_at(bytes, 12) as usize,
        Format::Hrv2 => number_at(bytes, 32) as usize,
    }
}

/// Judges what is known of a format before the contents are looked at: the counts of the header, and the
/// length.
fn judge_sizes(format: Format, bytes: &[u8]) -> Result<(), LoadFault>
    ensures ok { OnOk result (image_in format bytes.now ≡ judged_in format bytes.now) }
    ensures length { OnOk result (length bytes.now ≡ whole_length format bytes.now) }
    ensures stored { OnOk result (stored_count format bytes.now ≤ byte_count bytes.now) }
    ensures err { IfErr result (λ fault. image_in format bytes.now ≡ Err fault) }
{
    if bytes.len() < format.header_len() {
        return Err(LoadFault::Truncated);
    }
    let words = number_at(bytes, 8) as usize;
    let data = number_at(bytes, 12) as usize;
    let stored = stored_count(format, bytes);
    if words > MOST_WORDS || data > MOST_BYTES || stored > data {
        return Err(LoadFault::OverLimit);
    }
    let whole = format.header_len() + 4 * words + stored;
    if bytes.len() < whole {
        return Err(LoadFault::Truncated);
    }
    if bytes.len() > whole {
        return Err(LoadFault::TrailingBytes);
    }
    Ok(())
}

/// Judges everything that is known before the contents are looked at, and says which format it is.
#[tactic(auto, unfolding(crate::specs::Spelling::image_of))]
fn judge_frame(bytes: &[u8]) -> Result<Format, LoadFault>
    ensures ok { IfOk result (λ format. image_of bytes.now ≡ judged_in format bytes.now) }
    ensures length { IfOk result (λ format. length bytes.now ≡ whole_length format bytes.now) }
    ensures stored { IfOk result (λ format. stored_count format bytes.now ≤ byte_count bytes.now) }
    ensures err { IfErr result (λ fault. image_of bytes.now ≡ Err fault) }
{
    if bytes.len() < 4 {
        return Err(LoadFault::Truncated);
    }
    let Some(format) = format_of(bytes) else {
        return Err(LoadFault::Magic);
    };
    judge_sizes(format, bytes)?;
    Ok(format)
}

/// This many numbers, from the front.
fn words_of(alloc: Global, count: usize, text: &[u8]) -> Result<Vec<u32>, AllocError>
    requires { 4 * count ≤ length text.now }
    ensures { IfOk result (λ words. words.items ≡ numbers_in count text.now) }
{
    let mut words = Vec::with_capacity(alloc, count)?;
    for index in 0..count {
        words.push(number_at(text, 4 * index))?;
    }
    Ok(words)
}

/// This many bytes: these, and zeros after them.
fn padded(alloc: Global, count: usize, bytes: &[u8]) -> Result<Vec<u8>, AllocError>
    requires { length bytes.now ≤ count }
    ensures { IfOk result (λ padding. padding.items ≡ padded count bytes.now) }
{
    let mut data = Vec::with_capacity(alloc, count)?;
    data.extend_from_slice(bytes)?;
    data.resize(count, 0)?;
    Ok(data)
}

/// Whether a zero is stored that the format leaves out.
fn stores_zero(format: Format, stored: &[u8]) -> bool
    ensures { result ≡ stores_zero format stored.now }
{
    match format {
        Format::Hrv1 => false,
        Format::Hrv2 => stored.last().is_some_and(|byte| *byte == 0),
    }
}

/// The image that the bytes spell.
fn image_of(alloc: Global, bytes: &[u8]) -> Result<Image, LoadFault>
    ensures exact { Answers result (image_of bytes.now) }
    ensures rules { IfOk result IsImage }
{
    let format = judge_frame(bytes)?;
    let header = format.header_len();
    let count = number_at(bytes, 8) as usize;
    let words = words_of(alloc, count, &bytes[header..])?;
    let stored = &bytes[header + 4 * count..];
    let data = padded(alloc, number_at(bytes, 12) as usize, stored)?;
    let image = Image::new(number_at(bytes, 4), words, data, output_at(bytes))?;
    if stores_zero(format, stored) {
        return Err(LoadFault::StoredZero);
    }
    Ok(image)
}

/// The image that the bytes spell, all of the bytes, in either format. Refused by the first fault in this
/// order: fewer than 4 bytes (`Truncated`), another magic (`Magic`), fewer bytes than the header has
/// (`Truncated`), counts above the limits (`OverLimit`), fewer bytes than the counts ask for (`Truncated`),
/// more (`TrailingBytes`), then as [`Image::new`] refuses, and a last stored byte of 0 in the second format
/// (`StoredZero`). `OutOfMemory` comes only where memory runs out; the memory that is taken is what the
/// image holds.
pub fn read_image(alloc: Global, bytes: &[u8]) -> Result<Image, LoadFault>
    // What is read is spelled so.
    ensures found { IfOk result (Spells bytes.now) }
    // What is spelled so is read, unless memory runs out.
    ensures only { (image : ImageContents) → IsImage image → Spells bytes.now image → Answers result (Ok image) }
    // The refusal is the first in the format's order.
    ensures exact { Answers result (image_of bytes.now) }
    // What is read keeps the rules.
    ensures rules { IfOk result IsImage }
{
    image_of(alloc, bytes)
}
