//! Listing the words of an image.

ghost use Rattle.std.specs.Prelude.{◌+◌, ◌<◌, ◌^◌};
ghost use Rattle.hrv_engines.specs.Devices.{image_bytes_of, sink_of};
ghost use Rattle.hrv_engines.specs.Dis.{IsAddressedListing, IsListing, IsRefusedImage};
ghost use Rattle.hrv_engines.specs.Engine.{Judges, Performs};

use crate::devices::{Sink, Source, read_image_bytes, write_all};
use crate::faults::Fault;
use disassembler::{write_addressed_lines, write_lines};
use loader::read_image;
use memory::TEXT_START;
use std::alloc::Global;

/// Reads an image, and writes a line for each word of its text.
pub fn dis_bytes<I: Source, O: Sink>(alloc: Global, image: &mut I, out: &mut O) -> Result<(), Fault>
    requires image { I.failed image.old + 1 < 2 ^ 64 }
    requires out { O.failed out.old + 1 < 2 ^ 64 }
    ensures { Performs IsListing IsRefusedImage
        (image_bytes_of I.place I.failed I.gave I.ended image.old image.new)
        (sink_of O.place O.failed O.took out.old out.new) result }
{
    let image_bytes = read_image_bytes(alloc, image)?;
    let lines = listing_of(alloc, image_bytes)?;
    write_all(alloc, out, &lines)
}

/// The lines of the words of an image, or the refusal of the image. Its bytes are let go as soon as they are read.
fn listing_of(alloc: Global, bytes: Vec<u8>) -> Result<Vec<u8>, Fault>
    ensures { Judges (λ lines. lines.items) IsListing IsRefusedImage bytes.items result }
{
    let image = read_image(alloc, &bytes)?;
    drop(bytes);
    let mut lines = Vec::new(alloc);
    write_lines(image.words(), &mut lines)?;
    Ok(lines)
}

/// Reads an image, and writes a line for each word of its text, after which a comment says where the word is.
pub fn dis_addresses_bytes<I: Source, O: Sink>(
    alloc: Global,
    image: &mut I,
    out: &mut O,
) -> Result<(), Fault>
    requires image { I.failed image.old + 1 < 2 ^ 64 }
    requires out { O.failed out.old + 1 < 2 ^ 64 }
    ensures { Performs IsAddressedListing IsRefusedImage
        (image_bytes_of I.place I.failed I.gave I.ended image.old image.new)
        (sink_of O.place O.failed O.took out.old out.new) result }
{
    let image_bytes = read_image_bytes(alloc, image)?;
    let lines = addressed_listing_of(alloc, image_bytes)?;
    write_all(alloc, out, &lines)
}

/// The lines of the words of an image, each with its address, or the refusal of the image.
fn addressed_listing_of(alloc: Global, bytes: Vec<u8>) -> Result<Vec<u8>, Fault>
    ensures { Judges (λ lines. lines.items) IsAddressedListing IsRefusedImage bytes.items result }
{
    let image = read_image(alloc, &bytes)?;
    drop(bytes);
    let mut lines = Vec::new(alloc);
    write_addressed_lines(image.words(), TEXT_START, &mut lines)?;
    Ok(lines)
}
