//! Pictures: a case's inputs, and what is in a machine's memory.

use crate::failures::TrialFailure;
use loader::Output;
use multi_hart::Machine;
use picture::Picture;
use std::alloc::Global;
use test_cases::Part;

/// The pictures of a case's last parts.
pub fn inputs_of(alloc: Global, parts: &[Part]) -> Result<Vec<Picture>, TrialFailure> {
    let mut inputs = Vec::new(alloc);
    for part in parts {
        inputs.push(Picture::read(alloc, part.named("picture")?)?)?;
    }
    Ok(inputs)
}

/// The text of a picture of these pixels.
pub fn picture_text(
    alloc: Global,
    width: u32,
    height: u32,
    pixels: Vec<u32>,
) -> Result<String, TrialFailure> {
    match Picture::new(width, height, pixels) {
        Some(picture) => text_of(alloc, &picture),
        None => Err(TrialFailure::Malformed("an output that is no picture")),
    }
}

/// A picture's text, which is ASCII.
pub fn text_of(alloc: Global, picture: &Picture) -> Result<String, TrialFailure> {
    let mut bytes = Vec::new(alloc);
    picture.write(&mut bytes)?;
    match str::from_utf8(&bytes) {
        Ok(text) => Ok(String::from_str(alloc, text)?),
        Err(_) => Err(TrialFailure::Malformed("a picture that is no text")),
    }
}

/// The text of the picture that is in a machine's memory.
pub fn output_text(
    alloc: Global,
    machine: &Machine,
    output: Output,
) -> Result<String, TrialFailure> {
    let mut pixels = Vec::new(alloc);
    for y in 0..output.height {
        for x in 0..output.width {
            pixels.push(pixel_at(machine, output, x, y)?)?;
        }
    }
    picture_text(alloc, output.width, output.height, pixels)
}

/// A pixel of the picture that is in a machine's memory.
pub fn pixel_at(machine: &Machine, output: Output, x: u32, y: u32) -> Result<u32, TrialFailure> {
    let row = output.address.wrapping_add(y.wrapping_mul(output.stride));
    match machine.word(row.wrapping_add(x.wrapping_mul(4))) {
        Some(pixel) => Ok(pixel),
        None => Err(TrialFailure::Malformed("a pixel outside the data")),
    }
}
