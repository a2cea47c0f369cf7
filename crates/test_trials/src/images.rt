//! Images of algorithms under schedules: the size of their data, and where their output lies.

use crate::failures::TrialFailure;
use hrv_compiler::compile;
use loader::{Image, Output};
use picture::Picture;
use std::alloc::{AllocError, Global};

/// The image of an algorithm under a schedule with these inputs, and the words by which its harts share their work.
#[derive(Drop)]
pub struct Built {
    pub image: Image,
    pub control: Vec<u32>,
}

/// Compiles an algorithm under a schedule, with these inputs.
pub fn build(
    alloc: Global,
    algorithm: &str,
    schedule: &str,
    inputs: &[Picture],
) -> Result<Built, TrialFailure> {
    let compiled = compile(algorithm, schedule, alloc)?;
    let image = compiled.image(alloc, inputs)?;
    let control = compiled.control(alloc)?;
    Ok(Built { image, control })
}

/// Where an image's output lies.
pub fn output_of(image: &Image) -> Result<Output, TrialFailure> {
    match image.output() {
        Some(output) => Ok(output),
        None => Err(TrialFailure::Malformed("an image without an output")),
    }
}

/// Appends how many bytes the data have, the address of the output's first pixel, its size, and how many bytes a row
/// has.
pub fn push_image(image: &Image, out: &mut String) -> Result<(), TrialFailure> {
    let size = image.data().len();
    writeln!(out, "data {size}")?;
    let Output {
        address,
        width,
        height,
        stride,
    } = output_of(image)?;
    writeln!(out, "output 0x{address:08x} {width} {height} {stride}")?;
    Ok(())
}

/// Appends the addresses of the words by which harts share their work.
pub fn push_control(control: &[u32], out: &mut String) -> Result<(), AllocError> {
    out.push_str("control")?;
    for address in control {
        write!(out, " 0x{address:08x}")?;
    }
    out.push_str("\n")
}
