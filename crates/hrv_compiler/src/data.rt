//! The data of an image.

ghost use Rattle.std.specs.Prelude.{◌≡◌, ◌≤◌, ◌+◌, ◌*◌, ◌++◌, true, IfOk, None, OnOk, []};
ghost use Rattle.std.specs.Prelude.{length, map, min, nat_lt, replicate};
ghost use Rattle.std.specs.List.{list_all};
ghost use Rattle.halide_pipeline.specs.Picture.{IsPicture};
ghost use Rattle.bounds.specs.Layout as layouts;
ghost use Rattle.picture.specs.Evaluated.{hold_bytes, holds_bytes, judged};
ghost use Rattle.loader.specs.Spelling.{padded};
ghost use Rattle.hrv_compiler.specs.Addresses.{LiesLow};
ghost use Rattle.hrv_compiler.specs.Images as spec;
ghost use Rattle.hrv_compiler.specs.Images.{ArePictures};

use bounds::Layout;
use halide_pipeline::Input;
use picture::Picture;
use std::alloc::{AllocError, Global};

/// How many bytes a pixel takes that is no byte.
const WORD_LEN: usize = 4;

/// Appends the bytes of pixels, four a pixel.
fn push_words(bytes: &mut Vec<u8>, pixels: &[u32]) -> Result<(), AllocError>
    ensures { OnOk result (bytes.new.items ≡ bytes.old.items ++ spec.word_bytes pixels.now) }
{
    bytes.reserve(pixels.len().saturating_mul(WORD_LEN))?;
    // Eight at a time, since a call that appends costs more than a pixel's bytes.
    let mut left = pixels;
    while let [a, b, c, d, e, f, g, h, others @ ..] = left {
        let words = [
            a.to_le_bytes(),
            b.to_le_bytes(),
            c.to_le_bytes(),
            d.to_le_bytes(),
            e.to_le_bytes(),
            f.to_le_bytes(),
            g.to_le_bytes(),
            h.to_le_bytes(),
        ];
        bytes.extend_from_slice(words.as_flattened())?;
        left = others;
    }
    for pixel in left {
        bytes.extend_from_slice(&pixel.to_le_bytes())?;
    }
    Ok(())
}

/// Appends pixels that are bytes.
fn push_bytes(bytes: &mut Vec<u8>, pixels: &[u32]) -> Result<(), AllocError>
    requires { list_all (λ pixel. nat_lt pixel 256) pixels.now ≡ true }
    ensures { OnOk result (bytes.new.items ≡ bytes.old.items ++ pixels.now) }
{
    bytes.reserve(pixels.len())?;
    // Eight at a time here too.
    let mut left = pixels;
    while let [a, b, c, d, e, f, g, h, others @ ..] = left {
        let eight = [
            *a as u8, *b as u8, *c as u8, *d as u8, *e as u8, *f as u8, *g as u8, *h as u8,
        ];
        bytes.extend_from_slice(&eight)?;
        left = others;
    }
    for pixel in left {
        bytes.push(*pixel as u8)?;
    }
    Ok(())
}

/// Appends the bytes of an input's picture.
fn push_input(bytes: &mut Vec<u8>, input: &Input, picture: &Picture) -> Result<(), AllocError>
    requires { holds_bytes input.now picture.now ≡ true }
    ensures is { OnOk result (bytes.new.items ≡ bytes.old.items ++ spec.input_data input.now picture.now) }
    ensures rules { OnOk result (IsPicture picture.now) }
{
    let pixels = picture.pixels();
    if input.is_bytes {
        let whole = (pixels.len() + 3) / 4 * 4;
        bytes.reserve(whole)?;
        push_bytes(bytes, pixels)?;
        bytes.extend_from_slice(zeros(whole - pixels.len()))?;
    } else {
        push_words(bytes, pixels)?;
    }
    Ok(())
}

/// Appends the bytes of all inputs' pictures.
fn push_inputs(
    bytes: &mut Vec<u8>,
    inputs: &[Input],
    pictures: &[Picture],
) -> Result<(), AllocError>
    requires count { length pictures.now ≡ length inputs.now }
    requires hold { hold_bytes inputs.now pictures.now ≡ true }
    ensures is { OnOk result (bytes.new.items ≡ bytes.old.items ++ spec.inputs_data inputs.now pictures.now) }
    ensures rules { OnOk result (ArePictures pictures.now) }
{
    let [input, inputs @ ..] = inputs else {
        return Ok(());
    };
    let [picture, pictures @ ..] = pictures else {
        return Ok(());
    };
    push_input(bytes, input, picture)?;
    push_inputs(bytes, inputs, pictures)?;
    Ok(())
}

/// This many zeros, or as many as are appended at once.
fn zeros(count: usize) -> &'static [u8]
    ensures { result.now ≡ replicate (min count 4096) 0 }
{
    const ZEROS: &[u8] = &[0; 4096];
    &ZEROS[..count.min(ZEROS.len())]
}

/// Puts zeros after bytes, up to this many.
fn pad(bytes: &mut Vec<u8>, size: usize) -> Result<(), AllocError>
    requires { length bytes.old.items ≤ size }
    ensures { OnOk result (bytes.new.items ≡ padded size bytes.old.items) }
{
    while bytes.len() < size {
        bytes.extend_from_slice(zeros(size - bytes.len()))?;
    }
    Ok(())
}

/// Appends the first bytes of the data of an image with these input pictures: the words by which harts share their
/// work, and the inputs. All after them are zeros.
fn push_front(
    bytes: &mut Vec<u8>,
    layout: &Layout,
    inputs: &[Input],
    pictures: &[Picture],
) -> Result<(), AllocError>
    requires empty { bytes.old.items ≡ [] }
    requires low { LiesLow layout.now }
    requires judged { judged inputs.now pictures.now ≡ None }
    ensures is { OnOk result (bytes.new.items ≡ spec.data_front layout.now inputs.now pictures.now) }
    ensures rules { OnOk result (ArePictures pictures.now) }
{
    pad(bytes, 8 * layout.phases as usize)?;
    push_inputs(bytes, inputs, pictures)?;
    Ok(())
}

/// The first bytes of the data of an image with these input pictures. All after them are zeros.
pub(crate) fn data_front(
    alloc: Global,
    layout: &Layout,
    inputs: &[Input],
    pictures: &[Picture],
) -> Result<Vec<u8>, AllocError>
    requires low { LiesLow layout.now }
    requires judged { judged inputs.now pictures.now ≡ None }
    ensures is { IfOk result (λ bytes. bytes.items ≡ spec.data_front layout.now inputs.now pictures.now) }
    ensures rules { IfOk result (λ bytes. ArePictures pictures.now) }
{
    let mut bytes = Vec::new(alloc);
    push_front(&mut bytes, layout, inputs, pictures)?;
    Ok(bytes)
}

/// The data of an image with these input pictures: zeros, but for the pixels.
pub(crate) fn image_data(
    alloc: Global,
    layout: &Layout,
    inputs: &[Input],
    pictures: &[Picture],
) -> Result<Vec<u8>, AllocError>
    requires low { LiesLow layout.now }
    requires judged { judged inputs.now pictures.now ≡ None }
    requires room { 8 * layout.now.phases + layouts.total (map layouts.input_bytes inputs.now) ≤ layout.now.size }
    ensures is { IfOk result (λ bytes. bytes.items ≡ spec.image_data layout.now inputs.now pictures.now) }
    ensures rules { IfOk result (λ bytes. ArePictures pictures.now) }
{
    let size = layout.size as usize;
    let mut bytes = Vec::with_capacity(alloc, size)?;
    push_front(&mut bytes, layout, inputs, pictures)?;
    pad(&mut bytes, size)?;
    Ok(bytes)
}
