//! Where the pixels of a source lie.

ghost use Rattle.std.specs.Prelude.{◌≡◌, ◌≤◌, ◌<◌, ◌^◌, ◌*◌, ◌++◌, IfOk, OnOk};
ghost use Rattle.std.specs.String.{string_bytes};
ghost use Rattle.bounds.specs.Boxes.{IsBox};
ghost use Rattle.hrv_map.specs.Areas as spec;

use bounds::SourceBox;
use bounds::boxes::extents_of;
use bounds_ranges::ranges::ORIGIN;
use disassembler::push_hexadecimal;
use halide_pipeline::Input;
use std::alloc::{AllocError, Global};

/// Where the pixels of a source lie: by rows, each from the left, without gaps.
#[derive(Clone, Copy, Debug)]
pub struct PixelArea {
    /// The first column, with 2^62 added.
    pub left: u64,
    /// The first row, with 2^62 added.
    pub top: u64,
    /// In pixels.
    pub width: u32,
    /// In pixels.
    pub height: u32,
    /// Of the first pixel.
    pub address: u64,
    /// How many bytes a pixel has.
    pub pixel: u32,
}

/// Where an input lies.
pub(crate) fn input_area(at: u64, input: &Input) -> PixelArea
    ensures { result ≡ spec.input_area at input.now }
{
    PixelArea {
        left: ORIGIN,
        top: ORIGIN,
        width: input.width,
        height: input.height,
        address: at,
        pixel: if input.is_bytes { 1 } else { 4 },
    }
}

/// Where the box of a Func lies.
pub(crate) fn func_area(at: u64, source_box: &SourceBox) -> PixelArea
    requires { IsBox source_box.now }
    ensures { result ≡ spec.func_area at source_box.now }
{
    let extents = extents_of(source_box);
    PixelArea {
        left: source_box.x.low,
        top: source_box.y.low,
        width: extents.first_argument,
        height: extents.second_argument,
        address: at,
        pixel: 4,
    }
}

/// Appends an end of a range, signed.
fn push_end(text: &mut String, end: u64) -> Result<(), AllocError>
    ensures { OnOk result (string_bytes text.new ≡ string_bytes text.old ++ spec.end_text end) }
{
    if ORIGIN <= end {
        write!(text, "{}", end - ORIGIN)?;
    } else {
        write!(text, "-{}", ORIGIN - end)?;
    }
    Ok(())
}

/// ` corner X Y extents W H address A row BYTES pixel BYTES`
#[tactic(auto, unfolding(crate::specs::Areas::area_text))]
pub(crate) fn area_text(alloc: Global, area: PixelArea) -> Result<String, AllocError>
    ensures { IfOk result (λ text. string_bytes text ≡ spec.area_text area) }
{
    let PixelArea {
        left,
        top,
        width,
        height,
        address,
        pixel,
    } = area;
    let mut text = String::new(alloc);
    text.push_str(" corner ")?;
    push_end(&mut text, left)?;
    text.push_str(" ")?;
    push_end(&mut text, top)?;
    write!(text, " extents {width} {height} address ")?;
    push_hexadecimal(&mut text, 8, address)?;
    let row = u64::from(pixel) * u64::from(width);
    write!(text, " row {row} pixel {pixel}")?;
    Ok(text)
}
