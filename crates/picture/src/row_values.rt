//! The pixels of Funcs row by row.

ghost use Rattle.std.specs.Prelude.{◌<◌, ◌^◌, IfOk, IfSome};
ghost use Rattle.halide_pipeline.specs.Words as word;
ghost use Rattle.picture.specs.inner.Evaluation.{plane_of, AreTables};
ghost use Rattle.picture_rows.specs.Rows.{AreValues};

use crate::in_place::{PixelSpan, pixels_at_once};
use crate::lookups::func_at;
use crate::plain::pixel;
use crate::row_reads::{table_at, table_window};
use crate::scenes::Scene;
use halide_pipeline::words;
use std::alloc::AllocError;

/// A row of fewer pixels is computed pixel by pixel.
const FEW: usize = 8;

/// This many columns are computed at once.
pub(crate) const STRETCH: usize = 4096;

/// This many pixels of the Func at a place in a row from a column on, one by one.
fn pixels_one_by_one(
    scene: &Scene,
    func_index: usize,
    left: u32,
    y: u32,
    width: usize,
) -> Result<Vec<u32>, AllocError>
    requires tables { AreTables scene.now }
    requires narrow { width < 2 ^ 32 }
    ensures { IfOk result (λ pixels. AreValues width (λ at. plane_of scene.now func_index (word.add left at) y)
        pixels.items) }
{
    let mut pixels = vec![in scene.alloc; 0; width]?;
    for at in 0..width {
        pixels[at] = pixel(scene, func_index, words::add(left, at as u32), y)?;
    }
    Ok(pixels)
}

/// This many pixels of the Func at a place in a row from a column on, where its table has them.
fn tabled_stretch(
    scene: &Scene,
    func_index: usize,
    left: u32,
    y: u32,
    width: usize,
) -> Result<Option<Vec<u32>>, AllocError>
    requires tables { AreTables scene.now }
    requires narrow { width < 2 ^ 32 }
    ensures { IfOk result (λ found. IfSome found (λ pixels. AreValues width (λ at. plane_of scene.now func_index
        (word.add left at) y) pixels.items)) }
{
    let Some(table) = table_at(scene.tables, func_index) else {
        return Ok(None);
    };
    let Some(pixels) = table_window(table, y).columns(left, width) else {
        return Ok(None);
    };
    let pixels = Vec::from_slice(scene.alloc, pixels)?;
    Ok(Some(pixels))
}

/// This many pixels of the Func at a place in a row from a column on, at once where that is less work, and not anew where
/// there is a table of them.
fn pixel_stretch(
    scene: &Scene,
    func_index: usize,
    left: u32,
    y: u32,
    width: usize,
) -> Result<Vec<u32>, AllocError>
    requires tables { AreTables scene.now }
    requires narrow { width < 2 ^ 32 }
    ensures { IfOk result (λ pixels. AreValues width (λ at. plane_of scene.now func_index (word.add left at) y)
        pixels.items) }
{
    if let Some(pixels) = tabled_stretch(scene, func_index, left, y, width)? {
        return Ok(pixels);
    }
    if width >= FEW
        && let Some(func) = func_at(scene.funcs, func_index)
        && let Some(pixels) = pixels_at_once(
            scene,
            func_index,
            func,
            PixelSpan { left, y, width },
        )?
    {
        return Ok(pixels);
    }
    let pixels = pixels_one_by_one(scene, func_index, left, y, width)?;
    Ok(pixels)
}

/// This many pixels of the Func at a place in a row from a column on, a stretch after the other, so that rows of values
/// take little memory.
pub(crate) fn pixel_row(
    scene: &Scene,
    func_index: usize,
    left: u32,
    y: u32,
    width: usize,
) -> Result<Vec<u32>, AllocError>
    requires tables { AreTables scene.now }
    requires narrow { width < 2 ^ 32 }
    ensures { IfOk result (λ pixels. AreValues width (λ at. plane_of scene.now func_index (word.add left at) y)
        pixels.items) }
{
    let mut pixels = Vec::new(scene.alloc);
    for number in 0..width / STRETCH + 1 {
        let from = number * STRETCH;
        let count = (width - from).min(STRETCH);
        let first = words::add(left, from as u32);
        let stretch = pixel_stretch(scene, func_index, first, y, count)?;
        pixels.extend_from_slice(&stretch)?;
    }
    Ok(pixels)
}
