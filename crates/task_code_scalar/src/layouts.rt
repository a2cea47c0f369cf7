//! Where buffers lie in memory.

ghost use Rattle.std.specs.Prelude.{◌≡◌, slice_index_or};
ghost use Rattle.task_code_scalar.specs.Code as spec;

use halide_pipeline::Source;
use sqlite_items::Items;

/// How a buffer holds its pixels.
#[derive(Clone, Copy, Debug, PartialEq, Eq)]
pub enum Pixels {
    /// Four bytes a pixel, the lowest first.
    Words,
    /// One byte a pixel.
    Bytes,
}

/// Where a buffer lies. Pixels lie by rows, each row from the left, without gaps.
#[derive(Clone, Copy, Debug, PartialEq, Eq)]
pub struct BufferLayout {
    /// The address of its first pixel; of a private buffer, in hart 0's copy.
    pub start: u32,
    /// How many pixels a row has.
    pub width: u32,
    /// How many bytes each next hart's copy lies further; 0 where all harts share one.
    pub distance: u32,
    pub pixels: Pixels,
}

/// Where all buffers lie, in the pipeline's order.
#[derive(Debug)]
pub struct Places {
    pub inputs: Items<BufferLayout>,
    pub funcs: Items<BufferLayout>,
    /// The address of hart 0's frame, where there are frames: each hart has 4,096 bytes, one after the
    /// other.
    pub frames: Option<u32>,
}

impl Drop for Places {
    fn drop(self) {
        let Places {
            inputs,
            funcs,
            frames: _,
        } = self;
        drop(inputs);
        drop(funcs);
    }
}

fn place_in(places: &[BufferLayout], number: usize) -> BufferLayout
    ensures { result ≡ slice_index_or places.now number spec.nowhere }
{
    match places.get(number) {
        Some(place) => *place,
        None => BufferLayout {
            start: 0,
            width: 0,
            distance: 0,
            pixels: Pixels::Words,
        },
    }
}

/// Where a source's buffer lies.
pub fn place_of(places: &Places, source: Source) -> BufferLayout
    ensures { result ≡ spec.place_of places.now source }
{
    match source {
        Source::Input(number) => place_in(places.inputs.as_slice(), number),
        Source::Func(number) => place_in(places.funcs.as_slice(), number),
    }
}
