//! What pixels are computed from.

ghost use Rattle.std.specs.Prelude.{◌≡◌, ◌==◌, ◌&&◌, cond};
ghost use Rattle.halide_pipeline.specs.Pixel.{Plane};
ghost use Rattle.picture.specs.Writes.{IsNone};
ghost use Rattle.picture.specs.inner.Evaluation.{IsAt, IsBegun, IsTable};

use crate::keeping::Cost;
use crate::memos::Memo;
use crate::pictures::Picture;
use crate::points::product;
use crate::writes::Writes;
use halide_pipeline::{Func, Update, words};
use std::alloc::Global;

/// The pixels of a Func in a box, by rows.
#[derive(Drop)]
pub(crate) struct Table {
    /// The column of the first pixel, a word.
    pub left: u32,
    /// Its row, a word.
    pub top: u32,
    pub width: u32,
    /// How far after the first pixel of a row the first one of the next row is.
    pub pitch: u32,
    pub height: u32,
    pub pixels: Vec<u32>,
}

impl Table {
    /// How many tables of this size lie between this one and that with a point, where they stand side by side, or one
    /// below the other.
    pub fn boxes_to(&self, x: u32, y: u32) -> u32 {
        let columns = x.wrapping_sub(self.left) / self.width.max(1);
        let rows = y.wrapping_sub(self.top) / self.height.max(1);
        columns.saturating_add(rows)
    }

    /// Puts a pixel in its place, if there is one.
    pub fn put(&mut self, x: u32, y: u32, pixel: u32)
        ensures table { (plane : Plane) → IsTable plane self.old
            → IsTable (λ i j. cond (i == x && j == y) pixel (plane i j)) self.new }
        ensures bounds { IsAt self.old.left self.old.top self.old.width self.old.height self.new }
    {
        let column = words::subtract(x, self.left);
        let row = words::subtract(y, self.top);
        if column >= self.width || row >= self.height {
            return;
        }
        let at = (product(row, self.pitch) + u64::from(column)) as usize;
        if at < self.pixels.len() {
            self.pixels[at] = pixel;
        }
    }
}

/// What an update has written so far where the arguments that stand in place have these values.
#[derive(Drop)]
pub(crate) struct Slice {
    pub x: u32,
    pub y: u32,
    pub is_first_in_place: bool,
    pub is_second_in_place: bool,
    pub writes: Writes,
}

impl Slice {
    ghost use Rattle.picture.specs.Slices.{is_on};

    /// The slice of a point, with no writes.
    pub fn blank(alloc: Global, update: &Update, x: u32, y: u32) -> Slice
        ensures place { IsBegun update.now x y result }
        ensures none { IsNone result.writes }
    {
        Slice {
            x,
            y,
            is_first_in_place: update.is_first_in_place(),
            is_second_in_place: update.is_second_in_place(),
            writes: Writes::new(alloc),
        }
    }

    /// Whether a point is on the slice.
    pub fn is_on(&self, x: u32, y: u32) -> bool
        ensures { result ≡ is_on self.now x y }
    {
        (!self.is_first_in_place || x == self.x) && (!self.is_second_in_place || y == self.y)
    }

    /// How far the slice with a point is from this one, as a word, where one argument is in place.
    pub fn steps_to(&self, x: u32, y: u32) -> u32 {
        if self.is_first_in_place {
            x.wrapping_sub(self.x)
        } else if self.is_second_in_place {
            y.wrapping_sub(self.y)
        } else {
            0
        }
    }
}

/// Where an update of the Func at a place has run, all points of it: on slices, each next one of which is one further
/// in the argument in place, and in boxes, where it has left these pixels.
pub(crate) struct UpdatedPixels {
    pub own: usize,
    pub updates: usize,
    pub slices: Vec<Slice>,
    pub boxes: Vec<Table>,
}

impl Drop for UpdatedPixels {
    fn drop(self) {
        let UpdatedPixels {
            slices,
            boxes,
            own: _,
            updates: _,
        } = self;
        drop(slices);
        drop(boxes);
    }
}

/// The Funcs and inputs, the tables of the first Funcs, what updates have come to, pixels that no table has, and what
/// it costs to read each Func.
#[derive(Clone, Copy)]
pub(crate) struct Scene<'a> {
    pub alloc: Global,
    pub funcs: &'a [Func],
    pub pictures: &'a [Picture],
    pub tables: &'a [Table],
    pub known: &'a [UpdatedPixels],
    pub memo: &'a Memo,
    pub costs: &'a [Cost],
}

/// An update of the Func at a place, after this many others.
#[derive(Clone, Copy)]
pub(crate) struct Pass<'a> {
    pub own: usize,
    pub func: &'a Func,
    pub updates: usize,
    pub update: &'a Update,
}

/// A slice on which the first this many points of an update have run.
#[derive(Clone, Copy)]
pub(crate) struct Progress<'a> {
    pub slice: &'a Slice,
    pub points: u64,
}

/// What reads of its own Func find in a definition.
#[derive(Clone, Copy)]
pub(crate) enum FuncState<'a> {
    /// Nothing: there are none.
    Earlier,
    /// The Func after this many whole updates and this many points of the next one.
    After(usize, u64),
    /// The same, and what was written of a slice.
    Forward(usize, u64, &'a Slice),
}
