//! What is known of pixels, without computing any.

ghost use Rattle.std.specs.Prelude.{◌≡◌, ◌+◌, ◌<◌, ◌^◌, ℕ, List, IfSome, Some, slice_get, true};
ghost use Rattle.std.specs.Option.{option_copied};
ghost use Rattle.halide_pipeline.specs.Pixel as spec;
ghost use Rattle.picture.specs.inner.Evaluation.{plane_in, plane_of, stage_in, AreBoxes, AreKnownOf, AreSlicesOf};
ghost use Rattle.picture.specs.inner.Evaluation.{AreTables, IsKnown, IsMemo, IsSliceOf, IsTable};
ghost use Rattle.picture.specs.Slices.{is_on};
ghost use Rattle.picture.specs.declared.scenes.Table.{Table};
ghost use Rattle.halide_pipeline.specs.declared.definitions.Func.{Func};
ghost use Rattle.halide_pipeline.specs.Contents.{PictureContents};

use crate::memos::Memo;
use crate::pictures::Picture;
use crate::points::product;
use crate::scenes::{Scene, Slice, Table, UpdatedPixels};
use halide_pipeline::{Func, words};

/// An input's pixel, 0 outside its extents.
pub(crate) fn input_pixel(pictures: &[Picture], input_index: usize, x: u32, y: u32) -> u32
    ensures { result ≡ spec.input_planes pictures.now input_index x y }
{
    match pictures.get(input_index) {
        None => 0,
        Some(picture) => {
            if x < picture.width() && y < picture.height() {
                picture.pixel(x, y)
            } else {
                0
            }
        }
    }
}

/// The Func at a place.
pub(crate) fn func_at(funcs: &[Func], func_index: usize) -> Option<&Func>
    ensures { option_copied result ≡ slice_get funcs.now func_index }
{
    funcs.get(func_index)
}

/// A pixel that a table has.
pub(crate) fn pixel_in(table: &Table, x: u32, y: u32) -> Option<u32>
    ensures { (plane : spec.Plane) → IsTable plane table.now → IfSome result (λ pixel. pixel ≡ plane x y) }
{
    let column = words::subtract(x, table.left);
    let row = words::subtract(y, table.top);
    if column >= table.width || row >= table.height {
        return None;
    }
    let at = product(row, table.pitch) + u64::from(column);
    table.pixels.get(at as usize).copied()
}

/// A pixel that the table of the Func at a place has.
fn tabled(tables: &[Table], func_index: usize, x: u32, y: u32) -> Option<u32>
    ensures { (plane : spec.Plane) → ((table : Table) → slice_get tables.now func_index ≡ Some table
        → IsTable plane table)
        → IfSome result (λ pixel. pixel ≡ plane x y) }
{
    match tables.get(func_index) {
        None => None,
        Some(table) => pixel_in(table, x, y),
    }
}

/// A pixel of the Func at a place that is kept by itself.
fn kept(memo: &Memo, func_index: usize, x: u32, y: u32) -> Option<u32>
    ensures { (funcs : List Func) (pictures : List PictureContents) → IsMemo funcs pictures memo.now
        → IfSome result (λ pixel. pixel ≡ plane_in funcs pictures func_index x y) }
{
    memo.get(func_index, x, y)
}

/// A pixel of the Func at a place, where a table has it or it is kept by itself.
pub(crate) fn known_pixel(scene: &Scene, func_index: usize, x: u32, y: u32) -> Option<u32>
    requires tables { AreTables scene.now }
    ensures { IfSome result (λ pixel. pixel ≡ plane_of scene.now func_index x y) }
{
    match tabled(scene.tables, func_index, x, y) {
        Some(pixel) => Some(pixel),
        None => kept(scene.memo, func_index, x, y),
    }
}

/// The slice with a point, of slices each one further than the one before it.
fn slice_at(slices: &[Slice], x: u32, y: u32) -> Option<&Slice>
    ensures { (funcs : List Func) (pictures : List PictureContents) (own updates : ℕ)
        → AreSlicesOf funcs pictures own updates slices.now
        → IfSome result (λ slice. IsSliceOf funcs pictures own updates slice.now × (is_on slice.now x y ≡ true)) }
{
    let at = match slices.first() {
        None => 0,
        Some(first) => first.steps_to(x, y),
    };
    match slices.get(at as usize) {
        None => None,
        Some(slice) => if slice.is_on(x, y) { Some(slice) } else { None },
    }
}

/// What is known of an update of the Func at a place.
fn known_of(known: &[UpdatedPixels], func_index: usize, updates: usize) -> Option<&UpdatedPixels>
    ensures { (funcs : List Func) (pictures : List PictureContents) → AreKnownOf funcs pictures known.now
        → IfSome result (λ one. IsKnown funcs pictures func_index updates one.now) }
{
    for one in known {
        if one.own == func_index && one.updates == updates {
            return Some(one);
        }
    }
    None
}

/// The slice with a point on which an update has run.
pub(crate) fn known_slice(
    known: &[UpdatedPixels],
    func_index: usize,
    updates: usize,
    x: u32,
    y: u32,
) -> Option<&Slice>
    ensures { (funcs : List Func) (pictures : List PictureContents) → AreKnownOf funcs pictures known.now
        → IfSome result (λ slice. IsSliceOf funcs pictures func_index updates slice.now × (is_on slice.now x y ≡ true)) }
{
    match known_of(known, func_index, updates) {
        None => None,
        Some(one) => slice_at(&one.slices, x, y),
    }
}

/// The box with a point, of boxes each one after the one before it.
pub(crate) fn box_at(boxes: &[Table], x: u32, y: u32) -> Option<&Table>
    ensures { (plane : spec.Plane) → AreBoxes plane boxes.now → IfSome result (λ own. IsTable plane own.now) }
{
    let at = match boxes.first() {
        None => 0,
        Some(first) => first.boxes_to(x, y),
    };
    boxes.get(at as usize)
}

/// The box with a point in which an update has run.
pub(crate) fn known_box(
    known: &[UpdatedPixels],
    func_index: usize,
    updates: usize,
    x: u32,
    y: u32,
) -> Option<&Table>
    ensures { (funcs : List Func) (pictures : List PictureContents) → AreKnownOf funcs pictures known.now
        → IfSome result (λ own_box. IsTable (stage_in funcs pictures func_index (updates + 1)) own_box.now) }
{
    match known_of(known, func_index, updates) {
        None => None,
        Some(one) => box_at(&one.boxes, x, y),
    }
}

/// A pixel of the Func at a place after an update, where that has run in a box.
pub(crate) fn boxed_pixel(
    known: &[UpdatedPixels],
    func_index: usize,
    updates: usize,
    x: u32,
    y: u32,
) -> Option<u32>
    ensures { (funcs : List Func) (pictures : List PictureContents) → AreKnownOf funcs pictures known.now
        → IfSome result (λ pixel. pixel ≡ stage_in funcs pictures func_index (updates + 1) x y) }
{
    match known_box(known, func_index, updates, x, y) {
        None => None,
        Some(own_box) => pixel_in(own_box, x, y),
    }
}

/// Whether an update has run at a point.
pub(crate) fn has_run(
    known: &[UpdatedPixels],
    func_index: usize,
    updates: usize,
    x: u32,
    y: u32,
) -> bool {
    known_slice(known, func_index, updates, x, y).is_some()
        || boxed_pixel(known, func_index, updates, x, y).is_some()
}

/// Whether the last of this many updates has run in boxes.
pub(crate) fn has_boxes(known: &[UpdatedPixels], func_index: usize, updates: usize) -> bool {
    match known_of(known, func_index, updates.saturating_sub(1)) {
        None => false,
        Some(one) => !one.boxes.is_empty(),
    }
}
