//! Updates on many slices together: in a box whose columns or rows are the slices, each point of the reduction box is
//! run on all of them before the next one is.

ghost use Rattle.std.specs.Prelude.{◌≡◌, ◌+◌, ◌<◌, ◌≤◌, ◌^◌, ℕ, IfOk, IfSome, length, slice_index, true};
ghost use Rattle.halide_pipeline.specs.Pixel as spec;
ghost use Rattle.halide_pipeline.specs.Words as word;
ghost use Rattle.halide_pipeline.specs.declared.environments.Environment.{Environment as EnvironmentState};
ghost use Rattle.picture.specs.inner.Evaluation.{stage_in, ArePixels, AreTables, IsAt, IsPass, IsTable};
ghost use Rattle.picture.specs.inner.Lines.{IsLine};
ghost use Rattle.picture.specs.inner.Together.{after_points, side_length, with_stores, IsSide, IsStoreRow};
ghost use Rattle.picture_rows.specs.Rows.{value_at, HasLength};

use crate::apart::store_apart;
use crate::boxes::TableBounds;
use crate::in_place::{PixelSpan, is_first, is_second, stage_pixels};
use crate::line_values::{index_row, shared_row};
use crate::lines::{Along, KnownPixels, PointLine};
use crate::offsets::{offset_below, offset_beside};
use crate::points::{at_reduction, is_forward, points, product};
use crate::scenes::{Pass, Scene, Table};
use halide_pipeline::{Expr, Update, words};
use picture_rows::Row;
use std::alloc::{AllocError, Global};

/// What the points of a line store, and where.
#[derive(Drop)]
struct StoreRow {
    x: Row,
    y: Row,
    value: Row,
}

/// Whether an index that may be written is the second argument.
fn is_second_index(index: &Option<Expr>) -> bool
    ensures { result ≡ true → (reads : spec.Reads) (point : EnvironmentState) → spec.index_value reads point index.now
        ≡ point.second_argument }
{
    match index {
        None => false,
        Some(index) => is_second(index),
    }
}

/// Along what the slices of an update stand side by side, where it is run on them together: those that hold for each
/// value of one argument.
pub(crate) fn side_of(update: &Update) -> Option<Along>
    ensures { IfSome result (IsSide update.now) }
{
    if !is_forward(update) {
        return None;
    }
    if is_first(&update.left_x) && !update.is_second_in_place() {
        return Some(Along::Columns);
    }
    if is_second_index(&update.left_y) && !update.is_first_in_place() {
        return Some(Along::Rows);
    }
    None
}

/// What the points of a line store; none where they read the own Func outside its box.
fn store_row(scene: &Scene, pass: Pass, line: PointLine) -> Result<Option<StoreRow>, AllocError>
    requires tables { AreTables scene.now }
    requires line { IsLine line }
    requires narrow { line.width < 2 ^ 32 }
    ensures { IfOk result (λ found. IfSome found (IsStoreRow scene.now pass.entry line.entry)) }
{
    let Pass { own, update, .. } = pass;
    let free = PointLine {
        own: KnownPixels::Nothing,
        ..line
    };
    let Some(x) = shared_row(scene, own, free, &update.left_x)? else {
        return Ok(None);
    };
    let Some(y) = index_row(scene, own, free, &update.left_y)? else {
        return Ok(None);
    };
    let Some(value) = shared_row(scene, own, line, &update.right)? else {
        return Ok(None);
    };
    Ok(Some(StoreRow { x, y, value }))
}

/// Stores what the points of a line store, wherever those lie.
fn store_each(row: &StoreRow, width: usize, table: &mut Table)
    requires x { HasLength width row.now.x }
    requires y { HasLength width row.now.y }
    requires value { HasLength width row.now.value }
    requires narrow { width < 2 ^ 32 }
    ensures table { (plane : spec.Plane) → IsTable plane table.old
        → IsTable (with_stores row.now width plane) table.new }
    ensures bounds { IsAt table.old.left table.old.top table.old.width table.old.height table.new }
{
    for at in 0..width {
        let x = row.x.value_at(at, width);
        let y = row.y.value_at(at, width);
        table.put(x, y, row.value.value_at(at, width));
    }
}

/// Stores what the points of a line store, where those lie side by side in a row of pixels.
fn store_beside(
    row: &StoreRow,
    column: u32,
    line: u32,
    values: &[u32],
    width: usize,
    table: &mut Table,
)
    requires columns { (at : ℕ) → value_at row.now.x at ≡ word.add column at }
    requires lines { (at : ℕ) → value_at row.now.y at ≡ line }
    requires values { (at : ℕ) → value_at row.now.value at ≡ slice_index values.now at }
    requires long { length values.now ≡ width }
    requires x { HasLength width row.now.x }
    requires y { HasLength width row.now.y }
    requires value { HasLength width row.now.value }
    requires narrow { width < 2 ^ 32 }
    ensures table { (plane : spec.Plane) → IsTable plane table.old
        → IsTable (with_stores row.now width plane) table.new }
    ensures bounds { IsAt table.old.left table.old.top table.old.width table.old.height table.new }
{
    match offset_beside(table, column, line, width) {
        Some(from) => store_apart(values, from, 1, &mut table.pixels),
        None => store_each(row, width, table),
    }
}

/// Stores what the points of a line store, where those lie one below the other.
fn store_below(
    row: &StoreRow,
    column: u32,
    line: u32,
    values: &[u32],
    width: usize,
    table: &mut Table,
)
    requires columns { (at : ℕ) → value_at row.now.x at ≡ column }
    requires lines { (at : ℕ) → value_at row.now.y at ≡ word.add line at }
    requires values { (at : ℕ) → value_at row.now.value at ≡ slice_index values.now at }
    requires long { length values.now ≡ width }
    requires x { HasLength width row.now.x }
    requires y { HasLength width row.now.y }
    requires value { HasLength width row.now.value }
    requires narrow { width < 2 ^ 32 }
    ensures table { (plane : spec.Plane) → IsTable plane table.old
        → IsTable (with_stores row.now width plane) table.new }
    ensures bounds { IsAt table.old.left table.old.top table.old.width table.old.height table.new }
{
    match offset_below(table, column, line, width) {
        Some(from) => {
            let pitch = table.pitch as usize;
            store_apart(values, from, pitch, &mut table.pixels);
        }
        None => store_each(row, width, table),
    }
}

/// Stores what the points of a line store, one after the other.
fn store_all(row: &StoreRow, width: usize, table: &mut Table)
    requires x { HasLength width row.now.x }
    requires y { HasLength width row.now.y }
    requires value { HasLength width row.now.value }
    requires narrow { width < 2 ^ 32 }
    ensures table { (plane : spec.Plane) → IsTable plane table.old
        → IsTable (with_stores row.now width plane) table.new }
    ensures bounds { IsAt table.old.left table.old.top table.old.width table.old.height table.new }
{
    match (&row.x, &row.y, &row.value) {
        (Row::Step(column), Row::Same(line), Row::Each(values)) => {
            store_beside(row, *column, *line, values, width, table)
        }
        (Row::Same(column), Row::Step(line), Row::Each(values)) => {
            store_below(row, *column, *line, values, width, table)
        }
        _ => store_each(row, width, table),
    }
}

/// How many slices a box has.
fn side_length(along: Along, table: &Table) -> u32
    ensures { result ≡ side_length along table.now }
{
    match along {
        Along::Reduction => table.width,
        Along::Columns => table.width,
        Along::Rows => table.height,
    }
}

/// Runs one point of an update on all slices of a box; answers whether the box has all that it reads of the own Func.
fn run_point(
    scene: &Scene,
    pass: Pass,
    along: Along,
    number: u64,
    table: &mut Table,
) -> Result<bool, AllocError>
    requires tables { AreTables scene.now }
    requires pass { IsPass scene.now pass }
    requires side { IsSide pass.update.now along }
    requires table { IsTable (after_points scene.now pass number) table.old }
    ensures table { IfOk result (λ done. done ≡ true
        → IsTable (after_points scene.now pass.entry (number + 1)) table.new) }
{
    let width = side_length(along, table);
    let line = PointLine {
        start: at_reduction(pass.update, number, table.left, table.top),
        along,
        width: width as usize,
        own: KnownPixels::Box(table),
    };
    let Some(row) = store_row(scene, pass, line)? else {
        return Ok(false);
    };
    store_all(&row, width as usize, table);
    Ok(true)
}

/// Runs an update on all slices of a box; answers whether the box has all that it reads of the own Func.
fn run_points(
    scene: &Scene,
    pass: Pass,
    along: Along,
    table: &mut Table,
) -> Result<bool, AllocError>
    requires tables { AreTables scene.now }
    requires pass { IsPass scene.now pass }
    requires side { IsSide pass.update.now along }
    requires table { IsTable (after_points scene.now pass 0) table.old }
    ensures table { IfOk result (λ done. done ≡ true
        → IsTable (after_points scene.now pass.entry (spec.points pass.entry.update.now)) table.new) }
{
    for number in 0..points(pass.update) {
        if !run_point(scene, pass, along, number, table)? {
            return Ok(false);
        }
    }
    Ok(true)
}

/// How far rows of a box begin one after the other, along this. Where slices are rows a point of the update touches a
/// pixel of each, and those of a whole number of cache lines, an even one, would push each other out of the cache.
fn pitch_of(along: Along, width: u32) -> u32
    ensures { width ≤ result }
{
    match along {
        Along::Rows => if width % 32 == 0 {
            width.saturating_add(16)
        } else {
            width
        },
        _ => width,
    }
}

/// The pixels of a Func in a box, by rows that begin so far one after the other, when an update begins to run.
fn pixels_before(
    scene: &Scene,
    pass: Pass,
    bounds: TableBounds,
    pitch: u32,
) -> Result<Vec<u32>, AllocError>
    requires tables { AreTables scene.now }
    requires pass { IsPass scene.now pass }
    requires pitch { bounds.width ≤ pitch }
    ensures { IfOk result (λ pixels. ArePixels (after_points scene.now pass.entry 0) bounds.left bounds.top bounds.width
        pitch bounds.height pixels.items) }
{
    let TableBounds {
        left,
        top,
        width,
        height,
    } = bounds;
    let gap = vec![in scene.alloc; 0; (pitch - width) as usize]?;
    let mut pixels = Vec::with_capacity(scene.alloc, product(pitch, height) as usize)?;
    for row in 0..height {
        let stretch = PixelSpan {
            left,
            y: words::add(top, row),
            width: width as usize,
        };
        let row = stage_pixels(scene, pass.own, pass.func, pass.updates, stretch)?;
        pixels.extend_from_slice(&row)?;
        pixels.extend_from_slice(&gap)?;
    }
    Ok(pixels)
}

/// The pixels of a Func in a box, when an update begins to run.
fn box_before(
    scene: &Scene,
    pass: Pass,
    along: Along,
    bounds: TableBounds,
) -> Result<Table, AllocError>
    requires tables { AreTables scene.now }
    requires pass { IsPass scene.now pass }
    ensures { IfOk result (IsTable (after_points scene.now pass.entry 0)) }
{
    let pitch = pitch_of(along, bounds.width);
    let pixels = pixels_before(scene, pass, bounds, pitch)?;
    Ok(Table {
        left: bounds.left,
        top: bounds.top,
        width: bounds.width,
        pitch,
        height: bounds.height,
        pixels,
    })
}

/// No pixels.
fn nothing(alloc: Global) -> Table
    ensures { (plane : spec.Plane) → IsTable plane result }
{
    Table {
        left: 0,
        top: 0,
        width: 1,
        pitch: 1,
        height: 0,
        pixels: Vec::new(alloc),
    }
}

/// The pixels of a Func in a box, when an update has run; none where it reads the own Func outside the box.
pub(crate) fn run_box(
    scene: &Scene,
    pass: Pass,
    along: Along,
    bounds: TableBounds,
) -> Result<Table, AllocError>
    requires tables { AreTables scene.now }
    requires pass { IsPass scene.now pass }
    requires side { IsSide pass.update.now along }
    ensures { IfOk result (IsTable (stage_in scene.now.funcs.now scene.now.pictures.now pass.entry.own
        (pass.entry.updates + 1))) }
{
    let mut table = box_before(scene, pass, along, bounds)?;
    if run_points(scene, pass, along, &mut table)? {
        return Ok(table);
    }
    Ok(nothing(scene.alloc))
}
