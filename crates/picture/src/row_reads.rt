//! What reads answer along a row.

ghost use Rattle.std.specs.Prelude.{◌≡◌, ◌<◌, ◌^◌, IfOk, Some, length, slice_get, slice_index};
ghost use Rattle.std.specs.Option.{option_copied};
ghost use Rattle.halide_pipeline.specs.Pixel as spec;
ghost use Rattle.halide_pipeline.specs.Words as word;
ghost use Rattle.picture.specs.inner.Evaluation.{earlier_of, reads_in, AreTables, IsTable};
ghost use Rattle.picture.specs.declared.scenes.FuncState.TheVariants as states;
ghost use Rattle.halide_pipeline.specs.declared.expressions.Source.TheVariants as sources;
ghost use Rattle.picture_rows.specs.Rows.{HasLength, IsRow, IsWindow, clamped, value_at};

use crate::lookups::input_pixel;
use crate::pictures::Picture;
use crate::plain::read;
use crate::points::product;
use crate::scenes::{FuncState, Scene, Table};
use halide_pipeline::{Source, words};
use picture_rows::windows::stretch;
use picture_rows::{Clamp, Row, Window};
use std::alloc::AllocError;

/// The row of an input's pixels; nothing of it where the input has none.
fn input_window<'a>(pictures: &'a [Picture], input_index: usize, y: u32) -> Window<'a>
    ensures { IsWindow (λ x. spec.input_planes pictures.now input_index x y) result }
{
    match pictures.get(input_index) {
        None => Window::nothing(),
        Some(picture) => picture_window(picture, y),
    }
}

/// A row of a picture.
fn picture_window<'a>(picture: &'a Picture, y: u32) -> Window<'a>
    ensures { IsWindow (λ x. spec.input_plane (Some picture.now) x y) result }
{
    if y >= picture.height() {
        return Window::nothing();
    }
    let width = picture.width() as usize;
    Window {
        first: 0,
        values: stretch(picture.pixels(), y as usize * width, width),
    }
}

/// A row of a table.
pub(crate) fn table_window<'a>(table: &'a Table, y: u32) -> Window<'a>
    ensures { (plane : spec.Plane) → IsTable plane table.now → IsWindow (λ x. plane x y) result }
{
    let row = words::subtract(y, table.top);
    let from = product(row, table.pitch) as usize;
    let width = table.width as usize;
    if row >= table.height || from + width > table.pixels.len() {
        return Window::nothing();
    }
    Window {
        first: table.left,
        values: stretch(&table.pixels, from, width),
    }
}

/// The table of the Func at a place.
pub(crate) fn table_at<'a>(tables: &'a [Table], func_index: usize) -> Option<&'a Table>
    ensures { option_copied result ≡ slice_get tables.now func_index }
{
    tables.get(func_index)
}

/// What is known of a row of a Func before the one at a place.
fn func_window<'a>(scene: &Scene<'a>, func_index: usize, source_index: usize, y: u32) -> Window<'a>
    requires tables { AreTables scene.now }
    ensures { IsWindow (λ x. earlier_of scene.now func_index source_index x y) result }
{
    if source_index >= func_index {
        return Window::nothing();
    }
    match table_at(scene.tables, source_index) {
        None => Window::nothing(),
        Some(table) => table_window(table, y),
    }
}

/// What is known of a row of a source, in the pure definition of the Func at a place.
fn window<'a>(scene: &Scene<'a>, func_index: usize, source: Source, y: u32) -> Window<'a>
    requires tables { AreTables scene.now }
    ensures { IsWindow (λ x. reads_in scene.now func_index states.Earlier source x y) result }
{
    match source {
        Source::Input(place) => input_window(scene.pictures, place, y),
        Source::Func(place) => func_window(scene, func_index, place, y),
    }
}

/// A pixel of a source in a row of which a window is known.
fn read_column(
    scene: &Scene,
    func_index: usize,
    source: Source,
    window: Window,
    x: u32,
    y: u32,
) -> Result<u32, AllocError>
    requires tables { AreTables scene.now }
    requires known { IsWindow (λ x. reads_in scene.now func_index states.Earlier source x y) window }
    ensures { IfOk result (λ pixel. pixel ≡ reads_in scene.now func_index states.Earlier source x y) }
{
    match window.get(x) {
        Some(pixel) => Ok(pixel),
        None => {
            let pixel = read(scene, func_index, FuncState::Earlier, source, x, y)?;
            Ok(pixel)
        }
    }
}

/// The pixels of a source in one row and in these columns.
fn read_columns(
    scene: &Scene,
    func_index: usize,
    source: Source,
    x: &Row,
    y: u32,
    width: usize,
) -> Result<Row, AllocError>
    requires tables { AreTables scene.now }
    requires columns { HasLength width x.now }
    requires narrow { width < 2 ^ 32 }
    ensures { IfOk result (IsRow width (λ at. reads_in scene.now func_index states.Earlier source (value_at x.now at)
        y)) }
{
    let known = window(scene, func_index, source, y);
    let mut values = vec![in scene.alloc; 0; width]?;
    for at in 0..width {
        let column = x.value_at(at, width);
        values[at] = read_column(scene, func_index, source, known, column, y)?;
    }
    Ok(Row::Each(values))
}

/// The pixels of a source in one row and in these columns, in their place where all are known.
fn read_each(
    scene: &Scene,
    func_index: usize,
    source: Source,
    mut columns: Vec<u32>,
    y: u32,
    width: usize,
) -> Result<Row, AllocError>
    requires tables { AreTables scene.now }
    requires columns { length columns.items ≡ width }
    requires narrow { width < 2 ^ 32 }
    ensures { IfOk result (IsRow width (λ at. reads_in scene.now func_index states.Earlier source
        (slice_index columns.items at) y)) }
{
    let known = window(scene, func_index, source, y);
    if known.covers(&columns) {
        known.fetch(&mut columns);
        return Ok(Row::Each(columns));
    }
    let row = read_columns(scene, func_index, source, &Row::Each(columns), y, width)?;
    Ok(row)
}

/// The pixels of a source in one row and in columns one beside the other.
fn read_stretch(
    scene: &Scene,
    func_index: usize,
    source: Source,
    first: u32,
    y: u32,
    width: usize,
) -> Result<Row, AllocError>
    requires tables { AreTables scene.now }
    requires narrow { width < 2 ^ 32 }
    ensures { IfOk result (IsRow width (λ at. reads_in scene.now func_index states.Earlier source (word.add first at)
        y)) }
{
    if let Some(values) = window(scene, func_index, source, y).columns(first, width) {
        let values = Vec::from_slice(scene.alloc, values)?;
        return Ok(Row::Each(values));
    }
    let row = read_columns(scene, func_index, source, &Row::Step(first), y, width)?;
    Ok(row)
}

/// The pixels of a source in one row and in columns one beside the other that are clamped.
fn read_clamped(
    scene: &Scene,
    func_index: usize,
    source: Source,
    clamp: Clamp,
    y: u32,
    width: usize,
) -> Result<Row, AllocError>
    requires tables { AreTables scene.now }
    requires narrow { width < 2 ^ 32 }
    ensures { IfOk result (IsRow width (λ at. reads_in scene.now func_index states.Earlier source (clamped clamp at) y)) }
{
    let known = window(scene, func_index, source, y);
    if let Some(values) = known.clamped(scene.alloc, clamp, width)? {
        return Ok(Row::Each(values));
    }
    let row = read_columns(scene, func_index, source, &Row::Clamped(clamp), y, width)?;
    Ok(row)
}

/// The pixels of an input at points.
fn read_inputs(
    scene: &Scene,
    func_index: usize,
    source_index: usize,
    x: &Row,
    y: &Row,
    width: usize,
) -> Result<Row, AllocError>
    requires columns { HasLength width x.now }
    requires rows { HasLength width y.now }
    requires narrow { width < 2 ^ 32 }
    ensures { IfOk result (IsRow width (λ at. reads_in scene.now func_index states.Earlier (sources.Input source_index)
        (value_at x.now at) (value_at y.now at))) }
{
    let mut values = vec![in scene.alloc; 0; width]?;
    for at in 0..width {
        let column = x.value_at(at, width);
        let row = y.value_at(at, width);
        values[at] = input_pixel(scene.pictures, source_index, column, row);
    }
    Ok(Row::Each(values))
}

/// The pixels of a source at points.
fn read_points(
    scene: &Scene,
    func_index: usize,
    source: Source,
    x: &Row,
    y: &Row,
    width: usize,
) -> Result<Row, AllocError>
    requires tables { AreTables scene.now }
    requires columns { HasLength width x.now }
    requires rows { HasLength width y.now }
    requires narrow { width < 2 ^ 32 }
    ensures { IfOk result (IsRow width (λ at. reads_in scene.now func_index states.Earlier source (value_at x.now at)
        (value_at y.now at))) }
{
    if let Source::Input(place) = source {
        let row = read_inputs(scene, func_index, place, x, y, width)?;
        return Ok(row);
    }
    let mut values = vec![in scene.alloc; 0; width]?;
    for at in 0..width {
        let column = x.value_at(at, width);
        let row = y.value_at(at, width);
        values[at] = read(scene, func_index, FuncState::Earlier, source, column, row)?;
    }
    Ok(Row::Each(values))
}

/// What reads of a source answer at points one beside the other, in the pure definition of the Func at a place.
pub(crate) fn read_row(
    scene: &Scene,
    func_index: usize,
    source: Source,
    x: Row,
    y: Row,
    width: usize,
) -> Result<Row, AllocError>
    requires tables { AreTables scene.now }
    requires columns { HasLength width x }
    requires rows { HasLength width y }
    requires narrow { width < 2 ^ 32 }
    ensures { IfOk result (IsRow width (λ at. reads_in scene.now func_index states.Earlier source (value_at x at)
        (value_at y at))) }
{
    match (x, y) {
        (Row::Same(x), Row::Same(y)) => {
            let pixel = read(scene, func_index, FuncState::Earlier, source, x, y)?;
            Ok(Row::Same(pixel))
        }
        (Row::Step(first), Row::Same(y)) => {
            let row = read_stretch(scene, func_index, source, first, y, width)?;
            Ok(row)
        }
        (Row::Clamped(clamp), Row::Same(y)) => {
            let row = read_clamped(scene, func_index, source, clamp, y, width)?;
            Ok(row)
        }
        (Row::Each(columns), Row::Same(y)) => {
            let row = read_each(scene, func_index, source, columns, y, width)?;
            Ok(row)
        }
        (x, y) => {
            let row = read_points(scene, func_index, source, &x, &y, width)?;
            Ok(row)
        }
    }
}
