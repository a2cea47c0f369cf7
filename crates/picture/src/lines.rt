//! Lines: points one beside the other, at which expressions are computed at once. What each kind of expression makes of
//! the rows of its parts.

ghost use Rattle.std.specs.Prelude.{◌≡◌, ◌==◌, ◌<◌, ◌^◌, ℕ, IfOk, IfSome, cond, length};
ghost use Rattle.halide_pipeline.specs.Pixel as spec;
ghost use Rattle.halide_pipeline.specs.Words as word;
ghost use Rattle.picture.specs.inner.Evaluation.{AreTables, IsTable};
ghost use Rattle.picture.specs.inner.Lines.{is_own, line_point, reads_with, IsLine, IsShared};
ghost use Rattle.picture_rows.specs.Rows.{AreValues, HasLength, IsRow, value_at};

use crate::apart::fetch_apart;
use crate::lookups::pixel_in;
use crate::offsets::offset_below;
use crate::row_reads::{read_row, table_window};
use crate::scenes::{Scene, Table};
use halide_pipeline::{Environment, Operation, Source, Variable, words};
use picture_rows::Row;
use std::alloc::{AllocError, Global};

/// In which way points stand one beside the other.
#[derive(Clone, Copy)]
pub(crate) enum Along {
    /// In a row of the reduction box.
    Reduction,
    /// In a row of pixels.
    Columns,
    /// In a column of pixels.
    Rows,
}

/// What is known of the Func whose definition is computed.
#[derive(Clone, Copy)]
pub(crate) enum KnownPixels<'a> {
    /// Nothing.
    Nothing,
    /// Its pixels along the line.
    Pixels(&'a [u32]),
    /// Its pixels in a box.
    Box(&'a Table),
}

/// Points one beside the other, from this one on.
#[derive(Clone, Copy)]
pub(crate) struct PointLine<'a> {
    pub start: Environment,
    pub along: Along,
    pub width: usize,
    pub own: KnownPixels<'a>,
}

/// What a variable stands for along a line.
pub(crate) fn variable_along(variable: Variable, start: Environment, along: Along) -> Row
    ensures { (width : ℕ) → IsRow width (λ at. spec.variable (line_point along start at) variable) result }
{
    match variable {
        Variable::FirstArgument => match along {
            Along::Columns => Row::Step(start.first_argument),
            _ => Row::Same(start.first_argument),
        },
        Variable::SecondArgument => match along {
            Along::Rows => Row::Step(start.second_argument),
            _ => Row::Same(start.second_argument),
        },
        Variable::FirstReduction => match along {
            Along::Reduction => Row::Step(start.first_reduction),
            _ => Row::Same(start.first_reduction),
        },
        Variable::SecondReduction => Row::Same(start.second_reduction),
    }
}

/// Whether a source is the Func at a place.
pub(crate) fn is_own(func_index: usize, source: Source) -> bool
    ensures { result ≡ is_own func_index source }
{
    match source {
        Source::Input(_) => false,
        Source::Func(source_index) => source_index == func_index,
    }
}

/// Pixels from a point on, read at points, where those are theirs.
fn same_pixels(
    alloc: Global,
    start: Environment,
    before: &[u32],
    x: &Row,
    y: &Row,
) -> Result<Option<Row>, AllocError>
    ensures len { IfOk result (λ found. IfSome found (HasLength (length before.now))) }
    ensures values { (plane : spec.Plane) → AreValues (length before.now)
        (λ at. plane (word.add start.first_argument at) start.second_argument) before.now
        → IfOk result (λ found. IfSome found (IsRow (length before.now)
        (λ at. plane (value_at x.now at) (value_at y.now at)))) }
{
    match (x, y) {
        (Row::Step(column), Row::Same(row)) => {
            if *column != start.first_argument || *row != start.second_argument {
                return Ok(None);
            }
            let values = Vec::from_slice(alloc, before)?;
            Ok(Some(Row::Each(values)))
        }
        _ => Ok(None),
    }
}

/// Pixels of a box at points; none where one of those lies outside.
fn gathered(
    alloc: Global,
    own_box: &Table,
    x: &Row,
    y: &Row,
    width: usize,
) -> Result<Option<Row>, AllocError>
    requires columns { HasLength width x.now }
    requires rows { HasLength width y.now }
    requires narrow { width < 2 ^ 32 }
    ensures { (plane : spec.Plane) → IsTable plane own_box.now → IfOk result (λ found. IfSome found
        (IsRow width (λ at. plane (value_at x.now at) (value_at y.now at)))) }
{
    let mut values = vec![in alloc; 0; width]?;
    for at in 0..width {
        let pixel = pixel_in(own_box, x.value_at(at, width), y.value_at(at, width));
        let Some(pixel) = pixel else {
            return Ok(None);
        };
        values[at] = pixel;
    }
    Ok(Some(Row::Each(values)))
}

/// Pixels of a box in a column, from a row on and down; none where one of those lies outside.
fn column_pixels(
    alloc: Global,
    own_box: &Table,
    column: u32,
    first: u32,
    width: usize,
) -> Result<Option<Vec<u32>>, AllocError>
    requires narrow { width < 2 ^ 32 }
    ensures { (plane : spec.Plane) → IsTable plane own_box.now → IfOk result (λ found. IfSome found
        (λ values. AreValues width (λ at. plane column (word.add first at)) values.items)) }
{
    let Some(from) = offset_below(own_box, column, first, width) else {
        return Ok(None);
    };
    let mut values = vec![in alloc; 0; width]?;
    fetch_apart(&own_box.pixels, from, own_box.pitch as usize, &mut values);
    Ok(Some(values))
}

/// Pixels of a box at points; none where one of those lies outside.
fn box_pixels(
    alloc: Global,
    own_box: &Table,
    x: &Row,
    y: &Row,
    width: usize,
) -> Result<Option<Row>, AllocError>
    requires columns { HasLength width x.now }
    requires rows { HasLength width y.now }
    requires narrow { width < 2 ^ 32 }
    ensures { (plane : spec.Plane) → IsTable plane own_box.now → IfOk result (λ found. IfSome found
        (IsRow width (λ at. plane (value_at x.now at) (value_at y.now at)))) }
{
    match (x, y) {
        (Row::Step(first), Row::Same(row)) => {
            let Some(values) = table_window(own_box, *row).columns(*first, width) else {
                return Ok(None);
            };
            let values = Vec::from_slice(alloc, values)?;
            Ok(Some(Row::Each(values)))
        }
        (Row::Same(column), Row::Step(first)) => {
            let Some(values) = column_pixels(alloc, own_box, *column, *first, width)? else {
                return Ok(None);
            };
            Ok(Some(Row::Each(values)))
        }
        _ => {
            let row = gathered(alloc, own_box, x, y, width)?;
            Ok(row)
        }
    }
}

/// What the own Func has at points, where it is known there.
fn own_read(alloc: Global, line: PointLine, x: &Row, y: &Row) -> Result<Option<Row>, AllocError>
    requires columns { HasLength line.width x.now }
    requires rows { HasLength line.width y.now }
    requires line { IsLine line }
    requires narrow { line.width < 2 ^ 32 }
    ensures { IfOk result (λ found. IfSome found
        (IsShared line.entry (λ plane at. plane (value_at x.now at) (value_at y.now at)))) }
{
    match line.own {
        KnownPixels::Nothing => Ok(None),
        KnownPixels::Pixels(before) => {
            let row = same_pixels(alloc, line.start, before, x, y)?;
            Ok(row)
        }
        KnownPixels::Box(own_box) => {
            let row = box_pixels(alloc, own_box, x, y, line.width)?;
            Ok(row)
        }
    }
}

/// What reads of a source answer along a line; none where they are of the own Func, and that isn't known there.
pub(crate) fn shared_read(
    scene: &Scene,
    func_index: usize,
    line: PointLine,
    source: Source,
    x: Option<Row>,
    y: Option<Row>,
) -> Result<Option<Row>, AllocError>
    requires tables { AreTables scene.now }
    requires columns { IfSome x (HasLength line.width) }
    requires rows { IfSome y (HasLength line.width) }
    requires line { IsLine line }
    requires narrow { line.width < 2 ^ 32 }
    ensures { (columns rows : spec.Plane → ℕ → ℕ) → IfSome x (IsShared line.entry columns)
        → IfSome y (IsShared line.entry rows) → IfOk result (λ found. IfSome found (IsShared line.entry
        (λ plane at. reads_with scene.now func_index plane source (columns plane at) (rows plane at)))) }
{
    let Some(x) = x else {
        return Ok(None);
    };
    let Some(y) = y else {
        return Ok(None);
    };
    if is_own(func_index, source) {
        let row = own_read(scene.alloc, line, &x, &y)?;
        return Ok(row);
    }
    let row = read_row(scene, func_index, source, x, y, line.width)?;
    Ok(Some(row))
}

/// What an operation makes of two sides along a line, where both are known.
pub(crate) fn shared_both(
    alloc: Global,
    line: PointLine,
    operation: Operation,
    a: Option<Row>,
    b: Option<Row>,
) -> Result<Option<Row>, AllocError>
    requires first { IfSome a (HasLength line.width) }
    requires second { IfSome b (HasLength line.width) }
    requires narrow { line.width < 2 ^ 32 }
    ensures { (first second : spec.Plane → ℕ → ℕ) → IfSome a (IsShared line.entry first)
        → IfSome b (IsShared line.entry second) → IfOk result (λ found. IfSome found (IsShared line.entry
        (λ plane at. word.applied operation (first plane at) (second plane at)))) }
{
    let Some(a) = a else {
        return Ok(None);
    };
    let Some(b) = b else {
        return Ok(None);
    };
    let row = a.combined(alloc, operation, b, line.width)?;
    Ok(Some(row))
}

/// Quotients along a line, where the numbers are known.
pub(crate) fn shared_quotients(
    alloc: Global,
    line: PointLine,
    a: Option<Row>,
    divisor: u32,
) -> Result<Option<Row>, AllocError>
    requires first { IfSome a (HasLength line.width) }
    requires narrow { line.width < 2 ^ 32 }
    ensures { (first : spec.Plane → ℕ → ℕ) → IfSome a (IsShared line.entry first) → IfOk result
        (λ found. IfSome found (IsShared line.entry (λ plane at. word.divide (first plane at) divisor))) }
{
    let Some(a) = a else {
        return Ok(None);
    };
    let row = a.divided(alloc, divisor, line.width)?;
    Ok(Some(row))
}

/// Remainders along a line, where the numbers are known.
pub(crate) fn shared_remainders(
    alloc: Global,
    line: PointLine,
    a: Option<Row>,
    divisor: u32,
) -> Result<Option<Row>, AllocError>
    requires first { IfSome a (HasLength line.width) }
    requires narrow { line.width < 2 ^ 32 }
    ensures { (first : spec.Plane → ℕ → ℕ) → IfSome a (IsShared line.entry first) → IfOk result
        (λ found. IfSome found (IsShared line.entry (λ plane at. word.remainder (first plane at) divisor))) }
{
    let Some(a) = a else {
        return Ok(None);
    };
    let row = a.remaining(alloc, divisor, line.width)?;
    Ok(Some(row))
}

/// One of two sides at each point of a line, where both are known and what they are chosen by is.
pub(crate) fn shared_choice(
    alloc: Global,
    line: PointLine,
    condition: Option<Row>,
    a: Option<Row>,
    b: Option<Row>,
) -> Result<Option<Row>, AllocError>
    requires condition { IfSome condition (HasLength line.width) }
    requires first { IfSome a (HasLength line.width) }
    requires second { IfSome b (HasLength line.width) }
    requires narrow { line.width < 2 ^ 32 }
    ensures { (test first second : spec.Plane → ℕ → ℕ) → IfSome condition (IsShared line.entry test)
        → IfSome a (IsShared line.entry first) → IfSome b (IsShared line.entry second) → IfOk result
        (λ found. IfSome found (IsShared line.entry (λ plane at. cond (test plane at == 0) (second plane at)
        (first plane at)))) }
{
    let Some(condition) = condition else {
        return Ok(None);
    };
    let Some(a) = a else {
        return Ok(None);
    };
    let Some(b) = b else {
        return Ok(None);
    };
    let row = a.chosen(alloc, condition, b, line.width)?;
    Ok(Some(row))
}
