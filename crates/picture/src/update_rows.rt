//! Updates, run along the rows of their reduction boxes: what doesn't read the own Func is computed for all points of a
//! row at once, and the points then store one after the other.

ghost use Rattle.std.specs.Prelude.{◌≡◌, ◌<◌, ◌^◌, IfOk, IfSome};
ghost use Rattle.halide_pipeline.specs.Pixel as spec;
ghost use Rattle.halide_pipeline.specs.Words as word;
ghost use Rattle.picture.specs.inner.Evaluation.{AreTables};
ghost use Rattle.picture.specs.inner.Lines.{reads_with, reduction_line, row_point, IsShared};
ghost use Rattle.picture.specs.inner.UpdateRows.{AreIndices, IsRight, IsUpdateRow};
ghost use Rattle.picture_rows.specs.Rows.{HasLength, value_at};

use crate::line_values::{index_row, shared_row};
use crate::lines::{Along, KnownPixels, PointLine, is_own};
use crate::scenes::Scene;
use halide_pipeline::{Environment, Expr, Operation, Update};
use picture_rows::Row;
use std::alloc::AllocError;

/// A row of fewer points is run point by point.
const FEW: usize = 8;

/// The points at which an update reads its own Func along a row.
pub(crate) struct Indices {
    pub x: Row,
    pub y: Row,
}

impl Drop for Indices {
    fn drop(self) {
        let Indices { x, y } = self;
        drop(x);
        drop(y);
    }
}

/// The right side of an update along a row: what doesn't read the own Func, or an operation of that and one read.
pub(crate) enum Right {
    Alone(Row),
    First(Operation, Indices, Row),
    Second(Operation, Row, Indices),
}

impl Drop for Right {
    fn drop(self) {
        match self {
            Right::Alone(row) => drop(row),
            Right::First(_, indices, row) => {
                drop(indices);
                drop(row);
            }
            Right::Second(_, row, indices) => {
                drop(row);
                drop(indices);
            }
        }
    }
}

/// An update along a row of its reduction box.
pub(crate) struct UpdateRow {
    pub left_x: Row,
    pub left_y: Row,
    pub right: Right,
}

impl Drop for UpdateRow {
    fn drop(self) {
        let UpdateRow {
            left_x,
            left_y,
            right,
        } = self;
        drop(left_x);
        drop(left_y);
        drop(right);
    }
}

impl Indices {
    /// The point that is read at a place.
    pub fn point(&self, at: usize, width: usize) -> (u32, u32)
        requires x { HasLength width self.now.x }
        requires y { HasLength width self.now.y }
        requires within { at < width }
        requires narrow { width < 2 ^ 32 }
        ensures x { result.0 ≡ value_at self.now.x at }
        ensures y { result.1 ≡ value_at self.now.y at }
    {
        (self.x.value_at(at, width), self.y.value_at(at, width))
    }
}

/// The values of an expression along a row of the reduction box; none where it reads the own Func.
fn reduced_row(
    scene: &Scene,
    func_index: usize,
    start: &Environment,
    width: usize,
    expr: &Expr,
) -> Result<Option<Row>, AllocError>
    requires tables { AreTables scene.now }
    requires narrow { width < 2 ^ 32 }
    ensures { IfOk result (λ found. IfSome found (IsShared (reduction_line width start.now)
        (λ plane at. spec.value (reads_with scene.now func_index plane) (row_point start.now at) expr.now))) }
{
    let line = PointLine {
        start: *start,
        along: Along::Reduction,
        width,
        own: KnownPixels::Nothing,
    };
    let row = shared_row(scene, func_index, line, expr)?;
    Ok(row)
}

/// The points of a read of the own Func along a row, where an expression is one.
#[tactic(auto, unfolding(halide_pipeline::specs::Pixel::value))]
fn own_indices(
    scene: &Scene,
    func_index: usize,
    start: &Environment,
    width: usize,
    expr: &Expr,
) -> Result<Option<Indices>, AllocError>
    requires tables { AreTables scene.now }
    requires narrow { width < 2 ^ 32 }
    ensures { IfOk result (λ found. IfSome found
        (AreIndices width (λ plane at. spec.value (reads_with scene.now func_index plane) (row_point start.now at)
        expr.now))) }
{
    match expr {
        Expr::Call1(source, x) => {
            if !is_own(func_index, *source) {
                return Ok(None);
            }
            let Some(x) = reduced_row(scene, func_index, start, width, x.get())? else {
                return Ok(None);
            };
            Ok(Some(Indices { x, y: Row::Same(0) }))
        }
        Expr::Call2(source, x, y) => {
            if !is_own(func_index, *source) {
                return Ok(None);
            }
            let Some(x) = reduced_row(scene, func_index, start, width, x.get())? else {
                return Ok(None);
            };
            let Some(y) = reduced_row(scene, func_index, start, width, y.get())? else {
                return Ok(None);
            };
            Ok(Some(Indices { x, y }))
        }
        _ => Ok(None),
    }
}

/// An operation with its two sides.
#[derive(Clone, Copy)]
struct Sides<'a> {
    operation: Operation,
    a: &'a Expr,
    b: &'a Expr,
}

/// An operation of a read of the own Func and of what doesn't read it, along a row.
fn first_of(
    scene: &Scene,
    func_index: usize,
    start: &Environment,
    width: usize,
    sides: &Sides<'_>,
) -> Result<Option<Right>, AllocError>
    requires tables { AreTables scene.now }
    requires narrow { width < 2 ^ 32 }
    ensures { IfOk result (λ found. IfSome found
        (IsRight width (λ plane at. word.applied sides.now.operation (spec.value (reads_with scene.now func_index plane)
        (row_point start.now at) sides.now.a.now) (spec.value (reads_with scene.now func_index plane)
        (row_point start.now at)
        sides.now.b.now)))) }
{
    let Some(indices) = own_indices(scene, func_index, start, width, sides.a)? else {
        return Ok(None);
    };
    let Some(row) = reduced_row(scene, func_index, start, width, sides.b)? else {
        return Ok(None);
    };
    Ok(Some(Right::First(sides.operation, indices, row)))
}

/// The same the other way round.
fn second_of(
    scene: &Scene,
    func_index: usize,
    start: &Environment,
    width: usize,
    sides: &Sides<'_>,
) -> Result<Option<Right>, AllocError>
    requires tables { AreTables scene.now }
    requires narrow { width < 2 ^ 32 }
    ensures { IfOk result (λ found. IfSome found
        (IsRight width (λ plane at. word.applied sides.now.operation (spec.value (reads_with scene.now func_index plane)
        (row_point start.now at) sides.now.a.now) (spec.value (reads_with scene.now func_index plane)
        (row_point start.now at)
        sides.now.b.now)))) }
{
    let Some(indices) = own_indices(scene, func_index, start, width, sides.b)? else {
        return Ok(None);
    };
    let Some(row) = reduced_row(scene, func_index, start, width, sides.a)? else {
        return Ok(None);
    };
    Ok(Some(Right::Second(sides.operation, row, indices)))
}

/// An operation along a row, where at most one side reads the own Func, and that at once.
fn two_of(
    scene: &Scene,
    func_index: usize,
    start: &Environment,
    width: usize,
    sides: &Sides<'_>,
) -> Result<Option<Right>, AllocError>
    requires tables { AreTables scene.now }
    requires narrow { width < 2 ^ 32 }
    ensures { IfOk result (λ found. IfSome found
        (IsRight width (λ plane at. word.applied sides.now.operation (spec.value (reads_with scene.now func_index plane)
        (row_point start.now at) sides.now.a.now) (spec.value (reads_with scene.now func_index plane)
        (row_point start.now at)
        sides.now.b.now)))) }
{
    if let Some(right) = first_of(scene, func_index, start, width, sides)? {
        return Ok(Some(right));
    }
    let right = second_of(scene, func_index, start, width, sides)?;
    Ok(right)
}

/// The operation that an expression is along a row, if it is one of [`two_of`].
#[tactic(auto, unfolding(halide_pipeline::specs::Pixel::value))]
fn operation_of(
    scene: &Scene,
    func_index: usize,
    start: &Environment,
    width: usize,
    expr: &Expr,
) -> Result<Option<Right>, AllocError>
    requires tables { AreTables scene.now }
    requires narrow { width < 2 ^ 32 }
    ensures { IfOk result (λ found. IfSome found (IsRight width
        (λ plane at. spec.value (reads_with scene.now func_index plane)
        (row_point start.now at) expr.now))) }
{
    match expr {
        Expr::Binary(operation, a, b) => {
            let sides = Sides {
                operation: *operation,
                a: a.get(),
                b: b.get(),
            };
            let right = two_of(scene, func_index, start, width, &sides)?;
            Ok(right)
        }
        _ => Ok(None),
    }
}

/// The right side of an update along a row, where it reads the own Func in such a way.
fn right_of(
    scene: &Scene,
    func_index: usize,
    start: &Environment,
    width: usize,
    expr: &Expr,
) -> Result<Option<Right>, AllocError>
    requires tables { AreTables scene.now }
    requires narrow { width < 2 ^ 32 }
    ensures { IfOk result (λ found. IfSome found (IsRight width
        (λ plane at. spec.value (reads_with scene.now func_index plane)
        (row_point start.now at) expr.now))) }
{
    if let Some(right) = operation_of(scene, func_index, start, width, expr)? {
        return Ok(Some(right));
    }
    let Some(row) = reduced_row(scene, func_index, start, width, expr)? else {
        return Ok(None);
    };
    Ok(Some(Right::Alone(row)))
}

/// An update along a row, where that is long and its right side one of [`right_of`].
pub(crate) fn update_row(
    scene: &Scene,
    func_index: usize,
    start: &Environment,
    width: usize,
    update: &Update,
) -> Result<Option<UpdateRow>, AllocError>
    requires tables { AreTables scene.now }
    requires narrow { width < 2 ^ 32 }
    ensures { IfOk result (λ found. IfSome found (IsUpdateRow scene.now func_index width start.now update.now)) }
{
    if width < FEW {
        return Ok(None);
    }
    let Some(left_x) = reduced_row(scene, func_index, start, width, &update.left_x)? else {
        return Ok(None);
    };
    let line = PointLine {
        start: *start,
        along: Along::Reduction,
        width,
        own: KnownPixels::Nothing,
    };
    let Some(left_y) = index_row(scene, func_index, line, &update.left_y)? else {
        return Ok(None);
    };
    let Some(right) = right_of(scene, func_index, start, width, &update.right)? else {
        return Ok(None);
    };
    Ok(Some(UpdateRow {
        left_x,
        left_y,
        right,
    }))
}
