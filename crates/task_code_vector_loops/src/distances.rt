//! How far points lie after a buffer's first pixel, as expressions.

ghost use Rattle.std.specs.Prelude.{IfOk};
ghost use Rattle.task_code_vector_loops.specs.inner.Far.{IsDistance, IsProduct};

use halide_pipeline::Operation;
use loop_ir::expressions::Expr;
use sqlite_items::Boxed;
use std::alloc::{AllocError, Global};
use task_code_lane_values::values::BufferPoint;
use task_code_names::copies::copy_of;
use task_code_values::accesses::bytes_of;

/// The product of an expression and a number.
fn product(alloc: Global, e: Expr, number: u32) -> Result<Expr, AllocError>
    ensures { IfOk result (IsProduct e number) }
{
    let first = Boxed::new(alloc, e)?;
    let second = Boxed::new(alloc, Expr::Number(number))?;
    Ok(Expr::Binary(Operation::Multiply, first, second))
}

/// How many bytes a point lies after its buffer's first pixel, modulo 2^32.
///
/// # Errors
///
/// Memory ran out.
pub(crate) fn distance_of(alloc: Global, point: &BufferPoint<'_>) -> Result<Expr, AllocError>
    ensures { IfOk result (IsDistance point.now.place.now point.now.x.now point.now.y.now) }
{
    let row = copy_of(alloc, point.y)?;
    let before = product(alloc, row, point.place.width)?;
    let second = Boxed::new(alloc, before)?;
    let column = copy_of(alloc, point.x)?;
    let first = Boxed::new(alloc, column)?;
    let pixels = Expr::Binary(Operation::Add, first, second);
    let expression = product(alloc, pixels, bytes_of(point.place.pixels))?;
    Ok(expression)
}
