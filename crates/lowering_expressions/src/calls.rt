//! Loads of buffers.

ghost use Rattle.std.specs.Prelude.{◌≡◌, ◌≤◌, ◌+◌, ℕ, Bool, List, Option, IfOk, length, max};
ghost use Rattle.std.specs.Option.{option_copied};
ghost use Rattle.halide_pipeline.specs.Words as word;
ghost use Rattle.halide_pipeline.specs.declared.expressions.Expr.TheOpen as layer;
ghost use Rattle.halide_pipeline.specs.Pixel.{Reads};
ghost use Rattle.halide_pipeline.specs.Points.{Point, Seen, Hold};
ghost use Rattle.loop_ir.specs.Counters.{Values};
ghost use Rattle.loop_ir.specs.Expressions.{value, loads, linear_value};
ghost use Rattle.loop_ir.specs.Needs.{leaf, need, need_of};
ghost use Rattle.loop_ir.specs.Sizes.{kept, size, size_of};
ghost use Rattle.lowering_expressions.specs.Lowering as spec;
ghost use Rattle.lowering_expressions.specs.Sizing.{AreShort, IsGiven};
ghost use Rattle.lowering_expressions.specs.inner.Following.{Follows, algebra};
ghost use Rattle.lowering_expressions.specs.inner.Sizing.{IsGivenSecond, call_nodes};

use crate::parts::{new_binary, new_load};
use halide_pipeline::{Operation, Source};
use loop_ir::expressions::{Expr, Linear};
use std::alloc::{AllocError, Global};

/// The point of a Func that is first in its buffer.
#[derive(Debug)]
pub struct Corner {
    pub x: Linear,
    pub y: Linear,
}

impl Drop for Corner {
    fn drop(self) {
        let Corner { x, y } = self;
        drop(x);
        drop(y);
    }
}

/// The corner of a source's buffer; None for inputs, whose buffers begin at 0, 0.
fn corner_of<'a>(corners: &'a [Corner], source: Source) -> Option<&'a Corner>
    ensures { option_copied result ≡ spec.corner_of corners.now source }
{
    match source {
        Source::Input(_) => None,
        Source::Func(place) => corners.get(place),
    }
}

/// A coordinate, counted from a corner.
///
/// # Errors
///
/// Memory ran out.
pub fn counted_from(alloc: Global, coordinate: Expr, corner: &Linear) -> Result<Expr, AllocError>
    ensures value { IfOk result (λ expression. (reads : Reads) (values : Values)
        → value reads values expression ≡ word.subtract (value reads values coordinate)
        (linear_value values corner.now)) }
    ensures loads { IfOk result (λ expression. (reads : Reads) (values : Values) (test : Point → Bool)
        → Hold test (loads reads values coordinate) → Hold test (loads reads values expression)) }
    ensures needs { IfOk result (λ expression. need expression ≡ need coordinate) }
    ensures leaf { IfOk result (λ expression. (n : ℕ) → coordinate ≡ Expr.Number n → need_of expression ≡ leaf) }
    ensures sizes { IfOk result (λ expression. length corner.now.terms ≤ 5 → size expression ≤ size coordinate + 26) }
    ensures numbers { IfOk result (λ expression. length corner.now.terms ≤ 5 → (n : ℕ) → coordinate ≡ Expr.Number n
        → (kept (size_of expression) ≡ 0) × (size expression ≤ 22)) }
{
    match &coordinate {
        Expr::Number(number) => {
            let expression = Linear::of_number(alloc, *number).minus(corner)?;
            Ok(Expr::Linear(expression))
        }
        Expr::Linear(own) => {
            let sum = own.copy(alloc)?;
            let expression = sum.minus(corner)?;
            Ok(Expr::Linear(expression))
        }
        _ => {
            let begin = corner.copy(alloc)?;
            let expression = new_binary(
                alloc,
                Operation::Subtract,
                coordinate,
                Expr::Linear(begin),
            )?;
            Ok(expression)
        }
    }
}

/// What the buffer of a source holds at a point of it.
pub(crate) fn load(
    alloc: Global,
    corners: &[Corner],
    source: Source,
    x: Expr,
    y: Expr,
) -> Result<Expr, AllocError>
    ensures follows { IfOk result (λ expression. (values : Values) (reads : Reads) (given : List Point)
        (left right : Seen)
        → Follows corners.now values reads given x left → Follows corners.now values reads given y right
        → Follows corners.now values reads given expression ((algebra corners.now values reads).level
        (layer.Call2 source left right))) }
    ensures needs { IfOk result (λ expression. need expression ≤ max (need x) (1 + need y)) }
    ensures alone { IfOk result (λ expression. (n : ℕ) → y ≡ Expr.Number n → need expression ≤ need x) }
    ensures sizes { IfOk result (λ expression. AreShort corners.now → (left : ℕ) (right : Option ℕ)
        → IsGiven (size x) left
        → IsGivenSecond y right → IsGiven (size expression) (call_nodes left right)) }
{
    match corner_of(corners, source) {
        None => {
            let expression = new_load(alloc, source, x, y)?;
            Ok(expression)
        }
        Some(corner) => {
            let x = counted_from(alloc, x, &corner.x)?;
            let y = counted_from(alloc, y, &corner.y)?;
            let expression = new_load(alloc, source, x, y)?;
            Ok(expression)
        }
    }
}
