//! Stores by the loop variables that aren't known, without clamps that cut nothing off: in one pass.

ghost use Rattle.std.specs.Prelude.{IfOk};
ghost use Rattle.loop_ir.specs.declared.expressions.Expr.{Expr};
ghost use Rattle.loop_ir.specs.declared.expressions.Expr.TheVariants as expressions;
ghost use Rattle.task_code_clamps.specs.Clamps.{IsRanged};
ghost use Rattle.task_code_scalar.specs.declared.layouts.Places.{Places};
ghost use Rattle.task_code_statements.specs.Making.{IsUnclamped, IsUnclampedIn, IsUnclampedStore};

use crate::rewriting::sum_of_both;
use halide_pipeline::Operation;
use loop_ir::expressions::Expr;
use loop_ir::statements::Store;
use sqlite_items::Boxed;
use std::alloc::{AllocError, Global};
use task_code_clamps::clamps::{Ranged, anywhere, of_both, of_linear, of_load, of_number};
use task_code_loops::bounds::Bound;
use task_code_loops::known::{KnownSum, sum_by_others};
use task_code_scalar::layouts::Places;

/// What an operation makes of two expressions without such clamps: a sum where both are sums and it is one.
fn unclamped_binary(
    alloc: Global,
    bounds: &[Bound],
    operation: Operation,
    a: Ranged,
    b: Ranged,
    may_be_tests: bool,
) -> Result<Ranged, AllocError>
    ensures { IfOk result (λ new_ranged. (places : Places) (x y : Expr) → IsRanged places bounds.now x a
        → IsRanged places bounds.now y b → IsRanged places bounds.now (expressions.Binary operation x y) new_ranged) }
{
    match sum_of_both(alloc, operation, &a.e, &b.e)? {
        Some(sum) => Ok(of_linear(sum, bounds)),
        None => {
            let new_ranged = of_both(alloc, operation, a, b, may_be_tests)?;
            Ok(new_ranged)
        }
    }
}

/// An expression as `unclamped` makes it, in a box; its range is not asked for.
#[cycle(unclamping)]
fn unclamped_part(
    alloc: Global,
    places: &Places,
    known: &[KnownSum],
    bounds: &[Bound],
    may_be_tests: bool,
    e: &Expr,
) -> Result<Boxed<Expr>, AllocError>
    ensures { IfOk result (IsUnclamped places.now known.now bounds.now e.now) }
{
    let made = unclamped(alloc, places, known, bounds, may_be_tests, e)?;
    let boxed = Boxed::new(alloc, made.e)?;
    Ok(boxed)
}

/// An expression by other loop variables than the known ones, without clamps that cut nothing off, and between which
/// numbers its value lies, where loop variables stay below these bounds.
#[cycle(unclamping)]
fn unclamped(
    alloc: Global,
    places: &Places,
    known: &[KnownSum],
    bounds: &[Bound],
    may_be_tests: bool,
    e: &Expr,
) -> Result<Ranged, AllocError>
    ensures { IfOk result (IsUnclampedIn places.now known.now bounds.now e.now) }
{
    match e {
        Expr::Number(n) => Ok(of_number(*n)),
        Expr::Linear(own) => {
            let sum = sum_by_others(alloc, own, known)?;
            Ok(of_linear(sum, bounds))
        }
        Expr::Binary(operation, a, b) => {
            let first = unclamped(alloc, places, known, bounds, may_be_tests, a.get())?;
            let second = unclamped(alloc, places, known, bounds, may_be_tests, b.get())?;
            let new_ranged = unclamped_binary(
                alloc,
                bounds,
                *operation,
                first,
                second,
                may_be_tests,
            )?;
            Ok(new_ranged)
        }
        Expr::Divide(a, divisor) => {
            let first = unclamped_part(alloc, places, known, bounds, may_be_tests, a.get())?;
            Ok(anywhere(Expr::Divide(first, *divisor)))
        }
        Expr::Remainder(a, divisor) => {
            let first = unclamped_part(alloc, places, known, bounds, may_be_tests, a.get())?;
            Ok(anywhere(Expr::Remainder(first, *divisor)))
        }
        Expr::Select(c, a, b) => {
            let condition = unclamped_part(alloc, places, known, bounds, may_be_tests, c.get())?;
            let first = unclamped_part(alloc, places, known, bounds, may_be_tests, a.get())?;
            let second = unclamped_part(alloc, places, known, bounds, may_be_tests, b.get())?;
            Ok(anywhere(Expr::Select(condition, first, second)))
        }
        Expr::Load(source, x, y) => {
            let column = unclamped_part(alloc, places, known, bounds, may_be_tests, x.get())?;
            let row = unclamped_part(alloc, places, known, bounds, may_be_tests, y.get())?;
            Ok(of_load(places, *source, column, row))
        }
    }
}

/// A store by other loop variables than the known ones, without clamps that cut nothing off.
///
/// # Errors
///
/// Memory ran out.
pub fn unclamped_store(
    alloc: Global,
    places: &Places,
    known: &[KnownSum],
    bounds: &[Bound],
    may_be_tests: bool,
    store: &Store,
) -> Result<Store, AllocError>
    ensures { IfOk result (IsUnclampedStore places.now known.now bounds.now store.now) }
{
    let x = unclamped(alloc, places, known, bounds, may_be_tests, &store.x)?;
    let y = unclamped(alloc, places, known, bounds, may_be_tests, &store.y)?;
    let value = unclamped(alloc, places, known, bounds, may_be_tests, &store.value)?;
    Ok(Store {
        func: store.func,
        x: x.e,
        y: y.e,
        value: value.e,
    })
}
