//! Stores by the loop variables that aren't known.

ghost use Rattle.std.specs.Prelude.{◌≡◌, IfOk, IfSome};
ghost use Rattle.loop_ir.specs.declared.expressions.Expr.{Expr};
ghost use Rattle.loop_ir.specs.declared.expressions.Expr.TheVariants as expressions;
ghost use Rattle.task_code_statements.specs.Rewriting.{IsBinary, IsLeafSum, IsSameExpr, IsSameStore};

use halide_pipeline::Operation;
use loop_ir::expressions::{Expr, Linear};
use loop_ir::statements::Store;
use sqlite_items::Boxed;
use std::alloc::{AllocError, Global};
use task_code_loops::known::{KnownSum, sum_by_others};
use task_code_loops::sums::{combined, may_combine};
use task_code_values::needs::is_leaf;

/// A number or a sum as a sum.
pub(crate) fn leaf_sum(alloc: Global, e: &Expr) -> Result<Option<Linear>, AllocError>
    ensures { IfOk result (λ found. IfSome found (IsLeafSum e.now)) }
{
    match e {
        Expr::Number(n) => Ok(Some(Linear::of_number(alloc, *n))),
        Expr::Linear(own) => {
            let sum = own.copy(alloc)?;
            Ok(Some(sum))
        }
        _ => Ok(None),
    }
}

/// What an operation makes of a sum and an expression, where that is a sum too, and so is what it makes.
fn sum_with(
    alloc: Global,
    operation: Operation,
    x: Linear,
    b: &Expr,
) -> Result<Option<Linear>, AllocError>
    ensures { IfOk result (λ new_sum. IfSome new_sum (λ sum. (a : Expr) → IsLeafSum a x → IsBinary operation a b.now
        (expressions.Linear sum))) }
{
    match b {
        Expr::Number(n) => {
            let y = Linear::of_number(alloc, *n);
            let new_sum = combined(alloc, operation, x, &y)?;
            Ok(new_sum)
        }
        Expr::Linear(y) => {
            let new_sum = combined(alloc, operation, x, y)?;
            Ok(new_sum)
        }
        _ => Ok(None),
    }
}

/// What an operation makes of two expressions that are sums, where it is a sum. The first one's sum is copied.
pub(crate) fn sum_of_both(
    alloc: Global,
    operation: Operation,
    a: &Expr,
    b: &Expr,
) -> Result<Option<Linear>, AllocError>
    ensures { IfOk result (λ new_sum. IfSome new_sum (λ sum. IsBinary operation a.now b.now (expressions.Linear sum))) }
{
    if !may_combine(operation) || !is_leaf(b) {
        return Ok(None);
    }
    match leaf_sum(alloc, a)? {
        None => Ok(None),
        Some(x) => {
            let new_sum = sum_with(alloc, operation, x, b)?;
            Ok(new_sum)
        }
    }
}

/// What an operation makes of two expressions: a sum where it is one.
fn binary_of(alloc: Global, operation: Operation, a: Expr, b: Expr) -> Result<Expr, AllocError>
    ensures { IfOk result (IsBinary operation a b) }
{
    match sum_of_both(alloc, operation, &a, &b)? {
        Some(sum) => Ok(Expr::Linear(sum)),
        None => {
            let first = Boxed::new(alloc, a)?;
            let second = Boxed::new(alloc, b)?;
            Ok(Expr::Binary(operation, first, second))
        }
    }
}

/// So it is with an expression in a box.
#[cycle(rewriting)]
fn part_by_others(alloc: Global, e: &Expr, known: &[KnownSum]) -> Result<Boxed<Expr>, AllocError>
    ensures { IfOk result (IsSameExpr known.now e.now) }
{
    let made = by_other_variables(alloc, e, known)?;
    let boxed = Boxed::new(alloc, made)?;
    Ok(boxed)
}

/// An expression by other loop variables than the known ones.
///
/// # Errors
///
/// Memory ran out.
#[cycle(rewriting)]
pub fn by_other_variables(alloc: Global, e: &Expr, known: &[KnownSum]) -> Result<Expr, AllocError>
    ensures { IfOk result (IsSameExpr known.now e.now) }
{
    match e {
        Expr::Number(n) => Ok(Expr::Number(*n)),
        Expr::Linear(own) => {
            let sum = sum_by_others(alloc, own, known)?;
            Ok(Expr::Linear(sum))
        }
        Expr::Binary(operation, a, b) => {
            let first = by_other_variables(alloc, a.get(), known)?;
            let second = by_other_variables(alloc, b.get(), known)?;
            let expression = binary_of(alloc, *operation, first, second)?;
            Ok(expression)
        }
        Expr::Divide(a, divisor) => {
            let first = part_by_others(alloc, a.get(), known)?;
            Ok(Expr::Divide(first, *divisor))
        }
        Expr::Remainder(a, divisor) => {
            let first = part_by_others(alloc, a.get(), known)?;
            Ok(Expr::Remainder(first, *divisor))
        }
        Expr::Select(c, a, b) => {
            let condition = part_by_others(alloc, c.get(), known)?;
            let first = part_by_others(alloc, a.get(), known)?;
            let second = part_by_others(alloc, b.get(), known)?;
            Ok(Expr::Select(condition, first, second))
        }
        Expr::Load(source, x, y) => {
            let column = part_by_others(alloc, x.get(), known)?;
            let row = part_by_others(alloc, y.get(), known)?;
            Ok(Expr::Load(*source, column, row))
        }
    }
}

/// A store by other loop variables than the known ones.
///
/// # Errors
///
/// Memory ran out.
pub fn store_by_others(
    alloc: Global,
    store: &Store,
    known: &[KnownSum],
) -> Result<Store, AllocError>
    ensures { IfOk result (IsSameStore known.now store.now) }
{
    let x = by_other_variables(alloc, &store.x, known)?;
    let y = by_other_variables(alloc, &store.y, known)?;
    let value = by_other_variables(alloc, &store.value, known)?;
    Ok(Store {
        func: store.func,
        x,
        y,
        value,
    })
}
