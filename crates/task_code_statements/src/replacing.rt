//! Stores in which an expression stands for a loop variable.

ghost use Rattle.std.specs.Prelude.{◌≡◌, IfOk};
ghost use Rattle.loop_ir.specs.declared.expressions.Expr.TheVariants as expressions;
ghost use Rattle.task_code_statements.specs.Replacing.{AddsSum, IsReplaced, IsReplacedStore, IsRest, IsTimes};

use halide_pipeline::Operation;
use loop_ir::expressions::{Counter, Expr, Linear};
use loop_ir::statements::Store;
use sqlite_items::Boxed;
use std::alloc::{AllocError, Global};
use task_code_names::copies::copy_of;
use task_code_registers::holding::{at_value, stride_of};
use task_code_registers::scopes::AffineForm;

/// The value of a loop variable, and which one it is.
#[derive(Debug)]
pub struct Replacement {
    pub counter: Counter,
    pub e: Expr,
}

impl Drop for Replacement {
    fn drop(self) {
        let Replacement { counter: _, e } = self;
        drop(e);
    }
}

/// A loop variable's value times a stride.
fn times(alloc: Global, replacement: &Replacement, stride: u32) -> Result<Expr, AllocError>
    ensures { IfOk result (IsTimes replacement.now stride) }
{
    let e = copy_of(alloc, &replacement.e)?;
    if stride == 1 {
        return Ok(e);
    }
    let first = Boxed::new(alloc, e)?;
    let second = Boxed::new(alloc, Expr::Number(stride))?;
    Ok(Expr::Binary(Operation::Multiply, first, second))
}

/// An expression and a sum.
pub(crate) fn plus(alloc: Global, e: Expr, sum: Linear) -> Result<Expr, AllocError>
    ensures { IfOk result (AddsSum e sum) }
{
    if sum.number == 0 && sum.terms.len() == 0 {
        return Ok(e);
    }
    let first = Boxed::new(alloc, e)?;
    let second = Boxed::new(alloc, Expr::Linear(sum))?;
    Ok(Expr::Binary(Operation::Add, first, second))
}

/// What is left of a sum where a loop variable is at 0.
fn without_term(alloc: Global, sum: &Linear, counter: Counter) -> Result<Linear, AllocError>
    ensures { IfOk result (IsRest counter sum.now) }
{
    let own = sum.copy(alloc)?;
    let form = AffineForm {
        sum: own,
        per_hart: 0,
    };
    let made = at_value(alloc, &form, counter, 0)?;
    Ok(made.sum)
}

/// A sum with an expression for a loop variable.
fn sum_with(alloc: Global, sum: &Linear, replacement: &Replacement) -> Result<Expr, AllocError>
    ensures { IfOk result (IsReplaced replacement.now (expressions.Linear sum.now)) }
{
    let stride = stride_of(sum.terms.as_slice(), replacement.counter);
    let rest = without_term(alloc, sum, replacement.counter)?;
    if stride == 0 {
        return Ok(Expr::Linear(rest));
    }
    let product = times(alloc, replacement, stride)?;
    let expression = plus(alloc, product, rest)?;
    Ok(expression)
}

/// So it is with an expression in a box.
#[cycle(replacing)]
fn part_with(alloc: Global, e: &Expr, replacement: &Replacement) -> Result<Boxed<Expr>, AllocError>
    ensures { IfOk result (IsReplaced replacement.now e.now) }
{
    let made = with_standing(alloc, e, replacement)?;
    let boxed = Boxed::new(alloc, made)?;
    Ok(boxed)
}

/// An expression with another one for a loop variable.
#[cycle(replacing)]
fn with_standing(alloc: Global, e: &Expr, replacement: &Replacement) -> Result<Expr, AllocError>
    ensures { IfOk result (IsReplaced replacement.now e.now) }
{
    match e {
        Expr::Number(n) => Ok(Expr::Number(*n)),
        Expr::Linear(sum) => {
            let expression = sum_with(alloc, sum, replacement)?;
            Ok(expression)
        }
        Expr::Binary(operation, a, b) => {
            let first = part_with(alloc, a.get(), replacement)?;
            let second = part_with(alloc, b.get(), replacement)?;
            Ok(Expr::Binary(*operation, first, second))
        }
        Expr::Divide(a, divisor) => {
            let first = part_with(alloc, a.get(), replacement)?;
            Ok(Expr::Divide(first, *divisor))
        }
        Expr::Remainder(a, divisor) => {
            let first = part_with(alloc, a.get(), replacement)?;
            Ok(Expr::Remainder(first, *divisor))
        }
        Expr::Select(c, a, b) => {
            let condition = part_with(alloc, c.get(), replacement)?;
            let first = part_with(alloc, a.get(), replacement)?;
            let second = part_with(alloc, b.get(), replacement)?;
            Ok(Expr::Select(condition, first, second))
        }
        Expr::Load(source, x, y) => {
            let column = part_with(alloc, x.get(), replacement)?;
            let row = part_with(alloc, y.get(), replacement)?;
            Ok(Expr::Load(*source, column, row))
        }
    }
}

/// A store with an expression for a loop variable.
///
/// # Errors
///
/// Memory ran out.
pub fn store_with(
    alloc: Global,
    store: &Store,
    replacement: &Replacement,
) -> Result<Store, AllocError>
    ensures { IfOk result (IsReplacedStore replacement.now store.now) }
{
    let x = with_standing(alloc, &store.x, replacement)?;
    let y = with_standing(alloc, &store.y, replacement)?;
    let value = with_standing(alloc, &store.value, replacement)?;
    Ok(Store {
        func: store.func,
        x,
        y,
        value,
    })
}
