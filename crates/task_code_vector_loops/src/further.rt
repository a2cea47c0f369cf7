//! Expressions whose loop variable is further by the value of another one.

ghost use Rattle.std.specs.Prelude.{IfOk};
ghost use Rattle.task_code_vector_loops.specs.inner.Going.{IsFurther, IsFurtherSum};

use crate::terms::has_term;
use loop_ir::expressions::{Counter, Expr, Linear, Term};
use sqlite_items::Boxed;
use std::alloc::Global;
use task_code_registers::holding::stride_of;
use task_code_scalar::CodeFault;

/// A loop variable, and another one, by whose value it is further.
#[derive(Clone, Copy, Debug)]
pub struct Further {
    pub counter: Counter,
    pub by: Counter,
}

/// A sum where the loop variable is further by the value of the other one, of which it has no term.
fn sum_further(alloc: Global, sum: &Linear, own_further: Further) -> Result<Linear, CodeFault>
    ensures { IfOk result (IsFurtherSum own_further sum.now) }
{
    if has_term(sum.terms.as_slice(), own_further.by) {
        return Err(CodeFault::TooDeep);
    }
    let stride = stride_of(sum.terms.as_slice(), own_further.counter);
    let mut new_sum = sum.copy(alloc)?;
    if stride == 0 {
        return Ok(new_sum);
    }
    new_sum.terms.push(Term {
        counter: own_further.by,
        stride,
    })?;
    Ok(new_sum)
}

/// The same of an operand.
#[cycle(further)]
fn operand_further(alloc: Global, e: &Expr, own_further: Further) -> Result<Boxed<Expr>, CodeFault>
    ensures { IfOk result (IsFurther own_further e.now) }
{
    let made = further_on(alloc, e, own_further)?;
    let boxed = Boxed::new(alloc, made)?;
    Ok(boxed)
}

/// An expression where a loop variable is further by the value of another one.
///
/// # Errors
///
/// Memory ran out, or the expression has the other variable.
#[cycle(further)]
pub(crate) fn further_on(alloc: Global, e: &Expr, own_further: Further) -> Result<Expr, CodeFault>
    ensures { IfOk result (IsFurther own_further e.now) }
{
    match e {
        Expr::Number(n) => Ok(Expr::Number(*n)),
        Expr::Linear(sum) => {
            let made = sum_further(alloc, sum, own_further)?;
            Ok(Expr::Linear(made))
        }
        Expr::Binary(operation, a, b) => {
            let first = operand_further(alloc, a.get(), own_further)?;
            let second = operand_further(alloc, b.get(), own_further)?;
            Ok(Expr::Binary(*operation, first, second))
        }
        Expr::Divide(a, divisor) => {
            let first = operand_further(alloc, a.get(), own_further)?;
            Ok(Expr::Divide(first, *divisor))
        }
        Expr::Remainder(a, divisor) => {
            let first = operand_further(alloc, a.get(), own_further)?;
            Ok(Expr::Remainder(first, *divisor))
        }
        Expr::Select(c, a, b) => {
            let condition = operand_further(alloc, c.get(), own_further)?;
            let first = operand_further(alloc, a.get(), own_further)?;
            let second = operand_further(alloc, b.get(), own_further)?;
            Ok(Expr::Select(condition, first, second))
        }
        Expr::Load(source, x, y) => {
            let column = operand_further(alloc, x.get(), own_further)?;
            let row = operand_further(alloc, y.get(), own_further)?;
            Ok(Expr::Load(*source, column, row))
        }
    }
}
