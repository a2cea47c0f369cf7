//! The lesser of a sum and a number as an expression.

ghost use Rattle.std.specs.Prelude.{IfOk, IfSome};
ghost use Rattle.halide_pipeline.specs.declared.expressions.Operation.TheVariants.{Minimum};
ghost use Rattle.loop_ir.specs.declared.expressions.Expr.TheVariants as expressions;
ghost use Rattle.task_code_statements.specs.Lessers.{IsLesser, StaysBelow};

use crate::rewriting::leaf_sum;
use halide_pipeline::Operation;
use loop_ir::expressions::{Expr, Linear};
use sqlite_items::Boxed;
use std::alloc::{AllocError, Global};
use task_code_loops::bounds::{Bound, is_below};
use task_code_registers::scopes::AffineForm;

/// The least number that is negative as one with a sign.
pub const NEGATIVE: u32 = 1 << 31;

/// A sum as a form, and a number.
#[derive(Drop)]
struct Lesser {
    form: AffineForm,
    number: u32,
}

/// The lesser of a sum and a number, as numbers with a sign.
pub fn lesser_of(alloc: Global, sum: Linear, number: u32) -> Result<Expr, AllocError>
    ensures { IfOk result (IsLesser sum number) }
{
    let first = Boxed::new(alloc, Expr::Linear(sum))?;
    let second = Boxed::new(alloc, Expr::Number(number))?;
    Ok(Expr::Binary(Operation::Minimum, first, second))
}

/// What the lesser of two expressions is the lesser of, where they are a sum and a number.
fn lesser_of_both(alloc: Global, a: &Expr, b: &Expr) -> Result<Option<Lesser>, AllocError>
    ensures { IfOk result (λ found. IfSome found (λ own. IsLesser own.form.sum own.number
        (expressions.Binary Minimum a.now b.now))) }
{
    match b {
        Expr::Number(n) => match leaf_sum(alloc, a)? {
            None => Ok(None),
            Some(sum) => Ok(Some(Lesser {
                form: AffineForm { sum, per_hart: 0 },
                number: *n,
            })),
        },
        _ => Ok(None),
    }
}

/// The sum and the number that an expression is the lesser of.
fn parts_of(alloc: Global, e: &Expr) -> Result<Option<Lesser>, AllocError>
    ensures { IfOk result (λ found_lesser. IfSome found_lesser (λ own. IsLesser own.form.sum own.number e.now)) }
{
    match e {
        Expr::Binary(operation, a, b) => match operation {
            Operation::Minimum => {
                let found_lesser = lesser_of_both(alloc, a.get(), b.get())?;
                Ok(found_lesser)
            }
            _ => Ok(None),
        },
        _ => Ok(None),
    }
}

/// A number below which an expression stays, if one is known: of the lesser of a sum and a number, neither of them
/// negative.
pub fn count_below(alloc: Global, bounds: &[Bound], e: &Expr) -> Result<Option<u32>, AllocError>
    ensures { IfOk result (λ found. IfSome found (StaysBelow bounds.now e.now)) }
{
    let Some(own) = parts_of(alloc, e)? else {
        return Ok(None);
    };
    if own.number < NEGATIVE && is_below(&own.form, bounds, NEGATIVE) {
        return Ok(Some(own.number + 1));
    }
    Ok(None)
}
