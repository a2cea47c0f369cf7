//! Clamps that cut at one number alone, as sums with a test: where v is at least n - 1, the greater of v and n is v and
//! 1 more if v is below n.

ghost use Rattle.std.specs.Prelude.{◌≡◌, IfOk, IfSome};
ghost use Rattle.task_code_clamps.specs.Steps.{IsGreater, IsLesser, IsMore, IsSteppedDown, IsSteppedUp, IsTested};

use crate::clamps::Ranged;
use crate::ranges::{LevelRange, level};
use halide_pipeline::{Operation, words};
use loop_ir::expressions::{Expr, Linear};
use sqlite_items::Boxed;
use std::alloc::{AllocError, Global};

/// A sum that is so much more.
fn with_more(alloc: Global, sum: &Linear, more: u32) -> Result<Linear, AllocError>
    ensures { IfOk result (IsMore sum.now more) }
{
    let copied = sum.copy(alloc)?;
    Ok(copied.plus_number(more))
}

/// A sum, and 1 more where it is below a number.
fn stepped_up(alloc: Global, new_sum: &Linear, number: u32) -> Result<Expr, AllocError>
    ensures { IfOk result (IsSteppedUp new_sum.now number) }
{
    let first = new_sum.copy(alloc)?;
    let second = new_sum.copy(alloc)?;
    let below = Boxed::new(alloc, Expr::Linear(second))?;
    let bound = Boxed::new(alloc, Expr::Number(number))?;
    let test = Boxed::new(alloc, Expr::Binary(Operation::Less, below, bound))?;
    let sum = Boxed::new(alloc, Expr::Linear(first))?;
    Ok(Expr::Binary(Operation::Add, sum, test))
}

/// A sum, and 1 less where it is above a number.
fn stepped_down(alloc: Global, new_sum: &Linear, number: u32) -> Result<Expr, AllocError>
    ensures { IfOk result (IsSteppedDown new_sum.now number) }
{
    let first = new_sum.copy(alloc)?;
    let second = new_sum.copy(alloc)?;
    let above = Boxed::new(alloc, Expr::Linear(second))?;
    let bound = Boxed::new(alloc, Expr::Number(number))?;
    let test = Boxed::new(alloc, Expr::Binary(Operation::Less, bound, above))?;
    let sum = Boxed::new(alloc, Expr::Linear(first))?;
    Ok(Expr::Binary(Operation::Subtract, sum, test))
}

/// The greater of a sum and a number that is no more than 1 above it. Of the sum or the one that is 1 more, one without
/// a number is taken: a register holds the loop variable.
fn greater_by_test(
    alloc: Global,
    sum: &Linear,
    range: LevelRange,
    number: u32,
) -> Result<Option<Expr>, AllocError>
    ensures { IfOk result (λ found. IfSome found (IsGreater sum.now range number)) }
{
    let least = level(number);
    if u64::from(least) > u64::from(range.low) + 1 || range.high == u32::MAX {
        return Ok(None);
    }
    if sum.number == u32::MAX {
        let next = with_more(alloc, sum, 1)?;
        let expression = stepped_down(alloc, &next, number)?;
        return Ok(Some(expression));
    }
    let expression = stepped_up(alloc, sum, number)?;
    Ok(Some(expression))
}

/// The lesser of a sum and a number that is no more than 1 below it.
fn lesser_by_test(
    alloc: Global,
    sum: &Linear,
    range: LevelRange,
    number: u32,
) -> Result<Option<Expr>, AllocError>
    ensures { IfOk result (λ found. IfSome found (IsLesser sum.now range number)) }
{
    let most = level(number);
    if u64::from(range.high) > u64::from(most) + 1 || range.low == 0 {
        return Ok(None);
    }
    if sum.number == 1 {
        let before = with_more(alloc, sum, u32::MAX)?;
        let expression = stepped_up(alloc, &before, number)?;
        return Ok(Some(expression));
    }
    let expression = stepped_down(alloc, sum, number)?;
    Ok(Some(expression))
}

/// What an operation makes of a sum and a number, where it is a clamp that cuts at one number alone.
///
/// # Errors
///
/// Memory ran out.
pub fn by_test(
    alloc: Global,
    operation: Operation,
    a: &Ranged,
    b: &Ranged,
) -> Result<Option<Expr>, AllocError>
    ensures { IfOk result (λ expression. IfSome expression (IsTested operation a.now b.now)) }
{
    match &a.e {
        Expr::Linear(own) => match &b.e {
            Expr::Number(number) => match operation {
                Operation::Maximum => {
                    let expression = greater_by_test(alloc, own, a.range, *number)?;
                    Ok(expression)
                }
                Operation::Minimum => {
                    let expression = lesser_by_test(alloc, own, a.range, *number)?;
                    Ok(expression)
                }
                _ => Ok(None),
            },
            _ => Ok(None),
        },
        _ => Ok(None),
    }
}
