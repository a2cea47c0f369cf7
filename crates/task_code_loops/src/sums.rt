//! What operations make of sums of loop variables, where it is a sum again.

ghost use Rattle.std.specs.Prelude.{◌≡◌, IfOk, IfSome};
ghost use Rattle.halide_pipeline.specs.declared.expressions.Operation.TheVariants.{Add, Multiply};
ghost use Rattle.task_code_loops.specs.Sums.{IsCombined, IsTimes};

use crate::known::add_scaled;
use halide_pipeline::{Operation, words};
use loop_ir::expressions::Linear;
use std::alloc::{AllocError, Global};
use task_code_registers::terms::with_room;

/// A sum this many times.
fn scaled(alloc: Global, sum: &Linear, factor: u32) -> Result<Linear, AllocError>
    ensures { IfOk result (IsTimes sum.now factor) }
{
    let mut terms = with_room(alloc, sum.terms.len())?;
    add_scaled(&mut terms, sum.terms.as_slice(), factor)?;
    let number = words::multiply(sum.number, factor);
    Ok(Linear { number, terms })
}

/// Two sums together.
fn plus(alloc: Global, x: Linear, y: &Linear) -> Result<Linear, AllocError>
    ensures { IfOk result (IsCombined Add x y.now) }
{
    let opposite = Linear::of_number(alloc, 0).minus(y)?;
    let new_sum = x.minus(&opposite)?;
    Ok(new_sum)
}

/// The product of two sums, of which one is a number.
fn product(alloc: Global, x: &Linear, y: &Linear) -> Result<Option<Linear>, AllocError>
    ensures { IfOk result (λ found. IfSome found (IsCombined Multiply x.now y.now)) }
{
    if y.terms.len() == 0 {
        let sum = scaled(alloc, x, y.number)?;
        return Ok(Some(sum));
    }
    if x.terms.len() == 0 {
        let sum = scaled(alloc, y, x.number)?;
        return Ok(Some(sum));
    }
    Ok(None)
}

/// Whether [`combined`] may make a sum by this operation: what others are given need not be copied for it.
pub fn may_combine(operation: Operation) -> bool {
    match operation {
        Operation::Add => true,
        Operation::Subtract => true,
        Operation::Multiply => true,
        _ => false,
    }
}

/// What an operation makes of two sums, where it is a sum.
///
/// # Errors
///
/// Memory ran out.
pub fn combined(
    alloc: Global,
    operation: Operation,
    x: Linear,
    y: &Linear,
) -> Result<Option<Linear>, AllocError>
    ensures { IfOk result (λ new_sum. IfSome new_sum (IsCombined operation x y.now)) }
{
    match operation {
        Operation::Add => {
            let sum = plus(alloc, x, y)?;
            Ok(Some(sum))
        }
        Operation::Subtract => {
            let sum = x.minus(y)?;
            Ok(Some(sum))
        }
        Operation::Multiply => {
            let new_sum = product(alloc, &x, y)?;
            Ok(new_sum)
        }
        _ => Ok(None),
    }
}
