//! Values of expressions.

ghost use Rattle.std.specs.Prelude.{◌≡◌, ◌≤◌, ◌<◌, ◌+◌, IfErr, IfOk};
ghost use Rattle.std.specs.Prelude.{IfSome, None, OnOk, false, true};
ghost use Rattle.loop_ir.specs.Needs.{need_of};
ghost use Rattle.task_code_scalar.specs.Faults.{IsFault};
ghost use Rattle.task_code_registers.specs.Registers.{first_value};
ghost use Rattle.task_code_values.specs.Operands.{FitsOperand, IsLeafPlace, IsSum, MakesIndex, MakesOperand};
ghost use Rattle.task_code_values.specs.Variables.{are_held};

use crate::immediates::{emit_immediate, immediate_of};
use crate::operands::{emit_number_operand, emit_sum_operand};
use crate::operations::{emit_operation, emit_quotient, emit_remainder, emit_selection};
use crate::points::{PointIndex, PointIndexes, emit_pixel};
use crate::sites::Site;
use loop_ir::expressions::{Expr, Linear};
use std::alloc::{AllocError, Global};
use task_code_registers::registers::ADDRESS;
use task_code_scalar::CodeFault;

/// The sum that an expression is, where it loads nothing and makes nothing of its parts.
pub fn sum_of(alloc: Global, e: &Expr) -> Result<Option<Linear>, AllocError>
    ensures some { IfOk result (λ found. IfSome found (IsSum e.now)) }
    ensures none { IfOk result (λ found. found ≡ None → (need_of e.now).is_leaf ≡ false) }
{
    match e {
        Expr::Number(number) => Ok(Some(Linear::of_number(alloc, *number))),
        Expr::Linear(own) => {
            let sum = own.copy(alloc)?;
            Ok(Some(sum))
        }
        Expr::Binary(_, _, _) => Ok(None),
        Expr::Divide(_, _) => Ok(None),
        Expr::Remainder(_, _) => Ok(None),
        Expr::Select(_, _, _) => Ok(None),
        Expr::Load(_, _, _) => Ok(None),
    }
}

/// Appends what leaves an expression's value in a register, where none of the scope holds it: a leaf in a register of
/// its own, another one in r, with the stack from there on free. It returns the register.
///
/// # Errors
///
/// Memory ran out, or a loop variable has no register and no held form makes up for it.
#[cycle(values)]
pub fn emit_operand(
    alloc: Global,
    code: &mut Vec<u32>,
    site: &Site<'_>,
    e: &Expr,
    r: u8,
    leaf: u8,
) -> Result<u8, CodeFault>
    requires place { (first_value ≤ r) × (r ≤ 32) }
    requires leaf { IsLeafPlace r leaf }
    requires fits { FitsOperand e.now r }
    ensures ok { IfOk result (λ s. MakesOperand code.old.items code.new.items site.now.places.now site.now.scope.now r
        leaf s e.now) }
    ensures err { IfErr result (IsFault ⊥ (are_held site.now.scope.now e.now ≡ true → ⊥)) }
{
    match e {
        Expr::Number(number) => Ok(emit_number_operand(alloc, code, site.scope, *number, leaf)?),
        Expr::Linear(own) => emit_sum_operand(alloc, code, site.scope, own, leaf),
        Expr::Binary(operation, a, b) => {
            let first = emit_operand(alloc, code, site, a.get(), r, r)?;
            let other = b.get();
            if let Some(own) = immediate_of(*operation, other) {
                emit_immediate(code, own, first, r)?;
                return Ok(r);
            }
            let second = emit_operand(alloc, code, site, other, r + 1, ADDRESS)?;
            emit_operation(code, *operation, r, first, second)?;
            Ok(r)
        }
        Expr::Divide(a, divisor) => {
            let first = emit_operand(alloc, code, site, a.get(), r, r)?;
            emit_quotient(alloc, code, site.scope, *divisor, first, r)?;
            Ok(r)
        }
        Expr::Remainder(a, divisor) => {
            let first = emit_operand(alloc, code, site, a.get(), r, r)?;
            emit_remainder(alloc, code, site.scope, *divisor, first, r)?;
            Ok(r)
        }
        Expr::Select(c, a, b) => {
            let condition = emit_operand(alloc, code, site, c.get(), r, r)?;
            let first = emit_operand(alloc, code, site, a.get(), r + 1, r + 1)?;
            let second = emit_operand(alloc, code, site, b.get(), r + 2, r + 2)?;
            emit_selection(code, r, condition, first, second)?;
            Ok(r)
        }
        Expr::Load(source, x, y) => {
            let column = emit_index(alloc, code, site, x.get(), r)?;
            let row = emit_index(alloc, code, site, y.get(), r + 1)?;
            emit_pixel(alloc, code, site, *source, &PointIndexes { column, row }, r)?;
            Ok(r)
        }
    }
}

/// Appends what leaves an index in a register, unless it is a sum.
///
/// # Errors
///
/// As of [`emit_operand`].
#[cycle(values)]
pub fn emit_index(
    alloc: Global,
    code: &mut Vec<u32>,
    site: &Site<'_>,
    e: &Expr,
    r: u8,
) -> Result<PointIndex, CodeFault>
    requires place { (first_value ≤ r) × (r ≤ 32) }
    requires fits { FitsOperand e.now r }
    ensures ok { IfOk result (λ index. MakesIndex code.old.items code.new.items site.now.places.now site.now.scope.now r
        index e.now) }
    ensures err { IfErr result (IsFault ⊥ (are_held site.now.scope.now e.now ≡ true → ⊥)) }
{
    match sum_of(alloc, e)? {
        Some(own) => Ok(PointIndex::Sum(own)),
        None => {
            let s = emit_operand(alloc, code, site, e, r, r)?;
            Ok(PointIndex::Register(s))
        }
    }
}
