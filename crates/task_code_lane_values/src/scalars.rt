//! Scalar operands of code over lanes: what all iterations have in common.

ghost use Rattle.std.specs.Prelude.{◌≡◌, IfOk, true};
ghost use Rattle.task_code_registers.specs.Emitting.{sum_words};
ghost use Rattle.task_code_registers.specs.Registers.{address_register};
ghost use Rattle.task_code_registers.specs.Scopes.{form_value};
ghost use Rattle.task_code_values.specs.Making.{MakesHeld};
ghost use Rattle.task_code_lane_values.specs.inner.Parts.{IsLoopInvariant, MakesScalar, MakesInvariant, Nothing};

use crate::vectorized::{LaneSite, VectorLanes};
use loop_ir::expressions::{Counter, Expr};
use std::alloc::{AllocError, Global};
use task_code_registers::holding::stride_of;
use task_code_registers::registers::{ADDRESS, FIRST_VALUE};
use task_code_registers::scopes::{AffineForm, Held};
use task_code_registers::sums::find;
use task_code_scalar::CodeFault;
use task_code_values::expressions::emit_operand;
use task_code_values::needs::need;
use task_code_values::operands::{emit_number_operand, emit_reached};
use task_code_values::sites::Site;

/// How many registers the scalar stack has.
const STACK: u32 = 12;

/// Whether an expression has one value in all iterations, as far as its sums tell.
pub fn is_loop_invariant(e: &Expr, counter: Counter) -> bool
    ensures { result ≡ true → IsLoopInvariant counter e.now }
{
    match e {
        Expr::Number(_) => true,
        Expr::Linear(own) => stride_of(own.terms.as_slice(), counter) == 0,
        Expr::Binary(_, a, b) => is_loop_invariant(a.get(), counter)
            && is_loop_invariant(b.get(), counter),
        Expr::Divide(a, _) => is_loop_invariant(a.get(), counter),
        Expr::Remainder(a, _) => is_loop_invariant(a.get(), counter),
        Expr::Select(c, a, b) => {
            is_loop_invariant(c.get(), counter)
                && (is_loop_invariant(a.get(), counter) && is_loop_invariant(b.get(), counter))
        }
        Expr::Load(_, x, y) => is_loop_invariant(x.get(), counter)
            && is_loop_invariant(y.get(), counter),
    }
}

/// The same of one that the scalar stack has room for, where this many, the expression itself, its first operand and so
/// on, are known to have several: it asks where none is.
pub(crate) fn is_invariant_scalar(e: &Expr, counter: Counter, known: u32) -> bool
    ensures { result ≡ true → IsLoopInvariant counter e.now }
{
    known == 0 && is_loop_invariant(e, counter) && need(e) <= STACK
}

/// Whether what is beside its first operand has several.
fn others_move(e: &Expr, counter: Counter) -> bool {
    match e {
        Expr::Number(_) => false,
        Expr::Linear(_) => !is_loop_invariant(e, counter),
        Expr::Binary(_, _, b) => !is_loop_invariant(b.get(), counter),
        Expr::Divide(_, _) => false,
        Expr::Remainder(_, _) => false,
        Expr::Select(_, a, b) => {
            !is_loop_invariant(a.get(), counter) || !is_loop_invariant(b.get(), counter)
        }
        Expr::Load(_, _, y) => !is_loop_invariant(y.get(), counter),
    }
}

/// How many expressions have several values: the expression itself, its first operand, the first operand of that one
/// and so on. It spares questions, and is no promise.
pub(crate) fn varying(e: &Expr, counter: Counter) -> u32 {
    let first = match e {
        Expr::Number(_) => 0,
        Expr::Linear(_) => 0,
        Expr::Binary(_, a, _) => varying(a.get(), counter),
        Expr::Divide(a, _) => varying(a.get(), counter),
        Expr::Remainder(a, _) => varying(a.get(), counter),
        Expr::Select(c, _, _) => varying(c.get(), counter),
        Expr::Load(_, x, _) => varying(x.get(), counter),
    };
    if first > 0 || others_move(e, counter) {
        first.saturating_add(1)
    } else {
        0
    }
}

/// How many they are of its first operand, where this many of the expression itself are known; it counts where none is.
pub(crate) fn first_varying(e: &Expr, counter: Counter, known: u32) -> u32 {
    let own = if known > 0 {
        known
    } else {
        varying(e, counter)
    };
    own.saturating_sub(1)
}

/// Appends what leaves an expression's value of the first iteration in a register, where none holds it; which one
/// it is.
pub(crate) fn emit_invariant(
    alloc: Global,
    code: &mut Vec<u32>,
    site: &LaneSite<'_>,
    e: &Expr,
) -> Result<u8, CodeFault>
    ensures { IfOk result (λ s. MakesInvariant code.old.items code.new.items site.now.places.now
        site.now.scope.now site.now.lanes s e.now) }
{
    if need(e) > STACK {
        return Err(CodeFault::TooDeep);
    }
    let around = Site {
        places: site.places,
        scope: site.scope,
    };
    let s = emit_operand(alloc, code, &around, e, FIRST_VALUE, ADDRESS)?;
    Ok(s)
}

/// Appends what leaves a number in a register, where none holds it; which one it is.
pub(crate) fn emit_literal(
    alloc: Global,
    code: &mut Vec<u32>,
    scope: &[Held],
    lanes: VectorLanes,
    number: u32,
) -> Result<u8, AllocError>
    ensures { IfOk result (λ s. MakesScalar code.old.items code.new.items
        scope.now lanes s Nothing (λ hart reads values. number)) }
{
    let s = emit_number_operand(alloc, code, scope, number, ADDRESS)?;
    Ok(s)
}

/// Appends what leaves a form's value in a register, where none holds it; which one it is.
pub(crate) fn emit_form_operand(
    alloc: Global,
    code: &mut Vec<u32>,
    scope: &[Held],
    form: &AffineForm,
) -> Result<u8, CodeFault>
    ensures { IfOk result (λ s. MakesHeld code.old.items code.new.items (sum_words form.now.per_hart form.now.sum.terms)
        scope.now address_register s (λ hart values. form_value hart values form.now)) }
{
    match find(scope, form, true) {
        Some(found) => {
            if found.number == 0 {
                return Ok(found.register);
            }
        }
        None => {}
    }
    emit_reached(alloc, code, scope, form, ADDRESS)?;
    Ok(ADDRESS)
}
