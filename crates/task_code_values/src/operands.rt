//! Numbers and sums of loop variables as operands.

ghost use Rattle.std.specs.Prelude.{◌≡◌, ◌+◌, ◌*◌, IfErr, IfOk, OnOk, length, true};
ghost use Rattle.loop_ir.specs.Expressions.{linear_value};
ghost use Rattle.task_code_scalar.specs.Faults.{IsFault};
ghost use Rattle.task_code_registers.specs.Emitting.{MakesFormAddress, MakesValue};
ghost use Rattle.task_code_registers.specs.Registers.{IsPlace};
ghost use Rattle.task_code_registers.specs.Scopes as spec;
ghost use Rattle.task_code_values.specs.Making.{MakesHeld};

use loop_ir::expressions::Linear;
use std::alloc::{AllocError, Global};
use task_code_registers::indexed::{emit_indexed_address, emit_indexed_form};
use task_code_registers::numbers::{emit_number, emit_plus};
use task_code_registers::registers::ZERO;
use task_code_registers::scopes::{AffineForm, Held};
use task_code_registers::sums::{At, emit_address, emit_form, find, have_registers, nearest};
use task_code_scalar::CodeFault;

/// Appends what leaves a number in a register, where none holds it; which one it is.
///
/// # Errors
///
/// Memory ran out.
pub fn emit_number_operand(
    alloc: Global,
    code: &mut Vec<u32>,
    scope: &[Held],
    number: u32,
    r: u8,
) -> Result<u8, AllocError>
    requires { IsPlace r }
    ensures { IfOk result (λ s. MakesHeld code.old.items code.new.items 2 scope.now r s (λ hart values. number)) }
{
    if number == 0 {
        return Ok(ZERO);
    }
    let form = AffineForm {
        sum: Linear::of_number(alloc, number),
        per_hart: 0,
    };
    match find(scope, &form, true) {
        Some(found) => {
            if found.number == 0 {
                return Ok(found.register);
            }
        }
        None => {}
    }
    emit_number(code, r, number)?;
    Ok(r)
}

/// Appends what leaves a form's value in a register: where a loop variable has no register, of the nearest form, or of
/// a held one and a scaled index.
///
/// # Errors
///
/// Memory ran out, or a loop variable has no register and no held form makes up for it.
pub fn emit_reached(
    alloc: Global,
    code: &mut Vec<u32>,
    scope: &[Held],
    form: &AffineForm,
    r: u8,
) -> Result<(), CodeFault>
    requires { IsPlace r }
    ensures ok { OnOk result (MakesValue code.old.items code.new.items scope.now form.now r) }
    ensures err { IfErr result (IsFault ⊥ (spec.have_registers scope.now form.now.sum.terms ≡ true → ⊥)) }
{
    if have_registers(scope, form.sum.terms.as_slice()) {
        emit_form(code, scope, form, r)?;
        return Ok(());
    }
    match nearest(scope, form) {
        Some(found) => {
            emit_plus(code, r, found.register, found.number)?;
            Ok(())
        }
        None => {
            if emit_indexed_form(alloc, code, scope, form, r)? {
                return Ok(());
            }
            Err(CodeFault::TooDeep)
        }
    }
}

/// Appends what makes an address, and where it then is, as `emit_address` does: where a loop variable has no register,
/// of a near form, or of a held one and a scaled index.
///
/// # Errors
///
/// Memory ran out, or a loop variable has no register and no held form makes up for it.
pub fn emit_reached_address(
    alloc: Global,
    code: &mut Vec<u32>,
    scope: &[Held],
    form: &AffineForm,
    r: u8,
) -> Result<At, CodeFault>
    requires { IsPlace r }
    ensures ok { IfOk result (MakesFormAddress code.old.items code.new.items scope.now form.now r) }
    ensures err { IfErr result (IsFault ⊥ (spec.have_registers scope.now form.now.sum.terms ≡ true → ⊥)) }
{
    if have_registers(scope, form.sum.terms.as_slice()) {
        let at = emit_address(alloc, code, scope, form, r)?;
        return Ok(at);
    }
    match find(scope, form, true) {
        Some(found) => Ok(At {
            register: found.register,
            offset: found.number,
        }),
        None => match emit_indexed_address(alloc, code, scope, form, r)? {
            Some(at) => Ok(at),
            None => Err(CodeFault::TooDeep),
        },
    }
}

/// Appends what leaves a sum in a register, where none holds it; which one it is.
///
/// # Errors
///
/// Memory ran out, or a loop variable has no register and no held form makes up for it.
pub fn emit_sum_operand(
    alloc: Global,
    code: &mut Vec<u32>,
    scope: &[Held],
    new_sum: &Linear,
    r: u8,
) -> Result<u8, CodeFault>
    requires { IsPlace r }
    ensures ok { IfOk result (λ s. MakesHeld code.old.items code.new.items (2 + 4 * length new_sum.now.terms)
        scope.now r s (λ hart values. linear_value values new_sum.now)) }
    ensures err { IfErr result (IsFault ⊥ (spec.have_registers scope.now new_sum.now.terms ≡ true → ⊥)) }
{
    let sum = new_sum.copy(alloc)?;
    let form = AffineForm { sum, per_hart: 0 };
    match find(scope, &form, true) {
        Some(found) => {
            if found.number == 0 {
                return Ok(found.register);
            }
        }
        None => {}
    }
    emit_reached(alloc, code, scope, &form, r)?;
    Ok(r)
}
