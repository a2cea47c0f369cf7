//! Forms that registers hold in a loop, where there is room.

ghost use Rattle.std.specs.Prelude.{◌≡◌, [], None, IfOk};
ghost use Rattle.task_code_registers.specs.Holding.{TakesIf};
ghost use Rattle.task_code_registers.specs.Registers.{IsPlace};
ghost use Rattle.task_code_loops.specs.Beginning.{GainsForm, GainsOf, IsUnknownIf, MakesIf, StartsIf};

use loop_ir::expressions::Counter;
use std::alloc::{AllocError, Global};
use task_code_registers::holding::{WidenedScope, at_value};
use task_code_registers::numbers::emit_plus;
use task_code_registers::scopes::{AffineForm, Held, free_register, holding_too, with_held};
use task_code_registers::sums::{emit_form, find, have_registers, nearest};

/// Appends what leaves a form's value in a register, where its loop variables have registers or a form near it is held.
/// Else there is no code. It returns whether there is.
///
/// # Errors
///
/// Memory ran out.
pub fn emit_known(
    code: &mut Vec<u32>,
    scope: &[Held],
    form: &AffineForm,
    register: u8,
) -> Result<bool, AllocError>
    requires { IsPlace register }
    ensures yes { IfOk result (MakesIf code.old.items code.new.items scope.now form.now register) }
    ensures no { IfOk result (IsUnknownIf code.old.items code.new.items scope.now form.now) }
{
    if have_registers(scope, form.sum.terms.as_slice()) {
        emit_form(code, scope, form, register)?;
        return Ok(true);
    }
    match nearest(scope, form) {
        Some(found) => {
            emit_plus(code, register, found.register, found.number)?;
            Ok(true)
        }
        None => Ok(false),
    }
}

/// Appends what leaves a form, as it is in a loop's first iteration, in a register that holds nothing yet, where more
/// than this many are left and its value can be made: it returns the register. Else there is no code.
fn start_known(
    alloc: Global,
    code: &mut Vec<u32>,
    scope: &[Held],
    counter: Counter,
    form: &AffineForm,
    reserved: usize,
) -> Result<Option<u8>, AllocError>
    ensures some { IfOk result (StartsIf code.old.items code.new.items counter scope.now form.now reserved) }
    ensures none { IfOk result (λ found. found ≡ None → code.new.items ≡ code.old.items) }
{
    match free_register(scope, reserved) {
        None => Ok(None),
        Some(register) => {
            let start = at_value(alloc, form, counter, 0)?;
            if emit_known(code, scope, &start, register)? {
                Ok(Some(register))
            } else {
                Ok(None)
            }
        }
    }
}

/// Appends what leaves a form, as it is in a loop's first iteration, in a register that holds nothing yet, where more
/// than this many are left and its value can be made: the scope gains it. Else there is no code.
///
/// # Errors
///
/// Memory ran out.
pub fn hold_known(
    alloc: Global,
    code: &mut Vec<u32>,
    scope: &[Held],
    counter: Counter,
    form: &AffineForm,
    reserved: usize,
) -> Result<Option<WidenedScope>, AllocError>
    ensures some { IfOk result (TakesIf code.old.items code.new.items counter scope.now form.now reserved) }
    ensures none { IfOk result (λ made. made ≡ None → code.new.items ≡ code.old.items) }
{
    match start_known(alloc, code, scope, counter, form, reserved)? {
        None => Ok(None),
        Some(register) => {
            let inner = with_held(alloc, scope, register, form)?;
            Ok(Some(WidenedScope {
                scope: inner,
                register,
            }))
        }
    }
}

/// Appends what holds a form, where there is room and none near it is held.
fn hold_wanted(
    alloc: Global,
    code: &mut Vec<u32>,
    scope: Vec<Held>,
    counter: Counter,
    form: &AffineForm,
    reserved: usize,
) -> Result<Vec<Held>, AllocError>
    ensures { IfOk result (λ s. GainsForm code.old.items code.new.items counter form.now reserved scope.items s.items) }
{
    if find(scope.as_slice(), form, true).is_some() {
        return Ok(scope);
    }
    match start_known(alloc, code, scope.as_slice(), counter, form, reserved)? {
        None => Ok(scope),
        Some(register) => {
            let inner = holding_too(alloc, scope, register, form)?;
            Ok(inner)
        }
    }
}

/// Appends what holds these forms, the first ones first, where there is room.
///
/// # Errors
///
/// Memory ran out.
pub fn hold_all(
    alloc: Global,
    code: &mut Vec<u32>,
    scope: Vec<Held>,
    counter: Counter,
    forms: &[AffineForm],
    reserved: usize,
) -> Result<Vec<Held>, AllocError>
    ensures gains { IfOk result (λ s. GainsOf code.old.items code.new.items counter forms.now reserved scope.items
        s.items) }
    ensures none { forms.now ≡ [] → IfOk result (λ s. s.items ≡ scope.items) }
{
    match forms {
        [] => Ok(scope),
        [first, others @ ..] => {
            let next = hold_wanted(alloc, code, scope, counter, first, reserved)?;
            let inner = hold_all(alloc, code, next, counter, others, reserved)?;
            Ok(inner)
        }
    }
}
