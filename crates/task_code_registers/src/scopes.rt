//! What registers hold while code runs, and which of them are left.

ghost use Rattle.std.specs.Prelude.{◌≡◌, [], ◌++◌, ◌<◌, ◌≤◌, ◌∷◌, ℕ, None, IfOk, IfSome, OnOk, true, false};
ghost use Rattle.task_code_registers.specs.Scopes as spec;
ghost use Rattle.task_code_registers.specs.Scopes.{IsLeft};

use crate::registers::{FIRST_VALUE, may_hold};
use loop_ir::expressions::Linear;
use std::alloc::{AllocError, Global};

/// A sum of loop variables, each times a stride, and so much times the hart's number, modulo 2^32.
#[derive(Debug, Drop)]
pub struct AffineForm {
    pub sum: Linear,
    pub per_hart: u32,
}

impl AffineForm {
    /// The same once more.
    ///
    /// # Errors
    ///
    /// Memory ran out.
    pub fn copy(&self, alloc: Global) -> Result<AffineForm, AllocError>
        ensures { IfOk result (λ made. made ≡ self.now) }
    {
        let sum = self.sum.copy(alloc)?;
        Ok(AffineForm {
            sum,
            per_hart: self.per_hart,
        })
    }
}

/// A register and the form whose value it holds. The number of lanes and their configuration count as registers
/// 32 and 33.
#[derive(Debug)]
pub struct Held {
    pub register: u8,
    pub form: AffineForm,
}

impl Drop for Held {
    fn drop(self) {
        let Held { form, register: _ } = self;
        drop(form);
    }
}

impl Held {
    /// The same once more.
    ///
    /// # Errors
    ///
    /// Memory ran out.
    pub fn copy(&self, alloc: Global) -> Result<Held, AllocError>
        ensures { IfOk result (λ made. made ≡ self.now) }
    {
        let form = self.form.copy(alloc)?;
        Ok(Held {
            register: self.register,
            form,
        })
    }
}

/// Appends copies.
fn copy_all(alloc: Global, made: &mut Vec<Held>, scope: &[Held]) -> Result<(), AllocError>
    ensures { OnOk result (made.new.items ≡ made.old.items ++ scope.now) }
{
    match scope {
        [] => Ok(()),
        [first, others @ ..] => {
            let own = first.copy(alloc)?;
            made.push(own)?;
            copy_all(alloc, made, others)?;
            Ok(())
        }
    }
}

/// The scope with one more form in front.
///
/// # Errors
///
/// Memory ran out.
pub fn with_held(
    alloc: Global,
    scope: &[Held],
    register: u8,
    form: &AffineForm,
) -> Result<Vec<Held>, AllocError>
    ensures { IfOk result (λ made. made.items ≡ record { register = register; form = form.now } ∷ scope.now) }
{
    let form = form.copy(alloc)?;
    let mut made = Vec::new(alloc);
    made.push(Held { register, form })?;
    copy_all(alloc, &mut made, scope)?;
    Ok(made)
}

/// The scope with one more form in front, as [`with_held`] makes it, without a copy.
///
/// # Errors
///
/// Memory ran out.
pub fn holding_too(
    alloc: Global,
    scope: Vec<Held>,
    register: u8,
    form: &AffineForm,
) -> Result<Vec<Held>, AllocError>
    ensures { IfOk result (λ made. made.items ≡ record { register = register; form = form.now } ∷ scope.items) }
{
    let form = form.copy(alloc)?;
    let mut made = scope;
    made.insert(0, Held { register, form })?;
    Ok(made)
}

/// Whether registers hold all forms of a scope, and neither the number of lanes nor their configuration does.
pub fn are_registers(scope: &[Held]) -> bool
    ensures { result ≡ spec.are_registers scope.now }
{
    match scope {
        [] => true,
        [first, others @ ..] => may_hold(first.register) && are_registers(others),
    }
}

/// Whether a register of the scope is this one.
fn is_held(scope: &[Held], register: u8) -> bool
    ensures { result ≡ spec.is_held scope.now register }
{
    match scope {
        [] => false,
        [own, others @ ..] => {
            if own.register == register {
                true
            } else {
                is_held(others, register)
            }
        }
    }
}

/// Whether a register may still be given to a form.
fn is_left(scope: &[Held], register: u8) -> bool
    ensures { result ≡ spec.is_left scope.now register }
{
    may_hold(register) && !is_held(scope, register)
}

/// How many registers below this one may still be given to forms.
#[tactic(auto, unfolding(crate::specs::Scopes::left_below))]
fn left_below(scope: &[Held], end: u8) -> u8
    ensures count { result ≡ spec.left_below scope.now end }
    ensures few { result ≤ end }
{
    if end == 0 {
        return 0;
    }
    let others = left_below(scope, end - 1);
    if is_left(scope, end - 1) {
        others + 1
    } else {
        others
    }
}

/// The last of them.
#[tactic(auto, unfolding(crate::specs::Scopes::left_below))]
fn last_left(scope: &[Held], end: u8) -> Option<u8>
    ensures some { IfSome result (λ found. spec.is_left scope.now found ≡ true) }
    ensures none { result ≡ None → spec.left_below scope.now end ≡ 0 }
{
    if end == 0 {
        return None;
    }
    if is_left(scope, end - 1) {
        Some(end - 1)
    } else {
        last_left(scope, end - 1)
    }
}

/// Whether more than this many registers below this one may still be given to forms. They are looked for from the last
/// one on, as more are left there.
#[tactic(auto, unfolding(crate::specs::Scopes::left_below))]
fn has_more_left(scope: &[Held], end: u8, reserved: usize) -> bool
    ensures yes { result ≡ true → reserved < spec.left_below scope.now end }
    ensures no { result ≡ false → spec.left_below scope.now end ≤ reserved }
{
    if end == 0 {
        return false;
    }
    if !is_left(scope, end - 1) {
        return has_more_left(scope, end - 1, reserved);
    }
    reserved == 0 || has_more_left(scope, end - 1, reserved - 1)
}

/// How many registers may still be given to forms.
pub fn left_count(scope: &[Held]) -> u8
    ensures { result ≡ spec.left_count scope.now }
{
    left_below(scope, FIRST_VALUE)
}

/// A register that holds nothing yet and may hold a form, where more than this many are left.
pub fn free_register(scope: &[Held], reserved: usize) -> Option<u8>
    ensures some { IfSome result (λ found. IsLeft scope.now found × (reserved < spec.left_count scope.now)) }
    ensures none { result ≡ None → spec.left_count scope.now ≤ reserved }
{
    let found = last_left(scope, FIRST_VALUE)?;
    if has_more_left(scope, FIRST_VALUE, reserved) {
        Some(found)
    } else {
        None
    }
}
