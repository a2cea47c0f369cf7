//! Forms that registers hold while a loop runs.

ghost use Rattle.std.specs.Prelude.{◌≡◌, ◌*◌, ◌%◌, ◌^◌, ◌++◌, IfOk, OnOk, true};
ghost use Rattle.task_code_registers.specs.Holding.{Advances, IsAt, IsFullIf, TakesIf, can_advance, varying};
ghost use Rattle.task_code_registers.specs.Looping as spec;
ghost use Rattle.task_code_registers.specs.Scopes.{have_registers};
ghost use Rattle.task_code_registers.specs.Strides.{others_of, strides};

use crate::numbers::emit_plus;
use crate::scopes::{AffineForm, Held, free_register, with_held};
use crate::sums::emit_form;
use crate::terms::with_room;
use halide_pipeline::words;
use loop_ir::expressions::{Counter, Linear, Term, same_counter};
use sqlite_items::Items;
use std::alloc::{AllocError, Global};

// ---- forms in an iteration

/// The sum of a loop variable's strides.
pub fn stride_of(terms: &[Term], counter: Counter) -> u32
    ensures { result ≡ strides counter terms.now % 2 ^ 32 }
{
    match terms {
        [] => 0,
        [first, others @ ..] => {
            if same_counter(first.counter, counter) {
                words::add(first.stride, stride_of(others, counter))
            } else {
                stride_of(others, counter)
            }
        }
    }
}

/// Appends the terms of other loop variables.
fn other_terms(
    new_terms: &mut Items<Term>,
    terms: &[Term],
    counter: Counter,
) -> Result<(), AllocError>
    ensures { OnOk result (new_terms.new ≡ new_terms.old ++ others_of counter terms.now) }
{
    match terms {
        [] => Ok(()),
        [first, others @ ..] => {
            if same_counter(first.counter, counter) {
                other_terms(new_terms, others, counter)?;
                return Ok(());
            }
            new_terms.push(*first)?;
            other_terms(new_terms, others, counter)?;
            Ok(())
        }
    }
}

/// A form where a loop variable is at a number.
///
/// # Errors
///
/// Memory ran out.
pub fn at_value(
    alloc: Global,
    form: &AffineForm,
    counter: Counter,
    value: u32,
) -> Result<AffineForm, AllocError>
    ensures { IfOk result (λ made. IsAt counter value form.now made) }
{
    let mut terms = with_room(alloc, form.sum.terms.len())?;
    other_terms(&mut terms, form.sum.terms.as_slice(), counter)?;
    let stride = stride_of(form.sum.terms.as_slice(), counter);
    let far = words::multiply(stride, value);
    let number = words::add(form.sum.number, far);
    Ok(AffineForm {
        sum: Linear { number, terms },
        per_hart: form.per_hart,
    })
}

/// Whether a form goes on by this many iterations, and by less than 2^32 in all. Then it tells when they end.
pub fn is_test(form: &AffineForm, counter: Counter, count: u32) -> bool
    ensures { result ≡ spec.is_test counter count form.now }
{
    let stride = stride_of(form.sum.terms.as_slice(), counter);
    0 < stride && u64::from(count) * u64::from(stride) < 1 << 32
}

// ---- before the first iteration

/// A scope with one form more, and the register that holds it.
#[derive(Debug, Drop)]
pub struct WidenedScope {
    pub scope: Vec<Held>,
    pub register: u8,
}

/// Appends what leaves a form, as it is in a loop's first iteration, in a register that holds nothing yet, where more
/// than this many are left. Else there is no code.
///
/// # Errors
///
/// Memory ran out.
pub fn hold(
    alloc: Global,
    code: &mut Vec<u32>,
    scope: &[Held],
    counter: Counter,
    form: &AffineForm,
    reserved: usize,
) -> Result<Option<WidenedScope>, AllocError>
    requires { have_registers scope.now (others_of counter form.now.sum.terms) ≡ true }
    ensures some { IfOk result (TakesIf code.old.items code.new.items counter scope.now form.now reserved) }
    ensures none { IfOk result (IsFullIf code.old.items code.new.items scope.now reserved) }
{
    match free_register(scope, reserved) {
        None => Ok(None),
        Some(register) => {
            let start = at_value(alloc, form, counter, 0)?;
            emit_form(code, scope, &start, register)?;
            let inner = with_held(alloc, scope, register, form)?;
            Ok(Some(WidenedScope {
                scope: inner,
                register,
            }))
        }
    }
}

// ---- from one iteration to the next

/// Appends what makes of the forms of an iteration those of the next one.
///
/// # Errors
///
/// Memory ran out.
pub fn emit_advance(code: &mut Vec<u32>, inner: &[Held], counter: Counter) -> Result<(), AllocError>
    requires { can_advance counter inner.now ≡ true }
    ensures { OnOk result (Advances code.old.items code.new.items (3 * varying counter inner.now) counter inner.now) }
{
    match inner {
        [] => Ok(()),
        [first, others @ ..] => {
            emit_advance(code, others, counter)?;
            let stride = stride_of(first.form.sum.terms.as_slice(), counter);
            if stride == 0 {
                return Ok(());
            }
            emit_plus(code, first.register, first.register, stride)?;
            Ok(())
        }
    }
}
