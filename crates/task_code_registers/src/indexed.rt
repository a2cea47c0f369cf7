//! Forms that are a held one and a scaled index: where registers don't suffice for a pointer of each form, a few
//! instructions make it of another one and of a loop variable in a register.

ghost use Rattle.std.specs.Prelude.{◌≡◌, ◌≤◌, None, IfOk, IfSome, false, length, true};
ghost use Rattle.task_code_registers.specs.Emitting.{MakesFormAddress, MakesValue};
ghost use Rattle.task_code_registers.specs.Indexed.{IsIndexed};
ghost use Rattle.task_code_registers.specs.Registers.{IsPlace};

use crate::holding::{at_value, stride_of};
use crate::numbers::emit_times;
use crate::scopes::{AffineForm, Held};
use crate::sums::{At, NearForm, emit_product, emit_term, find, has_variable, register_of};
use loop_ir::expressions::Term;
use std::alloc::{AllocError, Global};

/// What a form is: a register and a number, and this many times the register of a loop variable.
#[derive(Clone, Copy, Debug)]
pub struct Indexed {
    pub base: NearForm,
    pub index: u8,
    pub stride: u32,
}

/// A form by one of these terms: what is held of it, but for a number that fits an immediate, where the term's variable
/// is 0, and the register of that variable times its stride.
fn find_term(
    alloc: Global,
    scope: &[Held],
    form: &AffineForm,
    terms: &[Term],
) -> Result<Option<Indexed>, AllocError>
    ensures { IfOk result (λ found_indexed. IfSome found_indexed (IsIndexed scope.now form.now)) }
{
    match terms {
        [] => Ok(None),
        [first, others @ ..] => {
            if has_variable(scope, first.counter) {
                let start = at_value(alloc, form, first.counter, 0)?;
                if let Some(base) = find(scope, &start, true) {
                    return Ok(Some(Indexed {
                        base,
                        index: register_of(scope, first.counter),
                        stride: stride_of(form.sum.terms.as_slice(), first.counter),
                    }));
                }
            }
            let found_indexed = find_term(alloc, scope, form, others)?;
            Ok(found_indexed)
        }
    }
}

/// How many terms a form has at least whose own code may have ten instructions, as many as a product and a sum have at
/// most.
const FEWEST_TERMS: usize = 2;

/// What a form is, if it is a held one and a scaled index, and has this many terms that its own code may be as long.
fn find_indexed(
    alloc: Global,
    scope: &[Held],
    form: &AffineForm,
) -> Result<Option<Indexed>, AllocError>
    ensures is { IfOk result (λ found_indexed. IfSome found_indexed (IsIndexed scope.now form.now)) }
    ensures long { IfOk result (λ found_indexed. IfSome found_indexed (λ own. 2 ≤ length form.now.sum.terms)) }
{
    let terms = form.sum.terms.as_slice();
    if terms.len() < FEWEST_TERMS {
        return Ok(None);
    }
    let found_indexed = find_term(alloc, scope, form, terms)?;
    Ok(found_indexed)
}

/// Appends what makes an address of a held form and a scaled index, and where it then is, if there are such ones. Else
/// there is no code.
///
/// # Errors
///
/// Memory ran out.
pub fn emit_indexed_address(
    alloc: Global,
    code: &mut Vec<u32>,
    scope: &[Held],
    form: &AffineForm,
    r: u8,
) -> Result<Option<At>, AllocError>
    requires { IsPlace r }
    ensures some { IfOk result (λ found. IfSome found (MakesFormAddress code.old.items code.new.items scope.now form.now
        r)) }
    ensures none { IfOk result (λ found. found ≡ None → code.new.items ≡ code.old.items) }
{
    match find_indexed(alloc, scope, form)? {
        None => Ok(None),
        Some(found) => {
            emit_times(code, r, found.index, found.stride)?;
            emit_term(code, r, found.base.register, 1)?;
            Ok(Some(At {
                register: r,
                offset: found.base.number,
            }))
        }
    }
}

/// Appends what leaves a form's value in a register, of a held form and a scaled index, if there are such ones. Else
/// there is no code. It returns whether there is.
///
/// # Errors
///
/// Memory ran out.
pub fn emit_indexed_form(
    alloc: Global,
    code: &mut Vec<u32>,
    scope: &[Held],
    form: &AffineForm,
    r: u8,
) -> Result<bool, AllocError>
    requires { IsPlace r }
    ensures yes { IfOk result (λ made. made ≡ true → MakesValue code.old.items code.new.items scope.now form.now r) }
    ensures no { IfOk result (λ made. made ≡ false → code.new.items ≡ code.old.items) }
{
    match find_indexed(alloc, scope, form)? {
        None => Ok(false),
        Some(found) => {
            emit_product(code, r, found.index, found.stride, found.base.number)?;
            emit_term(code, r, found.base.register, 1)?;
            Ok(true)
        }
    }
}
