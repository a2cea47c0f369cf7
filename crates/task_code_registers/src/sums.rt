//! Forms and addresses, from what registers hold.

ghost use Rattle.std.specs.Prelude.{◌≡◌, ◌+◌, ◌*◌, ◌%◌, ◌^◌, ◌≤◌, IfOk, IfSome, OnOk, false, length, true};
ghost use Rattle.loop_ir.specs.Counters.{Values};
ghost use Rattle.loop_ir.specs.Expressions.{sum_of};
ghost use Rattle.task_code_registers.specs.Emitting.{Fits, HoldsVariable, IsApart, IsNear, IsRest, IsWorth};
ghost use Rattle.task_code_registers.specs.Emitting.{Makes, MakesBase, MakesFormAddress, MakesOf, MakesSum, MakesValue};
ghost use Rattle.task_code_registers.specs.Registers.{IsPlace, IsSource};
ghost use Rattle.task_code_registers.specs.Scopes as spec;
ghost use Rattle.task_code_registers.specs.Strides.{AgreeOn};

use crate::holding::stride_of;
use crate::numbers::{emit_number, emit_plus, emit_times, fits};
use crate::registers::{HART_NUMBER, SECOND_SCRATCH, may_hold};
use crate::scopes::{AffineForm, Held};
use halide_pipeline::words;
use loop_ir::expressions::{Counter, Term, same_counter};
use rv_insn::AluOp;
use std::alloc::{AllocError, Global};
use task_code_scalar::instructions::alu;

// ---- the nearest form

/// Whether all strides are 0.
fn all_zero(terms: &[Term]) -> bool
    ensures yes { result ≡ true → (values : Values) → sum_of values terms.now ≡ 0 }
    ensures otherwise { result ≡ false → 1 ≤ length terms.now }
{
    match terms {
        [] => true,
        [first, others @ ..] => {
            if first.stride == 0 {
                all_zero(others)
            } else {
                false
            }
        }
    }
}

/// Whether two sums have the same terms in the same order.
pub fn same_terms(a: &[Term], b: &[Term]) -> bool
    ensures { result ≡ true → a.now ≡ b.now }
{
    match a {
        [] => b.is_empty(),
        [first, others @ ..] => match b {
            [] => false,
            [own, rest @ ..] => {
                if same_counter(first.counter, own.counter) && first.stride == own.stride {
                    same_terms(others, rest)
                } else {
                    false
                }
            }
        },
    }
}

/// Whether two sums have the same stride in all, of each loop variable of these terms.
fn have_same_strides(new_terms: &[Term], a: &[Term], b: &[Term]) -> bool
    ensures { result ≡ true → AgreeOn new_terms.now a.now b.now }
{
    match new_terms {
        [] => true,
        [first, others @ ..] => {
            stride_of(a, first.counter) == stride_of(b, first.counter)
                && have_same_strides(others, a, b)
        }
    }
}

/// Whether two sums have the same stride in all, of each loop variable.
fn have_strides_alike(a: &[Term], b: &[Term]) -> bool
    ensures { result ≡ true → (values : Values) → sum_of values a.now % 2 ^ 32 ≡ sum_of values b.now % 2 ^ 32 }
{
    have_same_strides(a, a, b) && have_same_strides(b, a, b)
}

/// The strides of all terms together.
fn all_strides(terms: &[Term]) -> u32 {
    let mut all = 0;
    for term in terms {
        all = words::add(all, term.stride);
    }
    all
}

/// Whether two sums of terms are the same in all iterations.
fn are_same(a: &[Term], b: &[Term]) -> bool
    ensures { result ≡ true → (values : Values) → sum_of values a.now % 2 ^ 32 ≡ sum_of values b.now % 2 ^ 32 }
{
    // Mostly their terms stand in the same order, or not even all strides together agree, which is seen sooner.
    same_terms(a, b) || (all_strides(a) == all_strides(b) && have_strides_alike(a, b))
}

/// By how much a form is more than another one, where that is the same number on all harts and in all iterations.
pub fn distance(form: &AffineForm, base: &AffineForm) -> Option<u32>
    ensures { IfSome result (IsApart form.now base.now) }
{
    if form.per_hart == base.per_hart
        && are_same(form.sum.terms.as_slice(), base.sum.terms.as_slice())
    {
        Some(words::subtract(form.sum.number, base.sum.number))
    } else {
        None
    }
}

/// So much it is, if that fits an immediate. Where their numbers are further apart, terms aren't looked at.
pub fn small_distance(form: &AffineForm, base: &AffineForm) -> Option<u32>
    ensures apart { IfSome result (IsApart form.now base.now) }
    ensures small { IfSome result Fits }
{
    if !fits(words::subtract(form.sum.number, base.sum.number)) {
        return None;
    }
    match distance(form, base) {
        Some(number) if fits(number) => Some(number),
        _ => None,
    }
}

/// Either of both.
fn wanted_distance(form: &AffineForm, base: &AffineForm, is_small: bool) -> Option<u32>
    ensures apart { IfSome result (IsApart form.now base.now) }
    ensures small { is_small ≡ true → IfSome result Fits }
{
    if is_small {
        small_distance(form, base)
    } else {
        distance(form, base)
    }
}

/// A register, and by how much a form is more than what it holds.
#[derive(Clone, Copy, Debug)]
pub struct NearForm {
    pub register: u8,
    pub number: u32,
}

/// A register whose form differs from this one by a number: by one that fits an immediate, if only these are wanted.
pub fn find(scope: &[Held], form: &AffineForm, is_small: bool) -> Option<NearForm>
    ensures small { is_small ≡ true → IfSome result (λ near. Fits near.number) }
    ensures near { IfSome result (λ near. IsNear scope.now form.now near.register near.number) }
{
    match scope {
        [] => None,
        [first, others @ ..] => {
            match wanted_distance(form, &first.form, is_small) {
                Some(number) => {
                    if may_hold(first.register) {
                        return Some(NearForm {
                            register: first.register,
                            number,
                        });
                    }
                }
                None => {}
            }
            find(others, form, is_small)
        }
    }
}

/// The nearest of them. For a number alone only a small difference counts, since a literal takes two instructions.
pub fn nearest(scope: &[Held], form: &AffineForm) -> Option<NearForm>
    ensures near { IfSome result (λ near. IsNear scope.now form.now near.register near.number) }
    ensures worth { IfSome result (λ near. IsWorth form.now near.number) }
{
    match find(scope, form, true) {
        Some(found) => Some(found),
        None => {
            if form.per_hart == 0 && all_zero(form.sum.terms.as_slice()) {
                return None;
            }
            find(scope, form, false)
        }
    }
}

// ---- registers of loop variables

/// Whether a form is a loop variable alone.
fn is_variable(counter: Counter, form: &AffineForm) -> bool
    ensures { result ≡ spec.is_variable counter form.now }
{
    form.sum.number == 0 && (form.per_hart == 0 && is_once(counter, form.sum.terms.as_slice()))
}

fn is_once(counter: Counter, terms: &[Term]) -> bool
    ensures { result ≡ spec.is_once counter terms.now }
{
    match terms {
        [own] => same_counter(own.counter, counter) && own.stride == 1,
        _ => false,
    }
}

/// Whether some register holds a loop variable alone.
pub(crate) fn has_variable(scope: &[Held], counter: Counter) -> bool
    ensures { result ≡ spec.has_variable scope.now counter }
{
    match scope {
        [] => false,
        [first, others @ ..] => {
            if may_hold(first.register) && is_variable(counter, &first.form) {
                true
            } else {
                has_variable(others, counter)
            }
        }
    }
}

/// Whether each loop variable of these terms has a register, but for those that count nothing.
pub fn have_registers(scope: &[Held], terms: &[Term]) -> bool
    ensures { result ≡ spec.have_registers scope.now terms.now }
{
    match terms {
        [] => true,
        [first, others @ ..] => {
            (first.stride == 0 || has_variable(scope, first.counter))
                && have_registers(scope, others)
        }
    }
}

/// The register that holds a loop variable alone.
pub fn register_of(scope: &[Held], counter: Counter) -> u8
    requires { spec.has_variable scope.now counter ≡ true }
    ensures { HoldsVariable scope.now counter result }
{
    match scope {
        [] => unreachable!(),
        [first, others @ ..] => {
            if may_hold(first.register) && is_variable(counter, &first.form) {
                first.register
            } else {
                register_of(others, counter)
            }
        }
    }
}

// ---- sums, term by term

/// Appends what adds the product of a register and a stride.
pub(crate) fn emit_term(code: &mut Vec<u32>, r: u8, s: u8, stride: u32) -> Result<(), AllocError>
    requires { IsPlace r × IsSource s }
    ensures { OnOk result (Makes code.old.items code.new.items 4 r (λ f. (f r + f s * stride) % 2 ^ 32)) }
{
    if stride == 1 {
        alu(code, AluOp::Add, r, r, s)?;
        return Ok(());
    }
    emit_times(code, SECOND_SCRATCH, s, stride)?;
    alu(code, AluOp::Add, r, r, SECOND_SCRATCH)?;
    Ok(())
}

/// Appends what leaves a number and the product of a register, which holds a word, and a stride.
pub(crate) fn emit_product(
    code: &mut Vec<u32>,
    r: u8,
    s: u8,
    stride: u32,
    number: u32,
) -> Result<(), AllocError>
    requires { IsPlace r × IsSource s }
    ensures { OnOk result (MakesOf code.old.items code.new.items 6 r s (λ v. (number + v * stride) % 2 ^ 32)) }
{
    if stride == 1 {
        emit_plus(code, r, s, number)?;
        return Ok(());
    }
    emit_times(code, r, s, stride)?;
    emit_plus(code, r, r, number)?;
    Ok(())
}

/// Appends what leaves a number and so much times the hart's number.
fn emit_base(code: &mut Vec<u32>, number: u32, per_hart: u32, r: u8) -> Result<(), AllocError>
    requires { IsPlace r }
    ensures { OnOk result (MakesBase code.old.items code.new.items r number per_hart) }
{
    if per_hart == 0 {
        emit_number(code, r, number)?;
        return Ok(());
    }
    emit_times(code, r, HART_NUMBER, per_hart)?;
    emit_plus(code, r, r, number)?;
    Ok(())
}

/// Appends what leaves a form's number, its part of the hart's number and these of its terms.
fn emit_sum(
    code: &mut Vec<u32>,
    scope: &[Held],
    form: &AffineForm,
    terms: &[Term],
    r: u8,
) -> Result<(), AllocError>
    requires place { IsPlace r }
    requires held { spec.have_registers scope.now terms.now ≡ true }
    ensures { OnOk result (MakesSum code.old.items code.new.items scope.now form.now terms.now r) }
{
    match terms {
        [] => {
            emit_base(code, form.sum.number, form.per_hart, r)?;
            Ok(())
        }
        [first, others @ ..] => {
            if first.stride == 0 {
                emit_sum(code, scope, form, others, r)?;
                return Ok(());
            }
            let s = register_of(scope, first.counter);
            if form.per_hart == 0 && all_zero(others) {
                emit_product(code, r, s, first.stride, form.sum.number)?;
                return Ok(());
            }
            emit_sum(code, scope, form, others, r)?;
            emit_term(code, r, s, first.stride)?;
            Ok(())
        }
    }
}

/// Appends what leaves a form's value in a register: from the nearest form that is held, or term by term.
///
/// # Errors
///
/// Memory ran out.
pub fn emit_form(
    code: &mut Vec<u32>,
    scope: &[Held],
    form: &AffineForm,
    r: u8,
) -> Result<(), AllocError>
    requires place { IsPlace r }
    requires held { spec.have_registers scope.now form.now.sum.terms ≡ true }
    ensures { OnOk result (MakesValue code.old.items code.new.items scope.now form.now r) }
{
    match nearest(scope, form) {
        Some(found) => {
            emit_plus(code, r, found.register, found.number)?;
            Ok(())
        }
        None => {
            emit_sum(code, scope, form, form.sum.terms.as_slice(), r)?;
            Ok(())
        }
    }
}

// ---- addresses

/// A register and an offset that fits an immediate, of which an address is the sum.
#[derive(Clone, Copy, Debug)]
pub struct At {
    pub register: u8,
    pub offset: u32,
}

/// The part of a number that an instruction's offset can hold: such that another immediate holds the rest, where that
/// goes, or else such that the rest has no low bits.
fn offset_of(number: u32) -> u32
    ensures { Fits result }
{
    if 2048 <= number && number < 4092 {
        return 2044;
    }
    if 0xffff_f000 <= number && number < 0xffff_f800 {
        return 0xffff_f800;
    }
    let low = number % 4096;
    if low < 2048 { low } else { 0xffff_f000 + low }
}

/// By how much a form is more than the nearest one that is held, or than its terms where there is none.
fn far_from(scope: &[Held], form: &AffineForm) -> u32 {
    match nearest(scope, form) {
        Some(found) => found.number,
        None => form.sum.number,
    }
}

/// The form without the part of a number that an offset can hold, and that part.
fn without_offset(
    alloc: Global,
    form: &AffineForm,
    number: u32,
) -> Result<(AffineForm, u32), AllocError>
    ensures { IfOk result (λ made. IsRest form.now made.0 made.1) }
{
    let offset = offset_of(number);
    let mut rest = form.copy(alloc)?;
    rest.sum.number = words::subtract(form.sum.number, offset);
    Ok((rest, offset))
}

/// Appends what makes an address, and where it then is. There is no code where a form that is near enough is held;
/// else the register is r.
///
/// # Errors
///
/// Memory ran out.
pub fn emit_address(
    alloc: Global,
    code: &mut Vec<u32>,
    scope: &[Held],
    form: &AffineForm,
    r: u8,
) -> Result<At, AllocError>
    requires place { IsPlace r }
    requires held { spec.have_registers scope.now form.now.sum.terms ≡ true }
    ensures { IfOk result (MakesFormAddress code.old.items code.new.items scope.now form.now r) }
{
    match find(scope, form, true) {
        Some(found) => {
            return Ok(At {
                register: found.register,
                offset: found.number,
            });
        }
        None => {}
    }
    let far = far_from(scope, form);
    let (rest, offset) = without_offset(alloc, form, far)?;
    emit_form(code, scope, &rest, r)?;
    Ok(At {
        register: r,
        offset,
    })
}
