//! Which register tells when a loop ends, and what it is compared with.

ghost use Rattle.std.specs.Prelude.{◌≡◌, [], ◌<◌, ◌≤◌, ◌^◌, IfErr, IfOk, true};
ghost use Rattle.task_code_scalar.specs.Faults.{IsFault};
ghost use Rattle.task_code_registers.specs.Looping as looping;
ghost use Rattle.task_code_registers.specs.Scopes.{left_count};
ghost use Rattle.task_code_loops.specs.Beginning as spec;
ghost use Rattle.task_code_loops.specs.Beginning.{Betters, HoldsPlainly, Tests, TestsForm, TestsForms};

use crate::bounds::Bound;
use crate::holding::hold_known;
use loop_ir::expressions::{Counter, Linear, Term};
use sqlite_items::Items;
use std::alloc::{AllocError, Global};
use task_code_registers::holding::{at_value, hold, is_test};
use task_code_registers::scopes::{AffineForm, Held};
use task_code_registers::terms::with_room;
use task_code_scalar::CodeFault;

/// What a loop's register is compared with after each iteration.
#[derive(Clone, Copy, Debug)]
pub enum Limit {
    Register(u8),
    /// A number that is made there.
    Number(u32),
}

/// What registers hold in a loop, the one that tells whether there is a next iteration, and what it is compared with.
#[derive(Debug, Drop)]
pub struct Tested {
    pub scope: Vec<Held>,
    pub register: u8,
    pub limit: Limit,
}

/// A loop variable as a form.
///
/// # Errors
///
/// Memory ran out.
pub fn variable(alloc: Global, counter: Counter) -> Result<AffineForm, AllocError>
    ensures { IfOk result (λ made. made ≡ spec.variable counter) }
{
    let mut terms = with_room(alloc, 1)?;
    terms.push(Term { counter, stride: 1 })?;
    Ok(AffineForm {
        sum: Linear { number: 0, terms },
        per_hart: 0,
    })
}

/// A number as a form.
pub fn number(alloc: Global, number: u32) -> AffineForm
    ensures { result ≡ spec.number number }
{
    AffineForm {
        sum: Linear {
            number,
            terms: Items::new(alloc),
        },
        per_hart: 0,
    }
}

/// Appends what holds the loop variable itself, which is compared with the count.
fn by_variable(
    alloc: Global,
    code: &mut Vec<u32>,
    scope: &[Held],
    counter: Counter,
    count: u32,
    reserved: usize,
) -> Result<Tested, CodeFault>
    ensures ok { IfOk result (Tests code.old.items code.new.items 10 counter count scope.now reserved) }
    ensures plain { IfOk result (λ tested. HoldsPlainly counter scope.now tested.scope.items) }
    ensures err { IfErr result (IsFault ⊥ (left_count scope.now ≤ reserved)) }
{
    let form = variable(alloc, counter)?;
    match hold(alloc, code, scope, counter, &form, reserved)? {
        Some(taken) => Ok(Tested {
            scope: taken.scope,
            register: taken.register,
            limit: Limit::Number(count),
        }),
        None => Err(CodeFault::TooDeep),
    }
}

/// Appends what holds a form and the number that it is after the last iteration, where both have registers; else the
/// loop variable.
fn by_form(
    alloc: Global,
    code: &mut Vec<u32>,
    scope: &[Held],
    bound: Bound,
    form: &AffineForm,
    reserved: usize,
) -> Result<Tested, CodeFault>
    requires test { looping.is_test bound.counter bound.count form.now ≡ true }
    requires few { reserved < 2 ^ 32 }
    ensures ok { IfOk result (TestsForm code.old.items code.new.items form.now bound.counter bound.count scope.now
        reserved) }
    ensures err { IfErr result (IsFault ⊥ (left_count scope.now ≤ reserved)) }
{
    let limit = at_value(alloc, form, bound.counter, bound.count)?;
    match hold_known(alloc, code, scope, bound.counter, form, reserved + 1)? {
        None => {
            let tested = by_variable(alloc, code, scope, bound.counter, bound.count, reserved)?;
            Ok(tested)
        }
        Some(own) => {
            let first = own.scope.as_slice();
            match hold_known(alloc, code, first, bound.counter, &limit, reserved)? {
                None => {
                    let tested = by_variable(
                        alloc,
                        code,
                        first,
                        bound.counter,
                        bound.count,
                        reserved,
                    )?;
                    Ok(tested)
                }
                Some(last) => Ok(Tested {
                    scope: last.scope,
                    register: own.register,
                    limit: Limit::Register(last.register),
                }),
            }
        }
    }
}

/// Appends what holds the first of these forms that tells when the loop ends, or else the loop variable.
///
/// # Errors
///
/// Memory ran out, or no more than this many registers are left.
pub fn begin_test(
    alloc: Global,
    code: &mut Vec<u32>,
    scope: &[Held],
    bound: Bound,
    wanted: &[AffineForm],
    reserved: usize,
) -> Result<Tested, CodeFault>
    requires { reserved < 2 ^ 32 }
    ensures ok { IfOk result (TestsForms code.old.items code.new.items wanted.now bound.counter bound.count scope.now
        reserved) }
    ensures plain { wanted.now ≡ [] → IfOk result (λ tested. HoldsPlainly bound.counter scope.now tested.scope.items) }
    ensures err { IfErr result (IsFault ⊥ (left_count scope.now ≤ reserved)) }
{
    match wanted {
        [] => {
            let tested = by_variable(alloc, code, scope, bound.counter, bound.count, reserved)?;
            Ok(tested)
        }
        [first, others @ ..] => {
            if is_test(first, bound.counter, bound.count) {
                let tested = by_form(alloc, code, scope, bound, first, reserved)?;
                return Ok(tested);
            }
            let tested = begin_test(alloc, code, scope, bound, others, reserved)?;
            Ok(tested)
        }
    }
}

/// Appends what holds a limit that is a number, where there is room.
///
/// # Errors
///
/// Memory ran out.
pub fn hold_limit(
    alloc: Global,
    code: &mut Vec<u32>,
    tested: Tested,
    counter: Counter,
    reserved: usize,
) -> Result<Tested, AllocError>
    ensures { IfOk result (Betters code.old.items code.new.items 6 counter reserved tested) }
{
    match tested.limit {
        Limit::Register(_) => Ok(tested),
        Limit::Number(end) => {
            let form = number(alloc, end);
            match hold(
                alloc,
                code,
                tested.scope.as_slice(),
                counter,
                &form,
                reserved,
            )? {
                None => Ok(tested),
                Some(taken) => Ok(Tested {
                    scope: taken.scope,
                    register: tested.register,
                    limit: Limit::Register(taken.register),
                }),
            }
        }
    }
}
