//! What is in front of a loop.

ghost use Rattle.std.specs.Prelude.{◌≡◌, [], ◌<◌, ◌≤◌, ◌^◌, IfErr, IfOk, false};
ghost use Rattle.task_code_scalar.specs.Faults.{IsFault};
ghost use Rattle.task_code_registers.specs.Holding.{mentions};
ghost use Rattle.task_code_registers.specs.Scopes.{left_count};
ghost use Rattle.task_code_loops.specs.Beginning.{Begins, HoldsPlainly};

use crate::bounds::Bound;
use crate::holding::hold_all;
use crate::tests::{Limit, Tested, begin_test, hold_limit};
use loop_ir::expressions::Counter;
use std::alloc::Global;
use task_code_registers::scopes::{AffineForm, Held};
use task_code_scalar::CodeFault;

/// A loop whose body may be appended: what registers hold in its iterations, the one of them that tells whether there
/// is a next one, and what it is compared with.
#[derive(Debug)]
pub struct BegunLoop {
    pub counter: Counter,
    pub count: u32,
    pub inner: Vec<Held>,
    pub register: u8,
    pub limit: Limit,
}

impl Drop for BegunLoop {
    fn drop(self) {
        let BegunLoop {
            inner,
            counter: _,
            count: _,
            register: _,
            limit: _,
        } = self;
        drop(inner);
    }
}

/// Appends what is in front of a loop of this many iterations: what holds these forms, as far as registers go with so
/// many left for what is inside, and what tells when the loop ends, the first of these forms that does, or else
/// the loop variable. With no forms wanted it is held, and but for it no more than a number.
///
/// # Errors
///
/// Memory ran out, or no more than this many registers are left.
pub fn begin_loop(
    alloc: Global,
    code: &mut Vec<u32>,
    scope: &[Held],
    bound: Bound,
    wanted: &[AffineForm],
    reserved: usize,
) -> Result<BegunLoop, CodeFault>
    requires loop_invariant { mentions bound.counter scope.now ≡ false }
    requires some { 1 ≤ bound.count }
    requires few { reserved < 2 ^ 32 }
    ensures ok { IfOk result (Begins code.old.items code.new.items wanted.now bound.counter bound.count scope.now
        reserved) }
    ensures plain { wanted.now ≡ [] → IfOk result (λ begun. HoldsPlainly bound.counter scope.now begun.inner.items) }
    ensures err { IfErr result (IsFault ⊥ (left_count scope.now ≤ reserved)) }
{
    let Tested {
        scope: first,
        register,
        limit,
    } = begin_test(alloc, code, scope, bound, wanted, reserved)?;
    let inner = hold_all(alloc, code, first, bound.counter, wanted, reserved)?;
    let tested = Tested {
        scope: inner,
        register,
        limit,
    };
    let last = hold_limit(alloc, code, tested, bound.counter, reserved)?;
    Ok(BegunLoop {
        counter: bound.counter,
        count: bound.count,
        inner: last.scope,
        register: last.register,
        limit: last.limit,
    })
}
