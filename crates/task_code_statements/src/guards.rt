//! Tests that a vectorized loop's store is under: those that depend on no lane pass for all lanes or for none, and
//! the others for the first lanes alone.

ghost use Rattle.std.specs.Prelude.{◌≡◌, IfOk, OnOk, true, [], ◌∷◌, ◌++◌};
ghost use Rattle.task_code_registers.specs.Holding.{IsAt};
ghost use Rattle.task_code_statements.specs.Vectorizing.{AddsLeft, AreTests, GuardsLack, IsLeft, IsParted, OneMore};
ghost use Rattle.task_code_statements.specs.Vectorizing.{TestFirst, TestToo, WordsBehind};

use loop_ir::expressions::{Counter, Linear};
use std::alloc::{AllocError, Global};
use task_code_loops::bounds::{Bound, is_below};
use task_code_loops::guards::emit_guarded;
use task_code_registers::holding::{at_value, stride_of};
use task_code_registers::scopes::{AffineForm, Held};
use task_code_scalar::{CodeFault, append};
use task_code_vector_loops::left::Left;
use task_code_vector_loops::terms::has_term;

/// The largest extent that leaves no negative number.
const MOST_EXTENT: u32 = (1 << 31) - 1;

/// The largest stride at which no sum that begins below that extent passes 2^32 in a run.
const MOST_STRIDE: u32 = 1 << 27;

/// A sum that has to be below an extent.
#[derive(Debug)]
pub struct Guard {
    pub sum: Linear,
    pub extent: u32,
}

impl Drop for Guard {
    fn drop(self) {
        let Guard { sum, extent: _ } = self;
        drop(sum);
    }
}

/// Tests that depend on no lane, and those that do.
#[derive(Debug, Drop)]
struct Parted {
    pub fixed: Vec<Guard>,
    pub hanging: Vec<Guard>,
}

/// Whether no test's sum has a term of a loop variable.
pub fn guards_lack(guards: &[Guard], counter: Counter) -> bool
    ensures { result ≡ true → GuardsLack counter guards.now }
{
    match guards {
        [] => true,
        [first, others @ ..] => {
            if has_term(first.sum.terms.as_slice(), counter) {
                false
            } else {
                guards_lack(others, counter)
            }
        }
    }
}

/// Adds a test to others.
fn with_guard(guards: Vec<Guard>, sum: Linear, extent: u32) -> Result<Vec<Guard>, AllocError>
    ensures { IfOk result (λ made. OneMore guards.items (record { sum = sum; extent = extent }) made.items) }
{
    let mut made = guards;
    made.push(Guard { sum, extent })?;
    Ok(made)
}

/// Adds a test to others, unless it is known to pass.
pub fn add_test(
    bounds: &[Bound],
    guards: &mut Vec<Guard>,
    form: AffineForm,
    extent: u32,
) -> Result<(), AllocError>
    ensures { OnOk result (TestToo bounds.now guards.old.items (record { sum = form.sum; extent = extent })
        guards.new.items) }
{
    if is_below(&form, bounds, extent) {
        return Ok(());
    }
    guards.push(Guard {
        sum: form.sum,
        extent,
    })?;
    Ok(())
}

/// Tests by whether they depend on a loop's lanes.
fn by_lanes(alloc: Global, guards: &[Guard], counter: Counter) -> Result<Parted, AllocError>
    ensures { IfOk result (IsParted counter guards.now) }
{
    match guards {
        [] => Ok(Parted {
            fixed: Vec::new(alloc),
            hanging: Vec::new(alloc),
        }),
        [first, others @ ..] => {
            let Parted { fixed, hanging } = by_lanes(alloc, others, counter)?;
            let sum = first.sum.copy(alloc)?;
            let extent = first.extent;
            if has_term(first.sum.terms.as_slice(), counter) {
                let hanging = with_guard(hanging, sum, extent)?;
                return Ok(Parted { fixed, hanging });
            }
            let fixed = with_guard(fixed, sum, extent)?;
            Ok(Parted { fixed, hanging })
        }
    }
}

/// A test's form in the first iteration of a loop.
fn first_of(alloc: Global, counter: Counter, guard: &Guard) -> Result<AffineForm, AllocError>
    ensures { IfOk result (IsAt counter 0 (record { sum = guard.now.sum; per_hart = 0 })) }
{
    let sum = guard.sum.copy(alloc)?;
    let form = AffineForm { sum, per_hart: 0 };
    let start = at_value(alloc, &form, counter, 0)?;
    Ok(start)
}

/// How many iterations pass a test from one on, where the first one passes.
fn left_of(
    alloc: Global,
    bounds: &[Bound],
    counter: Counter,
    guard: &Guard,
) -> Result<Left, CodeFault>
    ensures { IfOk result (IsLeft bounds.now counter guard.now) }
{
    let stride = stride_of(guard.sum.terms.as_slice(), counter);
    if stride == 0 || stride > MOST_STRIDE || guard.extent > MOST_EXTENT {
        return Err(CodeFault::TooDeep);
    }
    let start = first_of(alloc, counter, guard)?;
    if !is_below(&start, bounds, MOST_EXTENT) {
        return Err(CodeFault::TooDeep);
    }
    let extent = Linear::of_number(alloc, guard.extent + (stride - 1));
    let sum = extent.minus(&guard.sum)?;
    Ok(Left { sum, stride })
}

/// Adds what a test leaves to what others do.
fn push_left(left: &mut Vec<Left>, left_store: Left) -> Result<(), AllocError>
    ensures { OnOk result (left.new.items ≡ left.old.items ++ (left_store ∷ [])) }
{
    left.push(left_store)?;
    Ok(())
}

/// Adds how many iterations pass each test from one on, where the first one passes it.
fn add_left(
    alloc: Global,
    bounds: &[Bound],
    counter: Counter,
    left: &mut Vec<Left>,
    guards: &[Guard],
) -> Result<(), CodeFault>
    ensures { OnOk result (AddsLeft bounds.now counter guards.now left.old.items left.new.items) }
{
    match guards {
        [] => Ok(()),
        [first, others @ ..] => {
            let own = left_of(alloc, bounds, counter, first)?;
            push_left(left, own)?;
            add_left(alloc, bounds, counter, left, others)?;
            Ok(())
        }
    }
}

/// Adds the tests of the first lane to others, but those that are known to pass.
fn add_tests_at_start(
    alloc: Global,
    bounds: &[Bound],
    counter: Counter,
    fixed: &mut Vec<Guard>,
    hanging: &[Guard],
) -> Result<(), AllocError>
    ensures { OnOk result (TestFirst bounds.now counter fixed.old.items hanging.now fixed.new.items) }
{
    match hanging {
        [] => Ok(()),
        [first, others @ ..] => {
            let start = first_of(alloc, counter, first)?;
            add_test(bounds, fixed, start, first.extent)?;
            add_tests_at_start(alloc, bounds, counter, fixed, others)?;
            Ok(())
        }
    }
}

/// Tests of a loop's first iteration, and how many iterations pass from there on, by each test that depends on lanes.
#[derive(Drop)]
pub struct Tests {
    pub fixed: Vec<Guard>,
    pub left: Vec<Left>,
}

/// What of tests is asked in front of a loop.
///
/// # Errors
///
/// Memory ran out, or the sum of a test that depends on the loop's lanes grows by so much, or may be so large, that it
/// overflows.
pub fn tests_of(
    alloc: Global,
    bounds: &[Bound],
    counter: Counter,
    guards: &[Guard],
) -> Result<Tests, CodeFault>
    ensures { IfOk result (AreTests bounds.now counter guards.now) }
{
    let Parted { mut fixed, hanging } = by_lanes(alloc, guards, counter)?;
    add_tests_at_start(alloc, bounds, counter, &mut fixed, hanging.as_slice())?;
    let mut left = Vec::new(alloc);
    add_left(alloc, bounds, counter, &mut left, hanging.as_slice())?;
    Ok(Tests { fixed, left })
}

/// Appends words that are passed by where not all tests pass.
pub fn emit_behind(
    alloc: Global,
    code: &mut Vec<u32>,
    scope: &[Held],
    guards: &[Guard],
    words: &[u32],
) -> Result<(), CodeFault>
    ensures { OnOk result (WordsBehind code.old.items code.new.items scope.now guards.now words.now) }
{
    match guards {
        [] => {
            append(code, words)?;
            Ok(())
        }
        [first, others @ ..] => {
            let sum = first.sum.copy(alloc)?;
            let form = AffineForm { sum, per_hart: 0 };
            let mut inner = Vec::new(alloc);
            emit_guarded(&mut inner, scope, &form, first.extent, words)?;
            emit_behind(alloc, code, scope, others, inner.as_slice())?;
            Ok(())
        }
    }
}
