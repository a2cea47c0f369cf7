//! Loops in two parts: first iterations that are a loop, in which all tests of split loops inside pass, and those after
//! them, which are laid out. How many are which is a guess, of which nothing is promised.

ghost use Rattle.std.specs.Prelude.{◌≡◌, ◌≤◌, IfOk, true};
ghost use Rattle.task_code_loops.specs.Bounds.{IsPast};
ghost use Rattle.task_code_statements.specs.Idling.{IsIdle};

use crate::contexts::{Context, in_loop};
use crate::splits::{enter_split, is_cut};
use crate::staying::may_stay_in;
use crate::vectorizing::is_at_once;
use loop_ir::expressions::{Counter, Linear, Term, same_counter};
use loop_ir::statements::{LoopKind, Stmt, Whole};
use std::alloc::{AllocError, Global};
use task_code_loops::bounds::{Bound, is_past};
use task_code_scalar::CodeFault;

/// The largest number that isn't negative.
const LARGEST: u32 = (1 << 31) - 1;

// ---- iterations that do nothing

/// Whether a statement is known to do nothing: it is the body of a split loop whose value is past the extent, or loops
/// around such a one.
///
/// # Errors
///
/// As of the code of the statement.
pub(crate) fn is_idle(alloc: Global, context: &Context, statement: &Stmt) -> Result<bool, CodeFault>
    ensures { IfOk result (λ answer. answer ≡ true → IsIdle context.now statement.now) }
{
    match statement {
        Stmt::Store(_) => Ok(false),
        Stmt::Sequence(_, _) => Ok(false),
        Stmt::For(counter, count, _, body) => {
            let own = Bound {
                counter: *counter,
                count: *count,
            };
            let inner = in_loop(alloc, context, own)?;
            let answer = is_idle(alloc, &inner, body.get())?;
            Ok(answer)
        }
        Stmt::Bind(counter, whole, extent, body) => {
            // Where its last run is moved back, its value may be no sum.
            if whole.last.is_some() {
                return Ok(false);
            }
            let entered = enter_split(alloc, context, *counter, whole)?;
            if is_past(&entered.form, context.bounds.as_slice(), *extent) {
                return Ok(true);
            }
            let answer = is_idle(alloc, &entered.inner, body.get())?;
            Ok(answer)
        }
    }
}

// ---- how many

/// This many first iterations of a loop pass all tests inside, and this many first ones do anything.
#[derive(Clone, Copy, Debug)]
struct Passing {
    all: u32,
    some: u32,
}

/// A loop of whose tests it is asked, the loops inside around them, whether they stand around all that it does, and
/// whether a test counts that last lanes alone fail, which costs little: it leaves a number of lanes.
#[derive(Clone, Copy, Debug)]
struct TestedLoop<'a> {
    own: Bound,
    inside: &'a [Bound],
    is_around: bool,
    by_lanes: bool,
}

impl<'a> TestedLoop<'a> {
    /// A loop as it counts here.
    fn counted(&self, bound: Bound, kind: LoopKind) -> Bound {
        if is_at_once(kind) && !self.by_lanes {
            return Bound {
                counter: bound.counter,
                count: 1,
            };
        }
        bound
    }

    /// After other statements.
    fn beside(&self) -> TestedLoop<'a> {
        TestedLoop {
            own: self.own,
            inside: self.inside,
            is_around: false,
            by_lanes: self.by_lanes,
        }
    }

    /// What a test leaves of iterations that others leave.
    fn behind(&self, passing: Passing, sum: &Linear, extent: u32) -> Passing {
        let own = self.own;
        let Some(climb) = climb_of(own.counter, self.inside, sum.terms.as_slice()) else {
            return passing;
        };
        if climb.stride == 0 {
            return passing;
        }
        let number = u64::from(sum.number);
        let highest = number.saturating_add(climb.most);
        let all = count_within(own.count, highest, climb.stride, extent);
        let some = if self.is_around {
            count_within(own.count, number, climb.stride, extent)
        } else {
            own.count
        };
        Passing {
            all: passing.all.min(all),
            some: passing.some.min(some),
        }
    }
}

/// A test inside a loop: how its value goes up with the loop's iterations and, at most, with those of loops inside.
#[derive(Clone, Copy, Debug)]
struct Climb {
    stride: u64,
    most: u64,
}

/// The number of iterations of one of these loops, if it is one of them.
fn count_among(inside: &[Bound], counter: Counter) -> Option<u32> {
    for own in inside {
        if same_counter(own.counter, counter) {
            return Some(own.count);
        }
    }
    None
}

/// Loops and one more.
fn and_one(alloc: Global, inside: &[Bound], bound: Bound) -> Result<Vec<Bound>, AllocError> {
    let mut more = inside.to_vec(alloc)?;
    more.push(bound)?;
    Ok(more)
}

/// How a sum goes up with a loop's iterations, where all else that it depends on are loops inside.
fn climb_of(counter: Counter, inside: &[Bound], terms: &[Term]) -> Option<Climb> {
    let mut stride: u64 = 0;
    let mut most: u64 = 0;
    for term in terms {
        if term.stride > LARGEST {
            return None;
        }
        if same_counter(term.counter, counter) {
            stride = stride.saturating_add(u64::from(term.stride));
        } else {
            let count = count_among(inside, term.counter)?;
            let steps = u64::from(count.saturating_sub(1));
            most = most.saturating_add(u64::from(term.stride).saturating_mul(steps));
        }
    }
    Some(Climb { stride, most })
}

/// How many first iterations stay below an extent, of this many, where they begin at a number and go up by a stride.
fn count_within(count: u32, start: u64, stride: u64, extent: u32) -> u32 {
    let Some(room) = u64::from(extent).checked_sub(start) else {
        return 0;
    };
    if stride == 0 {
        return count;
    }
    let found = room.saturating_add(stride - 1) / stride;
    if found < u64::from(count) {
        found as u32
    } else {
        count
    }
}

/// What the tests of split loops in a loop's body leave of its iterations.
fn left_by_tests(
    alloc: Global,
    context: &Context,
    asked: &TestedLoop<'_>,
    body: &Stmt,
    passing: Passing,
) -> Result<Passing, CodeFault> {
    match body {
        Stmt::Store(_) => Ok(passing),
        Stmt::Sequence(first, second) => {
            let beside = asked.beside();
            let one = left_by_tests(alloc, context, &beside, first.get(), passing)?;
            left_by_tests(alloc, context, &beside, second.get(), one)
        }
        Stmt::For(counter, count, kind, within) => {
            let own = Bound {
                counter: *counter,
                count: *count,
            };
            let inner = in_loop(alloc, context, own)?;
            let more = and_one(alloc, asked.inside, asked.counted(own, *kind))?;
            let next = TestedLoop {
                own: asked.own,
                inside: more.as_slice(),
                is_around: asked.is_around,
                by_lanes: asked.by_lanes,
            };
            left_by_tests(alloc, &inner, &next, within.get(), passing)
        }
        Stmt::Bind(counter, whole, extent, within) => {
            if whole.last.is_some() {
                let own = Bound {
                    counter: *counter,
                    count: *extent,
                };
                let inner = in_loop(alloc, context, own)?;
                return left_by_tests(alloc, &inner, asked, within.get(), passing);
            }
            let entered = enter_split(alloc, context, *counter, whole)?;
            let next = asked.behind(passing, &entered.form.sum, *extent);
            left_by_tests(alloc, &entered.inner, asked, within.get(), next)
        }
    }
}

/// Whether a statement has a test of a split loop that some iterations may fail: where its factor divides its extent,
/// none does.
pub(crate) fn has_test(statement: &Stmt) -> bool {
    match statement {
        Stmt::Store(_) => false,
        Stmt::Sequence(first, second) => has_test(first.get()) || has_test(second.get()),
        Stmt::For(_, _, _, body) => has_test(body.get()),
        Stmt::Bind(_, whole, extent, body) => may_fail(whole, *extent) || has_test(body.get()),
    }
}

/// Whether the factor of a split loop that is guarded doesn't divide its extent.
fn may_fail(whole: &Whole, extent: u32) -> bool {
    whole.last.is_none() && whole.factor != 0 && extent % whole.factor != 0
}

/// Whether a statement is one vectorized loop, after tests or not.
fn is_run(statement: &Stmt) -> bool {
    match statement {
        Stmt::Store(_) => false,
        Stmt::Sequence(_, _) => false,
        Stmt::For(_, _, kind, _) => is_at_once(*kind),
        Stmt::Bind(_, _, _, body) => is_run(body.get()),
    }
}

/// This many runs of a row inside other loops are laid out.
const FEW_RUNS: u32 = 4;

/// Whether a loop does few runs, one after the other.
fn is_few_runs(count: u32, body: &Stmt) -> bool {
    1 < count && count <= FEW_RUNS && is_run(body)
}

/// Whether some loop of a statement does few runs.
pub(crate) fn has_few_runs(statement: &Stmt) -> bool {
    match statement {
        Stmt::Store(_) => false,
        Stmt::Sequence(first, second) => has_few_runs(first.get()) || has_few_runs(second.get()),
        Stmt::For(_, count, kind, body) => {
            !is_at_once(*kind) && (is_few_runs(*count, body.get()) || has_few_runs(body.get()))
        }
        Stmt::Bind(_, _, _, body) => has_few_runs(body.get()),
    }
}

/// Whether a loop is a row of few runs, none of which has a part that is worth a name in front of the loop.
fn is_row_of_runs(
    alloc: Global,
    context: &Context,
    bound: Bound,
    body: &Stmt,
) -> Result<bool, AllocError> {
    if !is_few_runs(bound.count, body) || context.bounds.len() < 2 {
        return Ok(false);
    }
    let has_names = may_stay_in(alloc, bound.counter, body)?;
    Ok(!has_names)
}

/// How many first iterations are a loop by the tests inside; a row of few runs may be laid out.
fn tested_part(
    alloc: Global,
    context: &Context,
    bound: Bound,
    body: &Stmt,
) -> Result<u32, CodeFault> {
    if !context.manner.is_parted {
        return Ok(bound.count);
    }
    let is_row = is_row_of_runs(alloc, context, bound, body)?;
    if is_row && context.manner.has_rows {
        return Ok(0);
    }
    if !has_test(body) {
        return Ok(bound.count);
    }
    let asked = TestedLoop {
        own: bound,
        inside: &[],
        is_around: true,
        by_lanes: is_row,
    };
    let every = Passing {
        all: bound.count,
        some: bound.count,
    };
    let inner = in_loop(alloc, context, bound)?;
    let found = left_by_tests(alloc, &inner, &asked, body, every)?;
    if found.all == bound.count {
        return Ok(bound.count);
    }
    if is_row {
        return Ok(0);
    }
    if found.all.saturating_add(1) < found.some {
        return Ok(found.some);
    }
    if found.all < 2 { Ok(0) } else { Ok(found.all) }
}

/// How many first iterations of a loop are one after the other; those after them are laid out.
///
/// # Errors
///
/// As of the code of the loop.
pub(crate) fn loop_part(
    alloc: Global,
    context: &Context,
    bound: Bound,
    body: &Stmt,
) -> Result<u32, CodeFault>
    ensures { IfOk result (λ first. first ≤ bound.count) }
{
    if is_cut(body, bound) {
        if bound.count == 2 {
            return Ok(0);
        }
        return Ok(bound.count - 1);
    }
    let first = tested_part(alloc, context, bound, body)?;
    if first > bound.count {
        return Ok(bound.count);
    }
    Ok(first)
}
