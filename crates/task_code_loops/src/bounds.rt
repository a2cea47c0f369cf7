//! Forms that stay below an extent, so that they need no test, or past it, so that what they test is left out.

ghost use Rattle.std.specs.Prelude.{◌≡◌, IfSome, true};
ghost use Rattle.task_code_loops.specs.Bounds.{IsBelow, IsBound, IsMost, IsPast};

use loop_ir::expressions::{Counter, Term, same_counter};
use task_code_registers::scopes::AffineForm;

/// A loop variable, and how many iterations its loop has.
#[derive(Clone, Copy, Debug)]
pub struct Bound {
    pub counter: Counter,
    pub count: u32,
}

/// A number below which a loop variable stays, if one is known.
fn count_of(bounds: &[Bound], counter: Counter) -> Option<u32>
    ensures { IfSome result (IsBound bounds.now counter) }
{
    match bounds {
        [] => None,
        [first, others @ ..] => {
            if same_counter(first.counter, counter) {
                return Some(first.count);
            }
            count_of(others, counter)
        }
    }
}

/// The most that terms come to, where that is known and not large.
pub fn most_of(terms: &[Term], bounds: &[Bound]) -> Option<u64>
    ensures { IfSome result (IsMost bounds.now terms.now) }
{
    match terms {
        [] => Some(0),
        [first, others @ ..] => {
            let count = count_of(bounds, first.counter)?;
            let rest = most_of(others, bounds)?;
            if count == 0 || rest >= 1 << 32 {
                return None;
            }
            let own = u64::from(first.stride) * u64::from(count - 1);
            if own >= 1 << 32 {
                return None;
            }
            Some(own + rest)
        }
    }
}

/// Whether a form is known to stay below an extent: then it needs no test.
pub fn is_below(form: &AffineForm, bounds: &[Bound], extent: u32) -> bool
    ensures { result ≡ true → IsBelow bounds.now form.now extent }
{
    if form.per_hart != 0 {
        return false;
    }
    match most_of(form.sum.terms.as_slice(), bounds) {
        Some(most) => {
            if most >= 1 << 32 {
                return false;
            }
            u64::from(form.sum.number) + most < u64::from(extent)
        }
        None => false,
    }
}

/// Whether a form is known to be an extent or more.
pub fn is_past(form: &AffineForm, bounds: &[Bound], extent: u32) -> bool
    ensures { result ≡ true → IsPast bounds.now form.now extent }
{
    if form.per_hart != 0 || form.sum.number < extent {
        return false;
    }
    match most_of(form.sum.terms.as_slice(), bounds) {
        Some(most) => {
            if most >= 1 << 32 {
                return false;
            }
            u64::from(form.sum.number) + most < 1 << 32
        }
        None => false,
    }
}
