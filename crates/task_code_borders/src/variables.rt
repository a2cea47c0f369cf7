//! Loop variables that no stage has.

ghost use Rattle.std.specs.Prelude.{◌≡◌, IfSome};
ghost use Rattle.task_code_borders.specs.Borders as spec;

use loop_ir::expressions::{Counter, Term};
use schedule_lines::LoopId;

/// No Func has this number, and no name.
const BORDERS: usize = usize::MAX - 1;

/// Whether no stage has a loop variable.
pub fn is_border(counter: Counter) -> bool
    ensures { result ≡ spec.is_border counter }
{
    counter.func == BORDERS
}

/// What counts iterations, at a level.
pub fn iteration(level: usize) -> Counter
    ensures { result ≡ spec.iteration level }
{
    Counter {
        func: BORDERS,
        id: LoopId::Outer(level),
    }
}

/// What is at a number all the while.
pub fn number(own_number: u32) -> Counter
    ensures { result ≡ spec.number own_number }
{
    Counter {
        func: BORDERS,
        id: LoopId::Inner(own_number as usize),
    }
}

/// The number that a variable is at all the while, if it is such a one.
pub fn number_of(counter: Counter) -> Option<u32>
    ensures { IfSome result (λ n. counter ≡ spec.number n) }
{
    if !is_border(counter) {
        return None;
    }
    match counter.id {
        LoopId::Inner(own) => {
            if own < 1 << 32 {
                Some(own as u32)
            } else {
                None
            }
        }
        LoopId::Outer(_) => None,
        LoopId::Whole(_) => None,
    }
}

/// Whether a sum has a term of a variable that no stage has.
pub fn has_border(terms: &[Term]) -> bool
    ensures { result ≡ spec.has_border terms.now }
{
    match terms {
        [] => false,
        [first, others @ ..] => {
            if is_border(first.counter) {
                true
            } else {
                has_border(others)
            }
        }
    }
}
