//! Whether sums and forms have a term of a loop variable, and the number of names.

ghost use Rattle.std.specs.Prelude.{◌≡◌};
ghost use Rattle.task_code_registers.specs.Holding as holding;
ghost use Rattle.task_code_registers.specs.Strides.{has_counter};

use loop_ir::expressions::{Counter, Term, same_counter};
use task_code_registers::scopes::Held;

/// The number that the Func of a name has: no Func has it.
pub const NAMES: usize = usize::MAX;

/// Whether a sum has a term of a loop variable.
pub fn has_term(terms: &[Term], counter: Counter) -> bool
    ensures { result ≡ has_counter counter terms.now }
{
    match terms {
        [] => false,
        [first, others @ ..] => {
            if same_counter(first.counter, counter) {
                true
            } else {
                has_term(others, counter)
            }
        }
    }
}

/// Whether a form that some register holds has a term of a loop variable.
pub fn mentions(scope: &[Held], counter: Counter) -> bool
    ensures { result ≡ holding.mentions counter scope.now }
{
    match scope {
        [] => false,
        [first, others @ ..] => {
            if has_term(first.form.sum.terms.as_slice(), counter) {
                true
            } else {
                mentions(others, counter)
            }
        }
    }
}
