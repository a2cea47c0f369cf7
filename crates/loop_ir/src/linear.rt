//! Sums of loop variables, each times a stride.

ghost use Rattle.std.specs.Prelude.{◌≡◌, ◌≤◌, ◌+◌, ◌*◌, ◌%◌, ◌^◌, IfSome, OnOk, Some, length, slice_get};
ghost use Rattle.halide_pipeline.specs.Words as word;
ghost use Rattle.loop_ir.specs.Counters.{Values};
ghost use Rattle.loop_ir.specs.Expressions.{sum_of};

use crate::expressions::{Counter, Term, same_counter};
use halide_pipeline::words;
use sqlite_items::Items;
use std::alloc::AllocError;

/// Where a counter is in a sum, and its stride there.
fn place_of(terms: &[Term], counter: Counter) -> Option<(usize, u32)>
    ensures { IfSome result (λ found. slice_get terms.now found.0
        ≡ Some (record { counter = counter; stride = found.1 })) }
{
    for (place, own) in terms.iter().enumerate() {
        if same_counter(own.counter, counter) {
            return Some((place, own.stride));
        }
    }
    None
}

/// Adds a term. Terms of one counter become one.
fn add_term(terms: &mut Items<Term>, term: Term) -> Result<(), AllocError>
    ensures few { OnOk result (length terms.new ≤ length terms.old + 1) }
    ensures sum { OnOk result ((values : Values) → sum_of values terms.new % 2 ^ 32
        ≡ (sum_of values terms.old + values term.counter * term.stride) % 2 ^ 32) }
{
    match place_of(terms.as_slice(), term.counter) {
        Some((place, stride)) => {
            let merged = Term {
                counter: term.counter,
                stride: words::add(stride, term.stride),
            };
            terms.set(place, merged);
            Ok(())
        }
        None => {
            terms.push(term)?;
            Ok(())
        }
    }
}

/// Takes terms away from a sum.
pub fn take_away(terms: &mut Items<Term>, others: &[Term]) -> Result<(), AllocError>
    ensures few { OnOk result (length terms.new ≤ length terms.old + length others.now) }
    ensures sum { OnOk result ((values : Values) → (sum_of values terms.new + sum_of values others.now) % 2 ^ 32
        ≡ sum_of values terms.old % 2 ^ 32) }
{
    match others {
        [] => Ok(()),
        [first, rest @ ..] => {
            let opposite = Term {
                counter: first.counter,
                stride: words::subtract(0, first.stride),
            };
            add_term(terms, opposite)?;
            take_away(terms, rest)?;
            Ok(())
        }
    }
}
