//! Loop variables that are sums of others, or numbers, while code runs: those of loops that run once, of unrolled ones,
//! and of split ones.

ghost use Rattle.std.specs.Prelude.{◌≡◌, ◌++◌, ◌+◌, ◌*◌, ◌%◌, ◌^◌, IfOk, IfSome, OnOk};
ghost use Rattle.task_code_registers.specs.Points.{times};
ghost use Rattle.task_code_loops.specs.Known.{AddsTerm, AddsTerms, IsKnownSum, IsRewritten, IsRewrittenSum};

use halide_pipeline::words;
use loop_ir::expressions::{Counter, Linear, Term, same_counter};
use sqlite_items::Items;
use std::alloc::{AllocError, Global};
use task_code_registers::scopes::AffineForm;
use task_code_registers::terms::with_room;

/// A loop variable, and the sum that it is.
#[derive(Debug)]
pub struct KnownSum {
    pub counter: Counter,
    pub sum: Linear,
}

impl Drop for KnownSum {
    fn drop(self) {
        let KnownSum { sum, counter: _ } = self;
        drop(sum);
    }
}

/// The sum that a loop variable is, if that is known.
fn known_sum<'a>(known: &'a [KnownSum], counter: Counter) -> Option<&'a Linear>
    ensures { IfSome result (λ sum. IsKnownSum known.now counter sum.now) }
{
    match known {
        [] => None,
        [first, others @ ..] => {
            if same_counter(first.counter, counter) {
                return Some(&first.sum);
            }
            known_sum(others, counter)
        }
    }
}

/// Appends terms times a number.
///
/// # Errors
///
/// Memory ran out.
pub fn add_scaled(
    new_terms: &mut Items<Term>,
    terms: &[Term],
    factor: u32,
) -> Result<(), AllocError>
    ensures { OnOk result (new_terms.new ≡ new_terms.old ++ times factor terms.now) }
{
    match terms {
        [] => Ok(()),
        [first, others @ ..] => {
            let stride = words::multiply(first.stride, factor);
            new_terms.push(Term {
                counter: first.counter,
                stride,
            })?;
            add_scaled(new_terms, others, factor)?;
            Ok(())
        }
    }
}

/// Adds terms to a sum, those of known loop variables by the sums that these are.
fn add_known(new_sum: &mut Linear, terms: &[Term], known: &[KnownSum]) -> Result<(), AllocError>
    ensures { OnOk result (AddsTerms known.now new_sum.old new_sum.new terms.now) }
{
    match terms {
        [] => Ok(()),
        [first, others @ ..] => {
            add_one(new_sum, first, known)?;
            add_known(new_sum, others, known)?;
            Ok(())
        }
    }
}

/// One term.
fn add_one(new_sum: &mut Linear, term: &Term, known: &[KnownSum]) -> Result<(), AllocError>
    ensures { OnOk result (AddsTerm known.now new_sum.old new_sum.new term.now) }
{
    match known_sum(known, term.counter) {
        Some(sum) => {
            add_scaled(&mut new_sum.terms, sum.terms.as_slice(), term.stride)?;
            let more = words::multiply(term.stride, sum.number);
            new_sum.number = words::add(new_sum.number, more);
            Ok(())
        }
        None => {
            new_sum.terms.push(*term)?;
            Ok(())
        }
    }
}

/// A sum by the loop variables that aren't known.
///
/// # Errors
///
/// Memory ran out.
pub fn sum_by_others(
    alloc: Global,
    new_sum: &Linear,
    known: &[KnownSum],
) -> Result<Linear, AllocError>
    ensures { IfOk result (IsRewrittenSum known.now new_sum.now) }
{
    if known.is_empty() {
        let sum = new_sum.copy(alloc)?;
        return Ok(sum);
    }
    // Room for one term more: a split loop's variable is a sum of those of two loops.
    let terms = with_room(alloc, new_sum.terms.len().saturating_add(1))?;
    let mut sum = Linear {
        number: new_sum.number,
        terms,
    };
    add_known(&mut sum, new_sum.terms.as_slice(), known)?;
    Ok(sum)
}

/// A form by the loop variables that aren't known.
///
/// # Errors
///
/// Memory ran out.
pub fn by_others(
    alloc: Global,
    form: &AffineForm,
    known: &[KnownSum],
) -> Result<AffineForm, AllocError>
    ensures { IfOk result (IsRewritten known.now form.now) }
{
    let sum = sum_by_others(alloc, &form.sum, known)?;
    Ok(AffineForm {
        sum,
        per_hart: form.per_hart,
    })
}
