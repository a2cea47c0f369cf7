//! Forms that a loop's body uses, and how often. Guesses, of which nothing is promised.

use crate::known::{KnownSum, by_others};
use loop_ir::expressions::{Counter, same_counter};
use std::alloc::{AllocError, Global};
use task_code_registers::holding::{at_value, stride_of};
use task_code_registers::numbers::fits;
use task_code_registers::scopes::AffineForm;
use task_code_registers::sums::small_distance;

/// So far an immediate reaches.
const MOST_NEAR: u64 = 2048;

/// A form, and how often one near it is used.
#[derive(Debug, Drop)]
pub(crate) struct Use {
    pub form: AffineForm,
    pub times: u32,
}

/// Where a form is that is near this one.
fn place_near(uses: &[Use], form: &AffineForm) -> Option<usize> {
    for (place, own) in uses.iter().enumerate() {
        if small_distance(form, &own.form).is_some() {
            return Some(place);
        }
    }
    None
}

/// Whether an instruction makes a form of nothing.
fn is_small(form: &AffineForm) -> bool {
    form.sum.terms.len() == 0 && form.per_hart == 0 && fits(form.sum.number)
}

/// Counts this many uses of a form.
pub(crate) fn count(uses: &mut Vec<Use>, form: AffineForm, times: u32) -> Result<(), AllocError> {
    match place_near(uses.as_slice(), &form) {
        Some(place) => {
            if place < uses.len() {
                uses[place].times = uses[place].times.saturating_add(times);
            }
            Ok(())
        }
        None => {
            uses.push(Use { form, times })?;
            Ok(())
        }
    }
}

/// Whether a form has a term of a loop variable.
fn has_counter(form: &AffineForm, counter: Counter) -> bool {
    form.sum
        .terms
        .as_slice()
        .iter()
        .any(|term| same_counter(term.counter, counter))
}

/// Counts a form as it is in one iteration of a loop. What it serves counts for the first iteration's too: that one is
/// wanted first.
fn count_at(
    alloc: Global,
    form: &AffineForm,
    times: u32,
    counter: Counter,
    iteration: u32,
    uses: &mut Vec<Use>,
) -> Result<(), AllocError> {
    let start = at_value(alloc, form, counter, 0)?;
    if iteration == 0 {
        return count(uses, start, times);
    }
    let here = at_value(alloc, form, counter, iteration)?;
    count(uses, here, times)?;
    count(uses, start, times)
}

/// Whether a form in a loop's first iteration is near it in this many.
fn is_near_in_all(form: &AffineForm, counter: Counter, count: u32) -> bool {
    let stride = stride_of(form.sum.terms.as_slice(), counter);
    let steps = count.saturating_sub(1);
    let up = u64::from(stride).saturating_mul(u64::from(steps));
    let down = u64::from(0_u32.wrapping_sub(stride)).saturating_mul(u64::from(steps));
    up < MOST_NEAR || down < MOST_NEAR
}

/// Counts a form as it is in a loop's first iteration, or in each one where this many are laid out.
fn count_in_each(
    alloc: Global,
    form: AffineForm,
    times: u32,
    counter: Counter,
    laid_out: u32,
    uses: &mut Vec<Use>,
) -> Result<(), AllocError> {
    if !has_counter(&form, counter) {
        return count(uses, form, times);
    }
    let start = at_value(alloc, &form, counter, 0)?;
    if is_small(&start) {
        return Ok(());
    }
    if is_near_in_all(&form, counter, laid_out) {
        return count(uses, start, times);
    }
    for iteration in 0..laid_out {
        count_at(alloc, &form, times, counter, iteration, uses)?;
    }
    Ok(())
}

/// Counts forms as they are in a loop's first iteration, or in each one where this many are laid out.
pub(crate) fn count_inside(
    alloc: Global,
    inner: Vec<Use>,
    counter: Counter,
    laid_out: u32,
    uses: &mut Vec<Use>,
) -> Result<(), AllocError> {
    for own in inner {
        let Use { form, times } = own;
        count_in_each(alloc, form, times, counter, laid_out, uses)?;
    }
    Ok(())
}

/// A form by the loop variables that aren't known, for guesses, which need no promise: it is made once more only where
/// it has known ones.
///
/// # Errors
///
/// Memory ran out.
pub fn form_by_others(
    alloc: Global,
    form: AffineForm,
    known: &[KnownSum],
) -> Result<AffineForm, AllocError> {
    if known.iter().any(|own| has_counter(&form, own.counter)) {
        by_others(alloc, &form, known)
    } else {
        Ok(form)
    }
}

/// Counts forms by other loop variables.
pub(crate) fn count_by_others(
    alloc: Global,
    inner: Vec<Use>,
    known: &[KnownSum],
    uses: &mut Vec<Use>,
) -> Result<(), AllocError> {
    for own in inner {
        let Use { form, times } = own;
        let form = form_by_others(alloc, form, known)?;
        count(uses, form, times)?;
    }
    Ok(())
}

/// Where the form is that is used most; none where there is none.
fn most_used(uses: &[Use]) -> Option<usize> {
    let mut best = None;
    let mut most = 0;
    for (place, own) in uses.iter().enumerate() {
        if own.times > most {
            best = Some(place);
            most = own.times;
        }
    }
    best
}

/// The forms, most used first.
///
/// # Errors
///
/// Memory ran out.
pub(crate) fn most_used_first(
    alloc: Global,
    uses: Vec<Use>,
) -> Result<Vec<AffineForm>, AllocError> {
    let mut left = uses;
    let mut wanted = Vec::new(alloc);
    for _ in 0..left.len() {
        match most_used(left.as_slice()) {
            Some(place) => {
                if place < left.len() {
                    let own = left.swap_remove(place);
                    wanted.push(own.form)?;
                }
            }
            None => {}
        }
    }
    Ok(wanted)
}
