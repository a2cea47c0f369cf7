//! How many registers a loop leaves to those inside, and which forms it holds. Guesses, of which nothing is promised.

use crate::contexts::{Context, Holding};
use crate::guessing::{Guess, add_sums, ready_in};
use crate::methods::is_laid_out;
use crate::vectorizing::is_at_once;
use loop_ir::expressions::Counter;
use loop_ir::statements::{LoopKind, Stmt};
use std::alloc::{AllocError, Global};
use task_code_loops::known::KnownSum;
use task_code_loops::tests::variable;
use task_code_loops::uses::form_by_others;
use task_code_loops::wanted::wanted_forms;
use task_code_registers::scopes::{AffineForm, Held, left_count};
use task_code_scalar::CodeFault;
use task_code_scalar::layouts::Places;

/// How many registers a loop has good use for by pointers and their ends, and by its variable and its count.
const POINTER_REGISTERS: usize = 4;

const VARIABLE_REGISTERS: usize = 2;

/// How many registers a loop around the innermost one leaves to that.
const INNERMOST_REGISTERS: usize = 6;

/// Whether a loop's iterations come one after the other.
pub(crate) fn is_in_order(kind: LoopKind, count: u32) -> bool {
    !is_at_once(kind) && !is_laid_out(kind, count)
}

/// How many registers the loops of a statement ask for at once: one each, but for those that are laid out or done at
/// once. The values of split loops are sums.
pub(crate) fn depth(statement: &Stmt) -> usize {
    match statement {
        Stmt::Store(_) => 0,
        Stmt::Sequence(first, second) => {
            let one = depth(first.get());
            let other = depth(second.get());
            if one < other { other } else { one }
        }
        Stmt::For(_, count, kind, body) => {
            let own = usize::from(is_in_order(*kind, *count));
            depth(body.get()).saturating_add(own)
        }
        Stmt::Bind(_, _, _, body) => depth(body.get()),
    }
}

/// How many registers are left.
fn left(scope: &[Held]) -> usize {
    usize::from(left_count(scope))
}

/// How many registers a loop leaves to this many loops inside, of which each has use for this many, as far as it has as
/// many itself.
fn shares(free: usize, inside: usize, each: usize) -> usize {
    let most = free.saturating_sub(each).max(inside);
    inside.saturating_mul(each).min(most)
}

/// How many registers a loop leaves to this many loops inside. Where values get names and variables stand first, the
/// innermost loops, which run most often, are served first: a loop around them can do with its variable, and a number
/// that is made anew.
pub(crate) fn reserve(scope: &[Held], inside: usize, holding: Holding) -> usize {
    let free = left(scope);
    match holding {
        Holding::Pointers => shares(free, inside, POINTER_REGISTERS),
        Holding::VariablesWithoutNames => shares(free, inside, VARIABLE_REGISTERS),
        Holding::OuterVariablesAlone => match inside {
            0 => 0,
            _ => free.saturating_sub(1),
        },
        Holding::OuterVariables | Holding::Variables => match inside {
            0 => 0,
            1 => free.saturating_sub(1).min(INNERMOST_REGISTERS),
            _ => free.saturating_sub(1),
        },
    }
}

/// Adds forms by other loop variables than the known ones.
fn add_by_others(
    alloc: Global,
    known: &[KnownSum],
    forms: Vec<AffineForm>,
    wanted: &mut Vec<AffineForm>,
) -> Result<(), AllocError> {
    for own in forms {
        let form = form_by_others(alloc, own, known)?;
        wanted.push(form)?;
    }
    Ok(())
}

/// The forms that a loop's body wants in registers, by the loop variables that aren't known, where it is known how its
/// code is made.
///
/// # Errors
///
/// Memory ran out.
pub(crate) fn wanted_by(
    alloc: Global,
    places: &Places,
    context: &Context,
    counter: Counter,
    guess: &Guess,
) -> Result<Vec<AffineForm>, AllocError> {
    let bounds = context.bounds.as_slice();
    let mut wanted = Vec::new(alloc);
    if context.manner.holding.has_variable(depth(guess.body.get())) {
        let own = variable(alloc, counter)?;
        wanted.push(own)?;
    }
    for e in guess.named.as_slice() {
        add_sums(alloc, bounds, e, &mut wanted)?;
    }
    let known = context.known.as_slice();
    let found = wanted_forms(alloc, places, bounds, known, guess.body.get())?;
    add_by_others(alloc, known, found, &mut wanted)?;
    Ok(wanted)
}

/// The forms that a loop's body wants in registers, by the loop variables that aren't known.
///
/// # Errors
///
/// As of the code of the body.
pub(crate) fn wanted_in(
    alloc: Global,
    places: &Places,
    context: &Context,
    counter: Counter,
    body: &Stmt,
) -> Result<Vec<AffineForm>, CodeFault> {
    let guess = ready_in(alloc, places, context, body)?;
    let found = wanted_by(alloc, places, context, counter, &guess);
    drop(guess);
    let wanted = found?;
    Ok(wanted)
}
