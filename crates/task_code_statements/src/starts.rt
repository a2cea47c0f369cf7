//! What gets names in front of loops and in split loops.

ghost use Rattle.std.specs.Prelude.{IfOk};
ghost use Rattle.task_code_statements.specs.Naming.{NamesIf};

use crate::contexts::Context;
use crate::guessing::{Guess, ready_to_stay, starts_in, staying_in};
use crate::names::{Limits, Naming, emit_name, emit_names};
use crate::room::depth;
use crate::splits::unnamed_start;
use loop_ir::statements::{Stmt, Whole};
use std::alloc::Global;
use task_code_loops::bounds::Bound;
use task_code_scalar::CodeFault;
use task_code_values::sites::Site;

/// How far names of what might be made in each iteration go: they leave registers to loops and pointers.
const SPARING: Limits = Limits {
    names: 4,
    registers: 5,
};

/// How many names there are at most of where runs begin.
const MOST_STARTS: usize = 14;

/// How many registers a loop has use for.
const LOOP_REGISTERS: usize = 2;

/// Appends code that gives a name to where a run of a split loop's inner loop begins, where that needs one.
///
/// # Errors
///
/// Memory ran out.
pub fn emit_start(
    alloc: Global,
    code: &mut Vec<u32>,
    site: &Site<'_>,
    context: &Context,
    whole: &Whole,
) -> Result<Option<Naming>, CodeFault>
    ensures { IfOk result (NamesIf code.old.items code.new.items site.now.places.now site.now.scope.now context.now) }
{
    let limits = Limits {
        names: MOST_STARTS,
        registers: 0,
    };
    match unnamed_start(alloc, context, whole)? {
        None => Ok(None),
        Some(e) => {
            let naming = emit_name(alloc, code, site, context, &e, limits)?;
            Ok(naming)
        }
    }
}

/// Appends code that gives names to where runs inside a loop begin, where these need one and stay the same in all
/// iterations.
///
/// # Errors
///
/// As of the code of the loop.
pub fn emit_starts(
    alloc: Global,
    code: &mut Vec<u32>,
    site: &Site<'_>,
    context: &Context,
    bound: Bound,
    body: &Stmt,
) -> Result<Option<Naming>, CodeFault>
    ensures { IfOk result (NamesIf code.old.items code.new.items site.now.places.now site.now.scope.now context.now) }
{
    let all = starts_in(alloc, context, bound, body)?;
    let limits = Limits {
        names: MOST_STARTS,
        registers: depth(body).saturating_add(1).saturating_mul(LOOP_REGISTERS),
    };
    let naming = emit_names(alloc, code, site, context, all.as_slice(), limits)?;
    Ok(naming)
}

/// What registers hold after the names that a loop gets, if there are any, and its body as its code is made, where
/// that was guessed for them.
#[derive(Debug, Drop)]
pub struct Before {
    pub naming: Option<Naming>,
    pub guess: Option<Guess>,
}

/// Appends code that gives names to what stays the same in a loop's body, as its code is made.
fn emit_guessed(
    alloc: Global,
    code: &mut Vec<u32>,
    site: &Site<'_>,
    context: &Context,
    guess: Guess,
) -> Result<Before, CodeFault>
    ensures { IfOk result (λ before. NamesIf code.old.items code.new.items site.now.places.now site.now.scope.now
        context.now before.naming) }
{
    let all = staying_in(alloc, context, &guess)?;
    match emit_names(alloc, code, site, context, all.as_slice(), SPARING)? {
        None => Ok(Before {
            naming: None,
            guess: Some(guess),
        }),
        Some(naming) => {
            let guess = guess.by_names(alloc, naming.context.names.as_slice())?;
            Ok(Before {
                naming: Some(naming),
                guess,
            })
        }
    }
}

/// Appends code that gives names to what else stays the same in all iterations of a loop.
fn emit_staying(
    alloc: Global,
    code: &mut Vec<u32>,
    site: &Site<'_>,
    context: &Context,
    bound: Bound,
    body: &Stmt,
) -> Result<Before, CodeFault>
    ensures { IfOk result (λ before. NamesIf code.old.items code.new.items site.now.places.now site.now.scope.now
        context.now before.naming) }
{
    match ready_to_stay(alloc, site.places, context, bound, body)? {
        None => Ok(Before {
            naming: None,
            guess: None,
        }),
        Some(guess) => {
            let before = emit_guessed(alloc, code, site, context, guess)?;
            Ok(before)
        }
    }
}

/// Appends code that gives names to what stays the same in all iterations of a loop.
///
/// # Errors
///
/// As of the code of the loop.
pub fn emit_before(
    alloc: Global,
    code: &mut Vec<u32>,
    site: &Site<'_>,
    context: &Context,
    bound: Bound,
    body: &Stmt,
) -> Result<Before, CodeFault>
    ensures { IfOk result (λ before. NamesIf code.old.items code.new.items site.now.places.now site.now.scope.now
        context.now before.naming) }
{
    match emit_starts(alloc, code, site, context, bound, body)? {
        None => {
            let before = emit_staying(alloc, code, site, context, bound, body)?;
            Ok(before)
        }
        Some(one) => {
            let inner = Site {
                places: site.places,
                scope: one.scope.as_slice(),
            };
            let before = emit_staying(alloc, code, &inner, &one.context, bound, body)?;
            let naming = before.naming;
            let guess = before.guess;
            match naming {
                None => Ok(Before {
                    naming: Some(one),
                    guess,
                }),
                Some(more) => Ok(Before {
                    naming: Some(more),
                    guess,
                }),
            }
        }
    }
}
