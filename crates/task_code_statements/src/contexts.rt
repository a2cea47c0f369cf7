//! What is known of loop variables while code runs.

ghost use Rattle.std.specs.Prelude.{◌≡◌, ◌++◌, ◌∷◌, IfOk, IfSome, OnOk};
ghost use Rattle.task_code_statements.specs.Contexts as contexts;
ghost use Rattle.task_code_statements.specs.Contexts.{IsEmpty, KeepsNames, MeetsLoop, MeetsName, MeetsSum, MeetsNumber};
ghost use Rattle.task_code_statements.specs.Contexts.{StayNamed};

use crate::lacking::lacks;
use crate::lessers::count_below;
use loop_ir::expressions::{Counter, Expr, Linear, same_counter};
use std::alloc::{AllocError, Global};
use task_code_loops::bounds::Bound;
use task_code_loops::known::KnownSum;
use task_code_names::names::{Named, new_named};
use task_code_scalar::CodeFault;
use task_code_vector_loops::terms::has_term;

/// What the loops of a task hold in registers. Each way asks for fewer of them than the one before.
#[derive(Clone, Copy, Debug, PartialEq, Eq)]
pub enum Holding {
    /// Pointers, and values that stay the same.
    Pointers,
    /// Loops around others their variables first, so that pointers of those inside can be made of them.
    OuterVariables,
    /// Loops around others their variables alone, so that all else is left to the innermost ones.
    OuterVariablesAlone,
    /// Each its variable first, so that any address can be made of variables.
    Variables,
    /// Each its variable first, and no values that stay the same.
    VariablesWithoutNames,
}

impl Holding {
    /// Whether a loop around this many others holds its variable first.
    pub fn has_variable(self, inside: usize) -> bool {
        match self {
            Holding::Pointers => false,
            Holding::OuterVariables | Holding::OuterVariablesAlone => inside > 0,
            Holding::Variables | Holding::VariablesWithoutNames => true,
        }
    }

    /// Whether values that stay the same in a loop get names.
    pub fn has_names(self) -> bool {
        self != Holding::VariablesWithoutNames
    }
}

/// Which loops of a task are made in parts, or laid out, though the schedule doesn't ask for it.
#[derive(Clone, Copy, Debug, PartialEq, Eq)]
pub enum Parting {
    None,
    /// Those whose tests of split loops fall away in first iterations.
    Tests,
    /// Also rows of few lane groups.
    TestsAndRows,
}

/// How the loops of a task are made.
#[derive(Clone, Copy, Debug, PartialEq, Eq)]
pub struct Manner {
    pub holding: Holding,
    /// Whether they are made in parts, so that tests of split loops fall away in first iterations.
    pub is_parted: bool,
    /// Whether all rows of few lane groups are laid out.
    pub has_rows: bool,
}

impl Holding {
    /// The same in loops that are made in such parts.
    pub fn made(self, parting: Parting) -> Manner {
        Manner {
            holding: self,
            is_parted: parting != Parting::None,
            has_rows: parting == Parting::TestsAndRows,
        }
    }
}

/// Loop variables that are sums of others, numbers below which loop variables stay, and names.
#[derive(Debug, Drop)]
pub struct Context {
    pub known: Vec<KnownSum>,
    pub bounds: Vec<Bound>,
    pub names: Vec<Named>,
    pub manner: Manner,
}

/// Nothing is known.
pub fn nothing_known(alloc: Global, manner: Manner) -> Context
    ensures { IsEmpty result }
{
    Context {
        known: Vec::new(alloc),
        bounds: Vec::new(alloc),
        names: Vec::new(alloc),
        manner,
    }
}

/// Appends copies of those that are neither of a loop variable nor a sum of it.
fn keep_others(
    alloc: Global,
    sums: &mut Vec<KnownSum>,
    known: &[KnownSum],
    counter: Counter,
) -> Result<(), AllocError>
    ensures { OnOk result (sums.new.items ≡ sums.old.items ++ contexts.without counter known.now) }
{
    match known {
        [] => Ok(()),
        [first, others @ ..] => {
            if same_counter(first.counter, counter)
                || has_term(first.sum.terms.as_slice(), counter)
            {
                keep_others(alloc, sums, others, counter)?;
                return Ok(());
            }
            let sum = first.sum.copy(alloc)?;
            sums.push(KnownSum {
                counter: first.counter,
                sum,
            })?;
            keep_others(alloc, sums, others, counter)?;
            Ok(())
        }
    }
}

/// Whether a number is known below which the loop variable stays.
pub(crate) fn is_bounded(bounds: &[Bound], counter: Counter) -> bool
    ensures { result ≡ contexts.is_bounded bounds.now counter }
{
    match bounds {
        [] => false,
        [first, others @ ..] => {
            if same_counter(first.counter, counter) {
                true
            } else {
                is_bounded(others, counter)
            }
        }
    }
}

/// A loop variable and the sum that it is, before what is known beside it of others.
fn with_known(
    alloc: Global,
    known: &[KnownSum],
    counter: Counter,
    sum: &Linear,
) -> Result<Vec<KnownSum>, AllocError>
    ensures { IfOk result (λ sums. sums.items
        ≡ record { counter = counter; sum = sum.now } ∷ contexts.without counter known.now) }
{
    let sum = sum.copy(alloc)?;
    let mut sums = Vec::new(alloc);
    sums.push(KnownSum { counter, sum })?;
    keep_others(alloc, &mut sums, known, counter)?;
    Ok(sums)
}

/// These and one more in front.
fn with_bound(alloc: Global, bounds: &[Bound], bound: Bound) -> Result<Vec<Bound>, AllocError>
    ensures { IfOk result (λ made. made.items ≡ bound ∷ bounds.now) }
{
    let mut made = Vec::new(alloc);
    made.push(bound)?;
    made.extend_from_slice(bounds)?;
    Ok(made)
}

fn copy_bounds(alloc: Global, bounds: &[Bound]) -> Result<Vec<Bound>, AllocError>
    ensures { IfOk result (λ made. made.items ≡ bounds.now) }
{
    let mut made = Vec::new(alloc);
    made.extend_from_slice(bounds)?;
    Ok(made)
}

/// Appends copies of the names of what lacks a loop variable.
fn keep_names(
    alloc: Global,
    named_parts: &mut Vec<Named>,
    names: &[Named],
    counter: Counter,
) -> Result<(), AllocError>
    ensures { OnOk result (KeepsNames counter names.now named_parts.old.items named_parts.new.items) }
{
    match names {
        [] => Ok(()),
        [first, others @ ..] => {
            if same_counter(first.counter, counter) || !lacks(&first.e, counter) {
                keep_names(alloc, named_parts, others, counter)?;
                return Ok(());
            }
            let own = new_named(alloc, first.counter, &first.e)?;
            named_parts.push(own)?;
            keep_names(alloc, named_parts, others, counter)?;
            Ok(())
        }
    }
}

/// The names of what lacks a loop variable.
fn names_lacking(alloc: Global, names: &[Named], counter: Counter) -> Result<Vec<Named>, AllocError>
    ensures { IfOk result (λ named_parts. StayNamed counter names.now named_parts.items) }
{
    let mut named_parts = Vec::new(alloc);
    keep_names(alloc, &mut named_parts, names, counter)?;
    Ok(named_parts)
}

/// What is known in the iterations of a loop.
///
/// # Errors
///
/// Memory ran out, or the loop variable stands for a loop outside too.
pub fn in_loop(alloc: Global, context: &Context, bound: Bound) -> Result<Context, CodeFault>
    ensures { IfOk result (MeetsLoop context.now bound.counter bound.count) }
{
    if is_bounded(context.bounds.as_slice(), bound.counter) {
        return Err(CodeFault::TooDeep);
    }
    let mut known = Vec::new(alloc);
    keep_others(alloc, &mut known, context.known.as_slice(), bound.counter)?;
    let bounds = with_bound(alloc, context.bounds.as_slice(), bound)?;
    let names = names_lacking(alloc, context.names.as_slice(), bound.counter)?;
    Ok(Context {
        known,
        bounds,
        names,
        manner: context.manner,
    })
}

/// What is known where a loop variable is at the value of a sum.
///
/// # Errors
///
/// Memory ran out, the loop variable stands for a loop outside too, or the sum is one of it.
pub fn with_sum(
    alloc: Global,
    context: &Context,
    counter: Counter,
    sum: &Linear,
) -> Result<Context, CodeFault>
    ensures { IfOk result (MeetsSum context.now counter sum.now) }
{
    let is_own = has_term(sum.terms.as_slice(), counter);
    if is_own || is_bounded(context.bounds.as_slice(), counter) {
        return Err(CodeFault::TooDeep);
    }
    let known = with_known(alloc, context.known.as_slice(), counter, sum)?;
    let bounds = copy_bounds(alloc, context.bounds.as_slice())?;
    let names = names_lacking(alloc, context.names.as_slice(), counter)?;
    Ok(Context {
        known,
        bounds,
        names,
        manner: context.manner,
    })
}

/// What is known where a loop variable is at a number.
///
/// # Errors
///
/// Memory ran out.
pub fn with_number(
    alloc: Global,
    context: Context,
    counter: Counter,
    number: u32,
) -> Result<Context, AllocError>
    ensures { IfOk result (MeetsNumber context counter number) }
{
    let sum = Linear::of_number(alloc, number);
    let known = with_known(alloc, context.known.as_slice(), counter, &sum)?;
    Ok(Context {
        known,
        bounds: context.bounds,
        names: context.names,
        manner: context.manner,
    })
}

/// What is known where a name has the value of an expression, if the name is a new one.
fn with_name(
    alloc: Global,
    context: &Context,
    counter: Counter,
    e: &Expr,
) -> Result<Option<Context>, AllocError>
    ensures { IfOk result (λ found. IfSome found (MeetsName context.now counter e.now)) }
{
    if is_bounded(context.bounds.as_slice(), counter) || !lacks(e, counter) {
        return Ok(None);
    }
    let own = new_named(alloc, counter, e)?;
    let mut names = Vec::new(alloc);
    names.push(own)?;
    keep_names(alloc, &mut names, context.names.as_slice(), counter)?;
    let mut known = Vec::new(alloc);
    keep_others(alloc, &mut known, context.known.as_slice(), counter)?;
    let bounds = copy_bounds(alloc, context.bounds.as_slice())?;
    Ok(Some(Context {
        known,
        bounds,
        names,
        manner: context.manner,
    }))
}

/// What is known where a name has the value of an expression, if the name is a new one, and below which number that
/// stays, if that is known.
///
/// # Errors
///
/// Memory ran out.
pub fn with_value(
    alloc: Global,
    context: &Context,
    counter: Counter,
    e: &Expr,
) -> Result<Option<Context>, AllocError>
    ensures { IfOk result (λ found. IfSome found (MeetsName context.now counter e.now)) }
{
    let Some(new_context) = with_name(alloc, context, counter, e)? else {
        return Ok(None);
    };
    let Some(count) = count_below(alloc, context.bounds.as_slice(), e)? else {
        return Ok(Some(new_context));
    };
    let bounds = with_bound(
        alloc,
        new_context.bounds.as_slice(),
        Bound { counter, count },
    )?;
    Ok(Some(Context {
        known: new_context.known,
        bounds,
        names: new_context.names,
        manner: new_context.manner,
    }))
}
