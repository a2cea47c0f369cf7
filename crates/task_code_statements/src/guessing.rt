//! What of a loop's body is worth a name: what stays the same in all iterations. A guess, of which nothing is promised.

use crate::contexts::{Context, in_loop, with_value};
use crate::methods::is_laid_out;
use crate::names::free_name;
use crate::parting::loop_part;
use crate::plain::{is_name, name};
use crate::room::is_in_order;
use crate::splits::{Entered, enter_split, unnamed_start};
use crate::statements::made_store;
use crate::staying::{add, is_among, is_invariant_over, may_stay_in, staying};
use crate::vectorizing::{is_at_once, run_store};
use loop_ir::expressions::{Counter, Expr, Linear};
use loop_ir::parts::StmtParts;
use loop_ir::statements::{LoopKind, Stmt, Store, Whole};
use sqlite_items::Boxed;
use std::alloc::{AllocError, Global};
use task_code_loops::bounds::Bound;
use task_code_names::copies::copy_of;
use task_code_names::names::{Named, new_named};
use task_code_names::renaming::renamed_store;
use task_code_registers::scopes::AffineForm;
use task_code_registers::terms::with_room;
use task_code_scalar::CodeFault;
use task_code_scalar::layouts::Places;

/// A store as its code is made, without clamps that cut nothing off, or with them.
///
/// # Errors
///
/// Memory ran out.
fn ready_store(
    alloc: Global,
    places: &Places,
    context: &Context,
    with_cuts: bool,
    store: &Store,
) -> Result<Store, AllocError> {
    if with_cuts {
        return made_store(alloc, places, context, store);
    }
    run_store(alloc, context, store)
}

/// A loop whose body is ready, with names of what stays the same in its iterations.
fn ready_loop(
    alloc: Global,
    context: &Context,
    bound: Bound,
    kind: LoopKind,
    new_statement: Boxed<Stmt>,
    named: &mut Vec<Expr>,
) -> Result<Stmt, CodeFault> {
    if is_at_once(kind) || is_laid_out(kind, bound.count) || !context.manner.holding.has_names() {
        return Ok(Stmt::For(bound.counter, bound.count, kind, new_statement));
    }
    let all = staying(alloc, context.bounds.as_slice(), new_statement.get())?;
    if all.is_empty() {
        return Ok(Stmt::For(bound.counter, bound.count, kind, new_statement));
    }
    let names = new_names(alloc, all.as_slice(), named)?;
    let body = part_by_names(alloc, names.as_slice(), new_statement)?;
    Ok(Stmt::For(bound.counter, bound.count, kind, body))
}

/// A loop, without last iterations that are other ones.
fn without_cut(
    alloc: Global,
    context: &Context,
    body: &Stmt,
    bound: Bound,
) -> Result<Bound, CodeFault> {
    let first = loop_part(alloc, context, bound, body)?;
    let count = if first == 0 { bound.count } else { first };
    Ok(Bound {
        counter: bound.counter,
        count,
    })
}

/// Adds an expression to others.
fn push_expr(named: &mut Vec<Expr>, e: Expr) -> Result<(), AllocError> {
    named.push(e)?;
    Ok(())
}

/// Where a split loop's variable is at its value, with a name for where its run begins, where that needs one: it is
/// added to what gets one.
fn enter_named(
    alloc: Global,
    context: &Context,
    counter: Counter,
    whole: &Whole,
    named: &mut Vec<Expr>,
) -> Result<Entered, CodeFault> {
    let Some(e) = unnamed_start(alloc, context, whole)? else {
        return enter_split(alloc, context, counter, whole);
    };
    let own = free_name(context, Vec::new(alloc).as_slice());
    let Some(inner) = with_value(alloc, context, own, &e)? else {
        return Err(CodeFault::TooDeep);
    };
    push_expr(named, e)?;
    enter_split(alloc, &inner, counter, whole)
}

#[cycle(readying)]
fn ready_part(
    alloc: Global,
    places: &Places,
    context: &Context,
    with_cuts: bool,
    statement: &Stmt,
    named: &mut Vec<Expr>,
) -> Result<Boxed<Stmt>, CodeFault> {
    let made = ready(alloc, places, context, with_cuts, statement, named)?;
    let boxed = Boxed::new(alloc, made)?;
    Ok(boxed)
}

/// A statement whose stores are as their code is made, and beside it what gets names in front of loops inside.
///
/// # Errors
///
/// As of the code of the statement.
#[cycle(readying)]
fn ready(
    alloc: Global,
    places: &Places,
    context: &Context,
    with_cuts: bool,
    statement: &Stmt,
    named: &mut Vec<Expr>,
) -> Result<Stmt, CodeFault> {
    match statement {
        Stmt::Store(store) => {
            let new_statement = ready_store(alloc, places, context, with_cuts, store)?;
            Ok(Stmt::Store(new_statement))
        }
        Stmt::Sequence(first, second) => {
            let one = ready_part(alloc, places, context, with_cuts, first.get(), named)?;
            let other = ready_part(alloc, places, context, with_cuts, second.get(), named)?;
            Ok(Stmt::Sequence(one, other))
        }
        Stmt::For(counter, count, kind, body) => {
            let new_statement = Bound {
                counter: *counter,
                count: *count,
            };
            let new_statement = if is_in_order(*kind, *count) {
                without_cut(alloc, context, body.get(), new_statement)?
            } else {
                new_statement
            };
            let within = with_cuts && !is_at_once(*kind);
            let inner = in_loop(alloc, context, new_statement)?;
            let made = ready_part(alloc, places, &inner, within, body.get(), named)?;
            ready_loop(alloc, context, new_statement, *kind, made, named)
        }
        Stmt::Bind(counter, whole, extent, body) => {
            let entered = enter_named(alloc, context, *counter, whole, named)?;
            let made = ready_part(alloc, places, &entered.inner, with_cuts, body.get(), named)?;
            Ok(Stmt::Bind(*counter, *whole, *extent, made))
        }
    }
}

// ---- names inside

/// A new name for each expression, which are added to those that get one.
fn new_names(alloc: Global, all: &[Expr], named: &mut Vec<Expr>) -> Result<Vec<Named>, AllocError> {
    let mut names = Vec::new(alloc);
    for own in all {
        let counter = name(named.len());
        let new = new_named(alloc, counter, own)?;
        names.push(new)?;
        let e = copy_of(alloc, own)?;
        named.push(e)?;
    }
    Ok(names)
}

#[cycle(renaming)]
fn part_by_names(
    alloc: Global,
    names: &[Named],
    statement: Boxed<Stmt>,
) -> Result<Boxed<Stmt>, AllocError> {
    let made = statement_by_names(alloc, names, statement.into_inner())?;
    let boxed = Boxed::new(alloc, made)?;
    Ok(boxed)
}

/// A statement with names in place of the parts of its stores that have one.
#[cycle(renaming)]
fn statement_by_names(alloc: Global, names: &[Named], statement: Stmt) -> Result<Stmt, AllocError> {
    match statement.into_parts() {
        StmtParts::Store(store) => {
            let own = renamed_store(alloc, names, store)?;
            Ok(Stmt::Store(own))
        }
        StmtParts::Sequence(first, second) => {
            let one = part_by_names(alloc, names, first)?;
            let other = part_by_names(alloc, names, second)?;
            Ok(Stmt::Sequence(one, other))
        }
        StmtParts::For(counter, count, kind, body) => {
            let made = part_by_names(alloc, names, body)?;
            Ok(Stmt::For(counter, count, kind, made))
        }
        StmtParts::Bind(counter, whole, extent, body) => {
            let made = part_by_names(alloc, names, body)?;
            Ok(Stmt::Bind(counter, whole, extent, made))
        }
    }
}

/// A sum as it is in the first iterations of all loops but these, if names are no part of it.
fn first_sum(alloc: Global, bounds: &[Bound], sum: &Linear) -> Result<Option<Linear>, AllocError> {
    let mut terms = with_room(alloc, sum.terms.len())?;
    for term in sum.terms.as_slice() {
        if is_among(bounds, term.counter) {
            terms.push(*term)?;
        } else if is_name(term.counter) {
            return Ok(None);
        }
    }
    Ok(Some(Linear {
        number: sum.number,
        terms,
    }))
}

/// Adds the sums that an expression is made of, as they are in the first iterations of loops inside, if they go on with
/// these loops.
pub fn add_sums(
    alloc: Global,
    bounds: &[Bound],
    e: &Expr,
    forms: &mut Vec<AffineForm>,
) -> Result<(), AllocError> {
    match e {
        Expr::Number(_) => Ok(()),
        Expr::Linear(own) => {
            if let Some(sum) = first_sum(alloc, bounds, own)? {
                if !sum.terms.as_slice().is_empty() {
                    forms.push(AffineForm { sum, per_hart: 0 })?;
                }
            }
            Ok(())
        }
        Expr::Binary(_, a, b) => {
            add_sums(alloc, bounds, a.get(), forms)?;
            add_sums(alloc, bounds, b.get(), forms)
        }
        Expr::Divide(a, _) => add_sums(alloc, bounds, a.get(), forms),
        Expr::Remainder(a, _) => add_sums(alloc, bounds, a.get(), forms),
        Expr::Select(c, a, b) => {
            add_sums(alloc, bounds, c.get(), forms)?;
            add_sums(alloc, bounds, a.get(), forms)?;
            add_sums(alloc, bounds, b.get(), forms)
        }
        Expr::Load(_, _, _) => Ok(()),
    }
}

// ---- in front of a loop

/// A loop's body whose stores are as their code is made, and what gets names in front of loops inside.
#[derive(Debug, Drop)]
pub struct Guess {
    pub body: Boxed<Stmt>,
    pub named: Vec<Expr>,
}

impl Guess {
    /// The same with names in place of parts, unless some loop inside gets names too: which these are may depend on the
    /// others.
    ///
    /// # Errors
    ///
    /// Memory ran out.
    pub fn by_names(self, alloc: Global, names: &[Named]) -> Result<Option<Guess>, AllocError> {
        let Guess { body, named } = self;
        if !named.is_empty() {
            return Ok(None);
        }
        let body = part_by_names(alloc, names, body)?;
        Ok(Some(Guess { body, named }))
    }
}

/// A loop's body as its code is made.
///
/// # Errors
///
/// As of the code of the body.
pub fn ready_in(
    alloc: Global,
    places: &Places,
    inner: &Context,
    body: &Stmt,
) -> Result<Guess, CodeFault> {
    let mut named = Vec::new(alloc);
    let body = ready_part(alloc, places, inner, true, body, &mut named)?;
    Ok(Guess { body, named })
}

/// The body of a loop as its code is made, where some part of it may stay the same in all iterations of this loop and
/// those inside.
///
/// # Errors
///
/// As of the code of the loop.
pub fn ready_to_stay(
    alloc: Global,
    places: &Places,
    context: &Context,
    bound: Bound,
    body: &Stmt,
) -> Result<Option<Guess>, CodeFault> {
    if !context.manner.holding.has_names() || !may_stay_in(alloc, bound.counter, body)? {
        return Ok(None);
    }
    let inner = in_loop(alloc, context, bound)?;
    let guess = ready_in(alloc, places, &inner, body)?;
    Ok(Some(guess))
}

/// The largest parts of a loop's body that stay the same in all iterations of this loop and those inside.
///
/// # Errors
///
/// Memory ran out.
pub fn staying_in(
    alloc: Global,
    context: &Context,
    guess: &Guess,
) -> Result<Vec<Expr>, AllocError> {
    staying(alloc, context.bounds.as_slice(), guess.body.get())
}

/// Whether a statement has a split loop whose last run begins before its product: no other run needs a name.
fn has_last(statement: &Stmt) -> bool {
    match statement {
        Stmt::Store(_) => false,
        Stmt::Sequence(first, second) => has_last(first.get()) || has_last(second.get()),
        Stmt::For(_, _, _, body) => has_last(body.get()),
        Stmt::Bind(_, whole, _, body) => whole.last.is_some() || has_last(body.get()),
    }
}

/// Adds where runs inside a statement begin that need a name, if these stay the same where these loops stand around it.
fn add_starts(
    alloc: Global,
    bounds: &[Bound],
    context: &Context,
    statement: &Stmt,
    expressions: &mut Vec<Expr>,
) -> Result<(), CodeFault> {
    match statement {
        Stmt::Store(_) => Ok(()),
        Stmt::Sequence(first, second) => {
            add_starts(alloc, bounds, context, first.get(), expressions)?;
            add_starts(alloc, bounds, context, second.get(), expressions)
        }
        Stmt::For(counter, count, _, body) => {
            let own = Bound {
                counter: *counter,
                count: *count,
            };
            let own = without_cut(alloc, context, body.get(), own)?;
            let inner = in_loop(alloc, context, own)?;
            add_starts(alloc, bounds, &inner, body.get(), expressions)
        }
        Stmt::Bind(counter, whole, _, body) => {
            let mut named = Vec::new(alloc);
            let entered = enter_named(alloc, context, *counter, whole, &mut named)?;
            for e in named.as_slice() {
                if is_invariant_over(bounds, e) {
                    add(alloc, expressions, e)?;
                }
            }
            add_starts(alloc, bounds, &entered.inner, body.get(), expressions)
        }
    }
}

/// Where runs inside a loop begin that need a name, if these stay the same in all iterations.
///
/// # Errors
///
/// As of the code of the loop.
pub fn starts_in(
    alloc: Global,
    context: &Context,
    bound: Bound,
    body: &Stmt,
) -> Result<Vec<Expr>, CodeFault> {
    let mut expressions = Vec::new(alloc);
    if !has_last(body) {
        return Ok(expressions);
    }
    let inner = in_loop(alloc, context, bound)?;
    add_starts(
        alloc,
        context.bounds.as_slice(),
        &inner,
        body,
        &mut expressions,
    )?;
    Ok(expressions)
}
