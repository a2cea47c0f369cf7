//! Stores by loop variables that are numbered by how many loops stand around theirs. So no two loops of a nest have the
//! same one. What no loop around has is at 0, and is left out.

ghost use Rattle.std.specs.Prelude.{◌≡◌, ◌++◌, IfOk, OnOk};
ghost use Rattle.task_code_variables.specs.Renaming as spec;
ghost use Rattle.task_code_variables.specs.Renaming.{IsRenamed, IsRenamedStore};

use loop_ir::expressions::{Counter, Expr, Linear, Term, same_counter};
use loop_ir::statements::Store;
use schedule_lines::stages::LoopId;
use sqlite_items::{Boxed, Items};
use std::alloc::{AllocError, Global};

/// The variable of a loop with this many loops around it.
pub(crate) fn numbered(depth: usize) -> Counter
    ensures { result ≡ spec.numbered depth }
{
    Counter {
        func: 0,
        id: LoopId::Outer(depth),
    }
}

/// The variable that stands for one which a loop around has, of which the innermost has the first of these.
pub(crate) fn standing(around: &[Counter], counter: Counter) -> Option<Counter>
    ensures { result ≡ spec.standing around.now counter }
{
    match around {
        [] => None,
        [own, outer @ ..] => {
            if same_counter(counter, *own) {
                Some(numbered(outer.len()))
            } else {
                standing(outer, counter)
            }
        }
    }
}

/// Appends terms of the variables that stand for theirs.
fn add_renamed(
    new_terms: &mut Items<Term>,
    around: &[Counter],
    terms: &[Term],
) -> Result<(), AllocError>
    ensures { OnOk result (new_terms.new ≡ new_terms.old ++ spec.renamed around.now terms.now) }
{
    match terms {
        [] => Ok(()),
        [first, others @ ..] => {
            match standing(around, first.counter) {
                None => {}
                Some(counter) => new_terms.push(Term {
                    counter,
                    stride: first.stride,
                })?,
            }
            add_renamed(new_terms, around, others)?;
            Ok(())
        }
    }
}

/// A sum by the variables that stand for its own.
fn renamed_sum(alloc: Global, around: &[Counter], new_sum: &Linear) -> Result<Linear, AllocError>
    ensures { IfOk result (λ made. made ≡ spec.renamed_sum around.now new_sum.now) }
{
    let mut terms = Items::new(alloc);
    add_renamed(&mut terms, around, new_sum.terms.as_slice())?;
    Ok(Linear {
        number: new_sum.number,
        terms,
    })
}

/// So it is with an expression in a box.
#[cycle(renaming)]
fn renamed_part(alloc: Global, around: &[Counter], e: &Expr) -> Result<Boxed<Expr>, AllocError>
    ensures { IfOk result (IsRenamed around.now e.now) }
{
    let made = renamed_expr(alloc, around, e)?;
    let boxed = Boxed::new(alloc, made)?;
    Ok(boxed)
}

/// An expression by the variables that stand for its own.
#[cycle(renaming)]
fn renamed_expr(alloc: Global, around: &[Counter], e: &Expr) -> Result<Expr, AllocError>
    ensures { IfOk result (IsRenamed around.now e.now) }
{
    match e {
        Expr::Number(n) => Ok(Expr::Number(*n)),
        Expr::Linear(own) => {
            let sum = renamed_sum(alloc, around, own)?;
            Ok(Expr::Linear(sum))
        }
        Expr::Binary(operation, a, b) => {
            let first = renamed_part(alloc, around, a.get())?;
            let second = renamed_part(alloc, around, b.get())?;
            Ok(Expr::Binary(*operation, first, second))
        }
        Expr::Divide(a, divisor) => {
            let first = renamed_part(alloc, around, a.get())?;
            Ok(Expr::Divide(first, *divisor))
        }
        Expr::Remainder(a, divisor) => {
            let first = renamed_part(alloc, around, a.get())?;
            Ok(Expr::Remainder(first, *divisor))
        }
        Expr::Select(c, a, b) => {
            let condition = renamed_part(alloc, around, c.get())?;
            let first = renamed_part(alloc, around, a.get())?;
            let second = renamed_part(alloc, around, b.get())?;
            Ok(Expr::Select(condition, first, second))
        }
        Expr::Load(source, x, y) => {
            let column = renamed_part(alloc, around, x.get())?;
            let row = renamed_part(alloc, around, y.get())?;
            Ok(Expr::Load(*source, column, row))
        }
    }
}

/// A store by the variables that stand for its own.
///
/// # Errors
///
/// Memory ran out.
pub(crate) fn renamed_store(
    alloc: Global,
    around: &[Counter],
    store: &Store,
) -> Result<Store, AllocError>
    ensures { IfOk result (IsRenamedStore around.now store.now) }
{
    let x = renamed_expr(alloc, around, &store.x)?;
    let y = renamed_expr(alloc, around, &store.y)?;
    let value = renamed_expr(alloc, around, &store.value)?;
    Ok(Store {
        func: store.func,
        x,
        y,
        value,
    })
}
