//! Which loop variables a statement's sums name outside their loops, and which of its split loops stand at a number.

use loop_ir::expressions::{Counter, Expr, Linear, same_counter};
use loop_ir::statements::{Stmt, Store};
use std::alloc::{AllocError, Global};
use task_code_borders::variables::is_border;

/// Whether a loop variable is one of these.
fn is_one_of(counters: &[Counter], counter: Counter) -> bool {
    counters.iter().any(|own| same_counter(*own, counter))
}

/// Adds a loop variable, unless it is there.
fn add(counters: &mut Vec<Counter>, counter: Counter) -> Result<(), AllocError> {
    if !is_one_of(counters.as_slice(), counter) {
        counters.push(counter)?;
    }
    Ok(())
}

/// Adds the variables of a sum but those of the loops around it.
fn add_sum(
    counters: &mut Vec<Counter>,
    around: &[Counter],
    sum: &Linear,
) -> Result<(), AllocError> {
    for term in sum.terms.as_slice() {
        if !is_one_of(around, term.counter) {
            add(counters, term.counter)?;
        }
    }
    Ok(())
}

fn add_expr(counters: &mut Vec<Counter>, around: &[Counter], e: &Expr) -> Result<(), AllocError> {
    match e {
        Expr::Number(_) => Ok(()),
        Expr::Linear(own) => add_sum(counters, around, own),
        Expr::Binary(_, a, b) => {
            add_expr(counters, around, a.get())?;
            add_expr(counters, around, b.get())
        }
        Expr::Divide(a, _) => add_expr(counters, around, a.get()),
        Expr::Remainder(a, _) => add_expr(counters, around, a.get()),
        Expr::Select(c, a, b) => {
            add_expr(counters, around, c.get())?;
            add_expr(counters, around, a.get())?;
            add_expr(counters, around, b.get())
        }
        Expr::Load(_, x, y) => {
            add_expr(counters, around, x.get())?;
            add_expr(counters, around, y.get())
        }
    }
}

fn add_store(
    counters: &mut Vec<Counter>,
    around: &[Counter],
    store: &Store,
) -> Result<(), AllocError> {
    add_expr(counters, around, &store.x)?;
    add_expr(counters, around, &store.y)?;
    add_expr(counters, around, &store.value)
}

/// Adds those of a statement inside of these loops.
fn add_statement(
    counters: &mut Vec<Counter>,
    around: &mut Vec<Counter>,
    statement: &Stmt,
) -> Result<(), AllocError> {
    match statement {
        Stmt::Store(store) => add_store(counters, around.as_slice(), store),
        Stmt::Sequence(first, second) => {
            add_statement(counters, around, first.get())?;
            add_statement(counters, around, second.get())
        }
        Stmt::For(counter, _, _, body) => {
            around.push(*counter)?;
            add_statement(counters, around, body.get())?;
            around.pop();
            Ok(())
        }
        Stmt::Bind(counter, whole, _, body) => {
            if is_border(whole.inner) {
                add(counters, whole.inner)?;
            }
            around.push(*counter)?;
            add_statement(counters, around, body.get())?;
            around.pop();
            Ok(())
        }
    }
}

/// The loop variables that a statement's sums name outside these variables' loops, each once, and those at whose
/// numbers split loops of it stand.
///
/// # Errors
///
/// Memory ran out.
pub fn mentioned_variables(alloc: Global, statement: &Stmt) -> Result<Vec<Counter>, AllocError> {
    let mut counters = Vec::new(alloc);
    let mut around = Vec::new(alloc);
    add_statement(&mut counters, &mut around, statement)?;
    Ok(counters)
}
