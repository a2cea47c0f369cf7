//! Expressions once more, whether two are the same, and which load nothing.

ghost use Rattle.std.specs.Prelude.{◌≡◌, IfOk, true};
ghost use Rattle.task_code_names.specs.Copies.{IsLoadFree};

use loop_ir::expressions::Expr;
use sqlite_items::Boxed;
use std::alloc::{AllocError, Global};
use task_code_values::updates::same_index;

/// Whether two expressions are the same, node by node.
pub fn is_same(a: &Expr, b: &Expr) -> bool
    ensures { result ≡ true → a.now ≡ b.now }
{
    match a {
        Expr::Binary(operation, x, y) => match b {
            Expr::Binary(own, u, v) => {
                if *operation == *own && is_same(x.get(), u.get()) {
                    is_same(y.get(), v.get())
                } else {
                    false
                }
            }
            _ => false,
        },
        Expr::Divide(x, divisor) => match b {
            Expr::Divide(u, own) => *divisor == *own && is_same(x.get(), u.get()),
            _ => false,
        },
        Expr::Remainder(x, divisor) => match b {
            Expr::Remainder(u, own) => *divisor == *own && is_same(x.get(), u.get()),
            _ => false,
        },
        Expr::Select(c, x, y) => match b {
            Expr::Select(d, u, v) => {
                if is_same(c.get(), d.get()) && is_same(x.get(), u.get()) {
                    is_same(y.get(), v.get())
                } else {
                    false
                }
            }
            _ => false,
        },
        _ => same_index(a, b),
    }
}

/// The nodes of an expression whose parts have this many.
fn with_nodes(first: usize, second: usize) -> usize {
    first.saturating_add(second).saturating_add(1)
}

/// How many nodes an expression has.
pub(crate) fn nodes_of(e: &Expr) -> usize {
    match e {
        Expr::Number(_) => 1,
        Expr::Linear(_) => 1,
        Expr::Binary(_, a, b) => with_nodes(nodes_of(a.get()), nodes_of(b.get())),
        Expr::Divide(a, _) => with_nodes(nodes_of(a.get()), 0),
        Expr::Remainder(a, _) => with_nodes(nodes_of(a.get()), 0),
        Expr::Select(c, a, b) => {
            let others = nodes_of(a.get()).saturating_add(nodes_of(b.get()));
            with_nodes(nodes_of(c.get()), others)
        }
        Expr::Load(_, x, y) => with_nodes(nodes_of(x.get()), nodes_of(y.get())),
    }
}

/// Whether an expression loads nothing.
pub fn is_load_free(e: &Expr) -> bool
    ensures { result ≡ true → IsLoadFree e.now }
{
    match e {
        Expr::Number(_) => true,
        Expr::Linear(_) => true,
        Expr::Binary(_, a, b) => is_load_free(a.get()) && is_load_free(b.get()),
        Expr::Divide(a, _) => is_load_free(a.get()),
        Expr::Remainder(a, _) => is_load_free(a.get()),
        Expr::Select(c, a, b) => is_load_free(c.get())
            && (is_load_free(a.get()) && is_load_free(b.get())),
        Expr::Load(_, _, _) => false,
    }
}

#[cycle(copying)]
fn copy_part(alloc: Global, e: &Expr) -> Result<Boxed<Expr>, AllocError>
    ensures { IfOk result (λ made. made ≡ e.now) }
{
    let made = copy_of(alloc, e)?;
    let boxed = Boxed::new(alloc, made)?;
    Ok(boxed)
}

/// An expression once more.
///
/// # Errors
///
/// Memory ran out.
#[cycle(copying)]
pub fn copy_of(alloc: Global, e: &Expr) -> Result<Expr, AllocError>
    ensures { IfOk result (λ made. made ≡ e.now) }
{
    match e {
        Expr::Number(n) => Ok(Expr::Number(*n)),
        Expr::Linear(own) => {
            let sum = own.copy(alloc)?;
            Ok(Expr::Linear(sum))
        }
        Expr::Binary(operation, a, b) => {
            let first = copy_part(alloc, a.get())?;
            let second = copy_part(alloc, b.get())?;
            Ok(Expr::Binary(*operation, first, second))
        }
        Expr::Divide(a, divisor) => {
            let first = copy_part(alloc, a.get())?;
            Ok(Expr::Divide(first, *divisor))
        }
        Expr::Remainder(a, divisor) => {
            let first = copy_part(alloc, a.get())?;
            Ok(Expr::Remainder(first, *divisor))
        }
        Expr::Select(c, a, b) => {
            let condition = copy_part(alloc, c.get())?;
            let first = copy_part(alloc, a.get())?;
            let second = copy_part(alloc, b.get())?;
            Ok(Expr::Select(condition, first, second))
        }
        Expr::Load(source, x, y) => {
            let column = copy_part(alloc, x.get())?;
            let row = copy_part(alloc, y.get())?;
            Ok(Expr::Load(*source, column, row))
        }
    }
}
