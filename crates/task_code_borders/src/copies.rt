//! Expressions and statements once more.

ghost use Rattle.std.specs.Prelude.{◌≡◌, IfOk};

use loop_ir::expressions::Expr;
use loop_ir::statements::{Stmt, Store};
use sqlite_items::Boxed;
use std::alloc::{AllocError, Global};

#[cycle(copying_expressions)]
fn copy_of_operand(alloc: Global, e: &Expr) -> Result<Boxed<Expr>, AllocError>
    ensures { IfOk result (λ made. made ≡ e.now) }
{
    let made = copy_of(alloc, e)?;
    let boxed = Boxed::new(alloc, made)?;
    Ok(boxed)
}

/// An expression once more.
#[cycle(copying_expressions)]
fn copy_of(alloc: Global, e: &Expr) -> Result<Expr, AllocError>
    ensures { IfOk result (λ made. made ≡ e.now) }
{
    match e {
        Expr::Number(n) => Ok(Expr::Number(*n)),
        Expr::Linear(own) => {
            let sum = own.copy(alloc)?;
            Ok(Expr::Linear(sum))
        }
        Expr::Binary(operation, a, b) => {
            let first = copy_of_operand(alloc, a.get())?;
            let second = copy_of_operand(alloc, b.get())?;
            Ok(Expr::Binary(*operation, first, second))
        }
        Expr::Divide(a, divisor) => {
            let first = copy_of_operand(alloc, a.get())?;
            Ok(Expr::Divide(first, *divisor))
        }
        Expr::Remainder(a, divisor) => {
            let first = copy_of_operand(alloc, a.get())?;
            Ok(Expr::Remainder(first, *divisor))
        }
        Expr::Select(c, a, b) => {
            let condition = copy_of_operand(alloc, c.get())?;
            let first = copy_of_operand(alloc, a.get())?;
            let second = copy_of_operand(alloc, b.get())?;
            Ok(Expr::Select(condition, first, second))
        }
        Expr::Load(source, x, y) => {
            let column = copy_of_operand(alloc, x.get())?;
            let row = copy_of_operand(alloc, y.get())?;
            Ok(Expr::Load(*source, column, row))
        }
    }
}

fn copy_of_store(alloc: Global, store: &Store) -> Result<Store, AllocError>
    ensures { IfOk result (λ made. made ≡ store.now) }
{
    let x = copy_of(alloc, &store.x)?;
    let y = copy_of(alloc, &store.y)?;
    let value = copy_of(alloc, &store.value)?;
    Ok(Store {
        func: store.func,
        x,
        y,
        value,
    })
}

#[cycle(copying)]
fn copy_of_part(alloc: Global, statement: &Stmt) -> Result<Boxed<Stmt>, AllocError>
    ensures { IfOk result (λ made. made ≡ statement.now) }
{
    let made = copy_of_statement(alloc, statement)?;
    let boxed = Boxed::new(alloc, made)?;
    Ok(boxed)
}

/// A statement once more.
///
/// # Errors
///
/// Memory ran out.
#[cycle(copying)]
pub(crate) fn copy_of_statement(alloc: Global, statement: &Stmt) -> Result<Stmt, AllocError>
    ensures { IfOk result (λ made. made ≡ statement.now) }
{
    match statement {
        Stmt::Store(store) => {
            let made = copy_of_store(alloc, store)?;
            Ok(Stmt::Store(made))
        }
        Stmt::Sequence(first, second) => {
            let one = copy_of_part(alloc, first.get())?;
            let other = copy_of_part(alloc, second.get())?;
            Ok(Stmt::Sequence(one, other))
        }
        Stmt::For(counter, count, kind, body) => {
            let inside = copy_of_part(alloc, body.get())?;
            Ok(Stmt::For(*counter, *count, *kind, inside))
        }
        Stmt::Bind(counter, whole, extent, body) => {
            let inside = copy_of_part(alloc, body.get())?;
            Ok(Stmt::Bind(*counter, *whole, *extent, inside))
        }
    }
}
