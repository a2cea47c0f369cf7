//! Expressions and statements that name no variable but those of stages.

ghost use Rattle.std.specs.Prelude.{◌≡◌, ◌&&◌, not, true};
ghost use Rattle.task_code_borders.specs.Blind.{IsBlind, IsBlindStatement, IsBlindStore};
ghost use Rattle.task_code_borders.specs.Borders.{is_border};

use crate::variables::{has_border, is_border};
use loop_ir::expressions::Expr;
use loop_ir::statements::{Stmt, Store, Whole};

/// Whether no sum of an expression has a term of another variable.
fn is_blind(e: &Expr) -> bool
    ensures { result ≡ true → IsBlind e.now }
{
    match e {
        Expr::Number(_) => true,
        Expr::Linear(own) => !has_border(own.terms.as_slice()),
        Expr::Binary(_, a, b) => is_blind(a.get()) && is_blind(b.get()),
        Expr::Divide(a, _) => is_blind(a.get()),
        Expr::Remainder(a, _) => is_blind(a.get()),
        Expr::Select(c, a, b) => is_blind(c.get()) && (is_blind(a.get()) && is_blind(b.get())),
        Expr::Load(_, x, y) => is_blind(x.get()) && is_blind(y.get()),
    }
}

/// Whether no sum of a store has a term of another variable.
fn is_blind_store(store: &Store) -> bool
    ensures { result ≡ true → IsBlindStore store.now }
{
    is_blind(&store.x) && (is_blind(&store.y) && is_blind(&store.value))
}

/// Whether a split loop's value is that of two other loops of stages.
pub(crate) fn has_stages(whole: &Whole) -> bool
    ensures { result ≡ (not (is_border whole.now.outer) && not (is_border whole.now.inner)) }
{
    !is_border(whole.outer) && !is_border(whole.inner)
}

/// Whether a statement names no other variable.
pub fn is_blind_statement(statement: &Stmt) -> bool
    ensures { result ≡ true → IsBlindStatement statement.now }
{
    match statement {
        Stmt::Store(store) => is_blind_store(store),
        Stmt::Sequence(first, second) => {
            is_blind_statement(first.get()) && is_blind_statement(second.get())
        }
        Stmt::For(counter, _, _, body) => !is_border(*counter) && is_blind_statement(body.get()),
        Stmt::Bind(counter, whole, _, body) => {
            !is_border(*counter) && (has_stages(whole) && is_blind_statement(body.get()))
        }
    }
}
