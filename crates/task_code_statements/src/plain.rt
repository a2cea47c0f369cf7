//! Expressions without names: variables that no loop has, which registers alone hold.

ghost use Rattle.std.specs.Prelude.{◌≡◌, true};
ghost use Rattle.task_code_vector_loops.specs.Naming.{is_name};
ghost use Rattle.task_code_statements.specs.Plain.{IsPlain, IsPlainStore};
ghost use Rattle.task_code_statements.specs.Naming.{has_name};

use loop_ir::expressions::{Counter, Expr, Term};
use loop_ir::statements::Store;
use schedule_lines::stages::LoopId;
use task_code_vector_loops::terms::NAMES;

/// The name of a number.
pub fn name(number: usize) -> Counter
    ensures { is_name result ≡ true }
{
    Counter {
        func: NAMES,
        id: LoopId::Outer(number),
    }
}

/// Whether a variable is a name.
pub fn is_name(counter: Counter) -> bool
    ensures { result ≡ is_name counter }
{
    counter.func == NAMES
}

/// Whether a sum has a term of a name.
fn has_name(terms: &[Term]) -> bool
    ensures { result ≡ has_name terms.now }
{
    match terms {
        [] => false,
        [first, others @ ..] => {
            if is_name(first.counter) {
                true
            } else {
                has_name(others)
            }
        }
    }
}

/// Whether no sum of an expression has a term of a name.
fn is_plain(e: &Expr) -> bool
    ensures { result ≡ true → IsPlain e.now }
{
    match e {
        Expr::Number(_) => true,
        Expr::Linear(own) => !has_name(own.terms.as_slice()),
        Expr::Binary(_, a, b) => is_plain(a.get()) && is_plain(b.get()),
        Expr::Divide(a, _) => is_plain(a.get()),
        Expr::Remainder(a, _) => is_plain(a.get()),
        Expr::Select(c, a, b) => is_plain(c.get()) && (is_plain(a.get()) && is_plain(b.get())),
        Expr::Load(_, x, y) => is_plain(x.get()) && is_plain(y.get()),
    }
}

/// Whether no sum of a store has a term of a name.
pub fn is_plain_store(store: &Store) -> bool
    ensures { result ≡ true → IsPlainStore store.now }
{
    is_plain(&store.x) && (is_plain(&store.y) && is_plain(&store.value))
}
