//! Expressions without a loop variable.

ghost use Rattle.std.specs.Prelude.{◌≡◌, true};
ghost use Rattle.task_code_statements.specs.Lacking.{Lacks, StoreLacks};

use loop_ir::expressions::{Counter, Expr};
use loop_ir::statements::Store;
use task_code_vector_loops::terms::has_term;

/// Whether no sum of an expression has a term of a loop variable.
pub(crate) fn lacks(e: &Expr, counter: Counter) -> bool
    ensures { result ≡ true → Lacks counter e.now }
{
    match e {
        Expr::Number(_) => true,
        Expr::Linear(own) => !has_term(own.terms.as_slice(), counter),
        Expr::Binary(_, a, b) => lacks(a.get(), counter) && lacks(b.get(), counter),
        Expr::Divide(a, _) => lacks(a.get(), counter),
        Expr::Remainder(a, _) => lacks(a.get(), counter),
        Expr::Select(c, a, b) => {
            lacks(c.get(), counter) && (lacks(a.get(), counter) && lacks(b.get(), counter))
        }
        Expr::Load(_, x, y) => lacks(x.get(), counter) && lacks(y.get(), counter),
    }
}

/// Whether no sum of a store has a term of a loop variable.
pub fn store_lacks(store: &Store, counter: Counter) -> bool
    ensures { result ≡ true → StoreLacks counter store.now }
{
    lacks(&store.x, counter) && (lacks(&store.y, counter) && lacks(&store.value, counter))
}
