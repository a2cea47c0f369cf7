//! Names of expressions.

ghost use Rattle.std.specs.Prelude.{◌≡◌, IfOk, IfSome};
ghost use Rattle.task_code_names.specs.Names.{IsNameOf};

use crate::copies::{copy_of, is_same, nodes_of};
use loop_ir::expressions::{Counter, Expr};
use std::alloc::{AllocError, Global};

/// A name, and the expression whose value it has.
#[derive(Debug)]
pub struct Named {
    pub counter: Counter,
    pub e: Expr,
    /// How many nodes the expression has. Only parts of as many are compared with it: no two of them share a node.
    pub nodes: usize,
}

impl Drop for Named {
    fn drop(self) {
        let Named {
            e,
            counter: _,
            nodes: _,
        } = self;
        drop(e);
    }
}

/// A name for an expression.
///
/// # Errors
///
/// Memory ran out.
pub fn new_named(alloc: Global, counter: Counter, e: &Expr) -> Result<Named, AllocError>
    ensures { IfOk result (λ made. (made.counter ≡ counter) × (made.e ≡ e.now)) }
{
    let own = copy_of(alloc, e)?;
    Ok(Named {
        counter,
        e: own,
        nodes: nodes_of(e),
    })
}

/// The name that an expression of this many nodes has.
pub(crate) fn name_of(names: &[Named], e: &Expr, nodes: usize) -> Option<Counter>
    ensures { IfSome result (λ counter. IsNameOf names.now e.now counter) }
{
    match names {
        [] => None,
        [first, others @ ..] => {
            if first.nodes == nodes && is_same(&first.e, e) {
                Some(first.counter)
            } else {
                name_of(others, e, nodes)
            }
        }
    }
}

/// The name that an expression has.
pub fn name_for(names: &[Named], e: &Expr) -> Option<Counter>
    ensures { IfSome result (λ counter. IsNameOf names.now e.now counter) }
{
    name_of(names, e, nodes_of(e))
}
