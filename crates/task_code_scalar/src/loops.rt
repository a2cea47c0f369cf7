//! Loop variables around a statement.

ghost use Rattle.std.specs.Prelude.{◌≡◌, ◌∷◌, IfOk};

use loop_ir::expressions::Counter;
use std::alloc::{AllocError, Global};

/// These loop variables, and one that is after them.
pub fn with_counter(
    alloc: Global,
    around: &[Counter],
    counter: Counter,
) -> Result<Vec<Counter>, AllocError>
    ensures { IfOk result (λ counters. counters.items ≡ counter ∷ around.now) }
{
    let mut counters = Vec::new(alloc);
    counters.push(counter)?;
    counters.extend_from_slice(around)?;
    Ok(counters)
}
