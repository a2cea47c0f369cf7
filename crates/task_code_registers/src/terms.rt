//! Room for the terms of a sum.

ghost use Rattle.std.specs.Prelude.{◌≡◌, [], IfOk};

use loop_ir::expressions::Term;
use sqlite_items::Items;
use std::alloc::{AllocError, Global};

/// No terms yet, and room for this many: sums have few, and are made and dropped often.
///
/// # Errors
///
/// Memory ran out.
pub fn with_room(alloc: Global, count: usize) -> Result<Items<Term>, AllocError>
    ensures { IfOk result (λ made. made ≡ []) }
{
    let terms = Vec::with_capacity(alloc, count)?;
    Ok(Items::from_vec(terms))
}
