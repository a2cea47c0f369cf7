//! Bodies under the loops of a stage.

ghost use Rattle.std.specs.Prelude.{◌≡◌, ◌+◌, ◌*◌, List, IfOk, length};
ghost use Rattle.loop_ir.specs.Depths.{depth};
ghost use Rattle.loop_ir.specs.Needs.{greatest_need};
ghost use Rattle.loop_ir.specs.Runs.{is_about};
ghost use Rattle.loop_ir.specs.Sizes.{whole_size};
ghost use Rattle.lowering_nests.specs.Nests.{AreFew, Repeats};
ghost use Rattle.lowering_nests.specs.LoopLanes.{IsLeaf, MayBeAtOnce, MayBeUnder};
ghost use Rattle.lowering_nests.specs.Sizes.{nest_size};
ghost use Rattle.schedule_lines.specs.declared.stages.Loop.{Loop};
ghost use Rattle.schedule_loops.specs.Visits as counts;
ghost use Rattle.schedule_loops.specs.Reach.{wholes};

use crate::loops::with_loops;
use crate::splits::with_splits;
use loop_ir::statements::Stmt;
use schedule_lines::{Loop, Split};
use schedule_loops::{Extents, LoopSizes};
use std::alloc::{AllocError, Global};

/// A body under loops of a stage of the Func at a place, the innermost first: it is run under each of the values of
/// whole variables that the loops visit, in order, while loops outside of them stand where they stand.
///
/// # Errors
///
/// Memory ran out.
pub fn with_nest(
    alloc: Global,
    func: usize,
    extents: Extents,
    splits: &[Split],
    loops: &[Loop],
    body: Stmt,
) -> Result<Stmt, AllocError>
    requires splits { counts.AreSplits splits.now }
    requires few { AreFew extents }
    ensures repeats { IfOk result (λ statement. Repeats func statement body (wholes extents splits.now loops.now)) }
    ensures depth { IfOk result (λ statement. depth statement ≡ length loops.now + (length splits.now + depth body)) }
    ensures needs { IfOk result (λ statement. greatest_need statement ≡ greatest_need body) }
    ensures sizes { IfOk result (λ statement. whole_size statement ≡ nest_size (counts.counts extents splits.now)
        loops.now
        (25 * length splits.now + whole_size body)) }
    ensures loop_lanes { IfOk result (λ statement. (outside : List Loop) → IsLeaf body
        → MayBeUnder func extents splits.now loops.now outside body
        → MayBeAtOnce func (counts.counts extents splits.now) outside statement) }
    ensures about { IfOk result (λ statement. is_about func statement ≡ is_about func body) }
{
    let sizes = LoopSizes::new(alloc, extents, splits)?;
    let inner = with_splits(alloc, func, extents, splits, body)?;
    let statement = with_loops(alloc, func, &sizes, loops, inner)?;
    Ok(statement)
}
