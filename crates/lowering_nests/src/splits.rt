//! The values of loops that are split.

ghost use Rattle.std.specs.Prelude.{◌≡◌, ℕ, Bool, ◌+◌, ◌*◌, ◌≤◌, ◌<◌, ◌^◌, List, nat_lt, true, if◌then◌else◌, IfOk};
ghost use Rattle.std.specs.Prelude.{length, suc};
ghost use Rattle.halide_pipeline.specs.Pixel.{Planes, Reads};
ghost use Rattle.halide_pipeline.specs.Points.{Point};
ghost use Rattle.loop_ir.specs.Buffers.{Points};
ghost use Rattle.loop_ir.specs.Counters.{Values, with};
ghost use Rattle.loop_ir.specs.Depths.{depth};
ghost use Rattle.loop_ir.specs.Needs.{greatest_need};
ghost use Rattle.loop_ir.specs.Sizes.{whole_size};
ghost use Rattle.loop_ir.specs.LoopLanes.{loop_lanes, lanes_at};
ghost use Rattle.loop_ir.specs.Running.{run, whole_value};
ghost use Rattle.loop_ir.specs.Runs.{is_about};
ghost use Rattle.loop_ir.specs.Soundness.{is_sound};
ghost use Rattle.loop_ir.specs.Stores.{Trace, trace};
ghost use Rattle.loop_ir.specs.declared.statements.Stmt.TheOpen as layer;
ghost use Rattle.loop_ir.specs.declared.statements.Stmt.{Stmt};
ghost use Rattle.lowering_nests.specs.Nests.{AreFew, AreSmall, Repeats, loops_of};
ghost use Rattle.lowering_nests.specs.LoopLanes.{IsLeaf};
ghost use Rattle.schedule_loops.specs.Visits as counts;
ghost use Rattle.schedule_loops.specs.Visits.{begin_of, over_loops, split_body};

use loop_ir::expressions::Counter;
use loop_ir::statements::{Stmt, Whole};
use schedule_lines::{LoopId, Split, Tail};
use schedule_loops::{Extents, LoopSizes};
use sqlite_items::Boxed;
use std::alloc::{AllocError, Global};

/// The value of a loop of the Func at a place, of this extent, from those of the loops of its split at a place.
fn whole_of(func: usize, func_index: usize, split: Split, extent: u32) -> Whole
    requires factor { split.factor ≤ 64 }
    requires few { extent < 2 ^ 25 }
    ensures { (values : Values) → AreSmall (loops_of func values)
        → whole_value result values ≡ begin_of split.tail split.factor extent
        (loops_of func values (LoopId.Outer func_index)) + loops_of func values (LoopId.Inner func_index) }
{
    let last = match split.tail {
        Tail::Guard => None,
        Tail::Shift => Some(extent.saturating_sub(split.factor)),
    };
    Whole {
        outer: Counter {
            func,
            id: LoopId::Outer(func_index),
        },
        inner: Counter {
            func,
            id: LoopId::Inner(func_index),
        },
        factor: split.factor,
        last,
    }
}

/// A body with a counter at the value of a loop that is split, where that is below the extent.
fn bound(
    alloc: Global,
    counter: Counter,
    whole: Whole,
    extent: u32,
    body: Stmt,
) -> Result<Stmt, AllocError>
    ensures runs { IfOk result (λ made. (points : Points) (inputs : Planes) (values : Values) (funcs : Planes)
        → run points inputs made values funcs
        ≡ (if nat_lt (whole_value whole values) extent then run points inputs body
        (with counter (whole_value whole values) values) funcs else funcs)) }
    ensures traces { IfOk result (λ made. (points : Points) (inputs : Planes) (place x y : ℕ) (values : Values)
        (so_far : Trace) → trace points inputs place x y made values so_far
        ≡ (if nat_lt (whole_value whole values) extent then trace points inputs place x y body
        (with counter (whole_value whole values) values) so_far else so_far)) }
    ensures sound { IfOk result (λ made. (reads : Reads) (written : Points) (loaded : Point → Bool) (values : Values)
        → is_sound reads written loaded made values
        ≡ (if nat_lt (whole_value whole values) extent then is_sound reads written loaded body
        (with counter (whole_value whole values) values) else true)) }
    ensures depth { IfOk result (λ made. depth made ≡ suc (depth body)) }
    ensures needs { IfOk result (λ made. greatest_need made ≡ greatest_need body) }
    ensures sizes { IfOk result (λ made. whole_size made ≡ whole_size body + 25) }
    ensures loop_lanes { IfOk result (λ made. (reads : Reads) → loop_lanes reads made
        ≡ lanes_at reads (layer.Bind counter whole extent (loop_lanes reads body))) }
    ensures about { IfOk result (λ made. (of : ℕ) → is_about of made ≡ is_about of body) }
{
    let body = Boxed::new(alloc, body)?;
    Ok(Stmt::Bind(counter, whole, extent, body))
}

/// What a split at a place puts around a body, where its loop has this extent.
fn split_once(
    alloc: Global,
    func: usize,
    func_index: usize,
    split: Split,
    extent: u32,
    body: Stmt,
) -> Result<Stmt, AllocError>
    requires factor { split.factor ≤ 64 }
    requires few { extent < 2 ^ 25 }
    ensures repeats { IfOk result (λ statement. (before : counts.Values) → before split.of ≡ extent
        → (leaf : Stmt) (list : counts.Values → List counts.Values) → Repeats func body leaf list
        → Repeats func statement leaf (split_body before func_index split list)) }
    ensures depth { IfOk result (λ statement. depth statement ≡ suc (depth body)) }
    ensures needs { IfOk result (λ statement. greatest_need statement ≡ greatest_need body) }
    ensures sizes { IfOk result (λ statement. whole_size statement ≡ whole_size body + 25) }
    ensures leaf { IfOk result (λ statement. IsLeaf body → IsLeaf statement) }
    ensures about { IfOk result (λ statement. (of : ℕ) → is_about of statement ≡ is_about of body) }
{
    let whole = whole_of(func, func_index, split, extent);
    let counter = Counter { func, id: split.of };
    let statement = bound(alloc, counter, whole, extent, body)?;
    Ok(statement)
}

/// How many iterations a loop has, under few splits of few values.
pub(crate) fn extent_of(sizes: &LoopSizes, id: LoopId) -> u32
    requires splits { counts.AreSplits sizes.now.splits }
    requires few { AreFew sizes.now.extents }
    ensures is { result ≡ counts.counts sizes.now.extents sizes.now.splits id }
    ensures few { result < 2 ^ 25 }
{
    sizes.size(id).count
}

/// What splits of the loops of the Func at a place put around a body: each loop that is split is at its value while
/// the body runs, and what lies past its extent is left out.
///
/// # Errors
///
/// Memory ran out.
pub fn with_splits(
    alloc: Global,
    func: usize,
    extents: Extents,
    splits: &[Split],
    body: Stmt,
) -> Result<Stmt, AllocError>
    requires splits { counts.AreSplits splits.now }
    requires few { AreFew extents }
    ensures repeats { IfOk result (λ statement. (leaf : Stmt) (list : counts.Values → List counts.Values)
        → Repeats func body leaf list → Repeats func statement leaf (over_loops extents splits.now list)) }
    ensures depth { IfOk result (λ statement. depth statement ≡ length splits.now + depth body) }
    ensures needs { IfOk result (λ statement. greatest_need statement ≡ greatest_need body) }
    ensures sizes { IfOk result (λ statement. whole_size statement ≡ 25 * length splits.now + whole_size body) }
    ensures leaf { IfOk result (λ statement. IsLeaf body → IsLeaf statement) }
    ensures about { IfOk result (λ statement. (of : ℕ) → is_about of statement ≡ is_about of body) }
{
    match splits {
        [] => Ok(body),
        [others @ .., last] => {
            let inner = with_splits(alloc, func, extents, others, body)?;
            let sizes = LoopSizes::new(alloc, extents, others)?;
            let extent = extent_of(&sizes, last.of);
            let statement = split_once(alloc, func, others.len(), *last, extent, inner)?;
            Ok(statement)
        }
    }
}
