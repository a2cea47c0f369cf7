//! Loops around a body.

ghost use Rattle.std.specs.Prelude.{◌≡◌, ◌+◌, ◌*◌, ◌++◌, ℕ, Bool, List, IfOk, length, suc};
ghost use Rattle.halide_pipeline.specs.Pixel.{Planes, Reads};
ghost use Rattle.halide_pipeline.specs.Points.{Point};
ghost use Rattle.loop_ir.specs.Buffers.{Points};
ghost use Rattle.loop_ir.specs.Counters.{Values, with};
ghost use Rattle.loop_ir.specs.Depths.{depth};
ghost use Rattle.loop_ir.specs.Needs.{greatest_need};
ghost use Rattle.loop_ir.specs.Sizes.{is_laid_out, loop_room, whole_size};
ghost use Rattle.loop_ir.specs.LoopLanes.{is_vectorized};
ghost use Rattle.loop_ir.specs.Running.{run, iterated};
ghost use Rattle.loop_ir.specs.Runs.{is_about};
ghost use Rattle.loop_ir.specs.Soundness.{every, is_sound};
ghost use Rattle.loop_ir.specs.Stores.{Trace, trace};
ghost use Rattle.loop_ir.specs.declared.statements.LoopKind.TheVariants as kinds;
ghost use Rattle.loop_ir.specs.declared.statements.Stmt.{Stmt};
ghost use Rattle.lowering_nests.specs.Loops.{Loops};
ghost use Rattle.lowering_nests.specs.Nests.{AreFew, Repeats};
ghost use Rattle.lowering_nests.specs.LoopLanes.{GoesAround, MayBeAround, MayBeAtOnce};
ghost use Rattle.schedule_loops.specs.Runs.{is_vectorized_loop};
ghost use Rattle.lowering_nests.specs.Runs.{RunsAround};
ghost use Rattle.lowering_nests.specs.Sizes.{nest_size};
ghost use Rattle.schedule_lines.specs.Directives.{is_marked};
ghost use Rattle.schedule_lines.specs.declared.stages.Loop.{Loop};
ghost use Rattle.schedule_lines.specs.declared.stages.Mark.TheVariants as marks;
ghost use Rattle.schedule_loops.specs.Visits as counts;
ghost use Rattle.schedule_loops.specs.Visits.{nest, upto};

use crate::fronts::{invariant_first, is_loop_invariant, joined};
use crate::splits::extent_of;
use loop_ir::expressions::Counter;
use loop_ir::parts::StmtParts;
use loop_ir::statements::{LoopKind, Stmt};
use schedule_lines::{Loop, Mark};
use schedule_loops::LoopSizes;
use sqlite_items::Boxed;
use std::alloc::{AllocError, Global};

/// How the iterations of a loop are to be made. Those of the parallel loop are tasks of their own where it is not
/// among the loops of a nest.
fn kind_of(stage_loop: &Loop) -> LoopKind
    ensures vectorized { is_vectorized result ≡ is_vectorized_loop stage_loop.now }
    ensures unrolled { is_laid_out result ≡ is_marked marks.Unrolled stage_loop.now }
{
    match stage_loop.marked {
        Some(marked) => match marked.mark {
            Mark::Unrolled => LoopKind::Unrolled,
            Mark::Vectorized => LoopKind::Vectorized,
            Mark::Parallel => LoopKind::Serial,
        },
        None => LoopKind::Serial,
    }
}

/// A loop around a body.
fn around(
    alloc: Global,
    counter: Counter,
    count: u32,
    kind: LoopKind,
    body: Stmt,
) -> Result<Stmt, AllocError>
    ensures { IfOk result (Loops counter count kind body) }
{
    let body = Boxed::new(alloc, body)?;
    Ok(Stmt::For(counter, count, kind, body))
}

/// A serial loop around a body, after those tests at the body's front that it doesn't change: they are made once, and
/// not in each iteration.
fn in_order(alloc: Global, counter: Counter, count: u32, body: Stmt) -> Result<Stmt, AllocError>
    ensures { IfOk result (Loops counter count kinds.Serial body) }
{
    let first = invariant_first(alloc, &[counter], body)?;
    match first.into_parts() {
        StmtParts::Bind(stage_loop, whole, extent, inside) => {
            if is_loop_invariant(counter, stage_loop, whole) {
                let statement = in_order(alloc, counter, count, inside.into_inner())?;
                let statement = Boxed::new(alloc, statement)?;
                return Ok(Stmt::Bind(stage_loop, whole, extent, statement));
            }
            let same = Stmt::Bind(stage_loop, whole, extent, inside);
            let statement = around(alloc, counter, count, LoopKind::Serial, same)?;
            Ok(statement)
        }
        parts => {
            let same = joined(parts);
            let statement = around(alloc, counter, count, LoopKind::Serial, same)?;
            Ok(statement)
        }
    }
}

/// A body in this many iterations of a loop.
fn looped(
    alloc: Global,
    counter: Counter,
    count: u32,
    kind: LoopKind,
    body: Stmt,
) -> Result<Stmt, AllocError>
    ensures { IfOk result (Loops counter count kind body) }
{
    match kind {
        LoopKind::Serial => {
            let statement = in_order(alloc, counter, count, body)?;
            Ok(statement)
        }
        LoopKind::Unrolled | LoopKind::Vectorized => {
            let statement = around(alloc, counter, count, kind, body)?;
            Ok(statement)
        }
    }
}

/// A loop of the Func at a place around a body, in as many iterations as its sizes say.
///
/// # Errors
///
/// Memory ran out.
pub fn loop_once(
    alloc: Global,
    func: usize,
    sizes: &LoopSizes,
    stage_loop: &Loop,
    body: Stmt,
) -> Result<Stmt, AllocError>
    requires splits { counts.AreSplits sizes.now.splits }
    requires few { AreFew sizes.now.extents }
    ensures runs { IfOk result (λ statement. (points : Points) (inputs : Planes) (values : Values) (funcs : Planes)
        → run points inputs statement values funcs
        ≡ iterated (counts.counts sizes.now.extents sizes.now.splits stage_loop.now.id)
        (λ iteration. run points inputs body (with (record { func = func; id = stage_loop.now.id }) iteration values))
        funcs) }
    ensures traces { IfOk result (λ statement. (points : Points) (inputs : Planes) (place x y : ℕ) (values : Values)
        (so_far : Trace) → trace points inputs place x y statement values so_far
        ≡ iterated (counts.counts sizes.now.extents sizes.now.splits stage_loop.now.id)
        (λ iteration. trace points inputs place x y body
        (with (record { func = func; id = stage_loop.now.id }) iteration values)) so_far) }
    ensures sound { IfOk result (λ statement. (reads : Reads) (written : Points) (loaded : Point
        → Bool) (values : Values)
        → is_sound reads written loaded statement values
        ≡ every (counts.counts sizes.now.extents sizes.now.splits stage_loop.now.id)
        (λ iteration. is_sound reads written loaded body
        (with (record { func = func; id = stage_loop.now.id }) iteration values))) }
    ensures repeats { IfOk result (λ statement. (leaf : Stmt) (list : counts.Values → List counts.Values)
        → Repeats func body leaf list
        → Repeats func statement leaf (λ outer. upto (counts.counts sizes.now.extents sizes.now.splits
        stage_loop.now.id)
        (λ iteration. list (counts.with stage_loop.now.id iteration outer)))) }
    ensures depth { IfOk result (λ statement. depth statement ≡ suc (depth body)) }
    ensures needs { IfOk result (λ statement. greatest_need statement ≡ greatest_need body) }
    ensures sizes { IfOk result (λ statement. whole_size statement
        ≡ loop_room (is_marked marks.Unrolled stage_loop.now)
        (counts.counts sizes.now.extents sizes.now.splits stage_loop.now.id)
        (whole_size body)) }
    ensures loop_lanes { IfOk result (GoesAround func (counts.counts sizes.now.extents sizes.now.splits) stage_loop.now
        body) }
    ensures about { IfOk result (λ statement. is_about func statement ≡ is_about func body) }
    ensures in_runs { IfOk result (RunsAround func (counts.counts sizes.now.extents sizes.now.splits) stage_loop.now
        body) }
{
    let counter = Counter {
        func,
        id: stage_loop.id,
    };
    let count = extent_of(sizes, stage_loop.id);
    let kind = kind_of(stage_loop);
    let statement = looped(alloc, counter, count, kind, body)?;
    Ok(statement)
}

/// Loops of the Func at a place around a body, the innermost first, in as many iterations as their sizes say.
///
/// # Errors
///
/// Memory ran out.
pub fn with_loops(
    alloc: Global,
    func: usize,
    sizes: &LoopSizes,
    loops: &[Loop],
    body: Stmt,
) -> Result<Stmt, AllocError>
    requires splits { counts.AreSplits sizes.now.splits }
    requires few { AreFew sizes.now.extents }
    ensures repeats { IfOk result (λ statement. (leaf : Stmt) (list : counts.Values → List counts.Values)
        → Repeats func body leaf list
        → Repeats func statement leaf (nest (counts.counts sizes.now.extents sizes.now.splits) loops.now list)) }
    ensures depth { IfOk result (λ statement. depth statement ≡ length loops.now + depth body) }
    ensures needs { IfOk result (λ statement. greatest_need statement ≡ greatest_need body) }
    ensures sizes { IfOk result (λ statement. whole_size statement ≡ nest_size
        (counts.counts sizes.now.extents sizes.now.splits)
        loops.now (whole_size body)) }
    ensures loop_lanes { IfOk result (λ statement. (outside : List Loop)
        → MayBeAtOnce func (counts.counts sizes.now.extents sizes.now.splits) (loops.now ++ outside) body
        → MayBeAround func (counts.counts sizes.now.extents sizes.now.splits) loops.now outside body
        → MayBeAtOnce func (counts.counts sizes.now.extents sizes.now.splits) outside statement) }
    ensures about { IfOk result (λ statement. is_about func statement ≡ is_about func body) }
{
    match loops {
        [] => Ok(body),
        [stage_loop, outside @ ..] => {
            let inner = loop_once(alloc, func, sizes, stage_loop, body)?;
            let statement = with_loops(alloc, func, sizes, outside, inner)?;
            Ok(statement)
        }
    }
}
