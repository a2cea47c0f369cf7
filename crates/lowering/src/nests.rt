//! Nests of stages: stores under their loops.

ghost use Rattle.std.specs.Prelude.{◌≡◌, ◌≤◌, IfOk, max, true, ◌+◌, ◌*◌};
ghost use Rattle.halide_pipeline.specs.WellFormed.{IsWellFormed};
ghost use Rattle.schedule.specs.declared.placements.ComputeLevel.TheVariants as places;
ghost use Rattle.bounds_weights.specs.Weight.{flags_of, nodes_in, stage_weight};
ghost use Rattle.loop_ir.specs.Depths.{depth};
ghost use Rattle.loop_ir.specs.Needs.{greatest_need};
ghost use Rattle.loop_ir.specs.Runs.{is_about};
ghost use Rattle.loop_ir.specs.Sizes.{whole_size};
ghost use Rattle.lowering.specs.Consuming.{DoesNest, IsSoundNest, StoresInIt};
ghost use Rattle.lowering.specs.PurePhases.{IsStoreOf};
ghost use Rattle.bounds.specs.Stages.{IsComputedAt};
ghost use Rattle.lowering.specs.LoopLanes.{MayAlwaysBeAtOnce};
ghost use Rattle.lowering_nests.specs.LoopLanes.{IsLeaf};
ghost use Rattle.lowering.specs.Registers.{most_need, taken};
ghost use Rattle.lowering.specs.Sizes.{counted};

use crate::computed::ComputedFunc;
use crate::corners::{corner_of, corners_of};
use crate::stores::{LoweredFunc, pure_store};
use bounds::Plan;
use bounds::boxes::extents_of;
use bounds_weights::weighing::inlined_flags;
use loop_ir::statements::Stmt;
use lowering_nests::nests::with_nest;
use schedule::{ComputeLevel, LoopPosition};
use std::alloc::{AllocError, Global};

/// The store of the pure definition of a Func that is computed there.
pub(crate) fn store_of(
    alloc: Global,
    plan: &Plan<'_>,
    placed: ComputeLevel,
    computed: &ComputedFunc<'_>,
) -> Result<Stmt, AllocError>
    ensures rules { IsWellFormed plan.now.pipeline }
    ensures stores { IfOk result (λ statement. IsStoreOf plan.now.pipeline plan.now.schedule
        plan.now.boxes placed computed.now.place computed.now.func.now computed.now.own.now statement) }
    ensures leaf { IfOk result IsLeaf }
    ensures about { IfOk result (λ statement. is_about computed.now.place statement ≡ true) }
    ensures depth { IfOk result (λ statement. depth statement ≡ 0) }
    ensures needs { IfOk result (λ statement. greatest_need statement ≤ max 1
        (taken (flags_of plan.now.schedule.standings)
        plan.now.pipeline.funcs computed.now.place computed.now.func.now.pure)) }
    ensures sizes { IfOk result (λ statement. whole_size statement + 8 ≤ 64 * counted
        (flags_of plan.now.schedule.standings) plan.now.pipeline.funcs computed.now.place
        computed.now.func.now.pure) }
{
    let funcs = plan.pipeline().funcs();
    let schedule = plan.schedule();
    let plans = schedule.funcs.as_slice();
    let standings = schedule.standings.as_slice();
    let flags = inlined_flags(alloc, standings)?;
    let corners = corners_of(alloc, plans, plan.boxes().funcs.as_slice(), standings)?;
    let corner = corner_of(alloc, plans, placed, computed.own)?;
    let reader = LoweredFunc {
        funcs,
        flags: flags.as_slice(),
        corners: corners.as_slice(),
        place: computed.place,
    };
    let statement = pure_store(alloc, &reader, &corner, &computed.func.pure)?;
    Ok(statement)
}

/// The nest of the pure definition of a Func that is computed at a loop: it fills the Func's box of one iteration.
///
/// # Errors
///
/// Memory ran out.
pub fn pure_nest(
    alloc: Global,
    plan: &Plan<'_>,
    at: LoopPosition,
    computed: &ComputedFunc<'_>,
) -> Result<Stmt, AllocError>
    requires parts { IsComputedAt plan.now.pipeline plan.now.schedule plan.now.boxes (places.At at)
        computed.now.place computed.now.func.now computed.now.plan.now computed.now.own.now }
    ensures does { IfOk result (λ statement. DoesNest plan.now.pipeline plan.now.schedule plan.now.boxes
        at computed.now.place computed.now.func.now computed.now.own.now 0 statement) }
    ensures alone { IfOk result (StoresInIt computed.now.place) }
    ensures about { IfOk result (λ statement. is_about computed.now.place statement ≡ true) }
    ensures sound { IfOk result (λ statement. IsSoundNest plan.now.pipeline plan.now.schedule
        plan.now.boxes at computed.now.place computed.now.func.now computed.now.own.now statement) }
    ensures few { IfOk result (λ statement. depth statement ≤ 9) }
    ensures at_once { IfOk result MayAlwaysBeAtOnce }
    ensures needs { IfOk result (λ statement. greatest_need statement ≤ most_need plan.now.pipeline
        plan.now.schedule) }
    ensures sizes { IfOk result (λ statement. whole_size statement ≤ 64 * stage_weight
        (nodes_in (flags_of plan.now.schedule.standings) plan.now.pipeline.funcs
        computed.now.func.now.pure) computed.now.plan.now.pure) }
{
    // What every plan keeps is known once its parts are read.
    let _schedule = plan.schedule();
    let placed = ComputeLevel::At(at);
    let extents = extents_of(computed.own);
    let store = store_of(alloc, plan, placed, computed)?;
    let statement = with_nest(
        alloc,
        computed.place,
        extents,
        computed.plan.pure.splits.as_slice(),
        computed.plan.pure.loops.as_slice(),
        store,
    )?;
    Ok(statement)
}
