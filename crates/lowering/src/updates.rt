//! Phases of updates, and their loops where the Func is computed at a loop.

ghost use Rattle.std.specs.Prelude.{◌≡◌, ◌+◌, ◌<◌, ◌≤◌, ◌^◌, List, [], IfOk, Some, length, slice_get, suc, true};
ghost use Rattle.std.specs.Prelude.{◌*◌};
ghost use Rattle.halide_pipeline.specs.Pixel as meaning;
ghost use Rattle.schedule_loops.specs.Visits.{AreSplits, counts};
ghost use Rattle.schedule_loops.specs.Visits as iterations;
ghost use Rattle.schedule_loops.specs.Reach.{wholes};
ghost use Rattle.bounds_inlining.specs.Inlining.{flagged};
ghost use Rattle.bounds_weights.specs.Weight.{flags_of, stage_weight, update_nodes};
ghost use Rattle.bounds.specs.Boxes.{IsBox};
ghost use Rattle.loop_ir.specs.Depths.{depth, task_depth};
ghost use Rattle.loop_ir.specs.Needs.{greatest_need};
ghost use Rattle.loop_ir.specs.Runs.{is_about};
ghost use Rattle.loop_ir.specs.Sizes.{whole_size};
ghost use Rattle.lowering_expressions.specs.Sizing.{AreShort, IsShort};
ghost use Rattle.lowering_nests.specs.Nests.{AreFew, Repeats};
ghost use Rattle.lowering_nests.specs.LoopLanes.{IsLeaf, MayBeAtOnce, MayBeUnder};
ghost use Rattle.lowering_nests.specs.Sizes.{nest_size};
ghost use Rattle.schedule_lines.specs.declared.stages.Loop.{Loop};
ghost use Rattle.lowering.specs.Consuming.{StoresInIt};
ghost use Rattle.lowering.specs.PurePhases as pure;
ghost use Rattle.bounds.specs.Stages as pure_stages;
ghost use Rattle.lowering.specs.Registers.{most_need, update_taken};
ghost use Rattle.lowering.specs.Sizes.{update_counted};
ghost use Rattle.lowering.specs.LoopLanes.{MayAlwaysBeAtOnce, LanesMayBeAtOnce};
ghost use Rattle.lowering.specs.Stages.{DoesStage};
ghost use Rattle.lowering.specs.Stored.{StoresWhatItNames};
ghost use Rattle.lowering.specs.Touching.{TouchesItsOwn};
ghost use Rattle.lowering.specs.Updates as spec;
ghost use Rattle.bounds.specs.Extents as spec_extents;

use crate::computed::ComputedFunc;
use crate::consuming::inside_parallel;
use crate::corners::{corner_of, corners_of};
use crate::pure_phases::{byte_inputs, task_count, task_counter};
use crate::stores::LoweredFunc;
use crate::update_stores::update_store;
use bounds::boxes::extents_of;
use bounds::{Plan, SourceBox};
use bounds_weights::weighing::inlined_flags;
use halide_pipeline::{Reduction, Update};
use loop_ir::statements::{Phase, Stmt};
use lowering_expressions::Corner;
use lowering_nests::nests::with_nest;
use schedule::ComputeLevel;
use schedule_lines::Stage;
use schedule_loops::Extents;
use sqlite_items::Items;
use std::alloc::{AllocError, Global};

/// An update of a Func that is computed, with the update's loops.
#[derive(Clone, Copy)]
pub struct UpdateOf<'a> {
    pub computed: ComputedFunc<'a>,
    /// Its number, from 0.
    pub at: usize,
    pub update: &'a Update,
    pub stage: &'a Stage,
}

/// How many values a second reduction variable takes, if there is one.
fn second_extent(second: &Option<Reduction>) -> u32
    ensures { result ≡ meaning.second_extent second.now }
{
    match second {
        None => 1,
        Some(reduction) => reduction.extent,
    }
}

/// How many values the variables of an update take in a box.
fn update_extents(source_box: &SourceBox, update: &Update) -> Extents
    requires { IsBox source_box.now }
    ensures { result ≡ spec_extents.update_extents source_box.now update.now }
{
    let pure = extents_of(source_box);
    Extents {
        first_argument: pure.first_argument,
        second_argument: pure.second_argument,
        first_reduction: update.first.extent,
        second_reduction: second_extent(&update.second),
    }
}

/// The store of an update of a Func, where the schedule's inlined Funcs are put in place.
fn store_at(
    alloc: Global,
    plan: &Plan<'_>,
    corners: &[Corner],
    corner: &Corner,
    of: &UpdateOf<'_>,
) -> Result<Stmt, AllocError>
    requires { of.now.computed.place + 1 < 2 ^ 64 }
    ensures stores { IfOk result (λ statement. spec.StoresUpdate corners.now (flagged
        (flags_of plan.now.schedule.standings)) plan.now.pipeline.funcs of.now.computed.place corner.now
        of.now.update.now statement) }
    ensures leaf { IfOk result IsLeaf }
    ensures about { IfOk result (λ statement. is_about of.now.computed.place statement ≡ true) }
    ensures hits { IfOk result (λ statement. spec.HitsUpdate corners.now (flagged
        (flags_of plan.now.schedule.standings)) plan.now.pipeline.funcs of.now.computed.place corner.now
        of.now.update.now statement) }
    ensures sound { IfOk result (λ statement. spec.IsSoundUpdate corners.now (flagged
        (flags_of plan.now.schedule.standings)) plan.now.pipeline.funcs of.now.computed.place corner.now
        of.now.update.now statement) }
    ensures depth { IfOk result (λ statement. depth statement ≡ 0) }
    ensures needs { IfOk result (λ statement. greatest_need statement ≤ update_taken
        (flags_of plan.now.schedule.standings)
        plan.now.pipeline.funcs of.now.computed.place of.now.update.now) }
    ensures sizes { IfOk result (λ statement. AreShort corners.now → IsShort corner.now
        → whole_size statement + 8 ≤ 64 * update_counted (flags_of plan.now.schedule.standings)
        plan.now.pipeline.funcs of.now.computed.place of.now.update.now) }
{
    let flags = inlined_flags(alloc, plan.schedule().standings.as_slice())?;
    let reader = LoweredFunc {
        funcs: plan.pipeline().funcs(),
        flags: flags.as_slice(),
        corners,
        place: of.computed.place,
    };
    let statement = update_store(alloc, &reader, corner, of.update)?;
    Ok(statement)
}

/// The store of an update of a Func that is computed at root.
fn root_store(alloc: Global, plan: &Plan<'_>, of: &UpdateOf<'_>) -> Result<Stmt, AllocError>
    requires { of.now.computed.place + 1 < 2 ^ 64 }
    ensures leaf { IfOk result IsLeaf }
    ensures stores { IfOk result (λ statement. spec.IsUpdateStoreOf plan.now.pipeline plan.now.schedule
        plan.now.boxes of.now.computed.place of.now.computed.own.now of.now.update.now statement) }
    ensures depth { IfOk result (λ statement. depth statement ≡ 0) }
    ensures needs { IfOk result (λ statement. greatest_need statement ≤ update_taken
        (flags_of plan.now.schedule.standings)
        plan.now.pipeline.funcs of.now.computed.place of.now.update.now) }
    ensures sizes { IfOk result (λ statement. whole_size statement + 8 ≤ 64 * update_counted
        (flags_of plan.now.schedule.standings) plan.now.pipeline.funcs of.now.computed.place
        of.now.update.now) }
{
    let schedule = plan.schedule();
    let plans = schedule.funcs.as_slice();
    let standings = schedule.standings.as_slice();
    let corners = corners_of(alloc, plans, plan.boxes().funcs.as_slice(), standings)?;
    let corner = corner_of(alloc, plans, ComputeLevel::Root, of.computed.own)?;
    let statement = store_at(alloc, plan, corners.as_slice(), &corner, of)?;
    Ok(statement)
}

/// The store under the loops inside the parallel one.
fn body_of(
    alloc: Global,
    func_index: usize,
    stage: &Stage,
    extents: Extents,
    store: Stmt,
) -> Result<Stmt, AllocError>
    requires splits { AreSplits stage.now.splits }
    requires few { AreFew extents }
    ensures loop_lanes { IfOk result (λ statement. (outside : List Loop) → IsLeaf store
        → MayBeUnder func_index extents stage.now.splits (pure.inside_of (iterations.parallel stage.now)
        stage.now.loops)
        outside store
        → MayBeAtOnce func_index (counts extents stage.now.splits) outside statement) }
    ensures repeats { IfOk result (λ statement. Repeats func_index statement store
        (wholes extents stage.now.splits (pure.inside_of (iterations.parallel stage.now) stage.now.loops))) }
    ensures depth { IfOk result (λ statement. depth statement
        ≡ length (pure.inside_of (iterations.parallel stage.now) stage.now.loops) +
        (length stage.now.splits + depth store)) }
    ensures needs { IfOk result (λ statement. greatest_need statement ≡ greatest_need store) }
    ensures sizes { IfOk result (λ statement. whole_size statement
        ≡ nest_size (counts extents stage.now.splits) (pure.inside_of (iterations.parallel stage.now) stage.now.loops)
        (25 * length stage.now.splits + whole_size store)) }
{
    let splits = stage.splits.as_slice();
    let statement = with_nest(
        alloc,
        func_index,
        extents,
        splits,
        inside_parallel(stage),
        store,
    )?;
    Ok(statement)
}

/// All loops of a stage around a store.
fn nest_of(
    alloc: Global,
    func_index: usize,
    stage: &Stage,
    extents: Extents,
    store: Stmt,
) -> Result<Stmt, AllocError>
    requires splits { AreSplits stage.now.splits }
    requires few { AreFew extents }
    ensures loop_lanes { IfOk result (λ statement. (outside : List Loop) → IsLeaf store
        → MayBeUnder func_index extents stage.now.splits stage.now.loops outside store
        → MayBeAtOnce func_index (counts extents stage.now.splits) outside statement) }
    ensures repeats { IfOk result (λ statement. Repeats func_index statement store
        (wholes extents stage.now.splits stage.now.loops)) }
    ensures depth { IfOk result (λ statement. depth statement
        ≡ length stage.now.loops + (length stage.now.splits + depth store)) }
    ensures needs { IfOk result (λ statement. greatest_need statement ≡ greatest_need store) }
    ensures about { IfOk result (λ statement. is_about func_index statement ≡ is_about func_index store) }
    ensures sizes { IfOk result (λ statement. whole_size statement ≡ nest_size (counts extents stage.now.splits)
        stage.now.loops
        (25 * length stage.now.splits + whole_size store)) }
{
    let statement = with_nest(
        alloc,
        func_index,
        extents,
        stage.splits.as_slice(),
        stage.loops.as_slice(),
        store,
    )?;
    Ok(statement)
}

/// The phase of an update of a Func that is computed at root: each task makes what the loops inside the parallel one
/// visit.
///
/// From buffers that hold what is after the stages before it, its tasks leave what is after it
/// (`specs/Stages.antt`). A task owns the points of the box in the slices that it visits (`specs/Updates.antt`), and
/// stores at those that the left side names there (`specs/Stored.antt`).
///
/// # Errors
///
/// Memory ran out.
pub fn update_phase(alloc: Global, plan: &Plan<'_>, of: &UpdateOf<'_>) -> Result<Phase, AllocError>
    requires root { pure_stages.IsAtRoot plan.now.pipeline plan.now.schedule plan.now.boxes
        of.now.computed.place of.now.computed.func.now of.now.computed.plan.now of.now.computed.own.now }
    requires at { spec.IsUpdateAt plan.now.schedule of.now.computed.place of.now.computed.func.now
        of.now.computed.plan.now of.now.at of.now.update.now of.now.stage.now }
    ensures tasks { IfOk result (λ phase. phase.tasks ≡ iterations.iteration_count
        (spec_extents.update_extents of.now.computed.own.now of.now.update.now) of.now.stage.now) }
    ensures private { IfOk result (λ phase. phase.private ≡ []) }
    ensures bytes { IfOk result (λ phase. phase.bytes ≡ pure.byte_places 0 plan.now.pipeline.inputs) }
    ensures does { IfOk result (DoesStage plan.now.pipeline plan.now.schedule plan.now.boxes
        of.now.computed.place of.now.computed.func.now (suc of.now.at) (spec.owns_update of.now.computed.own.now
        of.now.update.now of.now.stage.now)) }
    ensures touches { IfOk result (TouchesItsOwn plan.now.pipeline plan.now.schedule plan.now.boxes
        of.now.computed.place (spec.owns_update of.now.computed.own.now of.now.update.now of.now.stage.now)) }
    ensures few { IfOk result (λ phase. task_depth phase ≤ 14) }
    ensures needs { IfOk result (λ phase. greatest_need phase.body ≤ most_need plan.now.pipeline
        plan.now.schedule) }
    ensures sizes { IfOk result (λ phase. whole_size phase.body + 24 ≤ 64 * stage_weight
        (update_nodes (flags_of plan.now.schedule.standings) plan.now.pipeline.funcs of.now.update.now)
        of.now.stage.now) }
    ensures few_tasks { IfOk result (λ phase. phase.tasks ≤ 2 ^ 31) }
    ensures loop_lanes { IfOk result LanesMayBeAtOnce }
    ensures stores { IfOk result (StoresWhatItNames plan.now.pipeline plan.now.schedule
        plan.now.boxes of.now.computed.place of.now.computed.func.now of.now.at of.now.computed.own.now
        of.now.update.now of.now.stage.now) }
{
    let bytes = byte_inputs(alloc, plan.pipeline().inputs())?;
    let extents = update_extents(of.computed.own, of.update);
    let store = root_store(alloc, plan, of)?;
    let body = body_of(alloc, of.computed.place, of.stage, extents, store)?;
    let tasks = task_count(alloc, of.stage, extents)?;
    let counter = task_counter(of.computed.place, of.stage);
    let private = Items::new(alloc);
    Ok(Phase {
        tasks,
        counter,
        body,
        private,
        bytes,
    })
}

/// All loops of an update of a Func around its store, where the Func is computed at a loop of another one: reads are
/// counted from the corners, and its own points from its corner.
///
/// From buffers that hold what is before it in the Func's box, it leaves there what is after it, wherever loops
/// of the other Func take the box (`specs/Updates.antt`).
///
/// # Errors
///
/// Memory ran out.
pub fn update_nest(
    alloc: Global,
    plan: &Plan<'_>,
    corners: &[Corner],
    corner: &Corner,
    of: &UpdateOf<'_>,
) -> Result<Stmt, AllocError>
    requires computed { spec.IsComputedIn plan.now.pipeline plan.now.schedule plan.now.boxes
        of.now.computed.place of.now.computed.func.now of.now.computed.plan.now of.now.computed.own.now }
    requires at { spec.IsUpdateAt plan.now.schedule of.now.computed.place of.now.computed.func.now
        of.now.computed.plan.now of.now.at of.now.update.now of.now.stage.now }
    requires corner { slice_get corners.now of.now.computed.place ≡ Some corner.now }
    ensures does { IfOk result (spec.DoesUpdate plan.now.pipeline plan.now.schedule plan.now.boxes
        corners.now of.now.computed.place of.now.computed.func.now corner.now of.now.computed.own.now of.now.at
        of.now.update.now) }
    ensures alone { IfOk result (StoresInIt of.now.computed.place) }
    ensures sound { IfOk result (spec.AreSoundLoops plan.now.pipeline plan.now.schedule
        plan.now.boxes corners.now of.now.computed.place corner.now of.now.computed.own.now of.now.update.now) }
    ensures few { IfOk result (λ statement. depth statement ≤ 9) }
    ensures at_once { IfOk result MayAlwaysBeAtOnce }
    ensures about { IfOk result (λ statement. is_about of.now.computed.place statement ≡ true) }
    ensures needs { IfOk result (λ statement. greatest_need statement ≤ most_need plan.now.pipeline
        plan.now.schedule) }
    ensures sizes { IfOk result (λ statement. AreShort corners.now
        → whole_size statement ≤ 64 * stage_weight (update_nodes (flags_of plan.now.schedule.standings)
        plan.now.pipeline.funcs of.now.update.now) of.now.stage.now) }
{
    // What every plan and its pipeline keep is known once their parts are read.
    let _funcs = plan.pipeline().funcs();
    let store = store_at(alloc, plan, corners, corner, of)?;
    let extents = update_extents(of.computed.own, of.update);
    let statement = nest_of(alloc, of.computed.place, of.stage, extents, store)?;
    Ok(statement)
}
