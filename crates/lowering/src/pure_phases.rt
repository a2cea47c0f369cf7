//! Phases of pure definitions.

ghost use Rattle.std.specs.Prelude.{◌≡◌, ◌+◌, ◌<◌, ◌≤◌, ◌^◌, ◌++◌, IfOk, OnOk, length};
ghost use Rattle.schedule_loops.specs.Visits.{AreSplits};
ghost use Rattle.schedule_loops.specs.Visits as iterations;
ghost use Rattle.bounds.specs.Extents as views;
ghost use Rattle.loop_ir.specs.Depths.{task_depth};
ghost use Rattle.loop_ir.specs.Needs.{greatest_need};
ghost use Rattle.lowering_nests.specs.Nests.{AreFew};
ghost use Rattle.lowering.specs.ProducedFuncs.{produced_from};
ghost use Rattle.schedule_loops.specs.Visits.{owns};
ghost use Rattle.lowering.specs.PurePhases as spec;
ghost use Rattle.bounds.specs.Stages as spec_stages;
ghost use Rattle.lowering.specs.Registers.{most_need};
ghost use Rattle.lowering.specs.Sizes.{IsLight};
ghost use Rattle.lowering.specs.LoopLanes.{LanesMayBeAtOnce};
ghost use Rattle.lowering.specs.Runs.{StoresInRuns};
ghost use Rattle.lowering.specs.Stages.{DoesStage};
ghost use Rattle.lowering.specs.Stored.{StoresItsOwn};
ghost use Rattle.lowering.specs.Touching.{TouchesItsOwn};

use crate::computed::ComputedFunc;
use crate::consuming::{body_of, produced_places};
use crate::nests::store_of;
use bounds::Plan;
use bounds::boxes::extents_of;
use halide_pipeline::Input;
use loop_ir::expressions::Counter;
use loop_ir::statements::Phase;
use schedule::{ComputeLevel, FuncPlacement};
use schedule_lines::Stage;
use schedule_loops::{Extents, LoopSizes};
use sqlite_items::Items;
use std::alloc::{AllocError, Global};

/// What is at the number of a task.
pub(crate) fn task_counter(func_index: usize, stage: &Stage) -> Option<Counter>
    ensures { result ≡ spec.counter_of func_index (iterations.parallel stage.now) }
{
    stage.parallel().map(|own| Counter {
        func: func_index,
        id: own.id,
    })
}

/// Adds the places of inputs of bytes, of which the first has this place.
fn add_byte_inputs(inputs: &[Input], at: usize, places: &mut Items<usize>) -> Result<(), AllocError>
    requires { at + length inputs.now < 2 ^ 64 }
    ensures { OnOk result (places.new ≡ places.old ++ spec.byte_places at inputs.now) }
{
    match inputs {
        [] => Ok(()),
        [input, others @ ..] => {
            if input.is_bytes {
                places.push(at)?;
            }
            add_byte_inputs(others, at + 1, places)?;
            Ok(())
        }
    }
}

/// The places of inputs of bytes.
pub(crate) fn byte_inputs(alloc: Global, inputs: &[Input]) -> Result<Items<usize>, AllocError>
    ensures { IfOk result (λ places. places ≡ spec.byte_places 0 inputs.now) }
{
    let mut places = Items::new(alloc);
    add_byte_inputs(inputs, 0, &mut places)?;
    Ok(places)
}

/// How many tasks a stage has.
pub(crate) fn task_count(alloc: Global, stage: &Stage, extents: Extents) -> Result<u32, AllocError>
    requires splits { AreSplits stage.now.splits }
    requires few { AreFew extents }
    ensures is { IfOk result (λ count. count ≡ iterations.iteration_count extents stage.now) }
    ensures few { IfOk result (λ count. count ≤ 2 ^ 31) }
{
    let sizes = LoopSizes::new(alloc, extents, stage.splits.as_slice())?;
    Ok(sizes.iterations(stage))
}

/// The phase of the pure definition of a Func that is computed at root, with the Funcs computed at its loops in it:
/// each task makes what the loops inside the parallel one visit.
///
/// From buffers that hold the pixels of the Funcs before it, its tasks leave those of the definition
/// (`specs/PurePhases.antt`): it is the phase of the Func's first stage (`specs/Stages.antt`). The buffers of the Funcs
/// computed at its loops are private. Each task stores at a point of its Func exactly if its iteration visits the point
/// (`specs/Stored.antt`).
///
/// # Errors
///
/// Memory ran out.
pub fn pure_phase(
    alloc: Global,
    plan: &Plan<'_>,
    computed: &ComputedFunc<'_>,
) -> Result<Phase, AllocError>
    requires at { spec_stages.IsAtRoot plan.now.pipeline plan.now.schedule plan.now.boxes
        computed.now.place computed.now.func.now computed.now.plan.now computed.now.own.now }
    ensures tasks { IfOk result (λ phase. phase.tasks ≡ iterations.iteration_count
        (views.extents_of computed.now.own.now) computed.now.plan.now.pure) }
    ensures private { IfOk result (λ phase. phase.private ≡ produced_from computed.now.place 0
        plan.now.schedule.standings) }
    ensures bytes { IfOk result (λ phase. phase.bytes ≡ spec.byte_places 0 plan.now.pipeline.inputs) }
    ensures does { IfOk result (spec.DoesPure plan.now.pipeline plan.now.schedule plan.now.boxes
        computed.now.place computed.now.func.now computed.now.plan.now computed.now.own.now) }
    ensures stage { IfOk result (DoesStage plan.now.pipeline plan.now.schedule plan.now.boxes
        computed.now.place computed.now.func.now 0 (owns (views.extents_of computed.now.own.now)
        computed.now.plan.now.pure)) }
    ensures touches { IfOk result (TouchesItsOwn plan.now.pipeline plan.now.schedule plan.now.boxes
        computed.now.place (owns (views.extents_of computed.now.own.now) computed.now.plan.now.pure)) }
    ensures few { IfOk result (λ phase. task_depth phase ≤ 14) }
    ensures needs { IfOk result (λ phase. greatest_need phase.body ≤ most_need plan.now.pipeline
        plan.now.schedule) }
    ensures light { IfOk result (IsLight plan.now.pipeline plan.now.schedule computed.now.place
        computed.now.func.now computed.now.plan.now 0) }
    ensures few_tasks { IfOk result (λ phase. phase.tasks ≤ 2 ^ 31) }
    ensures loop_lanes { IfOk result LanesMayBeAtOnce }
    ensures in_runs { IfOk result (StoresInRuns computed.now.place (views.extents_of computed.now.own.now)
        computed.now.plan.now.pure) }
    ensures stores { IfOk result (StoresItsOwn plan.now.boxes computed.now.place
        (owns (views.extents_of computed.now.own.now) computed.now.plan.now.pure)) }
{
    let schedule = plan.schedule();
    let stage = &computed.plan.pure;
    let extents = extents_of(computed.own);
    let root = ComputeLevel::Root;
    let store = store_of(alloc, plan, root, computed)?;
    let body = body_of(alloc, plan, computed.place, stage, extents, store)?;
    let tasks = task_count(alloc, stage, extents)?;
    let bytes = byte_inputs(alloc, plan.pipeline().inputs())?;
    let counter = task_counter(computed.place, stage);
    let private = produced_places(alloc, computed.place, schedule.standings.as_slice())?;
    Ok(Phase {
        tasks,
        counter,
        body,
        private,
        bytes,
    })
}

/// Whether the output reaches a Func, and it is computed at root.
pub(crate) fn is_at_root(placement: &FuncPlacement) -> bool
    ensures { result ≡ spec.is_at_root placement.now }
{
    placement.is_reached && matches!(placement.place, ComputeLevel::Root)
}
