//! How many tasks the phases of a compiled image have.

ghost use Rattle.std.specs.Prelude.{◌≡◌, IfOk, IfSome, Some, slice_get};
ghost use Rattle.std.specs.Option.{option_copied};
ghost use Rattle.halide_pipeline.specs.Pixel as meaning;
ghost use Rattle.schedule.specs.Accepted.{IsAccepted, IsPlan};
ghost use Rattle.schedule_loops.specs.Visits.{AreSplits};
ghost use Rattle.schedule_loops.specs.Visits.{iteration_count};
ghost use Rattle.bounds.specs.Boxes.{AreBoxes, IsBox};
ghost use Rattle.bounds.specs.Extents.{box_in};
ghost use Rattle.bounds.specs.Tasks as spec;
ghost use Rattle.bounds.specs.Extents as views;

use crate::boxes::{SourceBox, extents_of};
use crate::source_boxes::SourceBoxes;
use crate::views::sizes_of;
use halide_pipeline::{Func, Pipeline, Reduction, Update};
use schedule::{FuncPlan, Schedule};
use schedule_lines::stages::{Stage, StageName};
use schedule_loops::{Extents, LoopSizes};
use std::alloc::{AllocError, Global};

/// How many values a second reduction variable takes, if there is one.
fn second_extent(second: &Option<Reduction>) -> u32
    ensures { result ≡ meaning.second_extent second.now }
{
    match second {
        None => 1,
        Some(reduction) => reduction.extent,
    }
}

/// How many values each variable of an update takes, over a box.
pub fn update_extents(source_box: &SourceBox, update: &Update) -> Extents
    requires { IsBox source_box.now }
    ensures { result ≡ views.update_extents source_box.now update.now }
{
    let arguments = extents_of(source_box);
    Extents {
        first_argument: arguments.first_argument,
        second_argument: arguments.second_argument,
        first_reduction: update.first.extent,
        second_reduction: second_extent(&update.second),
    }
}

/// How many tasks the phase of a pure definition has.
fn pure_tasks(alloc: Global, plan: &FuncPlan, source_box: &SourceBox) -> Result<u32, AllocError>
    requires splits { AreSplits plan.now.pure.splits }
    requires near { IsBox source_box.now }
    ensures { IfOk result (λ count. count ≡ iteration_count (views.extents_of source_box.now) plan.now.pure) }
{
    let sizes = sizes_of(alloc, &plan.pure, source_box)?;
    Ok(sizes.iterations(&plan.pure))
}

/// How many tasks the phase of an update has.
fn update_tasks(
    alloc: Global,
    update: &Update,
    stage: &Stage,
    source_box: &SourceBox,
) -> Result<u32, AllocError>
    requires splits { AreSplits stage.now.splits }
    requires near { IsBox source_box.now }
    ensures { IfOk result (λ count. count ≡ iteration_count (views.update_extents source_box.now update.now) stage.now) }
{
    let extents = update_extents(source_box, update);
    let sizes = LoopSizes::new(alloc, extents, stage.splits.as_slice())?;
    Ok(sizes.iterations(stage))
}

/// How many tasks the phase of a stage of a Func has.
fn stage_tasks(
    alloc: Global,
    func: &Func,
    plan: &FuncPlan,
    source_box: &SourceBox,
    update: Option<usize>,
) -> Result<Option<u32>, AllocError>
    requires plan { IsPlan func.now plan.now }
    requires near { IsBox source_box.now }
    ensures { IfOk result (λ count. count ≡ spec.stage_tasks source_box.now func.now plan.now update) }
{
    let Some(at) = update else {
        let count = pure_tasks(alloc, plan, source_box)?;
        return Ok(Some(count));
    };
    let Some(update) = func.updates.get(at) else {
        return Ok(None);
    };
    match plan.updates.get(at) {
        None => Ok(None),
        Some(stage) => {
            let count = update_tasks(alloc, update, stage, source_box)?;
            Ok(Some(count))
        }
    }
}

/// The box at a place.
fn box_at(boxes: &[Option<SourceBox>], func_index: usize) -> Option<SourceBox>
    requires { AreBoxes boxes.now }
    ensures is { result ≡ box_in (slice_get boxes.now func_index) }
    ensures near { IfSome result IsBox }
{
    match boxes.get(func_index) {
        None => None,
        Some(own) => *own,
    }
}

/// How many tasks the phase of a stage has, if its Func has a box: one for each iteration of its parallel loop, or one
/// where none is parallel (`specs/Tasks.antt`).
///
/// # Errors
///
/// Memory ran out.
#[tactic(auto, unfolding(crate::specs::Tasks::tasks))]
pub fn tasks(
    alloc: Global,
    pipeline: &Pipeline,
    schedule: &Schedule,
    boxes: &SourceBoxes,
    name: StageName,
) -> Result<Option<u32>, AllocError>
    requires { IsAccepted pipeline.now schedule.now }
    ensures { IfOk result (λ count. count ≡ spec.tasks pipeline.now schedule.now boxes.now name) }
{
    let Some(own) = box_at(boxes.as_slice(), name.func) else {
        return Ok(None);
    };
    let Some(func) = pipeline.func(name.func) else {
        return Ok(None);
    };
    match schedule.funcs.get(name.func) {
        None => Ok(None),
        Some(plan) => {
            let count = stage_tasks(alloc, func, plan, &own, name.update)?;
            Ok(count)
        }
    }
}
