//! The boxes of an algorithm under a schedule, or the first fault that there is.

ghost use Rattle.std.specs.Prelude.{◌≤◌, length};
ghost use Rattle.schedule.specs.Accepted.{IsAccepted};
ghost use Rattle.bounds.specs.Layout.{AreInputs, HaveFewUpdates};
ghost use Rattle.bounds.specs.Verdict as spec;
ghost use Rattle.bounds.specs.Views.{AreSmall};

use crate::faults::BoundsFault;
use crate::inference::{boxes_from, inputs_from};
use crate::judging::{have_few_points, inputs_hold, shifts_hold};
use crate::layout::{Layout, MOST_DATA, laid_out};
use crate::readings::Scheduled;
use crate::source_boxes::SourceBoxes;
use bounds_weights::weighing::inlined_flags;
use halide_pipeline::Pipeline;
use schedule::Schedule;
use std::alloc::Global;

/// The boxes of all sources, and where they lie in the data of a compiled image.
pub struct Boxes {
    /// Of each input, None where it isn't read.
    pub inputs: SourceBoxes,
    /// Of each Func, None where the output doesn't reach it and where it is inlined.
    pub funcs: SourceBoxes,
    pub layout: Layout,
}

impl Drop for Boxes {
    fn drop(self) {
        let Boxes {
            inputs,
            funcs,
            layout,
        } = self;
        drop(inputs);
        drop(funcs);
        drop(layout);
    }
}

/// The boxes, unless one of them or the data are too large.
fn sized(inputs: SourceBoxes, funcs: SourceBoxes, layout: Layout) -> Result<Boxes, BoundsFault>
    ensures { spec.Infers result (spec.sized (record { inputs = inputs; funcs = funcs; layout = layout })) }
{
    if have_few_points(inputs.as_slice())
        && (have_few_points(funcs.as_slice()) && layout.size <= MOST_DATA)
    {
        Ok(Boxes {
            inputs,
            funcs,
            layout,
        })
    } else {
        Err(BoundsFault::TooLarge)
    }
}

/// The boxes, unless they can't be compiled.
fn judged(
    pipeline: &Pipeline,
    schedule: &Schedule,
    funcs: SourceBoxes,
    inputs: SourceBoxes,
    alloc: Global,
) -> Result<Boxes, BoundsFault>
    requires small { AreSmall schedule.now }
    requires few { length funcs ≤ 12 }
    requires inputs { AreInputs pipeline.now.inputs }
    requires updates { HaveFewUpdates pipeline.now.funcs }
    ensures { spec.Infers result (spec.judged pipeline.now schedule.now funcs inputs) }
{
    if !inputs_hold(pipeline.inputs(), inputs.as_slice()) {
        return Err(BoundsFault::InputExtents);
    }
    if !shifts_hold(alloc, schedule.funcs.as_slice(), funcs.as_slice())? {
        return Err(BoundsFault::ShortShift);
    }
    let layout = laid_out(pipeline, schedule, funcs.as_slice(), alloc)?;
    sized(inputs, funcs, layout)
}

/// The boxes of all sources of a pipeline, under a schedule that was read for it: exactly where no fault is, and
/// else the first fault (`specs/Verdict.antt`).
///
/// # Errors
///
/// In this order: a box leaves -2^24 to 2^24; an input may be read outside its extents; a shifted split is of a loop
/// whose extent is below its factor; a box has more than 1,048,576 points or the data more than 33,554,432 bytes.
/// Memory ran out.
#[tactic(auto, unfolding(crate::specs::Verdict::inferred), using(crate::proofs::Accepted::are_small, crate::proofs::Accepted::are_inputs, crate::proofs::Accepted::have_few_updates))]
pub fn infer(pipeline: &Pipeline, schedule: &Schedule, alloc: Global) -> Result<Boxes, BoundsFault>
    requires { IsAccepted pipeline.now schedule.now }
    ensures { spec.Infers result (spec.inferred pipeline.now schedule.now) }
{
    let flags = inlined_flags(alloc, schedule.standings.as_slice())?;
    let scheduled = Scheduled {
        pipeline,
        schedule,
        flags: flags.as_slice(),
    };
    let Some(funcs) = boxes_from(alloc, &scheduled, 0, pipeline.funcs())? else {
        return Err(BoundsFault::FarBox);
    };
    let boxes = funcs.as_slice();
    let Some(inputs) = inputs_from(alloc, &scheduled, boxes, 0, pipeline.inputs())? else {
        return Err(BoundsFault::FarBox);
    };
    judged(pipeline, schedule, funcs, inputs, alloc)
}
