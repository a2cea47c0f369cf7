//! The boxes of all sources, from the output back.

ghost use Rattle.std.specs.Prelude.{◌≡◌, ◌+◌, ◌<◌, ◌^◌, IfOk, length, slice_get};
ghost use Rattle.bounds.specs.Boxes.{AreBoxes, IsFitBox, IsBoxOrNone, IsSpread, lasts_of};
ghost use Rattle.bounds.specs.Inference as spec;
ghost use Rattle.bounds.specs.Views.{AreSmall};
ghost use Rattle.bounds_ranges.specs.Ranges.{IsFit};

use crate::boxes::{
    ConsumerLoop, InferredSource, NO_SPREAD, SourceBox, Spread, lasts_of, spread_box,
};
use crate::readings::{Scheduled, own_updates, read_from};
use crate::source_boxes::{SourceBoxes, in_front};
use crate::views::consumer_loop;
use bounds_ranges::bases::no_base;
use bounds_ranges::ranges::{Ends, Lasts, ORIGIN, Range, fit};
use halide_pipeline::{Func, Input, Pipeline, Source};
use schedule::{ComputeLevel, LoopPosition, Schedule};
use std::alloc::{AllocError, Global};

/// This many pixels from 0 on.
fn pixels_range(lasts: &Lasts, count: u32) -> Range
    ensures value { result ≡ spec.pixels_range lasts.now count }
    ensures fits { IsFit lasts.now result }
{
    let ends = Ends {
        low: ORIGIN,
        high: ORIGIN + u64::from(count.saturating_sub(1)),
    };
    fit(lasts, no_base(), ends)
}

/// The output's picture is wanted, of other Funcs nothing yet.
fn wanted(pipeline: &Pipeline, at: usize, consumer: &Option<ConsumerLoop>) -> Spread
    ensures value { result ≡ spec.wanted pipeline.now.output at consumer.now }
    ensures fits { IsSpread (lasts_of consumer.now) result }
{
    let output = pipeline.output();
    if at != output.func {
        return NO_SPREAD;
    }
    let lasts = lasts_of(consumer);
    Spread {
        x: Some(pixels_range(&lasts, output.width)),
        y: Some(pixels_range(&lasts, output.height)),
    }
}

/// The box of the Func at a place, among those from one on.
fn box_at(func_index: usize, at: usize, boxes: &[Option<SourceBox>]) -> Option<SourceBox>
    requires few { at + length boxes.now < 2 ^ 63 }
    requires boxes { AreBoxes boxes.now }
    ensures value { result ≡ spec.box_at func_index at boxes.now }
    ensures near { IsBoxOrNone result }
{
    match boxes {
        [] => None,
        [first, others @ ..] => {
            if at == func_index {
                *first
            } else {
                box_at(func_index, at + 1, others)
            }
        }
    }
}

/// The loop at which a Func is computed, of one of the Funcs from a place on.
fn consumer_of(
    alloc: Global,
    schedule: &Schedule,
    at: usize,
    later_boxes: &[Option<SourceBox>],
    position: LoopPosition,
) -> Result<Option<ConsumerLoop>, AllocError>
    requires few { at + length later_boxes.now < 2 ^ 63 }
    requires small { AreSmall schedule.now }
    requires boxes { AreBoxes later_boxes.now }
    ensures { IfOk result (λ consumer. consumer ≡ spec.consumer_of position (slice_get schedule.now.funcs position.func)
        (spec.box_at position.func at later_boxes.now)) }
{
    let Some(plan) = schedule.funcs.get(position.func) else {
        return Ok(None);
    };
    match box_at(position.func, at, later_boxes) {
        None => Ok(None),
        Some(own) => Ok(Some(consumer_loop(alloc, plan, &own, position.inside)?)),
    }
}

/// The box of a Func that is computed.
fn computed_box(
    alloc: Global,
    scheduled: &Scheduled<'_>,
    at: usize,
    func: &Func,
    later_boxes: &[Option<SourceBox>],
    consumer: &Option<ConsumerLoop>,
) -> Result<Option<SourceBox>, AllocError>
    requires few { at + 1 + length later_boxes.now < 2 ^ 63 }
    requires small { AreSmall scheduled.now.schedule.now }
    requires boxes { AreBoxes later_boxes.now }
    ensures value { IfOk result (λ s. s ≡ spec.computed_box scheduled.now.pipeline.now scheduled.now.schedule.now
        scheduled.now.flags.now at func.now later_boxes.now consumer.now) }
    ensures fits { IfOk result (λ own. IsFitBox own) }
{
    let updates = func.updates.as_slice();
    let spread = wanted(scheduled.pipeline, at, consumer);
    let spread = own_updates(alloc, scheduled, at, consumer, spread, updates)?;
    let sought = InferredSource {
        source: Source::Func(at),
        consumer,
    };
    let spread = read_from(alloc, scheduled, at + 1, &sought, later_boxes, spread)?;
    Ok(spread_box(consumer, spread))
}

/// The box of the Func at a place, if it is computed.
fn func_box(
    alloc: Global,
    scheduled: &Scheduled<'_>,
    at: usize,
    func: &Func,
    later_boxes: &[Option<SourceBox>],
) -> Result<Option<SourceBox>, AllocError>
    requires few { at + 1 + length later_boxes.now < 2 ^ 63 }
    requires small { AreSmall scheduled.now.schedule.now }
    requires boxes { AreBoxes later_boxes.now }
    ensures value { IfOk result (λ s. s ≡ spec.func_box scheduled.now.pipeline.now scheduled.now.schedule.now
        scheduled.now.flags.now at func.now later_boxes.now (slice_get scheduled.now.schedule.now.standings at)) }
    ensures fits { IfOk result (λ source_box. IsFitBox source_box) }
{
    let Some(source_box) = scheduled.schedule.standing(at) else {
        return Ok(None);
    };
    if !source_box.is_reached {
        return Ok(None);
    }
    let consumer = match source_box.place {
        ComputeLevel::Root => None,
        ComputeLevel::At(place) => consumer_of(
            alloc,
            scheduled.schedule,
            at + 1,
            later_boxes,
            place,
        )?,
        ComputeLevel::Inlined | ComputeLevel::Nowhere => return Ok(None),
    };
    let source_box = computed_box(alloc, scheduled, at, func, later_boxes, &consumer)?;
    Ok(source_box)
}

/// The boxes of the Funcs from a place on; None where one leaves -2^24 to 2^24.
pub fn boxes_from(
    alloc: Global,
    scheduled: &Scheduled<'_>,
    at: usize,
    funcs: &[Func],
) -> Result<Option<SourceBoxes>, AllocError>
    requires few { at + length funcs.now < 2 ^ 63 }
    requires small { AreSmall scheduled.now.schedule.now }
    ensures value { IfOk result (λ s. s ≡ spec.boxes_from scheduled.now.pipeline.now scheduled.now.schedule.now
        scheduled.now.flags.now at funcs.now) }
    ensures count { IfOk result (λ s. spec.HasCount (length funcs.now) s) }
{
    match funcs {
        [] => Ok(Some(SourceBoxes::new(alloc))),
        [func, others @ ..] => {
            let Some(behind) = boxes_from(alloc, scheduled, at + 1, others)? else {
                return Ok(None);
            };
            let own = func_box(alloc, scheduled, at, func, behind.as_slice())?;
            let boxes = in_front(own, behind)?;
            Ok(boxes)
        }
    }
}

/// The box of the input at a place.
fn input_box(
    alloc: Global,
    scheduled: &Scheduled<'_>,
    boxes: &[Option<SourceBox>],
    input_index: usize,
) -> Result<Option<SourceBox>, AllocError>
    requires few { length boxes.now < 2 ^ 63 }
    requires small { AreSmall scheduled.now.schedule.now }
    requires boxes { AreBoxes boxes.now }
    ensures value { IfOk result (λ s. s ≡ spec.input_box scheduled.now.pipeline.now scheduled.now.schedule.now
        scheduled.now.flags.now boxes.now input_index) }
    ensures fits { IfOk result (λ own. IsFitBox own) }
{
    let sought = InferredSource {
        source: Source::Input(input_index),
        consumer: &None,
    };
    let spread = read_from(alloc, scheduled, 0, &sought, boxes, NO_SPREAD)?;
    Ok(spread_box(sought.consumer, spread))
}

/// The boxes of the inputs from a place on; None where one leaves -2^24 to 2^24.
pub fn inputs_from(
    alloc: Global,
    scheduled: &Scheduled<'_>,
    boxes: &[Option<SourceBox>],
    input_index: usize,
    inputs: &[Input],
) -> Result<Option<SourceBoxes>, AllocError>
    requires few { length boxes.now < 2 ^ 63 }
    requires places { input_index + length inputs.now < 2 ^ 63 }
    requires small { AreSmall scheduled.now.schedule.now }
    requires boxes { AreBoxes boxes.now }
    ensures value { IfOk result (λ s. s ≡ spec.inputs_from scheduled.now.pipeline.now scheduled.now.schedule.now
        scheduled.now.flags.now boxes.now input_index inputs.now) }
{
    match inputs {
        [] => Ok(Some(SourceBoxes::new(alloc))),
        [_, others @ ..] => {
            let behind = inputs_from(alloc, scheduled, boxes, input_index + 1, others)?;
            let Some(behind) = behind else {
                return Ok(None);
            };
            let own = input_box(alloc, scheduled, boxes, input_index)?;
            let boxes = in_front(own, behind)?;
            Ok(boxes)
        }
    }
}
