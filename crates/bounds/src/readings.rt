//! The ranges in which a source is read.

ghost use Rattle.std.specs.Prelude.{◌≡◌, ◌+◌, ◌<◌, ◌^◌, IfOk, length, slice_get};
ghost use Rattle.bounds_ranges.specs.Ranges.{IsFit};
ghost use Rattle.bounds.specs.Boxes.{AreBoxes, IsBox, IsSpread, lasts_of};
ghost use Rattle.bounds.specs.Inference as spec;
ghost use Rattle.bounds.specs.Views.{AreSmall};

use crate::asks::{ReadingFunc, ask_func, ask_update, unplaced};
use crate::boxes::{ConsumerLoop, InferredSource, NO_LOOPS, SourceBox, Spread, gathered};
use crate::views::view;
use halide_pipeline::{Func, Pipeline, Source, Update};
use schedule::Schedule;
use std::alloc::{AllocError, Global};

/// A pipeline under a schedule.
#[derive(Clone, Copy)]
pub struct Scheduled<'a> {
    pub pipeline: &'a Pipeline,
    pub schedule: &'a Schedule,
    /// Which Funcs are inlined.
    pub flags: &'a [bool],
}

/// The ranges so far with what a Func of these definitions reads of a source.
#[tactic(auto, unfolding(crate::specs::Inference::read_in), using(crate::proofs::NoReads::none_fit))]
fn read_in(
    alloc: Global,
    reader: &ReadingFunc<'_>,
    func: &Func,
    sought: &InferredSource<'_>,
    spread: Spread,
) -> Result<Spread, AllocError>
    requires few { reader.now.place < 2 ^ 63 }
    requires x { IsFit reader.now.view.now.lasts reader.now.view.now.x }
    requires y { IsFit reader.now.view.now.lasts reader.now.view.now.y }
    requires spread { IsSpread (lasts_of sought.now.consumer.now) spread }
    ensures value { IfOk result (λ s. s ≡ spec.read_in reader.now.pipeline.now reader.now.flags.now reader.now.place
        reader.now.view.now sought.now.consumer.now sought.now.source spread func.now) }
    ensures fits { IfOk result (λ s. IsSpread (lasts_of sought.now.consumer.now) s) }
{
    let mut asked = Vec::new(alloc);
    ask_func(reader, func, &mut asked)?;
    let lasts = &reader.view.lasts;
    Ok(gathered(sought, lasts, true, true, spread, asked.as_slice()))
}

/// The ranges so far with what the Func at a place reads of a source, which has this box.
fn read_by(
    alloc: Global,
    scheduled: &Scheduled<'_>,
    at: usize,
    source_box: &SourceBox,
    sought: &InferredSource<'_>,
    spread: Spread,
) -> Result<Spread, AllocError>
    requires few { at < 2 ^ 63 }
    requires small { AreSmall scheduled.now.schedule.now }
    requires near { IsBox source_box.now }
    requires spread { IsSpread (lasts_of sought.now.consumer.now) spread }
    ensures value { IfOk result (λ s. s ≡ spec.read_by scheduled.now.pipeline.now scheduled.now.schedule.now
        scheduled.now.flags.now at source_box.now sought.now.consumer.now sought.now.source spread) }
    ensures fits { IfOk result (λ s. IsSpread (lasts_of sought.now.consumer.now) s) }
{
    let view = view(alloc, scheduled.schedule, at, source_box, sought.consumer)?;
    match scheduled.pipeline.func(at) {
        None => Ok(spread),
        Some(func) => {
            let reader = ReadingFunc {
                pipeline: scheduled.pipeline,
                flags: scheduled.flags,
                place: at,
                view: &view,
            };
            let spread = read_in(alloc, &reader, func, sought, spread)?;
            Ok(spread)
        }
    }
}

/// The ranges so far with what the Funcs from a place on read of a source, which have these boxes.
pub fn read_from(
    alloc: Global,
    scheduled: &Scheduled<'_>,
    at: usize,
    sought: &InferredSource<'_>,
    boxes: &[Option<SourceBox>],
    spread: Spread,
) -> Result<Spread, AllocError>
    requires few { at + length boxes.now < 2 ^ 63 }
    requires small { AreSmall scheduled.now.schedule.now }
    requires boxes { AreBoxes boxes.now }
    requires spread { IsSpread (lasts_of sought.now.consumer.now) spread }
    ensures value { IfOk result (λ s. s ≡ spec.read_from scheduled.now.pipeline.now scheduled.now.schedule.now
        scheduled.now.flags.now at sought.now.consumer.now sought.now.source boxes.now spread) }
    ensures fits { IfOk result (λ s. IsSpread (lasts_of sought.now.consumer.now) s) }
{
    match boxes {
        [] => Ok(spread),
        [first, others @ ..] => {
            let spread = match first {
                None => spread,
                Some(own) => read_by(alloc, scheduled, at, own, sought, spread)?,
            };
            let spread = read_from(alloc, scheduled, at + 1, sought, others, spread)?;
            Ok(spread)
        }
    }
}

/// The ranges so far with what an update of the Func at a place reads of that Func out of place.
#[tactic(auto, unfolding(crate::specs::Inference::own_update), using(crate::proofs::NoReads::none_fit))]
fn own_update(
    alloc: Global,
    scheduled: &Scheduled<'_>,
    at: usize,
    consumer: &Option<ConsumerLoop>,
    spread: Spread,
    update: &Update,
) -> Result<Spread, AllocError>
    requires few { at < 2 ^ 63 }
    requires spread { IsSpread (lasts_of consumer.now) spread }
    ensures value { IfOk result (λ s. s ≡ spec.own_update scheduled.now.pipeline.now scheduled.now.flags.now at
        consumer.now spread update.now) }
    ensures fits { IfOk result (λ s. IsSpread (lasts_of consumer.now) s) }
{
    let view = unplaced();
    let reader = ReadingFunc {
        pipeline: scheduled.pipeline,
        flags: scheduled.flags,
        place: at,
        view: &view,
    };
    let mut asked = Vec::new(alloc);
    ask_update(&reader, update, &mut asked)?;
    let sought = InferredSource {
        source: Source::Func(at),
        consumer,
    };
    let first = !update.is_first_in_place();
    let second = !update.is_second_in_place();
    Ok(gathered(&sought, &NO_LOOPS, first, second, spread, asked.as_slice()))
}

/// The same of updates.
pub fn own_updates(
    alloc: Global,
    scheduled: &Scheduled<'_>,
    at: usize,
    consumer: &Option<ConsumerLoop>,
    spread: Spread,
    updates: &[Update],
) -> Result<Spread, AllocError>
    requires few { at < 2 ^ 63 }
    requires spread { IsSpread (lasts_of consumer.now) spread }
    ensures value { IfOk result (λ s. s ≡ spec.own_updates scheduled.now.pipeline.now scheduled.now.flags.now at
        consumer.now spread updates.now) }
    ensures fits { IfOk result (λ s. IsSpread (lasts_of consumer.now) s) }
{
    match updates {
        [] => Ok(spread),
        [update, others @ ..] => {
            let spread = own_update(alloc, scheduled, at, consumer, spread, update)?;
            let spread = own_updates(alloc, scheduled, at, consumer, spread, others)?;
            Ok(spread)
        }
    }
}
