//! A whole schedule.

ghost use Rattle.std.specs.Prelude.{◌≡◌, IfOk, slice_get};
ghost use Rattle.std.specs.Option.{option_copied};
ghost use Rattle.line_text.specs.Lines.{lines_of};
ghost use Rattle.line_text.specs.Lines.{Reads, taken_from};
ghost use Rattle.line_text.specs.Lines.{GivesLocated};
ghost use Rattle.schedule.specs.Accepted.{IsAccepted};
ghost use Rattle.schedule.specs.Reading.{taken};
ghost use Rattle.schedule.specs.Reading as spec;

use crate::legality::verdict;
use crate::placements::{FuncPlacement, standings};
use crate::plans::Plans;
use crate::readers::{ScheduleReader, start, take_line};
use halide_pipeline::Pipeline;
use line_text::LocatedError;
use line_text::lines::first_line;
use schedule_lines::faults::ScheduleFault;
use schedule_lines::stages::{Stage, StageName};
use sqlite_items::Items;
use std::alloc::Global;

/// What a schedule text means for a pipeline.
pub struct Schedule {
    /// The loops of each Func's stages, in the pipeline's order.
    pub funcs: Plans,
    /// Whether the output reaches each Func, and where it is computed, in the same order.
    pub standings: Items<FuncPlacement>,
}

impl Drop for Schedule {
    fn drop(self) {
        let Schedule { funcs, standings } = self;
        drop(funcs);
        drop(standings);
    }
}

impl Schedule {
    /// A stage of the pipeline.
    pub fn stage(&self, name: StageName) -> Option<&Stage>
        ensures { option_copied result ≡ spec.stage self.now name }
    {
        match self.funcs.get(name.func) {
            None => None,
            Some(plan) => plan.stage(name.update),
        }
    }

    /// What becomes of the Func at a place.
    pub fn standing(&self, func: usize) -> Option<&FuncPlacement>
        ensures { option_copied result ≡ slice_get self.now.standings func }
    {
        self.standings.get(func)
    }

    /// Whether the output reaches the Func at a place.
    pub fn is_reached(&self, func: usize) -> bool
        ensures { result ≡ spec.is_reached self.now func }
    {
        match self.standings.get(func) {
            None => false,
            Some(own) => own.is_reached,
        }
    }
}

/// Has a reader take all lines of a text, and says how many there are.
fn read_lines(
    reader: &mut ScheduleReader,
    pipeline: &Pipeline,
    alloc: Global,
    text: &[u8],
) -> Result<u64, LocatedError<ScheduleFault>>
    ensures { Reads (taken_from (taken pipeline.now) 1 reader.old (lines_of text.now)) result reader.new }
{
    let mut count = 0;
    let mut rest = text;
    'lines: while !rest.is_empty() {
        let (line, after) = first_line(rest);
        match take_line(reader, pipeline, alloc, line) {
            Ok(()) => {}
            Err(error) => return Err(error.at_line(count + 1)),
        }
        rest = after;
        count += 1;
    }
    Ok(count)
}

/// The schedule after the last line.
fn finished(
    alloc: Global,
    pipeline: &Pipeline,
    reader: ScheduleReader,
) -> Result<Schedule, LocatedError<ScheduleFault>>
    ensures { GivesLocated (λ x. x) result (spec.finished pipeline.now reader) }
{
    let found = standings(alloc, pipeline, reader.plans.as_slice())?;
    match verdict(found.as_slice(), reader.plans.as_slice()) {
        Some((line, fault)) => Err(LocatedError::Fault(line, fault)),
        None => Ok(Schedule {
            funcs: reader.plans,
            standings: Items::from_vec(found),
        }),
    }
}

/// The schedule that a text means for a pipeline. It keeps what later passes need (`specs/Accepted.antt`): each
/// stage's loops are those that its splits leave, the loops of each Func that the output reaches keep the rules, each
/// such Func is computed somewhere, at a loop of a Func that is reached and is at root, and what reads a Func
/// that is computed at a loop is within that loop (`specs/Uses.antt`).
///
/// # Errors
///
/// The number of the first faulty line, from 1, and its least fault. Where no line is faulty, the first rule that
/// the final loops break and the first line that breaks it, or line 0 for a Func with updates or loop directives
/// that is inlined. Memory ran out.
#[tactic(auto, unfolding(crate::specs::Reading::read))]
pub fn read(
    text: &str,
    pipeline: &Pipeline,
    alloc: Global,
) -> Result<Schedule, LocatedError<ScheduleFault>>
    ensures given { GivesLocated (λ x. x) result (spec.read pipeline.now text.now) }
    ensures accepted { IfOk result (λ schedule. IsAccepted pipeline.now schedule) }
{
    let mut reader = start(alloc, pipeline)?;
    let _count = read_lines(&mut reader, pipeline, alloc, text.as_bytes())?;
    Ok(finished(alloc, pipeline, reader)?)
}
