//! One line after the other: what each line says of the Funcs, or its least fault.

ghost use Rattle.std.specs.Prelude.{◌≡◌, IfOk};
ghost use Rattle.halide_pipeline.specs.WellFormed.{IsWellFormed};
ghost use Rattle.line_text.specs.Lines.{Takes};
ghost use Rattle.line_text.specs.Lines.{Gives};
ghost use Rattle.schedule.specs.Reading as spec;

use crate::plans::{ComputeLine, FuncPlan, Plans, plans_of};
use halide_pipeline::{Pipeline, Source};
use line_text::ReadError;
use line_text::spans::is_digit;
use schedule_lines::directives::directed;
use schedule_lines::faults::ScheduleFault;
use schedule_lines::lines::{Computed, Directive, LoopDirective, ScheduleLine, Subject, line_of};
use schedule_lines::stages::{Stage, StageName};
use schedule_lines::words::words_of;
use sqlite_items::Items;
use std::alloc::{AllocError, Global};

/// What the lines so far say.
#[derive(Drop)]
pub struct ScheduleReader {
    /// How many lines were read, at most 256.
    pub lines: u64,
    /// What they say of each Func.
    pub plans: Plans,
}

/// What the first word of a line names.
#[derive(Clone, Copy, Debug, PartialEq, Eq)]
pub enum LineSubject {
    /// An input, which has no stages.
    Input,
    Stage(StageName),
}

/// The update that one digit names.
fn digit(suffix: &[u8]) -> Option<usize>
    ensures { result ≡ spec.digit suffix.now }
{
    match suffix {
        [digit] if is_digit(*digit) => Some(usize::from(*digit - b'0')),
        _ => None,
    }
}

/// The update of a Func that is after the dot of its name.
fn numbered(func: usize, plan: &FuncPlan, suffix: &[u8]) -> Option<LineSubject>
    ensures { result ≡ spec.numbered func plan.now (spec.digit suffix.now) }
{
    match digit(suffix) {
        Some(at) if at < plan.updates.len() => Some(LineSubject::Stage(StageName {
            func,
            update: Some(at),
        })),
        _ => None,
    }
}

/// A stage of the Func at a place.
fn stage_target(plans: &Plans, func: usize, update: &Option<Items<u8>>) -> Option<LineSubject>
    ensures { result ≡ spec.stage_target plans.now func update.now }
{
    match update {
        None => Some(LineSubject::Stage(StageName { func, update: None })),
        Some(suffix) => match plans.get(func) {
            None => None,
            Some(plan) => numbered(func, plan, suffix.as_slice()),
        },
    }
}

/// What the first word of a line names.
fn target_of(pipeline: &Pipeline, plans: &Plans, subject: &Subject) -> Option<LineSubject>
    ensures { result ≡ spec.target pipeline.now plans.now subject.now }
{
    match pipeline.source(subject.name.as_slice()) {
        None => None,
        Some(Source::Input(_)) => {
            if subject.update.is_none() {
                Some(LineSubject::Input)
            } else {
                None
            }
        }
        Some(Source::Func(func)) => stage_target(plans, func, &subject.update),
    }
}

/// What is wrong with a compute line for a Func.
fn compute_fault(pipeline: &Pipeline, func: usize, plan: &FuncPlan) -> Option<ScheduleFault>
    ensures { result ≡ spec.compute_fault pipeline.now func plan.now }
{
    if plan.compute.is_some() {
        Some(ScheduleFault::NameInUse)
    } else if func == pipeline.output().func {
        Some(ScheduleFault::InputOrOutput)
    } else {
        None
    }
}

/// A compute line.
fn take_computed(
    reader: &mut ScheduleReader,
    pipeline: &Pipeline,
    func: usize,
    computed: Computed,
) -> Result<(), ReadError<ScheduleFault>>
    ensures { Takes (spec.taken_computed pipeline.now reader.old func computed) result reader.new }
{
    match reader.plans.get(func) {
        None => Err(ReadError::Fault(ScheduleFault::UnknownStage)),
        Some(plan) => match compute_fault(pipeline, func, plan) {
            Some(fault) => Err(ReadError::Fault(fault)),
            None => {
                let line = reader.lines;
                reader
                    .plans
                    .set_compute(func, ComputeLine { line, computed });
                Ok(())
            }
        },
    }
}

/// The stage after a line about its loops.
fn new_stage(
    alloc: Global,
    plan: &FuncPlan,
    update: Option<usize>,
    line: u64,
    directive: &LoopDirective,
) -> Result<Stage, ReadError<ScheduleFault>>
    ensures { Gives (λ x. x) result (spec.new_stage plan.now update line directive.now) }
{
    match plan.stage(update) {
        None => Err(ReadError::Fault(ScheduleFault::UnknownStage)),
        Some(stage) => Ok(directed(alloc, update.is_some(), stage, line, directive)?),
    }
}

/// A line about the loops of a stage.
fn take_directed(
    reader: &mut ScheduleReader,
    alloc: Global,
    name: StageName,
    directive: &LoopDirective,
) -> Result<(), ReadError<ScheduleFault>>
    ensures { Takes (spec.taken_directed reader.old name directive.now) result reader.new }
{
    match reader.plans.get(name.func) {
        None => Err(ReadError::Fault(ScheduleFault::UnknownStage)),
        Some(plan) => {
            let stage = new_stage(alloc, plan, name.update, reader.lines, directive)?;
            reader.plans.set_stage(name.func, name.update, stage);
            Ok(())
        }
    }
}

/// A directive for what its line names.
fn take_directive(
    reader: &mut ScheduleReader,
    pipeline: &Pipeline,
    alloc: Global,
    target: Option<LineSubject>,
    directive: Directive,
) -> Result<(), ReadError<ScheduleFault>>
    ensures { Takes (spec.taken_directive pipeline.now reader.old target directive) result reader.new }
{
    match target {
        None => Err(ReadError::Fault(ScheduleFault::UnknownStage)),
        Some(LineSubject::Input) => Err(ReadError::Fault(ScheduleFault::InputOrOutput)),
        Some(LineSubject::Stage(name)) => match directive {
            Directive::OfPlace(computed) => {
                take_computed(reader, pipeline, name.func, computed)?;
                Ok(())
            }
            Directive::OfLoops(directive) => {
                take_directed(reader, alloc, name, &directive)?;
                Ok(())
            }
        },
    }
}

/// What a line says.
fn read_line(alloc: Global, line: &[u8]) -> Result<ScheduleLine, ReadError<ScheduleFault>>
    ensures { Gives (λ x. x) result (spec.line_of_bytes line.now) }
{
    let words = words_of(alloc, line)?;
    Ok(line_of(alloc, words.as_slice())?)
}

/// Takes the next line, which comes without its line feed.
///
/// # Errors
///
/// The line's least fault; memory ran out. The reader may then be anything.
#[tactic(auto, unfolding(crate::specs::Reading::taken))]
pub fn take_line(
    reader: &mut ScheduleReader,
    pipeline: &Pipeline,
    alloc: Global,
    line: &[u8],
) -> Result<(), ReadError<ScheduleFault>>
    ensures { Takes (spec.taken pipeline.now reader.old line.now) result reader.new }
{
    if reader.lines >= 256 {
        return Err(ReadError::Fault(ScheduleFault::Syntax));
    }
    let said = read_line(alloc, line)?;
    reader.lines += 1;
    match said {
        ScheduleLine::Blank => Ok(()),
        ScheduleLine::Directive(subject, directive) => {
            let target = target_of(pipeline, &reader.plans, &subject);
            take_directive(reader, pipeline, alloc, target, directive)?;
            Ok(())
        }
    }
}

/// A reader before the first line.
pub fn start(alloc: Global, pipeline: &Pipeline) -> Result<ScheduleReader, AllocError>
    ensures given { IfOk result (λ reader. reader ≡ spec.start pipeline.now) }
    ensures rules { IsWellFormed pipeline.now }
{
    Ok(ScheduleReader {
        lines: 0,
        plans: plans_of(alloc, pipeline.funcs())?,
    })
}
