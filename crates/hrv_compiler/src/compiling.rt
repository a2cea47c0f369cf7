//! From two texts to a program.

ghost use Rattle.std.specs.Prelude.{◌≡◌, ◌≤◌, IfErr, IfOk, None, Ok, false};
ghost use Rattle.std.specs.List.{AllByRecursion};
ghost use Rattle.schedule.specs.Accepted.{IsAccepted};
ghost use Rattle.bounds_weights.specs.Weight.{is_too_deep, needs as needed};
ghost use Rattle.bounds_weights.specs.Weight.{most_weight, weight};
ghost use Rattle.bounds.specs.Verdict.{inferred};
ghost use Rattle.memory.specs.Access.{most_words};
ghost use Rattle.task_code_scalar.specs.Faults.{LieLow};
ghost use Rattle.vector_codegen_laws.specs.Programs.{HasFewTasks, HasRegisters, IsProgramTo, words_asked};
ghost use Rattle.hrv_compiler.specs.declared.faults.CompileFault.TheVariants as faults;
ghost use Rattle.hrv_compiler.specs.Verdict.{IsCompiled, Means};
ghost use Rattle.hrv_compiler.specs.inner.Held.{AreWordsOf};
ghost use Rattle.hrv_compiler.specs.Verdict as spec;

use crate::compiled::Compiled;
use crate::faults::CompileFault;
use crate::places::places;
use bounds::{Boxes, Plan, infer};
use bounds_weights::{needs, weigh};
use halide_parser::parse;
use halide_pipeline::Pipeline;
use loop_ir::statements::Phase;
use lowering::phases::lower;
use schedule::{Schedule, read};
use std::alloc::Global;
use task_code_scalar::CodeFault;
use task_code_scalar::layouts::Places;
use vector_codegen_laws::{Program, generate};

/// The boxes of a pipeline under a schedule, or the first fault that there is.
fn judged(alloc: Global, pipeline: &Pipeline, schedule: &Schedule) -> Result<Boxes, CompileFault>
    requires { IsAccepted pipeline.now schedule.now }
    ensures ok { IfOk result (λ boxes. inferred pipeline.now schedule.now ≡ Ok boxes) }
    ensures passed { IfOk result (λ boxes. spec.by_weight pipeline.now schedule.now (weight pipeline.now schedule.now)
        ≡ None) }
    ensures light { IfOk result (λ boxes. weight pipeline.now schedule.now ≤ most_weight) }
    ensures shallow { IfOk result (λ boxes. is_too_deep (needed pipeline.now schedule.now) ≡ false) }
    ensures err { IfErr result (spec.IsFirst (spec.by_weight pipeline.now schedule.now
        (weight pipeline.now schedule.now))) }
{
    weigh(pipeline, schedule, alloc)?;
    let boxes = infer(pipeline, schedule, alloc)?;
    if needs(pipeline, schedule, alloc)?.is_too_deep() {
        return Err(CompileFault::TooDeep);
    }
    Ok(boxes)
}

/// The program of phases that there are registers for, and that ask for no more words than a text may have.
#[tactic(auto, using(crate::proofs::Rooms::not_long))]
fn generated(alloc: Global, phases: &[Phase], places: &Places) -> Result<Program, CompileFault>
    requires low { LieLow places.now.frames }
    requires registers { AllByRecursion (HasRegisters places.now) phases.now }
    requires tasks { AllByRecursion HasFewTasks phases.now }
    requires short { words_asked phases.now ≤ most_words }
    ensures ok { IfOk result (λ program. IsProgramTo places.now phases.now program.words.items program.ends.items) }
    ensures err { IfErr result (λ fault. fault ≡ faults.Memory) }
{
    match generate(alloc, phases, places) {
        Ok(program) => Ok(program),
        Err(CodeFault::OutOfMemory(_)) => Err(CompileFault::Memory),
        Err(CodeFault::TooLong) => unreachable!(),
        Err(CodeFault::TooDeep) => unreachable!(),
    }
}

/// The program of the phases of a pipeline under a schedule whose expressions need no more registers than code is made
/// for.
fn words_of(alloc: Global, plan: &Plan<'_>) -> Result<Program, CompileFault>
    requires light { weight plan.now.pipeline plan.now.schedule ≤ most_weight }
    requires shallow { is_too_deep (needed plan.now.pipeline plan.now.schedule) ≡ false }
    ensures ok { IfOk result (λ program. AreWordsOf plan.now.pipeline plan.now.schedule plan.now.boxes
        program.words.items program.ends.items) }
    ensures err { IfErr result (λ fault. fault ≡ faults.Memory) }
{
    let phases = lower(alloc, plan.pipeline(), plan.schedule(), plan.boxes())?;
    let places = places(alloc, plan)?;
    let program = generated(alloc, phases.as_slice(), &places)?;
    Ok(program)
}

/// The program of a pipeline under a schedule, or the first fault that there is.
fn built(alloc: Global, pipeline: Pipeline, schedule: Schedule) -> Result<Compiled, CompileFault>
    requires { IsAccepted pipeline schedule }
    ensures pipeline { IfOk result (λ own. own.pipeline ≡ pipeline) }
    ensures schedule { IfOk result (λ own. own.schedule ≡ schedule) }
    ensures passed { IfOk result (λ own. spec.by_weight pipeline schedule (weight pipeline schedule) ≡ None) }
    ensures err { IfErr result (spec.IsFirst (spec.by_weight pipeline schedule (weight pipeline schedule))) }
{
    let boxes = judged(alloc, &pipeline, &schedule)?;
    let Program {
        words,
        ends,
        stages,
    } = words_of(alloc, &Plan::new(&pipeline, &schedule, &boxes))?;
    Ok(Compiled {
        pipeline,
        schedule,
        boxes,
        words,
        ends,
        stages,
    })
}

/// The program of an algorithm under a schedule: exactly where no fault is, and else the first fault
/// (`specs/Verdict.antt`).
///
/// # Errors
///
/// In this order: the algorithm's text, the schedule's, its weight, its boxes, an expression that needs more than 64
/// registers; or memory ran out.
#[tactic(auto, unfolding(crate::specs::Verdict::refusal_of))]
pub fn compile(algorithm: &str, schedule: &str, alloc: Global) -> Result<Compiled, CompileFault>
    ensures means { IfOk result (Means alloc algorithm.now schedule.now) }
    ensures passed { IfOk result (λ compiled. spec.refusal_of alloc algorithm.now schedule.now ≡ None) }
    ensures rules { IfOk result IsCompiled }
    ensures err { IfErr result (spec.IsFirst (spec.refusal_of alloc algorithm.now schedule.now)) }
{
    let pipeline = parse(algorithm, alloc)?;
    let schedule = read(schedule, &pipeline, alloc)?;
    let compiled = built(alloc, pipeline, schedule)?;
    Ok(compiled)
}
