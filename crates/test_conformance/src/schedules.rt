//! Schedules: the loops of each stage, and where each Func is computed.

use crate::algorithms::push_bytes;
use crate::failures::CaseFailure;
use halide_parser::parse;
use halide_pipeline::Variable;
use schedule::{ComputeLevel, FuncPlacement, FuncPlan, Schedule, read};
use schedule_lines::{Loop, LoopId, Mark, Split, Stage, Tail};
use std::alloc::{AllocError, Global};
use test_cases::Part;

/// What a schedule means for an algorithm: each Func's standing, and the loops and splits of its stages.
pub fn push_schedule(alloc: Global, parts: &[Part], out: &mut String) -> Result<(), CaseFailure> {
    let [algorithm, schedule] = parts else {
        return Err(CaseFailure::Malformed("not two parts"));
    };
    let pipeline = parse(algorithm.named("algorithm")?, alloc)?;
    let schedule = read(schedule.named("schedule")?, &pipeline, alloc)?;
    push_funcs(&schedule, out)
}

/// Each Func's standing and stages.
fn push_funcs(schedule: &Schedule, out: &mut String) -> Result<(), CaseFailure> {
    for (number, plan) in schedule.funcs.as_slice().iter().enumerate() {
        match schedule.standing(number) {
            Some(standing) => push_standing(number, *standing, out)?,
            None => return Err(CaseFailure::Malformed("a Func without a standing")),
        }
        push_stages(plan, out)?;
    }
    Ok(())
}

/// Where a Func is computed.
fn push_standing(
    number: usize,
    standing: FuncPlacement,
    out: &mut String,
) -> Result<(), AllocError> {
    write!(out, "func {number} ")?;
    if !standing.is_reached {
        out.push_str("unreached ")?;
    }
    match standing.place {
        ComputeLevel::Inlined => out.push_str("inlined")?,
        ComputeLevel::Root => out.push_str("root")?,
        ComputeLevel::Nowhere => out.push_str("nowhere")?,
        ComputeLevel::At(consumer) => {
            let func = consumer.func;
            write!(out, "at func {func} ")?;
            push_id(consumer.inside, out)?;
        }
    }
    out.push_str("\n")
}

/// The stages of a Func, the pure definition first.
fn push_stages(plan: &FuncPlan, out: &mut String) -> Result<(), CaseFailure> {
    push_stage(&plan.pure, out)?;
    for (number, update) in plan.updates.as_slice().iter().enumerate() {
        writeln!(out, "update {number}")?;
        push_stage(update, out)?;
    }
    Ok(())
}

/// The loops of a stage, innermost first, and its splits in their order.
fn push_stage(stage: &Stage, out: &mut String) -> Result<(), CaseFailure> {
    for own in stage.loops.as_slice() {
        push_loop(own, out)?;
    }
    for split in stage.splits.as_slice() {
        push_split(*split, out)?;
    }
    Ok(())
}

fn push_loop(own: &Loop, out: &mut String) -> Result<(), CaseFailure> {
    out.push_str("  ")?;
    push_bytes(own.name.as_slice(), out)?;
    out.push_str(": ")?;
    push_id(own.id, out)?;
    let variable = variable_name(own.variable);
    write!(out, " over {variable}")?;
    if let Some(factor) = own.inner_of {
        write!(out, ", {factor} rounds")?;
    }
    if own.is_from_shift {
        out.push_str(", shifted")?;
    }
    if let Some(marked) = own.marked {
        let mark = mark_name(marked.mark);
        let line = marked.line;
        write!(out, ", {mark} by line {line}")?;
    }
    out.push_str("\n")?;
    Ok(())
}

fn push_split(split: Split, out: &mut String) -> Result<(), AllocError> {
    let factor = split.factor;
    let tail = tail_name(split.tail);
    out.push_str("  split of ")?;
    push_id(split.of, out)?;
    writeln!(out, " by {factor} {tail}")
}

fn push_id(id: LoopId, out: &mut String) -> Result<(), AllocError> {
    match id {
        LoopId::Whole(variable) => out.push_str(variable_name(variable)),
        LoopId::Outer(split) => write!(out, "outer {split}"),
        LoopId::Inner(split) => write!(out, "inner {split}"),
    }
}

fn variable_name(variable: Variable) -> &'static str {
    match variable {
        Variable::FirstArgument => "first argument",
        Variable::SecondArgument => "second argument",
        Variable::FirstReduction => "first variable",
        Variable::SecondReduction => "second variable",
    }
}

fn mark_name(mark: Mark) -> &'static str {
    match mark {
        Mark::Unrolled => "unrolled",
        Mark::Vectorized => "vectorized",
        Mark::Parallel => "parallel",
    }
}

fn tail_name(tail: Tail) -> &'static str {
    match tail {
        Tail::Guard => "guard",
        Tail::Shift => "shift",
    }
}
