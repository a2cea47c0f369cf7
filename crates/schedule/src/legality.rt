//! What is wrong with the final loops, and with where Funcs are computed.

ghost use Rattle.std.specs.Prelude.{◌≡◌};
ghost use Rattle.schedule.specs.Legal as spec;

use crate::placements::{ComputeLevel, FuncPlacement};
use crate::plans::{ComputeLine, FuncPlan};
use schedule_lines::faults::ScheduleFault;
use schedule_lines::stages::{Loop, Mark, Marked, Stage, is_marked, is_reduction};

/// A rule of marked loops.
#[derive(Clone, Copy, Debug, PartialEq, Eq)]
pub enum LoopRule {
    /// A parallel loop is the outermost of its stage, and its Func is at root.
    ParallelOutermost,
    /// A parallel loop is not over a reduction variable.
    ParallelOverArgument,
    /// A parallel loop comes from no split with its last iteration shifted.
    ParallelUnshifted,
    /// A vectorized loop is the innermost of its stage, the inner loop of a split by 4, 8 or 16, and not over a
    /// reduction variable.
    VectorizedInnermost,
}

fn is_vector_length(factor: Option<u32>) -> bool
    ensures { result ≡ spec.is_vector_length factor }
{
    match factor {
        None => false,
        Some(factor) => factor == 4 || factor == 8 || factor == 16,
    }
}

/// Whether a loop breaks a rule. It is asked beside it whether its Func is at root, and whether it is the
/// innermost and the outermost of its stage.
fn breaks(
    rule: LoopRule,
    is_root: bool,
    is_innermost: bool,
    is_outermost: bool,
    stage_loop: &Loop,
) -> bool
    ensures { result ≡ spec.breaks rule is_root is_innermost is_outermost stage_loop.now }
{
    match rule {
        LoopRule::ParallelOutermost => is_marked(stage_loop, Mark::Parallel)
            && (!is_outermost || !is_root),
        LoopRule::ParallelOverArgument => {
            is_marked(stage_loop, Mark::Parallel) && is_reduction(stage_loop.variable)
        }
        LoopRule::ParallelUnshifted => is_marked(stage_loop, Mark::Parallel)
            && stage_loop.is_from_shift,
        LoopRule::VectorizedInnermost => {
            is_marked(stage_loop, Mark::Vectorized)
                && (!is_innermost
                    || !is_vector_length(stage_loop.inner_of)
                    || is_reduction(stage_loop.variable))
        }
    }
}

/// The lesser of two lines.
fn earlier(first: Option<u64>, second: Option<u64>) -> Option<u64>
    ensures { result ≡ spec.earlier first second }
{
    match (first, second) {
        (None, line) | (line, None) => line,
        (Some(first), Some(second)) => Some(first.min(second)),
    }
}

fn line_of(marked: Option<Marked>) -> Option<u64>
    ensures { result ≡ spec.line_of marked }
{
    match marked {
        None => None,
        Some(marked) => Some(marked.line),
    }
}

/// The first line that marks a loop which breaks a rule, of the loops from one on, going outward.
fn loops_line(rule: LoopRule, is_root: bool, is_innermost: bool, loops: &[Loop]) -> Option<u64>
    ensures { result ≡ spec.loops_line rule is_root is_innermost loops.now }
{
    match loops {
        [] => None,
        [first, outside @ ..] => {
            let behind = loops_line(rule, is_root, false, outside);
            let is_outermost = outside.is_empty();
            if breaks(rule, is_root, is_innermost, is_outermost, first) {
                earlier(line_of(first.marked), behind)
            } else {
                behind
            }
        }
    }
}

fn stages_line(rule: LoopRule, is_root: bool, stages: &[Stage]) -> Option<u64>
    ensures { result ≡ spec.stages_line rule is_root stages.now }
{
    match stages {
        [] => None,
        [first, others @ ..] => {
            let line = loops_line(rule, is_root, true, first.loops.as_slice());
            earlier(line, stages_line(rule, is_root, others))
        }
    }
}

/// The first line that marks a loop of a Func which breaks a rule.
fn plan_line(rule: LoopRule, is_root: bool, plan: &FuncPlan) -> Option<u64>
    ensures { result ≡ spec.plan_line rule is_root plan.now }
{
    let line = loops_line(rule, is_root, true, plan.pure.loops.as_slice());
    earlier(line, stages_line(rule, is_root, plan.updates.as_slice()))
}

fn is_root(level: ComputeLevel) -> bool
    ensures { result ≡ spec.is_root level }
{
    matches!(level, ComputeLevel::Root)
}

fn is_nowhere(level: ComputeLevel) -> bool
    ensures { result ≡ spec.is_nowhere level }
{
    matches!(level, ComputeLevel::Nowhere)
}

fn is_inlined(level: ComputeLevel) -> bool
    ensures { result ≡ spec.is_inlined level }
{
    matches!(level, ComputeLevel::Inlined)
}

/// The first line that marks a loop which breaks a rule.
fn rule_line(rule: LoopRule, standings: &[FuncPlacement], plans: &[FuncPlan]) -> Option<u64>
    ensures { result ≡ spec.rule_line rule standings.now plans.now }
{
    match standings {
        [] => None,
        [standing, behind @ ..] => match plans {
            [] => None,
            [plan, others @ ..] => {
                let line = rule_line(rule, behind, others);
                if standing.is_reached {
                    earlier(plan_line(rule, is_root(standing.place), plan), line)
                } else {
                    line
                }
            }
        },
    }
}

fn compute_line(compute: &Option<ComputeLine>) -> Option<u64>
    ensures { result ≡ spec.compute_line compute.now }
{
    match compute {
        None => None,
        Some(own) => Some(own.line),
    }
}

/// The first line that computes a Func nowhere.
fn nowhere_line(standings: &[FuncPlacement], plans: &[FuncPlan]) -> Option<u64>
    ensures { result ≡ spec.nowhere_line standings.now plans.now }
{
    match standings {
        [] => None,
        [standing, behind @ ..] => match plans {
            [] => None,
            [plan, others @ ..] => {
                let line = nowhere_line(behind, others);
                if standing.is_reached && is_nowhere(standing.place) {
                    earlier(compute_line(&plan.compute), line)
                } else {
                    line
                }
            }
        },
    }
}

/// Whether a Func with updates, or of whose loops a line speaks, is inlined.
fn has_lost(standings: &[FuncPlacement], plans: &[FuncPlan]) -> bool
    ensures { result ≡ spec.has_lost standings.now plans.now }
{
    match standings {
        [] => false,
        [standing, behind @ ..] => match plans {
            [] => false,
            [plan, others @ ..] => {
                (standing.is_reached
                    && is_inlined(standing.place)
                    && (plan.is_directed || plan.updates.len() != 0))
                    || has_lost(behind, others)
            }
        },
    }
}

/// The first rule that is broken, and its line; 0 where no line breaks it.
#[tactic(auto, unfolding(crate::specs::Legal::verdict))]
pub fn verdict(standings: &[FuncPlacement], plans: &[FuncPlan]) -> Option<(u64, ScheduleFault)>
    ensures { result ≡ spec.verdict standings.now plans.now }
{
    if let Some(line) = rule_line(LoopRule::ParallelOutermost, standings, plans) {
        return Some((line, ScheduleFault::ParallelNotOutermost));
    }
    if let Some(line) = rule_line(LoopRule::ParallelOverArgument, standings, plans) {
        return Some((line, ScheduleFault::ParallelReduction));
    }
    if let Some(line) = rule_line(LoopRule::ParallelUnshifted, standings, plans) {
        return Some((line, ScheduleFault::ParallelInShift));
    }
    if let Some(line) = rule_line(LoopRule::VectorizedInnermost, standings, plans) {
        return Some((line, ScheduleFault::VectorizedLoop));
    }
    if let Some(line) = nowhere_line(standings, plans) {
        return Some((line, ScheduleFault::ComputeAt));
    }
    if has_lost(standings, plans) {
        return Some((0, ScheduleFault::Inlined));
    }
    None
}
