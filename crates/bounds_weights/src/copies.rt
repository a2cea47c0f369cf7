//! How often a stage's code is, for loops that are unrolled.

ghost use Rattle.std.specs.Prelude.{◌≡◌};
ghost use Rattle.bounds_weights.specs.Weight as spec;
ghost use Rattle.bounds_weights.specs.inner.Tables.{capped};

use schedule::{ComputeLevel, FuncPlan};
use schedule_lines::stages::{Loop, LoopId, Mark, is_marked, same_id};
use sqlite_items::at;

/// How many copies there are of the code in a loop.
fn copies(stage_loop: &Loop) -> u32
    ensures { result ≡ spec.copies stage_loop.now }
{
    if is_marked(stage_loop, Mark::Unrolled) {
        match stage_loop.inner_of {
            None => 1,
            Some(factor) => factor,
        }
    } else {
        1
    }
}

/// How many there are of the code in all these loops, or the greatest `u32` if there are more.
#[tactic(auto, using(crate::proofs::Capping::times_first))]
pub fn all_copies(loops: &[Loop]) -> u32
    ensures { result ≡ capped (spec.all_copies loops.now) }
{
    match loops {
        [] => 1,
        [first, outside @ ..] => copies(first).saturating_mul(all_copies(outside)),
    }
}

/// How many there are of the code in a loop and those outside of it, or the greatest `u32`.
#[tactic(auto, using(crate::proofs::Capping::times_first))]
fn copies_from(id: LoopId, loops: &[Loop]) -> u32
    ensures { result ≡ capped (spec.copies_from id loops.now) }
{
    match loops {
        [] => 1,
        [first, outside @ ..] => {
            if same_id(first.id, id) {
                copies(first).saturating_mul(all_copies(outside))
            } else {
                copies_from(id, outside)
            }
        }
    }
}

/// How many there are of the code of a Func that is computed here, for the loop at which it is and those outside of
/// it; or the greatest `u32` if there are more.
pub fn consumer_copies(plans: &[FuncPlan], level: ComputeLevel) -> u32
    ensures { result ≡ capped (spec.consumer_copies plans.now level) }
{
    match level {
        ComputeLevel::Inlined | ComputeLevel::Root | ComputeLevel::Nowhere => 1,
        ComputeLevel::At(consumer) => match at(plans, consumer.func) {
            None => 1,
            Some(plan) => copies_from(consumer.inside, plan.pure.loops.as_slice()),
        },
    }
}
