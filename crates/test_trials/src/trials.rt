//! One case: the image and the picture, and the ways that compute it.

use crate::failures::TrialFailure;
use crate::images::{Built, build, push_control, push_image};
use crate::nests::push_nests;
use crate::pictures::{inputs_of, text_of};
use crate::runs::push_runs;
use crate::vectors::push_vectors;
use halide_parser::parse;
use picture::{Picture, evaluate};
use std::alloc::Global;
use std::thread::Threads;
use test_cases::Part;

/// Appends what the image is, the picture, a line for each way that computes it, and which vectorized loops are vector
/// code.
pub fn push_trial(
    rt: &(impl Threads + Sync),
    alloc: Global,
    parts: &[Part],
    out: &mut String,
) -> Result<(), TrialFailure> {
    let [algorithm, schedule, pictures @ ..] = parts else {
        return Err(TrialFailure::Malformed("not two parts"));
    };
    let algorithm = algorithm.named("algorithm")?;
    let schedule = schedule.named("schedule")?;
    let inputs = inputs_of(alloc, pictures)?;
    push_with_inputs(rt, alloc, algorithm, schedule, &inputs, out)
}

/// The same with the pictures as inputs.
fn push_with_inputs(
    rt: &(impl Threads + Sync),
    alloc: Global,
    algorithm: &str,
    schedule: &str,
    inputs: &[Picture],
    out: &mut String,
) -> Result<(), TrialFailure> {
    let built = build(alloc, algorithm, schedule, inputs)?;
    push_built(&built, out)?;
    let wanted = reference(rt, alloc, algorithm, inputs)?;
    out.push_str(wanted.as_str())?;
    push_nests(alloc, algorithm, schedule, inputs, wanted.as_str(), out)?;
    push_runs(alloc, &built, wanted.as_str(), out)?;
    push_vectors(alloc, algorithm, schedule, &built.image, out)
}

/// What the image is.
fn push_built(built: &Built, out: &mut String) -> Result<(), TrialFailure> {
    push_image(&built.image, out)?;
    push_control(&built.control, out)?;
    Ok(())
}

/// The text of the reference picture.
fn reference(
    rt: &(impl Threads + Sync),
    alloc: Global,
    algorithm: &str,
    inputs: &[Picture],
) -> Result<String, TrialFailure> {
    let pipeline = parse(algorithm, alloc)?;
    let picture = evaluate(rt, alloc, &pipeline, inputs)?;
    text_of(alloc, &picture)
}
