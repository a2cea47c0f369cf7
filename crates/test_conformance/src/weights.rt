//! What the stages of a schedule weigh, and how many registers they need.

use crate::failures::{CaseFailure, refused};
use bounds_weights::weighing::weight;
use bounds_weights::{needs, weigh};
use halide_parser::parse;
use schedule::read;
use std::alloc::Global;
use test_cases::Part;

/// What all stages weigh together, and whether that is too much.
pub fn push_weight(alloc: Global, parts: &[Part], out: &mut String) -> Result<(), CaseFailure> {
    let [algorithm, schedule] = parts else {
        return Err(CaseFailure::Malformed("not two parts"));
    };
    let pipeline = parse(algorithm.named("algorithm")?, alloc)?;
    let schedule = read(schedule.named("schedule")?, &pipeline, alloc)?;
    let total = weight(&pipeline, &schedule, alloc)?;
    writeln!(out, "weight {total}")?;
    weigh(&pipeline, &schedule, alloc)?;
    Ok(())
}

/// How many registers an expression needs at once, of all stages and of those by 16 lanes; whether that takes frames,
/// or is too much.
pub fn push_needs(alloc: Global, parts: &[Part], out: &mut String) -> Result<(), CaseFailure> {
    let [algorithm, schedule] = parts else {
        return Err(CaseFailure::Malformed("not two parts"));
    };
    let pipeline = parse(algorithm.named("algorithm")?, alloc)?;
    let schedule = read(schedule.named("schedule")?, &pipeline, alloc)?;
    let own = needs(&pipeline, &schedule, alloc)?;
    let (greatest, by_16) = (own.greatest, own.greatest_by_16);
    let frames = if own.has_frames() { ", in frames" } else { "" };
    writeln!(out, "registers {greatest}, by 16 lanes {by_16}{frames}")?;
    if own.is_too_deep() {
        return Err(refused("code", 1));
    }
    Ok(())
}
