//! Boxes: which points of each input and Func a schedule computes or reads, and where they lie in a compiled image's
//! data.

ghost use Rattle.schedule.specs.Accepted.{IsAccepted};

use crate::failures::TrialFailure;
use crate::images::{build, push_image};
use bounds::tasks::tasks;
use bounds::{Boxes, SourceBox, infer};
use bounds_ranges::bases::Multiple;
use bounds_ranges::ranges::{ORIGIN, Range};
use halide_parser::parse;
use halide_pipeline::Pipeline;
use picture::Picture;
use schedule::{ComputeLevel, Schedule, read};
use schedule_lines::stages::StageName;
use std::alloc::{AllocError, Global};
use test_cases::Part;

/// The data of an algorithm under a schedule, or the first refusal.
pub fn push_boxes(alloc: Global, parts: &[Part], out: &mut String) -> Result<(), TrialFailure> {
    let [algorithm, schedule] = parts else {
        return Err(TrialFailure::Malformed("not two parts"));
    };
    let algorithm = algorithm.named("algorithm")?;
    let schedule = schedule.named("schedule")?;
    let pipeline = parse(algorithm, alloc)?;
    push_blank_image(alloc, &pipeline, algorithm, schedule, out)?;
    let schedule = read(schedule, &pipeline, alloc)?;
    push_data(alloc, &pipeline, &schedule, out)
}

/// What the image for blank inputs is.
fn push_blank_image(
    alloc: Global,
    pipeline: &Pipeline,
    algorithm: &str,
    schedule: &str,
    out: &mut String,
) -> Result<(), TrialFailure> {
    let inputs = blank_inputs(alloc, pipeline)?;
    let built = build(alloc, algorithm, schedule, &inputs)?;
    push_image(&built.image, out)
}

/// A picture of zeros for each input.
fn blank_inputs(alloc: Global, pipeline: &Pipeline) -> Result<Vec<Picture>, TrialFailure> {
    let mut inputs = Vec::new(alloc);
    for input in pipeline.inputs() {
        inputs.push(blank_picture(alloc, input.width, input.height)?)?;
    }
    Ok(inputs)
}

/// A picture of zeros.
fn blank_picture(alloc: Global, width: u32, height: u32) -> Result<Picture, TrialFailure> {
    let mut pixels = Vec::new(alloc);
    for _ in 0..width.wrapping_mul(height) {
        pixels.push(0)?;
    }
    match Picture::new(width, height, pixels) {
        Some(blank) => Ok(blank),
        None => Err(TrialFailure::Malformed("an input that is no picture")),
    }
}

/// The phases, and each place in the data with its box.
fn push_data(
    alloc: Global,
    pipeline: &Pipeline,
    schedule: &Schedule,
    out: &mut String,
) -> Result<(), TrialFailure>
    requires { IsAccepted pipeline.now schedule.now }
{
    let boxes = infer(pipeline, schedule, alloc)?;
    push_phases(alloc, pipeline, schedule, &boxes, out)?;
    push_inputs(pipeline, &boxes, out)?;
    push_funcs(pipeline, schedule, &boxes, out)?;
    let frames = boxes.layout.frames;
    if boxes.layout.has_frames {
        writeln!(out, "frames 0x{frames:08x}")?;
    }
    Ok(())
}

/// How many tasks each phase has: a phase for each stage of each Func that is computed at root.
fn push_phases(
    alloc: Global,
    pipeline: &Pipeline,
    schedule: &Schedule,
    boxes: &Boxes,
    out: &mut String,
) -> Result<(), AllocError>
    requires { IsAccepted pipeline.now schedule.now }
{
    let mut phase: u64 = 0;
    for (number, func) in pipeline.funcs().iter().enumerate() {
        if is_at_root(schedule, number) {
            for stage in 0..=func.updates.len() {
                let name = StageName {
                    func: number,
                    update: stage.checked_sub(1),
                };
                let count = tasks(alloc, pipeline, schedule, &boxes.funcs, name)?;
                push_phase(phase, name, count.unwrap_or(0), out)?;
                phase = phase.wrapping_add(1);
            }
        }
    }
    Ok(())
}

/// Whether the output reaches a Func, which is computed at root.
fn is_at_root(schedule: &Schedule, number: usize) -> bool {
    match schedule.standing(number) {
        Some(standing) => standing.is_reached && standing.place == ComputeLevel::Root,
        None => false,
    }
}

/// A phase, its stage, and how many tasks it has.
fn push_phase(phase: u64, name: StageName, count: u32, out: &mut String) -> Result<(), AllocError> {
    let func = name.func;
    write!(out, "phase {phase} func {func}")?;
    if let Some(update) = name.update {
        write!(out, " update {update}")?;
    }
    writeln!(out, " tasks {count}")
}

/// Each input's address and box.
fn push_inputs(pipeline: &Pipeline, boxes: &Boxes, out: &mut String) -> Result<(), AllocError> {
    let addresses = boxes.layout.inputs.as_slice();
    for (number, own) in boxes.inputs.as_slice().iter().enumerate() {
        let address = number_at(addresses, number);
        write!(out, "input {number} 0x{address:08x} box")?;
        let has_rows = match pipeline.input(number) {
            Some(input) => input.dimensions == 2,
            None => false,
        };
        push_box(own, has_rows, out)?;
    }
    Ok(())
}

/// Each computed Func's address and box.
fn push_funcs(
    pipeline: &Pipeline,
    schedule: &Schedule,
    boxes: &Boxes,
    out: &mut String,
) -> Result<(), AllocError> {
    for (number, own) in boxes.funcs.as_slice().iter().enumerate() {
        if own.is_some() {
            let address = func_address(schedule, boxes, number);
            write!(out, "func {number} 0x{address:08x} box")?;
            let has_rows = match pipeline.func(number) {
                Some(func) => func.dimensions() == 2,
                None => false,
            };
            push_box(own, has_rows, out)?;
        }
    }
    Ok(())
}

/// Where a Func's box lies, or the first hart's where each has one.
fn func_address(schedule: &Schedule, boxes: &Boxes, number: usize) -> u64 {
    let layout = &boxes.layout;
    match schedule.standing(number) {
        Some(standing) if standing.place == ComputeLevel::Root => {
            number_at(layout.roots.as_slice(), number)
        }
        _ => number_at(layout.privates.as_slice(), number),
    }
}

/// The number at a place, 0 where there is none.
fn number_at(numbers: &[u64], place: usize) -> u64 {
    match numbers.get(place) {
        Some(number) => *number,
        None => 0,
    }
}

/// A box's ranges, or a hyphen where there is no box.
fn push_box(own: &Option<SourceBox>, has_rows: bool, out: &mut String) -> Result<(), AllocError> {
    match own {
        None => out.push_str(" -")?,
        Some(own) => {
            push_range(&own.x, out)?;
            if has_rows {
                push_range(&own.y, out)?;
            }
        }
    }
    out.push_str("\n")
}

/// A range: what each loop of the consumer adds, innermost first, and the least and the greatest number.
fn push_range(range: &Range, out: &mut String) -> Result<(), AllocError> {
    out.push_str(" ")?;
    for (place, multiple) in range.base.as_slice().iter().enumerate() {
        push_multiple(*multiple, place, out)?;
    }
    push_difference(range.low, ORIGIN, out)?;
    out.push_str("..")?;
    push_difference(range.high, ORIGIN, out)
}

/// What the loop with this many inside it adds, if it adds anything.
fn push_multiple(multiple: Multiple, place: usize, out: &mut String) -> Result<(), AllocError> {
    let Multiple { more, less } = multiple;
    if more != less {
        push_difference(more, less, out)?;
        write!(out, "*loop {place}+")?;
    }
    Ok(())
}

/// A number less another, with its sign.
fn push_difference(number: u64, other: u64, out: &mut String) -> Result<(), AllocError> {
    if number < other {
        let less = other - number;
        write!(out, "-{less}")
    } else {
        let more = number - other;
        write!(out, "{more}")
    }
}
