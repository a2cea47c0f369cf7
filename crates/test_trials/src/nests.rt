//! Loop nests: the picture that the phases leave, each run as a whole, and with their tasks in several orders and
//! anything in private buffers before each.

ghost use Rattle.schedule.specs.Accepted.{IsAccepted};

use crate::failures::TrialFailure;
use crate::pictures::picture_text;
use bounds::{Boxes, SourceBox, infer};
use bounds_ranges::ranges::{ORIGIN, Range};
use halide_parser::parse;
use halide_pipeline::Pipeline;
use loop_ir::buffers::Buffer;
use loop_ir::running::{run_phase, run_task};
use loop_ir::statements::Phase;
use lowering::phases::lower;
use picture::Picture;
use schedule::{Schedule, read};
use std::alloc::Global;

/// An order of tasks.
#[derive(Clone, Copy)]
enum Order {
    Rising,
    Falling,
    /// The first, the last, the second, the last but one.
    FromBothEnds,
}

impl Order {
    /// Which of this many tasks is done at a place.
    fn task(self, place: u32, count: u32) -> u32 {
        let last = count.wrapping_sub(1);
        match self {
            Order::Rising => place,
            Order::Falling => last.wrapping_sub(place),
            Order::FromBothEnds if place % 2 == 0 => place / 2,
            Order::FromBothEnds => last.wrapping_sub(place / 2),
        }
    }

    /// The order, as a line names it.
    fn name(self) -> &'static str {
        match self {
            Order::Rising => "rising",
            Order::Falling => "falling",
            Order::FromBothEnds => "from both ends",
        }
    }
}

/// Appends a line for each order of tasks: whether the phases leave the wanted picture, as they do where each is run as
/// a whole.
pub fn push_nests(
    alloc: Global,
    algorithm: &str,
    schedule: &str,
    pictures: &[Picture],
    wanted: &str,
    out: &mut String,
) -> Result<(), TrialFailure> {
    let pipeline = parse(algorithm, alloc)?;
    let schedule = read(schedule, &pipeline, alloc)?;
    let inputs = buffers_of(alloc, pictures)?;
    push_lowered(alloc, &pipeline, &schedule, &inputs, wanted, out)
}

/// A buffer of each picture.
fn buffers_of(alloc: Global, pictures: &[Picture]) -> Result<Vec<Buffer>, TrialFailure> {
    let mut buffers = Vec::new(alloc);
    for picture in pictures {
        buffers.push(buffer_of(alloc, picture)?)?;
    }
    Ok(buffers)
}

/// A picture's pixels.
fn buffer_of(alloc: Global, picture: &Picture) -> Result<Buffer, TrialFailure> {
    let pixels = picture.pixels().to_vec(alloc)?;
    buffer(picture.width(), picture.height(), pixels)
}

/// The same of a schedule that was accepted for its pipeline.
fn push_lowered(
    alloc: Global,
    pipeline: &Pipeline,
    schedule: &Schedule,
    inputs: &[Buffer],
    wanted: &str,
    out: &mut String,
) -> Result<(), TrialFailure>
    requires { IsAccepted pipeline.now schedule.now }
{
    let boxes = infer(pipeline, schedule, alloc)?;
    let phases = lower(alloc, pipeline, schedule, &boxes)?;
    let whole = drawn_at_once(alloc, pipeline, &boxes, &phases, inputs)?;
    for order in [Order::Rising, Order::Falling, Order::FromBothEnds] {
        let text = drawn(alloc, pipeline, &boxes, &phases, inputs, order)?;
        let is_wanted = text.as_str() == wanted && text == whole;
        push_order(order, is_wanted, out)?;
    }
    Ok(())
}

/// The line of an order of tasks.
fn push_order(order: Order, is_wanted: bool, out: &mut String) -> Result<(), TrialFailure> {
    let what = if is_wanted {
        "the picture"
    } else {
        "another picture"
    };
    writeln!(out, "tasks {}: {what}", order.name())?;
    Ok(())
}

/// A buffer of pixels, which are as many as points.
fn buffer(width: u32, height: u32, pixels: Vec<u32>) -> Result<Buffer, TrialFailure> {
    match Buffer::new(width, height, pixels) {
        Some(made) => Ok(made),
        None => Err(TrialFailure::Malformed("as many pixels as points")),
    }
}

/// The text of the output's picture, where the tasks of each phase are done in this order.
fn drawn(
    alloc: Global,
    pipeline: &Pipeline,
    boxes: &Boxes,
    phases: &[Phase],
    inputs: &[Buffer],
    order: Order,
) -> Result<String, TrialFailure> {
    let mut funcs = blank_buffers(alloc, boxes)?;
    for phase in phases {
        do_phase(alloc, boxes, phase, inputs, order, &mut funcs)?;
    }
    output_text(alloc, pipeline, boxes, &funcs)
}

/// The text of the output's picture, where each phase is run as a whole.
fn drawn_at_once(
    alloc: Global,
    pipeline: &Pipeline,
    boxes: &Boxes,
    phases: &[Phase],
    inputs: &[Buffer],
) -> Result<String, TrialFailure> {
    let mut funcs = blank_buffers(alloc, boxes)?;
    for phase in phases {
        run_phase(phase, inputs, &mut funcs);
    }
    output_text(alloc, pipeline, boxes, &funcs)
}

/// A buffer of zeros for each Func.
fn blank_buffers(alloc: Global, boxes: &Boxes) -> Result<Vec<Buffer>, TrialFailure> {
    let mut funcs = Vec::new(alloc);
    for own in boxes.funcs.as_slice() {
        funcs.push(filled(alloc, own, 0)?)?;
    }
    Ok(funcs)
}

/// Does the tasks of a phase in this order.
fn do_phase(
    alloc: Global,
    boxes: &Boxes,
    phase: &Phase,
    inputs: &[Buffer],
    order: Order,
    funcs: &mut [Buffer],
) -> Result<(), TrialFailure> {
    for place in 0..phase.tasks {
        let task = order.task(place, phase.tasks);
        spoil(alloc, boxes, phase, task, funcs)?;
        run_task(phase, task, inputs, funcs);
    }
    Ok(())
}

/// A buffer of the points of a box: of zeros, or where there is a seed, of other pixels.
fn filled(alloc: Global, own: &Option<SourceBox>, seed: u32) -> Result<Buffer, TrialFailure> {
    let (width, height) = match own {
        Some(own) => (extent(own.x), extent(own.y)),
        None => (0, 0),
    };
    let mut pixels = Vec::new(alloc);
    for number in 0..width.wrapping_mul(height) {
        pixels.push(seed.wrapping_mul(number.wrapping_mul(2_654_435_761).wrapping_add(1)))?;
    }
    buffer(width, height, pixels)
}

/// How many numbers a range has.
fn extent(range: Range) -> u32 {
    (range.high.wrapping_sub(range.low).wrapping_add(1) % (1 << 32)) as u32
}

/// Puts anything into the private buffers of a phase, before a task.
fn spoil(
    alloc: Global,
    boxes: &Boxes,
    phase: &Phase,
    task: u32,
    funcs: &mut [Buffer],
) -> Result<(), TrialFailure> {
    for place in phase.private.as_slice() {
        if let Some(own) = boxes.funcs.as_slice().get(*place)
            && let Some(buffer) = funcs.get_mut(*place)
        {
            *buffer = filled(alloc, own, task.wrapping_add(1))?;
        }
    }
    Ok(())
}

/// The text of the output's picture, from the buffer of its Func.
fn output_text(
    alloc: Global,
    pipeline: &Pipeline,
    boxes: &Boxes,
    funcs: &[Buffer],
) -> Result<String, TrialFailure> {
    let output = pipeline.output();
    let (Some(Some(own)), Some(buffer)) = (
        boxes.funcs.as_slice().get(output.func),
        funcs.get(output.func),
    ) else {
        return Err(TrialFailure::Malformed("an output without a box"));
    };
    let left = (ORIGIN.wrapping_sub(own.x.low) % (1 << 32)) as u32;
    let top = (ORIGIN.wrapping_sub(own.y.low) % (1 << 32)) as u32;
    let mut pixels = Vec::new(alloc);
    for y in 0..output.height {
        for x in 0..output.width {
            pixels.push(buffer.get(left.wrapping_add(x), top.wrapping_add(y)))?;
        }
    }
    picture_text(alloc, output.width, output.height, pixels)
}
