//! Iterations that are given to harts one by one: which rows of the output change in whose turns.

ghost use Rattle.std.specs.Prelude.{◌<◌, length};

use crate::failures::TrialFailure;
use crate::images::{build, output_of};
use crate::pictures::{inputs_of, pixel_at};
use loader::{Image, Output};
use memory::DATA_START;
use multi_hart::Machine;
use std::alloc::{AllocError, Global};
use test_cases::Part;

/// How many harts there are.
const HARTS: u32 = 3;

/// In this many turns a hart draws its next task, and all harts finish.
const MOST_TURNS: u32 = 20_000_000;

/// The output's pixels as they were last looked at, and for each row which harts changed it: bit h for hart h.
#[derive(Drop)]
struct Rows {
    output: Output,
    pixels: Vec<u32>,
    changed_by: Vec<u32>,
}

/// Appends for each row of the output which of three harts changed it. A hart named by the part `assignment` is
/// stepped alone until it has drawn a task of the first phase, then the next one; then all in turn until they finish.
pub fn push_assignment(
    alloc: Global,
    parts: &[Part],
    out: &mut String,
) -> Result<(), TrialFailure> {
    let [algorithm, schedule, assignment, pictures @ ..] = parts else {
        return Err(TrialFailure::Malformed("not three parts"));
    };
    let inputs = inputs_of(alloc, pictures)?;
    let algorithm = algorithm.named("algorithm")?;
    let schedule = schedule.named("schedule")?;
    let built = build(alloc, algorithm, schedule, &inputs)?;
    push_rows(alloc, &built.image, assignment.named("assignment")?, out)
}

/// The same of an image.
fn push_rows(
    alloc: Global,
    image: &Image,
    assignment: &str,
    out: &mut String,
) -> Result<(), TrialFailure> {
    let mut machine = image.machine(alloc, HARTS as usize)?;
    let mut rows = rows_of(alloc, &machine, output_of(image)?)?;
    assign(&mut machine, &mut rows, assignment)?;
    finish(&mut machine, &mut rows)?;
    for (row, harts) in rows.changed_by.iter().enumerate() {
        push_row(row, *harts, out)?;
    }
    Ok(())
}

/// Has each hart that is named draw a task, one after the other.
fn assign(machine: &mut Machine, rows: &mut Rows, assignment: &str) -> Result<(), TrialFailure> {
    for word in assignment.split_whitespace() {
        let Ok(hart) = word.parse::<u32>() else {
            return Err(TrialFailure::Malformed("a hart that is no number"));
        };
        draw_task(machine, hart);
        rows.take_changes(machine, hart)?;
    }
    Ok(())
}

/// The output's pixels before any turn.
fn rows_of(alloc: Global, machine: &Machine, output: Output) -> Result<Rows, TrialFailure> {
    let mut pixels = Vec::new(alloc);
    let mut changed_by = Vec::new(alloc);
    for y in 0..output.height {
        changed_by.push(0)?;
        for x in 0..output.width {
            pixels.push(pixel_at(machine, output, x, y)?)?;
        }
    }
    Ok(Rows {
        output,
        pixels,
        changed_by,
    })
}

impl Rows {
    /// Looks at the output's pixels again: what is another one than before was changed by this hart.
    fn take_changes(&mut self, machine: &Machine, hart: u32) -> Result<(), TrialFailure> {
        let mut place: usize = 0;
        for y in 0..self.output.height {
            for x in 0..self.output.width {
                let pixel = pixel_at(machine, self.output, x, y)?;
                if let Some(old) = self.pixels.get_mut(place)
                    && *old != pixel
                {
                    *old = pixel;
                    self.mark(y, hart);
                }
                place = place.wrapping_add(1);
            }
        }
        Ok(())
    }

    /// Says of a row that a hart changed it.
    fn mark(&mut self, row: u32, hart: u32) {
        if let Some(harts) = self.changed_by.get_mut(row as usize) {
            *harts |= 1u32.wrapping_shl(hart);
        }
    }
}

/// Steps a hart alone until it has drawn a task of the first phase.
fn draw_task(machine: &mut Machine, hart: u32) {
    let hart = hart as usize;
    let before = machine.word(DATA_START);
    for _ in 0..MOST_TURNS {
        if hart >= machine.harts() || machine.word(DATA_START) != before {
            return;
        }
        machine.turn(hart);
    }
}

/// Steps all harts in turn until they have finished.
fn finish(machine: &mut Machine, rows: &mut Rows) -> Result<(), TrialFailure> {
    for turn in 0..MOST_TURNS {
        let hart = turn % HARTS;
        if (hart as usize) < machine.harts() {
            let stores = is_at_store(machine, hart as usize);
            machine.turn(hart as usize);
            if stores {
                rows.take_changes(machine, hart)?;
            }
        }
        if machine.is_finished() {
            return Ok(());
        }
    }
    Err(TrialFailure::Malformed("harts that don't finish"))
}

/// Whether a hart's next instruction is one of those that may write memory: its lowest seven bits say so.
fn is_at_store(machine: &Machine, hart: usize) -> bool
    requires { hart < length machine.now.harts }
{
    match machine.word(machine.pc(hart)) {
        Some(word) => matches!(word & 0x7f, 0b010_0011 | 0b010_0111 | 0b010_1111),
        None => false,
    }
}

/// A row, and the harts that changed it.
fn push_row(row: usize, harts: u32, out: &mut String) -> Result<(), AllocError> {
    write!(out, "row {row}:")?;
    for hart in 0..HARTS {
        if harts >> hart & 1 == 1 {
            write!(out, " {hart}")?;
        }
    }
    out.push_str("\n")
}
