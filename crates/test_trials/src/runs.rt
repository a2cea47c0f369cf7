//! Runs of compiled images, by several lists of turns.

ghost use Rattle.std.specs.Prelude.{◌≤◌};

use crate::failures::TrialFailure;
use crate::images::{Built, output_of};
use crate::pictures::output_text;
use multi_hart::Machine;
use rv_insn::Outcome;
use std::alloc::Global;

/// In this many turns all harts of each case have finished.
const MOST_TURNS: u32 = 20_000_000;

/// Which hart makes the next turn.
#[derive(Clone, Copy)]
enum Pace {
    /// One after the other.
    InTurn,
    /// At first hart 0 alone.
    FirstAhead,
    /// At first all but the last.
    LastBehind,
    /// By chance.
    Drawn,
}

impl Pace {
    /// The hart that makes the turn of this number, of this many harts, where the first `lead` turns are those at
    /// first, and this number was drawn.
    fn hart(self, turn: u32, lead: u32, drawn: u32, harts: u32) -> u32 {
        let before = turn < lead;
        match self {
            Pace::FirstAhead if before => 0,
            Pace::LastBehind if before => turn.checked_rem(harts.wrapping_sub(1)).unwrap_or(0),
            Pace::Drawn => (drawn >> 16).checked_rem(harts).unwrap_or(0),
            _ => turn.checked_rem(harts).unwrap_or(0),
        }
    }

    /// The pace, as a line names it.
    fn name(self) -> &'static str {
        match self {
            Pace::InTurn => "in turn",
            Pace::FirstAhead => "the first ahead",
            Pace::LastBehind => "the last behind",
            Pace::Drawn => "drawn",
        }
    }
}

/// Appends a line for each number of harts and each pace.
pub fn push_runs(
    alloc: Global,
    built: &Built,
    wanted: &str,
    out: &mut String,
) -> Result<(), TrialFailure> {
    // Half of what one hart alone needs is far ahead, and not so far that nothing is left to others.
    let lead = push_run(alloc, built, 1, Pace::InTurn, 0, wanted, out)? / 2;
    push_run(alloc, built, 2, Pace::Drawn, lead, wanted, out)?;
    for pace in [Pace::InTurn, Pace::FirstAhead, Pace::LastBehind] {
        push_run(alloc, built, 3, pace, lead, wanted, out)?;
    }
    for pace in [Pace::InTurn, Pace::FirstAhead] {
        push_run(alloc, built, 8, pace, lead, wanted, out)?;
    }
    Ok(())
}

/// Appends what this many harts leave at a pace: the words by which they share their work, and whether the picture
/// isn't the wanted one. The answer is how many turns they made.
fn push_run(
    alloc: Global,
    built: &Built,
    harts: u32,
    pace: Pace,
    lead: u32,
    wanted: &str,
    out: &mut String,
) -> Result<u32, TrialFailure>
    requires { (1 ≤ harts) × (harts ≤ 8) }
{
    let mut machine = built.image.machine(alloc, harts as usize)?;
    let turns = run(&mut machine, harts, pace, lead);
    write!(out, "harts {harts}, {}:", pace.name())?;
    if !machine.is_finished() {
        out.push_str(" not finished")?;
    }
    for address in built.control.as_slice() {
        let word = machine.word(*address).unwrap_or(u32::MAX);
        write!(out, " {word}")?;
    }
    let drawn = output_text(alloc, &machine, output_of(&built.image)?)?;
    if drawn.as_str() != wanted {
        out.push_str(", another picture")?;
    }
    out.push_str("\n")?;
    Ok(turns)
}

/// Makes turns at a pace until all harts have finished or one has trapped, and says how many.
fn run(machine: &mut Machine, harts: u32, pace: Pace, lead: u32) -> u32 {
    let mut drawn: u32 = 12_345;
    for turn in 0..MOST_TURNS {
        drawn = drawn.wrapping_mul(1_664_525).wrapping_add(1_013_904_223);
        let hart = pace.hart(turn, lead, drawn, harts) as usize;
        if hart < machine.harts()
            && let Outcome::Trapped(_) = machine.turn(hart)
        {
            return turn;
        }
        if turn % 16 == 0 && machine.is_finished() {
            return turn;
        }
    }
    MOST_TURNS
}
