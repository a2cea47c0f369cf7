//! Runs as a log keeps them.

ghost use Rattle.std.specs.Prelude.{◌≡◌, ℕ, ◌-◌, ◌<◌, ◌^◌, length, slice_get, false, OnOk, OnErr};
ghost use Rattle.turn_log.specs.inner.Kept.{is_of, with_run};

use std::alloc::AllocError;
use std::marker::Model;

/// A run of turns by its hart and by where it ends, so that the run of a turn is found by a search. Both stand in one
/// word, the hart above the end, since a log can have a run for each of its turns.
#[derive(Clone, Copy, Debug)]
pub struct RunEnd {
    word: u64,
}

/// An end is below this. (All harts together have at most 2^43 turns.)
const ENDS: u64 = 1 << 56;

impl Model for RunEnd {
    ghost use Rattle.std.specs.Prelude.{◌+◌, ◌*◌, ◌/◌, ◌%◌, ◌^◌};
    ghost use Rattle.turn_log.specs.inner.RunEnds.{RunEnd as RunEndState, word_again};

    ghost Value = { RunEndState };

    ghost view = { λ s. record { hart = s.word / 2 ^ 56; end = s.word % 2 ^ 56 } };

    ghost inverse = { λ s. record { word = s.hart * 2 ^ 56 + s.end } };

    ghost inverse_ok = { λ s h i. record { word = word_again s.word i } };
}

impl RunEnd {
    /// The run of a hart up to this end.
    pub fn new(hart: u8, end: u64) -> RunEnd
        requires { end < 2 ^ 56 }
        ensures { result ≡ record { hart = hart; end = end } }
    {
        RunEnd {
            word: u64::from(hart) * ENDS + end,
        }
    }

    /// The hart of each of the run's turns.
    pub fn hart(self) -> u8
        ensures { result ≡ self.hart }
    {
        (self.word / ENDS) as u8
    }

    /// How many turns there are up to the run's end, those of the runs before it with them.
    pub fn end(self) -> u64
        ensures { result ≡ self.end }
    {
        self.word % ENDS
    }
}

/// Whether the last of the runs is of the hart.
fn ends_with(runs: &[RunEnd], hart: u8) -> bool
    ensures { result ≡ is_of (slice_get runs.now (length runs.now - 1)) hart }
{
    match runs.last() {
        Some(last) => last.hart() == hart,
        None => false,
    }
}

/// Adds a run at the end, or, if the last one is of the same hart, makes that one end where this one does.
pub fn push_run_end(runs: &mut Vec<RunEnd>, run: RunEnd) -> Result<(), AllocError>
    ensures ok { OnOk result (runs.new.items ≡ with_run runs.old.items run) }
    ensures err { OnErr result (runs.new.items ≡ runs.old.items) }
    ensures opens { OnErr result (is_of (slice_get runs.old.items (length runs.old.items - 1)) run.hart ≡ false) }
{
    if ends_with(runs, run.hart()) {
        let last = runs.len() - 1;
        runs[last] = run;
        return Ok(());
    }
    runs.push(run)?;
    Ok(())
}
