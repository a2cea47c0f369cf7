//! Logs of turns: which hart made which turn.
//!
//! The file is `HRL1`, the number of harts (32 bits), the number of runs (64 bits), and 9 bytes for
//! each run: its hart (8 bits) and its length (64 bits), numbers little-endian. A run is a stretch
//! of turns of one hart, and the runs of a spelling are the longest ones, so that each log has one
//! spelling.

ghost use Rattle.std.specs.Prelude.{◌≡◌, ◌≢◌, ℕ, ◌+◌, ◌-◌, ◌<◌, ◌≤◌, List, [], ◌∷◌, ◌++◌, IsTrue, ◌↔◌, length};
ghost use Rattle.std.specs.Prelude.{replicate, slice_get, Some, OnOk, OnErr, IfOk, vec_len, vec_capacity};
ghost use Rattle.turn_log.specs.LogSpelling.{spelled, log_of, Answers};
ghost use Rattle.turn_log.specs.RunAt.{run_at};
ghost use Rattle.turn_log.specs.TurnLog.{LogState, IsLog, count_of, most_turns};

use crate::finding::{SearchHint, find_run};
use crate::log_faults::LogFault;
use crate::log_reading::read_log;
use crate::log_writing::{header_bytes, push_runs};
use crate::run_ends::{RunEnd, push_run_end};
use std::alloc::{AllocError, Global};
use std::marker::Model;

/// No hart of a log has more turns than these.
pub const MOST_TURNS: u64 = 1 << 40;

/// A number of harts, from 1 to 8, and the turns that they made, each the number of its hart.
///
/// A log takes memory by the run, 8 bytes for each stretch of turns of one hart, however long it is.
#[derive(Debug)]
pub struct TurnLog {
    harts: u8,
    totals: [u64; 8],
    runs: Vec<RunEnd>,
    near: SearchHint,
}

impl Model for TurnLog {
    ghost use Rattle.turn_log.specs.inner.Kept.{turns_of, IsKept};
    ghost use Rattle.turn_log.specs.TurnLog.{LogState};

    ghost Value = { LogState };

    ghost view = { λ log. record { harts = log.harts; turns = turns_of log.runs.items } };

    ghost invariant = { λ log. IsKept log.harts log.totals log.runs.items };
}

impl Drop for TurnLog {
    fn drop(self) {
        let TurnLog {
            runs,
            near,
            harts: _,
            totals: _,
        } = self;
        drop(runs);
        drop(near);
    }
}

impl TurnLog {
    /// The log of this many harts before any turn. It takes no memory.
    pub fn new(alloc: Global, harts: usize) -> TurnLog
        requires some { 1 ≤ harts }
        requires few { harts ≤ 8 }
        ensures { result ≡ record { harts = harts; turns = [] } }
    {
        TurnLog {
            harts: harts as u8,
            totals: [0; 8],
            runs: Vec::new(alloc),
            near: SearchHint::new(),
        }
    }

    /// The log of this many harts before any turn, with room for this many runs.
    pub(crate) fn with_room(alloc: Global, harts: u8, runs: usize) -> Result<TurnLog, AllocError>
        requires some { 1 ≤ harts }
        requires few { harts ≤ 8 }
        ensures { IfOk result (λ log. log ≡ record { harts = harts; turns = [] }) }
    {
        let runs = Vec::with_capacity(alloc, runs)?;
        Ok(TurnLog {
            harts,
            totals: [0; 8],
            runs,
            near: SearchHint::new(),
        })
    }

    /// How many harts there are.
    pub fn harts(&self) -> usize
        ensures value { result ≡ self.now.harts }
        ensures log { IsLog self.now }
    {
        self.harts as usize
    }

    /// How many turns were made.
    pub fn len(&self) -> u64
        ensures { result ≡ length self.now.turns }
    {
        match self.runs.last() {
            Some(run) => run.end(),
            None => 0,
        }
    }

    /// Whether no turn was made.
    pub fn is_empty(&self) -> bool
        ensures { IsTrue result ↔ (self.now.turns ≡ []) }
    {
        self.len() == 0
    }

    /// The hart of the turn at an index, if there is one.
    pub fn turn_at(&self, k: u64) -> Option<usize>
        ensures { result ≡ slice_get self.now.turns k }
    {
        let (hart, _) = self.run_at(k)?;
        Some(hart)
    }

    /// The hart of the turn at an index, and how many turns of it stand in a row from there on, if there
    /// is such a turn.
    pub fn run_at(&self, k: u64) -> Option<(usize, u64)>
        ensures { result ≡ run_at self.now.turns k }
    {
        find_run(&self.runs, k, &self.near)
    }

    /// How many of the turns are the hart's.
    pub fn count_of(&self, hart: usize) -> u64
        ensures { result ≡ count_of self.now.turns hart }
    {
        self.totals.get(hart).copied().unwrap_or(0)
    }

    /// The hart of the last turn, if there is one.
    pub(crate) fn last_hart(&self) -> Option<usize>
        ensures { result ≡ slice_get self.now.turns (length self.now.turns - 1) }
    {
        let run = self.runs.last()?;
        Some(run.hart() as usize)
    }

    /// Adds a turn at the end.
    pub fn push(&mut self, hart: usize) -> Result<(), AllocError>
        requires below { hart < self.old.harts }
        requires room { count_of self.old.turns hart < most_turns }
        ensures ok { OnOk result (self.new ≡ record self.old { turns = self.old.turns ++ hart ∷ [] }) }
        ensures err { OnErr result (self.new ≡ self.old) }
        // A turn that goes on a run takes no memory.
        ensures opens { OnErr result (slice_get self.old.turns (length self.old.turns - 1) ≢ Some hart) }
    {
        self.push_run(hart, 1)
    }

    /// Adds this many turns of one hart at the end.
    pub fn push_run(&mut self, hart: usize, k: u64) -> Result<(), AllocError>
        requires below { hart < self.old.harts }
        requires some { 1 ≤ k }
        requires room { count_of self.old.turns hart + k ≤ most_turns }
        ensures ok { OnOk result (self.new ≡ record self.old { turns = self.old.turns ++ replicate k hart }) }
        ensures err { OnErr result (self.new ≡ self.old) }
        // Turns that go on a run take no memory.
        ensures opens { OnErr result (slice_get self.old.turns (length self.old.turns - 1) ≢ Some hart) }
    {
        let end = self.len() + k;
        push_run_end(&mut self.runs, RunEnd::new(hart as u8, end))?;
        self.totals[hart] += k;
        Ok(())
    }

    /// The log that the bytes spell, all of the bytes.
    pub fn read(alloc: Global, bytes: &[u8]) -> Result<TurnLog, LogFault>
        // What is read is a log, and the bytes are its spelling.
        ensures log { IfOk result IsLog }
        ensures found { IfOk result (λ log. bytes.now ≡ spelled log) }
        // The spelling of a log is read as that log, unless memory runs out.
        ensures only { (log : LogState) → IsLog log → bytes.now ≡ spelled log → Answers result (Ok log) }
        // Which fault it is: the first in the order of the format.
        ensures exact { Answers result (log_of bytes.now) }
    {
        read_log(alloc, bytes)
    }

    /// Appends the log's one spelling.
    pub fn write(&self, out: &mut Vec<u8>) -> Result<(), AllocError>
        ensures ok { OnOk result (out.new.items ≡ out.old.items ++ spelled self.now) }
        ensures err { OnErr result (out.new.items ≡ out.old.items) }
        ensures full { OnErr result (vec_capacity out.old < vec_len out.old + length (spelled self.now)) }
    {
        let runs = self.runs.len();
        out.reserve(16 + 9 * runs)?;
        out.extend_from_slice(&header_bytes(self.harts, runs as u64))
            .unwrap();
        push_runs(out, &self.runs);
        Ok(())
    }
}
