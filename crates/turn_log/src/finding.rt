//! The run of a turn, found near the one that was found last.

ghost use Rattle.std.specs.Prelude.{◌≡◌, ℕ, ◌<◌, ◌≤◌, true};
ghost use Rattle.std.specs.List.Sorted.{IsNonDecreasingBy, IsPartitionPoint};
ghost use Rattle.turn_log.specs.inner.Kept.{AreRuns, runs_from, turns_of};
ghost use Rattle.turn_log.specs.inner.RunEnds.{RunEnd as RunEndState};
ghost use Rattle.turn_log.specs.RunAt.{run_at};

use crate::run_ends::RunEnd;
use std::cell::Cell;
use std::fmt;

/// The place of the run that was found last, so that who goes over a log finds the next one without a search. It is no
/// part of what a log is.
#[derive(Drop)]
pub struct SearchHint {
    place: Cell<usize>,
}

impl SearchHint {
    pub fn new() -> SearchHint {
        SearchHint {
            place: Cell::new(0),
        }
    }
}

impl fmt::Debug for SearchHint {
    fn fmt<W: fmt::Write>(&self, f: &mut fmt::Formatter<W>) -> fmt::Result {
        f.write_str("SearchHint")
    }
}

/// The hart of the turn at an index, and how many turns there are from there to its run's end. It is looked for
/// where the last one was found and after that, and searched for only where it isn't there.
pub fn find_run(runs: &[RunEnd], k: u64, near: &SearchHint) -> Option<(usize, u64)>
    requires { (harts : ℕ) × AreRuns harts (runs_from 0 runs.now) }
    ensures { result ≡ run_at (turns_of runs.now) k }
{
    let place = place_of(runs, k, near.place.get());
    near.place.set(place);
    let run = runs.get(place)?;
    Some((run.hart() as usize, run.end() - k))
}

/// How many of the runs end at an index or before it, where the ends rise; best where it is `near` or the next number.
fn place_of(runs: &[RunEnd], k: u64, near: usize) -> usize
    requires { IsNonDecreasingBy (λ (run : RunEndState). run.end) runs.now }
    ensures { IsPartitionPoint (λ (run : RunEndState). run.end ≤ k) (λ run. k < run.end) runs.now result }
{
    if is_place(runs, k, near) {
        return near;
    }
    let next = near.saturating_add(1);
    if is_place(runs, k, next) {
        return next;
    }
    runs.partition_point(|run| run.end() <= k)
}

/// Whether the turn at an index is one of the run at a place.
fn is_place(runs: &[RunEnd], k: u64, place: usize) -> bool
    requires { IsNonDecreasingBy (λ (run : RunEndState). run.end) runs.now }
    ensures { result ≡ true → IsPartitionPoint (λ (run : RunEndState). run.end ≤ k) (λ run. k < run.end) runs.now
        place }
{
    let Some(run) = runs.get(place) else {
        return false;
    };
    if k >= run.end() {
        return false;
    }
    place == 0 || runs[place - 1].end() <= k
}
