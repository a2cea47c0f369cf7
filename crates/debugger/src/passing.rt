//! Turns that are passed on the way to a stop.

ghost use Rattle.std.specs.Prelude.{◌≡◌, ◌≢◌, ℕ, List, Some, ◌||◌, ◌+◌, ◌^◌, ◌<◌, ◌≤◌, length, map};
ghost use Rattle.std.specs.List.{list_any};
ghost use Rattle.memory.specs.Access.{most_words};
ghost use Rattle.multi_hart.specs.Run.{KeepsShape, hart_at};
ghost use Rattle.turn_log.specs.RunAt.{run_at};
ghost use Rattle.turn_log.specs.TurnLog.{IsLog};
ghost use Rattle.debugger_writes.specs.Pages.{Marks};
ghost use Rattle.debugger_writes.specs.Stored.{store_in};
ghost use Rattle.debugger.specs.Counts.{steps_from};
ghost use Rattle.debugger.specs.inner.Passing.{First, Fits, IsPassed, Latest};
ghost use Rattle.debugger.specs.inner.Steps.{steps_of};
ghost use Rattle.debugger.specs.Places.{SessionState, state_at};
ghost use Rattle.debugger.specs.Stops.{break_stops};

use crate::turns::{PassedTurns, SetMarks, TurnsAhead, make_until, up_to_kept};
use hart_core::Status;
use multi_hart::Machine;
use rv_insn::Insn;
use turn_log::TurnLog;

/// What some turns came to that were passed at once.
#[derive(Clone, Copy, Debug)]
pub(crate) struct Passed {
    /// How many they are.
    pub turns: u64,
    /// How many of them were made one by one.
    pub steps: u64,
    /// Marks stop at each place between the first and the last one; where it is false, at none of them.
    pub between: bool,
    /// A mark stops after the last turn.
    pub behind: bool,
}

impl Passed {
    /// The turns, as what was made of them.
    pub(crate) fn made(self) -> PassedTurns {
        PassedTurns {
            turns: self.turns,
            steps: self.steps,
        }
    }

    /// The first stop after the place, among those that the turns lead to.
    pub(crate) fn first(self, place: u64) -> Option<u64>
        requires fits { place + self.turns < 2 ^ 64 }
        ensures { (session : SessionState) → IsPassed session place self
            → First session place (place + self.turns) result }
    {
        if self.turns > 1 && self.between {
            return Some(place + 1);
        }
        if self.behind {
            return Some(place + self.turns);
        }
        None
    }

    /// The last stop from a place on up to the one after the turns, where the one up to the place before them is
    /// given.
    pub(crate) fn latest(self, place: u64, last: Option<u64>) -> Option<u64>
        requires fits { place + self.turns < 2 ^ 64 }
        ensures { (session : SessionState) (from : ℕ) → IsPassed session place self → Latest session from place last
            → Latest session from (place + self.turns) result }
    {
        let end = place + self.turns;
        if self.behind {
            return Some(end);
        }
        if self.turns > 1 && self.between {
            return Some(end - 1);
        }
        last
    }
}

/// Passes at least one turn and at most those up to the limit, on a machine that is at the place: those of a hart
/// that runs up to one after which a mark may stop or the state may have to be kept, or all of one that doesn't run,
/// which change nothing.
pub(crate) fn pass(
    log: &TurnLog,
    marks: &SetMarks<'_>,
    machine: &mut Machine,
    insns: &[Option<Insn>],
    written: &mut [bool],
    way: TurnsAhead,
) -> Passed
    requires harts { length machine.old.harts ≡ log.now.harts }
    requires meant { insns.now ≡ map store_in machine.old.text }
    requires few { length insns.now ≤ most_words }
    requires before { way.place < way.limit }
    requires within { way.limit ≤ length log.now.turns }
    ensures passed { (session : SessionState) → Fits session log.now marks.now.breaks.now marks.now.watches.now
        machine.old way.place
        → IsPassed session way.place result }
    ensures state { (session : SessionState) → Fits session log.now marks.now.breaks.now marks.now.watches.now
        machine.old way.place
        → machine.new ≡ state_at session (way.place + result.turns) }
    ensures steps { (hart count : ℕ) → run_at log.now.turns way.place ≡ Some (hart, count)
        → result.steps ≡ steps_of machine.old hart result.turns }
    ensures counted { (session : SessionState) → Fits session log.now marks.now.breaks.now marks.now.watches.now
        machine.old way.place
        → result.steps ≡ steps_from session way.place result.turns }
    ensures some { 1 ≤ result.turns }
    ensures within { way.place + result.turns ≤ way.limit }
    ensures shape { KeepsShape machine.old machine.new }
    ensures marks { Marks machine.old.memory machine.new.memory written.old written.new }
{
    // What this ensures says that every turn is of one of these harts.
    let _harts = log.harts();
    let Some((hart, count)) = log.run_at(way.place) else {
        unreachable!()
    };
    let all = count.min(way.limit - way.place);
    let Status::Running = machine.status(hart) else {
        return pass_rest(log, marks.breaks, machine, hart, all, way.place);
    };
    let most = all.min(up_to_kept(way.place));
    let until = make_until(machine, insns, written, hart, most, marks);
    let on_break = is_on_break(log, marks.breaks, machine, way.place + until.turns);
    Passed {
        turns: until.turns,
        steps: until.turns,
        between: false,
        behind: either(on_break, until.changed),
    }
}

/// Whether one of the two holds.
fn either(a: bool, b: bool) -> bool
    ensures { result ≡ a || b }
{
    a || b
}

/// Passes this many turns of a hart that doesn't run, all at once.
fn pass_rest(
    log: &TurnLog,
    breaks: &[u32],
    machine: &Machine,
    hart: usize,
    turns: u64,
    place: u64,
) -> Passed
    requires harts { length machine.now.harts ≡ log.now.harts }
    requires there { hart < log.now.harts }
    requires rests { (hart_at machine.now hart).status ≢ Status.Running }
    requires fits { place + turns < 2 ^ 64 }
    ensures turns { result.turns ≡ turns }
    ensures steps { result.steps ≡ 0 }
    ensures passed { (session : SessionState) (watches : List ℕ) (count : ℕ)
        → Fits session log.now breaks.now watches machine.now place → run_at log.now.turns place ≡ Some (hart, count)
        → 1 ≤ turns → turns ≤ count → IsLog log.now → IsPassed session place result }
{
    let behind = is_on_break(log, breaks, machine, place + turns);
    Passed {
        turns,
        steps: 0,
        between: breaks.contains(&machine.pc(hart)),
        behind,
    }
}

/// Whether a break stops at the place, where the machine is.
pub(crate) fn is_on_break(log: &TurnLog, breaks: &[u32], machine: &Machine, place: u64) -> bool
    requires harts { length machine.now.harts ≡ log.now.harts }
    ensures { (session : SessionState) → log.now ≡ session.log → breaks.now ≡ session.breaks
        → machine.now ≡ state_at session place → result ≡ list_any (break_stops session place) session.breaks }
{
    // What this ensures says that every turn is of one of these harts.
    let _harts = log.harts();
    match log.run_at(place) {
        Some((hart, _)) => breaks.contains(&machine.pc(hart)),
        None => false,
    }
}
