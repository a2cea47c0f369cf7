//! Turns of a hart, made on a machine. Each marks the pages of data that it may write.

ghost use Rattle.std.specs.Prelude.{◌≡◌, ◌+◌, ◌-◌, ◌<◌, ◌≤◌, ◌==◌, ℕ, Some, true, false, length, map, take, replicate};
ghost use Rattle.std.specs.List.{list_any};
ghost use Rattle.memory.specs.Access.{most_words};
ghost use Rattle.multi_hart.specs.Run.{KeepsShape, State, hart_at, outcome, run, turn};
ghost use Rattle.turn_log.specs.RunAt.{run_at};
ghost use Rattle.debugger_writes.specs.Pages.{Marks};
ghost use Rattle.debugger_writes.specs.Stored.{store_in};
ghost use Rattle.debugger.specs.Counts.{steps_from};
ghost use Rattle.debugger.specs.Places.{SessionState, state_at};
ghost use Rattle.debugger.specs.inner.Steps.{IsQuietUntil, steps_of};
ghost use Rattle.debugger.specs.Stops.{differs};

use crate::kept::KEPT_EVERY;
use crate::watches::may_write;
use debugger_writes::turn_marking;
use hart_core::Status;
use multi_hart::Machine;
use rv_insn::{Insn, Outcome};
use turn_log::TurnLog;

/// A place of a log, and a later one up to which turns may be made.
#[derive(Clone, Copy, Debug)]
pub(crate) struct TurnsAhead {
    pub place: u64,
    pub limit: u64,
}

/// Turns that were made.
#[derive(Clone, Copy, Debug)]
pub(crate) struct PassedTurns {
    /// How many they are.
    pub turns: u64,
    /// How many of them were made one by one.
    pub steps: u64,
}

impl PassedTurns {
    /// Whether no two turns were passed at once.
    pub(crate) fn is_turn_by_turn(self) -> bool {
        self.turns == 1 || self.steps == self.turns
    }
}

/// Makes this many turns of a hart, and says how many it made one by one: once it isn't running the rest are passed,
/// since they change nothing. It takes no memory.
pub(crate) fn make_counted(
    machine: &mut Machine,
    insns: &[Option<Insn>],
    written: &mut [bool],
    hart: usize,
    turns: u64,
) -> u64
    requires there { hart < length machine.old.harts }
    requires meant { insns.now ≡ map store_in machine.old.text }
    requires few { length insns.now ≤ most_words }
    ensures state { machine.new ≡ run machine.old (replicate turns hart) }
    ensures steps { result ≡ steps_of machine.old hart turns }
    ensures shape { KeepsShape machine.old machine.new }
    ensures marks { Marks machine.old.memory machine.new.memory written.old written.new }
{
    for made in 0..turns {
        let Status::Running = machine.status(hart) else {
            return made;
        };
        let _told = turn_marking(machine, insns, hart, written);
    }
    turns
}

/// Makes turns of the hart whose turn is next in a log, at least one and at most those up to the limit: those up to the
/// next place at which the state is kept where it runs, else all of them. It takes no memory.
pub(crate) fn make_some(
    log: &TurnLog,
    machine: &mut Machine,
    insns: &[Option<Insn>],
    written: &mut [bool],
    way: TurnsAhead,
) -> PassedTurns
    requires harts { length machine.old.harts ≡ log.now.harts }
    requires meant { insns.now ≡ map store_in machine.old.text }
    requires few { length insns.now ≤ most_words }
    requires before { way.place < way.limit }
    requires within { way.limit ≤ length log.now.turns }
    ensures state { (start : State) → machine.old ≡ run start (take way.place log.now.turns)
        → machine.new ≡ run start (take (way.place + result.turns) log.now.turns) }
    ensures steps { (hart count : ℕ) → run_at log.now.turns way.place ≡ Some (hart, count)
        → result.steps ≡ steps_of machine.old hart result.turns }
    ensures counted { (session : SessionState) → log.now ≡ session.log → machine.old ≡ state_at session way.place
        → result.steps ≡ steps_from session way.place result.turns }
    ensures some { 1 ≤ result.turns }
    ensures within { way.place + result.turns ≤ way.limit }
    ensures shape { KeepsShape machine.old machine.new }
    ensures marks { Marks machine.old.memory machine.new.memory written.old written.new }
{
    // What this ensures says that every turn is of one of these harts.
    let _harts = log.harts();
    let Some((hart, count)) = log.run_at(way.place) else {
        unreachable!()
    };
    let turns = at_most(machine, hart, way.place, count.min(way.limit - way.place));
    let steps = make_counted(machine, insns, written, hart, turns);
    PassedTurns { turns, steps }
}

/// How many of a hart's next turns are made before the state may have to be kept: those up to the next place at which
/// it is kept where the hart runs, and all of them where it doesn't.
fn at_most(machine: &Machine, hart: usize, place: u64, all: u64) -> u64
    requires there { hart < length machine.now.harts }
    requires some { 1 ≤ all }
    ensures some { 1 ≤ result }
    ensures most { result ≤ all }
{
    let Status::Running = machine.status(hart) else {
        return all;
    };
    all.min(up_to_kept(place))
}

/// How many turns lie between a place and the next one at which the state is kept.
pub(crate) fn up_to_kept(place: u64) -> u64
    ensures { 1 ≤ result }
{
    KEPT_EVERY - place % KEPT_EVERY
}

/// Turns that were made up to one after which a mark may stop.
#[derive(Clone, Copy, Debug)]
pub(crate) struct Until {
    /// How many they are.
    pub turns: u64,
    /// A word that is watched is another after the last of them than before it.
    pub changed: bool,
}

/// The addresses that marks are set on: those of instructions that stop, and of words that are watched.
#[derive(Clone, Copy)]
pub(crate) struct SetMarks<'a> {
    pub breaks: &'a [u32],
    pub watches: &'a [u32],
}

/// Makes turns of a hart that runs, at least one and at most this many, in each of which it runs: up to the first after
/// which it is on a break, which changes a word at one of the watched addresses, or which doesn't step. It takes no
/// memory.
pub(crate) fn make_until(
    machine: &mut Machine,
    insns: &[Option<Insn>],
    written: &mut [bool],
    hart: usize,
    most: u64,
    marks: &SetMarks<'_>,
) -> Until
    requires there { hart < length machine.old.harts }
    requires meant { insns.now ≡ map store_in machine.old.text }
    requires few { length insns.now ≤ most_words }
    requires some { 1 ≤ most }
    requires runs { (hart_at machine.old hart).status ≡ Status.Running }
    ensures state { machine.new ≡ run machine.old (replicate result.turns hart) }
    ensures steps { steps_of machine.old hart result.turns ≡ result.turns }
    ensures some { (1 ≤ result.turns) × (result.turns ≤ most) }
    ensures quiet { IsQuietUntil machine.old hart marks.now.breaks.now marks.now.watches.now result.turns }
    ensures changed { result.changed
        ≡ list_any (differs (run machine.old (replicate (result.turns - 1) hart)) machine.new) marks.now.watches.now }
    ensures shape { KeepsShape machine.old machine.new }
    ensures marks { Marks machine.old.memory machine.new.memory written.old written.new }
{
    let mut turns = 1;
    let mut told = turn_watched(machine, insns, written, hart, marks.watches);
    while turns < most && goes_on(told, machine.pc(hart), marks.breaks) {
        told = turn_watched(machine, insns, written, hart, marks.watches);
        turns += 1;
    }
    Until {
        turns,
        changed: told.changed,
    }
}

/// Whether no mark stops after a turn that stepped, where the hart now is at this address and its turn is the next
/// one.
fn goes_on(told: Watched, pc: u32, breaks: &[u32]) -> bool
    ensures stepped { result ≡ true → told.outcome ≡ Outcome.Stepped }
    ensures quiet { result ≡ true → (told.changed ≡ false) × (list_any (λ mark. mark == pc) breaks.now ≡ false) }
{
    let Outcome::Stepped = told.outcome else {
        return false;
    };
    !told.changed && !breaks.contains(&pc)
}

/// What a turn came to.
#[derive(Clone, Copy, Debug)]
struct Watched {
    outcome: Outcome,
    /// A word that is watched is another than before.
    changed: bool,
}

/// Makes a turn of a hart, and says whether a word at one of the addresses is then another than before. Words are read
/// where the instruction may store to one of them, and no other turn changes any. It takes no memory.
fn turn_watched(
    machine: &mut Machine,
    insns: &[Option<Insn>],
    written: &mut [bool],
    hart: usize,
    watches: &[u32],
) -> Watched
    requires there { hart < length machine.old.harts }
    requires meant { insns.now ≡ map store_in machine.old.text }
    requires few { length insns.now ≤ most_words }
    ensures state { machine.new ≡ turn machine.old hart }
    ensures outcome { result.outcome ≡ outcome machine.old hart }
    ensures changed { result.changed ≡ list_any (differs machine.old machine.new) watches.now }
    ensures marks { Marks machine.old.memory machine.new.memory written.old written.new }
{
    if may_write(machine, insns, hart, watches) {
        return turn_compared(machine, insns, written, hart, watches);
    }
    let told = turn_marking(machine, insns, hart, written);
    Watched {
        outcome: told.outcome,
        changed: false,
    }
}

/// The same of any turn: each word is read before and after.
fn turn_compared(
    machine: &mut Machine,
    insns: &[Option<Insn>],
    written: &mut [bool],
    hart: usize,
    watches: &[u32],
) -> Watched
    requires there { hart < length machine.old.harts }
    requires meant { insns.now ≡ map store_in machine.old.text }
    requires few { length insns.now ≤ most_words }
    ensures state { machine.new ≡ turn machine.old hart }
    ensures outcome { result.outcome ≡ outcome machine.old hart }
    ensures changed { result.changed ≡ list_any (differs machine.old machine.new) watches.now }
    ensures marks { Marks machine.old.memory machine.new.memory written.old written.new }
{
    match watches {
        [] => {
            let told = turn_marking(machine, insns, hart, written);
            Watched {
                outcome: told.outcome,
                changed: false,
            }
        }
        [address, others @ ..] => {
            let before = machine.word(*address);
            let watched = turn_compared(machine, insns, written, hart, others);
            Watched {
                outcome: watched.outcome,
                changed: machine.word(*address) != before || watched.changed,
            }
        }
    }
}
