//! One pass over a log, up to the first race.

ghost use Rattle.std.specs.Prelude.{◌≡◌, ◌≤◌, ◌<◌, ℕ, None, length, map, replicate, take, IfOk, IfSome};
ghost use Rattle.memory.specs.Access.{most_words};
ghost use Rattle.multi_hart.specs.Run.{hart_at, run, turn};
ghost use Rattle.turn_accesses.specs.Accesses.{access_in};
ghost use Rattle.turn_accesses.specs.Quiet.{AreCounts, IsQuietFrom};
ghost use Rattle.race_reports.specs.Races as spec;
ghost use Rattle.race_reports.specs.inner.Watching.{AreClear, AreSpans, JustTurned};

use crate::found::{FirstRace, RacingTurns};
use crate::harts::race_in;
use crate::watches::{is_apart, span_at, spans_of};
use hart_core::Status;
use multi_hart::Machine;
use rv_insn::Insn;
use std::alloc::{AllocError, Global};
use turn_accesses::{Span, accesses_of, quiet_at, quiets_of};
use turn_log::TurnLog;

/// Makes the turns of a log on a machine whose text has these words, up to the first place at which two harts race
/// outside the words of data `but`, and tells it. It takes memory by the word of text.
pub fn first_race(
    alloc: Global,
    machine: &mut Machine,
    words: &[u32],
    log: &TurnLog,
    but: &[u32],
) -> Result<Option<FirstRace>, AllocError>
    requires text { words.now ≡ machine.old.text }
    requires few { length words.now ≤ most_words }
    requires harts { length machine.old.harts ≡ log.now.harts }
    ensures race { IfOk result (λ found. found ≡ spec.first_race but.now 0 machine.old log.now.turns) }
    ensures state { IfOk result (λ found. IfSome found (λ race. machine.new
        ≡ run machine.old (take race.place log.now.turns))) }
{
    let insns = accesses_of(alloc, words)?;
    let quiets = quiets_of(alloc, words)?;
    let mut spans = spans_of(alloc, machine, &insns)?;
    Ok(pass(machine, &insns, &quiets, but, log, &mut spans))
}

/// The same, where it is known which words of text touch memory and how many don't from each on, and what each hart's
/// next turn does.
fn pass(
    machine: &mut Machine,
    insns: &[Option<Insn>],
    quiets: &[u32],
    but: &[u32],
    log: &TurnLog,
    spans: &mut [Span],
) -> Option<FirstRace>
    requires meant { insns.now ≡ map access_in machine.old.text }
    requires few { length insns.now ≤ most_words }
    requires quiet { AreCounts machine.old.text quiets.now }
    requires harts { length machine.old.harts ≡ log.now.harts }
    requires spans { AreSpans machine.old spans.old }
    ensures race { result ≡ spec.first_race but.now 0 machine.old log.now.turns }
    ensures state { IfSome result (λ race. machine.new ≡ run machine.old (take race.place log.now.turns)) }
{
    // What these ensure says that every turn is of one of the log's harts, and that places are numbers of 64 bits.
    let _harts = log.harts();
    let _length = log.len();
    if let Some(turns) = race_in(machine, insns, but) {
        return Some(FirstRace { place: 0, turns });
    }
    let mut place = 0;
    'runs: while let Some((hart, count)) = log.run_at(place) {
        let stretch = pass_run(machine, insns, quiets, but, spans, hart, count);
        place += stretch.made;
        if let Some(turns) = stretch.race {
            return Some(FirstRace { place, turns });
        }
    }
    None
}

/// Turns of one hart up to the first race.
#[derive(Clone, Copy, Debug)]
struct PassedTurns {
    /// How many they are.
    made: u64,
    /// The race after the last of them.
    race: Option<RacingTurns>,
}

/// Makes turns of one hart, up to the first race.
fn pass_run(
    machine: &mut Machine,
    insns: &[Option<Insn>],
    quiets: &[u32],
    but: &[u32],
    spans: &mut [Span],
    hart: usize,
    count: u64,
) -> PassedTurns
    requires there { hart < length machine.old.harts }
    requires meant { insns.now ≡ map access_in machine.old.text }
    requires few { length insns.now ≤ most_words }
    requires quiet { AreCounts machine.old.text quiets.now }
    requires spans { AreSpans machine.old spans.old }
    requires clear { spec.race_in but.now machine.old ≡ None }
    ensures within { result.made ≤ count }
    ensures all { result.race ≡ None → result.made ≡ count }
    ensures state { machine.new ≡ run machine.old (replicate result.made hart) }
    ensures spans { AreSpans machine.new spans.new }
    ensures clear { AreClear but.now machine.old hart result.made }
    ensures race { result.race ≡ spec.race_in but.now machine.new }
{
    let mut made = 0;
    'turns: while made < count {
        let some = pass_some(machine, insns, quiets, but, spans, hart, count - made);
        made += some.made;
        if let Some(turns) = some.race {
            return PassedTurns {
                made,
                race: Some(turns),
            };
        }
    }
    PassedTurns { made, race: None }
}

/// Makes some turns of one hart: all that are left where it doesn't run, since they change nothing; all over words that
/// touch no memory; or else one.
#[inline(always)]
fn pass_some(
    machine: &mut Machine,
    insns: &[Option<Insn>],
    quiets: &[u32],
    but: &[u32],
    spans: &mut [Span],
    hart: usize,
    most: u64,
) -> PassedTurns
    requires there { hart < length machine.old.harts }
    requires meant { insns.now ≡ map access_in machine.old.text }
    requires few { length insns.now ≤ most_words }
    requires quiet { AreCounts machine.old.text quiets.now }
    requires spans { AreSpans machine.old spans.old }
    requires clear { spec.race_in but.now machine.old ≡ None }
    requires some { 1 ≤ most }
    ensures some { 1 ≤ result.made }
    ensures within { result.made ≤ most }
    ensures state { machine.new ≡ run machine.old (replicate result.made hart) }
    ensures spans { AreSpans machine.new spans.new }
    ensures clear { AreClear but.now machine.old hart result.made }
    ensures race { result.race ≡ spec.race_in but.now machine.new }
{
    let Status::Running = machine.status(hart) else {
        let _ = machine.run_same(hart, most);
        return PassedTurns {
            made: most,
            race: None,
        };
    };
    let quiet = u64::from(quiet_at(quiets, machine.pc(hart)));
    if quiet > 0 {
        return pass_quiet(machine, insns, but, spans, hart, quiet, most);
    }
    let race = step(machine, insns, but, spans, hart);
    PassedTurns { made: 1, race }
}

/// Makes turns of one hart over this many words at most that touch no memory: no hart races between them that didn't
/// before.
#[inline(always)]
fn pass_quiet(
    machine: &mut Machine,
    insns: &[Option<Insn>],
    but: &[u32],
    spans: &mut [Span],
    hart: usize,
    quiet: u64,
    most: u64,
) -> PassedTurns
    requires there { hart < length machine.old.harts }
    requires meant { insns.now ≡ map access_in machine.old.text }
    requires few { length insns.now ≤ most_words }
    requires spans { AreSpans machine.old spans.old }
    requires clear { spec.race_in but.now machine.old ≡ None }
    requires quiet { IsQuietFrom machine.old.text (hart_at machine.old hart).pc quiet }
    requires some { 1 ≤ quiet }
    requires most { 1 ≤ most }
    ensures some { 1 ≤ result.made }
    ensures within { result.made ≤ most }
    ensures state { machine.new ≡ run machine.old (replicate result.made hart) }
    ensures spans { AreSpans machine.new spans.new }
    ensures clear { AreClear but.now machine.old hart result.made }
    ensures race { result.race ≡ spec.race_in but.now machine.new }
{
    let made = machine.step_on(hart, quiet.min(most)).made;
    let race = look(machine, insns, but, spans, hart);
    PassedTurns { made, race }
}

/// Makes a turn, and says which harts race after it.
fn step(
    machine: &mut Machine,
    insns: &[Option<Insn>],
    but: &[u32],
    spans: &mut [Span],
    hart: usize,
) -> Option<RacingTurns>
    requires there { hart < length machine.old.harts }
    requires meant { insns.now ≡ map access_in machine.old.text }
    requires few { length insns.now ≤ most_words }
    requires spans { AreSpans machine.old spans.old }
    requires clear { spec.race_in but.now machine.old ≡ None }
    ensures state { machine.new ≡ turn machine.old hart }
    ensures spans { AreSpans machine.new spans.new }
    ensures race { result ≡ spec.race_in but.now machine.new }
{
    let _ = machine.turn(hart);
    look(machine, insns, but, spans, hart)
}

/// Says which harts race after a turn of a hart, and between which bytes its next turn touches memory.
#[inline(always)]
fn look(
    machine: &Machine,
    insns: &[Option<Insn>],
    but: &[u32],
    spans: &mut [Span],
    hart: usize,
) -> Option<RacingTurns>
    requires there { hart < length machine.now.harts }
    requires meant { insns.now ≡ map access_in machine.now.text }
    requires few { length insns.now ≤ most_words }
    requires as_many { length spans.old ≡ length machine.now.harts }
    requires turned { JustTurned but.now machine.now spans.old hart }
    ensures spans { AreSpans machine.now spans.new }
    ensures race { result ≡ spec.race_in but.now machine.now }
{
    spans[hart] = span_at(machine, insns, hart);
    if is_apart(machine, insns, but, spans, hart, 0) {
        return None;
    }
    race_in(machine, insns, but)
}
