//! The lines of a log, piece by piece.

ghost use Rattle.std.specs.Prelude.{◌≡◌, ◌+◌, ◌≤◌, ◌<◌, ◌++◌, ◌^◌, ℕ, Some, true, false, length, replicate, IfOk};
ghost use Rattle.multi_hart.specs.Run.{run};
ghost use Rattle.turn_traces.specs.TraceText as spec;

use crate::ranges::touches;
use crate::texts::push_turn;
use crate::traced::TracedText;
use crate::wanted::TurnsWanted;
use hart_core::Status;
use multi_hart::Machine;
use std::alloc::{AllocError, Global};
use turn_log::TurnLog;

/// After this many bytes a piece ends.
const USUAL_PIECE: usize = 65_536;

/// The lines of some turns of a log.
#[derive(Drop)]
pub struct TracePiece {
    pub text: Vec<u8>,
    /// The number of the turn after the last of them.
    pub next: u64,
}

/// Makes turns of a log from the one of a number on, on a machine whose text this is, which has made those before, and
/// gives the lines of those that are wanted: some of them, so that few bytes stand in memory, up to the last one that
/// may be wanted.
pub fn trace_piece(
    alloc: Global,
    machine: &mut Machine,
    traced: &TracedText,
    log: &TurnLog,
    wanted: &TurnsWanted,
    place: u64,
) -> Result<TracePiece, AllocError>
    requires text { traced.now ≡ machine.old.text }
    requires harts { length machine.old.harts ≡ log.now.harts }
    requires left { place < length log.now.turns }
    requires due { place ≤ wanted.now.to }
    ensures some { IfOk result (λ made. place < made.next) }
    ensures within { IfOk result (λ made. made.next ≤ length log.now.turns) }
    ensures text { IfOk result (λ made. made.text.items
        ≡ spec.lines_from wanted.now place machine.old (spec.piece log.now.turns place made.next)) }
    ensures state { IfOk result (λ made. machine.new ≡ run machine.old (spec.piece log.now.turns place made.next)) }
{
    // What these ensure says that every turn is of one of the log's harts, and that places are numbers of 64 bits.
    let _harts = log.harts();
    let _length = log.len();
    let mut text = Vec::new(alloc);
    let mut next = place;
    'runs: while let Some((hart, count)) = log.run_at(next) {
        if next > wanted.to || text.len() >= USUAL_PIECE {
            return Ok(TracePiece { text, next });
        }
        let turns = HartTurns {
            hart,
            number: next,
            count,
        };
        next += pass_some(&mut text, machine, traced, wanted, turns)?;
    }
    Ok(TracePiece { text, next })
}

/// Turns of one hart that stand in a row in a log.
#[derive(Clone, Copy, Debug)]
struct HartTurns {
    hart: usize,
    /// The number of the first of them.
    number: u64,
    count: u64,
}

/// Makes some turns of a hart, and appends the lines of those that are wanted: all that aren't wanted by their number
/// or their hart, or else one, or some that touch no memory, where a word must be touched.
fn pass_some(
    text: &mut Vec<u8>,
    machine: &mut Machine,
    traced: &TracedText,
    wanted: &TurnsWanted,
    turns: HartTurns,
) -> Result<u64, AllocError>
    requires text { traced.now ≡ machine.old.text }
    requires there { turns.hart < length machine.old.harts }
    requires some { 1 ≤ turns.count }
    ensures some { IfOk result (λ made. 1 ≤ made) }
    ensures within { IfOk result (λ made. made ≤ turns.count) }
    ensures text { IfOk result (λ made. text.new.items ≡ text.old.items
        ++ spec.lines_from wanted.now turns.number machine.old (replicate made turns.hart)) }
    ensures state { IfOk result (λ made. machine.new ≡ run machine.old (replicate made turns.hart)) }
{
    let passed = passed_over(wanted, turns);
    if passed > 0 {
        let _ = machine.run_same(turns.hart, passed);
        return Ok(passed);
    }
    match wanted.address {
        Some(word) => pass_touching(text, machine, traced, wanted, word, turns),
        None => {
            push_turn(text, machine, traced, turns.hart, turns.number)?;
            Ok(1)
        }
    }
}

/// How many turns at the front aren't wanted by their number or their hart.
fn passed_over(wanted: &TurnsWanted, turns: HartTurns) -> u64
    requires { 1 ≤ turns.count }
    ensures within { result ≤ turns.count }
    ensures passed { (k : ℕ) → k < result → spec.is_due wanted.now (turns.number + k) turns.hart ≡ false }
    ensures due { result ≡ 0 → spec.is_due wanted.now turns.number turns.hart ≡ true }
{
    if let Some(hart) = wanted.hart
        && hart != turns.hart
    {
        return turns.count;
    }
    if turns.number > wanted.to {
        return turns.count;
    }
    if turns.number < wanted.from {
        return turns.count.min(wanted.from - turns.number);
    }
    0
}

/// The same of turns of which those are wanted that touch a word.
fn pass_touching(
    text: &mut Vec<u8>,
    machine: &mut Machine,
    traced: &TracedText,
    wanted: &TurnsWanted,
    word: u32,
    turns: HartTurns,
) -> Result<u64, AllocError>
    requires text { traced.now ≡ machine.old.text }
    requires there { turns.hart < length machine.old.harts }
    requires some { 1 ≤ turns.count }
    requires wanted { wanted.now.address ≡ Some word }
    requires due { spec.is_due wanted.now turns.number turns.hart ≡ true }
    ensures some { IfOk result (λ made. 1 ≤ made) }
    ensures within { IfOk result (λ made. made ≤ turns.count) }
    ensures text { IfOk result (λ made. text.new.items ≡ text.old.items
        ++ spec.lines_from wanted.now turns.number machine.old (replicate made turns.hart)) }
    ensures state { IfOk result (λ made. machine.new ≡ run machine.old (replicate made turns.hart)) }
{
    let HartTurns {
        hart,
        number,
        count,
    } = turns;
    let Status::Running = machine.status(hart) else {
        let _ = machine.run_same(hart, count);
        return Ok(count);
    };
    let quiet = u64::from(traced.quiet_at(machine.pc(hart)));
    if quiet > 0 {
        return Ok(machine.step_on(hart, quiet.min(count)).made);
    }
    if touches(&traced.next_accesses(machine, hart), word) {
        push_turn(text, machine, traced, hart, number)?;
    } else {
        let _ = machine.turn(hart);
    }
    Ok(1)
}
