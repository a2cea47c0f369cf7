//! One pass over a log that marks words which stand in a row, each with the last turn that wrote it.

ghost use Rattle.std.specs.Prelude.{◌≡◌, ◌+◌, ◌*◌, ◌<◌, ◌≤◌, ◌%◌, ◌^◌, ◌++◌, ◌∷◌, [], ℕ, List, length, map};
ghost use Rattle.std.specs.Prelude.{option_and_then, replicate, Some, None, IfOk};
ghost use Rattle.hart_core.specs.VectorRows.{accesses_at, size_of};
ghost use Rattle.memory.specs.Access.{access_at, places_of, touched};
ghost use Rattle.memory.specs.Access.{fetched, most_words};
ghost use Rattle.multi_hart.specs.Run.{KeepsShape, State, hart_at, run, turn};
ghost use Rattle.work_sharing.specs.Turns.{is_word_in, written_next};
ghost use Rattle.debugger_blame.specs.Marks.{AreMarks};
ghost use Rattle.debugger_writes.specs.Stored.{places_in, store_in};
ghost use Rattle.debugger_blame.specs.inner.Marked.{Marked, is_byte_of_word};
ghost use Rattle.debugger_blame.specs.inner.Quiet.{AreCounts};

use crate::passes::HartTurns;
use crate::quiets::{quiet_at, quiets_of};
use debugger_writes::{Stored, number_stored, numbers_stored, store_at, stores_of};
use hart_core::Status;
use multi_hart::Machine;
use rv_insn::{ElementWidth, Insn, Outcome};
use std::alloc::{AllocError, Global};
use turn_log::TurnLog;

/// What words are marked with.
#[derive(Clone, Copy, Debug, PartialEq, Eq)]
pub enum Marking {
    /// The hart of the last turn that wrote the word.
    Harts,
    /// The number of that turn, modulo 2^31.
    Turns,
}

/// Words of data that stand in a row, and what they are marked with.
#[derive(Clone, Copy, Debug, PartialEq, Eq)]
pub struct MarkedRange {
    /// The address of the first one.
    pub first: u32,
    pub count: usize,
    pub marking: Marking,
}

/// The mark of a word that no turn wrote: -1.
const UNMARKED: u32 = 0xffff_ffff;

/// Makes the turns of a log on a machine whose text has these words, and gives the marks of words that stand in a row.
/// It takes memory by the word of text, and four bytes for each of the words that are marked.
pub fn mark_words(
    alloc: Global,
    machine: &mut Machine,
    words: &[u32],
    log: &TurnLog,
    range: MarkedRange,
) -> Result<Vec<u32>, AllocError>
    requires text { words.now ≡ machine.old.text }
    requires few { length words.now ≤ most_words }
    requires harts { length machine.old.harts ≡ log.now.harts }
    ensures marks { IfOk result (λ marks. AreMarks range.marking range.first machine.old log.now.turns marks.items) }
    ensures count { IfOk result (λ marks. length marks.items ≡ range.count) }
{
    let insns = stores_of(alloc, words)?;
    let quiets = quiets_of(alloc, words)?;
    let mut marks = vec![in alloc; UNMARKED; range.count]?;
    mark_all(machine, &insns, &quiets, log, range, &mut marks);
    Ok(marks)
}

/// The same, where it is known which words of text store and how many don't from each on, and nothing is marked.
fn mark_all(
    machine: &mut Machine,
    insns: &[Option<Insn>],
    quiets: &[u32],
    log: &TurnLog,
    range: MarkedRange,
    marks: &mut [u32],
)
    requires meant { insns.now ≡ map store_in machine.old.text }
    requires few { length insns.now ≤ most_words }
    requires quiet { AreCounts machine.old.text quiets.now }
    requires harts { length machine.old.harts ≡ log.now.harts }
    requires unmarked { AreMarks range.marking range.first machine.old [] marks.old }
    ensures { AreMarks range.marking range.first machine.old log.now.turns marks.new }
{
    // What these ensure says that every turn is of one of the log's harts, and that places are numbers of 64 bits.
    let _harts = log.harts();
    let _length = log.len();
    let mut place = 0;
    'runs: while let Some((hart, count)) = log.run_at(place) {
        let hart_turns = HartTurns { hart, count, place };
        mark_run(machine, insns, quiets, hart_turns, range, marks);
        place += count;
    }
}

/// Makes turns of one hart, and marks what they write. Where the hart doesn't run, all that are left are made at once.
fn mark_run(
    machine: &mut Machine,
    insns: &[Option<Insn>],
    quiets: &[u32],
    hart_turns: HartTurns,
    range: MarkedRange,
    marks: &mut [u32],
)
    requires there { hart_turns.hart < length machine.old.harts }
    requires eight { length machine.old.harts ≤ 8 }
    requires meant { insns.now ≡ map store_in machine.old.text }
    requires few { length insns.now ≤ most_words }
    requires quiet { AreCounts machine.old.text quiets.now }
    requires fits { hart_turns.place + hart_turns.count < 2 ^ 64 }
    ensures state { machine.new ≡ run machine.old (replicate hart_turns.count hart_turns.hart) }
    ensures marks { (begin : State) (done : List ℕ) → machine.old ≡ run begin done → length done ≡ hart_turns.place
        → AreMarks range.marking range.first begin done marks.old
        → AreMarks range.marking range.first begin (done ++ replicate hart_turns.count hart_turns.hart) marks.new }
{
    let HartTurns { hart, count, place } = hart_turns;
    let mut made = 0;
    'turns: while made < count {
        let Status::Running = machine.status(hart) else {
            let _ = machine.run_same(hart, count - made);
            return;
        };
        let rest = HartTurns {
            hart,
            count: count - made,
            place: place + made,
        };
        made += mark_some(machine, insns, quiets, rest, range, marks);
    }
}

/// Makes turns of one hart and marks what they write, and says how many it made: all up to a word that stores or after
/// one that may go on elsewhere, which mark nothing, or else one.
#[inline(always)]
fn mark_some(
    machine: &mut Machine,
    insns: &[Option<Insn>],
    quiets: &[u32],
    hart_turns: HartTurns,
    range: MarkedRange,
    marks: &mut [u32],
) -> u64
    requires there { hart_turns.hart < length machine.old.harts }
    requires eight { length machine.old.harts ≤ 8 }
    requires meant { insns.now ≡ map store_in machine.old.text }
    requires few { length insns.now ≤ most_words }
    requires quiet { AreCounts machine.old.text quiets.now }
    requires some { 1 ≤ hart_turns.count }
    ensures some { 1 ≤ result }
    ensures within { result ≤ hart_turns.count }
    ensures state { machine.new ≡ run machine.old (replicate result hart_turns.hart) }
    ensures shape { KeepsShape machine.old machine.new }
    ensures marks { (begin : State) (done : List ℕ) → machine.old ≡ run begin done → length done ≡ hart_turns.place
        → AreMarks range.marking range.first begin done marks.old
        → AreMarks range.marking range.first begin (done ++ replicate result hart_turns.hart) marks.new }
{
    let HartTurns { hart, count, place } = hart_turns;
    let quiet = u64::from(quiet_at(quiets, machine.pc(hart)));
    if quiet > 0 {
        return machine.step_on(hart, quiet.min(count)).made;
    }
    mark_turn(machine, insns, hart, place, range, marks);
    1
}

/// Makes a turn, and marks the words that it writes.
fn mark_turn(
    machine: &mut Machine,
    insns: &[Option<Insn>],
    hart: usize,
    place: u64,
    range: MarkedRange,
    marks: &mut [u32],
)
    requires there { hart < length machine.old.harts }
    requires eight { length machine.old.harts ≤ 8 }
    requires meant { insns.now ≡ map store_in machine.old.text }
    requires few { length insns.now ≤ most_words }
    ensures state { machine.new ≡ turn machine.old hart }
    ensures marks { (begin : State) (done : List ℕ) → machine.old ≡ run begin done → length done ≡ place
        → AreMarks range.marking range.first begin done marks.old
        → AreMarks range.marking range.first begin (done ++ hart ∷ []) marks.new }
{
    let Some(insn) = store_at(insns, machine.pc(hart)) else {
        let _ = machine.turn(hart);
        return;
    };
    let mark = mark_of(range.marking, place, hart);
    mark_store(machine, insn, hart, mark, range.first, marks);
}

/// Makes a turn whose instruction stores, and marks the words that it writes. Most store one number, of which no list
/// is made.
fn mark_store(
    machine: &mut Machine,
    insn: &Insn,
    hart: usize,
    mark: u32,
    first: u32,
    marks: &mut [u32],
)
    requires there { hart < length machine.old.harts }
    requires stores { option_and_then store_in (fetched machine.old.text (hart_at machine.old hart).pc)
        ≡ Some insn.now }
    ensures state { machine.new ≡ turn machine.old hart }
    ensures marks { Marked first (λ word. is_word_in word (written_next machine.old hart)) mark marks.old marks.new }
{
    let Some(number) = number_stored(machine.hart(hart), insn) else {
        mark_elements(machine, insn, hart, mark, first, marks);
        return;
    };
    let Outcome::Stepped = machine.turn(hart) else {
        return;
    };
    mark_numbers(marks, first, &[number.address], number.width, mark);
}

/// The same, whatever the instruction stores.
fn mark_elements(
    machine: &mut Machine,
    insn: &Insn,
    hart: usize,
    mark: u32,
    first: u32,
    marks: &mut [u32],
)
    requires there { hart < length machine.old.harts }
    requires stores { option_and_then store_in (fetched machine.old.text (hart_at machine.old hart).pc)
        ≡ Some insn.now }
    ensures state { machine.new ≡ turn machine.old hart }
    ensures marks { Marked first (λ word. is_word_in word (written_next machine.old hart)) mark marks.old marks.new }
{
    let stored = numbers_stored(machine.hart(hart), insn);
    let Outcome::Stepped = machine.turn(hart) else {
        return;
    };
    mark_stored(marks, first, &stored, mark);
}

/// What a turn of a hart marks words with.
fn mark_of(marking: Marking, place: u64, hart: usize) -> u32
    requires { hart < 8 }
    ensures harts { marking ≡ Marking.Harts → result ≡ hart }
    ensures turns { marking ≡ Marking.Turns → result ≡ place % 2147483648 }
{
    match marking {
        Marking::Harts => hart as u32,
        Marking::Turns => (place % (1 << 31)) as u32,
    }
}

/// Marks the words of which a byte is stored.
fn mark_stored(marks: &mut [u32], first: u32, stored: &Stored, mark: u32)
    ensures { Marked first (λ word. is_word_in word (places_in stored.now)) mark marks.old marks.new }
{
    match stored {
        Stored::Nothing => {}
        Stored::Number { address, width } => mark_number(marks, first, *address, *width, mark),
        Stored::Elements { addresses, width } => {
            mark_numbers(marks, first, addresses.as_slice(), *width, mark);
        }
    }
}

/// Marks the words of which numbers of a width at addresses have a byte.
fn mark_numbers(marks: &mut [u32], first: u32, addresses: &[u32], width: ElementWidth, mark: u32)
    ensures { Marked first (λ word. is_word_in word (touched (accesses_at width addresses.now))) mark marks.old
        marks.new }
{
    match addresses {
        [] => {}
        [address, others @ ..] => {
            mark_number(marks, first, *address, width, mark);
            mark_numbers(marks, first, others, width, mark);
        }
    }
}

/// Marks the words of which a number of a width at an address has a byte: those of its first byte and of its last.
fn mark_number(marks: &mut [u32], first: u32, address: u32, width: ElementWidth, mark: u32)
    ensures { Marked first (λ word. is_word_in word (places_of (access_at (size_of width) address))) mark marks.old
        marks.new }
{
    let place = u64::from(address);
    mark_byte(marks, first, place, mark);
    match width {
        ElementWidth::Bits8 => {}
        ElementWidth::Bits16 => mark_byte(marks, first, place + 1, mark),
        ElementWidth::Bits32 => mark_byte(marks, first, place + 3, mark),
    }
}

/// Marks the word that a byte is in.
fn mark_byte(marks: &mut [u32], first: u32, place: u64, mark: u32)
    requires { place < 2 ^ 64 }
    ensures { Marked first (λ word. is_byte_of_word word place) mark marks.old marks.new }
{
    let first = u64::from(first);
    if place < first {
        return;
    }
    let index = ((place - first) / 4) as usize;
    if index < marks.len() {
        marks[index] = mark;
    }
}
