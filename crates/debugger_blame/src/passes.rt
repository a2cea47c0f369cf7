//! One pass over a log, up to the last turn that wrote a word.

ghost use Rattle.std.specs.Prelude.{◌≡◌, ◌+◌, ◌<◌, ◌≤◌, ◌^◌, ◌++◌, ◌∷◌, [], ℕ, List, None, Some, length, map};
ghost use Rattle.std.specs.Prelude.{option_and_then, replicate, unwrap_or, IfOk};
ghost use Rattle.std.specs.Option.{option_copied};
ghost use Rattle.memory.specs.Access.{fetched, most_words};
ghost use Rattle.rv_encoding.specs.Decoding.{decoded};
ghost use Rattle.hart_core.specs.Scalar.{illegal_fault};
ghost use Rattle.multi_hart.specs.Run.{State, hart_at, run, turn, word_in};
ghost use Rattle.work_sharing.specs.Turns.{is_word_in};
ghost use Rattle.debugger_writes.specs.Stored.{places_stored, store_in};
ghost use Rattle.debugger_blame.specs.LastWrites.{Blames, held};
ghost use Rattle.rv_insn.specs.declared.instructions.Insn.{Insn};

use crate::stores::stores_to;
use crate::writes::Write;
use debugger_writes::{store_at, stores_of};
use hart_core::Status;
use multi_hart::Machine;
use rv_insn::{Insn, Outcome};
use std::alloc::{AllocError, Global};
use turn_log::TurnLog;

/// Makes the turns of a log on a machine whose text has these words, and says which of them wrote the word at an
/// address last, if one did. It takes memory by the word of text.
pub fn last_write(
    alloc: Global,
    machine: &mut Machine,
    words: &[u32],
    log: &TurnLog,
    address: u32,
) -> Result<Option<Write>, AllocError>
    requires text { words.now ≡ machine.old.text }
    requires few { length words.now ≤ most_words }
    requires harts { length machine.old.harts ≡ log.now.harts }
    ensures { IfOk result (Blames machine.old log.now.turns address) }
{
    let insns = stores_of(alloc, words)?;
    Ok(pass(machine, &insns, log, address))
}

/// The same, where it is known which words of text store.
fn pass(machine: &mut Machine, insns: &[Option<Insn>], log: &TurnLog, address: u32) -> Option<Write>
    requires meant { insns.now ≡ map store_in machine.old.text }
    requires few { length insns.now ≤ most_words }
    requires harts { length machine.old.harts ≡ log.now.harts }
    ensures { Blames machine.old log.now.turns address result }
{
    // What these ensure says that every turn is of one of the log's harts, and that places are numbers of 64 bits.
    let _harts = log.harts();
    let _length = log.len();
    let mut last = None;
    let mut place = 0;
    'runs: while let Some((hart, count)) = log.run_at(place) {
        let hart_turns = HartTurns { hart, count, place };
        last = pass_run(machine, insns, hart_turns, address, last);
        place += count;
    }
    last
}

/// Turns of one hart that stand in a row in a log.
#[derive(Clone, Copy, Debug)]
pub(crate) struct HartTurns {
    pub(crate) hart: usize,
    pub(crate) count: u64,
    /// How many turns came before them.
    pub(crate) place: u64,
}

/// Makes turns of one hart, and says which turn wrote the word last, of these and of those before. Where the hart
/// doesn't run, all that are left are made at once.
fn pass_run(
    machine: &mut Machine,
    insns: &[Option<Insn>],
    hart_turns: HartTurns,
    address: u32,
    last: Option<Write>,
) -> Option<Write>
    requires there { hart_turns.hart < length machine.old.harts }
    requires meant { insns.now ≡ map store_in machine.old.text }
    requires few { length insns.now ≤ most_words }
    requires fits { hart_turns.place + hart_turns.count < 2 ^ 64 }
    ensures state { machine.new ≡ run machine.old (replicate hart_turns.count hart_turns.hart) }
    ensures blames { (begin : State) (done : List ℕ) → machine.old ≡ run begin done → length done ≡ hart_turns.place
        → Blames begin done address last
        → Blames begin (done ++ replicate hart_turns.count hart_turns.hart) address result }
{
    let HartTurns { hart, count, place } = hart_turns;
    let mut last = last;
    let mut made = 0;
    'turns: while made < count {
        let Status::Running = machine.status(hart) else {
            let _ = machine.run_same(hart, count - made);
            return last;
        };
        last = step(machine, insns, hart, place + made, address, last);
        made += 1;
    }
    last
}

/// Makes a turn, and says which turn wrote the word last, this one or one of those before.
fn step(
    machine: &mut Machine,
    insns: &[Option<Insn>],
    hart: usize,
    place: u64,
    address: u32,
    last: Option<Write>,
) -> Option<Write>
    requires there { hart < length machine.old.harts }
    requires meant { insns.now ≡ map store_in machine.old.text }
    requires few { length insns.now ≤ most_words }
    ensures state { machine.new ≡ turn machine.old hart }
    ensures blames { (begin : State) (done : List ℕ) → machine.old ≡ run begin done → length done ≡ place
        → Blames begin done address last
        → Blames begin (done ++ hart ∷ []) address result }
{
    if !would_write(machine, insns, hart, address) {
        let _ = machine.turn(hart);
        return last;
    }
    let pc = machine.pc(hart);
    let before = word_at(machine, address);
    let Outcome::Stepped = machine.turn(hart) else {
        return last;
    };
    let after = word_at(machine, address);
    Some(Write {
        turn: place,
        hart,
        pc,
        before,
        after,
    })
}

/// Whether a hart's next turn writes a byte of the word, if it makes no trap.
fn would_write(machine: &Machine, insns: &[Option<Insn>], hart: usize, address: u32) -> bool
    requires there { hart < length machine.now.harts }
    requires meant { insns.now ≡ map store_in machine.now.text }
    requires few { length insns.now ≤ most_words }
    ensures { (insn : Insn) → option_and_then decoded (fetched machine.now.text (hart_at machine.now hart).pc)
        ≡ Some insn
        → illegal_fault insn (hart_at machine.now hart) ≡ None
        → result ≡ is_word_in address (places_stored insn (hart_at machine.now hart)) }
{
    match store_at(insns, machine.pc(hart)) {
        Some(insn) => stores_to(machine.hart(hart), insn, address),
        None => false,
    }
}

/// What a word of text or data holds, and 0 where there is none.
fn word_at(machine: &Machine, address: u32) -> u32
    ensures { result ≡ held machine.now address }
{
    machine.word(address).unwrap_or(0)
}
