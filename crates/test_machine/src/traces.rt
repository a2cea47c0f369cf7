//! The turns of logs as lines, worked out by hand.

ghost use Rattle.std.specs.Prelude.{◌≡◌, ◌≤◌, ◌<◌, length, IfOk};

use crate::comparing::same;
use multi_hart::Machine;
use std::alloc::{AllocError, Global};
use std::process::Abort;
use std::test::Fail;
use turn_log::TurnLog;
use turn_traces::{TracedText, TurnsWanted, trace_piece};

/// A load, a store, an addition, loads and stores at every second word, and the end.
const WORDS: [u32; 9] = [
    0x0020_02b7, // lui x5,0x00200
    0x0042_a383, // lw x7,4(x5)
    0x0072_80a3, // sb x7,1(x5)
    0x0072_a42f, // amoadd.w x8,x7,(x5)
    0x0080_0513, // addi x10,x0,8
    0xc101_7057, // vsetivli x0,2,e32,m1,tu,mu
    0x0aa2_e087, // vlse32.v v1,(x5),x10
    0x0aa2_e0a7, // vsse32.v v1,(x5),x10
    0x0000_0073, // ecall
];

const DATA: [u8; 12] = [1, 0, 0, 0, 0x44, 0x33, 0x22, 0x11, 0x88, 0x77, 0x66, 0x55];

/// The lines of its ten turns, of which the last one is idle.
const LINES: [&str; 10] = [
    "turn 0 hart 0 pc 0x00010000 lui x5,0x00200  x5 0x00200000\n",
    "turn 1 hart 0 pc 0x00010004 lw x7,4(x5)  x7 0x11223344  word 0x00200004 is 0x11223344\n",
    "turn 2 hart 0 pc 0x00010008 sb x7,1(x5)  word 0x00200000 before 0x00000001 after 0x00004401\n",
    "turn 3 hart 0 pc 0x0001000c amoadd.w x8,x7,(x5)  x8 0x00004401  \
     word 0x00200000 before 0x00004401 after 0x11227745\n",
    "turn 4 hart 0 pc 0x00010010 addi x10,x0,8  x10 0x00000008\n",
    "turn 5 hart 0 pc 0x00010014 vsetivli x0,2,e32,m1,tu,mu\n",
    "turn 6 hart 0 pc 0x00010018 vlse32.v v1,(x5),x10  words 0x00200000 to 0x00200008 read  \
     v1 0x00000000000000005566778811227745\n",
    "turn 7 hart 0 pc 0x0001001c vsse32.v v1,(x5),x10  words 0x00200000 to 0x00200008 written\n",
    "turn 8 hart 0 pc 0x00010020 ecall  finished\n",
    "turn 9 hart 0 pc 0x00010020 idle\n",
];

/// EBREAK: a trap, and an idle turn after it.
const TRAP: [u32; 1] = [0x0010_0073];

const TRAP_LINES: [&str; 2] = [
    "turn 0 hart 0 pc 0x00010000 ebreak  trap\n",
    "turn 1 hart 0 pc 0x00010000 idle\n",
];

const ALL: TurnsWanted = TurnsWanted {
    from: 0,
    to: u64::MAX,
    hart: None,
    address: None,
};

/// One hart over these words and the data.
fn one_hart(alloc: Global, words: &[u32]) -> Result<Machine, AllocError>
    requires some { 1 ≤ length words.now }
    requires few { length words.now ≤ 9 }
    ensures text { IfOk result (λ machine. machine.text ≡ words.now) }
    ensures harts { IfOk result (λ machine. length machine.harts ≡ 1) }
{
    let words = words.to_vec(alloc)?;
    let data = DATA.to_vec(alloc)?;
    Machine::new(alloc, 0x0001_0000, words, data, 1)
}

/// A log of this many turns of one hart.
fn turns_of_one(alloc: Global, count: u64) -> Result<TurnLog, AllocError>
    requires some { 1 ≤ count }
    requires few { count ≤ 10 }
    ensures harts { IfOk result (λ log. log.harts ≡ 1) }
    ensures turns { IfOk result (λ log. 0 < length log.turns) }
{
    let mut log = TurnLog::new(alloc, 1);
    log.push_run(0, count)?;
    Ok(log)
}

/// All these lines, one after the other.
fn joined(alloc: Global, lines: &[&str]) -> Result<String, AllocError> {
    let mut all = String::new(alloc);
    for line in lines {
        all.push_str(line)?;
    }
    Ok(all)
}

/// The lines of this many turns of one hart over these words, which come in one piece.
fn traced<R: Abort>(
    rt: &R,
    alloc: Global,
    words: &[u32],
    turns: u64,
    wanted: &TurnsWanted,
    lines: &[&str],
) -> Result<(), Fail>
    requires some { 1 ≤ length words.now }
    requires few { length words.now ≤ 9 }
    requires turns { 1 ≤ turns }
    requires few_turns { turns ≤ 10 }
{
    let text = TracedText::of(alloc, words)?;
    let mut machine = one_hart(alloc, words)?;
    let log = turns_of_one(alloc, turns)?;
    let piece = trace_piece(alloc, &mut machine, &text, &log, wanted, 0)?;
    let all = joined(alloc, lines)?;
    assert_eq!(rt; str::from_utf8(piece.text.as_slice()), Ok(all.as_str()));
    same(rt, &piece.next, &turns);
    Ok(())
}

#[test]
fn all_turns(rt: HostRuntime) -> Result<(), Fail> {
    traced(&rt, rt.alloc(), &WORDS, 10, &ALL, &LINES)
}

#[test]
fn a_trap(rt: HostRuntime) -> Result<(), Fail> {
    traced(&rt, rt.alloc(), &TRAP, 2, &ALL, &TRAP_LINES)
}

#[test]
fn turns_between(rt: HostRuntime) -> Result<(), Fail> {
    let wanted = TurnsWanted {
        from: 3,
        to: 9,
        ..ALL
    };
    traced(&rt, rt.alloc(), &WORDS, 10, &wanted, &LINES[3..10])
}

#[test]
fn turns_of_another_hart(rt: HostRuntime) -> Result<(), Fail> {
    let wanted = TurnsWanted {
        hart: Some(1),
        ..ALL
    };
    traced(&rt, rt.alloc(), &WORDS, 10, &wanted, &[])
}

/// Those that touch a word, whose first byte no element may have.
#[test]
fn turns_on_a_word(rt: HostRuntime) -> Result<(), Fail> {
    let wanted = TurnsWanted {
        address: Some(0x0020_0008),
        ..ALL
    };
    traced(&rt, rt.alloc(), &WORDS, 10, &wanted, &LINES[6..8])
}
