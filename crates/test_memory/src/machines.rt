//! Harts, machines, images, logs and sessions.

use crate::comparing::same;
use debugger::Session;
use hart_core::{Hart, Status};
use loader::{Image, read_image};
use memory::Memory;
use multi_hart::{Machine, UnknownHart};
use rv_insn::{Outcome, Reg, VReg};
use std::alloc::Global;
use std::process::Abort;
use std::test::Fail;
use turn_log::TurnLog;

/// Two harts may each add 1 to the one word of data, and then finish.
pub const COUNTER: [u8; 52] = [
    0x48, 0x52, 0x56, 0x31, 0x00, 0x00, 0x01, 0x00, 0x04, 0x00, 0x00, 0x00, 0x04, 0x00, 0x00, 0x00,
    0x00, 0x00, 0x20, 0x00, 0x01, 0x00, 0x00, 0x00, 0x01, 0x00, 0x00, 0x00, 0x04, 0x00, 0x00, 0x00,
    0xb7, 0x02, 0x20, 0x00, 0x13, 0x03, 0x10, 0x00, 0xaf, 0xa3, 0x62, 0x00, 0x73, 0x00, 0x00, 0x00,
    0x00, 0x00, 0x00, 0x00,
];

/// Two harts and the turns 0 0 0 0 0 1 1 1 1 1 0.
pub const TURNS: [u8; 43] = [
    0x48, 0x52, 0x4c, 0x31, 2, 0, 0, 0, 3, 0, 0, 0, 0, 0, 0, 0, //
    0, 5, 0, 0, 0, 0, 0, 0, 0, 1, 5, 0, 0, 0, 0, 0, 0, 0, 0, 1, 0, 0, 0, 0, 0, 0, 0,
];

/// Where the one word of data lies.
pub const WORD: u32 = 0x0020_0000;

/// The image of the counter.
pub fn counter(alloc: Global) -> Result<Image, Fail> {
    let image = read_image(alloc, &COUNTER)?;
    Ok(image)
}

/// The text of the counter, and a word of data.
pub fn counter_memory(alloc: Global) -> Result<Memory, Fail> {
    let words = [0x0020_02b7, 0x0010_0313, 0x0062_a3af, 0x0000_0073].to_vec(alloc)?;
    let bytes = [0; 4].to_vec(alloc)?;
    Ok(Memory::new(words, bytes))
}

fn x<R: Abort>(rt: &R, number: u8) -> Reg {
    Reg::new(number).expect(rt, "a register")
}

fn v<R: Abort>(rt: &R, number: u8) -> VReg {
    VReg::new(number).expect(rt, "a vector register")
}

/// A hart makes a turn, and one whose instruction means nothing.
pub fn check_hart<R: Abort>(rt: &R, memory: &mut Memory) {
    let mut hart = Hart::new(0x0001_0000, 1, 0);
    same(rt, &hart.step(memory), &Outcome::Stepped);
    same(
        rt,
        &(hart.pc(), hart.register(x(rt, 5))),
        &(0x0001_0004, WORD),
    );
    assert!(rt; matches!(hart.step_with(memory, None), Outcome::Trapped(_)));
    same(rt, &hart.step(memory), &Outcome::Idle);
}

/// What can be read of an image.
pub fn check_image<R: Abort>(rt: &R, image: &Image) {
    same(rt, &image.entry(), &0x0001_0000);
    same(rt, &image.words().len(), &4);
    same(rt, &image.data(), &[0; 4].as_slice());
    match image.output() {
        Some(output) => same(rt, &(output.address, output.stride), &(WORD, 4)),
        None => assert!(rt; false, "no output"),
    }
}

/// Turns one by one, of a hart and of a list.
pub fn check_turns<R: Abort>(rt: &R, machine: &mut Machine) {
    assert!(rt; 1 < machine.harts());
    same(rt, &machine.turn(0), &Outcome::Stepped);
    assert!(rt; 1 < machine.harts());
    same(rt, &machine.run_same(0, 3), &Outcome::Finished);
    same(rt, &machine.run(&[1, 0, 1]), &Ok(()));
    same(rt, &machine.run(&[1, 2, 1]), &Err(UnknownHart { at: 1 }));
    check_machine(rt, machine);
}

/// Hart 0 has finished, and hart 1 is at its last instruction.
fn check_machine<R: Abort>(rt: &R, machine: &Machine) {
    same(rt, &machine.word(WORD), &Some(2));
    same(rt, &machine.word(4), &None);
    assert!(rt; !machine.is_finished());
    assert!(rt; 1 < machine.harts());
    same(
        rt,
        &(machine.pc(1), machine.register(1, x(rt, 7))),
        &(0x0001_000c, 1),
    );
    same(rt, &machine.vector(1, v(rt, 3)), &[0; 16]);
    same(rt, &(machine.vl(1), machine.vtype(1)), &(0, 0x8000_0000));
    assert!(rt; matches!(machine.status(0), Status::Finished));
    assert!(rt; matches!(machine.status(1), Status::Running));
}

/// The log of turns.
pub fn turns(alloc: Global) -> Result<TurnLog, Fail> {
    let log = TurnLog::read(alloc, &TURNS)?;
    Ok(log)
}

/// What can be read of the log.
pub fn check_log<R: Abort>(rt: &R, log: &TurnLog) {
    assert!(rt; !log.is_empty());
    same(rt, &(log.harts(), log.len()), &(2, 11));
    same(rt, &(log.count_of(0), log.count_of(1)), &(6, 5));
    same(
        rt,
        &(log.turn_at(4), log.turn_at(5), log.turn_at(11)),
        &(Some(0), Some(1), None),
    );
    same(rt, &(log.run_at(1), log.run_at(11)), &(Some((0, 4)), None));
}

/// A session that is after the turns of hart 0.
pub fn session(alloc: Global) -> Result<Session, Fail> {
    let mut session = Session::open(alloc, counter(alloc)?, turns(alloc)?)?;
    match session.goto(alloc, 5) {
        Ok(()) => Ok(session),
        Err(_) => Err(Fail::new("no place")),
    }
}

/// What can be read of the session: hart 0 has finished in its fourth turn.
pub fn check_session<R: Abort>(rt: &R, session: &Session) {
    same(
        rt,
        &(session.place(), session.length(), session.steps()),
        &(5, 11, 4),
    );
    same(rt, &session.word(WORD), &Ok(1));
    assert!(rt; session.word(4).is_err());
    assert!(rt; 1 < session.harts());
    same(
        rt,
        &(session.pc(0), session.register(0, x(rt, 5))),
        &(0x0001_000c, WORD),
    );
    same(rt, &session.vector(0, v(rt, 3)), &[0; 16]);
    assert!(rt; matches!(session.status(0), Status::Finished));
    assert!(rt; matches!(session.status(1), Status::Running));
}
