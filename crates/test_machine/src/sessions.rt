//! The debugger over 2 ^ 40 turns, and back to places that it keeps.

use crate::comparing::same;
use debugger::{Session, SessionRefusal};
use loader::read_image;
use rv_insn::Reg;
use std::alloc::Global;
use std::process::Abort;
use std::test::Fail;
use turn_log::TurnLog;

/// Two harts may each add 1 to the one word of data, and then finish.
const COUNTER: [u8; 52] = [
    0x48, 0x52, 0x56, 0x31, 0x00, 0x00, 0x01, 0x00, 0x04, 0x00, 0x00, 0x00, 0x04, 0x00, 0x00, 0x00,
    0x00, 0x00, 0x20, 0x00, 0x01, 0x00, 0x00, 0x00, 0x01, 0x00, 0x00, 0x00, 0x04, 0x00, 0x00, 0x00,
    0xb7, 0x02, 0x20, 0x00, 0x13, 0x03, 0x10, 0x00, 0xaf, 0xa3, 0x62, 0x00, 0x73, 0x00, 0x00, 0x00,
    0x00, 0x00, 0x00, 0x00,
];

/// One hart and 2^40 turns.
const IDLE: [u8; 25] = [
    0x48, 0x52, 0x4c, 0x31, 1, 0, 0, 0, 1, 0, 0, 0, 0, 0, 0, 0, //
    0, 0, 0, 0, 0, 0, 1, 0, 0,
];

/// A session over the bytes of an image and of a log.
fn opened(alloc: Global, image: &[u8], log: &[u8]) -> Result<Session, Fail> {
    let image = read_image(alloc, image)?;
    let log = TurnLog::read(alloc, log)?;
    let session = Session::open(alloc, image, log)?;
    Ok(session)
}

/// From the end the stop before it is the last idle turn, and after that there is none.
fn check_last_stop<R: Abort>(rt: &R, alloc: Global, session: &mut Session) {
    let all = session.length();
    same(rt, &session.set_break(0x0001_000c), &Ok(()));
    same(rt, &session.goto(alloc, all), &Ok(()));
    same(rt, &session.reverse(alloc), &Ok(()));
    same(rt, &session.place(), &((1 << 40) - 1));
    same(rt, &session.forward(alloc), &Err(SessionRefusal::NoStop));
}

/// From the start the stops are the hart's last instruction, and then each idle turn.
fn check_first_stops<R: Abort>(rt: &R, alloc: Global, session: &mut Session) {
    same(rt, &session.goto(alloc, 0), &Ok(()));
    for place in 3..6 {
        same(rt, &session.forward(alloc), &Ok(()));
        same(rt, &session.place(), &place);
    }
}

/// A hart that has finished is on its address in each of its turns.
#[test]
fn idle_turns(rt: HostRuntime) -> Result<(), Fail> {
    let alloc = rt.alloc();
    let mut session = opened(alloc, &COUNTER, &IDLE)?;
    check_last_stop(&rt, alloc, &mut session);
    check_first_stops(&rt, alloc, &mut session);
    Ok(())
}

/// A hart that goes round one instruction, `jal x0,0`.
const ROUND: [u8; 36] = [
    0x48, 0x52, 0x56, 0x31, 0x00, 0x00, 0x01, 0x00, 0x01, 0x00, 0x00, 0x00, 0x00, 0x00, 0x00, 0x00,
    0x00, 0x00, 0x00, 0x00, 0x00, 0x00, 0x00, 0x00, 0x00, 0x00, 0x00, 0x00, 0x00, 0x00, 0x00, 0x00,
    0x6f, 0x00, 0x00, 0x00,
];

/// A hart that adds 1 to x5 and to the one word of data, again and again: `lui x6,0x200`, and then `addi x5,x5,1`,
/// `sw x5,0(x6)`, `jal x0,-8`.
const COUNTING: [u8; 52] = [
    0x48, 0x52, 0x56, 0x31, 0x00, 0x00, 0x01, 0x00, 0x04, 0x00, 0x00, 0x00, 0x04, 0x00, 0x00, 0x00,
    0x00, 0x00, 0x00, 0x00, 0x00, 0x00, 0x00, 0x00, 0x00, 0x00, 0x00, 0x00, 0x00, 0x00, 0x00, 0x00,
    0x37, 0x03, 0x20, 0x00, 0x93, 0x82, 0x12, 0x00, 0x23, 0x20, 0x53, 0x00, 0x6f, 0xf0, 0x9f, 0xff,
    0x00, 0x00, 0x00, 0x00,
];

/// One hart and 100,000 turns.
const LONG: [u8; 25] = [
    0x48, 0x52, 0x4c, 0x31, 1, 0, 0, 0, 1, 0, 0, 0, 0, 0, 0, 0, //
    0, 0xa0, 0x86, 1, 0, 0, 0, 0, 0,
];

/// A session is at a place, and has made this many steps.
fn check_at<R: Abort>(rt: &R, session: &Session, place: u64, steps: u64) {
    same(rt, &session.place(), &place);
    same(rt, &session.steps(), &steps);
}

/// Going back makes the turns from the nearest copy alone.
#[test]
fn kept_places(rt: HostRuntime) -> Result<(), Fail> {
    let alloc = rt.alloc();
    let mut session = opened(alloc, &ROUND, &LONG)?;
    same(&rt, &session.goto(alloc, 100_000), &Ok(()));
    check_at(&rt, &session, 100_000, 100_000);
    same(&rt, &session.back(alloc), &Ok(()));
    check_at(&rt, &session, 99_999, 101_695);
    Ok(())
}

/// The last sixteen places are kept: a turn after each of them costs one step, and one after the place before them
/// all that lead there from the start.
#[test]
fn sixteen_places_are_kept(rt: HostRuntime) -> Result<(), Fail> {
    let alloc = rt.alloc();
    let mut session = opened(alloc, &ROUND, &LONG)?;
    same(&rt, &session.goto(alloc, 100_000), &Ok(()));
    for back in 0..16 {
        let place = 98_305 - back * 4_096;
        same(&rt, &session.goto(alloc, place), &Ok(()));
        check_at(&rt, &session, place, 100_001 + back);
    }
    same(&rt, &session.goto(alloc, 32_769), &Ok(()));
    check_at(&rt, &session, 32_769, 100_016 + 32_769);
    Ok(())
}

/// Turns of a hart that has stopped aren't steps.
#[test]
fn passed_turns(rt: HostRuntime) -> Result<(), Fail> {
    let alloc = rt.alloc();
    let mut session = opened(alloc, &COUNTER, &IDLE)?;
    same(&rt, &session.goto(alloc, 1 << 40), &Ok(()));
    check_at(&rt, &session, 1 << 40, 4);
    Ok(())
}

/// At a place x5 and the word are those of the place.
fn check_place<R: Abort>(rt: &R, alloc: Global, session: &mut Session, seed: u64) {
    let place = seed % 100_001;
    let x5 = Reg::new(5).expect(rt, "a register");
    same(rt, &session.goto(alloc, place), &Ok(()));
    same(rt, &session.place(), &place);
    assert_eq!(rt; session.harts(), 1);
    same(rt, &u64::from(session.register(0, x5)), &((place + 1) / 3));
    same(rt, &session.word(0x0020_0000), &Ok(place as u32 / 3));
}

/// The stop before a place, where the word is watched, and the one after that.
fn check_stops<R: Abort>(
    rt: &R,
    alloc: Global,
    session: &mut Session,
    place: u64,
    before: u64,
    after: u64,
) {
    same(rt, &session.goto(alloc, place), &Ok(()));
    same(rt, &session.reverse(alloc), &Ok(()));
    same(rt, &session.place(), &before);
    same(rt, &session.forward(alloc), &Ok(()));
    same(rt, &session.place(), &after);
}

/// Before the first change and after the last one there is no stop, and the place stays.
fn check_no_stops<R: Abort>(rt: &R, alloc: Global, session: &mut Session) {
    same(rt, &session.goto(alloc, 99_999), &Ok(()));
    same(rt, &session.forward(alloc), &Err(SessionRefusal::NoStop));
    same(rt, &session.place(), &99_999);
    same(rt, &session.goto(alloc, 3), &Ok(()));
    same(rt, &session.reverse(alloc), &Err(SessionRefusal::NoStop));
    same(rt, &session.place(), &3);
}

/// Goes back and forth by chance, to more places than there are copies, and then from stop to stop.
fn walk<R: Abort>(rt: &R, alloc: Global, session: &mut Session) {
    let mut seed: u64 = 1;
    for _ in 0..40 {
        seed = seed.wrapping_mul(1_103_515_245).wrapping_add(12_345) % 2_147_483_648;
        check_place(rt, alloc, session, seed);
    }
    same(rt, &session.set_watch(0x0020_0000), &Ok(()));
    check_stops(rt, alloc, session, 50_000, 49_998, 50_001);
    check_stops(rt, alloc, session, 4_096, 4_095, 4_098);
    check_no_stops(rt, alloc, session);
}

/// The answers are those of the places, whichever copies the session goes back to.
#[test]
fn back_and_forth(rt: HostRuntime) -> Result<(), Fail> {
    let alloc = rt.alloc();
    let mut session = opened(alloc, &COUNTING, &LONG)?;
    walk(&rt, alloc, &mut session);
    Ok(())
}
