//! A machine and its log under one lock: a hart's turn is that hart's, and the log's.

ghost use Rattle.std.specs.Prelude.{◌≡◌, ◌<◌, [], length};

use hart_core::Status;
use loader::{Image, read_image};
use rv_insn::{Outcome, Reg};
use shared_machine::{Locked, Origin};
use std::marker::Brand;
use std::process::Abort;
use std::test::Fail;
use turn_log::TurnLog;

/// The image of `addi x6,x6,1` and `ecall`, without data.
const ADDER: [u8; 40] = [
    0x48, 0x52, 0x56, 0x31, 0x00, 0x00, 0x01, 0x00, 0x02, 0x00, 0x00, 0x00, 0x00, 0x00, 0x00, 0x00,
    0x00, 0x00, 0x00, 0x00, 0x00, 0x00, 0x00, 0x00, 0x00, 0x00, 0x00, 0x00, 0x00, 0x00, 0x00, 0x00,
    0x13, 0x03, 0x13, 0x00, 0x73, 0x00, 0x00, 0x00,
];

/// Where its text begins.
const TEXT: u32 = 0x0001_0000;

/// What a hart has come to: its pc, x6, and how many turns the log has of it.
fn check_hart<O: Origin, R: Abort>(rt: &R, locked: &Locked<O>, hart: usize, came: (u32, u32, u64))
    requires there { hart < length locked.now.machine.harts }
{
    let (pc, sum, turns) = came;
    let x6 = Reg::new(6).expect(rt, "a register");
    assert_eq!(rt; locked.machine().pc(hart), pc);
    assert_eq!(rt; locked.machine().register(hart, x6), sum);
    assert_eq!(rt; locked.log().count_of(hart), turns);
}

/// Turns one by one: each steps its own hart and no other, is logged, and is answered with its outcome.
fn turn_each<O: Origin, R: Abort + AllocGlobal>(rt: &R, image: Image) -> Result<(), Fail>
    requires image { image ≡ O.image }
    requires harts { O.harts ≡ 2 }
    requires resumed { O.resumed ≡ [] }
{
    let alloc = rt.alloc();
    let machine = image.machine(alloc, 2)?;
    let mut locked = Locked::<O>::new(machine, TurnLog::new(alloc, 2));
    assert_eq!(rt; locked.turn(1)?, Outcome::Stepped);
    check_hart(rt, &locked, 0, (TEXT, 0, 0));
    check_hart(rt, &locked, 1, (TEXT + 4, 1, 1));
    assert_eq!(rt; locked.turn(0)?, Outcome::Stepped);
    check_hart(rt, &locked, 0, (TEXT + 4, 1, 1));
    assert_eq!(rt; locked.turn(1)?, Outcome::Finished);
    assert_eq!(rt; locked.turn(1)?, Outcome::Idle);
    check_hart(rt, &locked, 0, (TEXT + 4, 1, 1));
    check_hart(rt, &locked, 1, (TEXT + 4, 1, 3));
    let (machine, log) = locked.into_parts();
    assert_eq!(rt; machine.status(0), Status::Running);
    assert_eq!(rt; machine.status(1), Status::Finished);
    assert_eq!(rt; log.run_at(0), Some((1, 1)));
    assert_eq!(rt; log.run_at(2), Some((1, 2)));
    Ok(())
}

#[test]
fn turns_under_a_lock(rt: HostRuntime) -> Result<(), Fail> {
    let image = read_image(rt.alloc(), &ADDER)?;
    turn_each::<Brand, HostRuntime>(&rt, image)
}
