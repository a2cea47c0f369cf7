//! Seats that are driven in threads.

ghost use Rattle.std.specs.Prelude.{◌≡◌, [], All};
ghost use Rattle.board.specs.Tokens.{name_of};
ghost use Rattle.shared_machine.specs.Seats.{IsSeatOf};
ghost use Rattle.shared_machine.specs.Tallies.{AreNamed};

use crate::machines::{WORD, counter};
use crate::wanting::{Answer, TRIES, is_answered, refused_again};
use loader::Image;
use multi_hart::Machine;
use shared_machine::{
    AlwaysOpen, Blanks, DriveFault, Ended, Ledgers, Origin, Seat, Shared, TurnRefusal, drive,
    drive_batched,
};
use std::alloc::{AllocError, Global};
use std::marker::Brand;
use std::process::Abort;
use std::sync::Wait;
use std::test::Fail;
use std::thread::Threads;
use turn_log::TurnLog;

/// Drives all seats, each for up to a hundred turns, one under each lock or up to 64.
fn drive_all<O: Origin + Send + Sync, F: Ledgers + Send + Sync, R: Threads + Wait + Sync>(
    rt: &R,
    shared: &Shared<O, F>,
    seats: &mut Vec<Seat<O, F>>,
    batched: bool,
) -> Result<(), DriveFault>
    requires { All (IsSeatOf (name_of shared.now.board)) seats.old.items }
    ensures { All (IsSeatOf (name_of shared.now.board)) seats.new.items }
{
    if batched {
        drive_batched(rt, shared, seats.as_mut_slice(), 100, 64, &AlwaysOpen)
    } else {
        drive(rt, shared, seats.as_mut_slice(), 100, &AlwaysOpen)
    }
}

/// Whether the thread of each seat ended so, or by want of memory where that may be.
fn all_ended<O: Origin, F: Ledgers>(seats: &[Seat<O, F>], so: Ended, or_memory: bool) -> bool {
    for seat in seats {
        let is_so = match seat.ended() {
            Some(Ended::Refused(TurnRefusal::OutOfMemory)) => or_memory,
            ended => ended == Some(so),
        };
        if !is_so {
            return false;
        }
    }
    true
}

/// Whether each hart of a machine has finished, or none has made a turn; the seats' numbers are those of the log.
fn is_at_end(machine: &Machine, log: &TurnLog, numbers: &[u64; 8], finished: bool) -> bool {
    machine.word(WORD) == Some(if finished { 2 } else { 0 })
        && machine.is_finished() == finished
        && log.is_empty() != finished
        && log.count_of(0) == numbers[0]
        && log.count_of(1) == numbers[1]
}

/// Closes a machine, and whether it is so.
fn close<O: Origin, F: Ledgers>(
    shared: Shared<O, F>,
    seats: Vec<Seat<O, F>>,
    finished: bool,
) -> bool
    requires { All (IsSeatOf (name_of shared.board)) seats.items }
{
    match shared.close(seats) {
        Ok(ended) => is_at_end(&ended.0, &ended.1, &ended.2, finished),
        Err(_) => false,
    }
}

/// Whether each hart of driven seats has finished, or turns of some were refused memory.
fn judge<O: Origin, F: Ledgers>(seats: &[Seat<O, F>]) -> Answer {
    if all_ended(seats, Ended::Halted, false) {
        Ok(true)
    } else if all_ended(seats, Ended::Halted, true) {
        Err(AllocError)
    } else {
        Ok(false)
    }
}

/// Drives seats once more of which turns were refused memory.
fn drive_on<O: Origin + Send + Sync, F: Ledgers + Send + Sync, R: Threads + Wait + Sync>(
    rt: &R,
    shared: &Shared<O, F>,
    seats: &mut Vec<Seat<O, F>>,
    batched: bool,
) -> Answer
    requires { All (IsSeatOf (name_of shared.now.board)) seats.old.items }
    ensures { All (IsSeatOf (name_of shared.now.board)) seats.new.items }
{
    let judged = judge(seats);
    if judged.is_ok() {
        return judged;
    }
    if drive_all(rt, shared, seats, batched).is_err() {
        return Err(AllocError);
    }
    judge(seats)
}

/// Two seats are driven, and once more where turns were refused memory. Where no thread could be had they have made
/// none, and make none then, since a stop was asked.
fn drive_both<O: Origin + Send + Sync, F: Ledgers + Send + Sync, R: Threads + Wait + Sync>(
    rt: &R,
    alloc: Global,
    image: Image,
    blanks: Blanks,
    batched: bool,
) -> Answer
    requires image { image ≡ O.image }
    requires harts { O.harts ≡ 2 }
    requires resumed { O.resumed ≡ [] }
    requires blanks { AreNamed F.numbers F.tallies blanks }
{
    let (shared, mut seats) = Shared::<O, F>::new(alloc, image, 2, blanks)?;
    if drive_all(rt, &shared, &mut seats, batched).is_err() {
        let driven = drive_all(rt, &shared, &mut seats, batched);
        let stopped = Ended::Refused(TurnRefusal::StopAsked);
        let is_stopped = driven.is_err() || all_ended(&seats, stopped, false);
        return if close(shared, seats, false) && is_stopped {
            Err(AllocError)
        } else {
            Ok(false)
        };
    }
    match drive_on(rt, &shared, &mut seats, batched) {
        Ok(is_right) => Ok(close(shared, seats, true) && is_right),
        Err(AllocError) => Err(AllocError),
    }
}

/// A machine is made at the start, and driven to its end.
pub fn check_driven<R: Threads + Wait + Abort + AllocGlobal + Sync>(
    rt: &R,
    batched: bool,
) -> Result<(), Fail> {
    let alloc = rt.alloc();
    for _ in 0..TRIES {
        let image = counter(alloc)?;
        let driven = drive_both::<Brand, Brand, R>(rt, alloc, image, Blanks::new(), batched);
        if is_answered(rt, driven) {
            return Ok(());
        }
    }
    Err(refused_again())
}
