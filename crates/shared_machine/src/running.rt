//! A machine that runs until its harts stop.

ghost use Rattle.std.specs.Prelude.{◌≡◌, ◌≤◌, All, length, true, false, Err, OnOk, IfOk};
ghost use Rattle.board.specs.Tokens.{name_of};
ghost use Rattle.turn_log.specs.TurnLog.{count_of};
ghost use Rattle.shared_machine.specs.Driving.{AreRunOn, has_refused, refused_by};
ghost use Rattle.shared_machine.specs.Log.{state_after, tally};
ghost use Rattle.shared_machine.specs.Running.{IsRunOf};
ghost use Rattle.shared_machine.specs.Seats.{IsSeatOf, AreSeatsAt};
ghost use Rattle.shared_machine.specs.Tallies.{AreNamed};
ghost use Rattle.shared_machine.specs.declared.refusals.DriveFault.TheVariants.{NoThread};

use crate::books::Blanks;
use crate::driving::drive_to_end;
use crate::ledgers::Ledgers;
use crate::locked::Locked;
use crate::origins::Origin;
use crate::refusals::{DriveFault, TurnRefusal};
use crate::replaying::replay;
use crate::seats::{Ended, Seat};
use crate::shared::Shared;
use loader::Image;
use multi_hart::Machine;
use std::alloc::{AllocError, Global};
use std::marker::Brand;
use std::sync::Wait;
use std::thread::Threads;
use turn_log::TurnLog;

/// How many turns are made under one lock at most.
const BATCH: u64 = 64;

/// The hart that is there where there is one.
const FIRST: usize = 0;

/// Runs the machine of an image on from a log of its turns, in a thread for each of the log's harts, until each has
/// stopped or has made this many turns more. The machine at the end, and the log of all turns, which begins with the
/// one given.
///
/// Where a turn is refused memory, none comes out, and the other harts make no more than the turns that they are at.
/// None comes out where threads can't be had. One hart needs none beside the caller's.
pub fn run<R: Threads + Wait + Sync>(
    rt: &R,
    alloc: Global,
    image: Image,
    log: TurnLog,
    limit: u64,
) -> Result<(Machine, TurnLog), DriveFault>
    ensures machine { IfOk result (λ ran. ran.0 ≡ state_after image log.harts ran.1.turns) }
    ensures log { IfOk result (λ ran. IsRunOf image log.harts log.turns limit ran.1) }
    ensures threads { result ≡ Err NoThread → 2 ≤ log.harts }
{
    if log.harts() == 1 {
        return Ok(run_alone::<Brand>(alloc, image, log, limit)?);
    }
    run_named::<Brand, Brand, R>(rt, alloc, image, log, limit, Blanks::new())
}

/// The same of one hart, whose turns need no lock.
fn run_alone<O: Origin>(
    alloc: Global,
    image: Image,
    log: TurnLog,
    limit: u64,
) -> Result<(Machine, TurnLog), AllocError>
    requires one { O.harts ≡ 1 }
    requires image { image ≡ O.image }
    requires harts { log.harts ≡ O.harts }
    requires resumed { log.turns ≡ O.resumed }
    ensures machine { IfOk result (λ ran. ran.0 ≡ state_after O.image O.harts ran.1.turns) }
    ensures log { IfOk result (λ ran. IsRunOf O.image O.harts O.resumed limit ran.1) }
{
    let mut machine = image.machine(alloc, 1)?;
    replay(&mut machine, &log);
    let mut locked = Locked::<O>::new(machine, log);
    run_on(&mut locked, limit)?;
    Ok(locked.into_parts())
}

/// Makes turns of the one hart of a machine that no thread shares, until it has stopped or has made this many.
fn run_on<O: Origin>(locked: &mut Locked<O>, limit: u64) -> Result<(), AllocError>
    requires { O.harts ≡ 1 }
    ensures { OnOk result (IsRunOf O.image O.harts locked.old.log.turns limit locked.new.log) }
{
    if limit == 0 {
        return Ok(());
    }
    match locked.turns(FIRST, limit) {
        Ok(_) => Ok(()),
        Err(TurnRefusal::OutOfMemory) => Err(AllocError),
        // The hart has made as many turns as it may.
        Err(_) => Ok(()),
    }
}

/// The same of a machine that types name.
fn run_named<O: Origin + Send + Sync, F: Ledgers + Send + Sync, R: Threads + Wait + Sync>(
    rt: &R,
    alloc: Global,
    image: Image,
    log: TurnLog,
    limit: u64,
    blanks: Blanks,
) -> Result<(Machine, TurnLog), DriveFault>
    requires image { image ≡ O.image }
    requires harts { log.harts ≡ O.harts }
    requires resumed { log.turns ≡ O.resumed }
    requires blanks { AreNamed F.numbers F.tallies blanks }
    ensures machine { IfOk result (λ ran. ran.0 ≡ state_after O.image O.harts ran.1.turns) }
    ensures log { IfOk result (λ ran. IsRunOf O.image O.harts O.resumed limit ran.1) }
{
    let (shared, seats) = Shared::<O, F>::resume(alloc, image, log, blanks)?;
    run_out(rt, shared, seats, limit)
}

/// Drives all seats of a machine, each for this many turns, and closes the machine.
fn run_out<O: Origin + Send + Sync, F: Ledgers + Send + Sync, R: Threads + Wait + Sync>(
    rt: &R,
    shared: Shared<O, F>,
    mut seats: Vec<Seat<O, F>>,
    limit: u64,
) -> Result<(Machine, TurnLog), DriveFault>
    requires all { length seats.items ≡ O.harts }
    requires of { All (IsSeatOf (name_of shared.board)) seats.items }
    requires at { AreSeatsAt (name_of shared.board) (count_of O.resumed) (tally O.image O.harts O.resumed) 0
        seats.items }
    ensures machine { IfOk result (λ ran. ran.0 ≡ state_after O.image O.harts ran.1.turns) }
    ensures log { IfOk result (λ ran. IsRunOf O.image O.harts O.resumed limit ran.1) }
{
    drive_all(rt, &shared, &mut seats, limit)?;
    check_ended(&seats)?;
    let Ok((machine, log, _)) = shared.close(seats) else {
        unreachable!()
    };
    Ok((machine, log))
}

/// Drives all seats.
fn drive_all<O: Origin + Send + Sync, F: Ledgers + Send + Sync, R: Threads + Wait + Sync>(
    rt: &R,
    shared: &Shared<O, F>,
    seats: &mut Vec<Seat<O, F>>,
    limit: u64,
) -> Result<(), DriveFault>
    requires { All (IsSeatOf (name_of shared.now.board)) seats.old.items }
    ensures all { length seats.new.items ≡ length seats.old.items }
    ensures of { All (IsSeatOf (name_of shared.now.board)) seats.new.items }
    ensures driven { OnOk result (AreRunOn (name_of shared.now.board) limit seats.old.items seats.new.items) }
{
    drive_to_end(rt, shared, seats.as_mut_slice(), limit, BATCH)
}

/// Why a thread ended that should have gone on: a turn was refused memory, or a stop was asked, which is asked where
/// threads can't be had.
fn check_ended<O: Origin, F: Ledgers>(seats: &[Seat<O, F>]) -> Result<(), DriveFault>
    ensures memory { OnOk result (has_refused 1 seats.now ≡ false) }
    ensures stopped { OnOk result (has_refused 3 seats.now ≡ false) }
{
    if has_refused(seats, TurnRefusal::OutOfMemory.number()) {
        return Err(DriveFault::OutOfMemory);
    }
    if has_refused(seats, TurnRefusal::StopAsked.number()) {
        return Err(DriveFault::NoThread);
    }
    Ok(())
}

/// Whether a thread of one of the seats ended with the refusal of this number.
fn has_refused<O: Origin, F: Ledgers>(seats: &[Seat<O, F>], number: u8) -> bool
    ensures { result ≡ has_refused number seats.now }
{
    seats.iter().any(|seat| refused_by(seat.ended()) == number)
}

/// The number of the refusal with which a thread ended, 0 where it ended otherwise.
fn refused_by(ended: Option<Ended>) -> u8
    ensures { result ≡ refused_by ended }
{
    match ended {
        None => 0,
        Some(Ended::Halted) => 0,
        Some(Ended::Limit) => 0,
        Some(Ended::Shut) => 0,
        Some(Ended::Refused(why)) => why.number(),
    }
}
