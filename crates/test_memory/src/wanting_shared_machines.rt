//! Boards and shared machines, and their turns.

ghost use Rattle.std.specs.Prelude.{◌≡◌, [], All, IfSome};
ghost use Rattle.board.specs.Tokens.{name_of};
ghost use Rattle.shared_machine.specs.Seats.{IsSeatOf};
ghost use Rattle.shared_machine.specs.Tallies.{AreNamed};

use crate::machines::{counter, turns};
use crate::wanting::{Answer, TRIES, is_answered, refused_again};
use board::Board;
use loader::Image;
use rv_insn::Outcome;
use shared_machine::{Blanks, Ledgers, Origin, Seat, Shared, TurnRefusal};
use std::alloc::{AllocError, Global};
use std::marker::Brand;
use std::process::Abort;
use std::sync::Wait;
use std::test::Fail;
use turn_log::TurnLog;

/// A board is made.
fn make_board(alloc: Global) -> Answer {
    let (board, seats, glances) = Board::new(alloc, 2)?;
    Ok(board.harts() == 2 && seats.len() == 2 && glances.len() == 10)
}

/// A machine is made that goes on from the log of six turns of hart 0 and five of hart 1.
fn resume<O: Origin, F: Ledgers>(
    alloc: Global,
    image: Image,
    log: TurnLog,
    blanks: Blanks,
) -> Answer
    requires image { image ≡ O.image }
    requires harts { log.harts ≡ O.harts }
    requires resumed { log.turns ≡ O.resumed }
    requires blanks { AreNamed F.numbers F.tallies blanks }
{
    let (shared, seats) = Shared::<O, F>::resume(alloc, image, log, blanks)?;
    let are_right = match seats.as_slice() {
        [first, second] => first.number() == 6 && second.number() == 5,
        _ => false,
    };
    Ok(are_right && shared.board().harts() == 2)
}

/// The last of some seats.
fn last_seat<O: Origin, F: Ledgers>(
    shared: &Shared<O, F>,
    seats: &mut Vec<Seat<O, F>>,
) -> Option<Seat<O, F>>
    requires { All (IsSeatOf (name_of shared.now.board)) seats.old.items }
    ensures { IfSome result (IsSeatOf (name_of shared.now.board)) }
{
    let _ = shared;
    seats.pop()
}

/// The first turn of a seat, or all of its turns at once. Where they aren't made, it has made none.
fn turn<O: Origin, F: Ledgers, R: Wait>(
    rt: &R,
    shared: &Shared<O, F>,
    seat: &mut Seat<O, F>,
    batched: bool,
) -> Answer
    requires { IsSeatOf (name_of shared.now.board) seat.old }
    ensures { IsSeatOf (name_of shared.now.board) seat.new }
{
    let refusal = if batched {
        match shared.turns(rt, seat, 64) {
            Ok(batch) => return Ok((batch.made, batch.last) == (4, Outcome::Finished)),
            Err(refusal) => refusal,
        }
    } else {
        match shared.turn(rt, seat) {
            Ok(report) => return Ok((report.number, report.outcome) == (1, Outcome::Stepped)),
            Err(refusal) => refusal,
        }
    };
    if refusal == TurnRefusal::OutOfMemory && seat.number() == 0 {
        Err(AllocError)
    } else {
        Ok(false)
    }
}

/// A machine is made, and turns of one seat, once more where they are refused.
fn open<O: Origin, F: Ledgers, R: Wait>(
    rt: &R,
    alloc: Global,
    image: Image,
    blanks: Blanks,
    batched: bool,
) -> Answer
    requires image { image ≡ O.image }
    requires harts { O.harts ≡ 2 }
    requires resumed { O.resumed ≡ [] }
    requires blanks { AreNamed F.numbers F.tallies blanks }
{
    let (shared, mut seats) = Shared::<O, F>::new(alloc, image, 2, blanks)?;
    let Some(mut seat) = last_seat(&shared, &mut seats) else {
        return Ok(false);
    };
    match turn(rt, &shared, &mut seat, batched) {
        Err(AllocError) => turn(rt, &shared, &mut seat, batched),
        answer => answer,
    }
}

/// A machine is made from the log.
fn check_resumed<R: Abort + AllocGlobal>(rt: &R) -> Result<(), Fail> {
    let alloc = rt.alloc();
    for _ in 0..TRIES {
        let (image, log) = (counter(alloc)?, turns(alloc)?);
        if is_answered(rt, resume::<Brand, Brand>(alloc, image, log, Blanks::new())) {
            return Ok(());
        }
    }
    Err(refused_again())
}

/// A machine is made at the start, and turns.
fn check_opened<R: Wait + Abort + AllocGlobal>(rt: &R, batched: bool) -> Result<(), Fail> {
    let alloc = rt.alloc();
    for _ in 0..TRIES {
        let image = counter(alloc)?;
        let opened = open::<Brand, Brand, R>(rt, alloc, image, Blanks::new(), batched);
        if is_answered(rt, opened) {
            return Ok(());
        }
    }
    Err(refused_again())
}

/// The calls of boards and shared machines that start no thread.
pub fn check_shared<R: Wait + Abort + AllocGlobal>(rt: &R) -> Result<(), Fail> {
    let alloc = rt.alloc();
    if !is_answered(rt, make_board(alloc)) && !is_answered(rt, make_board(alloc)) {
        return Err(refused_again());
    }
    check_resumed(rt)?;
    check_opened(rt, false)?;
    check_opened(rt, true)
}
