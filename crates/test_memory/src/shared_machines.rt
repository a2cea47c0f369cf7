//! Boards and shared machines, and the test of all calls.

ghost use Rattle.std.specs.Prelude.{◌≡◌, [], All, IfOk};
ghost use Rattle.board.specs.Closing.{IsNewGlance, IsUnused};
ghost use Rattle.board.specs.Tokens.{name_of};
ghost use Rattle.shared_machine.specs.Seats.{IsSeatOf};
ghost use Rattle.shared_machine.specs.Tallies.{AreNamed};

use crate::comparing::same;
use crate::machines::{
    check_hart, check_image, check_log, check_session, check_turns, counter, counter_memory,
    session, turns,
};
use crate::registers::{
    check_comparisons, check_masks, check_operations, check_products, check_registers, check_unit,
};
use crate::words::{check_memory, check_words};
use board::{Board, BoardSeat, Glance};
use loader::Image;
use multi_hart::Machine;
use shared_machine::{Blanks, Ledgers, Origin, Seat, Shared};
use std::marker::Brand;
use std::process::Abort;
use std::test::Fail;
use turn_log::TurnLog;

/// The last of some seats to which nothing was added.
fn last_seat(board: &Board, seats: &mut Vec<BoardSeat>) -> Result<BoardSeat, Fail>
    requires { All (IsUnused (name_of board.now)) seats.old.items }
    ensures rest { All (IsUnused (name_of board.now)) seats.new.items }
    ensures seat { IfOk result (IsUnused (name_of board.now)) }
{
    let _ = board;
    match seats.pop() {
        Some(seat) => Ok(seat),
        None => Err(Fail::new("no seat is left")),
    }
}

/// The last of some glances that have seen nothing.
fn last_glance(board: &Board, glances: &mut Vec<Glance>) -> Result<Glance, Fail>
    requires { All (IsNewGlance (name_of board.now)) glances.old.items }
    ensures rest { All (IsNewGlance (name_of board.now)) glances.new.items }
    ensures glance { IfOk result (IsNewGlance (name_of board.now)) }
{
    let _ = board;
    match glances.pop() {
        Some(glance) => Ok(glance),
        None => Err(Fail::new("no glance is left")),
    }
}

/// What is added to a board of two harts is seen, and so is a stop.
fn check_board<R: Abort + AllocGlobal>(rt: &R) -> Result<(), Fail> {
    let (board, mut seats, mut glances) = Board::new(rt.alloc(), 2)?;
    let mut seat = last_seat(&board, &mut seats)?;
    let mut glance = last_glance(&board, &mut glances)?;
    let mut other = board.new_glance();
    same(rt, &(board.harts(), seat.hart(), seat.number()), &(2, 1, 0));
    board.add(&mut seat, 5);
    same(rt, &board.own(&seat), &5);
    same(rt, &board.look(&mut glance, 1), &5);
    assert!(rt; !board.stop_asked(&mut other));
    board.ask_stop(&mut glance);
    assert!(rt; board.stop_asked(&mut other));
    let mut closing = board.begin_close();
    closing.take_seat(seat);
    closing.take_glance(glance);
    closing.take_glance(other);
    let words = closing.finish();
    same(rt, &words.as_slice(), &[0, 5, 0, 0, 0, 0, 0, 0].as_slice());
    Ok(())
}

/// A board that is closed in one call.
fn check_closed_board<R: Abort + AllocGlobal>(rt: &R) -> Result<(), Fail> {
    let alloc = rt.alloc();
    let (board, _, _) = Board::new(alloc, 1)?;
    let words = board.close(Vec::new(alloc), Vec::new(alloc));
    same(rt, &words.as_slice(), &[0; 8].as_slice());
    Ok(())
}

/// The board, a glance and the seats of a new machine of two harts.
fn check_opened<O: Origin, F: Ledgers, R: Abort + AllocGlobal>(
    rt: &R,
    image: Image,
    blanks: Blanks,
) -> Result<(), Fail>
    requires image { image ≡ O.image }
    requires harts { O.harts ≡ 2 }
    requires resumed { O.resumed ≡ [] }
    requires blanks { AreNamed F.numbers F.tallies blanks }
{
    let (mut shared, seats) = Shared::<O, F>::new(rt.alloc(), image, 2, blanks)?;
    for seat in seats.iter() {
        same(rt, &seat.ended(), &None);
        same(rt, &seat.number(), &0);
    }
    same(rt, &shared.board().harts(), &2);
    assert!(rt; shared.glance().is_some());
    Ok(())
}

/// A machine that is closed.
fn close<O: Origin, F: Ledgers, R: Abort>(rt: &R, shared: Shared<O, F>, seats: Vec<Seat<O, F>>)
    requires { All (IsSeatOf (name_of shared.board)) seats.items }
{
    match shared.close(seats) {
        Ok(ended) => check_end(rt, &ended.0, &ended.1, &ended.2),
        Err(_) => assert!(rt; false, "a seat is missing"),
    }
}

/// No turn was made.
fn check_end<R: Abort>(rt: &R, machine: &Machine, log: &TurnLog, numbers: &[u64; 8]) {
    same(rt, &(machine.harts(), log.len()), &(2, 0));
    same(rt, &numbers.as_slice(), &[0; 8].as_slice());
}

/// A new machine of two harts that is closed.
fn check_closed<O: Origin, F: Ledgers, R: Abort + AllocGlobal>(
    rt: &R,
    image: Image,
    blanks: Blanks,
) -> Result<(), Fail>
    requires image { image ≡ O.image }
    requires harts { O.harts ≡ 2 }
    requires resumed { O.resumed ≡ [] }
    requires blanks { AreNamed F.numbers F.tallies blanks }
{
    let (shared, seats) = Shared::<O, F>::new(rt.alloc(), image, 2, blanks)?;
    close(rt, shared, seats);
    Ok(())
}

/// The calls on registers and memories, machines, logs and sessions.
fn check_values<R: Abort + AllocGlobal>(rt: &R) -> Result<(), Fail> {
    let alloc = rt.alloc();
    check_memory(rt, &mut counter_memory(alloc)?);
    check_hart(rt, &mut counter_memory(alloc)?);
    check_image(rt, &counter(alloc)?);
    check_turns(rt, &mut counter(alloc)?.machine(alloc, 2)?);
    check_log(rt, &turns(alloc)?);
    check_session(rt, &session(alloc)?);
    Ok(())
}

/// Each call answers, whichever allocation is refused before it.
#[test]
fn no_memory_is_taken(rt: HostRuntime) -> Result<(), Fail> {
    check_words(&rt);
    check_operations(&rt);
    check_products(&rt);
    check_comparisons(&rt);
    check_registers(&rt);
    check_masks(&rt);
    check_unit(&rt);
    check_values(&rt)?;
    check_board(&rt)?;
    check_closed_board(&rt)?;
    let image = counter(rt.alloc())?;
    check_opened::<Brand, Brand, HostRuntime>(&rt, image, Blanks::new())?;
    let image = counter(rt.alloc())?;
    check_closed::<Brand, Brand, HostRuntime>(&rt, image, Blanks::new())
}
