//! Numbers and a stop on a board.

ghost use Rattle.std.specs.Prelude.{◌≡◌, All, IfOk};
ghost use Rattle.board.specs.Closing.{IsNewGlance, IsUnused};
ghost use Rattle.board.specs.Tokens.{name_of};

use board::{Board, BoardSeat, Glance};
use std::test::Fail;

/// The last of some seats to which nothing was added.
fn last_seat(board: &Board, seats: &mut Vec<BoardSeat>) -> Result<BoardSeat, Fail>
    requires { All (IsUnused (name_of board.now)) seats.old.items }
    ensures rest { All (IsUnused (name_of board.now)) seats.new.items }
    ensures seat { IfOk result (IsUnused (name_of board.now)) }
{
    let _ = board;
    match seats.pop() {
        Some(seat) => Ok(seat),
        None => Err(Fail::new("no seat is left")),
    }
}

/// The last of some glances that have seen nothing.
fn last_glance(board: &Board, glances: &mut Vec<Glance>) -> Result<Glance, Fail>
    requires { All (IsNewGlance (name_of board.now)) glances.old.items }
    ensures rest { All (IsNewGlance (name_of board.now)) glances.new.items }
    ensures glance { IfOk result (IsNewGlance (name_of board.now)) }
{
    let _ = board;
    match glances.pop() {
        Some(glance) => Ok(glance),
        None => Err(Fail::new("no glance is left")),
    }
}

#[test]
fn looks_see_what_was_added(rt: HostRuntime) -> Result<(), Fail> {
    let (board, mut seats, mut glances) = Board::new(rt.alloc(), 2)?;
    let mut second = last_seat(&board, &mut seats)?;
    let mut first = last_seat(&board, &mut seats)?;
    let mut glance = last_glance(&board, &mut glances)?;
    assert_eq!(rt; (first.hart(), second.hart()), (0, 1));
    assert_eq!(rt; board.look(&mut glance, 1), 0);
    board.add(&mut second, 5);
    board.add(&mut first, 3);
    board.add(&mut second, (1 << 40) - 5);
    assert_eq!(rt; board.look(&mut glance, 0), 3);
    assert_eq!(rt; board.look(&mut glance, 1), 1 << 40);
    assert_eq!(rt; (board.own(&first), board.own(&second)), (3, 1 << 40));
    let mut closing = board.begin_close();
    closing.take_seat(first);
    closing.take_seat(second);
    closing.take_glance(glance);
    let words = closing.finish();
    assert_eq!(rt; words.as_slice(), [3, 1 << 40, 0, 0, 0, 0, 0, 0].as_slice());
    Ok(())
}

#[test]
fn a_stop_is_seen_by_all(rt: HostRuntime) -> Result<(), Fail> {
    let (board, _seats, mut glances) = Board::new(rt.alloc(), 1)?;
    let mut one = last_glance(&board, &mut glances)?;
    let mut other = board.new_glance();
    assert!(rt; !board.stop_asked(&mut one));
    board.ask_stop(&mut other);
    assert!(rt; board.stop_asked(&mut one));
    assert!(rt; board.stop_asked(&mut other));
    Ok(())
}
