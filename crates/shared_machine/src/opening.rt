//! A shared machine's beginning.

ghost use Rattle.std.specs.Prelude.{◌≡◌, ◌≤◌, [], All, length, IfOk, OnOk};
ghost use Rattle.board.specs.Tokens.{name_of, IsGlanceOf};
ghost use Rattle.board.specs.Closing as on_board;
ghost use Rattle.shared_machine.specs.Log.{tally};
ghost use Rattle.shared_machine.specs.Seats.{IsSeatOf, AreNewSeats, AreSeatsAt};
ghost use Rattle.shared_machine.specs.Tallies.{AreNamed, AreSharesAt, each, numbers_of, tallies_of, zeros};
ghost use Rattle.turn_log.specs.TurnLog.{IsLog, count_of};

use crate::books::{Blanks, Books, Shares, open_all};
use crate::guarded::GuardedMachine;
use crate::ledgers::Ledgers;
use crate::locked::Locked;
use crate::origins::Origin;
use crate::replaying::replay;
use crate::seats::Seat;
use crate::shared::Shared;
use board::{Board, BoardSeat, Glance};
use loader::Image;
use std::alloc::{AllocError, Global};
use std::sync::Mutex;
use turn_log::TurnLog;

impl<O: Origin, F: Ledgers> Shared<O, F> {
    /// The machine of an image at its start, of 1 to 8 harts, and a seat for each hart, in order.
    pub fn new(
        alloc: Global,
        image: Image,
        harts: usize,
        blanks: Blanks,
    ) -> Result<(Shared<O, F>, Vec<Seat<O, F>>), AllocError>
        requires image { image ≡ O.image }
        requires harts { harts ≡ O.harts }
        requires resumed { O.resumed ≡ [] }
        requires some { 1 ≤ harts }
        requires few { harts ≤ 8 }
        requires blanks { AreNamed F.numbers F.tallies blanks }
        ensures all { IfOk result (λ made. length made.1.items ≡ harts) }
        ensures glances { IfOk result (λ made. made.0.glances_left ≡ 8) }
        ensures of { IfOk result (λ made. All (IsSeatOf (name_of made.0.board)) made.1.items) }
        ensures seats { IfOk result (λ made. AreNewSeats (name_of made.0.board) 0 made.1.items) }
    {
        Shared::resume(alloc, image, TurnLog::new(alloc, harts), blanks)
    }

    /// The machine of an image after the turns of a log, of as many harts as the log has, and a seat for each hart, in
    /// order: the seats' numbers and tallies are those of the log. The log goes on.
    pub fn resume(
        alloc: Global,
        image: Image,
        log: TurnLog,
        blanks: Blanks,
    ) -> Result<(Shared<O, F>, Vec<Seat<O, F>>), AllocError>
        requires image { image ≡ O.image }
        requires harts { log.harts ≡ O.harts }
        requires resumed { log.turns ≡ O.resumed }
        requires blanks { AreNamed F.numbers F.tallies blanks }
        ensures all { IfOk result (λ made. length made.1.items ≡ log.harts) }
        ensures glances { IfOk result (λ made. made.0.glances_left ≡ 8) }
        ensures of { IfOk result (λ made. All (IsSeatOf (name_of made.0.board)) made.1.items) }
        ensures seats { IfOk result (λ made. AreSeatsAt (name_of made.0.board) (count_of log.turns)
            (tally image log.harts log.turns) 0 made.1.items) }
    {
        let harts = log.harts();
        let mut machine = image.machine(alloc, harts)?;
        let tallies = replay(&mut machine, &log);
        let (mut books, shares) = open_all::<F>(blanks);
        let (board, places, glances) = Board::new(alloc, harts)?;
        let mut shares = Vec::from_array(alloc, shares)?;
        shares.truncate(harts);
        let parts = SeatParts {
            shares,
            places,
            glances,
        };
        let seats = take_seats(alloc, &board, &log, &tallies, &mut books, parts)?;
        let locked = Locked::new(machine, log);
        let shared = Shared {
            guarded: Mutex::new(GuardedMachine::new(locked, books)),
            board,
            glances_left: 8,
        };
        Ok((shared, seats))
    }
}

/// What seats are made of: what each knows of its hart's turns, its place on the board, and a glance.
#[derive(Drop)]
struct SeatParts<F: Ledgers> {
    shares: Vec<Shares<F>>,
    places: Vec<BoardSeat>,
    glances: Vec<Glance>,
}

/// The seats of the harts that have these shares and places, with a glance for each. Each has made its hart's turns of
/// the log, and has the tally given; the books then know them too.
fn take_seats<O: Origin, F: Ledgers>(
    alloc: Global,
    board: &Board,
    log: &TurnLog,
    tallies: &[u64; 8],
    books: &mut Books<F>,
    parts: SeatParts<F>,
) -> Result<Vec<Seat<O, F>>, AllocError>
    requires shares { AreSharesAt (λ hart. 0) (λ hart. 0) 0 parts.shares.items }
    requires log { IsLog log.now }
    requires tallies { tallies.now ≡ each (tally O.image O.harts log.now.turns) }
    requires numbers { numbers_of books.old ≡ zeros }
    requires sums { tallies_of books.old ≡ zeros }
    requires places { on_board.AreNewSeats (name_of board.now) 0 parts.places.items }
    requires as_many { length parts.places.items ≡ length parts.shares.items }
    requires harts { log.now.harts ≡ O.harts }
    requires all { length parts.shares.items ≡ O.harts }
    requires enough { length parts.shares.items ≤ length parts.glances.items }
    requires glances { All (IsGlanceOf (name_of board.now)) parts.glances.items }
    ensures all { IfOk result (λ seats. length seats.items ≡ length parts.shares.items) }
    ensures seats { IfOk result (λ seats. AreSeatsAt (name_of board.now) (count_of log.now.turns)
        (tally O.image O.harts log.now.turns) 0 seats.items) }
    ensures numbers { OnOk result (numbers_of books.new ≡ each (count_of log.now.turns)) }
    ensures sums { OnOk result (tallies_of books.new ≡ each (tally O.image O.harts log.now.turns)) }
{
    let mut seats = Vec::new(alloc);
    let SeatParts {
        mut shares,
        mut places,
        mut glances,
    } = parts;
    while let Some(mut one) = shares.pop() {
        let Some(mut place) = places.pop() else {
            unreachable!()
        };
        let Some(glance) = glances.pop() else {
            unreachable!()
        };
        let hart = one.hart();
        let number = log.count_of(hart);
        books.count(&mut one, number, tallies[hart]);
        board.add(&mut place, number);
        seats.push(Seat::new(one, place, glance))?;
    }
    seats.reverse();
    Ok(seats)
}
