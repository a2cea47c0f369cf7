//! A shared machine's end.

ghost use Rattle.std.specs.Prelude.{◌≡◌, ℕ, ◌<◌, ◌≤◌, ◌↔◌, Bool, true, All, IsTrue, IsOk, IfOk, IfErr, slice_index};
ghost use Rattle.multi_hart.specs.Run.{State};
ghost use Rattle.turn_log.specs.TurnLog.{IsLog};
ghost use Rattle.board.specs.Tokens.{name_of};
ghost use Rattle.shared_machine.specs.Log.{BeginsWith, state_after};
ghost use Rattle.shared_machine.specs.Seats.{IsSeatOf, has_hart, has_all, hart};
ghost use Rattle.shared_machine.specs.Endings.{IsToldIn};

use crate::ledgers::Ledgers;
use crate::origins::Origin;
use crate::seats::Seat;
use crate::shared::Shared;
use multi_hart::Machine;
use turn_log::TurnLog;

impl<O: Origin, F: Ledgers> Shared<O, F> {
    /// The machine, its log, and each hart's number of turns, 0 where there is no hart. All seats have to be given,
    /// else they come back with the machine. It takes no memory.
    pub fn close(
        self,
        seats: Vec<Seat<O, F>>,
    ) -> Result<(Machine, TurnLog, [u64; 8]), (Shared<O, F>, Vec<Seat<O, F>>)>
        requires { All (IsSeatOf (name_of self.board)) seats.items }
        ensures exact { IsOk result ↔ IsTrue (has_all O.harts seats.items) }
        ensures machine { IfOk result (λ ended. ended.0 ≡ state_after O.image O.harts ended.1.turns) }
        ensures begins { IfOk result (λ ended. BeginsWith ended.1.turns O.resumed) }
        ensures harts { IfOk result (λ ended. ended.1.harts ≡ O.harts) }
        ensures log { IfOk result (λ ended. IsLog ended.1) }
        ensures told { IfOk result (λ ended. All (IsToldIn O.image O.harts ended.1.turns ended.2) seats.items) }
        ensures rest { IfOk result (λ ended. (hart : ℕ) → O.harts ≤ hart → hart < 8 → slice_index ended.2 hart ≡ 0) }
        ensures back { IfErr result (λ back. (back.0 ≡ self) × (back.1 ≡ seats)) }
    {
        if !has_all(&seats, self.board.harts()) {
            return Err((self, seats));
        }
        Ok(self.settle(seats))
    }

    /// The same, whichever seats are given.
    fn settle(self, mut seats: Vec<Seat<O, F>>) -> (Machine, TurnLog, [u64; 8])
        requires { All (IsSeatOf (name_of self.board)) seats.items }
        ensures machine { result.0 ≡ state_after O.image O.harts result.1.turns }
        ensures begins { BeginsWith result.1.turns O.resumed }
        ensures harts { result.1.harts ≡ O.harts }
        ensures log { IsLog result.1 }
        ensures told { All (IsToldIn O.image O.harts result.1.turns result.2) seats.items }
        ensures rest { (hart : ℕ) → O.harts ≤ hart → hart < 8 → slice_index result.2 hart ≡ 0 }
    {
        let Shared {
            guarded,
            board,
            glances_left: _,
        } = self;
        let mut guarded = guarded.into_inner();
        let mut closing = board.begin_close();
        while let Some(seat) = seats.pop() {
            let Seat {
                mut shares,
                place,
                glance,
                ..
            } = seat;
            guarded.agree(&mut shares);
            drop(shares);
            closing.take_seat(place);
            closing.take_glance(glance);
        }
        let (machine, log) = guarded.into_parts();
        (machine, log, closing.finish())
    }
}

/// Whether each of this many harts has a seat.
fn has_all<O: Origin, F: Ledgers>(seats: &[Seat<O, F>], harts: usize) -> bool
    ensures { result ≡ has_all harts seats.now }
{
    for hart in 0..harts {
        if !has_hart(seats, hart) {
            return false;
        }
    }
    true
}

/// Whether a hart has a seat.
fn has_hart<O: Origin, F: Ledgers>(seats: &[Seat<O, F>], hart: usize) -> bool
    ensures { result ≡ has_hart seats.now hart }
{
    seats.iter().any(|seat| seat.hart() == hart)
}
