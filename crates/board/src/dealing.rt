//! A new board, with its seats and glances.

ghost use Rattle.std.specs.Prelude.{◌≡◌, ◌+◌, ◌<◌, ◌≤◌, [], ◌∷◌, All, drop, length, IfOk};
ghost use Rattle.board.specs.Rule.{most_harts, at_start};
ghost use Rattle.board.specs.Closing.{IsNewSeat, AreNewSeats, IsUnused, IsNewGlance};
ghost use Rattle.board.specs.Tokens.{name_of};

use crate::boards::{Board, BoardSeat, BoardToken, Glance};
use crate::rule::{DealGlance, DealSeat, Enter};
use atomic_table::Table;
use std::alloc::{AllocError, Global};

/// This many glances beside one for each seat.
const MORE_GLANCES: usize = 8;

impl Board {
    /// A board of 1 to 8 harts whose numbers are 0, with no stop asked. It gives a seat for each hart, in
    /// order, and 8 glances more than seats.
    pub fn new(
        alloc: Global,
        harts: usize,
    ) -> Result<(Board, Vec<BoardSeat>, Vec<Glance>), AllocError>
        requires some { 1 ≤ harts }
        requires few { harts ≤ most_harts }
        ensures board { IfOk result (λ made. made.0.harts ≡ harts) }
        ensures all_seats { IfOk result (λ made. length made.1.items ≡ harts) }
        ensures seats { IfOk result (λ made. AreNewSeats (name_of made.0) 0 made.1.items) }
        ensures unused { IfOk result (λ made. All (IsUnused (name_of made.0)) made.1.items) }
        ensures all_glances { IfOk result (λ made. length made.2.items ≡ harts + 8) }
        ensures glances { IfOk result (λ made. All (IsNewGlance (name_of made.0)) made.2.items) }
    {
        let (table, mut dealer) = Table::of_words(alloc, &[0; 9], &harts)?;
        let board = Board { table, harts };
        let seats = board.deal_seats(alloc, &mut dealer)?;
        let glances = board.deal_glances(alloc, &mut dealer, harts + MORE_GLANCES)?;
        Ok((board, seats, glances))
    }

    /// One glance more, which has seen nothing.
    pub fn new_glance(&self) -> Glance
        ensures { IsNewGlance (name_of self.now) result }
    {
        let (_, token) = self.table.shared.load_new_seat::<Enter>(0);
        Glance { token }
    }

    // The seat of the first hart that the dealer counts.
    fn deal_seat(&self, dealer: &mut BoardToken, hart: usize) -> BoardSeat
        requires of { dealer.old.table_id ≡ name_of self.now }
        requires hart { hart < most_harts }
        requires first { dealer.old.me.0.counts ≡ (hart, 0) ∷ drop 1 dealer.old.me.0.counts }
        ensures seat { IsNewSeat (name_of self.now) hart result }
        ensures of { dealer.new.table_id ≡ name_of self.now }
        ensures rest { dealer.new.me.0.counts ≡ drop 1 dealer.old.me.0.counts }
        ensures slots { dealer.new.me.1 ≡ dealer.old.me.1 }
    {
        let token = self.table.shared.split_seat::<DealSeat>(dealer);
        BoardSeat {
            hart,
            number: 0,
            token,
        }
    }

    // The seats of all harts.
    fn deal_seats(
        &self,
        alloc: Global,
        dealer: &mut BoardToken,
    ) -> Result<Vec<BoardSeat>, AllocError>
        requires of { dealer.old.table_id ≡ name_of self.now }
        requires all { dealer.old.me.0.counts ≡ at_start 0 self.now.harts }
        ensures all { IfOk result (λ seats. length seats.items ≡ self.now.harts) }
        ensures new { IfOk result (λ seats. AreNewSeats (name_of self.now) 0 seats.items) }
        ensures unused { IfOk result (λ seats. All (IsUnused (name_of self.now)) seats.items) }
        ensures of { dealer.new.table_id ≡ name_of self.now }
    {
        let mut seats = Vec::new(alloc);
        for hart in 0..self.harts {
            let seat = self.deal_seat(dealer, hart);
            seats.push(seat)?;
        }
        Ok(seats)
    }

    // A glance that has seen nothing.
    fn deal_glance(&self, dealer: &mut BoardToken) -> Glance
        requires { dealer.old.table_id ≡ name_of self.now }
        ensures glance { IsNewGlance (name_of self.now) result }
        ensures of { dealer.new.table_id ≡ name_of self.now }
    {
        let token = self.table.shared.split_seat::<DealGlance>(dealer);
        Glance { token }
    }

    // This many glances.
    fn deal_glances(
        &self,
        alloc: Global,
        dealer: &mut BoardToken,
        count: usize,
    ) -> Result<Vec<Glance>, AllocError>
        requires { dealer.old.table_id ≡ name_of self.now }
        ensures all { IfOk result (λ glances. length glances.items ≡ count) }
        ensures new { IfOk result (λ glances. All (IsNewGlance (name_of self.now)) glances.items) }
        ensures of { dealer.new.table_id ≡ name_of self.now }
    {
        let mut glances = Vec::new(alloc);
        for _dealt in 0..count {
            let glance = self.deal_glance(dealer);
            glances.push(glance)?;
        }
        Ok(glances)
    }
}
