//! The end of a board.

ghost use Rattle.std.specs.Prelude.{◌≡◌, ℕ, ◌<◌, ◌≤◌, List, [], All, slice_index};
ghost use Rattle.std.specs.Mem.Slots.{slots_items, slots_len, IsFull};
ghost use Rattle.board.specs.Rule.{most_harts, words_of_board};
ghost use Rattle.board.specs.Closing.{HasItsWord, SawNoMore};
ghost use Rattle.board.specs.Ending.{Ends};
ghost use Rattle.board.specs.Tokens.{name_of, IsSeatOf, IsGlanceOf};

use crate::boards::{Board, BoardSeat, Closing, Glance};
use crate::rule::{Enter, Gather};
use atomic_table::Closed;
use std::alloc::Global;

impl Board {
    /// The numbers of the harts, 0 where there is no hart. They are the numbers of the seats that are given,
    /// and no glance that is given saw more.
    pub fn close(self, seats: Vec<BoardSeat>, glances: Vec<Glance>) -> [u64; 8]
        requires seats { All (IsSeatOf (name_of self)) seats.items }
        requires glances { All (IsGlanceOf (name_of self)) glances.items }
        ensures numbers { All (HasItsWord result) seats.items }
        ensures rest { (hart : ℕ) → self.harts ≤ hart → hart < most_harts → slice_index result hart ≡ 0 }
        ensures seen { All (SawNoMore result) glances.items }
    {
        let mut closing = self.begin_close();
        closing.take_seats(seats);
        closing.take_glances(glances);
        closing.finish()
    }

    /// Ends the board: what is given back one by one is then compared with its words.
    pub fn begin_close(self) -> Closing
        ensures { (name_of result.board ≡ name_of self) × (result.board.harts ≡ self.harts) }
    {
        let (_, gatherer) = self.table.shared.load_new_seat::<Enter>(0);
        Closing {
            board: self,
            gatherer,
        }
    }
}

impl Closing {
    /// A seat comes back.
    pub fn take_seat(&mut self, seat: BoardSeat)
        requires { IsSeatOf (name_of self.old.board) seat }
        ensures board { self.new.board ≡ self.old.board }
        ensures known { (numbers : List ℕ) → Ends self.new numbers → Ends self.old numbers × HasItsWord numbers seat }
    {
        let BoardSeat { token, .. } = seat;
        let board = &self.board;
        board
            .table
            .shared
            .join_seat::<Gather>(&mut self.gatherer, token);
    }

    /// A glance comes back.
    pub fn take_glance(&mut self, glance: Glance)
        requires { IsGlanceOf (name_of self.old.board) glance }
        ensures board { self.new.board ≡ self.old.board }
        ensures known { (numbers : List ℕ) → Ends self.new numbers → Ends self.old numbers × SawNoMore numbers glance }
    {
        let Glance { token } = glance;
        let board = &self.board;
        board
            .table
            .shared
            .join_seat::<Gather>(&mut self.gatherer, token);
    }

    // Seats come back.
    fn take_seats(&mut self, mut seats: Vec<BoardSeat>)
        requires { All (IsSeatOf (name_of self.old.board)) seats.items }
        ensures board { self.new.board ≡ self.old.board }
        ensures known { (numbers : List ℕ) → Ends self.new numbers → Ends self.old numbers
            × All (HasItsWord numbers) seats.items }
    {
        while let Some(seat) = seats.pop() {
            self.take_seat(seat);
        }
    }

    // Glances come back.
    fn take_glances(&mut self, mut glances: Vec<Glance>)
        requires { All (IsGlanceOf (name_of self.old.board)) glances.items }
        ensures board { self.new.board ≡ self.old.board }
        ensures known { (numbers : List ℕ) → Ends self.new numbers → Ends self.old numbers
            × All (SawNoMore numbers) glances.items }
    {
        while let Some(glance) = glances.pop() {
            self.take_glance(glance);
        }
    }

    /// The numbers of the harts, 0 where there is no hart.
    pub fn finish(self) -> [u64; 8]
        ensures ends { Ends self result }
        ensures rest { (hart : ℕ) → self.board.harts ≤ hart → hart < most_harts → slice_index result hart ≡ 0 }
    {
        let Closing { board, gatherer } = self;
        let Board { table, harts: _ } = board;
        let closed = table.close_with(gatherer);
        let words = first_words(&closed);
        closed.free();
        words
    }
}

// The words of the harts.
fn first_words(closed: &Closed<(), Global>) -> [u64; 8]
    requires words { IsFull closed.now.words }
    requires places { slots_len closed.now.words ≡ words_of_board }
    ensures { (hart : ℕ) → hart < most_harts → slice_index result hart
        ≡ slice_index (slots_items closed.now.words) hart }
{
    let mut words = [0; 8];
    for hart in 0..8 {
        words[hart] = closed.word(hart);
    }
    words
}
