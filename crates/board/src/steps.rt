//! The steps on a board. Each is one atomic exchange on one word.

ghost use Rattle.std.specs.Prelude.{◌≡◌, ◌≢◌, ℕ, ◌+◌, ◌<◌, ◌≤◌, true};
ghost use Rattle.board.specs.Rule.{most_harts, most_number};
ghost use Rattle.board.specs.Tokens.{name_of, IsSeatOf, IsGlanceOf, seen, has_asked, has_seen_stop};

use crate::boards::{Board, BoardSeat, Glance};
use crate::rule::{Add, Ask, Hear, Look};

/// The place of the word that says whether a stop was asked.
const STOP: usize = 8;

impl Board {
    /// How many harts there are.
    pub fn harts(&self) -> usize
        ensures { result ≡ self.now.harts }
    {
        self.harts
    }

    /// Adds to the seat's number. It stays at most 2^40.
    pub fn add(&self, seat: &mut BoardSeat, k: u64)
        requires of { IsSeatOf (name_of self.now) seat.old }
        requires room { seat.old.number + k ≤ most_number }
        ensures of { IsSeatOf (name_of self.now) seat.new }
        ensures hart { seat.new.hart ≡ seat.old.hart }
        ensures number { seat.new.number ≡ seat.old.number + k }
    {
        self.table
            .shared
            .fetch_add::<Add>(&mut seat.token, seat.hart, k);
        seat.number += k;
    }

    /// The seat's number. It is its hart's word, to which no other seat adds, so that no word has to be read.
    pub fn own(&self, seat: &BoardSeat) -> u64
        requires { IsSeatOf (name_of self.now) seat.now }
        ensures { result ≡ seat.now.number }
    {
        let BoardSeat { number, .. } = seat;
        *number
    }

    /// Looks at a hart's word.
    pub fn look(&self, glance: &mut Glance, hart: usize) -> u64
        requires of { IsGlanceOf (name_of self.now) glance.old }
        requires hart { hart < self.now.harts }
        ensures of { IsGlanceOf (name_of self.now) glance.new }
        ensures seen { result ≡ seen glance.new hart }
        ensures later { seen glance.old hart ≤ result }
        ensures others { (other : ℕ) → other ≢ hart → seen glance.new other ≡ seen glance.old other }
        ensures stop { (has_asked glance.new ≡ has_asked glance.old)
            × (has_seen_stop glance.new ≡ has_seen_stop glance.old) }
    {
        self.table.shared.load::<Look>(&mut glance.token, hart)
    }

    /// Asks for a stop. No call takes it back.
    pub fn ask_stop(&self, glance: &mut Glance)
        requires { IsGlanceOf (name_of self.now) glance.old }
        ensures of { IsGlanceOf (name_of self.now) glance.new }
        ensures asked { has_asked glance.new ≡ true }
        ensures same { (seen glance.new ≡ seen glance.old) × (has_seen_stop glance.new ≡ has_seen_stop glance.old) }
    {
        self.table.shared.store::<Ask>(&mut glance.token, STOP, 1);
    }

    /// Whether a stop was asked.
    pub fn stop_asked(&self, glance: &mut Glance) -> bool
        requires { IsGlanceOf (name_of self.now) glance.old }
        ensures of { IsGlanceOf (name_of self.now) glance.new }
        ensures seen { result ≡ has_seen_stop glance.new }
        ensures asked { has_asked glance.old ≡ true → result ≡ true }
        ensures stays { has_seen_stop glance.old ≡ true → result ≡ true }
        ensures same { (seen glance.new ≡ seen glance.old) × (has_asked glance.new ≡ has_asked glance.old) }
    {
        self.table.shared.load::<Hear>(&mut glance.token, STOP) != 0
    }
}

impl BoardSeat {
    /// Which hart it has, from 0 on.
    pub fn hart(&self) -> usize
        ensures value { result ≡ self.now.hart }
        ensures below { result < most_harts }
    {
        self.hart
    }

    /// The number that it has added up. [`Board::own`] answers the same.
    pub fn number(&self) -> u64
        ensures value { result ≡ self.now.number }
        ensures most { result ≤ most_number }
    {
        self.number
    }
}
