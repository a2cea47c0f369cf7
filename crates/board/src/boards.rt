//! A board and its tokens.

ghost use Rattle.std.specs.Prelude.{◌≡◌, ◌<◌, ◌≤◌, [], ◌∷◌};
ghost use Rattle.board.specs.Rule.{most_harts, most_number, words_of_board};

use crate::known::SeatKnowledge;
use crate::rule::Rule;
use std::alloc::Global;

/// The right to step on a board, and what is known by it. It has no bytes.
pub(crate) type BoardToken = atomic_table::Seat<(), SeatKnowledge>;

/// A word for each of 1 to 8 harts, and whether a stop was asked. Threads share it by reference.
#[derive(Drop)]
pub struct Board {
    pub(crate) table: atomic_table::Table<(), SeatKnowledge, usize, Rule, Global>,
    pub(crate) harts: usize,
    ghost sized: { (table.shared.table_id.words ≡ words_of_board) × (table.shared.table_id.slots ≡ 0) },
    ghost ruled: { table.shared.key ≡ harts },
    ghost few: { harts ≤ most_harts },
}

/// The seat of one hart, which alone adds to the hart's word. Its number is that word.
#[derive(Drop)]
pub struct BoardSeat {
    pub(crate) hart: usize,
    pub(crate) number: u64,
    pub(crate) token: BoardToken,
    ghost counts: { (token.me.0.counts ≡ (hart, number) ∷ []) × (token.me.1 ≡ []) },
    ghost below: { hart < most_harts },
    ghost most: { number ≤ most_number },
}

/// Looks at a board. What it has seen is kept in proofs alone.
#[derive(Drop)]
pub struct Glance {
    pub(crate) token: BoardToken,
    ghost counts: { (token.me.0.counts ≡ []) × (token.me.1 ≡ []) },
}

/// A board that no thread shares any more, and what has come back of its seats and glances. It is compared
/// with the words at the end.
#[derive(Drop)]
pub struct Closing {
    pub(crate) board: Board,
    pub(crate) gatherer: BoardToken,
    ghost of: { gatherer.table_id ≡ board.table.shared.table_id },
    ghost slots: { gatherer.me.1 ≡ [] },
}
