//! The rule of the table that carries a board, and the names of the steps on it.

ghost use Rattle.std.specs.Prelude.{[], false};
ghost use Rattle.board.specs.Rule.{Stands, known, nothing, at_start};
ghost use Rattle.board.specs.Steps.{Adds, Looks, Asks, Hears, Enters, without_first, first_alone, both};

use crate::known::SeatKnowledge;
use atomic_table::{Join, Play, Split, TableRule};

/// The rule of a board. Its key is the number of harts.
pub struct Rule;

impl TableRule<(), SeatKnowledge, usize> for Rule {
    ghost holds = { λ harts table. Stands harts table.words table.views };

    ghost first = { λ harts. known (at_start 0 harts) [] false false };
}

/// A seat's word becomes more.
pub struct Add;

impl Play<(), SeatKnowledge> for Add {
    ghost then = { Adds };
}

/// A seat's word is read.
pub struct Look;

impl Play<(), SeatKnowledge> for Look {
    ghost then = { Looks };
}

/// A stop is asked.
pub struct Ask;

impl Play<(), SeatKnowledge> for Ask {
    ghost then = { Asks };
}

/// The stop word is read.
pub struct Hear;

impl Play<(), SeatKnowledge> for Hear {
    ghost then = { Hears };
}

/// A new seat takes over a hart.
pub struct DealSeat;

impl Split<SeatKnowledge> for DealSeat {
    ghost left = { without_first };

    ghost right = { first_alone };
}

/// A new glance knows nothing.
pub struct DealGlance;

impl Split<SeatKnowledge> for DealGlance {
    ghost left = { λ token. token };

    ghost right = { λ token. nothing };
}

/// What two tokens know becomes what one knows.
pub struct Gather;

impl Join<SeatKnowledge> for Gather {
    ghost both = { both };

    ghost spent = { nothing };
}

/// A token that knows nothing comes.
pub struct Enter;

impl Play<(), SeatKnowledge> for Enter {
    ghost then = { Enters };
}
