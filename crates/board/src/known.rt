//! What a token of a board knows.

ghost use Rattle.std.specs.Prelude.{ℕ, Bool, List};
ghost use Rattle.std.specs.Borrow.{ftrue};

use std::marker::Model;

/// What a seat or a glance of a board knows. No value of it is made.
pub struct SeatKnowledge {
    // The harts whose words it alone adds to, each with its word.
    pub ghost counts: { List (ℕ × ℕ) },
    // The looks that it made, the last one first: each hart with the number that was found.
    pub ghost sights: { List (ℕ × ℕ) },
    // It has asked for a stop.
    pub ghost asked: { Bool },
    // It has found that a stop was asked.
    pub ghost heard: { Bool },
}

impl Model for SeatKnowledge {
    ghost also_owns = { λ _. ftrue };
}
