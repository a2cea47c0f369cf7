//! What is told of a race.

/// Two harts whose next turns touch one byte, which one of them writes.
#[derive(Clone, Copy, Debug, PartialEq, Eq)]
pub struct RacingTurns {
    /// The hart that writes it.
    pub writer: usize,
    /// The hart that reads or writes it.
    pub other: usize,
    /// The byte's address.
    pub byte: u64,
}

/// The first race of a log.
#[derive(Clone, Copy, Debug, PartialEq, Eq)]
pub struct FirstRace {
    /// How many turns of the log came before it.
    pub place: u64,
    pub turns: RacingTurns,
}
