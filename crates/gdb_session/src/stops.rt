//! Where a run stops.

/// Why a run stops.
#[derive(Clone, Copy, Debug, PartialEq, Eq)]
pub enum StopReason {
    /// A step was asked for.
    Stepped,
    /// The hart is on a break.
    Break,
    /// The hart's turn changes the word at this address.
    Watch(u32),
    /// The log has no such turn after the place.
    LogEnd,
    /// The log has no such turn before the place.
    LogStart,
}

/// Why a run stops, and the hart that gdb is told of.
#[derive(Clone, Copy, Debug, PartialEq, Eq)]
pub struct Stop {
    pub reason: StopReason,
    pub hart: usize,
}
