//! Laws of what Funcs read, and where the readers stand, each the contract of a function that does nothing.

ghost use Rattle.bounds_laws.specs.Callers.{PurePointsAreReadThrough, UpdatePointsAreReadThrough, ReadersStandWithin};
ghost use Rattle.bounds_laws.specs.StandingWhere.{StandsNowhereElse, StandsWhereReadersDo};

/// Each point that a pure definition reads, its inlined Funcs put in place, is of a source that it calls, or that an
/// inlined Func reads which it calls.
pub fn pure_points_are_read_through()
    ensures { PurePointsAreReadThrough }
{}

/// So is each that an update reads.
pub fn update_points_are_read_through()
    ensures { UpdatePointsAreReadThrough }
{}

/// What a Func that is computed reads of others is reached by the output; of a Func at a loop, the reader has the loop,
/// or is computed at it or at one inside it.
pub fn readers_stand_within()
    ensures { ReadersStandWithin }
{}

/// A Func other than the output, for which a line names a loop that may have it, is computed at it exactly where each
/// later Func that is reached and calls it makes its reads within that loop; and else nowhere, as one whose line names
/// no loop that may have it.
pub fn stands_where_readers_do()
    ensures loops { StandsWhereReadersDo }
    ensures nowhere { StandsNowhereElse }
{}
