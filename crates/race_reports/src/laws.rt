//! Laws of races that are told, each the contract of a function that does nothing.

ghost use Rattle.race_reports.specs.Laws.{NoneIsLeftOut, ToldAreRaces};

/// Where none is told of a log, there is a race at none of its places.
pub fn none_is_left_out()
    ensures { NoneIsLeftOut }
{}

/// What is told is a race at the first place where there is one.
pub fn told_are_races()
    ensures { ToldAreRaces }
{}
