//! Programs that break what is promised of compiled images (`specs/Refutations.antt`).

ghost use Rattle.work_sharing.specs.Refutations.{FirstDoesAll, HastyHartsRace};
ghost use Rattle.work_sharing.specs.Refutations.{JumpsNeverEnd, LockedHartsStay};
ghost use Rattle.work_sharing.specs.Refutations.{OthersDoNothing};

/// A gate that compares with one hart less than there are lets harts race.
pub fn hasty_harts_race()
    ensures { HastyHartsRace }
{}

/// At a lock in the last gate word a hart alone neither finishes nor waits at a gate between two phases.
pub fn locked_harts_stay()
    ensures { LockedHartsStay }
{}

/// A jump to itself has no end within reach.
pub fn jumps_never_end()
    ensures { JumpsNeverEnd }
{}

/// Where all harts but the first finish at once, no list of turns has a task done by another.
pub fn others_do_nothing()
    ensures { OthersDoNothing }
{}

/// Where who draws first does both tasks of a phase, each of two harts can do both, and no list of turns has one do the
/// first task and the other the second.
pub fn first_does_all()
    ensures { FirstDoesAll }
{}
