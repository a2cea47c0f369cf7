//! Laws of programs that share their work, each the contract of a function that does nothing.

ghost use Rattle.work_sharing.specs.Undisturbed.{DoneAmongOthers};
ghost use Rattle.work_sharing.specs.Bridges.{StandsThere, ThereStands, PathDoes};
ghost use Rattle.work_sharing.specs.Fairness.{FairEnds, FinishedStays, GatesGrow};
ghost use Rattle.work_sharing.specs.Promises.{NeverTraps, OneResult, NeverRaces, CanFinish, GateOnce};
ghost use Rattle.work_sharing.specs.Promises.{AloneStops, EveryAssignment, RulesKept};

/// On every list of turns in which no other hart writes a byte that a job's run alone touches, the job is done
/// after as many turns of its hart as its run alone takes.
pub fn done_among_others()
    ensures { DoneAmongOthers }
{}

/// No hart traps, at any place of any list of turns.
pub fn never_traps()
    ensures { NeverTraps }
{}

/// Wherever all harts have finished, on any list of turns, every byte that the last phase's tasks own
/// is its result, and every byte that it keeps is as at its start.
pub fn one_result()
    ensures { OneResult }
{}

/// No race: what two harts' next turns both touch, at least one of them writing, is a byte of a ticket
/// word or of a gate word, at every place of every list of turns.
pub fn never_races()
    ensures { NeverRaces }
{}

/// From every place of every list of turns some further turns of harts that are there make all harts finish.
pub fn can_finish()
    ensures { CanFinish }
{}

/// Every fair list ends: after any list of turns, as many rounds as the phases say, in each of which every hart
/// has at least one turn, make all harts finish.
pub fn fair_ends()
    ensures { FairEnds }
{}

/// Whatever turns follow, a hart that has finished is left as it is, and no gate word falls.
pub fn what_is_done_stays()
    ensures finished { FinishedStays }
    ensures gates { GatesGrow }
{}

/// Each hart writes each gate word at most once, on every list of turns.
pub fn gate_once()
    ensures { GateOnce }
{}

/// From every place of every list of turns a hart that is given turns alone finishes, or comes to a
/// place where its last writing turn wrote a gate word that is below the number of harts.
pub fn alone_stops()
    ensures { AloneStops }
{}

/// For every assignment of all phases' tasks to harts there is a list of turns from the start after
/// which all harts have finished, and on which each byte that a task writes was last written, up to the first
/// place where its phase's gate is full, by the hart that the task was assigned to.
pub fn every_assignment()
    ensures { EveryAssignment }
{}

/// Each turn that writes a byte of a task keeps the phase's rule on the places that one turn writes, at
/// every place of every list of turns.
pub fn rules_kept()
    ensures { RulesKept }
{}

/// A hart that is at an address of a phase is there with its own numbers; a path of code from there to
/// the draw that keeps what the phase keeps, and leaves the job's bytes, does the job.
pub fn paths_do_jobs()
    ensures begins { StandsThere }
    ensures ends { ThereStands }
    ensures does { PathDoes }
{}
