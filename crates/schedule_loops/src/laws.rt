//! Laws of the definitions, each the contract of a function that does nothing.

ghost use Rattle.std.specs.Prelude.{◌≡◌, ◌∷◌, [], true, false};
ghost use Rattle.schedule_loops.specs.Laws as law;
ghost use Rattle.schedule_loops.specs.Visits.{shifts_fit};
ghost use Rattle.schedule_loops.specs.Reach.{reach, has_uneven};
ghost use Rattle.schedule_loops.specs.Rows as row;
ghost use Rattle.schedule_loops.specs.Sizes.{size};
ghost use Rattle.schedule_loops.specs.Visits.{visits};
ghost use Rattle.schedule_loops.specs.FaultLines.{NowhereLinesAreLeast, RuleLinesAreLeast, VerdictsNameLeastLines};

use halide_pipeline::Variable;
use schedule_lines::{LoopId, Tail};

/// An accepted schedule gives what the laws ask of stages.
pub fn accepted_stages()
    ensures { law.AcceptedStages }
{}

/// A stage that lines make of its first loops has at most 4 splits, by factors of 1 to 64.
pub fn stages_have_few_splits()
    ensures { law.StagesHaveFewSplits }
{}

/// What a stage visits lies in its box, and among its reduction points.
pub fn visits_lie_within()
    ensures { law.VisitsLieWithin }
{}

/// Under every nest that lines make of an update, each slice (the visits with the same arguments in place) sees
/// its reduction points in rising order, each once.
pub fn updates_keep_their_order()
    ensures { law.UpdatesKeepTheirOrder }
{}

/// Under every nest that lines make of a pure definition, each point of the box is visited, if the extent of each
/// loop that a shifted split divides is not below the factor.
pub fn pure_stages_cover()
    ensures { law.PureStagesCover }
{}

/// The iterations of the parallel loop, in rising order, are all that an accepted stage visits.
pub fn iterations_are_all()
    ensures { law.IterationsAreAll }
{}

/// A task is what the loops inside the parallel one list in one of its iterations.
pub fn iterations_are_nests()
    ensures { law.IterationsAreNests }
{}

/// Iterations of the parallel loop of an accepted stage visit slices apart: of a pure definition, points apart.
pub fn iterations_are_apart()
    ensures { law.IterationsAreApart }
{}

/// Iterations of the parallel loop of an accepted stage write points apart, where the left side names points apart
/// of slices apart.
pub fn iterations_write_apart()
    ensures { law.IterationsWriteApart }
{}

/// The iterations of an accepted stage may be done in any order: each slice sees the same visits in the same order.
pub fn iterations_in_any_order()
    ensures { law.IterationsInAnyOrder }
{}

/// A variable is its base plus what the loops inside add to it, or lies in its whole extent.
pub fn variables_are_reached()
    ensures { law.VariablesAreReached }
{}

/// An iteration of a loop that is not uneven takes its variable its stride further.
pub fn even_loops_step()
    ensures { law.EvenLoopsStep }
{}

/// Visits are seen from the values of whole variables that loops visit.
pub fn visits_are_of_wholes()
    ensures { law.VisitsAreOfWholes }
{}

/// Each visit is one that the loops inside make while those outside are in some iterations.
pub fn visits_are_made()
    ensures { law.VisitsAreMade }
{}

/// Worked rows: 5 values split by 4 under guard, 8 by 3 under shift, and an update with its argument inside.
#[tactic(auto, unfolding(crate::specs::Visits::upto))]
pub fn worked_rows()
    ensures guarded { row.first_values 5 4 Tail.Guard ≡ 0 ∷ 1 ∷ 2 ∷ 3 ∷ 4 ∷ [] }
    ensures shifted { row.first_values 8 3 Tail.Shift ≡ 0 ∷ 1 ∷ 2 ∷ 3 ∷ 4 ∷ 5 ∷ 5 ∷ 6 ∷ 7 ∷ [] }
    ensures reordered { visits row.reordered_extents row.reordered
        ≡ row.visit 0 0 ∷ row.visit 1 0 ∷ row.visit 0 1 ∷ row.visit 1 1 ∷ row.visit 0 2 ∷ row.visit 1 2 ∷ [] }
{}

/// Worked rows: 10 values split by 4 under guard, and the outer loop of that by 2 under shift.
pub fn worked_sizes()
    ensures first_inner { size row.split_twice (LoopId.Inner 0) ≡ row.sized 4 1 false }
    ensures second_inner { size row.split_twice (LoopId.Inner 1) ≡ row.sized 2 4 false }
    ensures outer { size row.split_twice (LoopId.Outer 1) ≡ row.sized 2 8 true }
    ensures whole { size row.split_twice (LoopId.Whole Variable.SecondArgument) ≡ row.sized 3 1 false }
    ensures fit { shifts_fit row.split_twice.extents row.split_twice.splits ≡ true }
    ensures reach { reach row.split_twice.extents row.split_twice.splits Variable.FirstArgument row.all_loops ≡ 15 }
    ensures uneven { has_uneven row.split_twice.splits Variable.FirstArgument row.all_loops ≡ true }
    ensures even { has_uneven row.split_twice.splits Variable.FirstArgument row.inner_loops ≡ false }
{}

/// The line of a fault of marked loops, or of where Funcs are computed, is the least of all lines that break the rule,
/// and no rule that is judged before it is broken.
pub fn fault_lines_are_least()
    ensures rules { RuleLinesAreLeast }
    ensures nowhere { NowhereLinesAreLeast }
    ensures verdicts { VerdictsNameLeastLines }
{}
