//! Laws of the definitions, each the contract of a function that does nothing.

ghost use Rattle.loop_ir.specs.AtOnce.{LanesAtOnceDoWhatIterationsDo};
ghost use Rattle.loop_ir.specs.Expressions.{SeesValues, ValuesDependOnLoads};
ghost use Rattle.loop_ir.specs.LoopLanes.{LanesTouchWhatIsSound};
ghost use Rattle.loop_ir.specs.Runs.{OthersStoreInNoRun, RunsMissWhatIsSound};
ghost use Rattle.loop_ir.specs.Stores.{OtherPointsStay, StoredStaysStored, TracesFollowRuns};

/// The value that is seen beside what an expression loads is the expression's.
pub fn values_are_seen()
    ensures { SeesValues }
{}

/// Reads that agree at the points that an expression loads give it one value.
pub fn values_depend_on_loads()
    ensures { ValuesDependOnLoads }
{}

/// What the test of a stored point takes buffers to hold is what the run leaves.
pub fn traces_follow_runs()
    ensures { TracesFollowRuns }
{}

/// A point that is stored at once is stored at after all that follows.
pub fn stored_stays_stored()
    ensures { StoredStaysStored }
{}

/// A point at which a statement doesn't store holds what it held.
pub fn other_points_stay()
    ensures { OtherPointsStay }
{}

/// What is looked at of a statement to see whether lanes may be done at once is what soundness looks at.
pub fn lanes_touch_what_is_sound()
    ensures { LanesTouchWhatIsSound }
{}

/// Lanes of one store at most, of which none loads what an earlier one stores, leave at once what they leave in order.
pub fn lanes_at_once_do_what_iterations_do()
    ensures { LanesAtOnceDoWhatIterationsDo }
{}

/// What is looked at of a statement to see at which points a run stores is what soundness looks at.
pub fn runs_miss_what_is_sound()
    ensures { RunsMissWhatIsSound }
{}

/// A statement of one Func stores in no run of another.
pub fn others_store_in_no_run()
    ensures { OthersStoreInNoRun }
{}
