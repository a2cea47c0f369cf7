//! Laws of buffers in memory, each the contract of a function that does nothing.

ghost use Rattle.std.specs.Prelude.{ℕ, List, Option};
ghost use Rattle.halide_pipeline.specs.Pipelines.{Pipeline};
ghost use Rattle.schedule.specs.declared.schedules.Schedule.{Schedule};
ghost use Rattle.bounds.specs.declared.boxes.SourceBox.{SourceBox};
ghost use Rattle.vector_codegen_laws.specs.Held.{MemoryHoldsFuncs, TasksFindTheirs, TasksLeaveTheirs};
ghost use Rattle.vector_codegen_laws.specs.Held.{TasksMayWriteRuns};
ghost use Rattle.vector_codegen_laws.specs.RunBytes.{RulesSayRuns};
ghost use Rattle.vector_codegen_laws.specs.Settings.{TasksAreLaid};
ghost use Rattle.vector_codegen_laws.specs.Uses.{Owners};
ghost use Rattle.vector_codegen_laws.specs.Points.{ByteInputsAreThere, CopiesAreThere, RootsAreThere};
ghost use Rattle.vector_codegen_laws.specs.Points.{WordInputsAreThere};

/// Each byte of a point of a buffer is found as that byte, and lies in the data; words lie at multiples of 4.
pub fn points_are_there()
    ensures roots { (pipeline : Pipeline) (schedule : Schedule) (boxes : List (Option SourceBox))
        → RootsAreThere pipeline schedule boxes }
    ensures copies { (pipeline : Pipeline) (schedule : Schedule) (boxes : List (Option SourceBox))
        → CopiesAreThere pipeline schedule boxes }
    ensures words { (pipeline : Pipeline) (schedule : Schedule) (boxes : List (Option SourceBox))
        → WordInputsAreThere pipeline schedule boxes }
    ensures bytes { (pipeline : Pipeline) (schedule : Schedule) (boxes : List (Option SourceBox))
        → ByteInputsAreThere pipeline schedule boxes }
{}

/// What a task of a phase may touch lies so that its code may touch it: points that it owns and a hart's own copies are
/// written, these and all that no task of the phase writes are loaded, and no two points share a byte.
pub fn tasks_are_laid()
    ensures { (pipeline : Pipeline) (schedule : Schedule) (boxes : List (Option SourceBox)) (number : ℕ)
        (owners : Owners) → TasksAreLaid pipeline schedule boxes number owners }
{}

/// A memory with the inputs' bytes holds some words at all points that a task may load. At its own points, and at those
/// of Funcs at root that its phase leaves alone, a task finds the planes that its bytes are given from, and leaves the
/// bytes of those that it computed.
pub fn memory_holds_funcs()
    ensures any { (pipeline : Pipeline) (schedule : Schedule) (boxes : List (Option SourceBox)) (number : ℕ)
        (owners : Owners) → MemoryHoldsFuncs pipeline schedule boxes number owners }
    ensures finds { (pipeline : Pipeline) (schedule : Schedule) (boxes : List (Option SourceBox)) (number : ℕ)
        (owners : Owners) → TasksFindTheirs pipeline schedule boxes number owners }
    ensures leaves { (pipeline : Pipeline) (schedule : Schedule) (boxes : List (Option SourceBox)) (number : ℕ)
        (owners : Owners) → TasksLeaveTheirs pipeline schedule boxes number owners }
{}

/// Where a phase's points are written in runs, one turn may write those of one run, and what keeps the phase's rule is
/// one: the places are all bytes of its points, and no others.
pub fn turns_write_runs()
    ensures may { (pipeline : Pipeline) (schedule : Schedule) (boxes : List (Option SourceBox)) (number : ℕ)
        (owners : Owners) → TasksMayWriteRuns pipeline schedule boxes number owners }
    ensures says { RulesSayRuns }
{}
