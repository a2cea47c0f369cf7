//! What can be wrong with a schedule.

ghost use Rattle.std.specs.Prelude.{◌≡◌};
ghost use Rattle.schedule_lines.specs.Faults as spec;

/// What is wrong with a schedule, the least first.
#[derive(Clone, Copy, Debug, PartialEq, Eq)]
pub enum ScheduleFault {
    /// The line is not of the grammar, or is after the 256th.
    Syntax,
    /// The first word names no stage and no input.
    UnknownStage,
    /// A loop is not one of the stage's, or is marked where it is split or marked again.
    UnknownLoop,
    /// A new loop's name is one of the stage's loops or occurs twice in the line; or a Func has a second
    /// compute line.
    NameInUse,
    /// A factor is not 1 to 64, or the stage would have a sixth loop.
    Limit,
    /// A reorder names a loop twice, or changes the order of loops over reduction variables.
    ReductionOrder,
    /// A parallel loop is not the outermost of its stage, or its Func is not at root.
    ParallelNotOutermost,
    /// A parallel loop is over a reduction variable.
    ParallelReduction,
    /// A loop of an update is split with its last iteration shifted.
    ShiftOnUpdate,
    /// A parallel loop comes from a split with its last iteration shifted.
    ParallelInShift,
    /// A vectorized loop is not the innermost, is not the inner loop of a split by 4, 8 or 16, or is over a reduction
    /// variable.
    VectorizedLoop,
    /// An unrolled loop is not the inner loop of a split.
    UnrolledLoop,
    /// A Func is computed at what is no such loop of a later Func at root without updates, or is used
    /// outside of it.
    ComputeAt,
    /// A Func with updates or with loop directives is inlined.
    Inlined,
    /// A directive for an input, or a compute line for the output.
    InputOrOutput,
}

impl ScheduleFault {
    /// The fault's number, 1 to 15.
    pub fn number(self) -> u32
        ensures { result ≡ spec.number self }
    {
        match self {
            ScheduleFault::Syntax => 1,
            ScheduleFault::UnknownStage => 2,
            ScheduleFault::UnknownLoop => 3,
            ScheduleFault::NameInUse => 4,
            ScheduleFault::Limit => 5,
            ScheduleFault::ReductionOrder => 6,
            ScheduleFault::ParallelNotOutermost => 7,
            ScheduleFault::ParallelReduction => 8,
            ScheduleFault::ShiftOnUpdate => 9,
            ScheduleFault::ParallelInShift => 10,
            ScheduleFault::VectorizedLoop => 11,
            ScheduleFault::UnrolledLoop => 12,
            ScheduleFault::ComputeAt => 13,
            ScheduleFault::Inlined => 14,
            ScheduleFault::InputOrOutput => 15,
        }
    }
}
