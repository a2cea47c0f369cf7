//! Laws of where loops of a consumer take arguments, each the contract of a function that does nothing.

ghost use Rattle.bounds_laws.specs.ConsumerLaws.{
  ConsumerArgumentsLie,
  SettledRangesHold,
  SettledBoxesHold,
  ProducedOwnReadsLie,
  OwnReadsStay,
  OwnPointsLie,
  BoxesAreProduced,
  PointsAreNear,
  VisitsLie,
  ArgumentsLieInViews,
  PureReadsInLoopsLie,
  UpdateReadsInLoopsLie,
};

/// While a loop of a pure definition and those outside of it are in given iterations, each point to which the loops
/// inside take the arguments lies in the view of them with which Funcs computed at that loop are asked.
pub fn consumer_arguments_lie()
    ensures { ConsumerArgumentsLie }
{}

/// What lies in a range lies in the one where loops inside take all their values, whatever values these have.
pub fn settled_ranges_hold()
    ensures { SettledRangesHold }
{}

/// So do points of the box of a Func that is computed at a loop: they lie in the view of them with which a Func
/// computed at a loop further out is asked.
pub fn settled_boxes_hold()
    ensures { SettledBoxesHold }
{}

/// What an update of a computed Func reads of its own Func, the point that its left side names among it, lies in the
/// Func's box in each dimension that isn't in place, whatever values the loops of its consumer have.
pub fn produced_own_reads_lie()
    ensures { ProducedOwnReadsLie }
{}

/// In each dimension in place an update reads its own Func at the argument itself, and its left side names the argument
/// itself.
pub fn own_reads_stay()
    ensures { OwnReadsStay }
{}

/// So all that an update reads of its own Func lies in the Func's box, and the point that its left side names, where
/// the arguments in place do.
pub fn own_points_lie()
    ensures { OwnPointsLie }
{}

/// The box of a Func that is computed has two ends in each dimension, stays within -2^24 to 2^24, and is over the loops
/// of the Func's consumer.
pub fn boxes_are_produced()
    ensures { BoxesAreProduced }
{}

/// A point of a box is near.
pub fn points_are_near()
    ensures { PointsAreNear }
{}

/// In whatever iteration, what a stage of a Func visits of the Func's box, from the box's corner on, lies in the box.
pub fn visits_lie()
    ensures { VisitsLie }
{}

/// Wherever loops take the arguments of a Func that makes its reads within the loop at which another one is computed,
/// they lie in the view of them with which that other one is asked, while the loops of the consumer from that one
/// outward have the same iterations.
pub fn arguments_lie_in_views()
    ensures { ArgumentsLieInViews }
{}

/// So all that its pure definition reads there of that other one, also through inlined Funcs, lies in the box of that
/// one.
pub fn pure_reads_in_loops_lie()
    ensures { PureReadsInLoopsLie }
{}

/// And all that its updates read of it.
pub fn update_reads_in_loops_lie()
    ensures { UpdateReadsInLoopsLie }
{}
