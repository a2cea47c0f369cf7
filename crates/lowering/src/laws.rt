//! Laws of the definitions, each the contract of a function that does nothing.

ghost use Rattle.lowering.specs.Lowered.{PhasesDoPixels, PhasesLeaveOutput};
ghost use Rattle.lowering.specs.Order.{PhasesInOrder};
ghost use Rattle.lowering.specs.Phases.{TasksInAnyOrder};
ghost use Rattle.lowering.specs.Runs.{RunsAreListed};
ghost use Rattle.lowering.specs.Using.{BuffersHaveBoxPoints, PicturesAnswerWords, RisingIsAnOrder, IterationsAreDone};

/// A phase whose tasks each leave the result at the points that they own leaves it at all points, in whatever order the
/// tasks are done, and whatever private buffers hold before each.
pub fn tasks_in_any_order()
    ensures { TasksInAnyOrder }
{}

/// Phases that each begin with what the one before leaves, done one after the other and the tasks of each in any order,
/// leave the result of the last one.
pub fn phases_in_order()
    ensures { PhasesInOrder }
{}

/// The phases of a pipeline, each of which does its part, come from buffers of zeros to the pixels of all Funcs.
pub fn phases_do_pixels()
    ensures { PhasesDoPixels }
{}

/// So wherever they were done one after the other, the tasks of each in any order and whatever private buffers held
/// before each, the output's buffer holds the output's pixels.
pub fn phases_leave_output()
    ensures { PhasesLeaveOutput }
{}

/// The numbers below a count, in rising order, are an order of this many tasks.
pub fn rising_is_an_order()
    ensures { RisingIsAnOrder }
{}

/// A loop over tasks does them in that order.
pub fn iterations_are_done()
    ensures { IterationsAreDone }
{}

/// Buffers of the boxes' extents have the boxes' points.
pub fn buffers_have_box_points()
    ensures { BuffersHaveBoxPoints }
{}

/// Pictures answer words, and those that hold bytes bytes.
pub fn pictures_answer_words()
    ensures { PicturesAnswerWords }
{}

/// The runs of a stage's vectorized loop are what the stage visits in all iterations of its other loops.
pub fn runs_are_listed()
    ensures { RunsAreListed }
{}
