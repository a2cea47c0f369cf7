//! Laws of boxes, each the contract of a function that does nothing.

ghost use Rattle.bounds_laws.specs.Closure.{AllReadsAreHeld, OneRowBoxes};
ghost use Rattle.bounds_laws.specs.Laws.{
  PureReadsOfInputsLie,
  PureReadsOfFuncsLie,
  UpdateReadsOfInputsLie,
  UpdateReadsOfFuncsLie,
  OutputLies,
  OwnReadsLie,
};

/// Wherever loops take a point of a Func's box, all that its pure definition reads there of inputs, also through
/// inlined Funcs, lies in their boxes.
pub fn pure_reads_of_inputs_lie()
    ensures { PureReadsOfInputsLie }
{}

/// Wherever loops take the arguments of a Func, all that its pure definition reads there of another Func that is
/// computed, also through inlined Funcs, lies in the box of that one: of a Func computed at a loop, in its box while
/// the loops of the consumer have the same values.
pub fn pure_reads_of_funcs_lie()
    ensures { PureReadsOfFuncsLie }
{}

/// Wherever loops take a point of a Func's box, all that its updates read there of inputs lies in their boxes.
pub fn update_reads_of_inputs_lie()
    ensures { UpdateReadsOfInputsLie }
{}

/// And all that they read there of another Func that is computed lies in the box of that one.
pub fn update_reads_of_funcs_lie()
    ensures { UpdateReadsOfFuncsLie }
{}

/// The output's picture lies in its Func's box.
pub fn output_lies()
    ensures { OutputLies }
{}

/// What an update reads of its own Func, the point that its left side names among it, lies in the Func's box in each
/// dimension that isn't in place.
pub fn own_reads_lie()
    ensures { OwnReadsLie }
{}

/// Boxes hold all that the pixels of the output's picture read, all that those read, and so on: what is read of an
/// input lies within its extents, and what is read of a Func that is computed lies in its box.
pub fn all_reads_are_held()
    ensures { AllReadsAreHeld }
{}

/// The box of a Func of one dimension has one row.
pub fn one_row_boxes()
    ensures { OneRowBoxes }
{}
