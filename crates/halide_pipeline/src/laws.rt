//! Laws of what is read, each the contract of a function that does nothing.

ghost use Rattle.halide_pipeline.specs.Points.{SeesValues, ValuesDependOnReads, StagesDependOnReads};
ghost use Rattle.halide_pipeline.specs.Points.{PixelsDependOnInputs, ClosedPointsHoldReads, DefinitionsHoldReads};

/// The value that is seen beside the points of an expression is the expression's.
pub fn values_are_seen()
    ensures { SeesValues }
{}

/// Reads that agree at the points that an expression reads give it one value.
pub fn values_depend_on_reads()
    ensures { ValuesDependOnReads }
{}

/// Reads that agree at the points that a pixel reads give it one value, after each number of updates.
pub fn stages_depend_on_reads()
    ensures { StagesDependOnReads }
{}

/// Inputs that agree at the points that a pixel reads, with all that these read in turn, give it one value.
pub fn pixels_depend_on_inputs()
    ensures { PixelsDependOnInputs }
{}

/// Points among which is all that each pixel in them reads itself have all that is read in turn.
pub fn closed_points_hold_reads()
    ensures { ClosedPointsHoldReads }
{}

/// Where each definition of a Func reads points that pass, at points that do, all that its pixels read themselves
/// passes.
pub fn definitions_hold_reads()
    ensures { DefinitionsHoldReads }
{}
