//! Laws of ranges, each the contract of a function that does nothing.

ghost use Rattle.bounds_ranges.specs.Laws.{RangesCover, UpdateRangesCover, PixelsAreWords, StagesAreWords};

/// The value of an expression of a pipeline lies in its range, and each point that it reads in ranges that are asked,
/// also through inlined Funcs.
pub fn ranges_cover()
    ensures { RangesCover }
{}

/// So it is in an update, also where its arguments may be anywhere.
pub fn update_ranges_cover()
    ensures { UpdateRangesCover }
{}

/// Where the pixels of the inputs are words, all pixels are.
pub fn pixels_are_words()
    ensures { PixelsAreWords }
{}

/// So is what is after some points of an update.
pub fn stages_are_words()
    ensures { StagesAreWords }
{}
