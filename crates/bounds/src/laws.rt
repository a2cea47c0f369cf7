//! Laws of parts of the data, each the contract of a function that does nothing.

ghost use Rattle.bounds.specs.Finding.{ControlFound, CopiesFound, FramesFound, InputsFound, PartsAligned, PartsEnd};
ghost use Rattle.bounds.specs.Finding.{RootsFound, RootsLie};

/// A byte at an offset from where the layout has a part is found to be that byte of that part.
pub fn parts_are_found()
    ensures control { ControlFound }
    ensures inputs { InputsFound }
    ensures roots { RootsFound }
    ensures copies { CopiesFound }
    ensures frames { FramesFound }
{}

/// A byte that is found to be one of the box of a Func computed at root lies at that offset from where the layout has
/// the box.
pub fn roots_lie()
    ensures { RootsLie }
{}

/// A part of a list lies within the list, at a multiple of 4.
pub fn parts_lie_within()
    ensures ends { PartsEnd }
    ensures aligned { PartsAligned }
{}
