//! Laws of the lines of a log, each the contract of a function that does nothing.

ghost use Rattle.turn_traces.specs.Laws.{NoneBehind, PiecesJoin};

/// The lines of a log are those of its pieces, one after the other.
pub fn pieces_join()
    ensures { PiecesJoin }
{}

/// After the last turn that may be wanted there are none.
pub fn none_behind()
    ensures { NoneBehind }
{}
