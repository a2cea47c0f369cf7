//! Laws of the last writing turn, each the contract of a function that does nothing.

ghost use Rattle.debugger_blame.specs.LastWrites.{HartsAreLastWriters, LastWritesStay};

/// The hart of the last turn that wrote a byte is its last writer.
pub fn harts_are_last_writers()
    ensures { HartsAreLastWriters }
{}

/// After turns a word holds what the last turn that wrote it left there; where none did, what it held before them.
pub fn last_writes_stay()
    ensures { LastWritesStay }
{}
