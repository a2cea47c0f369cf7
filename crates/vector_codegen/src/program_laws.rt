//! Laws of programs, each the contract of a function that does nothing.

ghost use Rattle.vector_codegen.specs.Programs.{ProgramsAreShort, ProgramsStand};

/// The words of a program have it at the beginning of the text.
pub fn programs_stand()
    ensures { ProgramsStand }
{}

/// A program has no more words than its phases ask for, 24 around the task of each among them.
pub fn programs_are_short()
    ensures { ProgramsAreShort }
{}
