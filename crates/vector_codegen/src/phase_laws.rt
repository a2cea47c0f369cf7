//! Laws of programs of phases, each the contract of a function that does nothing.

ghost use Rattle.vector_codegen.specs.Sharing.{ProgramsShare};

/// A program of phases each of whose tasks' code does the task shares its work: it meets all that the promises on
/// every list of turns ask of a program, of its start and of what tasks write.
pub fn programs_share()
    ensures { ProgramsShare }
{}
