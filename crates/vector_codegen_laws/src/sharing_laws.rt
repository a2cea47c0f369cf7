//! Laws of phases that share their work, each the contract of a function that does nothing.

ghost use Rattle.vector_codegen_laws.specs.Sharing.{PhasesAreShared};

/// Harts over the phases of a pipeline share their work where a program of parts that do the phases' tasks, whatever
/// instructions these are, is at the beginning of the text, and data are zeros but for the inputs' pixels. Where
/// the last phase's tasks are done, each Func at root has its pixels.
pub fn phases_are_shared()
    ensures { PhasesAreShared }
{}
