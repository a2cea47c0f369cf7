//! Laws of the stages that phases compute, each the contract of a function that does nothing.

ghost use Rattle.vector_codegen_laws.specs.Whole.{PureStagesWriteAll, StagesAreReached, StagesHaveIterations};

/// The stages are those of the Funcs at root that the output reaches. Each has an iteration, and each point of a Func's
/// box is written by one of its pure definition.
pub fn stages_are_whole()
    ensures reached { StagesAreReached }
    ensures iterations { StagesHaveIterations }
    ensures points { PureStagesWriteAll }
{}
