//! Laws of the definitions, each the contract of a function that does nothing.

ghost use Rattle.lowering_nests.specs.Nests.{StatementsRepeatThemselves};

/// A statement repeats itself under the one value that its loops stand at: so what is put around a body repeats it
/// under the values that are listed.
pub fn statements_repeat_themselves()
    ensures { StatementsRepeatThemselves }
{}
