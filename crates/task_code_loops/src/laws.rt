//! Laws of loops, and of code after other code.

ghost use Rattle.task_code_loops.specs.Ending.{LoopsAreMade};
ghost use Rattle.task_code_loops.specs.Guarding.{CodeFollows, NoneAreLaidOut, OneMoreIsLaidOut, ScopesForget};
ghost use Rattle.task_code_loops.specs.Known.{KnownStays, OneMoreIsKnown};

/// What is begun, and ended after its body, is a loop.
pub fn loops_are_made()
    ensures { LoopsAreMade }
{}

/// Code does what it does after other code that keeps a scope's registers.
pub fn code_follows()
    ensures { CodeFollows }
{}

/// No code does no iteration.
pub fn none_are_laid_out()
    ensures { NoneAreLaidOut }
{}

/// Code of one iteration after that of those before it does one more.
pub fn one_more_is_laid_out()
    ensures { OneMoreIsLaidOut }
{}

/// A scope with no term of a loop variable knows the same wherever it is.
pub fn scopes_forget()
    ensures { ScopesForget }
{}

/// What is known of loop variables stays so where others change.
pub fn known_stays()
    ensures { KnownStays }
{}

/// A loop variable that is at the value of a sum is known beside the others.
pub fn one_more_is_known()
    ensures { OneMoreIsKnown }
{}
