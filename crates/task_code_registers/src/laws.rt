//! Laws of scopes and of loops.

ghost use Rattle.task_code_registers.specs.Holding.{ScopesNest, ScopesStay};
ghost use Rattle.task_code_registers.specs.Looping.{LimitsTell, LoopsIterate};
ghost use Rattle.task_code_registers.specs.Scopes.{WorkingRegistersAreFree};

/// The registers in which values and addresses are made hold no form of any scope.
pub fn working_registers_are_free()
    ensures { WorkingRegistersAreFree }
{}

/// Scopes may be entered one after the other.
pub fn scopes_nest()
    ensures { ScopesNest }
{}

/// A loop that goes along with its forms changes no register of the scope around it.
pub fn scopes_stay()
    ensures { ScopesStay }
{}

/// A form and its limit tell whether there is a next iteration.
pub fn limits_tell()
    ensures { LimitsTell }
{}

/// A loop that is tested at its bottom does its iterations.
pub fn loops_iterate()
    ensures { LoopsIterate }
{}
