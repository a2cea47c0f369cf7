//! Which register is for what.

ghost use Rattle.std.specs.Prelude.{◌≡◌};
ghost use Rattle.task_code_registers.specs.Registers as spec;

/// It is always 0.
pub const ZERO: u8 = 0;
/// Holds the number of the hart that runs the code.
pub const HART_NUMBER: u8 = 10;
/// Holds the number of harts.
pub const HART_COUNT: u8 = 11;
/// Any code that makes a number may change this one and the next.
pub const SCRATCH: u8 = 13;

pub const SECOND_SCRATCH: u8 = 14;
/// Where addresses are made.
pub const ADDRESS: u8 = 15;
/// From this one on, values of expressions are made.
pub const FIRST_VALUE: u8 = 20;

fn is_reserved(register: u8) -> bool
    ensures { result ≡ spec.is_reserved register }
{
    register == ZERO
        || (register == HART_NUMBER
            || (register == HART_COUNT
                || (register == SCRATCH || (register == SECOND_SCRATCH || register == ADDRESS))))
}

/// Whether a register may be given to a form for as long as a loop runs.
pub fn may_hold(register: u8) -> bool
    ensures { result ≡ spec.may_hold register }
{
    register < FIRST_VALUE && !is_reserved(register)
}
