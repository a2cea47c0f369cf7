//! A lane in which a number waits while values are made.

ghost use Rattle.std.specs.Prelude.{◌<◌, OnOk};
ghost use Rattle.task_code_registers.specs.Registers.{IsTarget};
ghost use Rattle.task_code_values.specs.Parking.{OpensParking, Parks, Unparks};

use std::alloc::AllocError;
use task_code_lanes::vectors::{configure_one, read_first, spread};

/// The vector register whose first lane it is.
const PARKING: u8 = 1;

/// Appends what configures the lane.
///
/// # Errors
///
/// Memory ran out.
pub(crate) fn emit_parking(code: &mut Vec<u32>) -> Result<(), AllocError>
    ensures { OnOk result (OpensParking code.old.items code.new.items) }
{
    configure_one(code)?;
    Ok(())
}

/// Appends what leaves a register's number there.
///
/// # Errors
///
/// Memory ran out.
pub(crate) fn emit_park(code: &mut Vec<u32>, s: u8) -> Result<(), AllocError>
    requires { s < 32 }
    ensures { OnOk result (Parks code.old.items code.new.items s) }
{
    spread(code, PARKING, s)?;
    Ok(())
}

/// Appends what takes it back.
///
/// # Errors
///
/// Memory ran out.
pub(crate) fn emit_unpark(code: &mut Vec<u32>, r: u8) -> Result<(), AllocError>
    requires { IsTarget r }
    ensures { OnOk result (Unparks code.old.items code.new.items r) }
{
    read_first(code, r, PARKING)?;
    Ok(())
}
