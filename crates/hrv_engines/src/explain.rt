//! What the program says of itself: what its refusals mean, and its version.

ghost use Rattle.std.specs.Prelude.{◌+◌, ◌<◌, ◌^◌};
ghost use Rattle.hrv_refusals.specs.Explanations.{explanation};
ghost use Rattle.hrv_engines.specs.Devices.{sink_of};
ghost use Rattle.hrv_engines.specs.Engine.{Writes};

use crate::devices::{Sink, write_all};
use crate::faults::Fault;
use hrv_refusals::push_explanation;
use std::alloc::Global;

/// The version of the program.
pub const RELEASE: [u8; 3] = *b"2.1";

/// The logic of the kit that proves it.
pub const LOGIC: [u8; 16] = *b"dac8208d650f15bf";

/// What the program says of both; the law `version_tells_release_and_logic` says that it is of these.
pub const VERSION: [u8; 31] = *b"hrv 2.1\nlogic dac8208d650f15bf\n";

/// Writes what the refusal of a family and a code means. The code is empty in a family that has none; without both it
/// writes all families.
pub fn explain_bytes<O: Sink>(
    alloc: Global,
    family: &str,
    code: &str,
    out: &mut O,
) -> Result<(), Fault>
    requires { O.failed out.old + 1 < 2 ^ 64 }
    ensures { Writes (sink_of O.place O.failed O.took out.old out.new) (explanation family.now code.now) result }
{
    let mut lines = Vec::new(alloc);
    push_explanation(&mut lines, family, code)?;
    write_all(alloc, out, &lines)
}

/// Writes the version.
pub fn version_bytes<O: Sink>(alloc: Global, out: &mut O) -> Result<(), Fault>
    requires { O.failed out.old + 1 < 2 ^ 64 }
    ensures { Writes (sink_of O.place O.failed O.took out.old out.new) VERSION result }
{
    write_all(alloc, out, &VERSION)
}
