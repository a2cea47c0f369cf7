//! How a run ended, by the machine after it.

ghost use Rattle.std.specs.Prelude.{◌≡◌, length};
ghost use Rattle.hrv_engines.specs.Records as spec;

use hart_core::Status;
use multi_hart::Machine;
use run_records::Ending;
use rv_insn::Trap;

/// How many harts a run had, and how it ended.
#[derive(Clone, Copy)]
pub(crate) struct RunEnd {
    pub(crate) harts: usize,
    pub(crate) ending: Ending,
}

/// How the run ended that led to a machine.
#[tactic(auto, unfolding(crate::specs::Records::ending_of))]
pub(crate) fn ending_of(machine: &Machine) -> Ending
    ensures { result ≡ spec.ending_of machine.now }
{
    if machine.is_finished() {
        return Ending::Finished;
    }
    match first_trap(machine) {
        Some(trap) => Ending::Trapped(trap),
        None => Ending::Limit,
    }
}

/// The trap of the hart with the least number, of those that trapped.
fn first_trap(machine: &Machine) -> Option<Trap>
    ensures { result ≡ spec.trap_below machine.now (length machine.now.harts) }
{
    let mut found = None;
    for hart in 0..machine.harts() {
        found = trap_or(found, machine.status(hart));
    }
    found
}

/// The trap that is known, or that of a hart.
fn trap_or(found: Option<Trap>, status: Status) -> Option<Trap>
    ensures { result ≡ spec.trap_or found status }
{
    match found {
        Some(trap) => Some(trap),
        None => match status {
            Status::Trapped(trap) => Some(trap),
            Status::Running | Status::Finished => None,
        },
    }
}
