//! Turns that mark the pages which they write.

ghost use Rattle.std.specs.Prelude.{◌≡◌, ◌<◌, ◌≤◌, false, Some, length, map, option_and_then};
ghost use Rattle.memory.specs.Access.{fetched, most_words};
ghost use Rattle.multi_hart.specs.Run.{hart_at, outcome, turn};
ghost use Rattle.debugger_writes.specs.Stored.{store_in};
ghost use Rattle.debugger_writes.specs.Pages.{Marks};

use crate::marks::mark_stored;
use crate::{numbers_stored, store_at};
use multi_hart::Machine;
use rv_insn::{Insn, Outcome};

/// What a turn was.
#[derive(Clone, Copy, Debug, PartialEq, Eq)]
pub struct MarkedTurn {
    /// What it came to.
    pub outcome: Outcome,
    /// Its instruction is one that stores.
    pub stores: bool,
}

/// Makes a turn of a hart on a machine whose text has these instructions that store, and marks the pages that it may
/// write. It takes no memory.
#[inline(always)]
pub fn turn_marking(
    machine: &mut Machine,
    insns: &[Option<Insn>],
    hart: usize,
    written: &mut [bool],
) -> MarkedTurn
    requires there { hart < length machine.old.harts }
    requires meant { insns.now ≡ map store_in machine.old.text }
    requires few { length insns.now ≤ most_words }
    ensures state { machine.new ≡ turn machine.old hart }
    ensures outcome { result.outcome ≡ outcome machine.old hart }
    ensures marks { Marks machine.old.memory machine.new.memory written.old written.new }
    ensures quiet { result.stores ≡ false → machine.new.memory ≡ machine.old.memory }
{
    match store_at(insns, machine.pc(hart)) {
        Some(insn) => {
            let outcome = turn_storing(machine, insn, hart, written);
            MarkedTurn {
                outcome,
                stores: true,
            }
        }
        None => {
            let outcome = machine.turn(hart);
            MarkedTurn {
                outcome,
                stores: false,
            }
        }
    }
}

/// Makes a turn whose instruction stores.
fn turn_storing(machine: &mut Machine, insn: &Insn, hart: usize, written: &mut [bool]) -> Outcome
    requires there { hart < length machine.old.harts }
    requires stores { option_and_then store_in (fetched machine.old.text (hart_at machine.old hart).pc)
        ≡ Some insn.now }
    ensures state { machine.new ≡ turn machine.old hart }
    ensures outcome { result ≡ outcome machine.old hart }
    ensures marks { Marks machine.old.memory machine.new.memory written.old written.new }
{
    let stored = numbers_stored(machine.hart(hart), insn);
    mark_stored(written, &stored);
    machine.turn(hart)
}
