//! The first two harts of a machine that race.

ghost use Rattle.std.specs.Prelude.{◌≡◌, ◌≤◌, ◌<◌, drop, length, map};
ghost use Rattle.memory.specs.Access.{most_words};
ghost use Rattle.hart_core.specs.Turn.{next_of};
ghost use Rattle.multi_hart.specs.Run.{hart_at, writes};
ghost use Rattle.turn_accesses.specs.Accesses.{access_in, writes_in};
ghost use Rattle.race_reports.specs.Races as spec;

use crate::found::RacingTurns;
use crate::pairs::shared_by;
use multi_hart::Machine;
use rv_insn::Insn;
use turn_accesses::{Accesses, next_accesses};

/// What is told of a race of a machine's harts, outside these words.
pub(crate) fn race_in(machine: &Machine, insns: &[Option<Insn>], but: &[u32]) -> Option<RacingTurns>
    requires meant { insns.now ≡ map access_in machine.now.text }
    requires few { length insns.now ≤ most_words }
    ensures { result ≡ spec.race_in but.now machine.now }
{
    first_writer(machine, insns, but, 0)
}

/// The first hart from a number on that writes what another one touches.
fn first_writer(
    machine: &Machine,
    insns: &[Option<Insn>],
    but: &[u32],
    number: usize,
) -> Option<RacingTurns>
    requires meant { insns.now ≡ map access_in machine.now.text }
    requires few { length insns.now ≤ most_words }
    ensures { result ≡ spec.first_writer but.now machine.now.text (length machine.now.memory) machine.now.harts number
        (drop number machine.now.harts) }
{
    if number >= machine.harts() {
        return None;
    }
    let one = next_accesses(machine.hart(number), insns, machine.data().len());
    match first_other(machine, insns, but, number, &one, 0) {
        Some(told) => Some(told),
        None => first_writer(machine, insns, but, number + 1),
    }
}

/// The first hart from a number on that touches what the writer writes.
fn first_other(
    machine: &Machine,
    insns: &[Option<Insn>],
    but: &[u32],
    writer: usize,
    one: &Accesses,
    number: usize,
) -> Option<RacingTurns>
    requires there { writer < length machine.now.harts }
    requires meant { insns.now ≡ map access_in machine.now.text }
    requires few { length insns.now ≤ most_words }
    requires one { writes_in one.now ≡ writes (next_of machine.now.text (length machine.now.memory)
        (hart_at machine.now writer)) (hart_at machine.now writer) }
    ensures { result ≡ spec.first_other but.now machine.now.text (length machine.now.memory) writer
        (hart_at machine.now writer) number (drop number machine.now.harts) }
{
    if number >= machine.harts() {
        return None;
    }
    if writer == number {
        return first_other(machine, insns, but, writer, one, number + 1);
    }
    let other = next_accesses(machine.hart(number), insns, machine.data().len());
    match shared_by(but, one, &other) {
        Some(byte) => Some(RacingTurns {
            writer,
            other: number,
            byte,
        }),
        None => first_other(machine, insns, but, writer, one, number + 1),
    }
}
