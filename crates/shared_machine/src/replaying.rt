//! The turns of a log, made again.

ghost use Rattle.std.specs.Prelude.{◌≡◌, ◌*◌, ◌<◌, ◌≤◌, length};
ghost use Rattle.multi_hart.specs.Run.{KeepsShape, run};
ghost use Rattle.turn_log.specs.TurnLog.{IsLog, most_turns};
ghost use Rattle.shared_machine.specs.Log.{after_turns, tally_more, tally_from};
ghost use Rattle.shared_machine.specs.Tallies.{each};

use crate::guarded::code;
use multi_hart::{Machine, TurnsMade};
use rv_insn::Outcome;
use turn_log::TurnLog;

/// Makes the turns of a log. For each hart the sum of the codes of its turns, 0 where there is no hart.
pub(crate) fn replay(machine: &mut Machine, log: &TurnLog) -> [u64; 8]
    requires log { IsLog log.now }
    requires harts { length machine.old.harts ≡ log.now.harts }
    ensures machine { machine.new ≡ run machine.old log.now.turns }
    ensures shape { KeepsShape machine.old machine.new }
    ensures tallies { result ≡ each (tally_from machine.old log.now.turns) }
{
    let mut tallies = [0; 8];
    let mut place = 0;
    while let Some((hart, turns)) = log.run_at(place) {
        tallies[hart] += replay_run(machine, hart, turns);
        place += turns;
    }
    tallies
}

/// Makes this many turns of a hart: the sum of their codes. Those of a hart that has stopped are passed at once.
fn replay_run(machine: &mut Machine, hart: usize, turns: u64) -> u64
    requires below { hart < length machine.old.harts }
    requires few { turns ≤ 8 * most_turns }
    ensures machine { machine.new ≡ after_turns machine.old hart turns }
    ensures shape { KeepsShape machine.old machine.new }
    ensures sum { result ≡ tally_more machine.old hart turns }
{
    if turns == 0 {
        return 0;
    }
    let TurnsMade { made, last } = machine.step_on(hart, turns);
    code(Outcome::Stepped) * (made - 1) + code(last)
}
