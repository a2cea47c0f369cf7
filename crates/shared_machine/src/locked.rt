//! A machine beside the log of its turns.

ghost use Rattle.std.specs.Prelude.{◌≡◌, ◌+◌, ◌-◌, ◌<◌, ◌≤◌, ◌↔◌, length, Err, OnOk, IfOk, IfErr, OnErr, Some};
ghost use Rattle.std.specs.Prelude.{slice_get};
ghost use Rattle.rv_insn.specs.declared.outcomes.Outcome.TheVariants.{Stepped};
ghost use Rattle.multi_hart.specs.Run.{turn, outcome};
ghost use Rattle.turn_log.specs.TurnLog.{IsLog, count_of, most_turns};
ghost use Rattle.shared_machine.specs.Log.{BeginsWith, after_turns, state_after, with_turn, with_turns};
ghost use Rattle.multi_hart.specs.TurnsInARow.{StepsOn};
ghost use Rattle.shared_machine.specs.Refusals.{number_of};
ghost use Rattle.shared_machine.specs.declared.refusals.TurnRefusal.TheVariants.{TurnsSpent};

use crate::origins::Origin;
use crate::refusals::TurnRefusal;
use crate::seats::Batch;
use multi_hart::{Machine, TurnsMade};
use rv_insn::Outcome;
use std::marker::PhantomData;
use turn_log::{MOST_TURNS, TurnLog};

/// A machine and the log of its turns: the machine is always in the state to which the log leads from its
/// origin, and the log begins with the turns that the origin names. It lies under the lock of a shared machine.
#[derive(Drop)]
pub struct Locked<O: Origin> {
    machine: Machine,
    log: TurnLog,
    origin: PhantomData<O>,
    ghost replays: { machine ≡ state_after O.image O.harts log.turns },
    ghost same: { log.harts ≡ O.harts },
    ghost all: { length machine.harts ≡ O.harts },
    ghost is_log: { IsLog log },
    ghost begins: { BeginsWith log.turns O.resumed },
}

impl<O: Origin> Locked<O> {
    /// A machine in the state to which a log leads, and the log.
    pub fn new(machine: Machine, log: TurnLog) -> Locked<O>
        requires replays { machine ≡ state_after O.image O.harts log.turns }
        requires same { log.harts ≡ O.harts }
        requires all { length machine.harts ≡ O.harts }
        requires is_log { IsLog log }
        requires begins { BeginsWith log.turns O.resumed }
        ensures { (result.machine ≡ machine) × (result.log ≡ log) }
    {
        Locked {
            machine,
            log,
            origin: PhantomData,
        }
    }

    /// One turn of a hart, which the log then tells. A hart that has stopped makes one too.
    pub fn turn(&mut self, hart: usize) -> Result<Outcome, TurnRefusal>
        requires { hart < O.harts }
        ensures outcome { IfOk result (λ came. came ≡ outcome self.old.machine hart) }
        ensures machine { OnOk result (self.new.machine ≡ turn self.old.machine hart) }
        ensures log { OnOk result (self.new.log ≡ with_turn self.old.log hart) }
        ensures same { OnErr result ((self.new.machine ≡ self.old.machine) × (self.new.log ≡ self.old.log)) }
        ensures spent { (result ≡ Err TurnsSpent) ↔ (most_turns ≤ count_of self.old.log.turns hart) }
        ensures refused { IfErr result (λ why. number_of why ≤ 2) }
    {
        let Locked { machine, log, .. } = self;
        if log.count_of(hart) >= MOST_TURNS {
            return Err(TurnRefusal::TurnsSpent);
        }
        log.push(hart)?;
        Ok(machine.turn(hart))
    }

    /// Turns of a hart one after the other, which the log then tells: until one doesn't step, this many are made, or
    /// the hart has made 2^40 in all. It makes at least one.
    pub fn turns(&mut self, hart: usize, most: u64) -> Result<Batch, TurnRefusal>
        requires there { hart < O.harts }
        requires some { 1 ≤ most }
        ensures first { IfOk result (λ batch. batch.first ≡ count_of self.old.log.turns hart + 1) }
        ensures made { IfOk result (λ batch. (1 ≤ batch.made) × (batch.made ≤ most)) }
        ensures room { IfOk result (λ batch. count_of self.old.log.turns hart + batch.made ≤ most_turns) }
        ensures machine { IfOk result (λ batch. self.new.machine ≡ after_turns self.old.machine hart batch.made) }
        ensures log { IfOk result (λ batch. self.new.log ≡ with_turns self.old.log hart batch.made) }
        ensures steps { IfOk result (λ batch. StepsOn self.old.machine hart (batch.made - 1)) }
        ensures last { IfOk result (λ batch. batch.last ≡ outcome (after_turns self.old.machine hart (batch.made - 1))
            hart) }
        ensures whole { IfOk result (λ batch. batch.last ≡ Stepped → batch.made < most
            → most_turns ≤ count_of self.old.log.turns hart + batch.made) }
        ensures same { OnErr result ((self.new.machine ≡ self.old.machine) × (self.new.log ≡ self.old.log)) }
        ensures spent { (result ≡ Err TurnsSpent) ↔ (most_turns ≤ count_of self.old.log.turns hart) }
        ensures refused { IfErr result (λ why. number_of why ≤ 2) }
    {
        let Locked { machine, log, .. } = self;
        let before = log.count_of(hart);
        if before >= MOST_TURNS {
            return Err(TurnRefusal::TurnsSpent);
        }
        log.push(hart)?;
        let TurnsMade { made, last } = machine.step_on(hart, most.min(MOST_TURNS - before));
        push_more(log, hart, made - 1);
        Ok(Batch {
            first: before + 1,
            made,
            last,
        })
    }

    /// The machine.
    pub fn machine(&self) -> &Machine
        ensures { result.now ≡ self.now.machine }
    {
        &self.machine
    }

    /// The log of its turns.
    pub fn log(&self) -> &TurnLog
        ensures { result.now ≡ self.now.log }
    {
        &self.log
    }

    /// The two apart.
    pub fn into_parts(self) -> (Machine, TurnLog)
        ensures machine { result.0 ≡ state_after O.image O.harts result.1.turns }
        ensures begins { BeginsWith result.1.turns O.resumed }
        ensures log { IsLog result.1 }
        ensures same { (result.0 ≡ self.machine) × (result.1 ≡ self.log) }
    {
        let Locked { machine, log, .. } = self;
        (machine, log)
    }
}

/// Turns that go on the last run of a log. They take no memory.
fn push_more(log: &mut TurnLog, hart: usize, more: u64)
    requires below { hart < log.old.harts }
    requires last { slice_get log.old.turns (length log.old.turns - 1) ≡ Some hart }
    requires room { count_of log.old.turns hart + more ≤ most_turns }
    ensures { log.new ≡ with_turns log.old hart more }
{
    if more == 0 {
        return;
    }
    let Ok(()) = log.push_run(hart, more) else {
        unreachable!()
    };
}
