//! What lies under the lock of a shared machine.

ghost use Rattle.std.specs.Prelude.{◌≡◌, ◌≢◌, ◌+◌, ◌-◌, ◌*◌, ◌%◌, ◌<◌, ◌≤◌, ◌↔◌, Err, IfOk, IfErr, OnErr};
ghost use Rattle.rv_insn.specs.declared.outcomes.Outcome.TheVariants.{Stepped, Idle};
ghost use Rattle.turn_log.specs.TurnLog.{IsLog, count_of, most_turns};
ghost use Rattle.shared_machine.specs.Log.{BeginsWith, CameSo, code_of, most_batch, state_after, tally};
ghost use Rattle.shared_machine.specs.Refusals.{number_of};
ghost use Rattle.shared_machine.specs.Tallies.{each, hart_of, number_in, tally_in, numbers_of, tallies_of};
ghost use Rattle.shared_machine.specs.declared.refusals.TurnRefusal.TheVariants.{TurnsSpent};

use crate::books::{Books, Shares};
use crate::ledgers::Ledgers;
use crate::locked::Locked;
use crate::origins::Origin;
use crate::refusals::TurnRefusal;
use crate::seats::Batch;
use crate::waiting::Stance;
use multi_hart::Machine;
use rv_insn::Outcome;
use turn_log::TurnLog;

/// A machine beside its log, and beside the books of all harts, which say how often the log has each hart and what
/// the tally of its turns is.
#[derive(Drop)]
pub(crate) struct GuardedMachine<O: Origin, F: Ledgers> {
    locked: Locked<O>,
    books: Books<F>,
    /// How often turns were made after which their hart did not wait.
    worked: u64,
    ghost numbers: { numbers_of books ≡ each (count_of locked.log.turns) },
    ghost tallies: { tallies_of books ≡ each (tally O.image O.harts locked.log.turns) },
}

impl<O: Origin, F: Ledgers> GuardedMachine<O, F> {
    /// A machine with its log, beside books that say the same.
    pub(crate) fn new(locked: Locked<O>, books: Books<F>) -> GuardedMachine<O, F>
        requires numbers { numbers_of books ≡ each (count_of locked.log.turns) }
        requires tallies { tallies_of books ≡ each (tally O.image O.harts locked.log.turns) }
    {
        GuardedMachine {
            locked,
            books,
            worked: 0,
        }
    }

    /// Turns of the hart whose shares these are, one after the other, until one doesn't step, this many are made, or
    /// the hart has made 2^40 in all.
    pub(crate) fn turns(&mut self, shares: &mut Shares<F>, most: u64) -> Result<Batch, TurnRefusal>
        requires there { hart_of shares.old < O.harts }
        requires some { 1 ≤ most }
        requires few { most ≤ most_batch }
        ensures hart { hart_of shares.new ≡ hart_of shares.old }
        ensures first { IfOk result (λ batch. batch.first ≡ number_in shares.old + 1) }
        ensures made { IfOk result (λ batch. (1 ≤ batch.made) × (batch.made ≤ most)) }
        ensures most { IfOk result (λ batch. number_in shares.old + batch.made ≤ most_turns) }
        ensures came { IfOk result (λ batch. CameSo O.image O.harts O.resumed (hart_of shares.old)
            (number_in shares.old) (tally_in shares.old) batch.made batch.last) }
        ensures idle { IfOk result (λ batch. (batch.last ≡ Idle) ↔ (tally_in shares.old % 16 ≢ 0)) }
        ensures number { IfOk result (λ batch. number_in shares.new ≡ number_in shares.old + batch.made) }
        ensures tally { IfOk result (λ batch. tally_in shares.new
            ≡ tally_in shares.old + (16 * (batch.made - 1) + code_of batch.last)) }
        ensures whole { IfOk result (λ batch. batch.last ≡ Stepped → batch.made < most
            → most_turns ≤ number_in shares.new) }
        ensures same { OnErr result ((number_in shares.new ≡ number_in shares.old)
            × (tally_in shares.new ≡ tally_in shares.old)) }
        ensures spent { (result ≡ Err TurnsSpent) ↔ (most_turns ≤ number_in shares.old) }
        ensures refused { IfErr result (λ why. number_of why ≤ 2) }
    {
        let GuardedMachine { locked, books, .. } = self;
        books.agree(shares);
        let batch = locked.turns(shares.hart(), most)?;
        books.count(shares, batch.made, 16 * (batch.made - 1) + code(batch.last));
        Ok(batch)
    }

    /// Looks at the hart of these shares after its turns, of which the last came to this. Whether its thread is to
    /// give way.
    pub(crate) fn gives_way(
        &mut self,
        shares: &Shares<F>,
        stance: &mut Stance,
        last: Outcome,
    ) -> bool
        requires { hart_of shares.now < O.harts }
    {
        let Outcome::Stepped = last else {
            return false;
        };
        if stance.stays(self.locked.machine(), shares.hart()) {
            return stance.gives_way(self.worked);
        }
        self.worked = self.worked.wrapping_add(1);
        false
    }

    /// What a seat was told is what the log says of its hart.
    pub(crate) fn agree(&mut self, shares: &mut Shares<F>)
        requires { hart_of shares.old < O.harts }
        ensures same { (self.new.locked.machine ≡ self.old.locked.machine)
            × (self.new.locked.log ≡ self.old.locked.log) }
        ensures number { number_in shares.old ≡ count_of self.old.locked.log.turns (hart_of shares.old) }
        ensures tally { tally_in shares.old ≡ tally O.image O.harts self.old.locked.log.turns (hart_of shares.old) }
        ensures shares { (hart_of shares.new ≡ hart_of shares.old) × (number_in shares.new ≡ number_in shares.old)
            × (tally_in shares.new ≡ tally_in shares.old) }
    {
        self.books.agree(shares);
    }

    /// The machine and its log.
    pub(crate) fn into_parts(self) -> (Machine, TurnLog)
        ensures machine { result.0 ≡ state_after O.image O.harts result.1.turns }
        ensures begins { BeginsWith result.1.turns O.resumed }
        ensures log { IsLog result.1 }
        ensures same { (result.0 ≡ self.locked.machine) × (result.1 ≡ self.locked.log) }
    {
        let GuardedMachine { locked, .. } = self;
        locked.into_parts()
    }
}

/// The code of an outcome. Codes of a hart's turns add up to its tally.
pub(crate) fn code(outcome: Outcome) -> u64
    ensures { result ≡ code_of outcome }
{
    match outcome {
        Outcome::Stepped => 16,
        Outcome::Finished => 1,
        Outcome::Trapped(trap) => 1 + trap.number() as u64,
        Outcome::Idle => 0,
    }
}
