//! A machine that threads share.

ghost use Rattle.std.specs.Prelude.{◌≡◌, ◌≢◌, ◌+◌, ◌-◌, ◌*◌, ◌%◌, ◌<◌, ◌≤◌, ◌↔◌, true, Err, OnErr, IfOk, IfSome};
ghost use Rattle.std.specs.Prelude.{IfNone};
ghost use Rattle.turn_log.specs.TurnLog.{most_turns};
ghost use Rattle.board.specs.Closing.{IsNewGlance};
ghost use Rattle.board.specs.Tokens.{name_of, has_asked, has_seen_stop};
ghost use Rattle.shared_machine.specs.Log.{Came, CameSo, code_of, most_batch};
ghost use Rattle.shared_machine.specs.Seats.{IsSeatOf, hart, number, tally};
ghost use Rattle.shared_machine.specs.declared.refusals.TurnRefusal.TheVariants.{TurnsSpent, StopAsked};
ghost use Rattle.rv_insn.specs.declared.outcomes.Outcome.TheVariants.{Stepped, Idle};

use crate::guarded::GuardedMachine;
use crate::ledgers::Ledgers;
use crate::origins::Origin;
use crate::refusals::TurnRefusal;
use crate::seats::{Batch, Report, Seat};
use board::{Board, Glance};
use std::hint;
use std::sync::atomic::AtomicU64;
use std::sync::{Mutex, MutexGuard, Wait};
use std::time::Duration;
use turn_log::MOST_TURNS;

/// How often a thread looks whether the lock is free before it naps.
const LOOKS: u32 = 20;

/// How many microseconds a nap is: some hundred batches of turns of another thread.
const NAP: u64 = 200;

/// After how many naps a thread queues for the lock.
const NAPS: u32 = 1_000;

/// A machine under one lock, with its log, and a board beside it.
#[derive(Drop)]
pub struct Shared<O: Origin, F: Ledgers> {
    pub(crate) guarded: Mutex<GuardedMachine<O, F>>,
    pub(crate) board: Board,
    pub(crate) glances_left: u8,
    ghost same: { board.harts ≡ O.harts },
}

impl<O: Origin, F: Ledgers> Shared<O, F> {
    /// The board on which the seats' numbers stand.
    pub fn board(&self) -> &Board
        ensures { result.now ≡ self.now.board }
    {
        &self.board
    }

    /// A glance at the board, as long as there are any: eight are there at first.
    pub fn glance(&mut self) -> Option<Glance>
        ensures same { self.new.board ≡ self.old.board }
        ensures some { IfSome result (λ glance. self.new.glances_left + 1 ≡ self.old.glances_left) }
        ensures none { IfNone result ((self.old.glances_left ≡ 0) × (self.new.glances_left ≡ 0)) }
        ensures glance { IfSome result (IsNewGlance (name_of self.old.board)) }
    {
        if self.glances_left == 0 {
            return None;
        }
        self.glances_left -= 1;
        Some(self.board.new_glance())
    }

    /// What lies under the lock, once it is free.
    ///
    /// A thread that finds the lock held naps, and does not queue: the one that has it then takes it again without a
    /// call of the system, which would cost more than a batch of turns. So that none waits for ever where others always
    /// come first, it queues after this many naps.
    fn locked<R: Wait>(&self, rt: &R) -> MutexGuard<'_, GuardedMachine<O, F>> {
        for _nap in 0..NAPS {
            for _look in 0..LOOKS {
                if let Some(guard) = self.guarded.try_lock() {
                    return guard;
                }
                hint::spin_loop();
            }
            nap(rt);
        }
        self.guarded.lock(rt)
    }

    /// One turn of the seat's hart, under the lock. A hart that has stopped makes one too. Waits for the lock.
    ///
    /// A call that finds a stop asked makes no turn and says so, and so does each later call by this seat. One that
    /// comes after a stop was asked by the seat finds it.
    pub fn turn<R: Wait>(&self, rt: &R, seat: &mut Seat<O, F>) -> Result<Report, TurnRefusal>
        requires { IsSeatOf (name_of self.now.board) seat.old }
        ensures of { IsSeatOf (name_of self.now.board) seat.new × (hart seat.new ≡ hart seat.old) }
        ensures number { IfOk result (λ report. (report.number ≡ number seat.old + 1)
            × (number seat.new ≡ report.number)) }
        ensures tally { IfOk result (λ report. tally seat.new ≡ tally seat.old + code_of report.outcome) }
        ensures came { IfOk result (λ report. Came O.image O.harts O.resumed (hart seat.old) (number seat.old)
            (tally seat.old) report.outcome) }
        ensures idle { IfOk result (λ report. (report.outcome ≡ Idle) ↔ (tally seat.old % 16 ≢ 0)) }
        ensures same { OnErr result ((number seat.new ≡ number seat.old) × (tally seat.new ≡ tally seat.old)) }
        ensures spent { (result ≡ Err TurnsSpent) ↔ (most_turns ≤ number seat.old) }
        ensures stopped { result ≡ Err StopAsked → has_seen_stop seat.new.glance ≡ true }
        ensures told { has_seen_stop seat.new.glance ≡ true → number seat.old < most_turns → result ≡ Err StopAsked }
        ensures asked { has_asked seat.old.glance ≡ true → number seat.old < most_turns → result ≡ Err StopAsked }
        ensures kept { (has_asked seat.new.glance ≡ has_asked seat.old.glance) × (has_seen_stop seat.old.glance ≡ true
            → has_seen_stop seat.new.glance ≡ true) }
        ensures ended { seat.new.ended ≡ seat.old.ended }
    {
        match self.turns(rt, seat, 1) {
            Ok(batch) => Ok(Report {
                number: batch.first,
                outcome: batch.last,
            }),
            Err(why) => Err(why),
        }
    }

    /// Turns of the seat's hart, one after the other, under one lock: until one doesn't step, so many are made, or the
    /// seat's number is 2^40. It makes at least one. Waits for the lock. A stop is told as by [`turn`](Shared::turn).
    pub fn turns<R: Wait>(
        &self,
        rt: &R,
        seat: &mut Seat<O, F>,
        most: u64,
    ) -> Result<Batch, TurnRefusal>
        requires of { IsSeatOf (name_of self.now.board) seat.old }
        requires some { 1 ≤ most }
        requires few { most ≤ most_batch }
        ensures of { IsSeatOf (name_of self.now.board) seat.new × (hart seat.new ≡ hart seat.old) }
        ensures made { IfOk result (λ batch. (1 ≤ batch.made) × (batch.made ≤ most)) }
        ensures number { IfOk result (λ batch. (batch.first ≡ number seat.old + 1)
            × (number seat.new ≡ number seat.old + batch.made)) }
        ensures tally { IfOk result (λ batch. tally seat.new
            ≡ tally seat.old + (16 * (batch.made - 1) + code_of batch.last)) }
        ensures came { IfOk result (λ batch. CameSo O.image O.harts O.resumed (hart seat.old) (number seat.old)
            (tally seat.old) batch.made batch.last) }
        ensures idle { IfOk result (λ batch. (batch.last ≡ Idle) ↔ (tally seat.old % 16 ≢ 0)) }
        ensures whole { IfOk result (λ batch. batch.last ≡ Stepped → batch.made < most → most_turns ≤ number seat.new) }
        ensures same { OnErr result ((number seat.new ≡ number seat.old) × (tally seat.new ≡ tally seat.old)) }
        ensures spent { (result ≡ Err TurnsSpent) ↔ (most_turns ≤ number seat.old) }
        ensures stopped { result ≡ Err StopAsked → has_seen_stop seat.new.glance ≡ true }
        ensures told { has_seen_stop seat.new.glance ≡ true → number seat.old < most_turns → result ≡ Err StopAsked }
        ensures asked { has_asked seat.old.glance ≡ true → number seat.old < most_turns → result ≡ Err StopAsked }
        ensures kept { (has_asked seat.new.glance ≡ has_asked seat.old.glance) × (has_seen_stop seat.old.glance ≡ true
            → has_seen_stop seat.new.glance ≡ true) }
        ensures ended { seat.new.ended ≡ seat.old.ended }
    {
        let Seat {
            shares,
            place,
            glance,
            stance,
            ..
        } = seat;
        if self.board.own(place) >= MOST_TURNS {
            return Err(TurnRefusal::TurnsSpent);
        }
        if self.board.stop_asked(glance) {
            return Err(TurnRefusal::StopAsked);
        }
        let mut guarded = self.locked(rt);
        let batch = guarded.turns(shares, most)?;
        let gives_way = guarded.gives_way(shares, stance, batch.last);
        drop(guarded);
        self.board.add(place, batch.made);
        if gives_way {
            nap(rt);
        }
        Ok(batch)
    }
}

/// Sleeps for a nap.
fn nap<R: Wait>(rt: &R) {
    let never = AtomicU64::new(0);
    never.park_timeout(rt, 0, Duration::from_micros(NAP));
}
