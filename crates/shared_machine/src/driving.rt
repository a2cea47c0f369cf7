//! Turns made by threads.

ghost use Rattle.std.specs.Prelude.{◌≡◌, ◌+◌, ◌<◌, ◌≤◌, true, All, length, IfErr, OnOk, OnErr};
ghost use Rattle.turn_log.specs.TurnLog.{most_turns};
ghost use Rattle.board.specs.Tokens.{name_of, has_asked};
ghost use Rattle.shared_machine.specs.Driving.{IsDriven, AreDriven, IsRunOn, AreRunOn, IsStopped, AreStopped, EndedSo};
ghost use Rattle.shared_machine.specs.Log.{most_batch};
ghost use Rattle.shared_machine.specs.Seats.{IsSeatOf, hart, number};
ghost use Rattle.shared_machine.specs.declared.refusals.DriveFault.TheVariants.{NoThread};
ghost use Rattle.shared_machine.specs.declared.refusals.TurnRefusal.TheVariants.{StopAsked};
ghost use Rattle.shared_machine.specs.declared.seats.Ended.TheVariants.{Refused};

use crate::gates::{AlwaysOpen, Gate};
use crate::ledgers::Ledgers;
use crate::meetings::{Work, for_each_met};
use crate::origins::Origin;
use crate::refusals::{DriveFault, TurnRefusal};
use crate::seats::{Ended, Seat};
use crate::shared::Shared;
use rv_insn::Outcome;
use std::sync::Wait;
use std::thread::Threads;

/// Makes turns of each seat in a thread of its own, turn by turn, as [`drive_batched`] does.
pub fn drive<
    O: Origin + Send + Sync,
    F: Ledgers + Send + Sync,
    G: Gate + Sync,
    R: Threads + Wait + Sync,
>(
    rt: &R,
    shared: &Shared<O, F>,
    seats: &mut [Seat<O, F>],
    limit: u64,
    gate: &G,
) -> Result<(), DriveFault>
    requires { All (IsSeatOf (name_of shared.now.board)) seats.old }
    ensures of { All (IsSeatOf (name_of shared.now.board)) seats.new }
    ensures driven { OnOk result (AreDriven (name_of shared.now.board) G.OPEN limit seats.old seats.new) }
    ensures stopped { OnErr result (AreStopped (name_of shared.now.board) seats.old seats.new) }
    ensures several { OnErr result (2 ≤ length seats.old) }
    ensures fault { IfErr result (λ fault. fault ≡ NoThread) }
{
    drive_batched(rt, shared, seats, limit, 1, gate)
}

/// Makes turns of each seat in a thread of its own, up to `most` of them under one lock. A thread ends after a turn
/// that didn't step (a hart that has stopped makes one that is idle), after `limit` turns, where the gate doesn't let
/// it go on, or where a turn is refused; [`Seat::ended`] says which. The gate is asked about the first turn under a
/// lock, and told of the last.
///
/// The threads meet before the first turn. Where one of them can't be had, or doesn't come for more than a second, each
/// seat asks for a stop and no turn is made, nor later by a seat that asked. The first thread is the caller's, so that
/// one seat is always driven.
pub fn drive_batched<
    O: Origin + Send + Sync,
    F: Ledgers + Send + Sync,
    G: Gate + Sync,
    R: Threads + Wait + Sync,
>(
    rt: &R,
    shared: &Shared<O, F>,
    seats: &mut [Seat<O, F>],
    limit: u64,
    most: u64,
    gate: &G,
) -> Result<(), DriveFault>
    requires of { All (IsSeatOf (name_of shared.now.board)) seats.old }
    requires some { 1 ≤ most }
    requires few { most ≤ most_batch }
    ensures of { All (IsSeatOf (name_of shared.now.board)) seats.new }
    ensures driven { OnOk result (AreDriven (name_of shared.now.board) G.OPEN limit seats.old seats.new) }
    ensures stopped { OnErr result (AreStopped (name_of shared.now.board) seats.old seats.new) }
    ensures several { OnErr result (2 ≤ length seats.old) }
    ensures fault { IfErr result (λ fault. fault ≡ NoThread) }
{
    let turns = Turns {
        rt,
        shared,
        gate,
        limit,
        most,
    };
    if for_each_met(rt, seats, &turns) {
        Ok(())
    } else {
        Err(DriveFault::NoThread)
    }
}

/// Makes turns of each seat in a thread of its own, as [`drive_batched`] does, of a machine that is to run to its end.
/// Where a turn is refused memory no answer can come: its seat asks for a stop, so that no other waits for a hart that
/// makes no turn.
pub(crate) fn drive_to_end<
    O: Origin + Send + Sync,
    F: Ledgers + Send + Sync,
    R: Threads + Wait + Sync,
>(
    rt: &R,
    shared: &Shared<O, F>,
    seats: &mut [Seat<O, F>],
    limit: u64,
    most: u64,
) -> Result<(), DriveFault>
    requires of { All (IsSeatOf (name_of shared.now.board)) seats.old }
    requires some { 1 ≤ most }
    requires few { most ≤ most_batch }
    ensures of { All (IsSeatOf (name_of shared.now.board)) seats.new }
    ensures driven { OnOk result (AreRunOn (name_of shared.now.board) limit seats.old seats.new) }
    ensures stopped { OnErr result (AreStopped (name_of shared.now.board) seats.old seats.new) }
    ensures several { OnErr result (2 ≤ length seats.old) }
    ensures fault { IfErr result (λ fault. fault ≡ NoThread) }
{
    let turns = Turns {
        rt,
        shared,
        gate: &AlwaysOpen,
        limit,
        most,
    };
    if !for_each_met(rt, seats, &ToEnd { turns }) {
        return Err(DriveFault::NoThread);
    }
    Ok(())
}

/// Turns that are to be made of each seat.
#[derive(Drop)]
struct Turns<'s, O: Origin, F: Ledgers, G: Gate, R: Wait> {
    rt: &'s R,
    shared: &'s Shared<O, F>,
    gate: &'s G,
    limit: u64,
    most: u64,
    ghost some: { 1 ≤ most },
    ghost few: { most ≤ most_batch },
}

impl<'s, O: Origin, F: Ledgers, G: Gate, R: Wait> Work<Seat<O, F>> for Turns<'s, O, F, G, R> {
    ghost fits = { λ turns seat. IsSeatOf (name_of turns.shared.now.board) seat };

    ghost done = { λ turns old new. IsDriven (name_of turns.shared.now.board) G.OPEN turns.limit old new };

    ghost left = { λ turns old new. IsStopped (name_of turns.shared.now.board) old new };

    fn work(&self, it: &mut Seat<O, F>) {
        drive_seat(self.rt, self.shared, self.limit, self.most, self.gate, it);
    }

    fn leave(&self, it: &mut Seat<O, F>) {
        ask_stop_by(self.shared, it);
    }
}

/// Turns that are to be made of each seat of a machine that runs to its end.
#[derive(Drop)]
struct ToEnd<'s, O: Origin, F: Ledgers, R: Wait> {
    turns: Turns<'s, O, F, AlwaysOpen, R>,
}

impl<'s, O: Origin, F: Ledgers, R: Wait> Work<Seat<O, F>> for ToEnd<'s, O, F, R> {
    ghost fits = { λ all seat. IsSeatOf (name_of all.turns.shared.now.board) seat };

    ghost done = { λ all old new. IsRunOn (name_of all.turns.shared.now.board) all.turns.limit old new };

    ghost left = { λ all old new. IsStopped (name_of all.turns.shared.now.board) old new };

    fn work(&self, it: &mut Seat<O, F>) {
        self.turns.work(it);
        if let Some(Ended::Refused(TurnRefusal::OutOfMemory)) = it.ended() {
            ask_stop_by(self.turns.shared, it);
        }
    }

    fn leave(&self, it: &mut Seat<O, F>) {
        ask_stop_by(self.turns.shared, it);
    }
}

/// Asks for a stop by a seat.
fn ask_stop_by<O: Origin, F: Ledgers>(shared: &Shared<O, F>, seat: &mut Seat<O, F>)
    requires { IsSeatOf (name_of shared.now.board) seat.old }
    ensures { IsStopped (name_of shared.now.board) seat.old seat.new }
{
    shared.board().ask_stop(&mut seat.glance);
}

/// Makes turns of one seat.
fn drive_seat<O: Origin, F: Ledgers, G: Gate, R: Wait>(
    rt: &R,
    shared: &Shared<O, F>,
    limit: u64,
    most: u64,
    gate: &G,
    seat: &mut Seat<O, F>,
)
    requires of { IsSeatOf (name_of shared.now.board) seat.old }
    requires some { 1 ≤ most }
    requires few { most ≤ most_batch }
    ensures { IsDriven (name_of shared.now.board) G.OPEN limit seat.old seat.new }
{
    let ended = make_turns(rt, shared, limit, most, gate, seat);
    seat.ended = Some(ended);
}

/// Makes turns of one seat, and says why it ended.
fn make_turns<O: Origin, F: Ledgers, G: Gate, R: Wait>(
    rt: &R,
    shared: &Shared<O, F>,
    limit: u64,
    most: u64,
    gate: &G,
    seat: &mut Seat<O, F>,
) -> Ended
    requires of { IsSeatOf (name_of shared.now.board) seat.old }
    requires some { 1 ≤ most }
    requires few { most ≤ most_batch }
    ensures of { IsSeatOf (name_of shared.now.board) seat.new × (hart seat.new ≡ hart seat.old) }
    ensures made { (number seat.old ≤ number seat.new) × (number seat.new ≤ number seat.old + limit) }
    ensures ended { EndedSo G.OPEN limit (number seat.old) seat.new result }
    ensures asked { has_asked seat.new.glance ≡ has_asked seat.old.glance }
    ensures stopped { has_asked seat.old.glance ≡ true → number seat.new ≡ number seat.old }
    ensures told { has_asked seat.old.glance ≡ true → G.OPEN ≡ true → 1 ≤ limit → number seat.old < most_turns
        → result ≡ Refused StopAsked }
{
    let mut left = limit;
    while left > 0 {
        let hart = seat.hart();
        if !gate.before(hart, seat.number() + 1) {
            return Ended::Shut;
        }
        let batch = match shared.turns(rt, seat, most.min(left)) {
            Ok(batch) => batch,
            Err(why) => return Ended::Refused(why),
        };
        gate.after(hart, seat.number());
        left -= batch.made;
        match batch.last {
            Outcome::Stepped => {}
            _ => return Ended::Halted,
        }
    }
    Ended::Limit
}
