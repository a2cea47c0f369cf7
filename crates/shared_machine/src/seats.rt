//! The seats of a shared machine.

ghost use Rattle.std.specs.Prelude.{◌≡◌, ◌<◌, ◌≤◌, None};
ghost use Rattle.turn_log.specs.TurnLog.{most_turns};
ghost use Rattle.shared_machine.specs.Tallies.{hart_of, number_in};

use crate::books::Shares;
use crate::ledgers::Ledgers;
use crate::origins::Origin;
use crate::refusals::TurnRefusal;
use crate::waiting::Stance;
use board::{BoardSeat, Glance};
use rv_insn::Outcome;
use std::marker::PhantomData;

/// One hart of a shared machine. Whoever has the seat makes the hart's turns.
#[derive(Drop)]
pub struct Seat<O: Origin, F: Ledgers> {
    pub(crate) shares: Shares<F>,
    pub(crate) place: BoardSeat,
    pub(crate) glance: Glance,
    pub(crate) ended: Option<Ended>,
    pub(crate) stance: Stance,
    origin: PhantomData<O>,
    ghost hart: { place.hart ≡ hart_of shares },
    ghost below: { hart_of shares < O.harts },
    ghost number: { place.number ≡ number_in shares },
}

/// What a turn of a seat was: which of the seat's turns, from 1 on, and what it came to.
#[derive(Clone, Copy, Debug, PartialEq, Eq)]
pub struct Report {
    /// How many turns the seat has made with this one.
    pub number: u64,
    /// What the turn came to.
    pub outcome: Outcome,
}

/// What turns of a seat were, made one after the other under one lock. All but the last one stepped.
#[derive(Clone, Copy, Debug, PartialEq, Eq)]
pub struct Batch {
    /// How many turns the seat has made with the first of them.
    pub first: u64,
    /// How many they are, at least one.
    pub made: u64,
    /// What the last of them came to.
    pub last: Outcome,
}

/// Why a thread ended that made a seat's turns.
#[derive(Clone, Copy, Debug, PartialEq, Eq)]
pub enum Ended {
    /// Its hart doesn't run any more.
    Halted,
    /// It made as many turns as it was to make.
    Limit,
    /// The gate didn't let it go on.
    Shut,
    /// A turn was refused.
    Refused(TurnRefusal),
}

impl<O: Origin, F: Ledgers> Seat<O, F> {
    /// The seat of a hart that has made no turn.
    pub(crate) fn new(shares: Shares<F>, place: BoardSeat, glance: Glance) -> Seat<O, F>
        requires hart { place.hart ≡ hart_of shares }
        requires below { hart_of shares < O.harts }
        requires number { place.number ≡ number_in shares }
        ensures { (result.shares ≡ shares) × (result.place ≡ place) × (result.glance ≡ glance) × (result.ended ≡ None) }
    {
        Seat {
            shares,
            place,
            glance,
            ended: None,
            stance: Stance::new(),
            origin: PhantomData,
        }
    }

    /// Which hart it is, from 0 on.
    pub fn hart(&self) -> usize
        ensures { result ≡ hart_of self.now.shares }
    {
        self.place.hart()
    }

    /// How many turns it has made.
    pub fn number(&self) -> u64
        ensures value { result ≡ number_in self.now.shares }
        ensures most { result ≤ most_turns }
    {
        self.place.number()
    }

    /// Why the thread ended that made its turns last; `None` before a thread has made any.
    pub fn ended(&self) -> Option<Ended>
        ensures { result ≡ self.now.ended }
    {
        self.ended
    }
}
