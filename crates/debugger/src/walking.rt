//! Going from place to place, and the states that are kept on the way.

ghost use Rattle.std.specs.Prelude.{◌≡◌, ◌≢◌, ◌+◌, ◌-◌, ◌%◌, ◌^◌, ◌<◌, ◌≤◌, length};
ghost use Rattle.debugger.specs.Counts.{Walked, counted, steps_from};
ghost use Rattle.debugger.specs.Places.{moved};
ghost use Rattle.debugger.specs.inner.Passing.{IsPassed};

use crate::kept::{KEPT_EVERY, copy_of, is_kept, keep_last, nearest, put_at_start, put_back};
use crate::passing::{Passed, pass};
use crate::sessions::Session;
use crate::turns::{SetMarks, TurnsAhead, make_some};
use std::alloc::Global;

impl Session {
    /// Goes to a place of the log, from here or from the nearest kept place before it.
    pub(crate) fn stand_at(&mut self, alloc: Global, place: u64)
        requires { place ≤ length self.old.state.log.turns }
        ensures state { self.new.state ≡ moved self.old.state place }
        ensures steps { Walked self.old self.new place }
    {
        self.approach(place);
        while self.place < place {
            self.advance(alloc, place);
        }
    }

    /// Goes back to the nearest kept place where that is nearer to a place than the way on from here. It takes no
    /// memory.
    pub(crate) fn approach(&mut self, place: u64)
        ensures state { self.new.state ≡ moved self.old.state self.new.state.place }
        ensures before { self.new.state.place ≤ place }
        ensures onwards { self.old.state.place ≤ place → self.old.state.place ≤ self.new.state.place }
        ensures begins { self.new.state.place % 4096 ≢ 0 → self.new.state.place ≡ self.old.state.place }
        ensures steps { self.new.steps ≡ self.old.steps }
        // What the field holds.
        ensures fits { self.old.steps < 2 ^ 64 }
    {
        match nearest(&self.kept.places, place) {
            Some((at, kept)) if place < self.place || self.place < kept => {
                put_back(&mut self.kept, &self.image, at, &mut self.machine);
                self.place = kept;
            }
            None if place < self.place => {
                put_at_start(
                    &mut self.kept,
                    &self.image,
                    &self.opening,
                    &mut self.machine,
                );
                self.place = 0;
            }
            _ => {}
        }
    }

    /// Makes turns of one hart, at least one and at most those up to the limit.
    fn advance(&mut self, alloc: Global, limit: u64)
        requires before { self.old.state.place < limit }
        requires within { limit ≤ length self.old.state.log.turns }
        ensures state { self.new.state ≡ moved self.old.state self.new.state.place }
        ensures onwards { self.old.state.place < self.new.state.place }
        ensures within { self.new.state.place ≤ limit }
        ensures grows { self.old.steps ≤ self.new.steps }
        ensures steps { self.new.steps ≡ counted self.old.steps
            (steps_from self.old.state self.old.state.place (self.new.state.place - self.old.state.place)) }
    {
        let way = TurnsAhead {
            place: self.place,
            limit,
        };
        let made = make_some(
            &self.log,
            &mut self.machine,
            &self.insns,
            &mut self.kept.written,
            way,
        );
        self.place += made.turns;
        self.steps = self.steps.saturating_add(made.steps);
        if made.is_turn_by_turn() {
            self.keep(alloc);
        }
    }

    /// Passes at least one turn and at most those up to the limit: turns of a hart that runs, or all of one that
    /// doesn't.
    pub(crate) fn pass_on(&mut self, alloc: Global, limit: u64) -> Passed
        requires before { self.old.state.place < limit }
        requires within { limit ≤ length self.old.state.log.turns }
        ensures passed { IsPassed self.old.state self.old.state.place result }
        ensures within { self.old.state.place + result.turns ≤ limit }
        ensures state { self.new.state ≡ moved self.old.state (self.old.state.place + result.turns) }
        ensures grows { self.old.steps ≤ self.new.steps }
        ensures steps { self.new.steps ≡ counted self.old.steps
            (steps_from self.old.state self.old.state.place result.turns) }
    {
        let way = TurnsAhead {
            place: self.place,
            limit,
        };
        let passed = pass(
            &self.log,
            &SetMarks {
                breaks: &self.breaks,
                watches: &self.watches,
            },
            &mut self.machine,
            &self.insns,
            &mut self.kept.written,
            way,
        );
        self.place += passed.turns;
        self.steps = self.steps.saturating_add(passed.steps);
        if passed.made().is_turn_by_turn() {
            self.keep(alloc);
        }
        passed
    }

    /// Keeps the state where the place is one at which it is kept. One for which there is no memory isn't.
    fn keep(&mut self, alloc: Global)
        ensures { self.new ≡ self.old }
    {
        if self.place % KEPT_EVERY != 0 || is_kept(&self.kept.places, self.place) {
            return;
        }
        let Ok(copy) = copy_of(alloc, self.place, &self.machine, &self.kept.written) else {
            return;
        };
        keep_last(&mut self.kept, copy);
    }
}
