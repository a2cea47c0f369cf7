//! Going to the next and to the previous stop.

ghost use Rattle.std.specs.Prelude.{◌≡◌, ◌≢◌, ◌<◌, ◌≤◌, true, false, Err, OnOk, OnErr, IfErr, IfSome, MatchOption};
ghost use Rattle.std.specs.Prelude.{length};
ghost use Rattle.debugger.specs.Places.{moved};
ghost use Rattle.debugger.specs.Refusals.{UnlessMemory};
ghost use Rattle.debugger.specs.Stops.{stops, IsNextStop, NoNextStop, IsPreviousStop, NoPreviousStop};
ghost use Rattle.debugger.specs.inner.Passing.{Latest};

use crate::passing::is_on_break;
use crate::refusals::SessionRefusal;
use crate::sessions::Session;
use std::alloc::Global;

impl Session {
    /// Goes to the least place after this one at which a mark stops. Refused where there is none.
    pub fn forward(&mut self, alloc: Global) -> Result<(), SessionRefusal>
        ensures ok { OnOk result (IsNextStop self.old.state self.new.state.place) }
        ensures marks_stay { OnOk result (self.new.state ≡ moved self.old.state self.new.state.place) }
        ensures err { IfErr result (λ refusal. UnlessMemory refusal ((refusal ≡ SessionRefusal.NoStop)
            × NoNextStop self.old.state)) }
        ensures unchanged { OnErr result (self.new.state ≡ self.old.state) }
        // How much a search adds isn't said.
        ensures steps { self.old.steps ≤ self.new.steps }
        ensures memory { result ≢ Err SessionRefusal.OutOfMemory }
    {
        let from = self.place();
        match self.next_stop(alloc) {
            Some(stop) => {
                self.stand_at(alloc, stop);
                Ok(())
            }
            None => {
                self.stand_at(alloc, from);
                Err(SessionRefusal::NoStop)
            }
        }
    }

    /// Goes to the greatest place before this one at which a mark stops. Refused where there is none.
    pub fn reverse(&mut self, alloc: Global) -> Result<(), SessionRefusal>
        ensures ok { OnOk result (IsPreviousStop self.old.state self.new.state.place) }
        ensures marks_stay { OnOk result (self.new.state ≡ moved self.old.state self.new.state.place) }
        ensures err { IfErr result (λ refusal. UnlessMemory refusal ((refusal ≡ SessionRefusal.NoStop)
            × NoPreviousStop self.old.state)) }
        ensures unchanged { OnErr result (self.new.state ≡ self.old.state) }
        // How much a search adds isn't said.
        ensures steps { self.old.steps ≤ self.new.steps }
        ensures memory { result ≢ Err SessionRefusal.OutOfMemory }
    {
        let from = self.place();
        match self.previous_stop(alloc) {
            Some(stop) => {
                self.stand_at(alloc, stop);
                Ok(())
            }
            None => {
                self.stand_at(alloc, from);
                Err(SessionRefusal::NoStop)
            }
        }
    }

    /// The least stop after the place. The session is then at that stop or after it, or at the end where there is
    /// none.
    fn next_stop(&mut self, alloc: Global) -> Option<u64>
        ensures state { self.new.state ≡ moved self.old.state self.new.state.place }
        ensures steps { self.old.steps ≤ self.new.steps }
        ensures stop { MatchOption result (NoNextStop self.old.state) (IsNextStop self.old.state) }
    {
        let end = self.length();
        let mut place = self.place();
        while place < end {
            let passed = self.pass_on(alloc, end);
            match passed.first(place) {
                Some(stop) => return Some(stop),
                None => place += passed.turns,
            }
        }
        None
    }

    /// The greatest stop before the place, looked for from the nearest copy before it on, then from the one before
    /// that, and so on. The session is then somewhere before its place.
    fn previous_stop(&mut self, alloc: Global) -> Option<u64>
        ensures state { self.new.state ≡ moved self.old.state self.new.state.place }
        ensures steps { self.old.steps ≤ self.new.steps }
        ensures stop { MatchOption result (NoPreviousStop self.old.state) (IsPreviousStop self.old.state) }
        ensures within { IfSome result (λ stop. stop ≤ length self.old.state.log.turns) }
    {
        let place = self.place();
        if place == 0 {
            return None;
        }
        // After this one and before the place there is none.
        let mut last_place = place - 1;
        while last_place > 0 {
            self.approach(last_place - 1);
            let begin = self.place();
            match self.last_stop(alloc, last_place) {
                Some(stop) => return Some(stop),
                None => last_place = begin,
            }
        }
        self.approach(0);
        self.stop_at_start()
    }

    /// The start of the log where a mark stops there.
    fn stop_at_start(&self) -> Option<u64>
        requires { self.now.state.place ≡ 0 }
        ensures { MatchOption result (stops self.now.state 0 ≡ false)
            (λ stop. (stop ≡ 0) × (stops self.now.state 0 ≡ true)) }
    {
        if is_on_break(&self.log, &self.breaks, &self.machine, 0) {
            Some(0)
        } else {
            None
        }
    }

    /// The greatest stop after the place up to a later one, to which the session goes.
    fn last_stop(&mut self, alloc: Global, last_place: u64) -> Option<u64>
        requires after { self.old.state.place < last_place }
        requires within { last_place ≤ length self.old.state.log.turns }
        ensures state { self.new.state ≡ moved self.old.state last_place }
        ensures steps { self.old.steps ≤ self.new.steps }
        ensures latest { Latest self.old.state self.old.state.place last_place result }
    {
        let mut last = None;
        let mut place = self.place();
        while place < last_place {
            let passed = self.pass_on(alloc, last_place);
            last = passed.latest(place, last);
            place += passed.turns;
        }
        last
    }
}
