//! Sessions, and going from place to place.

ghost use Rattle.std.specs.Prelude.{◌≡◌, ◌≢◌, ◌+◌, ◌-◌, ◌<◌, ◌≤◌, length, Err, OnOk, OnErr, IfOk, IfErr};
ghost use Rattle.debugger.specs.Counts.{Walked};
ghost use Rattle.debugger.specs.Places.{opened, moved};
ghost use Rattle.debugger.specs.Refusals.{UnlessMemory};

use crate::kept::{KeptPlaces, keep_none};
use crate::refusals::SessionRefusal;
use debugger_writes::stores_of;
use hart_core::Hart;
use loader::Image;
use multi_hart::Machine;
use rv_insn::Insn;
use std::alloc::{AllocError, Global};
use std::marker::Model;
use turn_log::TurnLog;

/// An image, a log of turns, a place in the log, the marks that are set, and a count of the turns that were made. A
/// contract sees it as a `CountedSession`.
pub struct Session {
    pub(crate) image: Image,
    pub(crate) log: TurnLog,
    pub(crate) place: u64,
    pub(crate) breaks: Vec<u32>,
    pub(crate) watches: Vec<u32>,
    /// The machine after the turns before the place.
    pub(crate) machine: Machine,
    /// The instructions of the text that store.
    pub(crate) insns: Vec<Option<Insn>>,
    /// The harts at the start of the log.
    pub(crate) opening: Vec<Hart>,
    /// The last states that were kept on the way.
    pub(crate) kept: KeptPlaces,
    /// How many turns of running harts were made one by one.
    pub(crate) steps: u64,
}

impl Model for Session {
    ghost use Rattle.debugger.specs.Places.{CountedSession};
    ghost use Rattle.debugger.specs.inner.Held.{Held};

    ghost Value = { CountedSession };

    ghost view = { λ s. record {
      state = record {
        image = s.image;
        log = s.log;
        place = s.place;
        breaks = s.breaks.items;
        watches = s.watches.items;
      };
      steps = s.steps;
    } };

    ghost invariant = { λ s. Held (record {
      image = s.image;
      log = s.log;
      place = s.place;
      breaks = s.breaks.items;
      watches = s.watches.items;
    }) s.machine s.opening.items s.insns.items s.kept };
}

impl Drop for Session {
    fn drop(self) {
        let Session {
            image,
            log,
            breaks,
            watches,
            machine,
            insns,
            opening,
            kept,
            place: _,
            steps: _,
        } = self;
        drop(image);
        drop(log);
        drop(breaks);
        drop(watches);
        drop(machine);
        drop(insns);
        drop(opening);
        drop(kept);
    }
}

impl Session {
    /// A session at the start of a log, with no mark. A machine of the log's harts is made, and a copy of them.
    pub fn open(alloc: Global, image: Image, log: TurnLog) -> Result<Session, AllocError>
        ensures opened { IfOk result (λ session. session.state ≡ opened image log) }
        ensures steps { IfOk result (λ session. session.steps ≡ 0) }
    {
        let machine = image.machine(alloc, log.harts())?;
        let insns = stores_of(alloc, image.words())?;
        let opening = machine.copy_harts(alloc)?;
        let kept = keep_none(alloc, image.data().len())?;
        Ok(Session {
            image,
            log,
            place: 0,
            breaks: Vec::new(alloc),
            watches: Vec::new(alloc),
            machine,
            insns,
            opening,
            kept,
            steps: 0,
        })
    }

    /// Goes to a place, refused where the log has fewer turns. Backwards the turns are made again from the nearest kept
    /// place before it. It needs no memory: a place for which there is none isn't kept.
    pub fn goto(&mut self, alloc: Global, k: u64) -> Result<(), SessionRefusal>
        ensures ok { OnOk result (self.new.state ≡ moved self.old.state k) }
        ensures within { OnOk result (k ≤ length self.old.state.log.turns) }
        ensures steps { OnOk result (Walked self.old self.new k) }
        ensures err { IfErr result (λ refusal. UnlessMemory refusal ((refusal ≡ SessionRefusal.PastEnd)
            × (length self.old.state.log.turns < k))) }
        ensures unchanged { OnErr result (self.new ≡ self.old) }
        ensures memory { result ≢ Err SessionRefusal.OutOfMemory }
    {
        if k > self.log.len() {
            return Err(SessionRefusal::PastEnd);
        }
        self.stand_at(alloc, k);
        Ok(())
    }

    /// Makes one more turn, refused at the end of the log.
    pub fn next(&mut self, alloc: Global) -> Result<(), SessionRefusal>
        ensures ok { OnOk result (self.new.state ≡ moved self.old.state (self.old.state.place + 1)) }
        ensures before_end { OnOk result (self.old.state.place < length self.old.state.log.turns) }
        ensures steps { OnOk result (Walked self.old self.new (self.old.state.place + 1)) }
        ensures err { IfErr result (λ refusal. (refusal ≡ SessionRefusal.PastEnd)
            × (self.old.state.place ≡ length self.old.state.log.turns)) }
        ensures unchanged { OnErr result (self.new ≡ self.old) }
    {
        if self.place >= self.log.len() {
            return Err(SessionRefusal::PastEnd);
        }
        self.goto(alloc, self.place + 1)?;
        Ok(())
    }

    /// Goes back by one turn, refused at the start of the log.
    pub fn back(&mut self, alloc: Global) -> Result<(), SessionRefusal>
        ensures ok { OnOk result (self.new.state ≡ moved self.old.state (self.old.state.place - 1)) }
        ensures behind_start { OnOk result (1 ≤ self.old.state.place) }
        ensures steps { OnOk result (Walked self.old self.new (self.old.state.place - 1)) }
        ensures err { IfErr result (λ refusal. UnlessMemory refusal ((refusal ≡ SessionRefusal.BeforeStart)
            × (self.old.state.place ≡ 0))) }
        ensures unchanged { OnErr result (self.new ≡ self.old) }
        ensures memory { result ≢ Err SessionRefusal.OutOfMemory }
    {
        if self.place == 0 {
            return Err(SessionRefusal::BeforeStart);
        }
        self.goto(alloc, self.place - 1)?;
        Ok(())
    }
}
