//! The parts of a session, to be looked at. None of these takes memory.

ghost use Rattle.std.specs.Prelude.{◌≡◌, ◌≤◌, length, slice_get};
ghost use Rattle.loader.specs.Image.{IsImage};
ghost use Rattle.debugger.specs.Marks.{is_among, marks, most_marks};
ghost use Rattle.debugger.specs.Places.{state_here};

use crate::sessions::Session;
use multi_hart::Machine;
use turn_log::TurnLog;

impl Session {
    /// The log.
    pub fn log(&self) -> &TurnLog
        ensures { result.now ≡ self.now.state.log }
    {
        &self.log
    }

    /// The machine at the place.
    pub fn machine(&self) -> &Machine
        ensures state { result.now ≡ state_here self.now.state }
        ensures harts { length result.now.harts ≡ self.now.state.log.harts }
    {
        &self.machine
    }

    /// The words of text, which no turn changes.
    pub fn words(&self) -> &[u32]
        ensures value { result.now ≡ self.now.state.image.words }
        ensures rules { IsImage self.now.state.image }
    {
        self.image.words()
    }

    /// Whether a break is set at the address.
    pub fn is_break(&self, address: u32) -> bool
        ensures { result ≡ is_among self.now.state.breaks address }
    {
        self.breaks.contains(&address)
    }

    /// The watch with this number, from 0 on, if there are that many.
    pub fn watch(&self, number: usize) -> Option<u32>
        ensures value { result ≡ slice_get self.now.state.watches number }
        ensures few { marks self.now.state ≤ most_marks }
    {
        self.watches.get(number).copied()
    }
}
