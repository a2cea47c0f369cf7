//! What can be read of a session. None of these takes memory.

ghost use Rattle.std.specs.Prelude.{◌≡◌, ◌<◌, ◌≤◌, length};
ghost use Rattle.hart_core.specs.HartState.{register, vector};
ghost use Rattle.multi_hart.specs.Run.{hart_at, word_in};
ghost use Rattle.debugger.specs.Places.{state_here};
ghost use Rattle.debugger.specs.Refusals.{or_address};

use crate::refusals::SessionRefusal;
use crate::sessions::Session;
use hart_core::Status;
use rv_insn::{Reg, VReg};

impl Session {
    /// How many of the log's turns were made.
    pub fn place(&self) -> u64
        ensures value { result ≡ self.now.state.place }
        ensures within { result ≤ length self.now.state.log.turns }
    {
        self.place
    }

    /// How many turns the log has.
    pub fn length(&self) -> u64
        ensures { result ≡ length self.now.state.log.turns }
    {
        self.log.len()
    }

    /// How many turns all calls of the session have made one by one, those of refused calls too: 0 at first, and at
    /// most 2^64 - 1. Turns of a hart that has stopped, which are passed at once, don't count. Where memory is short,
    /// so that a copy isn't kept, there may be more steps.
    pub fn steps(&self) -> u64
        ensures { result ≡ self.now.steps }
    {
        self.steps
    }

    /// How many harts there are.
    pub fn harts(&self) -> usize
        ensures { result ≡ self.now.state.log.harts }
    {
        self.log.harts()
    }

    /// What an integer register of a hart holds.
    pub fn register(&self, hart: usize, r: Reg) -> u32
        requires { hart < self.now.state.log.harts }
        ensures { result ≡ register (hart_at (state_here self.now.state) hart) r }
    {
        self.machine.register(hart, r)
    }

    /// The 16 bytes of a vector register of a hart, byte 0 first.
    pub fn vector(&self, hart: usize, v: VReg) -> [u8; 16]
        requires { hart < self.now.state.log.harts }
        ensures { result ≡ vector (hart_at (state_here self.now.state) hart) v }
    {
        self.machine.vector(hart, v)
    }

    /// A hart's program counter.
    pub fn pc(&self, hart: usize) -> u32
        requires { hart < self.now.state.log.harts }
        ensures { result ≡ (hart_at (state_here self.now.state) hart).pc }
    {
        self.machine.pc(hart)
    }

    /// Whether a hart runs, has finished, or has trapped.
    pub fn status(&self, hart: usize) -> Status
        requires { hart < self.now.state.log.harts }
        ensures { result ≡ (hart_at (state_here self.now.state) hart).status }
    {
        self.machine.status(hart)
    }

    /// The word at an address, refused where the address is no multiple of 4 or not all four bytes are
    /// text or data.
    pub fn word(&self, address: u32) -> Result<u32, SessionRefusal>
        ensures { result ≡ or_address (word_in (state_here self.now.state) address) }
    {
        match self.machine.word(address) {
            Some(word) => Ok(word),
            None => Err(SessionRefusal::Address),
        }
    }
}
