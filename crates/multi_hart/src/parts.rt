//! Data and harts of a machine, part by part: what turns change, to be copied and put back.

ghost use Rattle.std.specs.Prelude.{◌≡◌, ◌+◌, ◌≤◌, length, IfOk};
ghost use Rattle.memory.specs.Access.{most_bytes};
ghost use Rattle.multi_hart.specs.Parts.{IsPut, with_data, with_harts};

use crate::machines::Machine;
use crate::snapshots::{copies, put_copies};
use hart_core::Hart;
use memory::{Bytes, DATA_START, Memory};
use std::alloc::{AllocError, Global};

impl Machine {
    /// All bytes of data.
    pub fn data(&self) -> &[u8]
        ensures { result.now ≡ self.now.memory }
    {
        self.memory.bytes()
    }

    /// Puts other bytes in the place of all data. Takes no memory.
    pub fn set_data(&mut self, bytes: &[u8])
        requires { length bytes.now ≡ length self.old.memory }
        ensures { self.new ≡ with_data self.old bytes.now }
    {
        self.memory.set_bytes(bytes);
    }

    /// Puts bytes in the place of as many bytes of data, from one on. Takes no memory.
    pub fn put_data(&mut self, at: usize, bytes: &[u8])
        requires few { length self.old.memory ≤ most_bytes }
        requires within { at + length bytes.now ≤ length self.old.memory }
        ensures state { self.new ≡ with_data self.old self.new.memory }
        ensures put { IsPut self.old.memory at bytes.now self.new.memory }
    {
        put_bytes(&mut self.memory, at, bytes);
    }

    /// All harts once more.
    pub fn copy_harts(&self, alloc: Global) -> Result<Vec<Hart>, AllocError>
        ensures { IfOk result (λ copies. copies.items ≡ self.now.harts) }
    {
        copies(alloc, &self.harts)
    }

    /// Puts harts in the place of as many others. Takes no memory.
    pub fn set_harts(&mut self, harts: &[Hart])
        requires { length harts.now ≡ length self.old.harts }
        ensures { self.new ≡ with_harts self.old harts.now }
    {
        put_copies(&mut self.harts, harts);
    }
}

/// Puts bytes in the place of as many bytes of data, from one on.
fn put_bytes(memory: &mut Memory, at: usize, bytes: &[u8])
    requires few { length memory.old.memory ≤ most_bytes }
    requires within { at + length bytes.now ≤ length memory.old.memory }
    ensures text { memory.new.text ≡ memory.old.text }
    ensures put { IsPut memory.old.memory at bytes.now memory.new.memory }
{
    let start = DATA_START + at as u32;
    for (i, byte) in bytes.iter().enumerate() {
        memory.write(start + i as u32, *byte);
    }
}
