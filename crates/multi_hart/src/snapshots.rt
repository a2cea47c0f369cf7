//! Copies of what turns change, to go back to.

ghost use Rattle.std.specs.Prelude.{◌≡◌, length, IfOk};
ghost use Rattle.multi_hart.specs.Snapshots.{snapped, restored};

use crate::machines::Machine;
use hart_core::Hart;
use std::alloc::{AllocError, Global};
use std::marker::Model;

/// The data and the harts of a machine, as they were when it was made. A contract sees them as `Snapped`.
pub struct Snapshot {
    bytes: Vec<u8>,
    harts: Vec<Hart>,
}

impl Model for Snapshot {
    ghost use Rattle.multi_hart.specs.Snapshots.{Snapped};

    ghost Value = { Snapped };

    ghost view = { λ s. record { memory = s.bytes.items; harts = s.harts.items } };
}

impl Drop for Snapshot {
    fn drop(self) {
        let Snapshot { bytes, harts } = self;
        drop(bytes);
        drop(harts);
    }
}

impl Snapshot {
    /// A copy of a machine's data and harts.
    pub fn of(alloc: Global, machine: &Machine) -> Result<Snapshot, AllocError>
        ensures { IfOk result (λ snapshot. snapshot ≡ snapped machine.now) }
    {
        let bytes = machine.memory.bytes().to_vec(alloc)?;
        let harts = copies(alloc, &machine.harts)?;
        Ok(Snapshot { bytes, harts })
    }

    /// Puts a machine of as many bytes of data and as many harts back to what it was. Takes no memory.
    pub fn restore(&self, machine: &mut Machine)
        requires bytes { length self.now.memory ≡ length machine.old.memory }
        requires harts { length self.now.harts ≡ length machine.old.harts }
        ensures { machine.new ≡ restored machine.old self.now }
    {
        machine.memory.set_bytes(&self.bytes);
        put_copies(&mut machine.harts, &self.harts);
    }
}

/// The same harts once more.
pub(crate) fn copies(alloc: Global, harts: &[Hart]) -> Result<Vec<Hart>, AllocError>
    ensures { IfOk result (λ copies. copies.items ≡ harts.now) }
{
    harts.iter().map(|hart| hart.duplicate()).collect(alloc)
}

/// Puts harts in the place of as many others.
pub(crate) fn put_copies(places: &mut [Hart], harts: &[Hart])
    requires { length harts.now ≡ length places.old }
    ensures { places.new ≡ harts.now }
{
    for at in 0..harts.len() {
        places[at] = harts[at].duplicate();
    }
}
