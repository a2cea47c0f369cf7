//! From an image to a machine.

ghost use Rattle.std.specs.Prelude.{◌≡◌, ◌≤◌, length, IfOk, Ok};
ghost use Rattle.loader.specs.Image.{ImageContents, IsImage};
ghost use Rattle.loader.specs.Loading.{IsLoaded, machine_of, loaded};
ghost use Rattle.loader.specs.Spelling.{Answers, Spells};

use crate::faults::LoadFault;
use crate::images::Image;
use crate::readings::read_image;
use multi_hart::Machine;
use std::alloc::{AllocError, Global};

impl Image {
    /// A machine of 1 to 8 harts at its start: text, data and entry are the image's, which stays as it
    /// is.
    pub fn machine(&self, alloc: Global, harts: usize) -> Result<Machine, AllocError>
        requires one { 1 ≤ harts }
        requires eight { harts ≤ 8 }
        ensures opened { IfOk result (λ machine. machine ≡ machine_of self.now harts) }
        ensures harts { IfOk result (λ machine. length machine.harts ≡ harts) }
    {
        let words = self.words().to_vec(alloc)?;
        let bytes = self.data().to_vec(alloc)?;
        Machine::new(alloc, self.entry(), words, bytes, harts)
    }
}

/// The machine that the bytes of an image make with this many harts, at its start. A count of harts
/// outside 1 to 8 is refused after all that [`read_image`] refuses.
pub fn load(alloc: Global, bytes: &[u8], harts: usize) -> Result<Machine, LoadFault>
    // What is loaded is the machine of an image that the bytes spell.
    ensures found { IfOk result (λ machine. IsLoaded bytes.now harts machine) }
    // What spells an image is loaded with 1 to 8 harts, unless memory runs out.
    ensures only { (image : ImageContents) → IsImage image → Spells bytes.now image → 1 ≤ harts → harts ≤ 8
        → Answers result (Ok (machine_of image harts)) }
    // The refusal is the first in the format's order, and that of the harts after it.
    ensures exact { Answers result (loaded bytes.now harts) }
{
    let image = read_image(alloc, bytes)?;
    if harts < 1 || harts > 8 {
        return Err(LoadFault::HartCount);
    }
    Ok(image.machine(alloc, harts)?)
}
