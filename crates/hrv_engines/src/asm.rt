//! Assembling a text into an image that is stored.

ghost use Rattle.std.specs.Prelude.{◌+◌, ◌<◌, ◌^◌};
ghost use Rattle.hrv_engines.specs.Asm.{IsAssembly, IsRefusedAssembly};
ghost use Rattle.hrv_engines.specs.Devices.{sink_of, text_of};
ghost use Rattle.hrv_engines.specs.Engine.{Judges, Performs};

use crate::devices::{Sink, Source, write_all};
use crate::faults::Fault;
use crate::texts::read_text;
use assembler::assemble;
use loader::store;
use std::alloc::Global;

/// Reads an assembly text, and writes the image that it means. The whole text is read and judged first.
pub fn asm_bytes<S: Source, O: Sink>(
    alloc: Global,
    source: &mut S,
    image: &mut O,
) -> Result<(), Fault>
    requires source { S.failed source.old + 1 < 2 ^ 64 }
    requires image { O.failed image.old + 1 < 2 ^ 64 }
    ensures { Performs IsAssembly IsRefusedAssembly
        (text_of S.place S.failed S.gave S.ended source.old source.new)
        (sink_of O.place O.failed O.took image.old image.new) result }
{
    let text = read_text(alloc, source)?;
    let bytes = image_of(alloc, &text)?;
    write_all(alloc, image, &bytes)
}

/// The bytes of the image that a text means, or the refusal of its first faulty line.
fn image_of(alloc: Global, text: &str) -> Result<Vec<u8>, Fault>
    ensures { Judges (λ bytes. bytes.items) IsAssembly IsRefusedAssembly text.now result }
{
    let image = assemble(text, alloc)?.into_image();
    let mut bytes = Vec::new(alloc);
    store(&image, &mut bytes)?;
    Ok(bytes)
}
