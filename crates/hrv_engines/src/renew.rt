//! Storing an image anew, in the second format.

ghost use Rattle.std.specs.Prelude.{◌+◌, ◌<◌, ◌^◌};
ghost use Rattle.hrv_engines.specs.Devices.{image_bytes_of, sink_of};
ghost use Rattle.hrv_engines.specs.Dis.{IsRefusedImage};
ghost use Rattle.hrv_engines.specs.Engine.{Judges, Performs};
ghost use Rattle.hrv_engines.specs.Renew.{IsRenewal};

use crate::devices::{Sink, Source, read_image_bytes, write_all};
use crate::faults::Fault;
use loader::{read_image, store};
use std::alloc::Global;

/// Reads an image in either format, and writes it in the second. All of it is read and judged before anything is
/// written, so that both may be one file.
pub fn renew_bytes<I: Source, O: Sink>(
    alloc: Global,
    image: &mut I,
    renewed: &mut O,
) -> Result<(), Fault>
    requires image { I.failed image.old + 1 < 2 ^ 64 }
    requires renewed { O.failed renewed.old + 1 < 2 ^ 64 }
    ensures { Performs IsRenewal IsRefusedImage
        (image_bytes_of I.place I.failed I.gave I.ended image.old image.new)
        (sink_of O.place O.failed O.took renewed.old renewed.new) result }
{
    let image_bytes = read_image_bytes(alloc, image)?;
    let renewed_bytes = renewal_of(alloc, image_bytes)?;
    write_all(alloc, renewed, &renewed_bytes)
}

/// The bytes of an image in the second format, or the refusal of the image. Its old bytes are let go as soon as they
/// are read.
fn renewal_of(alloc: Global, bytes: Vec<u8>) -> Result<Vec<u8>, Fault>
    ensures { Judges (λ renewed. renewed.items) IsRenewal IsRefusedImage bytes.items result }
{
    let image = read_image(alloc, &bytes)?;
    drop(bytes);
    let mut renewed = Vec::new(alloc);
    store(&image, &mut renewed)?;
    Ok(renewed)
}
