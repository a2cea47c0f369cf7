//! Saying where the turns of a log go: the command `profile`.

ghost use Rattle.std.specs.Prelude.{◌≡◌, ◌+◌, ◌<◌, ◌^◌, IfOk};
ghost use Rattle.hrv_engines.specs.Devices.{both, image_bytes_of, log_bytes_of, sink_of};
ghost use Rattle.hrv_engines.specs.Engine.{Judges, Performs};
ghost use Rattle.hrv_engines.specs.Profile.{IsProfiled, IsRefusedProfile, profile_of};

use crate::devices::{Sink, Source, read_image_bytes, read_log_bytes, write_all};
use crate::faults::Fault;
use loader::{Image, read_image};
use run_reports::profile_text;
use std::alloc::{AllocError, Global};
use turn_log::TurnLog;

/// Reads an image and a log of turns, and writes where the log's turns go. Both files are read first, the image before
/// the log.
pub fn profile_bytes<I: Source, L: Source, O: Sink>(
    alloc: Global,
    image: &mut I,
    log: &mut L,
    out: &mut O,
) -> Result<(), Fault>
    requires image { I.failed image.old + 1 < 2 ^ 64 }
    requires log { L.failed log.old + 1 < 2 ^ 64 }
    requires out { O.failed out.old + 1 < 2 ^ 64 }
    ensures { Performs IsProfiled IsRefusedProfile
        (both (image_bytes_of I.place I.failed I.gave I.ended image.old image.new)
        (log_bytes_of L.place L.failed L.gave L.ended log.old log.new))
        (sink_of O.place O.failed O.took out.old out.new) result }
{
    let image_bytes = read_image_bytes(alloc, image)?;
    let log_bytes = read_log_bytes(alloc, log)?;
    let text = answer(alloc, image_bytes, log_bytes)?;
    write_all(alloc, out, &text)
}

/// The profile that the bytes of an image and of a log make, or the first refusal: the image is judged first. The
/// image's bytes are let go as soon as they are read.
#[tactic(auto, unfolding(crate::specs::Profile::answer))]
fn answer(alloc: Global, image: Vec<u8>, log: Vec<u8>) -> Result<Vec<u8>, Fault>
    ensures { Judges (λ text. text.items) IsProfiled IsRefusedProfile (image.items, log.items) result }
{
    let read = read_image(alloc, &image)?;
    drop(image);
    let log = TurnLog::read(alloc, &log)?;
    Ok(profile(alloc, &read, &log)?)
}

/// The profile of the log's turns over the image.
fn profile(alloc: Global, image: &Image, log: &TurnLog) -> Result<Vec<u8>, AllocError>
    ensures { IfOk result (λ text. text.items ≡ profile_of image.now log.now) }
{
    let mut machine = image.machine(alloc, log.harts())?;
    profile_text(alloc, &mut machine, image.words(), log)
}
