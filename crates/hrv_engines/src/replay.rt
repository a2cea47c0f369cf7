//! Replaying a log of turns over an image.

ghost use Rattle.std.specs.Prelude.{◌≡◌, ◌+◌, ◌<◌, ◌^◌, length, IfOk};
ghost use Rattle.std.specs.String.{string_bytes};
ghost use Rattle.multi_hart.specs.Run.{run, KeepsShape};
ghost use Rattle.turn_log.specs.TurnLog.{IsLog};
ghost use Rattle.hrv_engines.specs.Devices.{both, image_bytes_of, log_bytes_of, sink_of};
ghost use Rattle.hrv_engines.specs.Engine.{Judges, Performs};
ghost use Rattle.hrv_engines.specs.Replay.{IsRefusedReplay, IsReplay, dump_of};

use crate::devices::{Sink, Source, read_image_bytes, read_log_bytes, write_all};
use crate::dumps::dump;
use crate::faults::Fault;
use loader::{Image, read_image};
use multi_hart::Machine;
use std::alloc::{AllocError, Global};
use turn_log::TurnLog;

/// Reads an image and a log of turns, replays the log over the image, and writes the dump. Both files are read first,
/// the image before the log.
pub fn replay_bytes<I: Source, L: Source, O: Sink>(
    alloc: Global,
    image: &mut I,
    log: &mut L,
    out: &mut O,
) -> Result<(), Fault>
    requires image { I.failed image.old + 1 < 2 ^ 64 }
    requires log { L.failed log.old + 1 < 2 ^ 64 }
    requires out { O.failed out.old + 1 < 2 ^ 64 }
    ensures { Performs IsReplay IsRefusedReplay
        (both (image_bytes_of I.place I.failed I.gave I.ended image.old image.new)
        (log_bytes_of L.place L.failed L.gave L.ended log.old log.new))
        (sink_of O.place O.failed O.took out.old out.new) result }
{
    let image_bytes = read_image_bytes(alloc, image)?;
    let log_bytes = read_log_bytes(alloc, log)?;
    let text = answer(alloc, image_bytes, log_bytes)?;
    write_all(alloc, out, text.as_bytes())
}

/// The dump of what the log's turns make of the image.
fn replay(alloc: Global, image: &Image, log: &TurnLog) -> Result<String, AllocError>
    ensures { IfOk result (λ text. string_bytes text ≡ dump_of image.now log.now) }
{
    let mut machine = image.machine(alloc, log.harts())?;
    make_turns(&mut machine, log);
    dump(alloc, &machine, log, image.output())
}

/// Makes the log's turns, run by run, so that the turns of a hart that has halted take no time.
pub(crate) fn make_turns(machine: &mut Machine, log: &TurnLog)
    requires log { IsLog log.now }
    requires harts { length machine.old.harts ≡ log.now.harts }
    ensures state { machine.new ≡ run machine.old log.now.turns }
    ensures shape { KeepsShape machine.old machine.new }
{
    let mut place = 0;
    while let Some((hart, count)) = log.run_at(place) {
        machine.run_same(hart, count);
        place += count;
    }
}

/// The dump that the bytes of an image and of a log make, or the first refusal: the image is judged
/// first. The image's bytes are let go as soon as they are read.
#[tactic(auto, unfolding(crate::specs::Replay::answer))]
fn answer(alloc: Global, image: Vec<u8>, log: Vec<u8>) -> Result<String, Fault>
    ensures { Judges string_bytes IsReplay IsRefusedReplay (image.items, log.items) result }
{
    let read = read_image(alloc, &image)?;
    drop(image);
    let log = TurnLog::read(alloc, &log)?;
    Ok(replay(alloc, &read, &log)?)
}
