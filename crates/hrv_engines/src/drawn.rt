//! Running an image by one thread that draws which hart makes the next turns, with a log of them.

ghost use Rattle.std.specs.Prelude.{◌≡◌, ◌≢◌, ◌+◌, ◌<◌, ◌≤◌, ◌^◌, Err, IfOk, IfErr};
ghost use Rattle.std.specs.String.{string_bytes};
ghost use Rattle.hrv_engines.specs.Devices.{image_bytes_of, sink_of};
ghost use Rattle.hrv_engines.specs.Dis.{IsRefusedImage};
ghost use Rattle.hrv_engines.specs.Drawn.{IsDrawnRun};
ghost use Rattle.hrv_engines.specs.Records.{EndsSo};
ghost use Rattle.hrv_engines.specs.Run.{Runs, Unrun};
ghost use Rattle.hrv_engines.specs.declared.faults.Fault.TheVariants.{Thread};

use crate::devices::{Sink, Source, read_image_bytes};
use crate::dumps::dump;
use crate::endings::{RunEnd, ending_of};
use crate::faults::Fault;
use crate::run::write_both;
use drawn_runs::{DrawRules, draw_run};
use loader::read_image;
use std::alloc::Global;
use turn_log::TurnLog;

/// Reads an image, runs it by 1 to 8 harts until each has stopped or has made `rules.limit` turns, and writes the log
/// of the turns and then the dump. Numbers that follow from the seed say which hart makes the next turns, so that a run
/// of one seed is the same each time. The whole image is read before the first turn, the whole log is written before
/// the dump, and nothing is written where memory is wanting. It needs no thread.
pub fn run_drawn_bytes<I: Source, L: Sink, O: Sink>(
    alloc: Global,
    image: &mut I,
    log: &mut L,
    out: &mut O,
    harts: usize,
    rules: DrawRules,
) -> Result<(), Fault>
    requires some { 1 ≤ harts }
    requires few { harts ≤ 8 }
    requires every { 1 ≤ rules.every }
    requires image { I.failed image.old + 1 < 2 ^ 64 }
    requires log { L.failed log.old + 1 < 2 ^ 64 }
    requires out { O.failed out.old + 1 < 2 ^ 64 }
    ensures runs { Runs (IsDrawnRun harts rules) IsRefusedImage
        (image_bytes_of I.place I.failed I.gave I.ended image.old image.new)
        (sink_of L.place L.failed L.took log.old log.new)
        (sink_of O.place O.failed O.took out.old out.new) result }
    ensures threads { result ≢ Err Thread }
{
    let image_bytes = read_image_bytes(alloc, image)?;
    let (log_bytes, text, _) = draw_image(alloc, image_bytes, harts, rules)?;
    write_both(alloc, log, out, &log_bytes, text.as_bytes())
}

/// The bytes of the log of a drawn run of an image, the dump at the end, and how it ended. The image's bytes are let go
/// as soon as they are read.
pub(crate) fn draw_image(
    alloc: Global,
    image: Vec<u8>,
    harts: usize,
    rules: DrawRules,
) -> Result<(Vec<u8>, String, RunEnd), Fault>
    requires some { 1 ≤ harts }
    requires few { harts ≤ 8 }
    requires every { 1 ≤ rules.every }
    ensures ok { IfOk result (λ made. IsDrawnRun harts rules image.items made.0.items (string_bytes made.1)) }
    ensures ended { IfOk result (λ made. EndsSo image.items made.0.items made.2) }
    ensures err { IfErr result (Unrun IsRefusedImage image.items) }
    ensures threads { result ≢ Err Thread }
{
    let read = read_image(alloc, &image)?;
    drop(image);
    let output = read.output();
    let mut machine = read.machine(alloc, harts)?;
    drop(read);
    let mut log = TurnLog::new(alloc, harts);
    draw_run(&mut machine, &mut log, rules)?;
    let mut bytes = Vec::new(alloc);
    log.write(&mut bytes)?;
    let text = dump(alloc, &machine, &log, output)?;
    let end = RunEnd {
        harts: log.harts(),
        ending: ending_of(&machine),
    };
    Ok((bytes, text, end))
}
