//! Running an image by threads, with a log of the turns that were made.

ghost use Rattle.std.specs.Prelude.{◌≡◌, ℕ, ◌+◌, ◌<◌, ◌≤◌, ◌^◌, List, Ok, Err, IfOk, IfErr};
ghost use Rattle.std.specs.String.{string_bytes};
ghost use Rattle.loader.specs.Spelling.{image_of};
ghost use Rattle.hrv_engines.specs.Devices.{both, image_bytes_of, log_bytes_of, sink_of};
ghost use Rattle.hrv_engines.specs.Dis.{IsRefusedImage};
ghost use Rattle.hrv_engines.specs.Records.{EndsSo, IsEnd};
ghost use Rattle.hrv_engines.specs.Replay.{IsRefusedReplay};
ghost use Rattle.hrv_engines.specs.Run.{GaveSeveral, IsOfSeveral, IsResumedRun, IsRun, IsRunFrom, IsWant, Runs, Unrun};
ghost use Rattle.hrv_engines.specs.Run.{WritesBoth};
ghost use Rattle.hrv_engines.specs.declared.faults.Fault.TheVariants.{Thread};

use crate::devices::{Sink, Source, read_image_bytes, read_log_bytes, write_each};
use crate::dumps::dump;
use crate::endings::{RunEnd, ending_of};
use crate::faults::Fault;
use loader::{Image, read_image};
use std::alloc::Global;
use std::sync::Wait;
use std::thread::Threads;
use turn_log::TurnLog;

/// What a run takes from the one that asks for it: threads, and memory.
#[derive(Drop)]
pub struct Resources<'a, R> {
    pub threads: &'a R,
    pub alloc: Global,
}

/// Reads an image, runs it by a thread for each of 1 to 8 harts until each has stopped or has made this many turns, and
/// writes the log of the turns and then the dump. The whole image is read before the first turn, the whole log is
/// written before the dump, and nothing is written where memory or threads are wanting. One hart is never refused a
/// thread.
pub fn run_bytes<I: Source, L: Sink, O: Sink, R: Threads + Wait + Sync>(
    resources: &Resources<'_, R>,
    image: &mut I,
    log: &mut L,
    out: &mut O,
    harts: usize,
    limit: u64,
) -> Result<(), Fault>
    requires some { 1 ≤ harts }
    requires few { harts ≤ 8 }
    requires image { I.failed image.old + 1 < 2 ^ 64 }
    requires log { L.failed log.old + 1 < 2 ^ 64 }
    requires out { O.failed out.old + 1 < 2 ^ 64 }
    ensures runs { Runs (IsRun harts limit) IsRefusedImage
        (image_bytes_of I.place I.failed I.gave I.ended image.old image.new)
        (sink_of L.place L.failed L.took log.old log.new)
        (sink_of O.place O.failed O.took out.old out.new) result }
    ensures threads { result ≡ Err Thread → 2 ≤ harts }
{
    let (threads, alloc) = (resources.threads, resources.alloc);
    let image_bytes = read_image_bytes(alloc, image)?;
    let (log_bytes, text, _) = run_image(threads, alloc, image_bytes, harts, limit)?;
    write_both(alloc, log, out, &log_bytes, text.as_bytes())
}

/// The same from where a log of the image ends, by a thread for each hart of the log: each makes this many turns more,
/// or stops before. The log that is written begins with that one. Both files are read before the first turn, the image
/// before the log.
pub fn resume_bytes<I: Source, P: Source, L: Sink, O: Sink, R: Threads + Wait + Sync>(
    resources: &Resources<'_, R>,
    image: &mut I,
    old: &mut P,
    log: &mut L,
    out: &mut O,
    limit: u64,
) -> Result<(), Fault>
    requires image { I.failed image.old + 1 < 2 ^ 64 }
    requires old { P.failed old.old + 1 < 2 ^ 64 }
    requires log { L.failed log.old + 1 < 2 ^ 64 }
    requires out { O.failed out.old + 1 < 2 ^ 64 }
    ensures runs { Runs (IsResumedRun limit) IsRefusedReplay
        (both (image_bytes_of I.place I.failed I.gave I.ended image.old image.new)
        (log_bytes_of P.place P.failed P.gave P.ended old.old old.new))
        (sink_of L.place L.failed L.took log.old log.new)
        (sink_of O.place O.failed O.took out.old out.new) result }
    ensures threads { result ≡ Err Thread
        → GaveSeveral (log_bytes_of P.place P.failed P.gave P.ended old.old old.new) }
{
    let (threads, alloc) = (resources.threads, resources.alloc);
    let image_bytes = read_image_bytes(alloc, image)?;
    let old_bytes = read_log_bytes(alloc, old)?;
    let (log_bytes, text, _) = resume_image(threads, alloc, image_bytes, old_bytes, limit)?;
    write_both(alloc, log, out, &log_bytes, text.as_bytes())
}

/// The bytes of the log of a run of an image, the dump at the end, and how it ended. The image's bytes are let go as
/// soon as they are read.
pub(crate) fn run_image<R: Threads + Wait + Sync>(
    rt: &R,
    alloc: Global,
    image: Vec<u8>,
    harts: usize,
    limit: u64,
) -> Result<(Vec<u8>, String, RunEnd), Fault>
    requires some { 1 ≤ harts }
    requires few { harts ≤ 8 }
    ensures ok { IfOk result (λ made. IsRun harts limit image.items made.0.items (string_bytes made.1)) }
    ensures ended { IfOk result (λ made. EndsSo image.items made.0.items made.2) }
    ensures err { IfErr result (Unrun IsRefusedImage image.items) }
    ensures threads { result ≡ Err Thread → 2 ≤ harts }
{
    let read = read_image(alloc, &image)?;
    drop(image);
    run_from(rt, alloc, read, TurnLog::new(alloc, harts), limit)
}

/// The same of a run that goes on from a log.
#[tactic(auto, unfolding(crate::specs::Replay::answer))]
pub(crate) fn resume_image<R: Threads + Wait + Sync>(
    rt: &R,
    alloc: Global,
    image: Vec<u8>,
    old: Vec<u8>,
    limit: u64,
) -> Result<(Vec<u8>, String, RunEnd), Fault>
    ensures ok { IfOk result (λ made. IsResumedRun limit (image.items, old.items) made.0.items (string_bytes made.1)) }
    ensures ended { IfOk result (λ made. EndsSo image.items made.0.items made.2) }
    ensures err { IfErr result (Unrun IsRefusedReplay (image.items, old.items)) }
    ensures threads { result ≡ Err Thread → IsOfSeveral old.items }
{
    let read = read_image(alloc, &image)?;
    drop(image);
    let log = TurnLog::read(alloc, &old)?;
    drop(old);
    run_from(rt, alloc, read, log, limit)
}

/// The bytes of the log of a run of an image that goes on from a log, the dump at the end, and how it ended.
fn run_from<R: Threads + Wait + Sync>(
    rt: &R,
    alloc: Global,
    image: Image,
    old: TurnLog,
    limit: u64,
) -> Result<(Vec<u8>, String, RunEnd), Fault>
    ensures ok { IfOk result (λ made. (image_bytes : List ℕ) → image_of image_bytes ≡ Ok image
        → IsRunFrom image image_bytes old limit made.0.items (string_bytes made.1)) }
    ensures ended { IfOk result (λ made. IsEnd image made.0.items made.2) }
    ensures err { IfErr result IsWant }
    ensures threads { result ≡ Err Thread → 2 ≤ old.harts }
{
    let output = image.output();
    let (machine, log) = shared_machine::run(rt, alloc, image, old, limit)?;
    let mut bytes = Vec::new(alloc);
    log.write(&mut bytes)?;
    let text = dump(alloc, &machine, &log, output)?;
    let end = RunEnd {
        harts: log.harts(),
        ending: ending_of(&machine),
    };
    Ok((bytes, text, end))
}

/// Writes the bytes of a log, and then a text.
pub(crate) fn write_both<L: Sink, O: Sink>(
    alloc: Global,
    log: &mut L,
    out: &mut O,
    bytes: &[u8],
    text: &[u8],
) -> Result<(), Fault>
    requires log { L.failed log.old + 1 < 2 ^ 64 }
    requires out { O.failed out.old + 1 < 2 ^ 64 }
    ensures { WritesBoth
        (sink_of L.place L.failed L.took log.old log.new)
        (sink_of O.place O.failed O.took out.old out.new) bytes.now text.now result }
{
    // Both made before the first write, so that nothing is written where memory runs out.
    let log_path = String::from_str(alloc, log.path())?;
    let out_path = String::from_str(alloc, out.path())?;
    if !write_each(log, bytes) {
        return Err(Fault::File(log_path));
    }
    if !write_each(out, text) {
        return Err(Fault::File(out_path));
    }
    Ok(())
}
