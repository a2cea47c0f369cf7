//! Running an image, with a log of the turns that were made, and a record of image, log and ending.

ghost use Rattle.std.specs.Prelude.{◌≡◌, ◌≢◌, ◌+◌, ◌<◌, ◌≤◌, ◌^◌, Err};
ghost use Rattle.hrv_engines.specs.Devices.{both, image_bytes_of, log_bytes_of, sink_of};
ghost use Rattle.hrv_engines.specs.Dis.{IsRefusedImage};
ghost use Rattle.hrv_engines.specs.Recorded.{IsRecordedDrawnRun, IsRecordedResumedRun, IsRecordedRun, Records};
ghost use Rattle.hrv_engines.specs.Recorded.{WritesAll};
ghost use Rattle.hrv_engines.specs.Replay.{IsRefusedReplay};
ghost use Rattle.hrv_engines.specs.Run.{GaveSeveral};
ghost use Rattle.hrv_engines.specs.declared.faults.Fault.TheVariants.{Thread};

use crate::devices::{Sink, Source, read_image_bytes, read_log_bytes, write_each};
use crate::digests::digest_of;
use crate::drawn::draw_image;
use crate::faults::Fault;
use crate::records::record_of;
use crate::run::{Resources, resume_image, run_image};
use drawn_runs::DrawRules;
use std::alloc::Global;
use std::sync::Wait;
use std::thread::Threads;

/// Does what [`run_bytes`](crate::run_bytes) does, and writes the record of the run after the log and before the dump.
pub fn run_recorded_bytes<I: Source, L: Sink, K: Sink, O: Sink, R: Threads + Wait + Sync>(
    resources: &Resources<'_, R>,
    image: &mut I,
    log: &mut L,
    kept: &mut K,
    out: &mut O,
    harts: usize,
    limit: u64,
) -> Result<(), Fault>
    requires some { 1 ≤ harts }
    requires few { harts ≤ 8 }
    requires image { I.failed image.old + 1 < 2 ^ 64 }
    requires log { L.failed log.old + 1 < 2 ^ 64 }
    requires kept { K.failed kept.old + 1 < 2 ^ 64 }
    requires out { O.failed out.old + 1 < 2 ^ 64 }
    ensures runs { Records (IsRecordedRun harts limit) IsRefusedImage
        (image_bytes_of I.place I.failed I.gave I.ended image.old image.new)
        (sink_of L.place L.failed L.took log.old log.new)
        (sink_of K.place K.failed K.took kept.old kept.new)
        (sink_of O.place O.failed O.took out.old out.new) result }
    ensures threads { result ≡ Err Thread → 2 ≤ harts }
{
    let (threads, alloc) = (resources.threads, resources.alloc);
    let image_bytes = read_image_bytes(alloc, image)?;
    let digest = digest_of(&image_bytes);
    let (log_bytes, text, end) = run_image(threads, alloc, image_bytes, harts, limit)?;
    let record = record_of(alloc, &digest, &log_bytes, limit, end)?;
    write_all_three(alloc, log, kept, out, &log_bytes, &record, text.as_bytes())
}

/// Does what [`resume_bytes`](crate::resume_bytes) does, and writes the record of the run after the log and before the
/// dump.
pub fn resume_recorded_bytes<
    I: Source,
    P: Source,
    L: Sink,
    K: Sink,
    O: Sink,
    R: Threads + Wait + Sync,
>(
    resources: &Resources<'_, R>,
    image: &mut I,
    old: &mut P,
    log: &mut L,
    kept: &mut K,
    out: &mut O,
    limit: u64,
) -> Result<(), Fault>
    requires image { I.failed image.old + 1 < 2 ^ 64 }
    requires old { P.failed old.old + 1 < 2 ^ 64 }
    requires log { L.failed log.old + 1 < 2 ^ 64 }
    requires kept { K.failed kept.old + 1 < 2 ^ 64 }
    requires out { O.failed out.old + 1 < 2 ^ 64 }
    ensures runs { Records (IsRecordedResumedRun limit) IsRefusedReplay
        (both (image_bytes_of I.place I.failed I.gave I.ended image.old image.new)
        (log_bytes_of P.place P.failed P.gave P.ended old.old old.new))
        (sink_of L.place L.failed L.took log.old log.new)
        (sink_of K.place K.failed K.took kept.old kept.new)
        (sink_of O.place O.failed O.took out.old out.new) result }
    ensures threads { result ≡ Err Thread
        → GaveSeveral (log_bytes_of P.place P.failed P.gave P.ended old.old old.new) }
{
    let (threads, alloc) = (resources.threads, resources.alloc);
    let image_bytes = read_image_bytes(alloc, image)?;
    let old_bytes = read_log_bytes(alloc, old)?;
    let digest = digest_of(&image_bytes);
    let (log_bytes, text, end) = resume_image(threads, alloc, image_bytes, old_bytes, limit)?;
    let record = record_of(alloc, &digest, &log_bytes, limit, end)?;
    write_all_three(alloc, log, kept, out, &log_bytes, &record, text.as_bytes())
}

/// Does what [`run_drawn_bytes`](crate::run_drawn_bytes) does, and writes the record of the run after the log and
/// before the dump.
pub fn run_drawn_recorded_bytes<I: Source, L: Sink, K: Sink, O: Sink>(
    alloc: Global,
    image: &mut I,
    log: &mut L,
    kept: &mut K,
    out: &mut O,
    harts: usize,
    rules: DrawRules,
) -> Result<(), Fault>
    requires some { 1 ≤ harts }
    requires few { harts ≤ 8 }
    requires every { 1 ≤ rules.every }
    requires image { I.failed image.old + 1 < 2 ^ 64 }
    requires log { L.failed log.old + 1 < 2 ^ 64 }
    requires kept { K.failed kept.old + 1 < 2 ^ 64 }
    requires out { O.failed out.old + 1 < 2 ^ 64 }
    ensures runs { Records (IsRecordedDrawnRun harts rules) IsRefusedImage
        (image_bytes_of I.place I.failed I.gave I.ended image.old image.new)
        (sink_of L.place L.failed L.took log.old log.new)
        (sink_of K.place K.failed K.took kept.old kept.new)
        (sink_of O.place O.failed O.took out.old out.new) result }
    ensures threads { result ≢ Err Thread }
{
    let image_bytes = read_image_bytes(alloc, image)?;
    let digest = digest_of(&image_bytes);
    let (log_bytes, text, end) = draw_image(alloc, image_bytes, harts, rules)?;
    let record = record_of(alloc, &digest, &log_bytes, rules.limit, end)?;
    write_all_three(alloc, log, kept, out, &log_bytes, &record, text.as_bytes())
}

/// Writes the bytes of a log, then those of a record, and then a text.
fn write_all_three<L: Sink, K: Sink, O: Sink>(
    alloc: Global,
    log: &mut L,
    kept: &mut K,
    out: &mut O,
    bytes: &[u8],
    record_bytes: &[u8],
    text: &[u8],
) -> Result<(), Fault>
    requires log { L.failed log.old + 1 < 2 ^ 64 }
    requires kept { K.failed kept.old + 1 < 2 ^ 64 }
    requires out { O.failed out.old + 1 < 2 ^ 64 }
    ensures { WritesAll
        (sink_of L.place L.failed L.took log.old log.new)
        (sink_of K.place K.failed K.took kept.old kept.new)
        (sink_of O.place O.failed O.took out.old out.new) bytes.now record_bytes.now text.now result }
{
    // All made before the first write, so that nothing is written where memory runs out.
    let log_path = String::from_str(alloc, log.path())?;
    let kept_path = String::from_str(alloc, kept.path())?;
    let out_path = String::from_str(alloc, out.path())?;
    if !write_each(log, bytes) {
        return Err(Fault::File(log_path));
    }
    if !write_each(kept, record_bytes) {
        return Err(Fault::File(kept_path));
    }
    if !write_each(out, text) {
        return Err(Fault::File(out_path));
    }
    Ok(())
}
