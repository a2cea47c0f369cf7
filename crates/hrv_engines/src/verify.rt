//! Whether an image and a log are those of a record, and end as it says: the command `verify`.

ghost use Rattle.std.specs.Prelude.{◌≡◌, ◌++◌, ◌+◌, ◌<◌, ◌^◌, Ok, IfOk, IfErr, OnOk};
ghost use Rattle.run_records.specs.RecordText as records;
ghost use Rattle.hrv_engines.specs.Devices.{both, image_bytes_of, log_bytes_of, sink_of, text_of};
ghost use Rattle.hrv_engines.specs.Engine.{PerformsAs, Unmeant};
ghost use Rattle.hrv_engines.specs.Verify.{IsRefusedVerdict, IsVerdict};
ghost use Rattle.hrv_engines.specs.Verify as spec;
ghost use Rattle.hrv_engines.specs.Logs.{IsRefusedLog};
ghost use Rattle.hrv_engines.specs.inner.Found.{IsFound, contents_found};

use crate::devices::{Sink, Source, read_image_bytes, read_log_bytes, write_all};
use crate::digests::digest_of;
use crate::endings::{RunEnd, ending_of};
use crate::explain::{LOGIC, RELEASE};
use crate::faults::Fault;
use crate::replay::make_turns;
use crate::texts::read_text;
use loader::{Image, read_image};
use run_records::{RunRecord, read_record};
use std::alloc::{AllocError, Global};
use turn_log::TurnLog;

/// What is said of a record, an image and a log.
#[derive(Clone, Copy, Debug, PartialEq, Eq)]
pub enum Verdict {
    /// The image and the log are those of the record, and the log's turns end as it says.
    Verified,
    /// They aren't, or they don't.
    Differs,
}

impl Verdict {
    /// The exit status of a program that comes to it.
    pub fn status(self) -> u8
        ensures { result ≡ spec.status_of self }
    {
        match self {
            Verdict::Verified => 0,
            Verdict::Differs => 3,
        }
    }
}

/// What an image and a log are, and come to.
#[derive(Clone, Copy)]
pub(crate) struct Found {
    pub(crate) image: [u8; 32],
    pub(crate) log: [u8; 32],
    pub(crate) end: RunEnd,
}

/// Reads a record, an image and a log of turns, replays the log over the image, and writes whether all is as the record
/// says, or what isn't. All files are read first, in this order, and judged in this order.
pub fn verify_bytes<K: Source, I: Source, L: Source, O: Sink>(
    alloc: Global,
    kept: &mut K,
    image: &mut I,
    log: &mut L,
    out: &mut O,
) -> Result<Verdict, Fault>
    requires kept { K.failed kept.old + 1 < 2 ^ 64 }
    requires image { I.failed image.old + 1 < 2 ^ 64 }
    requires log { L.failed log.old + 1 < 2 ^ 64 }
    requires out { O.failed out.old + 1 < 2 ^ 64 }
    ensures { PerformsAs IsVerdict IsRefusedVerdict
        (both (both (text_of K.place K.failed K.gave K.ended kept.old kept.new)
        (image_bytes_of I.place I.failed I.gave I.ended image.old image.new))
        (log_bytes_of L.place L.failed L.gave L.ended log.old log.new))
        (sink_of O.place O.failed O.took out.old out.new) result }
{
    let record_text = read_text(alloc, kept)?;
    let image_bytes = read_image_bytes(alloc, image)?;
    let log_bytes = read_log_bytes(alloc, log)?;
    let (verdict, text) = judge(alloc, &record_text, image_bytes, &log_bytes)?;
    write_all(alloc, out, &text)?;
    Ok(verdict)
}

/// What is said of a record, an image and a log, or the first refusal. The image's bytes are let go as soon as they are
/// read.
#[tactic(auto, unfolding(crate::specs::Verify::answer))]
fn judge(
    alloc: Global,
    record_text: &str,
    image: Vec<u8>,
    log: &[u8],
) -> Result<(Verdict, Vec<u8>), Fault>
    ensures ok { IfOk result (λ made. IsVerdict made.0 ((record_text.now, image.items), log.now) made.1.items) }
    ensures err { IfErr result (Unmeant IsRefusedVerdict ((record_text.now, image.items), log.now)) }
{
    let recorded = read_record(record_text.as_bytes())?;
    let digest = digest_of(&image);
    let read = read_image(alloc, &image)?;
    drop(image);
    let found = find(alloc, &read, digest, log)?;
    Ok(verdict_on(alloc, &recorded, &found)?)
}

/// What an image of this digest and a log come to, or the refusal of the log.
fn find(alloc: Global, image: &Image, digest: [u8; 32], log: &[u8]) -> Result<Found, Fault>
    ensures ok { IfOk result (IsFound image.now digest log.now) }
    ensures err { IfErr result (Unmeant IsRefusedLog log.now) }
{
    let turns = TurnLog::read(alloc, log)?;
    let mut machine = image.machine(alloc, turns.harts())?;
    make_turns(&mut machine, &turns);
    let end = RunEnd {
        harts: turns.harts(),
        ending: ending_of(&machine),
    };
    Ok(Found {
        image: digest,
        log: digest_of(log),
        end,
    })
}

/// What is said of a record and of what was found.
fn verdict_on(
    alloc: Global,
    recorded: &RunRecord<'_>,
    found: &Found,
) -> Result<(Verdict, Vec<u8>), AllocError>
    ensures { IfOk result (λ made. (made.0, made.1.items)
        ≡ spec.verdict (records.contents_of recorded.now) (contents_found recorded.now.limit found.now)) }
{
    let mut text = Vec::new(alloc);
    push_maker(&mut text, recorded.version, recorded.logic)?;
    if is_verified(recorded, found) {
        text.extend_from_slice(b"verified\n")?;
        return Ok((Verdict::Verified, text));
    }
    push_differences(&mut text, recorded, found)?;
    Ok((Verdict::Differs, text))
}

/// Appends a line where another version made the record, or one in another logic.
fn push_maker(text: &mut Vec<u8>, version: &[u8], logic: &[u8]) -> Result<(), AllocError>
    ensures { OnOk result (text.new.items ≡ text.old.items ++ spec.maker version.now logic.now) }
{
    if is_own(version, logic) {
        return Ok(());
    }
    push_made_by(text, version, logic)
}

/// Appends a line of a version and a logic.
fn push_made_by(text: &mut Vec<u8>, version: &[u8], logic: &[u8]) -> Result<(), AllocError>
    ensures { OnOk result (text.new.items ≡ text.old.items ++ spec.made_by version.now logic.now) }
{
    text.extend_from_slice(b"made by version ")?;
    text.extend_from_slice(version)?;
    text.extend_from_slice(b" logic ")?;
    text.extend_from_slice(logic)?;
    text.push(b'\n')?;
    Ok(())
}

/// Whether version and logic are this program's.
fn is_own(version: &[u8], logic: &[u8]) -> bool
    ensures { result ≡ spec.is_own version.now logic.now }
{
    version == RELEASE.as_slice() && logic == LOGIC.as_slice()
}

/// Whether all is as the record says.
fn is_verified(recorded: &RunRecord<'_>, found: &Found) -> bool
    ensures { result
        ≡ spec.is_verified (records.contents_of recorded.now) (contents_found recorded.now.limit found.now) }
{
    recorded.image.as_slice() == found.image.as_slice()
        && recorded.log.as_slice() == found.log.as_slice()
        && recorded.harts == found.end.harts as u64
        && recorded.ending.is_same(found.end.ending)
}

/// Appends a line for each part that isn't as the record says.
fn push_differences(
    text: &mut Vec<u8>,
    recorded: &RunRecord<'_>,
    found: &Found,
) -> Result<(), AllocError>
    ensures { OnOk result (text.new.items ≡ text.old.items
        ++ spec.differences (records.contents_of recorded.now) (contents_found recorded.now.limit found.now)) }
{
    let is_image = recorded.image.as_slice() == found.image.as_slice();
    push_difference(text, is_image, b"image")?;
    let is_log = recorded.log.as_slice() == found.log.as_slice();
    push_difference(text, is_log, b"log")?;
    push_difference(text, recorded.harts == found.end.harts as u64, b"harts")?;
    push_difference(text, recorded.ending.is_same(found.end.ending), b"ending")?;
    Ok(())
}

/// Appends a line where something isn't the same.
fn push_difference(text: &mut Vec<u8>, is_same: bool, name: &[u8]) -> Result<(), AllocError>
    ensures { OnOk result (text.new.items ≡ text.old.items ++ spec.difference is_same name.now) }
{
    if is_same {
        return Ok(());
    }
    text.extend_from_slice(b"differs ")?;
    text.extend_from_slice(name)?;
    text.push(b'\n')?;
    Ok(())
}
