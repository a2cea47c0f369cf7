//! Records of runs, what is said of them, and digests of files.

ghost use Rattle.std.specs.Prelude.{◌≡◌, IfOk};
ghost use Rattle.std.specs.List.{All};

use crate::commands::push_answer;
use crate::devices::{Devices, devices_of};
use crate::failures::CaseFailure;
use crate::runs::{limit_of, push_log_bytes, rules_of};
use crate::threads::harts_of;
use hrv_engines::{
    Fault, Resources, digest_bytes, resume_recorded_bytes, run_drawn_recorded_bytes,
    run_recorded_bytes, verify_bytes,
};
use std::alloc::Global;
use std::sync::Wait;
use std::thread::Threads;
use test_cases::{Part, bytes_of};
use test_devices::{Page, Tape};

/// What a recorded run writes.
#[derive(Drop)]
struct Written {
    log: Page,
    kept: Page,
    page: Page,
}

impl Written {
    /// Nothing yet.
    fn new(alloc: Global, devices: &Devices) -> Result<Written, CaseFailure>
        ensures log { IfOk result (λ written. written.log.failures ≡ 0) }
        ensures kept { IfOk result (λ written. written.kept.failures ≡ 0) }
        ensures page { IfOk result (λ written. written.page.failures ≡ 0) }
    {
        Ok(Written {
            log: devices.new_log(alloc)?,
            kept: devices.new_record(alloc)?,
            page: devices.page(alloc)?,
        })
    }
}

/// A run that is recorded: one from its start, one that goes on from a log, or one whose turns are drawn.
pub fn push_recorded(
    rt: &(impl Threads + Wait + Sync),
    alloc: Global,
    parts: &[Part],
    out: &mut String,
) -> Result<(), CaseFailure> {
    let (parts, devices) = devices_of(parts);
    let mut written = Written::new(alloc, &devices)?;
    let answered = match parts {
        [image, turns] => {
            let limit = limit_of(turns.named("turns")?)?;
            run_of(rt, alloc, &devices, image, limit, &mut written)?
        }
        [image, log, turns] => {
            let limit = limit_of(turns.named("turns")?)?;
            resumption_of(rt, alloc, &devices, image, log, limit, &mut written)?
        }
        [image, draws @ ..] => drawn_of(alloc, &devices, image, draws, &mut written)?,
        [] => return Err(CaseFailure::Malformed("no parts")),
    };
    push_log_bytes(&written.log, out)?;
    push_answer(Ok(()), &written.kept, out)?;
    push_answer(answered, &written.page, out)
}

/// What the run of an image by one hart answers.
fn run_of(
    rt: &(impl Threads + Wait + Sync),
    alloc: Global,
    devices: &Devices,
    image: &Part,
    limit: u64,
    written: &mut Written,
) -> Result<Result<(), Fault>, CaseFailure>
    requires log { written.old.log.failures ≡ 0 }
    requires kept { written.old.kept.failures ≡ 0 }
    requires page { written.old.page.failures ≡ 0 }
{
    let image = bytes_of(alloc, image.named("image")?)?;
    Ok(run_recorded_bytes(
        &Resources { threads: rt, alloc },
        &mut devices.tape("image", &image)?,
        &mut written.log,
        &mut written.kept,
        &mut written.page,
        1,
        limit,
    ))
}

/// What a run answers that goes on from a log.
fn resumption_of(
    rt: &(impl Threads + Wait + Sync),
    alloc: Global,
    devices: &Devices,
    image: &Part,
    log: &Part,
    limit: u64,
    written: &mut Written,
) -> Result<Result<(), Fault>, CaseFailure>
    requires log { written.old.log.failures ≡ 0 }
    requires kept { written.old.kept.failures ≡ 0 }
    requires page { written.old.page.failures ≡ 0 }
{
    let image = bytes_of(alloc, image.named("image")?)?;
    let log = bytes_of(alloc, log.named("log")?)?;
    Ok(resume_recorded_bytes(
        &Resources { threads: rt, alloc },
        &mut devices.tape("image", &image)?,
        &mut devices.tape("log", &log)?,
        &mut written.log,
        &mut written.kept,
        &mut written.page,
        limit,
    ))
}

/// What a run answers whose turns are drawn.
fn drawn_of(
    alloc: Global,
    devices: &Devices,
    image: &Part,
    draws: &[Part],
    written: &mut Written,
) -> Result<Result<(), Fault>, CaseFailure>
    requires log { written.old.log.failures ≡ 0 }
    requires kept { written.old.kept.failures ≡ 0 }
    requires page { written.old.page.failures ≡ 0 }
{
    let [harts, turns, seed, every] = draws else {
        return Err(CaseFailure::Malformed("not two, three or five parts"));
    };
    let image = bytes_of(alloc, image.named("image")?)?;
    let harts = harts_of(harts.named("harts")?)?;
    let rules = rules_of(
        turns.named("turns")?,
        seed.named("seed")?,
        every.named("every")?,
    )?;
    Ok(run_drawn_recorded_bytes(
        alloc,
        &mut devices.tape("image", &image)?,
        &mut written.log,
        &mut written.kept,
        &mut written.page,
        harts,
        rules,
    ))
}

/// What is said of a record, an image and a log, and the exit status.
pub fn push_verdict_on(alloc: Global, parts: &[Part], out: &mut String) -> Result<(), CaseFailure> {
    let (parts, devices) = devices_of(parts);
    let [kept, image, log] = parts else {
        return Err(CaseFailure::Malformed("not three parts"));
    };
    let kept = kept.bytes(alloc, "record")?;
    let image = bytes_of(alloc, image.named("image")?)?;
    let log = bytes_of(alloc, log.named("log")?)?;
    let mut page = devices.page(alloc)?;
    let answered = verify_bytes(
        alloc,
        &mut devices.tape("record", &kept)?,
        &mut devices.tape("image", &image)?,
        &mut devices.tape("log", &log)?,
        &mut page,
    );
    match answered {
        Ok(verdict) => {
            push_answer(Ok(()), &page, out)?;
            let status = verdict.status();
            writeln!(out, "status {status}")?;
            Ok(())
        }
        Err(fault) => push_answer(Err(fault), &page, out),
    }
}

/// The lines of files' digests.
pub fn push_digests(alloc: Global, parts: &[Part], out: &mut String) -> Result<(), CaseFailure> {
    let (parts, devices) = devices_of(parts);
    let mut contents = Vec::new(alloc);
    let mut paths = Vec::new(alloc);
    for part in parts {
        contents.push(part.bytes(alloc, "file")?)?;
        paths.push("file")?;
    }
    let mut files = files_of(alloc, &devices, &contents)?;
    let mut page = devices.page(alloc)?;
    let answered = digest_bytes(alloc, &paths, files.as_mut_slice(), &mut page);
    push_answer(answered, &page, out)
}

/// Each file in memory.
fn files_of<'a>(
    alloc: Global,
    devices: &Devices,
    contents: &'a [Vec<u8>],
) -> Result<Vec<Tape<'a>>, CaseFailure>
    ensures { IfOk result (λ tapes. All (λ tape. tape.failures ≡ 0) tapes.items) }
{
    let mut tapes = Vec::new(alloc);
    let mut rest = contents;
    while let [bytes, others @ ..] = rest {
        tapes.push(devices.tape("file", bytes)?)?;
        rest = others;
    }
    Ok(tapes)
}
