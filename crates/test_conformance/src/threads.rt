//! Runs by several threads, a hart each: what their logs replay to is what they said.

ghost use Rattle.std.specs.Prelude.{◌≤◌, IfOk};

use crate::compilations::compiled;
use crate::failures::CaseFailure;
use crate::runs::limit_of;
use hrv_engines::{Resources, replay_bytes, resume_bytes, run_bytes};
use std::alloc::{AllocError, Global};
use std::sync::Wait;
use std::thread::Threads;
use test_cases::{Part, bytes_of};
use test_devices::{empty_page, tape_of};

/// The most turns that a hart may make.
const MOST_TURNS: u64 = 1 << 40;

/// A run of an image from its start.
pub fn push_threads(
    rt: &(impl Threads + Wait + Sync),
    alloc: Global,
    parts: &[Part],
    out: &mut String,
) -> Result<(), CaseFailure> {
    let [image, harts, turns] = parts else {
        return Err(CaseFailure::Malformed("not three parts"));
    };
    let harts = harts_of(harts.named("harts")?)?;
    let limit = limit_of(turns.named("turns")?)?;
    let image = bytes_of(alloc, image.named("image")?)?;
    push_run_by(rt, alloc, &image, harts, limit, out)
}

/// A run of a compiled image from its start.
pub fn push_shared(
    rt: &(impl Threads + Wait + Sync),
    alloc: Global,
    parts: &[Part],
    out: &mut String,
) -> Result<(), CaseFailure> {
    let [harts, turns, texts @ ..] = parts else {
        return Err(CaseFailure::Malformed("not four parts"));
    };
    let harts = harts_of(harts.named("harts")?)?;
    let limit = limit_of(turns.named("turns")?)?;
    let (page, answered) = compiled(alloc, texts)?;
    answered?;
    push_run_by(rt, alloc, &page.bytes, harts, limit, out)
}

/// A run of an image that goes on from a log of several harts.
pub fn push_rejoined(
    rt: &(impl Threads + Wait + Sync),
    alloc: Global,
    parts: &[Part],
    out: &mut String,
) -> Result<(), CaseFailure> {
    let [image, old] = parts else {
        return Err(CaseFailure::Malformed("not two parts"));
    };
    let image = bytes_of(alloc, image.named("image")?)?;
    let old = bytes_of(alloc, old.named("log")?)?;
    let (mut log, mut ran) = (empty_page(alloc), empty_page(alloc));
    let (mut source, mut turns) = (tape_of("image", &image), tape_of("old", &old));
    resume_bytes(
        &Resources { threads: rt, alloc },
        &mut source,
        &mut turns,
        &mut log,
        &mut ran,
        MOST_TURNS,
    )?;
    push_replayed(alloc, &image, &log.bytes, &ran.bytes, out)
}

/// Runs an image by this many threads.
fn push_run_by(
    rt: &(impl Threads + Wait + Sync),
    alloc: Global,
    image: &[u8],
    harts: usize,
    limit: u64,
    out: &mut String,
) -> Result<(), CaseFailure>
    requires some { 1 ≤ harts }
    requires few { harts ≤ 8 }
{
    let (mut log, mut ran) = (empty_page(alloc), empty_page(alloc));
    let mut source = tape_of("image", image);
    run_bytes(
        &Resources { threads: rt, alloc },
        &mut source,
        &mut log,
        &mut ran,
        harts,
        limit,
    )?;
    push_replayed(alloc, image, &log.bytes, &ran.bytes, out)
}

/// What the harts came to and the picture, where the log replays to what the run said.
fn push_replayed(
    alloc: Global,
    image: &[u8],
    log: &[u8],
    ran: &[u8],
    out: &mut String,
) -> Result<(), CaseFailure> {
    let mut replayed = empty_page(alloc);
    let (mut source, mut turns) = (tape_of("image", image), tape_of("log", log));
    replay_bytes(alloc, &mut source, &mut turns, &mut replayed)?;
    if replayed.bytes.as_slice() != ran {
        return Err(CaseFailure::Malformed("the log replays to another dump"));
    }
    match str::from_utf8(ran) {
        Ok(dump) => Ok(push_ends(dump, out)?),
        Err(_) => Err(CaseFailure::Malformed("the dump is no text")),
    }
}

/// Of a dump the lines of the harts and of the picture. How many turns a hart made depends on the run where it has
/// stopped, and where it has finished, on the code that was made.
fn push_ends(dump: &str, out: &mut String) -> Result<(), AllocError> {
    for line in dump.lines() {
        if !line.starts_with("  ") {
            push_end(line, out)?;
        }
    }
    Ok(())
}

fn push_end(line: &str, out: &mut String) -> Result<(), AllocError> {
    let cut = if line.contains(" finished ") {
        line.split_once(" pc ")
    } else if line.contains(" trap ") {
        line.split_once(" turns ")
    } else {
        None
    };
    match cut {
        Some((hart, _)) => writeln!(out, "{hart}"),
        None => writeln!(out, "{line}"),
    }
}

/// How many harts are to run.
pub fn harts_of(lines: &str) -> Result<usize, CaseFailure>
    ensures some { IfOk result (λ harts. 1 ≤ harts) }
    ensures few { IfOk result (λ harts. harts ≤ 8) }
{
    match lines.trim().parse::<usize>() {
        Ok(harts) if 1 <= harts && harts <= 8 => Ok(harts),
        _ => Err(CaseFailure::Malformed("no number of harts")),
    }
}
