//! What runs leave: the log of their turns, and the dump after them. Those by threads are of one hart, since a case has
//! one answer; of drawn ones the seed has one.

ghost use Rattle.std.specs.Prelude.{◌≤◌, IfOk};

use crate::commands::{push_answer, push_digits};
use crate::devices::devices_of;
use crate::failures::CaseFailure;
use crate::threads::harts_of;
use hrv_engines::{DrawRules, Fault, Resources, resume_bytes, run_bytes, run_drawn_bytes};
use std::alloc::{AllocError, Global};
use std::sync::Wait;
use std::thread::Threads;
use test_cases::{Part, bytes_of};
use test_devices::Page;

/// A run of an image from its start.
pub fn push_run(
    rt: &(impl Threads + Wait + Sync),
    alloc: Global,
    parts: &[Part],
    out: &mut String,
) -> Result<(), CaseFailure> {
    let (parts, devices) = devices_of(parts);
    let [image, turns] = parts else {
        return Err(CaseFailure::Malformed("not two parts"));
    };
    let image = bytes_of(alloc, image.named("image")?)?;
    let limit = limit_of(turns.named("turns")?)?;
    let mut new = devices.new_log(alloc)?;
    let mut page = devices.page(alloc)?;
    let answered = run_bytes(
        &Resources { threads: rt, alloc },
        &mut devices.tape("image", &image)?,
        &mut new,
        &mut page,
        1,
        limit,
    );
    push_left(answered, &new, &page, out)
}

/// A run of an image that goes on from a log.
pub fn push_resumption(
    rt: &(impl Threads + Wait + Sync),
    alloc: Global,
    parts: &[Part],
    out: &mut String,
) -> Result<(), CaseFailure> {
    let (parts, devices) = devices_of(parts);
    let [image, log, turns] = parts else {
        return Err(CaseFailure::Malformed("not three parts"));
    };
    let image = bytes_of(alloc, image.named("image")?)?;
    let log = bytes_of(alloc, log.named("log")?)?;
    let limit = limit_of(turns.named("turns")?)?;
    let mut new = devices.new_log(alloc)?;
    let mut page = devices.page(alloc)?;
    let answered = resume_bytes(
        &Resources { threads: rt, alloc },
        &mut devices.tape("image", &image)?,
        &mut devices.tape("log", &log)?,
        &mut new,
        &mut page,
        limit,
    );
    push_left(answered, &new, &page, out)
}

/// A run of an image from its start whose turns are drawn.
pub fn push_drawn(alloc: Global, parts: &[Part], out: &mut String) -> Result<(), CaseFailure> {
    let (parts, devices) = devices_of(parts);
    let [image, harts, turns, seed, every] = parts else {
        return Err(CaseFailure::Malformed("not five parts"));
    };
    let image = bytes_of(alloc, image.named("image")?)?;
    let harts = harts_of(harts.named("harts")?)?;
    let rules = rules_of(
        turns.named("turns")?,
        seed.named("seed")?,
        every.named("every")?,
    )?;
    let mut new = devices.new_log(alloc)?;
    let mut page = devices.page(alloc)?;
    let answered = run_drawn_bytes(
        alloc,
        &mut devices.tape("image", &image)?,
        &mut new,
        &mut page,
        harts,
        rules,
    );
    push_left(answered, &new, &page, out)
}

/// How turns are drawn.
pub fn rules_of(turns: &str, seed: &str, every: &str) -> Result<DrawRules, CaseFailure>
    ensures { IfOk result (λ rules. 1 ≤ rules.every) }
{
    let limit = limit_of(turns)?;
    let seed = number_of(seed)?;
    let every = number_of(every)?;
    if every == 0 {
        return Err(CaseFailure::Malformed("draws of no turns"));
    }
    Ok(DrawRules { seed, every, limit })
}

/// A number on a line.
fn number_of(lines: &str) -> Result<u64, CaseFailure> {
    match lines.trim().parse::<u64>() {
        Ok(number) => Ok(number),
        Err(_) => Err(CaseFailure::Malformed("no number")),
    }
}

/// How many turns a hart makes at most.
pub fn limit_of(lines: &str) -> Result<u64, CaseFailure> {
    match lines.trim().parse::<u64>() {
        Ok(limit) => Ok(limit),
        Err(_) => Err(CaseFailure::Malformed("turns without a number")),
    }
}

/// The bytes of the log that was written, 32 a line, and after them the dump, or why the run refused.
fn push_left(
    answered: Result<(), Fault>,
    new: &Page,
    page: &Page,
    out: &mut String,
) -> Result<(), CaseFailure> {
    push_log_bytes(new, out)?;
    push_answer(answered, page, out)
}

/// The bytes of a log, 32 a line.
pub fn push_log_bytes(new: &Page, out: &mut String) -> Result<(), AllocError> {
    for line in new.bytes.chunks(32) {
        push_digits(line, out)?;
    }
    Ok(())
}
