//! Runs of an image, by threads or drawn, and with a record where one is asked for.

ghost use Rattle.std.specs.Prelude.{◌≤◌, None, Some, option_map};
ghost use Rattle.hrv_command_line.specs.CommandLine.{AreWithinLimits, Resumes, Runs, RunsDrawn};
ghost use Rattle.hrv.specs.Dispatch.{Does};

use crate::dispatch::Devices;
use hrv_command_line::DrawArguments;
use hrv_engines::{
    DrawRules, Fault, Resources, resume_bytes, resume_recorded_bytes, run_bytes, run_drawn_bytes,
    run_drawn_recorded_bytes, run_recorded_bytes,
};
use std::alloc::Global;
use std::sync::Wait;
use std::thread::Threads;

/// `run IMAGE LOG --harts N --turns L --record RECORD`, with a record or without.
pub fn run<'a, R: Threads + Wait + Sync, D: Devices<'a>>(
    resources: &Resources<'_, R>,
    devices: &D,
    image: &'a str,
    log: &'a str,
    record: Option<&'a str>,
    harts: u64,
    turns: u64,
) -> Result<(), Fault>
    requires { AreWithinLimits harts turns }
    ensures { Does D.Read.place D.Read.failed D.Read.gave D.Read.ended
        D.Written.place D.Written.failed D.Written.took
        D.Typed.place D.Typed.failed D.Typed.gave D.Typed.ended
        D.Printed.place D.Printed.failed D.Printed.took resources.now.alloc (Runs image.entry.now log.entry.now
        (option_map (λ s. s.now) «record».entry) harts turns) result }
{
    match record {
        None => run_alone(resources, devices, image, log, harts, turns),
        Some(record) => run_recorded(resources, devices, image, log, record, harts, turns),
    }
}

/// `run IMAGE LOG --harts N --turns L`
#[inline(never)]
fn run_alone<'a, R: Threads + Wait + Sync, D: Devices<'a>>(
    resources: &Resources<'_, R>,
    devices: &D,
    image: &'a str,
    log: &'a str,
    harts: u64,
    turns: u64,
) -> Result<(), Fault>
    requires { AreWithinLimits harts turns }
    ensures { Does D.Read.place D.Read.failed D.Read.gave D.Read.ended
        D.Written.place D.Written.failed D.Written.took
        D.Typed.place D.Typed.failed D.Typed.gave D.Typed.ended
        D.Printed.place D.Printed.failed D.Printed.took resources.now.alloc (Runs image.entry.now log.entry.now
        None harts turns) result }
{
    run_bytes(
        resources,
        &mut devices.read(image),
        &mut devices.written(log),
        &mut devices.printed(),
        harts as usize,
        turns,
    )
}

/// `run IMAGE LOG --harts N --turns L --record RECORD`
#[inline(never)]
fn run_recorded<'a, R: Threads + Wait + Sync, D: Devices<'a>>(
    resources: &Resources<'_, R>,
    devices: &D,
    image: &'a str,
    log: &'a str,
    record: &'a str,
    harts: u64,
    turns: u64,
) -> Result<(), Fault>
    requires { AreWithinLimits harts turns }
    ensures { Does D.Read.place D.Read.failed D.Read.gave D.Read.ended
        D.Written.place D.Written.failed D.Written.took
        D.Typed.place D.Typed.failed D.Typed.gave D.Typed.ended
        D.Printed.place D.Printed.failed D.Printed.took resources.now.alloc (Runs image.entry.now log.entry.now
        (Some «record».entry.now) harts turns) result }
{
    run_recorded_bytes(
        resources,
        &mut devices.read(image),
        &mut devices.written(log),
        &mut devices.written(record),
        &mut devices.printed(),
        harts as usize,
        turns,
    )
}

/// `run IMAGE LOG --turns L --from OLD --record RECORD`, with a record or without.
pub fn resume<'a, R: Threads + Wait + Sync, D: Devices<'a>>(
    resources: &Resources<'_, R>,
    devices: &D,
    image: &'a str,
    log: &'a str,
    record: Option<&'a str>,
    old: &'a str,
    turns: u64,
) -> Result<(), Fault>
    ensures { Does D.Read.place D.Read.failed D.Read.gave D.Read.ended
        D.Written.place D.Written.failed D.Written.took
        D.Typed.place D.Typed.failed D.Typed.gave D.Typed.ended
        D.Printed.place D.Printed.failed D.Printed.took resources.now.alloc (Resumes image.entry.now log.entry.now
        (option_map (λ s. s.now) «record».entry) old.entry.now turns) result }
{
    match record {
        None => resume_alone(resources, devices, image, log, old, turns),
        Some(record) => resume_recorded(resources, devices, image, log, record, old, turns),
    }
}

/// `run IMAGE LOG --turns L --from OLD`
#[inline(never)]
fn resume_alone<'a, R: Threads + Wait + Sync, D: Devices<'a>>(
    resources: &Resources<'_, R>,
    devices: &D,
    image: &'a str,
    log: &'a str,
    old: &'a str,
    turns: u64,
) -> Result<(), Fault>
    ensures { Does D.Read.place D.Read.failed D.Read.gave D.Read.ended
        D.Written.place D.Written.failed D.Written.took
        D.Typed.place D.Typed.failed D.Typed.gave D.Typed.ended
        D.Printed.place D.Printed.failed D.Printed.took resources.now.alloc (Resumes image.entry.now log.entry.now
        None old.entry.now turns) result }
{
    let mut image = devices.read(image);
    let mut old = devices.read(old);
    let mut log = devices.written(log);
    resume_bytes(
        resources,
        &mut image,
        &mut old,
        &mut log,
        &mut devices.printed(),
        turns,
    )
}

/// `run IMAGE LOG --turns L --from OLD --record RECORD`
#[inline(never)]
fn resume_recorded<'a, R: Threads + Wait + Sync, D: Devices<'a>>(
    resources: &Resources<'_, R>,
    devices: &D,
    image: &'a str,
    log: &'a str,
    record: &'a str,
    old: &'a str,
    turns: u64,
) -> Result<(), Fault>
    ensures { Does D.Read.place D.Read.failed D.Read.gave D.Read.ended
        D.Written.place D.Written.failed D.Written.took
        D.Typed.place D.Typed.failed D.Typed.gave D.Typed.ended
        D.Printed.place D.Printed.failed D.Printed.took resources.now.alloc (Resumes image.entry.now log.entry.now
        (Some «record».entry.now) old.entry.now turns) result }
{
    let mut image = devices.read(image);
    let mut old = devices.read(old);
    let mut log = devices.written(log);
    let mut kept = devices.written(record);
    resume_recorded_bytes(
        resources,
        &mut image,
        &mut old,
        &mut log,
        &mut kept,
        &mut devices.printed(),
        turns,
    )
}

/// `run IMAGE LOG --harts N --turns L --seed S --every K --record RECORD`, with a record or without.
pub fn run_drawn<'a, D: Devices<'a>>(
    alloc: Global,
    devices: &D,
    image: &'a str,
    log: &'a str,
    record: Option<&'a str>,
    draws: DrawArguments,
) -> Result<(), Fault>
    requires limits { AreWithinLimits draws.harts draws.turns }
    requires every { 1 ≤ draws.every }
    ensures { Does D.Read.place D.Read.failed D.Read.gave D.Read.ended
        D.Written.place D.Written.failed D.Written.took
        D.Typed.place D.Typed.failed D.Typed.gave D.Typed.ended
        D.Printed.place D.Printed.failed D.Printed.took alloc (RunsDrawn image.entry.now log.entry.now
        (option_map (λ s. s.now) «record».entry) draws.harts draws.turns draws.seed draws.every) result }
{
    match record {
        None => run_drawn_alone(alloc, devices, image, log, draws),
        Some(record) => run_drawn_recorded(alloc, devices, image, log, record, draws),
    }
}

/// `run IMAGE LOG --harts N --turns L --seed S --every K`
#[inline(never)]
fn run_drawn_alone<'a, D: Devices<'a>>(
    alloc: Global,
    devices: &D,
    image: &'a str,
    log: &'a str,
    draws: DrawArguments,
) -> Result<(), Fault>
    requires limits { AreWithinLimits draws.harts draws.turns }
    requires every { 1 ≤ draws.every }
    ensures { Does D.Read.place D.Read.failed D.Read.gave D.Read.ended
        D.Written.place D.Written.failed D.Written.took
        D.Typed.place D.Typed.failed D.Typed.gave D.Typed.ended
        D.Printed.place D.Printed.failed D.Printed.took alloc
        (RunsDrawn image.entry.now log.entry.now None draws.harts draws.turns draws.seed draws.every) result }
{
    let mut image = devices.read(image);
    let mut log = devices.written(log);
    let rules = DrawRules {
        seed: draws.seed,
        every: draws.every,
        limit: draws.turns,
    };
    run_drawn_bytes(
        alloc,
        &mut image,
        &mut log,
        &mut devices.printed(),
        draws.harts as usize,
        rules,
    )
}

/// `run IMAGE LOG --harts N --turns L --seed S --every K --record RECORD`
#[inline(never)]
fn run_drawn_recorded<'a, D: Devices<'a>>(
    alloc: Global,
    devices: &D,
    image: &'a str,
    log: &'a str,
    record: &'a str,
    draws: DrawArguments,
) -> Result<(), Fault>
    requires limits { AreWithinLimits draws.harts draws.turns }
    requires every { 1 ≤ draws.every }
    ensures { Does D.Read.place D.Read.failed D.Read.gave D.Read.ended
        D.Written.place D.Written.failed D.Written.took
        D.Typed.place D.Typed.failed D.Typed.gave D.Typed.ended
        D.Printed.place D.Printed.failed D.Printed.took alloc
        (RunsDrawn image.entry.now log.entry.now (Some «record».entry.now) draws.harts draws.turns draws.seed
        draws.every) result }
{
    let mut image = devices.read(image);
    let mut log = devices.written(log);
    let mut kept = devices.written(record);
    let rules = DrawRules {
        seed: draws.seed,
        every: draws.every,
        limit: draws.turns,
    };
    run_drawn_recorded_bytes(
        alloc,
        &mut image,
        &mut log,
        &mut kept,
        &mut devices.printed(),
        draws.harts as usize,
        rules,
    )
}
