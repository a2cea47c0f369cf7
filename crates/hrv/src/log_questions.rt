//! What logs are asked: who wrote a word, where turns go, what each did, and where harts race.

ghost use Rattle.std.specs.Prelude.{option_map};
ghost use Rattle.clap.specs.Walk.{texts};
ghost use Rattle.hrv_command_line.specs.CommandLine.{Blames, FindsRaces, Profiles, Traces};
ghost use Rattle.hrv.specs.Dispatch.{Does};

use crate::dispatch::Devices;
use hrv_command_line::{BlameArguments, TraceArguments};
use hrv_engines::{
    Fault, Question, TraceQuestion, blame_bytes, profile_bytes, races_bytes, trace_bytes,
};
use std::alloc::Global;

/// `blame IMAGE LOG [X Y] --address A --turns`
#[inline(never)]
pub fn blame<'a, D: Devices<'a>>(
    alloc: Global,
    devices: &D,
    image: &'a str,
    log: &'a str,
    words: BlameArguments<'a>,
) -> Result<(), Fault>
    ensures { Does D.Read.place D.Read.failed D.Read.gave D.Read.ended
        D.Written.place D.Written.failed D.Written.took
        D.Typed.place D.Typed.failed D.Typed.gave D.Typed.ended
        D.Printed.place D.Printed.failed D.Printed.took alloc
        (Blames image.entry.now log.entry.now (option_map (λ s. s.now) words.entry.x)
        (option_map (λ s. s.now) words.entry.y)
        (option_map (λ s. s.now) words.entry.address) words.entry.with_turns) result }
{
    let question = Question {
        x: words.x,
        y: words.y,
        address: words.address,
        with_turns: words.with_turns,
    };
    let mut image = devices.read(image);
    let mut log = devices.read(log);
    blame_bytes(
        alloc,
        &mut image,
        &mut log,
        question,
        &mut devices.printed(),
    )
}

/// `profile IMAGE LOG`
#[inline(never)]
pub fn profile<'a, D: Devices<'a>>(
    alloc: Global,
    devices: &D,
    image: &'a str,
    log: &'a str,
) -> Result<(), Fault>
    ensures { Does D.Read.place D.Read.failed D.Read.gave D.Read.ended
        D.Written.place D.Written.failed D.Written.took
        D.Typed.place D.Typed.failed D.Typed.gave D.Typed.ended
        D.Printed.place D.Printed.failed D.Printed.took alloc (Profiles image.entry.now log.entry.now) result }
{
    let mut image = devices.read(image);
    let mut log = devices.read(log);
    profile_bytes(alloc, &mut image, &mut log, &mut devices.printed())
}

/// `trace IMAGE LOG --from K --to K --hart H --address A`
#[inline(never)]
pub fn trace<'a, D: Devices<'a>>(
    alloc: Global,
    devices: &D,
    image: &'a str,
    log: &'a str,
    words: TraceArguments<'a>,
) -> Result<(), Fault>
    ensures { Does D.Read.place D.Read.failed D.Read.gave D.Read.ended
        D.Written.place D.Written.failed D.Written.took
        D.Typed.place D.Typed.failed D.Typed.gave D.Typed.ended
        D.Printed.place D.Printed.failed D.Printed.took alloc
        (Traces image.entry.now log.entry.now words.entry.from words.entry.to words.entry.hart
        (option_map (λ s. s.now) words.entry.address)) result }
{
    let question = TraceQuestion {
        from: words.from,
        to: words.to,
        hart: words.hart,
        address: words.address,
    };
    let mut image = devices.read(image);
    let mut log = devices.read(log);
    trace_bytes(
        alloc,
        &mut image,
        &mut log,
        question,
        &mut devices.printed(),
    )
}

/// `races IMAGE LOG [BUT..]`
#[inline(never)]
pub fn races<'a, D: Devices<'a>>(
    alloc: Global,
    devices: &D,
    image: &'a str,
    log: &'a str,
    but: Vec<&'a str>,
) -> Result<(), Fault>
    ensures { Does D.Read.place D.Read.failed D.Read.gave D.Read.ended
        D.Written.place D.Written.failed D.Written.took
        D.Typed.place D.Typed.failed D.Typed.gave D.Typed.ended
        D.Printed.place D.Printed.failed D.Printed.took alloc
        (FindsRaces image.entry.now log.entry.now (texts but.entry.items)) result }
{
    let mut image = devices.read(image);
    let mut log = devices.read(log);
    races_bytes(
        alloc,
        &mut image,
        &mut log,
        but.as_slice(),
        &mut devices.printed(),
    )
}
