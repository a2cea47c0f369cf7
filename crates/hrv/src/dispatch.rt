//! What the words ask for, done by the engine of the command over the devices that they name.

ghost use Rattle.std.specs.Prelude.{◌≡◌, codes, map, IfOk};
ghost use Rattle.std.specs.List.{All};
ghost use Rattle.clap.specs.Walk.{texts};
ghost use Rattle.hrv_command_line.specs.CommandLine.{Assembles, Compiles, Debugs, Digests, Draws, Explains};
ghost use Rattle.hrv_command_line.specs.CommandLine.{IsWithinLimits, Lists, ListsAddresses, MakesLog, Maps};
ghost use Rattle.hrv_command_line.specs.CommandLine.{PrintsLog, Renews, Replays, TellsVersion, Verifies};
ghost use Rattle.hrv_command_line.specs.CommandLine.{asked_by};
ghost use Rattle.hrv.specs.Dispatch.{Does, Judges};

use crate::log_questions::{blame, profile, races, trace};
use crate::running::{resume, run, run_drawn};
use hrv_command_line::Invocation;
use hrv_engines::{
    Fault, Resources, Sink, Source, Verdict, asm_bytes, compile_bytes, debug_bytes, digest_bytes,
    dis_addresses_bytes, dis_bytes, explain_bytes, make_log_bytes, map_bytes, picture_bytes,
    print_log_bytes, renew_bytes, replay_bytes, verify_bytes, version_bytes,
};
use std::alloc::{AllocError, Global};
use std::sync::Wait;
use std::thread::Threads;

/// Where the devices of a command come from. Paths live as long as `'a`.
pub trait Devices<'a> {
    /// A file that is read.
    type Read: Source + Drop;
    /// A file that is written.
    type Written: Sink + Drop;
    /// Standard input.
    type Typed: Source + Drop;
    /// Standard output.
    type Printed: Sink + Drop;

    /// The file at a path, to be read.
    fn read(&self, path: &'a str) -> Self::Read
        ensures place { Self.Read.place result ≡ path.entry.now }
        ensures fresh { Self.Read.failed result ≡ 0 };

    /// The file at a path, to be written.
    fn written(&self, path: &'a str) -> Self::Written
        ensures place { Self.Written.place result ≡ path.entry.now }
        ensures fresh { Self.Written.failed result ≡ 0 };

    /// Standard input.
    fn typed(&self) -> Self::Typed
        ensures place { Self.Typed.place result ≡ codes "-" }
        ensures fresh { Self.Typed.failed result ≡ 0 };

    /// Standard output.
    fn printed(&self) -> Self::Printed
        ensures place { Self.Printed.place result ≡ codes "-" }
        ensures fresh { Self.Printed.failed result ≡ 0 };
}

// What is named first lies first in the program: so all that `compile` needs lies on few pages. Commands are functions
// of their own, so that no command's frame has room for what the others need.

/// Does what an invocation asks for.
pub fn obey<'a, R: Threads + Wait + Sync, D: Devices<'a>>(
    threads: &R,
    alloc: Global,
    devices: &D,
    invocation: Invocation<'a>,
) -> Result<(), Fault>
    requires { IsWithinLimits (asked_by invocation) }
    ensures { Does D.Read.place D.Read.failed D.Read.gave D.Read.ended
        D.Written.place D.Written.failed D.Written.took
        D.Typed.place D.Typed.failed D.Typed.gave D.Typed.ended
        D.Printed.place D.Printed.failed D.Printed.took alloc (asked_by invocation.entry) result }
{
    let resources = Resources { threads, alloc };
    match invocation {
        Invocation::Compile {
            algorithm,
            schedule,
            image,
            inputs,
        } => compile(alloc, devices, algorithm, schedule, image, inputs),
        Invocation::Asm { source, image } => assemble(alloc, devices, source, image),
        Invocation::Dis { image } => list(alloc, devices, image),
        Invocation::DisAddresses { image } => list_addresses(alloc, devices, image),
        Invocation::Renew { old, new } => renew(alloc, devices, old, new),
        Invocation::Replay { image, log } => replay(alloc, devices, image, log),
        Invocation::Debug { image, log } => debug(alloc, devices, image, log),
        Invocation::Blame { image, log, words } => blame(alloc, devices, image, log, words),
        Invocation::Profile { image, log } => profile(alloc, devices, image, log),
        Invocation::Trace { image, log, words } => trace(alloc, devices, image, log, words),
        Invocation::Races { image, log, but } => races(alloc, devices, image, log, but),
        Invocation::PrintLog { log } => print_log(alloc, devices, log),
        Invocation::MakeLog { text, log } => make_log(alloc, devices, text, log),
        Invocation::Picture { algorithm, inputs } => {
            draw(threads, alloc, devices, algorithm, inputs)
        }
        Invocation::Map {
            algorithm,
            schedule,
        } => show_map(alloc, devices, algorithm, schedule),
        Invocation::Run {
            image,
            log,
            record,
            harts,
            turns,
        } => run(&resources, devices, image, log, record, harts, turns),
        Invocation::Resume {
            image,
            log,
            record,
            old,
            turns,
        } => resume(&resources, devices, image, log, record, old, turns),
        Invocation::RunDrawn {
            image,
            log,
            record,
            draws,
        } => run_drawn(alloc, devices, image, log, record, draws),
        Invocation::Digest { files } => digest(alloc, devices, files),
        Invocation::Verify { record, image, log } => {
            tell_verdict(alloc, devices, record, image, log)
        }
        Invocation::Explain { family, code } => explain(alloc, devices, family, code),
        Invocation::Version => tell_version(alloc, devices),
    }
}

/// `asm SOURCE IMAGE`
#[inline(never)]
fn assemble<'a, D: Devices<'a>>(
    alloc: Global,
    devices: &D,
    source: &'a str,
    image: &'a str,
) -> Result<(), Fault>
    ensures { Does D.Read.place D.Read.failed D.Read.gave D.Read.ended
        D.Written.place D.Written.failed D.Written.took
        D.Typed.place D.Typed.failed D.Typed.gave D.Typed.ended
        D.Printed.place D.Printed.failed D.Printed.took alloc (Assembles source.entry.now image.entry.now) result }
{
    asm_bytes(
        alloc,
        &mut devices.read(source),
        &mut devices.written(image),
    )
}

/// `dis IMAGE`
#[inline(never)]
fn list<'a, D: Devices<'a>>(alloc: Global, devices: &D, image: &'a str) -> Result<(), Fault>
    ensures { Does D.Read.place D.Read.failed D.Read.gave D.Read.ended
        D.Written.place D.Written.failed D.Written.took
        D.Typed.place D.Typed.failed D.Typed.gave D.Typed.ended
        D.Printed.place D.Printed.failed D.Printed.took alloc (Lists image.entry.now) result }
{
    dis_bytes(alloc, &mut devices.read(image), &mut devices.printed())
}

/// `dis IMAGE --addresses`
#[inline(never)]
fn list_addresses<'a, D: Devices<'a>>(
    alloc: Global,
    devices: &D,
    image: &'a str,
) -> Result<(), Fault>
    ensures { Does D.Read.place D.Read.failed D.Read.gave D.Read.ended
        D.Written.place D.Written.failed D.Written.took
        D.Typed.place D.Typed.failed D.Typed.gave D.Typed.ended
        D.Printed.place D.Printed.failed D.Printed.took alloc (ListsAddresses image.entry.now) result }
{
    dis_addresses_bytes(alloc, &mut devices.read(image), &mut devices.printed())
}

/// `renew OLD NEW`
#[inline(never)]
fn renew<'a, D: Devices<'a>>(
    alloc: Global,
    devices: &D,
    from: &'a str,
    to: &'a str,
) -> Result<(), Fault>
    ensures { Does D.Read.place D.Read.failed D.Read.gave D.Read.ended
        D.Written.place D.Written.failed D.Written.took
        D.Typed.place D.Typed.failed D.Typed.gave D.Typed.ended
        D.Printed.place D.Printed.failed D.Printed.took alloc (Renews from.entry.now to.entry.now) result }
{
    renew_bytes(alloc, &mut devices.read(from), &mut devices.written(to))
}

/// `replay IMAGE LOG`
#[inline(never)]
fn replay<'a, D: Devices<'a>>(
    alloc: Global,
    devices: &D,
    image: &'a str,
    log: &'a str,
) -> Result<(), Fault>
    ensures { Does D.Read.place D.Read.failed D.Read.gave D.Read.ended
        D.Written.place D.Written.failed D.Written.took
        D.Typed.place D.Typed.failed D.Typed.gave D.Typed.ended
        D.Printed.place D.Printed.failed D.Printed.took alloc (Replays image.entry.now log.entry.now) result }
{
    let mut image = devices.read(image);
    let mut log = devices.read(log);
    replay_bytes(alloc, &mut image, &mut log, &mut devices.printed())
}

/// `debug IMAGE LOG`
#[inline(never)]
fn debug<'a, D: Devices<'a>>(
    alloc: Global,
    devices: &D,
    image: &'a str,
    log: &'a str,
) -> Result<(), Fault>
    ensures { Does D.Read.place D.Read.failed D.Read.gave D.Read.ended
        D.Written.place D.Written.failed D.Written.took
        D.Typed.place D.Typed.failed D.Typed.gave D.Typed.ended
        D.Printed.place D.Printed.failed D.Printed.took alloc (Debugs image.entry.now log.entry.now) result }
{
    let mut image = devices.read(image);
    let mut log = devices.read(log);
    debug_bytes(
        alloc,
        &mut image,
        &mut log,
        &mut devices.typed(),
        &mut devices.printed(),
    )
}

/// `log LOG`
#[inline(never)]
fn print_log<'a, D: Devices<'a>>(alloc: Global, devices: &D, log: &'a str) -> Result<(), Fault>
    ensures { Does D.Read.place D.Read.failed D.Read.gave D.Read.ended
        D.Written.place D.Written.failed D.Written.took
        D.Typed.place D.Typed.failed D.Typed.gave D.Typed.ended
        D.Printed.place D.Printed.failed D.Printed.took alloc (PrintsLog log.entry.now) result }
{
    print_log_bytes(alloc, &mut devices.read(log), &mut devices.printed())
}

/// `log TEXT LOG`
#[inline(never)]
fn make_log<'a, D: Devices<'a>>(
    alloc: Global,
    devices: &D,
    text: &'a str,
    log: &'a str,
) -> Result<(), Fault>
    ensures { Does D.Read.place D.Read.failed D.Read.gave D.Read.ended
        D.Written.place D.Written.failed D.Written.took
        D.Typed.place D.Typed.failed D.Typed.gave D.Typed.ended
        D.Printed.place D.Printed.failed D.Printed.took alloc (MakesLog text.entry.now log.entry.now) result }
{
    make_log_bytes(alloc, &mut devices.read(text), &mut devices.written(log))
}

/// `digest FILE..`
#[inline(never)]
fn digest<'a, D: Devices<'a>>(alloc: Global, devices: &D, files: Vec<&'a str>) -> Result<(), Fault>
    ensures { Does D.Read.place D.Read.failed D.Read.gave D.Read.ended
        D.Written.place D.Written.failed D.Written.took
        D.Typed.place D.Typed.failed D.Typed.gave D.Typed.ended
        D.Printed.place D.Printed.failed D.Printed.took alloc (Digests (texts files.entry.items)) result }
{
    let mut sources = sources_of(alloc, devices, files.as_slice())?;
    digest_bytes(
        alloc,
        files.as_slice(),
        sources.as_mut_slice(),
        &mut devices.printed(),
    )
}

/// `verify RECORD IMAGE LOG`, and the verdict.
#[inline(never)]
pub fn verify<'a, D: Devices<'a>>(
    alloc: Global,
    devices: &D,
    record: &'a str,
    image: &'a str,
    log: &'a str,
) -> Result<Verdict, Fault>
    ensures { Judges D.Read.place D.Read.failed D.Read.gave D.Read.ended
        D.Written.place D.Written.failed D.Written.took
        D.Typed.place D.Typed.failed D.Typed.gave D.Typed.ended
        D.Printed.place D.Printed.failed D.Printed.took
        alloc «record».entry.now image.entry.now log.entry.now result }
{
    let mut kept = devices.read(record);
    let mut image = devices.read(image);
    let mut log = devices.read(log);
    verify_bytes(
        alloc,
        &mut kept,
        &mut image,
        &mut log,
        &mut devices.printed(),
    )
}

/// `verify RECORD IMAGE LOG`, where it isn't asked what the verdict is.
#[inline(never)]
fn tell_verdict<'a, D: Devices<'a>>(
    alloc: Global,
    devices: &D,
    record: &'a str,
    image: &'a str,
    log: &'a str,
) -> Result<(), Fault>
    ensures { Does D.Read.place D.Read.failed D.Read.gave D.Read.ended
        D.Written.place D.Written.failed D.Written.took
        D.Typed.place D.Typed.failed D.Typed.gave D.Typed.ended
        D.Printed.place D.Printed.failed D.Printed.took
        alloc (Verifies «record».entry.now image.entry.now log.entry.now) result }
{
    match verify(alloc, devices, record, image, log) {
        Ok(_) => Ok(()),
        Err(fault) => Err(fault),
    }
}

/// `picture ALGORITHM [INPUT..]`
#[inline(never)]
fn draw<'a, R: Threads + Sync, D: Devices<'a>>(
    threads: &R,
    alloc: Global,
    devices: &D,
    algorithm: &'a str,
    inputs: Vec<&'a str>,
) -> Result<(), Fault>
    ensures { Does D.Read.place D.Read.failed D.Read.gave D.Read.ended
        D.Written.place D.Written.failed D.Written.took
        D.Typed.place D.Typed.failed D.Typed.gave D.Typed.ended
        D.Printed.place D.Printed.failed D.Printed.took alloc (Draws algorithm.entry.now (texts inputs.entry.items))
        result }
{
    let mut sources = sources_of(alloc, devices, inputs.as_slice())?;
    picture_bytes(
        threads,
        alloc,
        &mut devices.read(algorithm),
        sources.as_mut_slice(),
        &mut devices.printed(),
    )
}

/// `compile ALGORITHM SCHEDULE IMAGE [INPUT..]`
#[inline(never)]
fn compile<'a, D: Devices<'a>>(
    alloc: Global,
    devices: &D,
    algorithm: &'a str,
    schedule: &'a str,
    image: &'a str,
    inputs: Vec<&'a str>,
) -> Result<(), Fault>
    ensures { Does D.Read.place D.Read.failed D.Read.gave D.Read.ended
        D.Written.place D.Written.failed D.Written.took
        D.Typed.place D.Typed.failed D.Typed.gave D.Typed.ended
        D.Printed.place D.Printed.failed D.Printed.took alloc
        (Compiles algorithm.entry.now schedule.entry.now image.entry.now (texts inputs.entry.items)) result }
{
    let mut sources = sources_of(alloc, devices, inputs.as_slice())?;
    let mut algorithm = devices.read(algorithm);
    let mut schedule = devices.read(schedule);
    compile_bytes(
        alloc,
        &mut algorithm,
        &mut schedule,
        sources.as_mut_slice(),
        &mut devices.written(image),
    )
}

/// `map ALGORITHM SCHEDULE`
#[inline(never)]
fn show_map<'a, D: Devices<'a>>(
    alloc: Global,
    devices: &D,
    algorithm: &'a str,
    schedule: &'a str,
) -> Result<(), Fault>
    ensures { Does D.Read.place D.Read.failed D.Read.gave D.Read.ended
        D.Written.place D.Written.failed D.Written.took
        D.Typed.place D.Typed.failed D.Typed.gave D.Typed.ended
        D.Printed.place D.Printed.failed D.Printed.took alloc (Maps algorithm.entry.now schedule.entry.now) result }
{
    let mut text = devices.read(algorithm);
    let mut plan = devices.read(schedule);
    map_bytes(alloc, &mut text, &mut plan, &mut devices.printed())
}

/// `explain FAMILY [CODE]`
#[inline(never)]
fn explain<'a, D: Devices<'a>>(
    alloc: Global,
    devices: &D,
    family: &'a str,
    code: &'a str,
) -> Result<(), Fault>
    ensures { Does D.Read.place D.Read.failed D.Read.gave D.Read.ended
        D.Written.place D.Written.failed D.Written.took
        D.Typed.place D.Typed.failed D.Typed.gave D.Typed.ended
        D.Printed.place D.Printed.failed D.Printed.took alloc (Explains family.entry.now code.entry.now) result }
{
    explain_bytes(alloc, family, code, &mut devices.printed())
}

/// `version`
#[inline(never)]
fn tell_version<'a, D: Devices<'a>>(alloc: Global, devices: &D) -> Result<(), Fault>
    ensures { Does D.Read.place D.Read.failed D.Read.gave D.Read.ended
        D.Written.place D.Written.failed D.Written.took
        D.Typed.place D.Typed.failed D.Typed.gave D.Typed.ended
        D.Printed.place D.Printed.failed D.Printed.took alloc TellsVersion result }
{
    version_bytes(alloc, &mut devices.printed())
}

/// The files at paths, to be read.
fn sources_of<'a, D: Devices<'a>>(
    alloc: Global,
    devices: &D,
    paths: &[&'a str],
) -> Result<Vec<D::Read>, AllocError>
    ensures fresh { IfOk result (λ sources. All (λ source. D.Read.failed source ≡ 0) sources.items) }
    ensures places { IfOk result (λ sources. map D.Read.place sources.items ≡ texts paths.now) }
{
    let mut sources = Vec::new(alloc);
    let mut rest = paths;
    while let [path, others @ ..] = rest {
        sources.push(devices.read(path))?;
        rest = others;
    }
    Ok(sources)
}
