//! `hrv`: the machine for stencil programs, as a program.
//!
//! The words of its command line are read by the crate `hrv_command_line`, and each command is done by an engine of the
//! crate `hrv_engines`.
//!
//! - [`dispatch`]: the engine of a command over the devices that the words name; [`dispatch::obey`], over
//!   `specs/Dispatch.antt`; those of runs in [`running`].
//! - [`files`], [`file_sinks`]: the system's files and standard input and output, as devices.
//! - [`limits`]: the limit on the size of files, asked before each write.
//! - [`outputs`]: outputs that aren't inputs.
//! - [`streams`]: what is where a standard stream is closed.
//! - [`failures`]: why the program gives no answer, and its exit status.
#![tactic(auto)]

mod dispatch;
mod failures;
mod file_sinks;
mod files;
mod limits;
mod log_questions;
mod outputs;
mod running;
mod streams;

ghost use Rattle.hrv_command_line.specs.CommandLine.{IsWithinLimits, asked_by};

use crate::dispatch::{Devices, obey, verify};
use crate::failures::Failure;
use crate::files::System;
use crate::limits::{Stream, admit_standard, line_length};
use crate::outputs::keep_inputs;
use crate::streams::open_closed_streams;
use hrv_command_line::{CommandLineFault, Invocation, command};
use hrv_engines::Fault;
use std::alloc::Global;
use std::process::ExitCode;
use std::rt::{Env, Files};
use std::sync::Wait;
use std::thread::Threads;
use std::{env, io};

fn main(rt: HostRuntime) -> ExitCode {
    let answered = match open_closed_streams(&rt, rt.alloc()) {
        Ok(streams) => {
            let answered = run(&rt);
            drop(streams);
            answered
        }
        Err(fault) => Err(Failure::Engine(fault)),
    };
    match answered {
        Ok(status) => status,
        Err(failure) => {
            // Where standard error takes no line, the status still tells.
            let _ = report(&rt, &failure);
            ExitCode::from(failure.status())
        }
    }
}

/// Does what the command line asks for, and answers the exit status.
fn run<R: Files + Env + Input + Print + AllocGlobal + Threads + Wait + Sync>(
    rt: &R,
) -> Result<ExitCode, Failure> {
    let alloc = rt.alloc();
    let arguments: Vec<String> = env::args(rt).map_err(word_fault)?.skip(1).collect(alloc)?;
    let words: Vec<&str> = arguments.iter().map(|word| word.as_str()).collect(alloc)?;
    let invocation = command(alloc, &words)?;
    keep_inputs(rt, alloc, &invocation)?;
    let status = done(rt, alloc, &System::new(rt, alloc), invocation)?;
    Ok(status)
}

/// Does what an invocation asks for, and answers the exit status: that of a verdict is its own.
fn done<'a, R: Threads + Wait + Sync, D: Devices<'a>>(
    threads: &R,
    alloc: Global,
    devices: &D,
    invocation: Invocation<'a>,
) -> Result<ExitCode, Fault>
    requires { IsWithinLimits (asked_by invocation) }
{
    match invocation {
        Invocation::Verify { record, image, log } => {
            let verdict = verify(alloc, devices, record, image, log)?;
            Ok(ExitCode::from(verdict.status()))
        }
        other => {
            obey(threads, alloc, devices, other)?;
            Ok(ExitCode::SUCCESS)
        }
    }
}

/// The fault of words that can't be taken as text.
fn word_fault(error: io::Error) -> CommandLineFault {
    match error.kind() {
        io::ErrorKind::OutOfMemory => CommandLineFault::Memory,
        _ => CommandLineFault::NotText,
    }
}

/// Prints a failure's line on standard error, if the limit on the size of files lets it take the line.
fn report<R: Files + Eprint>(rt: &R, failure: &Failure) -> io::Result<()> {
    admit_standard(rt, Stream::Errors, line_length(failure))?;
    eprintln!(rt; "{failure}")
}
