//! Outputs that aren't inputs: a command that would write over what it reads is refused before it reads.

use hrv_command_line::Invocation;
use hrv_engines::Fault;
use std::alloc::Global;
use std::fs;
use std::os::unix::fs::MetadataExt;
use std::rt::Files;

/// Lets a command go on whose output is none of its inputs, by its name or by the file that it leads to. What `renew`
/// and `run --from` write may be the file that they replace.
///
/// # Errors
///
/// The output's path; memory ran out.
pub fn keep_inputs<R: Files>(
    rt: &R,
    alloc: Global,
    invocation: &Invocation<'_>,
) -> Result<(), Fault> {
    match invocation {
        Invocation::Asm { source, image } => keep(rt, alloc, image, &[*source]),
        Invocation::MakeLog { text, log } => keep(rt, alloc, log, &[*text]),
        Invocation::Run {
            image,
            log,
            record,
            ..
        }
        | Invocation::RunDrawn {
            image,
            log,
            record,
            ..
        } => {
            keep(rt, alloc, log, &[*image])?;
            keep_from_record(rt, alloc, *record, log, &[*image])
        }
        Invocation::Resume {
            image,
            log,
            record,
            old,
            ..
        } => {
            keep(rt, alloc, log, &[*image])?;
            keep_from_record(rt, alloc, *record, log, &[*image, *old])
        }
        Invocation::Compile {
            algorithm,
            schedule,
            image,
            inputs,
        } => {
            keep(rt, alloc, image, &[*algorithm, *schedule])?;
            keep(rt, alloc, image, inputs)
        }
        _ => Ok(()),
    }
}

/// Refuses a record that is the log beside it, or one of these inputs.
fn keep_from_record<R: Files>(
    rt: &R,
    alloc: Global,
    record: Option<&str>,
    log: &str,
    inputs: &[&str],
) -> Result<(), Fault> {
    let Some(record) = record else {
        return Ok(());
    };
    if record == log {
        return Err(Fault::File(String::from_str(alloc, record)?));
    }
    keep(rt, alloc, record, &[log])?;
    keep(rt, alloc, record, inputs)
}

/// Refuses an output that is one of these inputs.
fn keep<R: Files>(rt: &R, alloc: Global, output: &str, inputs: &[&str]) -> Result<(), Fault> {
    if are_apart(rt, output, inputs) {
        return Ok(());
    }
    Err(Fault::File(String::from_str(alloc, output)?))
}

/// Whether an output is none of these inputs. A pipe or a terminal may be both.
fn are_apart<R: Files>(rt: &R, output: &str, inputs: &[&str]) -> bool {
    let Ok(written) = fs::metadata(rt, output) else {
        return true;
    };
    !written.is_file() || inputs.iter().all(|input| !leads_to(rt, input, &written))
}

/// Whether a path leads to a file.
fn leads_to<R: Files>(rt: &R, path: &str, file: &fs::Metadata) -> bool {
    match fs::metadata(rt, path) {
        Ok(found) => found.dev() == file.dev() && found.ino() == file.ino(),
        Err(_) => false,
    }
}
