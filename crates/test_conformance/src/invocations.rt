//! Command lines.

use crate::failures::CaseFailure;
use hrv_command_line::{Invocation, TraceArguments, command};
use std::alloc::{AllocError, Global};
use test_cases::Part;

/// What the words of a command line ask for, or the first line of why they are refused.
pub fn push_invocation(alloc: Global, parts: &[Part], out: &mut String) -> Result<(), CaseFailure> {
    let [words] = parts else {
        return Err(CaseFailure::Malformed("not one part"));
    };
    let words = words_of(alloc, "", words.named("words")?)?;
    match command(alloc, &words) {
        Ok(invocation) => push_asked(&invocation, out)?,
        Err(fault) => {
            let text = format!(in alloc; "{fault}")?;
            push_first_line(text.as_str(), out)?;
        }
    }
    Ok(())
}

/// The words of two texts, one a line.
pub fn words_of<'a>(
    alloc: Global,
    first: &'a str,
    others: &'a str,
) -> Result<Vec<&'a str>, AllocError> {
    let mut words = Vec::new(alloc);
    for word in first.lines() {
        words.push(word)?;
    }
    for word in others.lines() {
        words.push(word)?;
    }
    Ok(words)
}

/// Which turns of a log are told of.
fn push_traced(words: &TraceArguments, out: &mut String) -> Result<(), AllocError> {
    write!(out, "from {} to {}", words.from, words.to)?;
    if let Some(hart) = words.hart {
        write!(out, " of {hart}")?;
    }
    if let Some(address) = words.address {
        write!(out, " at {address}")?;
    }
    writeln!(out)
}

/// A command and the files that it names.
fn push_asked(invocation: &Invocation, out: &mut String) -> Result<(), AllocError> {
    match invocation {
        Invocation::Asm { source, image } => writeln!(out, "asm from {source} to {image}"),
        Invocation::Dis { image } => writeln!(out, "dis of {image}"),
        Invocation::DisAddresses { image } => writeln!(out, "dis of {image} with addresses"),
        Invocation::Renew { old, new } => writeln!(out, "renew from {old} to {new}"),
        Invocation::Replay { image, log } => writeln!(out, "replay of {image} by {log}"),
        Invocation::Debug { image, log } => writeln!(out, "debug of {image} by {log}"),
        Invocation::Blame { image, log, words } => {
            write!(out, "blame of {image} by {log} at")?;
            push_given(&[words.x, words.y, words.address], out)?;
            writeln!(out, "{}", if words.with_turns { " with turns" } else { "" })
        }
        Invocation::Profile { image, log } => writeln!(out, "profile of {image} by {log}"),
        Invocation::Trace { image, log, words } => {
            writeln!(out, "trace of {image} by {log}")?;
            push_traced(words, out)
        }
        Invocation::Races { image, log, but } => {
            write!(out, "races of {image} by {log} but")?;
            push_inputs(but, out)
        }
        Invocation::PrintLog { log } => writeln!(out, "log {log}"),
        Invocation::MakeLog { text, log } => writeln!(out, "log of {text} to {log}"),
        Invocation::Picture { algorithm, inputs } => {
            write!(out, "picture by {algorithm} of")?;
            push_inputs(inputs, out)
        }
        Invocation::Compile {
            algorithm,
            schedule,
            image,
            inputs,
        } => {
            write!(out, "compile {algorithm} by {schedule} to {image} with")?;
            push_inputs(inputs, out)
        }
        Invocation::Map {
            algorithm,
            schedule,
        } => writeln!(out, "map of {algorithm} by {schedule}"),
        Invocation::Run {
            image,
            log,
            record,
            harts,
            turns,
        } => {
            write!(
                out,
                "run of {image} to {log} by {harts} harts of {turns} turns"
            )?;
            push_recorded(*record, out)
        }
        Invocation::Resume {
            image,
            log,
            record,
            old,
            turns,
        } => {
            write!(out, "run of {image} from {old} to {log} of {turns} turns")?;
            push_recorded(*record, out)
        }
        Invocation::RunDrawn {
            image,
            log,
            record,
            draws,
        } => {
            write!(
                out,
                "run of {image} to {log} by {} harts of {} turns drawn from {} by {}",
                draws.harts, draws.turns, draws.seed, draws.every
            )?;
            push_recorded(*record, out)
        }
        Invocation::Digest { files } => {
            write!(out, "digest of")?;
            push_inputs(files, out)
        }
        Invocation::Verify { record, image, log } => {
            writeln!(out, "verify {record} of {image} by {log}")
        }
        Invocation::Explain { family, code } => writeln!(out, "explain {family} {code}"),
        Invocation::Version => writeln!(out, "version"),
    }
}

/// Words that may be given, `-` where one isn't.
fn push_given(words: &[Option<&str>], out: &mut String) -> Result<(), AllocError> {
    for word in words {
        write!(out, " {}", word.unwrap_or("-"))?;
    }
    Ok(())
}

/// The rest of a line: the file of a record, if there is one.
fn push_recorded(record: Option<&str>, out: &mut String) -> Result<(), AllocError> {
    match record {
        Some(record) => writeln!(out, " recorded in {record}"),
        None => out.push_str("\n"),
    }
}

/// The rest of a line: the files of inputs.
fn push_inputs(inputs: &[&str], out: &mut String) -> Result<(), AllocError> {
    for input in inputs {
        write!(out, " {input}")?;
    }
    out.push_str("\n")
}

fn push_first_line(text: &str, out: &mut String) -> Result<(), AllocError> {
    match text.lines().next() {
        Some(line) => writeln!(out, "{line}"),
        None => out.push_str("\n"),
    }
}
