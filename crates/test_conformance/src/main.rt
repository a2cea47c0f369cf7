//! `test_conformance`: what the libraries and the engines answer to cases that lie in files.
//!
//! The program reads the files that its arguments name (`test_cases`), answers each case, and prints those whose answer
//! is another than the rules' own, which is after the case, with both; it ends with status 1 where there are any.
//! None of the answers was copied from this program. What algorithms under schedules come to is beside it
//! (`test_trials`).
//!
//! The cases of `data/written` were worked out by hand; `generate/make` makes those of `data/generated`; those of
//! `data/taken` are random, with answers from another reading of the rules. To run one file without proofs:
//! `rt try -- data/written/talks.txt`.
//!
//! | Kind | Parts | Answer |
//! |---|---|---|
//! | `parse` | `algorithm` | `accepted` |
//! | `draw` | `algorithm`, any number of `picture` | the picture that is drawn |
//! | `read` | `picture` | the picture's text |
//! | `schedule` | `algorithm`, `schedule` | each Func's standing, loops and splits |
//! | `weigh` | `algorithm`, `schedule` | what the stages weigh |
//! | `need` | `algorithm`, `schedule` | how many registers the stages need |
//! | `assemble` | `text` | the object |
//! | `list` | `words`: a word in hexadecimal each line | the line of each |
//! | `turn` | `before`: an assembly text; `instructions`: one each line | each line, and what it changes after it |
//! | `asm` | `source` | the image's bytes, in hexadecimal |
//! | `dis` | `image` | the listing |
//! | `addresses` | `image` | the listing with addresses |
//! | `explain` | `words`: a family, below it a code if there is one; or no part | what it means, or the version |
//! | `renew` | `image` | the renewed image's bytes, in hexadecimal |
//! | `runs` | `log`: lines in hexadecimal | the log's text |
//! | `log` | `text`: that of a log | the log's bytes, in hexadecimal |
//! | `replay` | `image`, `log`: lines in hexadecimal | the dump |
//! | `profile` | `image`, `log` | where the turns go |
//! | `trace` | `image`, `log`; `words`: the options, one each line, or no part | what the turns did |
//! | `races` | `image`, `log`; `words` that are left out, one each line, or no part | where two harts race first |
//! | `debug` | `image`, `log`; `lines` | the talk |
//! | `blame` | `image`, `log`; `words`: those after the files, one each line | who wrote what is asked about |
//! | `run` | `image`; `turns`: how many a hart makes at most | the log of one hart, in hexadecimal, and the dump |
//! | `resume` | `image`, `log`; `turns` | the same, from where a log of one hart ends |
//! | `drawn` | `image`, `harts`, `turns`, `seed`, `every` | the same of a run of harts whose turns a seed draws |
//! | `recorded` | the parts of `run`, of `resume` or of `drawn` | the log, the record and the dump |
//! | `digest` | any number of `file` | a line of each |
//! | `verify` | `record`, `image`, `log` | what is said of them, and the exit status |
//! | `compile` | `algorithm`, `schedule`, any number of `picture` | the image but for its words, one hart's picture |
//! | `cut` | as `compile` | whether each write that fails leaves what was written before it |
//! | `map` | `algorithm`, `schedule` | the map, but for where code lies |
//! | `accesses` | as `compile` | how many vector loads and stores are listed, and one hart's lanes at its end |
//! | `threads` | `image`, `harts`, `turns` | of a run by threads the lines of the harts and of the picture |
//! | `share` | `harts`, `turns`, and those of `compile` | the same of the compiled image |
//! | `rejoin` | `image`, `log` | the same of a run from where a log of several harts ends |
//! | `memory` | none | what a command says that was refused memory |
//! | `words` | `words`: a word of a command line each line | the command and its files, or why it is refused |
//!
//! Images and logs always stand in hexadecimal. Of a run by threads the log has to replay to what the run said.
//!
//! The cases of `draw`, of `asm` to `accesses` and of `threads` to `rejoin` go through the engines. But for `threads`
//! and `rejoin` a last part `devices` says how their files give and take bytes: a line `NAME STEP` for at most this
//! many bytes a call, `NAME STEP CALLS` where the call after this many fails. A file has the name of its part; what is
//! written is `page`; the log that a run writes has the lines of `new`, its record those of `kept`.
//!
//! A refusal takes the place of an answer, or after what was written before, as `hrv` prints it; a backslash ends a
//! text without a last line feed there. A case that isn't one of these is answered `malformed: ` and why.
//!
//! - [`algorithms`], [`schedules`], [`weights`], [`assemblies`], [`turns`], [`commands`], [`runs`], [`records`],
//!   [`threads`], [`compilations`], [`invocations`]: the answers, a module each for one family.
//! - [`devices`]: files in memory.
//! - [`harts`]: what a hart holds, as lines.
//! - [`failures`]: what takes the place of an answer.
#![tactic(auto)]

mod algorithms;
mod assemblies;
mod commands;
mod compilations;
mod devices;
mod failures;
mod harts;
mod invocations;
mod records;
mod runs;
mod schedules;
mod threads;
mod turns;
mod weights;

use crate::algorithms::{push_reading, push_verdict};
use crate::assemblies::{push_listing, push_object};
use crate::commands::{
    push_addresses, push_blame, push_drawing, push_explained, push_image, push_lines, push_log,
    push_profile, push_races, push_renewal, push_replay, push_runs, push_talk, push_trace,
};
use crate::compilations::{push_accesses, push_compilation, push_cuts, push_map};
use crate::failures::CaseFailure;
use crate::invocations::push_invocation;
use crate::records::{push_digests, push_recorded, push_verdict_on};
use crate::runs::{push_drawn, push_resumption, push_run};
use crate::schedules::push_schedule;
use crate::threads::{push_rejoined, push_shared, push_threads};
use crate::turns::push_changes;
use crate::weights::{push_needs, push_weight};
use hrv_engines::Fault;
use std::alloc::{AllocError, Global};
use std::process::ExitCode;
use std::sync::Wait;
use std::thread::Threads;
use std::{env, io};
use test_cases::{Part, judge_file};

fn main(rt: HostRuntime) -> io::Result<ExitCode> {
    let mut differ: u64 = 0;
    for path in env::args(&rt)?.skip(1) {
        let found = judge_file(
            &rt,
            path.as_str(),
            |kind, parts| answer(&rt, rt.alloc(), kind, parts),
        )?;
        differ = differ.saturating_add(found);
    }
    println!(rt; "{differ} answers differ")?;
    Ok(if differ == 0 {
        ExitCode::SUCCESS
    } else {
        ExitCode::FAILURE
    })
}

/// The answer to a case of a kind, or what is in its place.
fn answer(
    rt: &(impl Threads + Wait + Sync),
    alloc: Global,
    kind: &str,
    parts: &[Part],
) -> Result<String, AllocError> {
    let mut text = String::new(alloc);
    if let Err(failure) = push_answer(rt, alloc, kind, parts, &mut text) {
        writeln!(text, "{failure}")?;
    }
    Ok(text)
}

/// Appends the answer to a case.
fn push_answer(
    rt: &(impl Threads + Wait + Sync),
    alloc: Global,
    kind: &str,
    parts: &[Part],
    out: &mut String,
) -> Result<(), CaseFailure> {
    match kind {
        "parse" => push_verdict(alloc, parts, out),
        "draw" => push_drawing(rt, alloc, parts, out),
        "read" => push_reading(alloc, parts, out),
        "schedule" => push_schedule(alloc, parts, out),
        "assemble" => push_object(alloc, parts, out),
        "list" => push_listing(alloc, parts, out),
        "turn" => push_changes(alloc, parts, out),
        "asm" => push_image(alloc, parts, out),
        "dis" => push_lines(alloc, parts, out),
        "addresses" => push_addresses(alloc, parts, out),
        "explain" => push_explained(alloc, parts, out),
        "renew" => push_renewal(alloc, parts, out),
        "runs" => push_runs(alloc, parts, out),
        "log" => push_log(alloc, parts, out),
        "replay" => push_replay(alloc, parts, out),
        "profile" => push_profile(alloc, parts, out),
        "trace" => push_trace(alloc, parts, out),
        "races" => push_races(alloc, parts, out),
        "debug" => push_talk(alloc, parts, out),
        "blame" => push_blame(alloc, parts, out),
        "run" => push_run(rt, alloc, parts, out),
        "resume" => push_resumption(rt, alloc, parts, out),
        "drawn" => push_drawn(alloc, parts, out),
        "recorded" => push_recorded(rt, alloc, parts, out),
        "digest" => push_digests(alloc, parts, out),
        "verify" => push_verdict_on(alloc, parts, out),
        "compile" => push_compilation(alloc, parts, out),
        "cut" => push_cuts(alloc, parts, out),
        "map" => push_map(alloc, parts, out),
        "accesses" => push_accesses(alloc, parts, out),
        "threads" => push_threads(rt, alloc, parts, out),
        "share" => push_shared(rt, alloc, parts, out),
        "rejoin" => push_rejoined(rt, alloc, parts, out),
        "weigh" => push_weight(alloc, parts, out),
        "need" => push_needs(alloc, parts, out),
        "memory" => Err(CaseFailure::Command(Fault::Memory)),
        "words" => push_invocation(alloc, parts, out),
        _ => Err(CaseFailure::Malformed("an unknown kind of case")),
    }
}
