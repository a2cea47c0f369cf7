//! `test_trials`: whether an algorithm under a schedule leaves the reference picture, whichever way it is computed.
//!
//! The program reads the files that its arguments name (`test_cases`), answers each case, and prints those whose answer
//! is another than the rules' own, which is after the case, with both; it ends with status 1 where there are any.
//! None of the answers was copied from this program. The cases of `data/written` were worked out by hand;
//! `generate/make` makes those of `data/generated`; those of `data/taken` are random, with answers from another reading
//! of the rules.
//!
//! | Kind | Parts |
//! |---|---|
//! | `boxes` | `algorithm`, `schedule` |
//! | `trial` | `algorithm`, `schedule`, a `picture` for each input |
//! | `assign` | `algorithm`, `schedule`, `assignment`, a `picture` for each input |
//!
//! The answer to `boxes` is the image's data and output, the phases with their tasks, each address and box; to `trial`
//! the image's data, output and control words, the reference picture, and a line for each other way to compute it; to
//! `assign` which harts changed each row of the output.
//!
//! The other ways are loop nests, with the tasks of each phase in rising order, in falling order and from both ends,
//! and anything in private buffers before each: whether they leave the picture; and the compiled image, on 1, 2, 3 and
//! 8 harts, at several paces of these harts: what the words hold by which harts share their work (of each phase the one
//! to draw tasks, and the one to wait at), and whether the picture is another one. Where loops are vectorized, a last
//! line says whether all of them are vector code, or how many are, how many scalar stores there are that shouldn't be,
//! and how many loops collect their pixels.
//!
//! An assignment is a list of harts, of three. Each of them is stepped alone until it has drawn a task of the first
//! phase, so that the iterations are theirs in this order; then all are stepped in turn until they finish.
//!
//! A refusal takes the place of an answer, as `hrv` prints it. `rt try` builds with checks, so that all cases of
//! `random.txt` take some minutes: `rt try --seconds 900 -- data/generated/random.txt`.
//!
//! - [`boxes`]: which points are computed and read, and where they lie.
//! - [`trials`]: the answer to a trial.
//! - [`nests`]: loop nests.
//! - [`runs`]: images, and the paces of their harts.
//! - [`vectors`]: which vectorized loops are vector code.
//! - [`assignments`]: the answer to an assignment.
//! - [`images`], [`pictures`]: what an image is, and what pictures hold, as lines.
//! - [`failures`]: what takes the place of an answer.
#![tactic(auto)]

mod assignments;
mod boxes;
mod failures;
mod images;
mod nests;
mod pictures;
mod runs;
mod trials;
mod vectors;

use crate::assignments::push_assignment;
use crate::boxes::push_boxes;
use crate::failures::TrialFailure;
use crate::trials::push_trial;
use std::alloc::{AllocError, Global};
use std::process::ExitCode;
use std::thread::Threads;
use std::{env, io};
use test_cases::{Part, judge_file};

fn main(rt: HostRuntime) -> io::Result<ExitCode> {
    let mut differ: u64 = 0;
    for path in env::args(&rt)?.skip(1) {
        let found = judge_file(
            &rt,
            path.as_str(),
            |kind, parts| answer(&rt, rt.alloc(), kind, parts),
        )?;
        differ = differ.saturating_add(found);
    }
    println!(rt; "{differ} answers differ")?;
    Ok(if differ == 0 {
        ExitCode::SUCCESS
    } else {
        ExitCode::FAILURE
    })
}

/// The answer to a case of a kind, or what is in its place.
fn answer(
    rt: &(impl Threads + Sync),
    alloc: Global,
    kind: &str,
    parts: &[Part],
) -> Result<String, AllocError> {
    let mut text = String::new(alloc);
    if let Err(failure) = push_answer(rt, alloc, kind, parts, &mut text) {
        writeln!(text, "{failure}")?;
    }
    Ok(text)
}

/// Appends the answer to a case.
fn push_answer(
    rt: &(impl Threads + Sync),
    alloc: Global,
    kind: &str,
    parts: &[Part],
    out: &mut String,
) -> Result<(), TrialFailure> {
    match kind {
        "boxes" => push_boxes(alloc, parts, out),
        "trial" => push_trial(rt, alloc, parts, out),
        "assign" => push_assignment(alloc, parts, out),
        _ => Err(TrialFailure::Malformed("an unknown kind of case")),
    }
}
