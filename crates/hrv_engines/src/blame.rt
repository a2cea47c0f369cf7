//! Saying who wrote data: the command `blame`.

ghost use Rattle.std.specs.Prelude.{◌≡◌, ◌+◌, ◌<◌, ◌^◌, IfOk};
ghost use Rattle.hrv_engines.specs.Blame.{IsBlame, IsRefusedBlame, blame_of, marks_text, word_text};
ghost use Rattle.hrv_engines.specs.BlameQuestions.{LiesInData, PixelsLie, given_by};
ghost use Rattle.hrv_engines.specs.Devices.{both, image_bytes_of, log_bytes_of, sink_of};
ghost use Rattle.hrv_engines.specs.Engine.{Judges, Performs};
ghost use Rattle.loader.specs.Loading.{machine_of};

use crate::blame_texts::{last_lines, marks_picture, words_to_the_last};
use crate::devices::{Sink, Source, read_image_bytes, read_log_bytes, write_all};
use crate::faults::Fault;
use crate::questions::{BlameQuestion, Question, judge};
use debugger_blame::{MarkedRange, Marking, last_write, mark_words};
use loader::{Image, Output, read_image};
use std::alloc::{AllocError, Global};
use turn_log::TurnLog;

/// Reads an image and a log of turns, and writes who wrote what a question asks about. Both files are read first, the
/// image before the log, and judged before the question.
pub fn blame_bytes<I: Source, L: Source, O: Sink>(
    alloc: Global,
    image: &mut I,
    log: &mut L,
    question: Question,
    out: &mut O,
) -> Result<(), Fault>
    requires image { I.failed image.old + 1 < 2 ^ 64 }
    requires log { L.failed log.old + 1 < 2 ^ 64 }
    requires out { O.failed out.old + 1 < 2 ^ 64 }
    ensures { Performs (IsBlame (given_by question.entry)) (IsRefusedBlame (given_by question.entry))
        (both (image_bytes_of I.place I.failed I.gave I.ended image.old image.new)
        (log_bytes_of L.place L.failed L.gave L.ended log.old log.new))
        (sink_of O.place O.failed O.took out.old out.new) result }
{
    let image_bytes = read_image_bytes(alloc, image)?;
    let log_bytes = read_log_bytes(alloc, log)?;
    let text = answer(alloc, image_bytes, log_bytes, question)?;
    write_all(alloc, out, &text)
}

/// What the bytes of an image and of a log answer to a question, or the first refusal: the image is judged first. The
/// image's bytes are let go as soon as they are read.
#[tactic(auto, unfolding(crate::specs::Blame::answer))]
fn answer(alloc: Global, image: Vec<u8>, log: Vec<u8>, question: Question) -> Result<Vec<u8>, Fault>
    ensures { Judges (λ text. text.items) (IsBlame (given_by question.entry)) (IsRefusedBlame (given_by question.entry))
        (image.items, log.items) result }
{
    let read = read_image(alloc, &image)?;
    drop(image);
    let log = TurnLog::read(alloc, &log)?;
    let wanted = judge(&read, question)?;
    Ok(blame(alloc, &read, &log, wanted)?)
}

/// The answer to what is asked for of an image and a log.
fn blame(
    alloc: Global,
    image: &Image,
    log: &TurnLog,
    wanted: BlameQuestion,
) -> Result<Vec<u8>, AllocError>
    requires { PixelsLie wanted }
    ensures { IfOk result (λ text. text.items ≡ blame_of image.now log.now wanted) }
{
    match wanted {
        BlameQuestion::Word(address) => blame_word(alloc, image, log, address),
        BlameQuestion::Pixels(output, marking) => blame_pixels(alloc, image, log, output, marking),
    }
}

/// Who wrote a word last.
fn blame_word(
    alloc: Global,
    image: &Image,
    log: &TurnLog,
    address: u32,
) -> Result<Vec<u8>, AllocError>
    ensures { IfOk result (λ text. text.items ≡ word_text (machine_of image.now log.now.harts) log.now.turns address) }
{
    let mut machine = image.machine(alloc, log.harts())?;
    let last = last_write(alloc, &mut machine, image.words(), log, address)?;
    let text = last_lines(alloc, image.words(), last)?;
    Ok(text)
}

/// Who wrote each pixel of an output last.
fn blame_pixels(
    alloc: Global,
    image: &Image,
    log: &TurnLog,
    output: Output,
    marking: Marking,
) -> Result<Vec<u8>, AllocError>
    requires { LiesInData output }
    ensures { IfOk result (λ text. text.items ≡ marks_text marking (machine_of image.now log.now.harts) log.now.turns
        output) }
{
    let mut machine = image.machine(alloc, log.harts())?;
    let range = MarkedRange {
        first: output.address,
        count: words_to_the_last(output),
        marking,
    };
    let marks = mark_words(alloc, &mut machine, image.words(), log, range)?;
    let text = marks_picture(alloc, &marks, output)?;
    Ok(text.into_bytes())
}
