//! Saying where two harts race first: the command `races`.

ghost use Rattle.std.specs.Prelude.{◌≡◌, ◌≤◌, ◌+◌, ◌++◌, ◌<◌, ◌^◌, ℕ, List, IfOk};
ghost use Rattle.memory.specs.Access.{most_bytes};
ghost use Rattle.hrv_engines.specs.Devices.{both, image_bytes_of, log_bytes_of, sink_of};
ghost use Rattle.hrv_engines.specs.Engine.{Judges, Performs};
ghost use Rattle.hrv_engines.specs.Races.{AreLeftOut, AreRaces, AreRefusedRaces, AreRefusedWords, races_of, texts_of};

use crate::devices::{Sink, Source, read_image_bytes, read_log_bytes, write_all};
use crate::faults::Fault;
use crate::questions::data_word;
use loader::{Image, read_image};
use race_reports::races_text;
use std::alloc::{AllocError, Global};
use turn_log::TurnLog;

/// Reads an image and a log of turns, and writes the first place of the log at which two harts race outside the words
/// of data whose addresses are given. Both files are read first, the image before the log, and judged before the words.
pub fn races_bytes<I: Source, L: Source, O: Sink>(
    alloc: Global,
    image: &mut I,
    log: &mut L,
    but: &[&str],
    out: &mut O,
) -> Result<(), Fault>
    requires image { I.failed image.old + 1 < 2 ^ 64 }
    requires log { L.failed log.old + 1 < 2 ^ 64 }
    requires out { O.failed out.old + 1 < 2 ^ 64 }
    ensures { Performs (AreRaces (texts_of but.now)) (AreRefusedRaces (texts_of but.now))
        (both (image_bytes_of I.place I.failed I.gave I.ended image.old image.new)
        (log_bytes_of L.place L.failed L.gave L.ended log.old log.new))
        (sink_of O.place O.failed O.took out.old out.new) result }
{
    let image_bytes = read_image_bytes(alloc, image)?;
    let log_bytes = read_log_bytes(alloc, log)?;
    let text = answer(alloc, image_bytes, log_bytes, but)?;
    write_all(alloc, out, &text)
}

/// What the bytes of an image and of a log answer, or the first refusal: the image is judged first. The image's bytes
/// are let go as soon as they are read.
#[tactic(auto, unfolding(crate::specs::Races::answer))]
fn answer(alloc: Global, image: Vec<u8>, log: Vec<u8>, but: &[&str]) -> Result<Vec<u8>, Fault>
    ensures { Judges (λ text. text.items) (AreRaces (texts_of but.now)) (AreRefusedRaces (texts_of but.now))
        (image.items, log.items) result }
{
    let read = read_image(alloc, &image)?;
    drop(image);
    let log = TurnLog::read(alloc, &log)?;
    let words = words_of(alloc, read.data().len(), but)?;
    Ok(races(alloc, &read, &log, &words)?)
}

/// The words of data that are left out, by their addresses, where there are so many bytes of data; or the first fault.
fn words_of(alloc: Global, bytes: usize, texts: &[&str]) -> Result<Vec<u32>, Fault>
    requires { bytes ≤ most_bytes }
    ensures { Judges (λ words. words.items) (AreLeftOut bytes) (AreRefusedWords bytes) (texts_of texts.now) result }
{
    let mut words = Vec::new(alloc);
    push_words(&mut words, bytes, texts)?;
    Ok(words)
}

/// Appends the words of data at these addresses.
fn push_words(words: &mut Vec<u32>, bytes: usize, texts: &[&str]) -> Result<(), Fault>
    requires { bytes ≤ most_bytes }
    ensures { Judges (λ done. words.new.items) (λ texts all. (more : List ℕ) × AreLeftOut bytes texts more
        × (all ≡ words.old.items ++ more)) (AreRefusedWords bytes) (texts_of texts.now) result }
{
    match texts {
        [] => Ok(()),
        [text, others @ ..] => {
            let word = data_word(bytes, text)?;
            words.push(word)?;
            push_words(words, bytes, others)
        }
    }
}

/// The first race of the log's turns over the image.
fn races(alloc: Global, image: &Image, log: &TurnLog, words: &[u32]) -> Result<Vec<u8>, AllocError>
    ensures { IfOk result (λ text. text.items ≡ races_of image.now log.now words.now) }
{
    let mut machine = image.machine(alloc, log.harts())?;
    races_text(alloc, &mut machine, image.words(), log, words)
}
