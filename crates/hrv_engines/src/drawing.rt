//! Drawing the reference picture of an algorithm: the command `picture`.

ghost use Rattle.std.specs.Prelude.{◌≡◌, ◌+◌, ◌<◌, ◌^◌, map, Ok, IfOk, IfErr};
ghost use Rattle.std.specs.List.{All};
ghost use Rattle.std.specs.String.{string_bytes};
ghost use Rattle.hrv_engines.specs.Devices.{both, sink_of, text_of, texts_of};
ghost use Rattle.hrv_engines.specs.Drawing.{IsDrawing, IsRefusedDrawing, RefusesPictures, pictures_of};
ghost use Rattle.hrv_engines.specs.Engine.{Judges, Performs, Reads, Unmeant};
ghost use Rattle.hrv_engines.specs.inner.Fronts.{kept_texts_of};

use crate::devices::{Sink, Source, write_all};
use crate::faults::Fault;
use crate::texts::{read_algorithm, read_picture_text};
use halide_parser::parse;
use picture::{Picture, evaluate};
use std::alloc::Global;
use std::thread::Threads;

/// Reads an algorithm and input pictures, and writes the reference picture. All files are read first, in this order.
/// The rows are computed by threads.
pub fn picture_bytes<A: Source, I: Source, O: Sink>(
    rt: &(impl Threads + Sync),
    alloc: Global,
    algorithm: &mut A,
    inputs: &mut [I],
    out: &mut O,
) -> Result<(), Fault>
    requires algorithm { A.failed algorithm.old + 1 < 2 ^ 64 }
    requires inputs { All (λ input. I.failed input + 1 < 2 ^ 64) inputs.old }
    requires out { O.failed out.old + 1 < 2 ^ 64 }
    ensures { Performs (IsDrawing alloc) (IsRefusedDrawing alloc)
        (both (text_of A.place A.failed A.gave A.ended algorithm.old algorithm.new)
        (texts_of I.place I.failed I.gave I.ended inputs.old inputs.new))
        (sink_of O.place O.failed O.took out.old out.new) result }
{
    let algorithm_text = read_algorithm(alloc, algorithm)?;
    let input_texts = read_texts(alloc, inputs)?;
    let text = draw(rt, alloc, &algorithm_text, &input_texts)?;
    write_all(alloc, out, &text)
}

/// Reads all that each source has left, as texts, in their order, and keeps as much of each as a picture may have, or a
/// byte more.
pub(crate) fn read_texts<S: Source>(alloc: Global, sources: &mut [S]) -> Result<Vec<String>, Fault>
    requires { All (λ source. S.failed source + 1 < 2 ^ 64) sources.old }
    ensures { Reads (λ texts. map string_bytes texts.items)
        (kept_texts_of S.place S.failed S.gave S.ended sources.old sources.new) result }
{
    let mut texts = Vec::new(alloc);
    for source in sources.iter_mut() {
        let text = read_picture_text(alloc, source)?;
        texts.push(text)?;
    }
    Ok(texts)
}

/// The pictures that texts spell.
#[tactic(auto, using(crate::proofs::Drawings::front_moved))]
pub(crate) fn read_pictures(alloc: Global, texts: &[String]) -> Result<Vec<Picture>, Fault>
    ensures ok { IfOk result (λ pictures. pictures_of (map string_bytes texts.now) ≡ Ok pictures.items) }
    ensures err { IfErr result (Unmeant RefusesPictures (map string_bytes texts.now)) }
{
    let mut pictures = Vec::new(alloc);
    let mut rest = texts;
    while let [text, others @ ..] = rest {
        let picture = Picture::read(alloc, text)?;
        pictures.push(picture)?;
        rest = others;
    }
    Ok(pictures)
}

/// The text of the picture that an algorithm draws from inputs, or the first refusal.
#[tactic(auto, unfolding(crate::specs::Drawing::refusal_of))]
fn draw(
    rt: &(impl Threads + Sync),
    alloc: Global,
    algorithm: &str,
    inputs: &[String],
) -> Result<Vec<u8>, Fault>
    ensures { Judges (λ text. text.items) (IsDrawing alloc) (IsRefusedDrawing alloc)
        (algorithm.now, map string_bytes inputs.now) result }
{
    let pipeline = parse(algorithm, alloc)?;
    let pictures = read_pictures(alloc, inputs)?;
    let picture = evaluate(rt, alloc, &pipeline, &pictures)?;
    let mut text = Vec::new(alloc);
    picture.write(&mut text)?;
    Ok(text)
}
