//! Compiling an algorithm under a schedule: the command `compile`.

ghost use Rattle.std.specs.Prelude.{◌+◌, ◌<◌, ◌^◌, map};
ghost use Rattle.std.specs.List.{All};
ghost use Rattle.std.specs.String.{string_bytes};
ghost use Rattle.hrv_engines.specs.Compile.{IsCompilation, IsRefusedCompilation};
ghost use Rattle.hrv_engines.specs.Devices.{both, sink_of, text_of, texts_of};
ghost use Rattle.hrv_engines.specs.Engine.{Judges, Performs};

use crate::devices::{Sink, Source, write_all};
use crate::drawing::{read_pictures, read_texts};
use crate::faults::Fault;
use crate::texts::{read_algorithm, read_schedule};
use hrv_compiler::compile;
use std::alloc::Global;

/// Reads an algorithm, a schedule and input pictures, and writes the image of the program that they mean. All files are
/// read first, in this order, and judged before anything is written.
pub fn compile_bytes<A: Source, S: Source, I: Source, O: Sink>(
    alloc: Global,
    algorithm: &mut A,
    schedule: &mut S,
    inputs: &mut [I],
    image: &mut O,
) -> Result<(), Fault>
    requires algorithm { A.failed algorithm.old + 1 < 2 ^ 64 }
    requires schedule { S.failed schedule.old + 1 < 2 ^ 64 }
    requires inputs { All (λ input. I.failed input + 1 < 2 ^ 64) inputs.old }
    requires image { O.failed image.old + 1 < 2 ^ 64 }
    ensures { Performs (IsCompilation alloc) (IsRefusedCompilation alloc)
        (both (both (text_of A.place A.failed A.gave A.ended algorithm.old algorithm.new)
        (text_of S.place S.failed S.gave S.ended schedule.old schedule.new))
        (texts_of I.place I.failed I.gave I.ended inputs.old inputs.new))
        (sink_of O.place O.failed O.took image.old image.new) result }
{
    let algorithm_text = read_algorithm(alloc, algorithm)?;
    let schedule_text = read_schedule(alloc, schedule)?;
    let input_texts = read_texts(alloc, inputs)?;
    let bytes = compilation_of(alloc, &algorithm_text, &schedule_text, input_texts)?;
    write_all(alloc, image, &bytes)
}

/// The bytes of the image that texts mean, or the first refusal. Input texts are dropped as soon as they have been
/// read, and pictures as soon as the image's data have their pixels, so that what is made next can take their memory.
fn compilation_of(
    alloc: Global,
    algorithm: &str,
    schedule: &str,
    inputs: Vec<String>,
) -> Result<Vec<u8>, Fault>
    ensures { Judges (λ bytes. bytes.items) (IsCompilation alloc) (IsRefusedCompilation alloc)
        ((algorithm.now, schedule.now), map string_bytes inputs.items) result }
{
    let program = compile(algorithm, schedule, alloc)?;
    let pictures = read_pictures(alloc, &inputs)?;
    drop(inputs);
    let bytes = program.image_bytes(alloc, pictures)?;
    Ok(bytes)
}
