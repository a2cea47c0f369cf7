//! Saying where the data and the code of compiled images lie: the command `map`.

ghost use Rattle.std.specs.Prelude.{◌+◌, ◌<◌, ◌^◌};
ghost use Rattle.hrv_engines.specs.Devices.{both, sink_of, text_of};
ghost use Rattle.hrv_engines.specs.Engine.{Judges, Performs};
ghost use Rattle.hrv_engines.specs.Map.{IsMap, IsRefusedMap};

use crate::devices::{Sink, Source, write_all};
use crate::faults::Fault;
use crate::texts::{read_algorithm, read_schedule};
use hrv_compiler::compile;
use std::alloc::Global;

/// Reads an algorithm and a schedule, and writes where the data and the code of every image of them lie. Both texts are
/// read first, in this order, and judged as they are to be compiled.
pub fn map_bytes<A: Source, S: Source, O: Sink>(
    alloc: Global,
    algorithm: &mut A,
    schedule: &mut S,
    out: &mut O,
) -> Result<(), Fault>
    requires algorithm { A.failed algorithm.old + 1 < 2 ^ 64 }
    requires schedule { S.failed schedule.old + 1 < 2 ^ 64 }
    requires out { O.failed out.old + 1 < 2 ^ 64 }
    ensures { Performs (IsMap alloc) (IsRefusedMap alloc)
        (both (text_of A.place A.failed A.gave A.ended algorithm.old algorithm.new)
        (text_of S.place S.failed S.gave S.ended schedule.old schedule.new))
        (sink_of O.place O.failed O.took out.old out.new) result }
{
    let algorithm_text = read_algorithm(alloc, algorithm)?;
    let schedule_text = read_schedule(alloc, schedule)?;
    let text = map_of(alloc, &algorithm_text, &schedule_text)?;
    write_all(alloc, out, &text)
}

/// The map of what texts mean, or the first refusal.
fn map_of(alloc: Global, algorithm: &str, schedule: &str) -> Result<Vec<u8>, Fault>
    ensures { Judges (λ text. text.items) (IsMap alloc) (IsRefusedMap alloc) (algorithm.now, schedule.now) result }
{
    let program = compile(algorithm, schedule, alloc)?;
    let text = program.map(alloc, algorithm)?;
    Ok(text)
}
