//! Logs of turns as texts: the command `log`.

ghost use Rattle.std.specs.Prelude.{◌+◌, ◌<◌, ◌^◌};
ghost use Rattle.std.specs.String.{string_bytes};
ghost use Rattle.hrv_engines.specs.Devices.{log_bytes_of, sink_of, text_of};
ghost use Rattle.hrv_engines.specs.Engine.{Judges, Performs};
ghost use Rattle.hrv_engines.specs.Logs.{IsLogMade, IsLogPrinted, IsRefusedLog, IsRefusedLogText};

use crate::devices::{Sink, Source, read_log_bytes, write_all};
use crate::faults::Fault;
use crate::texts::read_text;
use std::alloc::Global;
use turn_log::TurnLog;

/// Reads a log of turns, and writes its text, a line for each run.
pub fn print_log_bytes<L: Source, O: Sink>(
    alloc: Global,
    log: &mut L,
    out: &mut O,
) -> Result<(), Fault>
    requires log { L.failed log.old + 1 < 2 ^ 64 }
    requires out { O.failed out.old + 1 < 2 ^ 64 }
    ensures { Performs IsLogPrinted IsRefusedLog
        (log_bytes_of L.place L.failed L.gave L.ended log.old log.new)
        (sink_of O.place O.failed O.took out.old out.new) result }
{
    let log_bytes = read_log_bytes(alloc, log)?;
    let text = printed(alloc, log_bytes)?;
    write_all(alloc, out, text.as_bytes())
}

/// The text of the log that bytes spell, or the refusal of the log. The bytes are let go as soon as they are read.
fn printed(alloc: Global, bytes: Vec<u8>) -> Result<String, Fault>
    ensures { Judges string_bytes IsLogPrinted IsRefusedLog bytes.items result }
{
    let log = TurnLog::read(alloc, &bytes)?;
    drop(bytes);
    Ok(log_reports::text_of(alloc, &log)?)
}

/// Reads the text of a log, and stores the log. The whole text is read and judged first.
pub fn make_log_bytes<S: Source, O: Sink>(
    alloc: Global,
    source: &mut S,
    log: &mut O,
) -> Result<(), Fault>
    requires source { S.failed source.old + 1 < 2 ^ 64 }
    requires log { O.failed log.old + 1 < 2 ^ 64 }
    ensures { Performs IsLogMade IsRefusedLogText
        (text_of S.place S.failed S.gave S.ended source.old source.new)
        (sink_of O.place O.failed O.took log.old log.new) result }
{
    let text = read_text(alloc, source)?;
    let bytes = log_made(alloc, &text)?;
    write_all(alloc, log, &bytes)
}

/// The bytes of the log that a text means, or the refusal of its first faulty line.
fn log_made(alloc: Global, text: &str) -> Result<Vec<u8>, Fault>
    ensures { Judges (λ bytes. bytes.items) IsLogMade IsRefusedLogText text.now result }
{
    let log = log_reports::read_text(alloc, text)?;
    let mut bytes = Vec::new(alloc);
    log.write(&mut bytes)?;
    Ok(bytes)
}
