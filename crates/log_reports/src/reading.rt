//! Reading the text of a log, line by line.

ghost use Rattle.std.specs.Prelude.{◌≡◌, IfOk};
ghost use Rattle.line_text.specs.Lines.{GivesLocated, Takes};
ghost use Rattle.turn_log.specs.TurnLog.{IsLog};
ghost use Rattle.log_reports.specs.LogText as spec;

use crate::faults::LogTextFault;
use crate::lines::{harts_in, run_in};
use line_text::{LineReader, LocatedError, ReadError, read_lines};
use std::alloc::Global;
use std::marker::Model;
use turn_log::{MOST_TURNS, TurnLog};

/// The log of the lines so far, none before the first.
#[derive(Drop)]
struct LogReader {
    alloc: Global,
    log: Option<TurnLog>,
}

impl Model for LogReader {
    ghost use Rattle.std.specs.Prelude.{Option};
    ghost use Rattle.turn_log.specs.TurnLog.{LogState};

    ghost Value = { Option LogState };

    ghost view = { λ reader. reader.log };
}

/// The log before any turn, of the heading.
fn headed(alloc: Global, line: &[u8]) -> Result<TurnLog, LogTextFault>
    ensures { result ≡ spec.headed (spec.harts_in line.now) }
{
    let Some(harts) = harts_in(line) else {
        return Err(LogTextFault::Heading);
    };
    if harts < 1 || harts > 8 {
        return Err(LogTextFault::Heading);
    }
    Ok(TurnLog::new(alloc, harts as usize))
}

/// Adds the run of a line.
fn take_run(log: &mut TurnLog, line: &[u8]) -> Result<(), ReadError<LogTextFault>>
    ensures { Takes (spec.with_run log.old (spec.run_in line.now)) result log.new }
{
    let Some((hart, count)) = run_in(line) else {
        return Err(ReadError::Fault(LogTextFault::Line));
    };
    if hart >= log.harts() as u64 {
        return Err(ReadError::Fault(LogTextFault::Hart));
    }
    if count == 0 {
        return Err(ReadError::Fault(LogTextFault::NoTurns));
    }
    let hart = hart as usize;
    if log.count_of(hart).saturating_add(count) > MOST_TURNS {
        return Err(ReadError::Fault(LogTextFault::TooManyTurns));
    }
    log.push_run(hart, count)?;
    Ok(())
}

impl LineReader for LogReader {
    type Fault = LogTextFault;

    ghost takes = { spec.takes };

    fn take_line(&mut self, line: &[u8]) -> Result<(), ReadError<LogTextFault>> {
        match &mut self.log {
            Some(log) => take_run(log, line),
            None => match headed(self.alloc, line) {
                Ok(log) => {
                    self.log = Some(log);
                    Ok(())
                }
                Err(fault) => Err(ReadError::Fault(fault)),
            },
        }
    }
}

/// The log that a text means: `harts N`, and a line `HART COUNT` for each run. Runs of one hart that follow one another
/// are one run.
///
/// # Errors
///
/// The number of the first faulty line, from 1, and its fault; memory ran out.
#[tactic(auto, unfolding(crate::specs::LogText::log_in))]
pub fn read_text(alloc: Global, text: &str) -> Result<TurnLog, LocatedError<LogTextFault>>
    ensures given { GivesLocated (λ log. log) result (spec.log_in text.now) }
    ensures log { IfOk result IsLog }
{
    let mut reader = LogReader { alloc, log: None };
    read_lines(&mut reader, text.as_bytes())?;
    let LogReader { log, .. } = reader;
    match log {
        Some(log) => {
            log.harts();
            Ok(log)
        }
        None => Err(LocatedError::Fault(1, LogTextFault::Heading)),
    }
}
