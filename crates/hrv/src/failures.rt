//! Why the program gives no answer.

ghost use Rattle.std.specs.Prelude.{◌≡◌};

use hrv_command_line::CommandLineFault;
use hrv_engines::Fault;
use std::alloc::{AllocError, AllocFailed};
use std::fmt;
use std::fmt::Write;
use thiserror::Error;

/// Why the program gives no answer: its words, or an engine.
#[derive(Debug, Drop, Error)]
pub enum Failure {
    /// The command line is refused, or asks for help.
    #[error("{0}")]
    CommandLine(CommandLineFault),
    /// The engine of the command gives no answer.
    #[error("{}", Escaped(.0))]
    Engine(Fault),
}

/// A fault's line in which each control character is as its number, so that a path neither commands a terminal nor
/// makes a second line.
#[derive(Drop)]
struct Escaped<'a>(&'a Fault);

impl fmt::Display for Escaped<'_> {
    fn fmt<W: Write>(&self, formatter: &mut fmt::Formatter<W>) -> fmt::Result {
        let mut escaping = Escaping(formatter);
        write!(escaping, "{}", self.0)
    }
}

/// Writes a text with its control characters as their numbers.
#[derive(Drop)]
struct Escaping<'a, W>(&'a mut fmt::Formatter<W>);

impl<W: Write> fmt::Write for Escaping<'_, W> {
    fn write_str(&mut self, text: &str) -> fmt::Result {
        for letter in text.chars() {
            if letter.is_control() {
                write!(self.0, "\\u{{{:x}}}", letter as u32)?;
            } else {
                self.0.write_char(letter)?;
            }
        }
        Ok(())
    }
}

impl Failure {
    ghost use Rattle.hrv.specs.Failures.{status_of};

    /// The exit status: 2 for the command line, 1 for all else.
    pub fn status(&self) -> u8
        ensures { result ≡ status_of self.now }
    {
        match self {
            Failure::CommandLine(fault) => fault.status(),
            Failure::Engine(fault) => fault.status(),
        }
    }
}

impl From<CommandLineFault> for Failure {
    fn from(fault: CommandLineFault) -> Failure {
        Failure::CommandLine(fault)
    }
}

impl From<Fault> for Failure {
    fn from(fault: Fault) -> Failure {
        Failure::Engine(fault)
    }
}

impl From<AllocError> for Failure {
    fn from(_error: AllocError) -> Failure {
        Failure::Engine(Fault::Memory)
    }
}

impl<T: Drop> From<AllocFailed<T>> for Failure {
    fn from(_error: AllocFailed<T>) -> Failure {
        Failure::Engine(Fault::Memory)
    }
}
