//! Why a command line is refused.

ghost use Rattle.std.specs.Prelude.{◌≡◌};

use clap::error::ErrorKind;
use std::alloc::AllocError;
use thiserror::Error;

/// Why the words of a command line ask for nothing. Its text is what the program prints.
#[derive(Debug, Drop, Error)]
pub enum CommandLineFault {
    /// The words are refused, or ask for help: clap's text.
    #[error("{0}")]
    Refused(clap::Error),
    /// A word isn't text.
    #[error("error: a word of the command line is not UTF-8")]
    NotText,
    /// Options of a run don't go together.
    #[error("error: --every goes with --seed, and --seed not with --from")]
    Uncombined,
    /// There is no refusal of the family and the code that are to be explained.
    #[error("error: no refusal has this family and this code")]
    Unexplained,
    /// Memory ran out.
    #[error("refused memory")]
    Memory,
}

impl CommandLineFault {
    ghost use Rattle.hrv_command_line.specs.Faults.{status_of};

    /// The exit status of a program that comes to it: 2 for the words, 1 for want of memory.
    pub fn status(&self) -> u8
        ensures { result ≡ status_of self.now }
    {
        match self {
            CommandLineFault::Memory => 1,
            _ => 2,
        }
    }
}

impl From<clap::Error> for CommandLineFault {
    ghost use Rattle.clap.specs.Words.{kind_of};
    ghost use Rattle.hrv_command_line.specs.Faults.{fault_for};

    ghost from_gives = { λ error fault. fault ≡ fault_for (kind_of error) error };

    fn from(error: clap::Error) -> CommandLineFault {
        match error.kind() {
            ErrorKind::OutOfMemory => CommandLineFault::Memory,
            _ => CommandLineFault::Refused(error),
        }
    }
}

impl From<AllocError> for CommandLineFault {
    ghost use Rattle.hrv_command_line.specs.declared.faults.CommandLineFault.TheVariants.{Memory};

    ghost from_gives = { λ _ fault. fault ≡ Memory };

    fn from(_error: AllocError) -> CommandLineFault {
        CommandLineFault::Memory
    }
}
