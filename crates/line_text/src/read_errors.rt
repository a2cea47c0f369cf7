//! Why a text was not read.

ghost use Rattle.std.specs.Prelude.{◌≡◌};
ghost use Rattle.line_text.specs.declared.read_errors.ReadError.TheVariants as errors;
ghost use Rattle.line_text.specs.declared.read_errors.LocatedError.TheVariants as places;

use std::alloc::{AllocError, AllocFailed};

/// Why a part of a text was not read.
#[derive(Debug, PartialEq, Eq, Drop)]
pub enum ReadError<F> {
    /// Memory ran out, whatever the text is.
    Memory,
    /// The text has a fault.
    Fault(F),
}

/// Why a text was not read, and which line is faulty.
#[derive(Debug, PartialEq, Eq, Drop)]
pub enum LocatedError<F> {
    /// Memory ran out, whatever the text is.
    Memory,
    /// The number of a line, from 1, and its fault.
    Fault(u64, F),
}

impl<F> ReadError<F> {
    ghost use Rattle.line_text.specs.Lines.{at_line};

    /// The same error, of the line with this number.
    pub fn at_line(self, line: u64) -> LocatedError<F>
        ensures { result ≡ at_line line self }
    {
        match self {
            ReadError::Memory => LocatedError::Memory,
            ReadError::Fault(fault) => LocatedError::Fault(line, fault),
        }
    }
}

impl<F> From<AllocError> for ReadError<F> {
    ghost from_gives = { λ _ e. e ≡ errors.Memory };

    fn from(_e: AllocError) -> ReadError<F> {
        ReadError::Memory
    }
}

impl<F, T: Drop> From<AllocFailed<T>> for ReadError<F> {
    ghost from_gives = { λ _ e. e ≡ errors.Memory };

    fn from(_e: AllocFailed<T>) -> ReadError<F> {
        ReadError::Memory
    }
}

impl<F> From<AllocError> for LocatedError<F> {
    ghost from_gives = { λ _ e. e ≡ places.Memory };

    fn from(_e: AllocError) -> LocatedError<F> {
        LocatedError::Memory
    }
}

impl<F, T: Drop> From<AllocFailed<T>> for LocatedError<F> {
    ghost from_gives = { λ _ e. e ≡ places.Memory };

    fn from(_e: AllocFailed<T>) -> LocatedError<F> {
        LocatedError::Memory
    }
}
