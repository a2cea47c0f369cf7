//! What takes the place of an answer.

use bounds::BoundsFault;
use halide_parser_syntax::ParseFault;
use hrv_compiler::CompileFault;
use line_text::{LocatedError, ReadError};
use picture::{EvalError, PictureFault};
use schedule_lines::ScheduleFault;
use std::alloc::{AllocError, AllocFailed};
use test_cases::CaseFault;
use thiserror::Error;

/// Why a case has no answer.
#[derive(Debug, Drop, Error)]
pub enum TrialFailure {
    /// Memory ran out.
    #[error("out of memory")]
    Memory,
    /// The case isn't one that the program knows: what is wrong with it.
    #[error("malformed: {0}")]
    Malformed(&'static str),
    /// The texts are refused.
    #[error("refused {0}")]
    Compile(CompileFault),
    /// The pictures aren't those that are asked for.
    #[error("refused input {}", .0.number().unwrap_or(0))]
    Input(EvalError),
}

impl From<AllocError> for TrialFailure {
    fn from(_error: AllocError) -> TrialFailure {
        TrialFailure::Memory
    }
}

impl<T: Drop> From<AllocFailed<T>> for TrialFailure {
    fn from(_error: AllocFailed<T>) -> TrialFailure {
        TrialFailure::Memory
    }
}

impl From<CaseFault> for TrialFailure {
    fn from(fault: CaseFault) -> TrialFailure {
        match fault {
            CaseFault::Memory => TrialFailure::Memory,
            CaseFault::Malformed(why) => TrialFailure::Malformed(why),
        }
    }
}

impl From<CompileFault> for TrialFailure {
    fn from(fault: CompileFault) -> TrialFailure {
        TrialFailure::Compile(fault)
    }
}

impl From<LocatedError<ParseFault>> for TrialFailure {
    fn from(error: LocatedError<ParseFault>) -> TrialFailure {
        TrialFailure::Compile(CompileFault::from(error))
    }
}

impl From<LocatedError<ScheduleFault>> for TrialFailure {
    fn from(error: LocatedError<ScheduleFault>) -> TrialFailure {
        TrialFailure::Compile(CompileFault::from(error))
    }
}

impl From<BoundsFault> for TrialFailure {
    fn from(fault: BoundsFault) -> TrialFailure {
        TrialFailure::Compile(CompileFault::from(fault))
    }
}

impl From<ReadError<PictureFault>> for TrialFailure {
    fn from(error: ReadError<PictureFault>) -> TrialFailure {
        match error {
            ReadError::Memory => TrialFailure::Memory,
            ReadError::Fault(_) => TrialFailure::Malformed("a picture that is none"),
        }
    }
}

impl From<EvalError> for TrialFailure {
    fn from(error: EvalError) -> TrialFailure {
        match error {
            EvalError::OutOfMemory => TrialFailure::Memory,
            _ => TrialFailure::Input(error),
        }
    }
}
