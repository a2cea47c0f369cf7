//! Why nothing is compiled.

ghost use Rattle.std.specs.Prelude.{◌≡◌};
ghost use Rattle.hrv_compiler.specs.declared.faults.CompileFault.TheVariants as faults;
ghost use Rattle.hrv_compiler.specs.Faults.{fault_of_bounds, fault_of_parse, fault_of_schedule, fault_of_weight};

use bounds::BoundsFault;
use bounds_weights::WeightError;
use halide_parser_syntax::ParseFault;
use line_text::LocatedError;
use schedule_lines::faults::ScheduleFault;
use std::alloc::AllocError;
use thiserror::Error;

/// Why an algorithm under a schedule isn't compiled.
#[derive(Debug, Drop, Error)]
pub enum CompileFault {
    /// The algorithm's text, in the line with this number.
    #[error("parse {} line {line}", .fault.number())]
    Parse { line: u64, fault: ParseFault },
    /// The schedule's text, in the line with this number.
    #[error("schedule {} line {line}", .fault.number())]
    Schedule { line: u64, fault: ScheduleFault },
    /// How heavy the stages are.
    #[error("lower {}", .0.number().unwrap_or(0))]
    Lower(WeightError),
    /// The boxes.
    #[error("bounds {}", .0.number().unwrap_or(0))]
    Bounds(BoundsFault),
    /// An expression needs more than 64 registers.
    #[error("code 1")]
    TooDeep,
    /// Memory ran out.
    #[error("memory")]
    Memory,
}

impl From<AllocError> for CompileFault {
    ghost from_gives = { λ _ fault. fault ≡ faults.Memory };

    fn from(_error: AllocError) -> CompileFault {
        CompileFault::Memory
    }
}

impl From<LocatedError<ParseFault>> for CompileFault {
    ghost from_gives = { λ error fault. fault ≡ fault_of_parse error };

    fn from(error: LocatedError<ParseFault>) -> CompileFault {
        match error {
            LocatedError::Memory => CompileFault::Memory,
            LocatedError::Fault(line, fault) => CompileFault::Parse { line, fault },
        }
    }
}

impl From<LocatedError<ScheduleFault>> for CompileFault {
    ghost from_gives = { λ error fault. fault ≡ fault_of_schedule error };

    fn from(error: LocatedError<ScheduleFault>) -> CompileFault {
        match error {
            LocatedError::Memory => CompileFault::Memory,
            LocatedError::Fault(line, fault) => CompileFault::Schedule { line, fault },
        }
    }
}

impl From<WeightError> for CompileFault {
    ghost from_gives = { λ error fault. fault ≡ fault_of_weight error };

    fn from(error: WeightError) -> CompileFault {
        match error {
            WeightError::OutOfMemory => CompileFault::Memory,
            WeightError::TooHeavy => CompileFault::Lower(error),
        }
    }
}

impl From<BoundsFault> for CompileFault {
    ghost from_gives = { λ error fault. fault ≡ fault_of_bounds error };

    fn from(error: BoundsFault) -> CompileFault {
        match error {
            BoundsFault::OutOfMemory => CompileFault::Memory,
            _ => CompileFault::Bounds(error),
        }
    }
}
