//! Why an engine refuses.

ghost use Rattle.std.specs.Prelude.{◌≡◌};

use crate::questions::BlameFault;
use assembler::AsmFault;
use halide_parser_syntax::ParseFault;
use hrv_compiler::CompileFault;
use line_text::{LocatedError, ReadError};
use loader::LoadFault;
use log_reports::LogTextFault;
use picture::{EvalError, PictureFault};
use run_records::{RecordError, RecordFault};
use shared_machine::DriveFault;
use std::alloc::{AllocError, AllocFailed};
use thiserror::Error;
use turn_log::LogFault;

/// Why files are refused for what they hold.
#[derive(Debug, Drop, Error)]
pub enum Refusal {
    /// The bytes of an image.
    #[error("load {}", .0.number().unwrap_or(0))]
    Load(LoadFault),
    /// The bytes of a log of turns.
    #[error("log {}", .0.number().unwrap_or(0))]
    Log(LogFault),
    /// The text of a log, in the line with this number.
    #[error("turns {} line {line}", .fault.number())]
    LogText { line: u64, fault: LogTextFault },
    /// The text of a record, in the line with this number.
    #[error("record {} line {line}", .fault.number())]
    Record { line: u64, fault: RecordFault },
    /// An assembly text, in the line with this number.
    #[error("asm {} line {line}", .fault.number())]
    Asm { line: u64, fault: AsmFault },
    /// An algorithm text, in the line with this number.
    #[error("parse {} line {line}", .fault.number())]
    Parse { line: u64, fault: ParseFault },
    /// The text of an input picture.
    #[error("picture {}", .0.number())]
    Picture(PictureFault),
    /// The input pictures are not those that the algorithm asks for.
    #[error("input {}", .0.number().unwrap_or(0))]
    Input(EvalError),
    /// A question about who wrote data.
    #[error("blame {}", .0.number())]
    Blame(BlameFault),
    /// An algorithm under a schedule, which aren't compiled.
    #[error("{0}")]
    Compile(CompileFault),
}

/// Why an engine gives no answer. Its text is the one line that the program prints.
#[derive(Debug, Drop, Error)]
pub enum Fault {
    /// The files are refused for what they hold.
    #[error("refused {0}")]
    Refused(Refusal),
    /// A file can't be read or written, or is no UTF-8 where it has to be: its path, or `-` for standard input and
    /// output.
    #[error("refused file {0}")]
    File(String),
    /// Memory ran out.
    #[error("refused memory")]
    Memory,
    /// A thread could not be started.
    #[error("refused thread")]
    Thread,
}

impl Fault {
    /// The exit status of a program that comes to it.
    pub fn status(&self) -> u8
        ensures { result ≡ 1 }
    {
        1
    }
}

impl From<AllocError> for Fault {
    ghost use Rattle.hrv_engines.specs.declared.faults.Fault.TheVariants.{Memory};

    ghost from_gives = { λ _ fault. fault ≡ Memory };

    fn from(_error: AllocError) -> Fault {
        Fault::Memory
    }
}

impl<T: Drop> From<AllocFailed<T>> for Fault {
    ghost use Rattle.hrv_engines.specs.declared.faults.Fault.TheVariants.{Memory};

    ghost from_gives = { λ _ fault. fault ≡ Memory };

    fn from(_error: AllocFailed<T>) -> Fault {
        Fault::Memory
    }
}

impl From<DriveFault> for Fault {
    ghost use Rattle.hrv_engines.specs.Refusals.{fault_of_drive};

    ghost from_gives = { λ fault answered. answered ≡ fault_of_drive fault };

    fn from(fault: DriveFault) -> Fault {
        match fault {
            DriveFault::OutOfMemory => Fault::Memory,
            DriveFault::NoThread => Fault::Thread,
        }
    }
}

impl From<LoadFault> for Fault {
    ghost use Rattle.hrv_engines.specs.Refusals.{fault_of_load};

    ghost from_gives = { λ fault answered. answered ≡ fault_of_load fault };

    fn from(fault: LoadFault) -> Fault {
        match fault {
            LoadFault::OutOfMemory => Fault::Memory,
            _ => Fault::Refused(Refusal::Load(fault)),
        }
    }
}

impl From<LogFault> for Fault {
    ghost use Rattle.hrv_engines.specs.Refusals.{fault_of_log};

    ghost from_gives = { λ fault answered. answered ≡ fault_of_log fault };

    fn from(fault: LogFault) -> Fault {
        match fault {
            LogFault::OutOfMemory => Fault::Memory,
            _ => Fault::Refused(Refusal::Log(fault)),
        }
    }
}

impl From<LocatedError<LogTextFault>> for Fault {
    ghost use Rattle.hrv_engines.specs.Refusals.{fault_of_log_text};

    ghost from_gives = { λ error answered. answered ≡ fault_of_log_text error };

    fn from(error: LocatedError<LogTextFault>) -> Fault {
        match error {
            LocatedError::Memory => Fault::Memory,
            LocatedError::Fault(line, fault) => Fault::Refused(Refusal::LogText { line, fault }),
        }
    }
}

impl From<RecordError> for Fault {
    ghost use Rattle.hrv_engines.specs.Refusals.{fault_of_record};

    ghost from_gives = { λ error answered. answered ≡ fault_of_record error };

    fn from(error: RecordError) -> Fault {
        let RecordError { line, fault } = error;
        Fault::Refused(Refusal::Record { line, fault })
    }
}

impl From<LocatedError<AsmFault>> for Fault {
    ghost use Rattle.hrv_engines.specs.Refusals.{fault_of_asm};

    ghost from_gives = { λ error answered. answered ≡ fault_of_asm error };

    fn from(error: LocatedError<AsmFault>) -> Fault {
        match error {
            LocatedError::Memory => Fault::Memory,
            LocatedError::Fault(line, fault) => Fault::Refused(Refusal::Asm { line, fault }),
        }
    }
}

impl From<LocatedError<ParseFault>> for Fault {
    ghost use Rattle.hrv_engines.specs.Refusals.{fault_of_parse};

    ghost from_gives = { λ error answered. answered ≡ fault_of_parse error };

    fn from(error: LocatedError<ParseFault>) -> Fault {
        match error {
            LocatedError::Memory => Fault::Memory,
            LocatedError::Fault(line, fault) => Fault::Refused(Refusal::Parse { line, fault }),
        }
    }
}

impl From<ReadError<PictureFault>> for Fault {
    ghost use Rattle.hrv_engines.specs.Refusals.{fault_of_picture};

    ghost from_gives = { λ error answered. answered ≡ fault_of_picture error };

    fn from(error: ReadError<PictureFault>) -> Fault {
        match error {
            ReadError::Memory => Fault::Memory,
            ReadError::Fault(fault) => Fault::Refused(Refusal::Picture(fault)),
        }
    }
}

impl From<EvalError> for Fault {
    ghost use Rattle.hrv_engines.specs.Refusals.{fault_of_input};

    ghost from_gives = { λ error answered. answered ≡ fault_of_input error };

    fn from(error: EvalError) -> Fault {
        match error {
            EvalError::OutOfMemory => Fault::Memory,
            _ => Fault::Refused(Refusal::Input(error)),
        }
    }
}

impl From<BlameFault> for Fault {
    ghost use Rattle.hrv_engines.specs.declared.faults.Fault.TheVariants.{Refused};
    ghost use Rattle.hrv_engines.specs.declared.faults.Refusal.TheVariants.{Blame};

    ghost from_gives = { λ fault answered. answered ≡ Refused (Blame fault) };

    fn from(fault: BlameFault) -> Fault {
        Fault::Refused(Refusal::Blame(fault))
    }
}

impl From<CompileFault> for Fault {
    ghost use Rattle.hrv_engines.specs.Refusals.{fault_of_compile};

    ghost from_gives = { λ fault answered. answered ≡ fault_of_compile fault };

    fn from(fault: CompileFault) -> Fault {
        match fault {
            CompileFault::Memory => Fault::Memory,
            _ => Fault::Refused(Refusal::Compile(fault)),
        }
    }
}
