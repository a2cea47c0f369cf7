//! Why a case has no answer but a refusal.

use assembler::AsmFault;
use bounds_weights::WeightError;
use halide_parser_syntax::ParseFault;
use hrv_engines::Fault;
use line_text::{LocatedError, ReadError};
use loader::LoadFault;
use picture::PictureFault;
use schedule_lines::ScheduleFault;
use std::alloc::{AllocError, AllocFailed};
use std::fmt;
use test_cases::CaseFault;

/// What takes the place of an answer.
#[derive(Debug, Drop)]
pub enum CaseFailure {
    /// Memory ran out.
    Memory,
    /// The case isn't one that the program knows: what is wrong with it.
    Malformed(&'static str),
    /// A library refuses a text of the case.
    Refused(LibraryRefusal),
    /// A command refuses the files of the case.
    Command(Fault),
}

/// A library's refusal.
#[derive(Debug, Drop)]
pub struct LibraryRefusal {
    /// What is refused, as `hrv` says it.
    pub what: &'static str,
    pub number: u32,
    /// The faulty line, where the text is refused by lines.
    pub line: Option<u64>,
}

impl CaseFailure {
    /// A refusal without a line. The libraries number all faults but a lack of memory.
    fn numbered(what: &'static str, number: Option<u8>) -> CaseFailure {
        match number {
            None => CaseFailure::Memory,
            Some(number) => refused(what, u32::from(number)),
        }
    }

    /// A refusal with a line.
    fn located(what: &'static str, number: u32, line: u64) -> CaseFailure {
        CaseFailure::Refused(LibraryRefusal {
            what,
            number,
            line: Some(line),
        })
    }
}

/// A refusal without a line.
pub fn refused(what: &'static str, number: u32) -> CaseFailure {
    CaseFailure::Refused(LibraryRefusal {
        what,
        number,
        line: None,
    })
}

impl fmt::Display for CaseFailure {
    fn fmt<W: fmt::Write>(&self, f: &mut fmt::Formatter<W>) -> fmt::Result {
        match self {
            CaseFailure::Memory => write!(f, "out of memory"),
            CaseFailure::Malformed(why) => write!(f, "malformed: {why}"),
            CaseFailure::Refused(refusal) => write!(f, "{refusal}"),
            CaseFailure::Command(fault) => write!(f, "{fault}"),
        }
    }
}

impl fmt::Display for LibraryRefusal {
    fn fmt<W: fmt::Write>(&self, f: &mut fmt::Formatter<W>) -> fmt::Result {
        let LibraryRefusal { what, number, .. } = self;
        write!(f, "refused {what} {number}")?;
        match self.line {
            Some(line) => write!(f, " line {line}"),
            None => Ok(()),
        }
    }
}

impl From<AllocError> for CaseFailure {
    fn from(_error: AllocError) -> CaseFailure {
        CaseFailure::Memory
    }
}

impl<T: Drop> From<AllocFailed<T>> for CaseFailure {
    fn from(_error: AllocFailed<T>) -> CaseFailure {
        CaseFailure::Memory
    }
}

impl From<CaseFault> for CaseFailure {
    fn from(fault: CaseFault) -> CaseFailure {
        match fault {
            CaseFault::Memory => CaseFailure::Memory,
            CaseFault::Malformed(why) => CaseFailure::Malformed(why),
        }
    }
}

impl From<LocatedError<ParseFault>> for CaseFailure {
    fn from(error: LocatedError<ParseFault>) -> CaseFailure {
        match error {
            LocatedError::Memory => CaseFailure::Memory,
            LocatedError::Fault(line, fault) => CaseFailure::located("parse", fault.number(), line),
        }
    }
}

impl From<LocatedError<ScheduleFault>> for CaseFailure {
    fn from(error: LocatedError<ScheduleFault>) -> CaseFailure {
        match error {
            LocatedError::Memory => CaseFailure::Memory,
            LocatedError::Fault(line, fault) => CaseFailure::located(
                "schedule",
                fault.number(),
                line,
            ),
        }
    }
}

impl From<LocatedError<AsmFault>> for CaseFailure {
    fn from(error: LocatedError<AsmFault>) -> CaseFailure {
        match error {
            LocatedError::Memory => CaseFailure::Memory,
            LocatedError::Fault(line, fault) => {
                CaseFailure::located("asm", u32::from(fault.number()), line)
            }
        }
    }
}

impl From<ReadError<PictureFault>> for CaseFailure {
    fn from(error: ReadError<PictureFault>) -> CaseFailure {
        match error {
            ReadError::Memory => CaseFailure::Memory,
            ReadError::Fault(fault) => CaseFailure::numbered("picture", Some(fault.number())),
        }
    }
}

impl From<LoadFault> for CaseFailure {
    fn from(fault: LoadFault) -> CaseFailure {
        CaseFailure::numbered("load", fault.number())
    }
}

impl From<WeightError> for CaseFailure {
    fn from(error: WeightError) -> CaseFailure {
        CaseFailure::numbered("lower", error.number())
    }
}

impl From<Fault> for CaseFailure {
    fn from(fault: Fault) -> CaseFailure {
        CaseFailure::Command(fault)
    }
}
