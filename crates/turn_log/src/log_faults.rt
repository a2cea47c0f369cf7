//! Why bytes are no log of turns.

ghost use Rattle.std.specs.Prelude.{◌≡◌};
ghost use Rattle.turn_log.specs.LogSpelling.{fault_number};
ghost use Rattle.turn_log.specs.declared.log_faults.LogFault.TheVariants.{OutOfMemory};

use std::alloc::{AllocError, AllocFailed};
use thiserror::Error;

/// What is wrong with the bytes: the first fault in the order of the format. The numbers are this
/// project's own.
#[derive(Clone, Copy, Debug, PartialEq, Eq, Error)]
pub enum LogFault {
    /// 1: the first four bytes are others.
    #[error("the bytes do not begin with HRL1")]
    Magic,
    /// 2: bytes are missing.
    #[error("the bytes end before the log does")]
    Truncated,
    /// 3: there are no harts or more than eight, or a run is of a hart that there isn't.
    #[error("a hart or the number of harts is out of range")]
    Hart,
    /// 4: a run is empty or goes on with the run before it, or bytes stand after the last one.
    #[error("the bytes are not the one spelling of a log")]
    NotCanonical,
    /// 5: a hart has more than 2^40 turns.
    #[error("a hart has too many turns")]
    TooManyTurns,
    /// Memory ran out, whatever the bytes are.
    #[error("out of memory")]
    OutOfMemory,
}

impl LogFault {
    /// The fault's number, from 1 on; none where memory ran out.
    pub fn number(self) -> Option<u8>
        ensures { result ≡ fault_number self }
    {
        match self {
            LogFault::Magic => Some(1),
            LogFault::Truncated => Some(2),
            LogFault::Hart => Some(3),
            LogFault::NotCanonical => Some(4),
            LogFault::TooManyTurns => Some(5),
            LogFault::OutOfMemory => None,
        }
    }
}

impl From<AllocError> for LogFault {
    ghost from_gives = { λ _ e. e ≡ OutOfMemory };

    fn from(_e: AllocError) -> LogFault {
        LogFault::OutOfMemory
    }
}

impl<T: Drop> From<AllocFailed<T>> for LogFault {
    ghost from_gives = { λ _ e. e ≡ OutOfMemory };

    fn from(_e: AllocFailed<T>) -> LogFault {
        LogFault::OutOfMemory
    }
}
