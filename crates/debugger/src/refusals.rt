//! Why a session refuses a call.

ghost use Rattle.std.specs.Prelude.{◌≡◌};
ghost use Rattle.debugger.specs.Refusals.{number_of};
ghost use Rattle.debugger.specs.declared.refusals.SessionRefusal.TheVariants.{OutOfMemory};

use std::alloc::{AllocError, AllocFailed};
use thiserror::Error;

/// Why a session refuses a call. It is then as it was.
#[derive(Clone, Copy, Debug, PartialEq, Eq, Error)]
pub enum SessionRefusal {
    /// The place is after the log's last turn.
    #[error("the place is past the end of the log")]
    PastEnd,

    /// The place is before the log's first turn.
    #[error("the place is before the start of the log")]
    BeforeStart,

    /// No word that may be marked or read is at the address.
    #[error("no such word stands at the address")]
    Address,

    /// 64 breaks and watches are set.
    #[error("as many marks are set as there may be")]
    TooManyMarks,

    /// No mark stops in that direction.
    #[error("no mark stops there")]
    NoStop,

    /// Memory ran out.
    #[error("out of memory")]
    OutOfMemory,
}

impl SessionRefusal {
    /// The refusal's number, from 1 to 5; a lack of memory has none.
    pub fn number(self) -> Option<u8>
        ensures { result ≡ number_of self }
    {
        match self {
            SessionRefusal::PastEnd => Some(1),
            SessionRefusal::BeforeStart => Some(2),
            SessionRefusal::Address => Some(3),
            SessionRefusal::TooManyMarks => Some(4),
            SessionRefusal::NoStop => Some(5),
            SessionRefusal::OutOfMemory => None,
        }
    }
}

impl From<AllocError> for SessionRefusal {
    ghost from_gives = { λ _ e. e ≡ OutOfMemory };

    fn from(_e: AllocError) -> SessionRefusal {
        SessionRefusal::OutOfMemory
    }
}

impl<T: Drop> From<AllocFailed<T>> for SessionRefusal {
    ghost from_gives = { λ _ e. e ≡ OutOfMemory };

    fn from(_e: AllocFailed<T>) -> SessionRefusal {
        SessionRefusal::OutOfMemory
    }
}
