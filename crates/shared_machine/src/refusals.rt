//! Why a turn is refused.

ghost use Rattle.std.specs.Prelude.{◌≡◌};
ghost use Rattle.shared_machine.specs.Refusals.{drive_number, number_of};
ghost use Rattle.shared_machine.specs.declared.refusals.DriveFault.TheVariants as fault;
ghost use Rattle.shared_machine.specs.declared.refusals.TurnRefusal.TheVariants.{OutOfMemory};

use std::alloc::{AllocError, AllocFailed};
use thiserror::Error;

/// Why a turn is refused. Machine and log are then unchanged.
#[derive(Clone, Copy, Debug, PartialEq, Eq, Error)]
pub enum TurnRefusal {
    /// 1: memory ran out.
    #[error("out of memory")]
    OutOfMemory,
    /// 2: the hart has made 2^40 turns.
    #[error("the hart has made as many turns as there may be")]
    TurnsSpent,
    /// 3: a stop was asked.
    #[error("a stop was asked")]
    StopAsked,
}

impl TurnRefusal {
    /// The refusal's number, from 1 on.
    pub fn number(self) -> u8
        ensures { result ≡ number_of self }
    {
        match self {
            TurnRefusal::OutOfMemory => 1,
            TurnRefusal::TurnsSpent => 2,
            TurnRefusal::StopAsked => 3,
        }
    }
}

impl From<AllocError> for TurnRefusal {
    ghost from_gives = { λ _ e. e ≡ OutOfMemory };

    fn from(_e: AllocError) -> TurnRefusal {
        TurnRefusal::OutOfMemory
    }
}

impl<T: Drop> From<AllocFailed<T>> for TurnRefusal {
    ghost from_gives = { λ _ e. e ≡ OutOfMemory };

    fn from(_e: AllocFailed<T>) -> TurnRefusal {
        TurnRefusal::OutOfMemory
    }
}

/// Why seats were not driven. A stop is asked then, and turns that were made stand.
#[derive(Clone, Copy, Debug, PartialEq, Eq, Error)]
pub enum DriveFault {
    /// 1: memory ran out.
    #[error("out of memory")]
    OutOfMemory,
    /// 2: a thread could not be started.
    #[error("a thread could not be started")]
    NoThread,
}

impl DriveFault {
    /// The fault's number, from 1 on.
    pub fn number(self) -> u8
        ensures { result ≡ drive_number self }
    {
        match self {
            DriveFault::OutOfMemory => 1,
            DriveFault::NoThread => 2,
        }
    }
}

impl From<AllocError> for DriveFault {
    ghost from_gives = { λ _ e. e ≡ fault.OutOfMemory };

    fn from(_e: AllocError) -> DriveFault {
        DriveFault::OutOfMemory
    }
}

impl<T: Drop> From<AllocFailed<T>> for DriveFault {
    ghost from_gives = { λ _ e. e ≡ fault.OutOfMemory };

    fn from(_e: AllocFailed<T>) -> DriveFault {
        DriveFault::OutOfMemory
    }
}
