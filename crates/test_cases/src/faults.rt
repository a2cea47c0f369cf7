//! Why a file has no cases.

use std::alloc::{AllocError, AllocFailed};
use thiserror::Error;

/// Why a text is no list of cases, or a part isn't the one that is asked for.
#[derive(Debug, Drop, Error)]
pub enum CaseFault {
    /// Memory ran out.
    #[error("out of memory")]
    Memory,
    /// What is wrong with the text.
    #[error("malformed: {0}")]
    Malformed(&'static str),
}

impl From<AllocError> for CaseFault {
    fn from(_error: AllocError) -> CaseFault {
        CaseFault::Memory
    }
}

impl<T: Drop> From<AllocFailed<T>> for CaseFault {
    fn from(_error: AllocFailed<T>) -> CaseFault {
        CaseFault::Memory
    }
}
