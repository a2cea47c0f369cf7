//! Why an image is refused.

ghost use Rattle.std.specs.Prelude.{◌≡◌};
ghost use Rattle.loader.specs.Fault.{number_of};
ghost use Rattle.loader.specs.declared.faults.LoadFault.TheVariants.{OutOfMemory};

use std::alloc::{AllocError, AllocFailed};
use thiserror::Error;

/// Why an image is refused: the first fault in the format's order, or no memory.
#[derive(Clone, Copy, Debug, PartialEq, Eq, Error)]
pub enum LoadFault {
    /// The first four bytes are neither `HRV1` nor `HRV2`.
    #[error("the bytes begin with neither HRV1 nor HRV2")]
    Magic,

    /// Fewer bytes than the magic, the header or the header's counts ask for.
    #[error("the bytes end too early")]
    Truncated,

    /// More bytes than the header's counts ask for.
    #[error("bytes stand after the end of the image")]
    TrailingBytes,

    /// More than 262,144 words or 33,554,432 data bytes, or more stored bytes than data bytes.
    #[error("the image has more words or data bytes than it may have")]
    OverLimit,

    /// The entry isn't the address of a word of text.
    #[error("the entry is not the address of a word of text")]
    Entry,

    /// The output isn't a picture that lies in the data bytes.
    #[error("the output is not a picture in the data bytes")]
    OutputRange,

    /// The number of harts isn't one that a machine has.
    #[error("the number of harts is not one that a machine has")]
    HartCount,

    /// The last stored byte is 0.
    #[error("the last stored byte of data is 0")]
    StoredZero,

    /// Memory ran out.
    #[error("out of memory")]
    OutOfMemory,
}

impl LoadFault {
    /// The fault's number, from 1 to 8; a lack of memory has none.
    pub fn number(self) -> Option<u8>
        ensures { result ≡ number_of self }
    {
        match self {
            LoadFault::Magic => Some(1),
            LoadFault::Truncated => Some(2),
            LoadFault::TrailingBytes => Some(3),
            LoadFault::OverLimit => Some(4),
            LoadFault::Entry => Some(5),
            LoadFault::OutputRange => Some(6),
            LoadFault::HartCount => Some(7),
            LoadFault::StoredZero => Some(8),
            LoadFault::OutOfMemory => None,
        }
    }
}

impl From<AllocError> for LoadFault {
    ghost from_gives = { λ _ e. e ≡ OutOfMemory };

    fn from(_e: AllocError) -> LoadFault {
        LoadFault::OutOfMemory
    }
}

impl<T: Drop> From<AllocFailed<T>> for LoadFault {
    ghost from_gives = { λ _ e. e ≡ OutOfMemory };

    fn from(_e: AllocFailed<T>) -> LoadFault {
        LoadFault::OutOfMemory
    }
}
