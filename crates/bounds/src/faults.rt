//! Why there are no boxes.

ghost use Rattle.std.specs.Prelude.{◌≡◌};
ghost use Rattle.bounds.specs.Faults.{fault_number};
ghost use Rattle.bounds.specs.declared.faults.BoundsFault.TheVariants as faults;

use std::alloc::AllocError;
use thiserror::Error;

/// Why an algorithm under a schedule has no boxes that can be compiled.
#[derive(Clone, Copy, Debug, PartialEq, Eq, Error)]
pub enum BoundsFault {
    /// An input may be read outside its extents.
    #[error("an input may be read outside its extents")]
    InputExtents,

    /// A box leaves -2^24 to 2^24. Of all faults this is judged first.
    #[error("a box leaves -2^24 to 2^24")]
    FarBox,

    /// A shifted split is of a loop whose extent is below its factor.
    #[error("a shifted split is of a loop whose extent is below its factor")]
    ShortShift,

    /// A box has more than 1,048,576 points, or the data more than 33,554,432 bytes.
    #[error("a box has more than 1048576 points, or the data more than 33554432 bytes")]
    TooLarge,

    /// Memory ran out.
    #[error("out of memory")]
    OutOfMemory,
}

impl BoundsFault {
    /// The fault's number, 1 to 4; a lack of memory has none.
    pub fn number(self) -> Option<u8>
        ensures { result ≡ fault_number self }
    {
        match self {
            BoundsFault::InputExtents => Some(1),
            BoundsFault::FarBox => Some(2),
            BoundsFault::ShortShift => Some(3),
            BoundsFault::TooLarge => Some(4),
            BoundsFault::OutOfMemory => None,
        }
    }
}

impl From<AllocError> for BoundsFault {
    ghost from_gives = { λ _ e. e ≡ faults.OutOfMemory };

    fn from(_e: AllocError) -> BoundsFault {
        BoundsFault::OutOfMemory
    }
}
