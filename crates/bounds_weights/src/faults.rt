//! Why a schedule isn't let pass.

ghost use Rattle.std.specs.Prelude.{◌≡◌};
ghost use Rattle.bounds_weights.specs.Weight as spec;
ghost use Rattle.bounds_weights.specs.declared.faults.WeightError.TheVariants as errors;

use std::alloc::AllocError;
use thiserror::Error;

/// Why a schedule isn't let pass: its stages are too heavy, or no memory.
#[derive(Clone, Copy, Debug, PartialEq, Eq, Error)]
pub enum WeightError {
    /// All stages together weigh more than 4,096.
    #[error("the stages are too heavy")]
    TooHeavy,

    /// Memory ran out.
    #[error("out of memory")]
    OutOfMemory,
}

impl WeightError {
    /// The fault's number, 1; a lack of memory has none.
    pub fn number(self) -> Option<u8>
        ensures { result ≡ spec.number_of self }
    {
        match self {
            WeightError::TooHeavy => Some(1),
            WeightError::OutOfMemory => None,
        }
    }
}

impl From<AllocError> for WeightError {
    ghost from_gives = { λ error e. e ≡ errors.OutOfMemory };

    fn from(_error: AllocError) -> WeightError {
        WeightError::OutOfMemory
    }
}
