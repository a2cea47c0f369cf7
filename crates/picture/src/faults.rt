//! Why a text is no picture, and why a pipeline isn't evaluated.

ghost use Rattle.std.specs.Prelude.{◌≡◌};
ghost use Rattle.line_text.specs.declared.read_errors.ReadError.TheVariants as errors;
ghost use Rattle.picture.specs.Evaluated.{error_number};
ghost use Rattle.picture.specs.Reading.{number_of};
ghost use Rattle.picture.specs.declared.faults.EvalError.TheVariants as eval_errors;

use line_text::ReadError;
use std::alloc::AllocError;
use thiserror::Error;

/// What the first faulty place of a text is.
#[derive(Clone, Copy, Debug, PartialEq, Eq, Error)]
pub enum PictureFault {
    /// The text isn't laid out as a picture, or a number isn't written as one is.
    #[error("the text is not laid out as a picture")]
    Syntax,

    /// A width or height outside 1 to 65,536, or more than 1,048,576 pixels.
    #[error("the width or height is not one that a picture has")]
    Extents,

    /// A pixel that isn't a signed number of 32 bits.
    #[error("a pixel is not a signed number of 32 bits")]
    Number,
}

impl PictureFault {
    /// The fault's number, from 1 to 3.
    pub fn number(self) -> u8
        ensures { result ≡ number_of self }
    {
        match self {
            PictureFault::Syntax => 1,
            PictureFault::Extents => 2,
            PictureFault::Number => 3,
        }
    }
}

impl From<PictureFault> for ReadError<PictureFault> {
    ghost from_gives = { λ fault e. e ≡ errors.Fault fault };

    fn from(fault: PictureFault) -> ReadError<PictureFault> {
        ReadError::Fault(fault)
    }
}

/// Why a pipeline isn't evaluated: the pictures aren't those that it asks for, or no memory.
#[derive(Clone, Copy, Debug, PartialEq, Eq, Error)]
pub enum EvalError {
    /// There aren't as many pictures as inputs.
    #[error("there are not as many pictures as inputs")]
    InputCount,

    /// A picture doesn't have its input's size.
    #[error("a picture does not have its input's size")]
    InputSize,

    /// A pixel of an input of bytes isn't from 0 to 255.
    #[error("a pixel of an input of bytes is not from 0 to 255")]
    InputByte,

    /// Memory ran out.
    #[error("out of memory")]
    OutOfMemory,
}

impl EvalError {
    /// The fault's number, 1 to 3; a lack of memory has none.
    pub fn number(self) -> Option<u8>
        ensures { result ≡ error_number self }
    {
        match self {
            EvalError::InputCount => Some(1),
            EvalError::InputSize => Some(2),
            EvalError::InputByte => Some(3),
            EvalError::OutOfMemory => None,
        }
    }
}

impl From<AllocError> for EvalError {
    ghost from_gives = { λ _ e. e ≡ eval_errors.OutOfMemory };

    fn from(_e: AllocError) -> EvalError {
        EvalError::OutOfMemory
    }
}
