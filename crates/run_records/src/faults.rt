//! Why a text is no record.

ghost use Rattle.std.specs.Prelude.{◌≡◌};
ghost use Rattle.run_records.specs.RecordText.{fault_number};

use thiserror::Error;

/// What is wrong with a line of a record's text. The numbers are this project's own.
#[derive(Clone, Copy, Debug, PartialEq, Eq, Error)]
pub enum RecordFault {
    /// 1: the first line isn't `record 1`, or there is no line.
    #[error("the text does not begin as a record does")]
    Heading,
    /// 2: a line isn't the one that is in its place, or one comes after the last.
    #[error("the line is not the one of its place")]
    Line,
    /// 3: a version or a logic isn't a word of visible ASCII characters.
    #[error("the line has no word")]
    Word,
    /// 4: a digest isn't 64 hexadecimal digits.
    #[error("the line has no digest")]
    Digest,
    /// 5: a number isn't within its limits.
    #[error("the line has no number within its limits")]
    Number,
    /// 6: an ending is none.
    #[error("the line has no ending of a run")]
    Ending,
}

impl RecordFault {
    /// The fault's number.
    pub fn number(self) -> u8
        ensures { result ≡ fault_number self }
    {
        match self {
            RecordFault::Heading => 1,
            RecordFault::Line => 2,
            RecordFault::Word => 3,
            RecordFault::Digest => 4,
            RecordFault::Number => 5,
            RecordFault::Ending => 6,
        }
    }
}

/// The first faulty line of a record's text, by its number from 1, and its fault.
#[derive(Clone, Copy, Debug, PartialEq, Eq)]
pub struct RecordError {
    pub line: u64,
    pub fault: RecordFault,
}
