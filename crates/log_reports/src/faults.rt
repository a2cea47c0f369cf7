//! Why a text is none of a log.

ghost use Rattle.std.specs.Prelude.{◌≡◌};
ghost use Rattle.log_reports.specs.LogText.{fault_number};

use thiserror::Error;

/// What is wrong with a line of a log's text. The numbers are this project's own.
#[derive(Clone, Copy, Debug, PartialEq, Eq, Error)]
pub enum LogTextFault {
    /// 1: the first line isn't `harts N` with N from 1 to 8, or there is no line.
    #[error("the text does not begin with a number of harts")]
    Heading,
    /// 2: another line isn't `HART COUNT`.
    #[error("the line is not a hart and a count")]
    Line,
    /// 3: the hart isn't below the number of harts.
    #[error("there is no such hart")]
    Hart,
    /// 4: the count is 0.
    #[error("the run has no turns")]
    NoTurns,
    /// 5: the hart has more than 2^40 turns up to this line.
    #[error("the hart has too many turns")]
    TooManyTurns,
}

impl LogTextFault {
    /// The fault's number.
    pub fn number(self) -> u8
        ensures { result ≡ fault_number self }
    {
        match self {
            LogTextFault::Heading => 1,
            LogTextFault::Line => 2,
            LogTextFault::Hart => 3,
            LogTextFault::NoTurns => 4,
            LogTextFault::TooManyTurns => 5,
        }
    }
}
