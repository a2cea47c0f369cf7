//! Why an assembly text is refused.

ghost use Rattle.std.specs.Prelude.{◌≡◌};
ghost use Rattle.assembler.specs.Faults as spec;

use thiserror::Error;

/// A fault of a line of an assembly text. Of several in one line the least number counts.
#[derive(Clone, Copy, Debug, PartialEq, Eq, Error)]
pub enum AsmFault {
    /// The line isn't written as a line is, or says what can't be said there.
    #[error("syntax")]
    Syntax,
    /// The mnemonic or directive is none.
    #[error("unknown mnemonic")]
    Mnemonic,
    /// A word that is no register, or one of the other kind, stands for a register.
    #[error("bad register")]
    Register,
    /// A number is outside of what its place can hold.
    #[error("immediate out of range")]
    Immediate,
    /// No line defines the label.
    #[error("unknown label")]
    UnknownLabel,
    /// An earlier line defines the same label.
    #[error("label defined twice")]
    LabelTwice,
    /// A target is out of reach, an entry isn't a word of text, or an output breaks a rule of images.
    #[error("target out of range")]
    Target,
    /// Text or data passes a limit of the machine in this line.
    #[error("too large")]
    TooLarge,
}

impl AsmFault {
    /// The fault's number, from 1 to 8.
    pub fn number(self) -> u8
        ensures { result ≡ spec.number_of self }
    {
        match self {
            AsmFault::Syntax => 1,
            AsmFault::Mnemonic => 2,
            AsmFault::Register => 3,
            AsmFault::Immediate => 4,
            AsmFault::UnknownLabel => 5,
            AsmFault::LabelTwice => 6,
            AsmFault::Target => 7,
            AsmFault::TooLarge => 8,
        }
    }

    /// The one with the lesser number.
    fn lesser(self, other: AsmFault) -> AsmFault
        ensures { result ≡ spec.lesser self other }
    {
        if self.number() <= other.number() {
            self
        } else {
            other
        }
    }
}

/// Two judgements of one line: both values, or the least fault.
pub fn both<A: Copy, B: Copy>(
    first: Result<A, AsmFault>,
    second: Result<B, AsmFault>,
) -> Result<(A, B), AsmFault>
    ensures { result ≡ spec.both first second }
{
    match (first, second) {
        (Ok(a), Ok(b)) => Ok((a, b)),
        (Ok(_), Err(fault)) => Err(fault),
        (Err(fault), Ok(_)) => Err(fault),
        (Err(fault), Err(other)) => Err(fault.lesser(other)),
    }
}

/// Nothing, or this fault where a test fails.
pub fn unless(fault: AsmFault, test: bool) -> Result<(), AsmFault>
    ensures { result ≡ spec.unless fault test }
{
    if test { Ok(()) } else { Err(fault) }
}
