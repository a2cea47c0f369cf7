//! What can be wrong with an algorithm text.

ghost use Rattle.std.specs.Prelude.{◌≡◌};
ghost use Rattle.halide_parser_syntax.specs.Faults as spec;

/// What is wrong with a line, the least first.
#[derive(Clone, Copy, Debug, PartialEq, Eq)]
pub enum ParseFault {
    /// The line is not of the grammar, or is after the output.
    Syntax,
    /// A name stands for nothing that can stand there.
    UnknownName,
    /// An input, a Func, an argument or a reduction variable has a name that is taken.
    NameTaken,
    /// The number of arguments or dimensions is another.
    WrongCount,
    /// A divisor is no literal from 1 to 2147483647.
    Divisor,
    /// A number is above 2147483647.
    NumberTooLarge,
    /// An update does not follow its Func, uses an argument that does not stand in place, or calls its own Func
    /// with other arguments in place or on the left.
    UpdateShape,
    /// A limit is passed.
    Limit,
    /// The text ends without an output line.
    NoOutput,
}

impl ParseFault {
    /// The fault's number, 1 to 9.
    pub fn number(self) -> u32
        ensures { result ≡ spec.number self }
    {
        match self {
            ParseFault::Syntax => 1,
            ParseFault::UnknownName => 2,
            ParseFault::NameTaken => 3,
            ParseFault::WrongCount => 4,
            ParseFault::Divisor => 5,
            ParseFault::NumberTooLarge => 6,
            ParseFault::UpdateShape => 7,
            ParseFault::Limit => 8,
            ParseFault::NoOutput => 9,
        }
    }
}
