//! Reading a text line by line, up to the first line that is faulty.

ghost use Rattle.std.specs.Prelude.{◌≡◌, ℕ, List, length, Result, IfOk};
ghost use Rattle.line_text.specs.Lines.{lines_of};
ghost use Rattle.line_text.specs.Lines.{Takes, Reads, taken_from};

use crate::lines::first_line;
use crate::read_errors::{LocatedError, ReadError};

/// What takes a text line by line.
pub trait LineReader {
    /// What can be wrong with a line.
    type Fault;

    /// What a line makes of the reader, or the line's fault.
    ghost takes: { Self → List ℕ → Result Self Self.Fault };

    /// Takes the next line, which comes without its line feed. After an error the reader may be
    /// anything.
    fn take_line(&mut self, line: &[u8]) -> Result<(), ReadError<Self::Fault>>
        ensures { Takes (takes self.old line.now) result self.new };
}

/// Has a reader take all lines of a text, and says how many there are; or names the first line that
/// is faulty, by its number from 1, and its fault. It allocates nothing itself, so memory runs out only
/// where `take_line` says so. After an error the reader may be anything.
pub fn read_lines<R: LineReader>(reader: &mut R, text: &[u8]) -> Result<u64, LocatedError<R::Fault>>
    ensures read { Reads (taken_from R.takes 1 reader.old (lines_of text.now)) result reader.new }
    ensures count { IfOk result (λ count. count ≡ length (lines_of text.now)) }
{
    let mut count = 0;
    let mut rest = text;
    'lines: while !rest.is_empty() {
        let (line, after) = first_line(rest);
        match reader.take_line(line) {
            Ok(()) => {}
            Err(error) => return Err(error.at_line(count + 1)),
        }
        rest = after;
        count += 1;
    }
    Ok(count)
}
