//! What readers of texts stand on: spans of bytes, numbers without a bound on their digits, lines, and the first faulty
//! line. `specs/Lines.antt` defines all of it.
//!
//! - [`spans`]: how many bytes at the front are blanks, digits or parts of a name; where the text of a line ends and a
//!   comment begins.
//! - [`numbers`]: the number that digits spell, cut off at a bound.
//! - [`lines`]: the first line of a text, and how many lines there are.
//! - [`line_readers`]: a reader that takes a text line by line ([`LineReader`]), and the loop up to the first line that
//!   it refuses.
//! - [`read_errors`]: a fault of the text, or memory that ran out ([`ReadError`]), and the same with the number of the
//!   line ([`LocatedError`]).
//! - [`laws`]: what the definitions of lines and of the first faulty line come to.
#![tactic(auto)]

pub mod laws;
mod line_readers;
pub mod lines;
pub mod numbers;
pub mod read_errors;
pub mod spans;

pub use crate::line_readers::{LineReader, read_lines};
pub use crate::read_errors::{LocatedError, ReadError};
