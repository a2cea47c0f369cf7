//! The lines of a record, each a name and its value.

ghost use Rattle.std.specs.Prelude.{◌≡◌, ◌+◌, ◌<◌, ◌^◌, option_map};
ghost use Rattle.run_records.specs.RecordText as spec;

use crate::faults::{RecordError, RecordFault};
use crate::records::Ending;
use crate::values::{digest_in, ending_in, number_in, word_in};
use line_text::lines::first_line;

/// What comes after a name in the first line, and the lines after it.
fn value_of<'a>(text: &'a [u8], name: &[u8]) -> Option<(&'a [u8], &'a [u8])>
    ensures { option_map (λ found. (found.0.now, found.1.now)) result ≡ spec.value_of name.now text.now }
{
    let (line, rest) = first_line(text);
    if !line.starts_with(name) {
        return None;
    }
    let (_, value) = line.split_at(name.len());
    Some((value, rest))
}

/// The word of a line, and the lines after it.
pub fn word_item<'a>(
    line: u64,
    name: &[u8],
    text: &'a [u8],
) -> Result<(&'a [u8], &'a [u8]), RecordError>
    ensures { spec.seen_by (λ found. (found.0.now, found.1.now)) result ≡ spec.word_item line name.now text.now }
{
    let Some((value, rest)) = value_of(text, name) else {
        return Err(fault_at(line, RecordFault::Line));
    };
    match word_in(value) {
        Some(word) => Ok((word, rest)),
        None => Err(fault_at(line, RecordFault::Word)),
    }
}

/// The digest of a line, and the lines after it.
pub fn digest_item<'a>(
    line: u64,
    name: &[u8],
    text: &'a [u8],
) -> Result<([u8; 32], &'a [u8]), RecordError>
    ensures { spec.seen_by (λ found. (found.0, found.1.now)) result ≡ spec.digest_item line name.now text.now }
{
    let Some((value, rest)) = value_of(text, name) else {
        return Err(fault_at(line, RecordFault::Line));
    };
    match digest_in(value) {
        Some(digest) => Ok((digest, rest)),
        None => Err(fault_at(line, RecordFault::Digest)),
    }
}

/// The number of a line, from 1 to the greatest one, and the lines after it.
pub fn number_item<'a>(
    line: u64,
    name: &[u8],
    most: u64,
    text: &'a [u8],
) -> Result<(u64, &'a [u8]), RecordError>
    requires { most + 1 < 2 ^ 64 }
    ensures { spec.seen_by (λ found. (found.0, found.1.now)) result ≡ spec.number_item most line name.now text.now }
{
    let Some((value, rest)) = value_of(text, name) else {
        return Err(fault_at(line, RecordFault::Line));
    };
    match number_in(value, most) {
        Some(number) => Ok((number, rest)),
        None => Err(fault_at(line, RecordFault::Number)),
    }
}

/// The ending of a line, and the lines after it.
pub fn ending_item<'a>(
    line: u64,
    name: &[u8],
    text: &'a [u8],
) -> Result<(Ending, &'a [u8]), RecordError>
    ensures { spec.seen_by (λ found. (found.0, found.1.now)) result ≡ spec.ending_item line name.now text.now }
{
    let Some((value, rest)) = value_of(text, name) else {
        return Err(fault_at(line, RecordFault::Line));
    };
    match ending_in(value) {
        Some(ending) => Ok((ending, rest)),
        None => Err(fault_at(line, RecordFault::Ending)),
    }
}

/// The lines after the heading.
pub fn behind_heading(text: &[u8]) -> Result<&[u8], RecordError>
    ensures { spec.seen_by (λ rest. rest.now) result ≡ spec.behind_heading text.now }
{
    let (line, rest) = first_line(text);
    if line != b"record 1".as_slice() {
        return Err(fault_at(1, RecordFault::Heading));
    }
    Ok(rest)
}

/// A fault, in the line with this number.
pub fn fault_at(line: u64, fault: RecordFault) -> RecordError
    ensures { result ≡ spec.fault_at line fault }
{
    RecordError { line, fault }
}
