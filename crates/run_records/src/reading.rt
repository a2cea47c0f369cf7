//! Reading the text of a record.

ghost use Rattle.std.specs.Prelude.{◌≡◌};
ghost use Rattle.run_records.specs.RecordText.{contents_of, record_in, seen_by};

use crate::faults::{RecordError, RecordFault};
use crate::items::{behind_heading, digest_item, ending_item, fault_at, number_item, word_item};
use crate::records::{MOST_LIMIT, RunRecord};

/// The record that a text means: eight lines, each in its place. The last one needs no line feed. It takes no memory:
/// the record's words are those of the text.
///
/// # Errors
///
/// The number of the first faulty line, from 1, and its fault.
#[tactic(auto, unfolding(crate::specs::RecordText::record_in))]
pub fn read_record(text: &[u8]) -> Result<RunRecord<'_>, RecordError>
    ensures { seen_by contents_of result ≡ record_in text.now }
{
    let rest = behind_heading(text)?;
    let (version, rest) = word_item(2, b"version ", rest)?;
    let (logic, rest) = word_item(3, b"logic ", rest)?;
    let (image, rest) = digest_item(4, b"image ", rest)?;
    let (log, rest) = digest_item(5, b"log ", rest)?;
    let (harts, rest) = number_item(6, b"harts ", 8, rest)?;
    let (limit, rest) = number_item(7, b"limit ", MOST_LIMIT, rest)?;
    let (ending, rest) = ending_item(8, b"ending ", rest)?;
    if !rest.is_empty() {
        return Err(fault_at(9, RecordFault::Line));
    }
    Ok(RunRecord {
        version,
        logic,
        image,
        log,
        harts,
        limit,
        ending,
    })
}
