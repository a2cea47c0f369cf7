//! The text of a record.

ghost use Rattle.std.specs.Prelude.{◌≡◌, ◌++◌, ◌∷◌, [], OnOk, codes};
ghost use Rattle.std.specs.Fmt.{decimal};
ghost use Rattle.hex.specs.Hex.{encode_lower};
ghost use Rattle.run_records.specs.RecordText.{contents_of, ending_text, record_text};

use crate::records::{Ending, RunRecord};
use itoa::Buffer;
use std::alloc::AllocError;

/// Appends the text of a record, a line for each of its parts.
pub fn push_record(text: &mut Vec<u8>, record: &RunRecord<'_>) -> Result<(), AllocError>
    ensures { OnOk result (text.new.items ≡ text.old.items ++ record_text (contents_of «record».now)) }
{
    text.extend_from_slice(b"record 1\n")?;
    push_item(text, b"version ", record.version)?;
    push_item(text, b"logic ", record.logic)?;
    push_digest(text, b"image ", &record.image)?;
    push_digest(text, b"log ", &record.log)?;
    push_number(text, b"harts ", record.harts)?;
    push_number(text, b"limit ", record.limit)?;
    push_ending(text, record.ending)?;
    Ok(())
}

/// Appends a line: a name and its value.
fn push_item(text: &mut Vec<u8>, name: &[u8], value: &[u8]) -> Result<(), AllocError>
    ensures { OnOk result (text.new.items ≡ text.old.items ++ (name.now ++ value.now ++ 10 ∷ [])) }
{
    text.extend_from_slice(name)?;
    text.extend_from_slice(value)?;
    text.push(b'\n')?;
    Ok(())
}

/// Appends a line whose value is a number.
fn push_number(text: &mut Vec<u8>, name: &[u8], number: u64) -> Result<(), AllocError>
    ensures { OnOk result (text.new.items ≡ text.old.items ++ (name.now ++ decimal number ++ 10 ∷ [])) }
{
    let mut buffer = Buffer::new();
    push_item(text, name, buffer.format(number).as_bytes())
}

/// Appends a line whose value is a digest.
fn push_digest(text: &mut Vec<u8>, name: &[u8], digest: &[u8; 32]) -> Result<(), AllocError>
    ensures { OnOk result (text.new.items ≡ text.old.items ++ (name.now ++ encode_lower digest.now ++ 10 ∷ [])) }
{
    push_item(text, name, &digits_of(digest))
}

/// The hexadecimal digits of a digest, with small letters.
pub fn digits_of(digest: &[u8; 32]) -> [u8; 64]
    ensures { result ≡ encode_lower digest.now }
{
    let mut digits = [0; 64];
    hex::encode_to_slice(digest.as_slice(), &mut digits).unwrap();
    digits
}

/// Appends the line `ending finished`, `ending limit` or `ending trap K`.
fn push_ending(text: &mut Vec<u8>, ending: Ending) -> Result<(), AllocError>
    ensures { OnOk result (text.new.items ≡ text.old.items ++ (codes "ending " ++ ending_text ending ++ 10 ∷ [])) }
{
    match ending {
        Ending::Finished => text.extend_from_slice(b"ending finished\n"),
        Ending::Limit => text.extend_from_slice(b"ending limit\n"),
        Ending::Trapped(trap) => {
            text.extend_from_slice(b"ending trap ")?;
            text.push(b'0' + trap.number())?;
            text.push(b'\n')?;
            Ok(())
        }
    }
}
