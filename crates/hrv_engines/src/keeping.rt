//! What is kept of a line of a talk that has not ended: bytes that mean the same, whatever follows.

ghost use Rattle.std.specs.Prelude.{◌≡◌, ◌≤◌, ℕ, List, ◌++◌, ◌∷◌, [], true, length, None, OnOk};
ghost use Rattle.hrv_engines.specs.inner.Unended.{BeginsNone, IsKeptOf, MeanSame};
ghost use Rattle.hrv_engines.specs.Commands as spec;

use crate::commands::{first_word, read_number};
use std::alloc::AllocError;

/// A line of this many bytes is asked whether a command begins so. With two zeros at most in front of a number, no
/// command is longer.
const MANY: usize = 64;

/// The longest name of a command has this many bytes.
const MOST_NAME: usize = 7;

/// Takes more bytes of a line, and keeps of them what may say something: no zero more in front of a number that has
/// two, and nothing where no command begins as the line does.
#[tactic(auto, using(crate::proofs::Unended::all_left_out))]
pub(crate) fn keep(line: &mut Vec<u8>, bytes: &[u8]) -> Result<(), AllocError>
    ensures { OnOk result (IsKeptOf line.old.items bytes.now line.new.items) }
{
    if is_over(line) {
        return Ok(());
    }
    for &byte in bytes {
        keep_byte(line, byte)?;
    }
    Ok(())
}

/// Whether a line is so long that it was asked, and begins no command.
fn is_over(line: &[u8]) -> bool
    ensures none { result ≡ true → BeginsNone line.now }
    ensures some { result ≡ true → 1 ≤ length line.now }
{
    line.len() >= MANY && begins_none(line)
}

/// Takes one more byte of a line.
#[tactic(auto, using(crate::proofs::Unended::one_left_out, crate::proofs::Unended::one_pushed))]
fn keep_byte(line: &mut Vec<u8>, byte: u8) -> Result<(), AllocError>
    ensures { OnOk result (IsKeptOf line.old.items (byte ∷ []) line.new.items) }
{
    if says_nothing(line, byte) {
        return Ok(());
    }
    line.push(byte)?;
    Ok(())
}

/// Whether a line commands the same with one more byte, whatever follows.
#[tactic(auto, using(crate::proofs::Unended::none_idle))]
fn says_nothing(line: &[u8], byte: u8) -> bool
    ensures same { result ≡ true → MeanSame (line.now ++ byte ∷ []) line.now }
    ensures some { result ≡ true → 1 ≤ length line.now }
{
    is_over(line) || is_idle(line, byte)
}

/// Whether the byte is one more zero in front of a number.
fn is_idle(line: &[u8], byte: u8) -> bool
    ensures some { result ≡ true → 1 ≤ length line.now }
    ensures same { result ≡ true → MeanSame (line.now ++ byte ∷ []) line.now }
{
    byte == b'0' && has_zeros(line)
}

/// Whether a number has begun with as many zeros as say anything.
fn has_zeros(line: &[u8]) -> bool
    ensures some { result ≡ true → 1 ≤ length line.now }
    ensures same { result ≡ true → MeanSame (line.now ++ 48 ∷ []) line.now }
{
    line.ends_with(b" 00") || line.ends_with(b" 0x0")
}

/// Whether no command begins with a line.
fn begins_none(line: &[u8]) -> bool
    ensures { result ≡ true → BeginsNone line.now }
{
    let (name, rest) = first_word(line);
    let Some(rest) = rest else {
        return name.len() > MOST_NAME;
    };
    let (first, rest) = first_word(rest);
    let Some(rest) = rest else {
        return begins_no_number(first);
    };
    let (second, rest) = first_word(rest);
    if let Some(_) = rest {
        return true;
    }
    is_no_number(first) || begins_no_number(second)
}

/// Whether a word is no number.
fn is_no_number(word: &[u8]) -> bool
    ensures { result ≡ true → spec.number_of word.now ≡ None }
{
    read_number(word).is_none()
}

/// Whether no number begins with a word, of which enough bytes are there to say so.
fn begins_no_number(word: &[u8]) -> bool
    ensures { result ≡ true → (more : List ℕ) → spec.number_of (word.now ++ more) ≡ None }
{
    word.len() >= 3 && is_no_number(word)
}
