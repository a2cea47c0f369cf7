//! What the values of a record's lines mean.

ghost use Rattle.std.specs.Prelude.{◌≡◌, ◌+◌, ◌<◌, ◌^◌, option_map};
ghost use Rattle.run_records.specs.RecordText as spec;

use crate::records::Ending;
use line_text::numbers::saturating_number;
use line_text::spans::digits_len;
use rv_insn::Trap;

/// A word of visible ASCII characters.
#[tactic(auto, unfolding(crate::specs::RecordText::word_in))]
pub fn word_in(value: &[u8]) -> Option<&[u8]>
    ensures { option_map (λ word. word.now) result ≡ spec.word_in value.now }
{
    if value.is_empty() || !is_visible(value) {
        return None;
    }
    Some(value)
}

/// Whether all bytes are visible ASCII characters.
fn is_visible(value: &[u8]) -> bool
    ensures { result ≡ spec.are_visible value.now }
{
    value.iter().all(|byte| *byte > 32 && *byte < 127)
}

/// The digest that 64 hexadecimal digits of either case spell.
#[tactic(auto, unfolding(crate::specs::RecordText::digest_in))]
pub fn digest_in(value: &[u8]) -> Option<[u8; 32]>
    ensures { result ≡ spec.digest_in value.now }
{
    let mut digest = [0; 32];
    match hex::decode_to_slice(value, &mut digest) {
        Ok(()) => Some(digest),
        Err(_) => None,
    }
}

/// The number from 1 to the greatest one that decimal digits spell.
#[tactic(auto, unfolding(crate::specs::RecordText::number_in))]
pub fn number_in(value: &[u8], most: u64) -> Option<u64>
    requires { most + 1 < 2 ^ 64 }
    ensures { result ≡ spec.number_in most value.now }
{
    if digits_len(value) < value.len() {
        return None;
    }
    let number = saturating_number(value, most);
    if number == 0 || number > most {
        return None;
    }
    Some(number)
}

/// The ending that a line names.
#[tactic(auto, unfolding(crate::specs::RecordText::ending_in))]
pub fn ending_in(value: &[u8]) -> Option<Ending>
    ensures { result ≡ spec.ending_in value.now }
{
    if value == b"finished".as_slice() {
        return Some(Ending::Finished);
    }
    if value == b"limit".as_slice() {
        return Some(Ending::Limit);
    }
    if !value.starts_with(b"trap ") {
        return None;
    }
    match trap_in(&value[5..]) {
        Some(trap) => Some(Ending::Trapped(trap)),
        None => None,
    }
}

/// The trap whose number one digit is.
fn trap_in(value: &[u8]) -> Option<Trap>
    ensures { result ≡ spec.trap_in value.now }
{
    let [digit] = value else {
        return None;
    };
    trap_of(*digit)
}

/// The trap of a digit.
#[tactic(auto, unfolding(crate::specs::RecordText::trap_of))]
fn trap_of(digit: u8) -> Option<Trap>
    ensures { result ≡ spec.trap_of digit }
{
    match digit {
        b'1' => Some(Trap::IllegalInstruction),
        b'2' => Some(Trap::FetchOutside),
        b'3' => Some(Trap::MisalignedTarget),
        b'4' => Some(Trap::LoadMisaligned),
        b'5' => Some(Trap::LoadOutside),
        b'6' => Some(Trap::StoreMisaligned),
        b'7' => Some(Trap::StoreOutside),
        b'8' => Some(Trap::Breakpoint),
        _ => None,
    }
}
