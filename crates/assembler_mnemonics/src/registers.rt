//! Registers as text has them.

ghost use Rattle.std.specs.Prelude.{◌≡◌, ◌<◌, IfSome};
ghost use Rattle.assembler_mnemonics.specs.Registers.{register_number as number_named, integer_letter, vector_letter};

use rv_insn::{Reg, VReg};

/// The integer register that a word names, `x0` to `x31`.
pub fn integer_register(word: &[u8]) -> Option<Reg>
    ensures { result ≡ number_named integer_letter word.now }
{
    match register_number(b'x', word) {
        Some(number) => Reg::new(number),
        None => None,
    }
}

/// The vector register that a word names, `v0` to `v31`.
pub fn vector_register(word: &[u8]) -> Option<VReg>
    ensures { result ≡ number_named vector_letter word.now }
{
    match register_number(b'v', word) {
        Some(number) => VReg::new(number),
        None => None,
    }
}

// The number after a letter: no leading zero, and at most 31.
#[tactic(auto, unfolding(crate::specs::Registers::register_number))]
fn register_number(letter: u8, word: &[u8]) -> Option<u8>
    ensures value { result ≡ number_named letter word.now }
    ensures within { IfSome result (λ number. number < 32) }
{
    match word {
        [first, digit] if *first == letter && digit.is_ascii_digit() => Some(*digit - b'0'),
        [first, tens, ones]
            if *first == letter
                && tens.is_ascii_digit()
                && *tens != b'0'
                && ones.is_ascii_digit() => {
            let number = (*tens - b'0') * 10 + (*ones - b'0');
            if number < 32 { Some(number) } else { None }
        }
        _ => None,
    }
}
