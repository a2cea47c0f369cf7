//! Masks: which elements are active, and results that are written as bits of a register.

ghost use Rattle.std.specs.Prelude.{◌≡◌, ◌+◌, ◌*◌, ◌<◌, ◌≤◌, Bool, List, [], ◌∷◌, length, true};
ghost use Rattle.std.specs.Simd.Lanes.{mask_l};
ghost use Rattle.lanes.specs.Words.{mask_bit, mask_bits, active, with_bit, with_mask_bit, with_mask_bits_from};

use crate::kernels::each_index;

/// Bit `index` of a mask register.
pub fn mask_bit(register: &[u8; 16], index: usize) -> bool
    requires { index < 128 }
    ensures { result ≡ mask_bit register.now index }
{
    register[index / 8] >> (index % 8) & 1 == 1
}

/// N bits of a mask register, from `first` on.
#[tactic(auto, using(crate::proofs::Elements::tests_from_indices), unfolding(crate::specs::Words::mask_bits))]
pub fn mask_bits<const N: usize>(first: usize, register: &[u8; 16]) -> [bool; N]
    requires { first + N ≤ 128 }
    ensures { result ≡ mask_bits first N register.now }
{
    each_index([false; N], |index| mask_bit(register, first + index))
}

/// Which of N elements from `first` on an instruction works on: those below `vl`, and of them, where it is not
/// `unmasked`, those whose bit in the mask register is 1.
#[tactic(auto, using(crate::proofs::Elements::tests_from_indices), unfolding(crate::specs::Words::active))]
pub fn active<const N: usize>(first: usize, vl: usize, unmasked: bool, mask: &[u8; 16]) -> [bool; N]
    requires { first + N ≤ 128 }
    ensures { result ≡ active first N vl unmasked mask.now }
{
    each_index([false; N], |index| {
        first + index < vl && (unmasked || mask_bit(mask, first + index))
    })
}

/// Writes the bits of the active elements from `first` on into a mask register, and keeps every other bit.
pub fn write_mask_bits<const N: usize>(
    register: &mut [u8; 16],
    first: usize,
    active: &[bool; N],
    bits: &[bool; N],
)
    requires { first + N ≤ 128 }
    ensures { register.new ≡ with_mask_bits_from first active.now bits.now register.old }
{
    for index in 0..N {
        if active[index] {
            write_mask_bit(register, first + index, bits[index]);
        }
    }
}

/// Writes the four bits of a mask register from `part * 4` on, as a number spells them, the first one as its lowest
/// bit, and keeps every other bit.
#[inline(always)]
pub fn write_four_mask_bits(register: &mut [u8; 16], part: usize, bits: u64)
    requires { part < 32 }
    ensures { (tests : List Bool) → length tests ≡ 4 → bits ≡ mask_l tests
        → register.new ≡ with_mask_bits_from (part * 4) (true ∷ true ∷ true ∷ true ∷ []) tests register.old }
{
    let byte = register[part / 2];
    let bits = (bits % 16) as u8;
    if part % 2 == 0 {
        register[part / 2] = with_low_bits(byte, bits);
    } else {
        register[part / 2] = with_high_bits(byte, bits);
    }
}

// A byte whose lowest four bits are written, as a number spells them.
#[inline(always)]
fn with_low_bits(byte: u8, bits: u8) -> u8
    ensures { (a b c d : Bool) → bits ≡ mask_l (a ∷ b ∷ c ∷ d ∷ [])
        → result ≡ with_bit (with_bit (with_bit (with_bit byte 0 a) 1 b) 2 c) 3 d }
{
    byte & 0xF0 | bits
}

// The same of the highest four.
#[inline(always)]
fn with_high_bits(byte: u8, bits: u8) -> u8
    ensures { (a b c d : Bool) → bits ≡ mask_l (a ∷ b ∷ c ∷ d ∷ [])
        → result ≡ with_bit (with_bit (with_bit (with_bit byte 4 a) 5 b) 6 c) 7 d }
{
    byte & 0x0F | bits << 4
}

// Writes bit `index` of a mask register.
fn write_mask_bit(register: &mut [u8; 16], index: usize, bit: bool)
    requires { index < 128 }
    ensures { register.new ≡ with_mask_bit register.old index bit }
{
    register[index / 8] = with_bit(register[index / 8], index % 8, bit);
}

// A byte whose bit `place` is written.
fn with_bit(byte: u8, place: usize, bit: bool) -> u8
    requires { place < 8 }
    ensures { result ≡ with_bit byte place bit }
{
    let one = 1 << place;
    if bit { byte | one } else { byte & !one }
}
