//! Theorems about the definitions, as contracts of functions that do nothing.

ghost use Rattle.std.specs.Prelude.{◌≡◌, ◌<◌, ◌≤◌, ◌+◌, ◌*◌, ◌^◌, ◌*ℤ◌, pos, ℕ, Bool, false, List, length};
ghost use Rattle.std.specs.Prelude.{if◌then◌else◌, slice_index_or};
ghost use Rattle.std.specs.List.{AllByRecursion};
ghost use Rattle.lanes.specs.Words as word;
ghost use Rattle.lanes.specs.Words.{IsWidth, signed, wrapped};
ghost use Rattle.lanes.specs.Words.{elements, register_of};
ghost use Rattle.lanes.specs.Words.{mask_bit, with_mask_bits};

/// A register's elements give its bytes back.
pub fn bytes_are_read_back()
    ensures { (w : ℕ) (bytes : List ℕ) → IsWidth w → length bytes ≡ 16 → AllByRecursion (λ byte. byte < 256) bytes
        → register_of w (elements w bytes) ≡ bytes }
{}

/// A register gives the elements that it was made of back.
pub fn elements_are_read_back()
    ensures { (w : ℕ) (numbers : List ℕ) → IsWidth w → length numbers * w ≡ 128
        → AllByRecursion (λ n. n < 2 ^ w) numbers
        → elements w (register_of w numbers) ≡ numbers }
{}

/// Of a mask register, the bits of active elements are those that were written, and every other bit is
/// the old one.
pub fn mask_bits_are_read_back()
    ensures { (active bits : List Bool) (bytes : List ℕ) (i : ℕ) → length bytes ≡ 16 → length active ≡ length bits
        → length bits ≤ 128
        → mask_bit (with_mask_bits active bits bytes) i
        ≡ (if slice_index_or active i false then slice_index_or bits i false else mask_bit bytes i) }
{}

/// A word is what its signed number leaves.
pub fn signed_words_are_read_back()
    ensures { (w n : ℕ) → IsWidth w → n < 2 ^ w → wrapped w (signed w n) ≡ n }
{}

/// Quotient times divisor plus remainder is the dividend, modulo 2 to the width, for every divisor.
pub fn quotient_and_remainder_give_the_dividend()
    ensures unsigned { (w a b : ℕ) → IsWidth w → a < 2 ^ w → b < 2 ^ w
        → word.add w (word.multiply w (word.divide_unsigned w a b) b) (word.remainder_unsigned w a b) ≡ a }
    ensures signed { (w a b : ℕ) → IsWidth w → a < 2 ^ w → b < 2 ^ w
        → word.add w (word.multiply w (word.divide_signed w a b) b) (word.remainder_signed w a b) ≡ a }
{}

/// The high half and the low half of a product are the product: modulo 2 to twice the width, where an
/// operand is signed.
pub fn halves_give_the_product()
    ensures unsigned { (w a b : ℕ) → IsWidth w → a < 2 ^ w → b < 2 ^ w
        → word.multiply_high_unsigned w a b * 2 ^ w + word.multiply w a b ≡ a * b }
    ensures signed { (w a b : ℕ) → IsWidth w → a < 2 ^ w → b < 2 ^ w
        → word.multiply_high_signed w a b * 2 ^ w + word.multiply w a b ≡ wrapped (w + w) (signed w a *ℤ signed w b) }
    ensures mixed { (w a b : ℕ) → IsWidth w → a < 2 ^ w → b < 2 ^ w
        → word.multiply_high_signed_unsigned w a b * 2 ^ w + word.multiply w a b
        ≡ wrapped (w + w) (signed w a *ℤ pos b) }
{}
