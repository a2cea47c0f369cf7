//! Operations on the elements of two whole registers at once, as vectors of the processor.

ghost use Rattle.std.specs.Prelude.{◌≡◌, map};
ghost use Rattle.lanes.specs.Words as word;
ghost use Rattle.lanes.specs.Words.{zip_with, merged};

use crate::kinds::LaneKind;

mod bytes;
mod halves;
mod words;

/// A kind whose N elements fill a vector of the processor.
///
/// Each operation is the one on words of `specs/Words.antt` on each pair of elements, at the kind's width.
pub trait LaneKernels<const N: usize>: LaneKind {
    /// The sums, modulo 2 to the width.
    fn add_all(a: &[Self; N], b: &[Self; N]) -> [Self; N]
        ensures { map Self.number result ≡ zip_with (word.add Self.width) (map Self.number a.now)
            (map Self.number b.now) };

    /// The first elements minus the second ones, modulo 2 to the width.
    fn sub_all(a: &[Self; N], b: &[Self; N]) -> [Self; N]
        ensures { map Self.number result ≡ zip_with (word.sub Self.width) (map Self.number a.now)
            (map Self.number b.now) };

    /// The lesser of each pair, read as unsigned.
    fn min_unsigned_all(a: &[Self; N], b: &[Self; N]) -> [Self; N]
        ensures { map Self.number result ≡ zip_with (word.min_unsigned Self.width) (map Self.number a.now)
            (map Self.number b.now) };

    /// The lesser of each pair, read as signed.
    fn min_signed_all(a: &[Self; N], b: &[Self; N]) -> [Self; N]
        ensures { map Self.number result ≡ zip_with (word.min_signed Self.width) (map Self.number a.now)
            (map Self.number b.now) };

    /// The greater of each pair, read as unsigned.
    fn max_unsigned_all(a: &[Self; N], b: &[Self; N]) -> [Self; N]
        ensures { map Self.number result ≡ zip_with (word.max_unsigned Self.width) (map Self.number a.now)
            (map Self.number b.now) };

    /// The greater of each pair, read as signed.
    fn max_signed_all(a: &[Self; N], b: &[Self; N]) -> [Self; N]
        ensures { map Self.number result ≡ zip_with (word.max_signed Self.width) (map Self.number a.now)
            (map Self.number b.now) };

    /// The bits that are 1 in both.
    fn and_all(a: &[Self; N], b: &[Self; N]) -> [Self; N]
        ensures { map Self.number result ≡ zip_with (word.and Self.width) (map Self.number a.now)
            (map Self.number b.now) };

    /// The bits that are 1 in either.
    fn or_all(a: &[Self; N], b: &[Self; N]) -> [Self; N]
        ensures { map Self.number result ≡ zip_with (word.or Self.width) (map Self.number a.now)
            (map Self.number b.now) };

    /// The bits that differ.
    fn xor_all(a: &[Self; N], b: &[Self; N]) -> [Self; N]
        ensures { map Self.number result ≡ zip_with (word.xor Self.width) (map Self.number a.now)
            (map Self.number b.now) };

    /// Shifted left by the second elements, taken modulo the width.
    fn shift_left_all(a: &[Self; N], b: &[Self; N]) -> [Self; N]
        ensures { map Self.number result ≡ zip_with (word.shift_left Self.width) (map Self.number a.now)
            (map Self.number b.now) };

    /// Shifted right by the second elements, taken modulo the width; zeros come in.
    fn shift_right_logical_all(a: &[Self; N], b: &[Self; N]) -> [Self; N]
        ensures { map Self.number result ≡ zip_with (word.shift_right_logical Self.width) (map Self.number a.now)
            (map Self.number b.now) };

    /// Shifted right by the second elements, taken modulo the width; sign bits come in.
    fn shift_right_arithmetic_all(a: &[Self; N], b: &[Self; N]) -> [Self; N]
        ensures { map Self.number result ≡ zip_with (word.shift_right_arithmetic Self.width) (map Self.number a.now)
            (map Self.number b.now) };

    /// The low halves of the products.
    fn multiply_all(a: &[Self; N], b: &[Self; N]) -> [Self; N]
        ensures { map Self.number result ≡ zip_with (word.multiply Self.width) (map Self.number a.now)
            (map Self.number b.now) };

    /// Where the two are equal.
    fn equal_all(a: &[Self; N], b: &[Self; N]) -> [bool; N]
        ensures { result ≡ zip_with (word.equal Self.width) (map Self.number a.now) (map Self.number b.now) };

    /// Where the two differ.
    fn not_equal_all(a: &[Self; N], b: &[Self; N]) -> [bool; N]
        ensures { result ≡ zip_with (word.not_equal Self.width) (map Self.number a.now) (map Self.number b.now) };

    /// Where the first elements are less, read as unsigned.
    fn less_unsigned_all(a: &[Self; N], b: &[Self; N]) -> [bool; N]
        ensures { result ≡ zip_with (word.less_unsigned Self.width) (map Self.number a.now) (map Self.number b.now) };

    /// Where the first elements are less, read as signed.
    fn less_signed_all(a: &[Self; N], b: &[Self; N]) -> [bool; N]
        ensures { result ≡ zip_with (word.less_signed Self.width) (map Self.number a.now) (map Self.number b.now) };

    /// Where the first elements are less or equal, read as unsigned.
    fn less_or_equal_unsigned_all(a: &[Self; N], b: &[Self; N]) -> [bool; N]
        ensures { result ≡ zip_with (word.less_or_equal_unsigned Self.width) (map Self.number a.now)
            (map Self.number b.now) };

    /// Where the first elements are less or equal, read as signed.
    fn less_or_equal_signed_all(a: &[Self; N], b: &[Self; N]) -> [bool; N]
        ensures { result ≡ zip_with (word.less_or_equal_signed Self.width) (map Self.number a.now)
            (map Self.number b.now) };

    /// The new elements where they are chosen, and the old ones elsewhere.
    fn merge_all(chosen: &[bool; N], new: &[Self; N], old: &[Self; N]) -> [Self; N]
        ensures { result ≡ merged chosen.now new.now old.now };
}
