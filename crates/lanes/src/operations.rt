//! Operations on each pair of elements.

ghost use Rattle.std.specs.Prelude.{◌≡◌};
ghost use Rattle.lanes.specs.Words as word;
ghost use Rattle.lanes.specs.Words.{zip_with};

use crate::kernels::each_pair;
use crate::kinds::LaneKind;
use crate::registers::Lanes;
use crate::vectors::LaneKernels;

impl<K: LaneKernels<N>, const N: usize> Lanes<K, N> {
    /// The sums, modulo 2 to the width.
    pub fn add(&self, other: &Lanes<K, N>) -> Lanes<K, N>
        ensures { result ≡ zip_with (word.add K.width) self.now other.now }
    {
        Lanes {
            elements: K::add_all(&self.elements, &other.elements),
        }
    }

    /// These elements minus the other ones, modulo 2 to the width.
    pub fn sub(&self, other: &Lanes<K, N>) -> Lanes<K, N>
        ensures { result ≡ zip_with (word.sub K.width) self.now other.now }
    {
        Lanes {
            elements: K::sub_all(&self.elements, &other.elements),
        }
    }

    /// The lesser of each pair, read as unsigned.
    pub fn min_unsigned(&self, other: &Lanes<K, N>) -> Lanes<K, N>
        ensures { result ≡ zip_with (word.min_unsigned K.width) self.now other.now }
    {
        Lanes {
            elements: K::min_unsigned_all(&self.elements, &other.elements),
        }
    }

    /// The lesser of each pair, read as signed.
    pub fn min_signed(&self, other: &Lanes<K, N>) -> Lanes<K, N>
        ensures { result ≡ zip_with (word.min_signed K.width) self.now other.now }
    {
        Lanes {
            elements: K::min_signed_all(&self.elements, &other.elements),
        }
    }

    /// The greater of each pair, read as unsigned.
    pub fn max_unsigned(&self, other: &Lanes<K, N>) -> Lanes<K, N>
        ensures { result ≡ zip_with (word.max_unsigned K.width) self.now other.now }
    {
        Lanes {
            elements: K::max_unsigned_all(&self.elements, &other.elements),
        }
    }

    /// The greater of each pair, read as signed.
    pub fn max_signed(&self, other: &Lanes<K, N>) -> Lanes<K, N>
        ensures { result ≡ zip_with (word.max_signed K.width) self.now other.now }
    {
        Lanes {
            elements: K::max_signed_all(&self.elements, &other.elements),
        }
    }

    /// The bits that are 1 in both.
    pub fn and(&self, other: &Lanes<K, N>) -> Lanes<K, N>
        ensures { result ≡ zip_with (word.and K.width) self.now other.now }
    {
        Lanes {
            elements: K::and_all(&self.elements, &other.elements),
        }
    }

    /// The bits that are 1 in either.
    pub fn or(&self, other: &Lanes<K, N>) -> Lanes<K, N>
        ensures { result ≡ zip_with (word.or K.width) self.now other.now }
    {
        Lanes {
            elements: K::or_all(&self.elements, &other.elements),
        }
    }

    /// The bits that differ.
    pub fn xor(&self, other: &Lanes<K, N>) -> Lanes<K, N>
        ensures { result ≡ zip_with (word.xor K.width) self.now other.now }
    {
        Lanes {
            elements: K::xor_all(&self.elements, &other.elements),
        }
    }

    /// Shifted left by the other elements, taken modulo the width.
    pub fn shift_left(&self, other: &Lanes<K, N>) -> Lanes<K, N>
        ensures { result ≡ zip_with (word.shift_left K.width) self.now other.now }
    {
        Lanes {
            elements: K::shift_left_all(&self.elements, &other.elements),
        }
    }

    /// Shifted right by the other elements, taken modulo the width; zeros come in.
    pub fn shift_right_logical(&self, other: &Lanes<K, N>) -> Lanes<K, N>
        ensures { result ≡ zip_with (word.shift_right_logical K.width) self.now other.now }
    {
        Lanes {
            elements: K::shift_right_logical_all(&self.elements, &other.elements),
        }
    }

    /// Shifted right by the other elements, taken modulo the width; sign bits come in.
    pub fn shift_right_arithmetic(&self, other: &Lanes<K, N>) -> Lanes<K, N>
        ensures { result ≡ zip_with (word.shift_right_arithmetic K.width) self.now other.now }
    {
        Lanes {
            elements: K::shift_right_arithmetic_all(&self.elements, &other.elements),
        }
    }

    /// The low halves of the products.
    pub fn multiply(&self, other: &Lanes<K, N>) -> Lanes<K, N>
        ensures { result ≡ zip_with (word.multiply K.width) self.now other.now }
    {
        Lanes {
            elements: K::multiply_all(&self.elements, &other.elements),
        }
    }
}

#[tactic(auto, using(crate::proofs::Elements::zip_from_pairs))]
impl<K: LaneKind, const N: usize> Lanes<K, N> {
    /// The high halves of the products of unsigned numbers.
    pub fn multiply_high_unsigned(&self, other: &Lanes<K, N>) -> Lanes<K, N>
        ensures { result ≡ zip_with (word.multiply_high_unsigned K.width) self.now other.now }
    {
        Lanes {
            elements: each_pair(
                &self.elements,
                &other.elements,
                self.elements,
                K::multiply_high_unsigned,
            ),
        }
    }

    /// The high halves of the products of signed numbers.
    pub fn multiply_high_signed(&self, other: &Lanes<K, N>) -> Lanes<K, N>
        ensures { result ≡ zip_with (word.multiply_high_signed K.width) self.now other.now }
    {
        Lanes {
            elements: each_pair(
                &self.elements,
                &other.elements,
                self.elements,
                K::multiply_high_signed,
            ),
        }
    }

    /// The high halves of the products of these elements, read as signed, and the other ones, read as
    /// unsigned.
    pub fn multiply_high_signed_unsigned(&self, other: &Lanes<K, N>) -> Lanes<K, N>
        ensures { result ≡ zip_with (word.multiply_high_signed_unsigned K.width) self.now other.now }
    {
        Lanes {
            elements: each_pair(
                &self.elements,
                &other.elements,
                self.elements,
                K::multiply_high_signed_unsigned,
            ),
        }
    }

    /// The quotients of unsigned numbers; by zero all bits are 1.
    pub fn divide_unsigned(&self, other: &Lanes<K, N>) -> Lanes<K, N>
        ensures { result ≡ zip_with (word.divide_unsigned K.width) self.now other.now }
    {
        Lanes {
            elements: each_pair(
                &self.elements,
                &other.elements,
                self.elements,
                K::divide_unsigned,
            ),
        }
    }

    /// The quotients of signed numbers, toward zero; by zero all bits are 1, and the least number by -1 is
    /// itself.
    pub fn divide_signed(&self, other: &Lanes<K, N>) -> Lanes<K, N>
        ensures { result ≡ zip_with (word.divide_signed K.width) self.now other.now }
    {
        Lanes {
            elements: each_pair(
                &self.elements,
                &other.elements,
                self.elements,
                K::divide_signed,
            ),
        }
    }

    /// The remainders of unsigned numbers; by zero it is the element.
    pub fn remainder_unsigned(&self, other: &Lanes<K, N>) -> Lanes<K, N>
        ensures { result ≡ zip_with (word.remainder_unsigned K.width) self.now other.now }
    {
        Lanes {
            elements: each_pair(
                &self.elements,
                &other.elements,
                self.elements,
                K::remainder_unsigned,
            ),
        }
    }

    /// The remainders of signed numbers, with the sign of these elements; by zero it is the element.
    pub fn remainder_signed(&self, other: &Lanes<K, N>) -> Lanes<K, N>
        ensures { result ≡ zip_with (word.remainder_signed K.width) self.now other.now }
    {
        Lanes {
            elements: each_pair(
                &self.elements,
                &other.elements,
                self.elements,
                K::remainder_signed,
            ),
        }
    }
}
