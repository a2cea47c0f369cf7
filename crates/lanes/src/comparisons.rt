//! Comparisons of each pair of elements, and reductions.

ghost use Rattle.std.specs.Prelude.{◌≡◌};
ghost use Rattle.lanes.specs.Words as word;
ghost use Rattle.lanes.specs.Words.{zip_with, reduced};

use crate::kernels::reduce;
use crate::kinds::LaneKind;
use crate::registers::Lanes;
use crate::vectors::LaneKernels;

impl<K: LaneKernels<N>, const N: usize> Lanes<K, N> {
    /// Where the two are equal.
    pub fn equal(&self, other: &Lanes<K, N>) -> [bool; N]
        ensures { result ≡ zip_with (word.equal K.width) self.now other.now }
    {
        K::equal_all(&self.elements, &other.elements)
    }

    /// Where the two differ.
    pub fn not_equal(&self, other: &Lanes<K, N>) -> [bool; N]
        ensures { result ≡ zip_with (word.not_equal K.width) self.now other.now }
    {
        K::not_equal_all(&self.elements, &other.elements)
    }

    /// Where these elements are less, read as unsigned.
    pub fn less_unsigned(&self, other: &Lanes<K, N>) -> [bool; N]
        ensures { result ≡ zip_with (word.less_unsigned K.width) self.now other.now }
    {
        K::less_unsigned_all(&self.elements, &other.elements)
    }

    /// Where these elements are less, read as signed.
    pub fn less_signed(&self, other: &Lanes<K, N>) -> [bool; N]
        ensures { result ≡ zip_with (word.less_signed K.width) self.now other.now }
    {
        K::less_signed_all(&self.elements, &other.elements)
    }

    /// Where these elements are less or equal, read as unsigned.
    pub fn less_or_equal_unsigned(&self, other: &Lanes<K, N>) -> [bool; N]
        ensures { result ≡ zip_with (word.less_or_equal_unsigned K.width) self.now other.now }
    {
        K::less_or_equal_unsigned_all(&self.elements, &other.elements)
    }

    /// Where these elements are less or equal, read as signed.
    pub fn less_or_equal_signed(&self, other: &Lanes<K, N>) -> [bool; N]
        ensures { result ≡ zip_with (word.less_or_equal_signed K.width) self.now other.now }
    {
        K::less_or_equal_signed_all(&self.elements, &other.elements)
    }
}

#[tactic(auto, using(crate::proofs::Elements::reduced_from_steps))]
impl<K: LaneKind, const N: usize> Lanes<K, N> {
    /// The start plus the active elements, modulo 2 to the width.
    pub fn sum(&self, start: K, active: &[bool; N]) -> K
        ensures { K.number result ≡ reduced (word.add K.width) active.now (K.number start) self.now }
    {
        reduce(start, &self.elements, active, K::add)
    }

    /// The least of the start and the active elements, read as unsigned.
    pub fn least_unsigned(&self, start: K, active: &[bool; N]) -> K
        ensures { K.number result ≡ reduced (word.min_unsigned K.width) active.now (K.number start) self.now }
    {
        reduce(start, &self.elements, active, K::min_unsigned)
    }

    /// The least of the start and the active elements, read as signed.
    pub fn least_signed(&self, start: K, active: &[bool; N]) -> K
        ensures { K.number result ≡ reduced (word.min_signed K.width) active.now (K.number start) self.now }
    {
        reduce(start, &self.elements, active, K::min_signed)
    }

    /// The greatest of the start and the active elements, read as unsigned.
    pub fn greatest_unsigned(&self, start: K, active: &[bool; N]) -> K
        ensures { K.number result ≡ reduced (word.max_unsigned K.width) active.now (K.number start) self.now }
    {
        reduce(start, &self.elements, active, K::max_unsigned)
    }

    /// The greatest of the start and the active elements, read as signed.
    pub fn greatest_signed(&self, start: K, active: &[bool; N]) -> K
        ensures { K.number result ≡ reduced (word.max_signed K.width) active.now (K.number start) self.now }
    {
        reduce(start, &self.elements, active, K::max_signed)
    }
}
