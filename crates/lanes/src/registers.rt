//! A vector register as N elements of one kind.

ghost use Rattle.std.specs.Prelude.{◌≡◌, ◌+◌, ◌*◌, ◌<◌, ◌≤◌, ◌%◌, ◌^◌, map, slice_index, slice_set, replicate};
ghost use Rattle.std.specs.List.{range_with_len};
ghost use Rattle.lanes.specs.Words.{elements, register_of};
ghost use Rattle.lanes.specs.Words.{merged};
ghost use Rattle.lanes.specs.Words.{active};

use crate::kernels;
use crate::kinds::LaneKind;
use crate::vectors::LaneKernels;
use std::marker::Model;

/// N elements of one kind. A contract sees them as the list of their numbers, element 0 first.
#[derive(Drop)]
pub struct Lanes<K: LaneKind, const N: usize> {
    pub(crate) elements: [K; N],
}

impl<K: LaneKind, const N: usize> Model for Lanes<K, N> {
    ghost use Rattle.std.specs.Prelude.{List, ℕ, map};

    ghost Value = { List ℕ };

    ghost view = { λ l. map K.number l.elements };
}

#[tactic(auto, using(crate::proofs::Elements::seen_lists))]
impl<K: LaneKind, const N: usize> Lanes<K, N> {
    /// The same element N times.
    pub fn splat(value: K) -> Lanes<K, N>
        ensures { result ≡ replicate N (K.number value) }
    {
        Lanes {
            elements: [value; N],
        }
    }

    /// The element at an index.
    pub fn get(&self, index: usize) -> K
        requires { index < N }
        ensures { K.number result ≡ slice_index self.now index }
    {
        self.elements[index]
    }

    /// Replaces the element at an index.
    pub fn set(&mut self, index: usize, value: K)
        requires { index < N }
        ensures { self.new ≡ slice_set self.old index (K.number value) }
    {
        self.elements[index] = value;
    }

    /// A register's elements.
    #[tactic(auto, using(crate::proofs::Elements::map_from_indices), unfolding(crate::specs::Words::elements))]
    pub fn from_register(register: &[u8; 16]) -> Lanes<K, N>
        requires { N * K.width ≡ 128 }
        ensures { result ≡ elements K.width register.now }
    {
        Lanes {
            elements: kernels::each_index([K::from_u32(0); N], |index| K::read(register, index)),
        }
    }

    /// The numbers from `first` on, as far as they fit the width.
    #[tactic(auto, using(crate::proofs::Elements::map_from_indices))]
    pub fn indices(first: u32) -> Lanes<K, N>
        requires width { N * K.width ≡ 128 }
        requires few { first ≤ 128 }
        ensures { result ≡ map (λ i. (first + i) % 2 ^ K.width) (range_with_len 0 N) }
    {
        Lanes {
            elements: kernels::each_index([K::from_u32(0); N], |index| {
                K::from_u32(first + index as u32)
            }),
        }
    }

    /// Bytes of a register from `first` on, each as an element.
    #[tactic(auto, using(crate::proofs::Elements::map_from_indices))]
    pub fn from_bytes(register: &[u8; 16], first: usize) -> Lanes<K, N>
        requires { first + N ≤ 16 }
        ensures { result ≡ map (λ i. slice_index register.now (first + i)) (range_with_len 0 N) }
    {
        Lanes {
            elements: kernels::each_index([K::from_u32(0); N], |index| {
                K::from_u32(u32::from(register[first + index]))
            }),
        }
    }

    /// The bytes of a register that holds the elements.
    pub fn to_register(&self) -> [u8; 16]
        requires { N * K.width ≡ 128 }
        ensures { result ≡ register_of K.width self.now }
    {
        bytes_of(&self.elements)
    }
}

#[tactic(auto, using(crate::proofs::Elements::seen_lists))]
impl<K: LaneKernels<N>, const N: usize> Lanes<K, N> {
    /// The new elements where they are chosen, and these ones elsewhere.
    pub fn merge(&self, new: &Lanes<K, N>, chosen: &[bool; N]) -> Lanes<K, N>
        ensures { result ≡ merged chosen.now new.now self.now }
    {
        Lanes {
            elements: K::merge_all(chosen, &new.elements, &self.elements),
        }
    }

    /// The new elements where an instruction works on them, of those from `first` on, and these ones elsewhere: with
    /// [`active`] those that are chosen.
    pub fn merge_active(
        &self,
        new: &Lanes<K, N>,
        first: usize,
        vl: usize,
        unmasked: bool,
        mask: &[u8; 16],
    ) -> Lanes<K, N>
        requires { first + N ≤ 128 }
        ensures { result ≡ merged (active first N vl unmasked mask.now) new.now self.now }
    {
        let old = &self.elements;
        Lanes {
            elements: kernels::merge_active(&new.elements, old, first, vl, unmasked, mask),
        }
    }
}

// Writes one element after the other.
fn bytes_of<K: LaneKind, const N: usize>(elements: &[K; N]) -> [u8; 16]
    requires { N * K.width ≡ 128 }
    ensures { result ≡ register_of K.width (map K.number elements.now) }
{
    let mut register = [0; 16];
    for index in 0..N {
        elements[index].write(&mut register, index);
    }
    register
}
