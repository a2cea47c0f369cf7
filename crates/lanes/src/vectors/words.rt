//! Vectors of 4 elements of 32 bits.

ghost use Rattle.std.specs.Prelude.{◌≡◌, ◌+◌, ◌-◌, ◌%◌, ◌==◌, not};
ghost use Rattle.std.specs.Prelude.{if◌then◌else◌, map, nat_lt, length, ◌*◌, ◌<◌, bit_and};
ghost use Rattle.std.specs.Simd.Lanes.{zip2, sel_l, mask_l};
ghost use Rattle.lanes.specs.Words as word;
ghost use Rattle.lanes.specs.Words.{zip_with, merged, mask_bits};

use crate::kernels::{are_ones, flags};
use crate::registers::Lanes;
use crate::vectors::LaneKernels;
use std::simd::prelude::*;

#[tactic(auto, using(crate::proofs::VectorLanes::seen_tests, crate::proofs::VectorLanes::shifted, crate::proofs::VectorLanes::merged_flags))]
impl LaneKernels<4> for u32 {
    fn add_all(a: &[u32; 4], b: &[u32; 4]) -> [u32; 4] {
        (u32x4::from_array(*a) + u32x4::from_array(*b)).to_array()
    }

    fn sub_all(a: &[u32; 4], b: &[u32; 4]) -> [u32; 4] {
        (u32x4::from_array(*a) - u32x4::from_array(*b)).to_array()
    }

    fn min_unsigned_all(a: &[u32; 4], b: &[u32; 4]) -> [u32; 4] {
        u32x4::from_array(*a)
            .simd_min(u32x4::from_array(*b))
            .to_array()
    }

    fn min_signed_all(a: &[u32; 4], b: &[u32; 4]) -> [u32; 4] {
        let a = u32x4::from_array(*a);
        let b = u32x4::from_array(*b);
        ordered(b).simd_lt(ordered(a)).select(b, a).to_array()
    }

    fn max_unsigned_all(a: &[u32; 4], b: &[u32; 4]) -> [u32; 4] {
        u32x4::from_array(*a)
            .simd_max(u32x4::from_array(*b))
            .to_array()
    }

    fn max_signed_all(a: &[u32; 4], b: &[u32; 4]) -> [u32; 4] {
        let a = u32x4::from_array(*a);
        let b = u32x4::from_array(*b);
        ordered(a).simd_lt(ordered(b)).select(b, a).to_array()
    }

    fn and_all(a: &[u32; 4], b: &[u32; 4]) -> [u32; 4] {
        (u32x4::from_array(*a) & u32x4::from_array(*b)).to_array()
    }

    fn or_all(a: &[u32; 4], b: &[u32; 4]) -> [u32; 4] {
        (u32x4::from_array(*a) | u32x4::from_array(*b)).to_array()
    }

    fn xor_all(a: &[u32; 4], b: &[u32; 4]) -> [u32; 4] {
        (u32x4::from_array(*a) ^ u32x4::from_array(*b)).to_array()
    }

    fn shift_left_all(a: &[u32; 4], b: &[u32; 4]) -> [u32; 4] {
        (u32x4::from_array(*a) << amounts(u32x4::from_array(*b))).to_array()
    }

    fn shift_right_logical_all(a: &[u32; 4], b: &[u32; 4]) -> [u32; 4] {
        (u32x4::from_array(*a) >> amounts(u32x4::from_array(*b))).to_array()
    }

    fn shift_right_arithmetic_all(a: &[u32; 4], b: &[u32; 4]) -> [u32; 4] {
        let a = u32x4::from_array(*a);
        let shifted = flipped_below_zero(a, a) >> amounts(u32x4::from_array(*b));
        flipped_below_zero(a, shifted).to_array()
    }

    fn multiply_all(a: &[u32; 4], b: &[u32; 4]) -> [u32; 4] {
        (u32x4::from_array(*a) * u32x4::from_array(*b)).to_array()
    }

    fn equal_all(a: &[u32; 4], b: &[u32; 4]) -> [bool; 4] {
        equal(u32x4::from_array(*a), u32x4::from_array(*b))
    }

    fn not_equal_all(a: &[u32; 4], b: &[u32; 4]) -> [bool; 4] {
        not_equal(u32x4::from_array(*a), u32x4::from_array(*b))
    }

    fn less_unsigned_all(a: &[u32; 4], b: &[u32; 4]) -> [bool; 4] {
        less(u32x4::from_array(*a), u32x4::from_array(*b))
    }

    fn less_signed_all(a: &[u32; 4], b: &[u32; 4]) -> [bool; 4] {
        less(
            ordered(u32x4::from_array(*a)),
            ordered(u32x4::from_array(*b)),
        )
    }

    fn less_or_equal_unsigned_all(a: &[u32; 4], b: &[u32; 4]) -> [bool; 4] {
        less_or_equal(u32x4::from_array(*a), u32x4::from_array(*b))
    }

    fn less_or_equal_signed_all(a: &[u32; 4], b: &[u32; 4]) -> [bool; 4] {
        less_or_equal(
            ordered(u32x4::from_array(*a)),
            ordered(u32x4::from_array(*b)),
        )
    }

    fn merge_all(chosen: &[bool; 4], new: &[u32; 4], old: &[u32; 4]) -> [u32; 4] {
        let here = u32x4::from_array(flags(chosen, 1, 0));
        selected(here, u32x4::from_array(*new), u32x4::from_array(*old)).to_array()
    }
}

/// Merges under a mask register.
#[tactic(auto, using(crate::proofs::Elements::seen_lists))]
impl Lanes<u32, 4> {
    /// The new elements where the mask register has a 1, of its bits from `part * 4` on, and these ones elsewhere.
    #[inline(always)]
    pub fn merge_by_mask(&self, new: &Lanes<u32, 4>, part: usize, mask: &[u8; 16]) -> Lanes<u32, 4>
        requires { part < 32 }
        ensures { result ≡ merged (mask_bits (part * 4) 4 mask.now) new.now self.now }
    {
        Lanes {
            elements: merge_four(&new.elements, &self.elements, part, mask),
        }
    }
}

/// Comparisons of each pair, whose results are the bits of a number: that of the first pair is the lowest.
#[tactic(auto, using(crate::proofs::VectorLanes::seen_tests, crate::proofs::VectorLanes::seen_words))]
impl Lanes<u32, 4> {
    /// Where the two are equal.
    #[inline(always)]
    pub fn equal_bits(&self, other: &Lanes<u32, 4>) -> u64
        ensures { result ≡ mask_l (zip_with (word.equal 32) self.now other.now) }
    {
        equal_bits(
            u32x4::from_array(self.elements),
            u32x4::from_array(other.elements),
        )
    }

    /// Where the two differ.
    #[inline(always)]
    pub fn not_equal_bits(&self, other: &Lanes<u32, 4>) -> u64
        ensures { result ≡ mask_l (zip_with (word.not_equal 32) self.now other.now) }
    {
        not_equal_bits(
            u32x4::from_array(self.elements),
            u32x4::from_array(other.elements),
        )
    }

    /// Where these elements are less, read as unsigned.
    #[inline(always)]
    pub fn less_unsigned_bits(&self, other: &Lanes<u32, 4>) -> u64
        ensures { result ≡ mask_l (zip_with (word.less_unsigned 32) self.now other.now) }
    {
        less_bits(
            u32x4::from_array(self.elements),
            u32x4::from_array(other.elements),
        )
    }

    /// Where these elements are less, read as signed.
    #[inline(always)]
    pub fn less_signed_bits(&self, other: &Lanes<u32, 4>) -> u64
        ensures { result ≡ mask_l (zip_with (word.less_signed 32) self.now other.now) }
    {
        signed_less_bits(&self.elements, &other.elements)
    }

    /// Where these elements are less or equal, read as unsigned.
    #[inline(always)]
    pub fn less_or_equal_unsigned_bits(&self, other: &Lanes<u32, 4>) -> u64
        ensures { result ≡ mask_l (zip_with (word.less_or_equal_unsigned 32) self.now other.now) }
    {
        less_or_equal_bits(
            u32x4::from_array(self.elements),
            u32x4::from_array(other.elements),
        )
    }

    /// Where these elements are less or equal, read as signed.
    #[inline(always)]
    pub fn less_or_equal_signed_bits(&self, other: &Lanes<u32, 4>) -> u64
        ensures { result ≡ mask_l (zip_with (word.less_or_equal_signed 32) self.now other.now) }
    {
        signed_less_or_equal_bits(&self.elements, &other.elements)
    }
}

// Unsigned numbers in the order of the signed ones.
#[tactic(auto, using(crate::proofs::VectorLanes::with_each))]
fn ordered<const N: usize>(a: Simd<u32, N>) -> Simd<u32, N>
    ensures { result ≡ map (λ x. (x + 2147483648) % 4294967296) a.entry }
{
    a + Simd::splat(0x8000_0000)
}

// What a shift by each number shifts by.
fn amounts<const N: usize>(b: Simd<u32, N>) -> Simd<u32, N>
    ensures { result ≡ map (λ y. y % 32) b.entry }
{
    b & Simd::splat(31)
}

// The second numbers, with each bit flipped where the first, read as signed, is below zero.
fn flipped_below_zero<const N: usize>(a: Simd<u32, N>, b: Simd<u32, N>) -> Simd<u32, N>
    ensures { result ≡ zip2 (λ x y. if nat_lt x 2147483648 then y else 4294967295 - y) a.entry b.entry }
{
    a.simd_lt(Simd::splat(0x8000_0000)).select(b, !b)
}

// Where two numbers are equal.
#[tactic(auto, using(crate::proofs::VectorLanes::ones_chosen, crate::proofs::VectorLanes::top_32))]
fn equal<const N: usize>(a: Simd<u32, N>, b: Simd<u32, N>) -> [bool; N]
    ensures { result ≡ zip2 (λ x y. x == y) a.entry b.entry }
{
    are_ones(
        &a.simd_eq(b)
            .select(Simd::splat(1_u32), Simd::splat(0_u32))
            .to_array(),
    )
}

// Where two numbers differ.
#[tactic(auto, using(crate::proofs::VectorLanes::ones_chosen, crate::proofs::VectorLanes::top_32))]
fn not_equal<const N: usize>(a: Simd<u32, N>, b: Simd<u32, N>) -> [bool; N]
    ensures { result ≡ zip2 (λ x y. not (x == y)) a.entry b.entry }
{
    are_ones(
        &a.simd_ne(b)
            .select(Simd::splat(1_u32), Simd::splat(0_u32))
            .to_array(),
    )
}

// Where the first numbers are less.
#[tactic(auto, using(crate::proofs::VectorLanes::ones_chosen, crate::proofs::VectorLanes::top_32))]
fn less<const N: usize>(a: Simd<u32, N>, b: Simd<u32, N>) -> [bool; N]
    ensures { result ≡ zip2 (λ x y. nat_lt x y) a.entry b.entry }
{
    are_ones(
        &a.simd_lt(b)
            .select(Simd::splat(1_u32), Simd::splat(0_u32))
            .to_array(),
    )
}

// Where the first numbers are less or equal.
#[tactic(auto, using(crate::proofs::VectorLanes::ones_chosen, crate::proofs::VectorLanes::top_32, crate::proofs::VectorLanes::not_greater))]
fn less_or_equal<const N: usize>(a: Simd<u32, N>, b: Simd<u32, N>) -> [bool; N]
    ensures { result ≡ zip2 (λ x y. not (nat_lt y x)) a.entry b.entry }
{
    are_ones(
        &a.simd_le(b)
            .select(Simd::splat(1_u32), Simd::splat(0_u32))
            .to_array(),
    )
}

// Where two numbers are equal, as bits.
#[inline(always)]
fn equal_bits(a: u32x4, b: u32x4) -> u64
    requires { length a ≡ 4 }
    ensures { result ≡ mask_l (zip2 (λ x y. x == y) a b) }
{
    a.simd_eq(b).to_bitmask()
}

// Where two numbers differ, as bits.
#[inline(always)]
fn not_equal_bits(a: u32x4, b: u32x4) -> u64
    requires { length a ≡ 4 }
    ensures { result ≡ mask_l (zip2 (λ x y. not (x == y)) a b) }
{
    a.simd_ne(b).to_bitmask()
}

// Where the first numbers are less, as bits.
#[inline(always)]
fn less_bits(a: u32x4, b: u32x4) -> u64
    requires { length a ≡ 4 }
    ensures { result ≡ mask_l (zip2 (λ x y. nat_lt x y) a b) }
{
    a.simd_lt(b).to_bitmask()
}

// Where the first numbers are less or equal, as bits.
#[inline(always)]
fn less_or_equal_bits(a: u32x4, b: u32x4) -> u64
    requires { length a ≡ 4 }
    ensures { result ≡ mask_l (zip2 (λ x y. not (nat_lt y x)) a b) }
{
    a.simd_le(b).to_bitmask()
}

// Where the first numbers are less, read as signed, as bits.
#[inline(always)]
fn signed_less_bits(a: &[u32; 4], b: &[u32; 4]) -> u64
    ensures { result ≡ mask_l (zip_with (word.less_signed 32) a.now b.now) }
{
    less_bits(
        ordered(u32x4::from_array(*a)),
        ordered(u32x4::from_array(*b)),
    )
}

// Where the first numbers are less or equal, read as signed, as bits.
#[inline(always)]
fn signed_less_or_equal_bits(a: &[u32; 4], b: &[u32; 4]) -> u64
    ensures { result ≡ mask_l (zip_with (word.less_or_equal_signed 32) a.now b.now) }
{
    less_or_equal_bits(
        ordered(u32x4::from_array(*a)),
        ordered(u32x4::from_array(*b)),
    )
}

// The new numbers where a mask register has a 1, of its bits from `part * 4` on, and the old ones elsewhere.
#[inline(always)]
fn merge_four(new: &[u32; 4], old: &[u32; 4], part: usize, mask: &[u8; 16]) -> [u32; 4]
    requires { part < 32 }
    ensures { result ≡ merged (mask_bits (part * 4) 4 mask.now) new.now old.now }
{
    let byte = mask[part / 2];
    let new = u32x4::from_array(*new);
    let old = u32x4::from_array(*old);
    if part % 2 == 0 {
        chosen(byte, u32x4::from_array([1, 2, 4, 8]), new, old).to_array()
    } else {
        chosen(byte, u32x4::from_array([16, 32, 64, 128]), new, old).to_array()
    }
}

// The new numbers where a byte has all bits of a place, the old ones elsewhere.
#[tactic(auto, using(crate::proofs::VectorLanes::chosen_by, crate::proofs::VectorLanes::top_32))]
#[inline(always)]
fn chosen(byte: u8, places: u32x4, new: u32x4, old: u32x4) -> u32x4
    requires { length places ≡ 4 }
    ensures { result ≡ sel_l (map (λ place. bit_and byte place == place) places) new old }
{
    let bytes = Simd::splat(u32::from(byte));
    (bytes & places).simd_eq(places).select(new, old)
}

// The first numbers where the flag is 1, the second ones elsewhere.
#[tactic(auto, using(crate::proofs::VectorLanes::flagged, crate::proofs::VectorLanes::top_32))]
fn selected<const N: usize>(flags: Simd<u32, N>, a: Simd<u32, N>, b: Simd<u32, N>) -> Simd<u32, N>
    ensures { result ≡ sel_l (map (λ n. n == 1) flags.entry) a.entry b.entry }
{
    flags.simd_eq(Simd::splat(1)).select(a, b)
}
