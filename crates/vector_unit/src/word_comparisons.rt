//! The comparisons of pairs of words, each as a type, so that what works on a group is made for each of them.

ghost use Rattle.std.specs.Prelude.{◌≡◌};
ghost use Rattle.std.specs.Simd.Lanes.{mask_l};
ghost use Rattle.lanes.specs.Words.{zip_with};
ghost use Rattle.rv_insn.specs.declared.vector_operations.CompareVxOp.{CompareVxOp};
ghost use Rattle.rv_insn.specs.declared.vector_operations.CompareVxOp.TheVariants as comparisons;
ghost use Rattle.vector_unit.specs.Operations as op;

use lanes::Lanes;

/// A comparison of pairs of words.
pub(crate) trait WordComparison {
    /// Which one it is.
    ghost operation: { CompareVxOp };

    /// Where it holds of the pairs, as the bits of a number: that of the first pair is the lowest.
    fn of(first: &Lanes<u32, 4>, other: &Lanes<u32, 4>) -> u64
        ensures { result ≡ mask_l (zip_with (op.compare_vx operation 32) first.now other.now) };
}

/// Where both are equal.
pub(crate) struct Equal;

impl WordComparison for Equal {
    ghost operation = { comparisons.Vmseq };

    fn of(first: &Lanes<u32, 4>, other: &Lanes<u32, 4>) -> u64 {
        first.equal_bits(other)
    }
}

/// Where they differ.
pub(crate) struct Unequal;

impl WordComparison for Unequal {
    ghost operation = { comparisons.Vmsne };

    fn of(first: &Lanes<u32, 4>, other: &Lanes<u32, 4>) -> u64 {
        first.not_equal_bits(other)
    }
}

/// Where the first is less, read as unsigned.
pub(crate) struct LessUnsigned;

impl WordComparison for LessUnsigned {
    ghost operation = { comparisons.Vmsltu };

    fn of(first: &Lanes<u32, 4>, other: &Lanes<u32, 4>) -> u64 {
        first.less_unsigned_bits(other)
    }
}

/// Where the first is less, read as signed.
pub(crate) struct LessSigned;

impl WordComparison for LessSigned {
    ghost operation = { comparisons.Vmslt };

    fn of(first: &Lanes<u32, 4>, other: &Lanes<u32, 4>) -> u64 {
        first.less_signed_bits(other)
    }
}

/// Where the first is less or equal, read as unsigned.
pub(crate) struct AtMostUnsigned;

impl WordComparison for AtMostUnsigned {
    ghost operation = { comparisons.Vmsleu };

    fn of(first: &Lanes<u32, 4>, other: &Lanes<u32, 4>) -> u64 {
        first.less_or_equal_unsigned_bits(other)
    }
}

/// Where the first is less or equal, read as signed.
pub(crate) struct AtMostSigned;

impl WordComparison for AtMostSigned {
    ghost operation = { comparisons.Vmsle };

    fn of(first: &Lanes<u32, 4>, other: &Lanes<u32, 4>) -> u64 {
        first.less_or_equal_signed_bits(other)
    }
}

/// Where the first is greater, read as unsigned.
pub(crate) struct GreaterUnsigned;

#[tactic(auto, using(crate::proofs::Zips::zip_swapped))]
impl WordComparison for GreaterUnsigned {
    ghost operation = { comparisons.Vmsgtu };

    fn of(first: &Lanes<u32, 4>, other: &Lanes<u32, 4>) -> u64 {
        other.less_unsigned_bits(first)
    }
}

/// Where the first is greater, read as signed.
pub(crate) struct GreaterSigned;

#[tactic(auto, using(crate::proofs::Zips::zip_swapped))]
impl WordComparison for GreaterSigned {
    ghost operation = { comparisons.Vmsgt };

    fn of(first: &Lanes<u32, 4>, other: &Lanes<u32, 4>) -> u64 {
        other.less_signed_bits(first)
    }
}
