//! The operations on pairs of words, and their other operand, each as a type, so that what works on a group is made for
//! each of them.

ghost use Rattle.std.specs.Prelude.{◌≡◌, ◌<◌, ◌%◌, ℕ};
ghost use Rattle.lanes.specs.Words as word;
ghost use Rattle.lanes.specs.Words.{zip_with};
ghost use Rattle.vector_unit.specs.declared.operands.OtherOperand.{OtherOperand};
ghost use Rattle.vector_unit.specs.declared.operands.OtherOperand.TheVariants.{Register, Number, Immediate};
ghost use Rattle.vector_unit.specs.Vector.{group};
ghost use Rattle.vector_unit.specs.inner.Wholes.{IsWhole, words_of};

use crate::operands::word_of;
use crate::states::VectorState;
use lanes::Lanes;
use rv_insn::{Imm5, VReg};

/// An operand of words beside `vs2`: a group, or a number in each word.
pub(crate) trait WordOperand: Copy {
    /// The operand that it is.
    ghost operand: { Self → OtherOperand };

    /// Whether it begins where groups of this many registers do.
    ghost IsPlaced: { Self → ℕ → Type 0 };

    /// A register's worth of it.
    fn words(self, state: &VectorState, part: usize) -> Lanes<u32, 4>
        requires whole { IsWhole state.now }
        requires placed { IsPlaced self (group state.now) }
        requires part { part < group state.now }
        ensures { result ≡ words_of state.now (operand self) part };
}

impl WordOperand for VReg {
    ghost operand = { λ v. Register v };

    ghost IsPlaced = { λ v size. v % size ≡ 0 };

    #[inline(always)]
    fn words(self, state: &VectorState, part: usize) -> Lanes<u32, 4> {
        state.words_at(self, part)
    }
}

impl WordOperand for u32 {
    ghost operand = { λ n. Number n };

    ghost IsPlaced = { λ n size. Unit {0} };

    #[inline(always)]
    fn words(self, state: &VectorState, part: usize) -> Lanes<u32, 4> {
        Lanes::<u32, 4>::splat(self)
    }
}

impl WordOperand for Imm5 {
    ghost operand = { λ imm. Immediate imm };

    ghost IsPlaced = { λ imm size. Unit {0} };

    #[inline(always)]
    fn words(self, state: &VectorState, part: usize) -> Lanes<u32, 4> {
        Lanes::<u32, 4>::splat(word_of(self))
    }
}

/// An operation on pairs of words.
pub(crate) trait PairOperation {
    /// What it makes of two elements of a width, where the first is that of `vs2`.
    ghost operation: { ℕ → ℕ → ℕ → ℕ };

    /// What it makes of each pair.
    fn of(first: &Lanes<u32, 4>, other: &Lanes<u32, 4>) -> Lanes<u32, 4>
        ensures { result ≡ zip_with (operation 32) first.now other.now };
}

/// The sums, modulo 2^32.
pub(crate) struct Addition;

impl PairOperation for Addition {
    ghost operation = { word.add };

    fn of(first: &Lanes<u32, 4>, other: &Lanes<u32, 4>) -> Lanes<u32, 4> {
        first.add(other)
    }
}

/// The elements minus the other ones, modulo 2^32.
pub(crate) struct Subtraction;

impl PairOperation for Subtraction {
    ghost operation = { word.sub };

    fn of(first: &Lanes<u32, 4>, other: &Lanes<u32, 4>) -> Lanes<u32, 4> {
        first.sub(other)
    }
}

/// The other elements minus these, modulo 2^32.
pub(crate) struct ReverseSubtraction;

#[tactic(auto, using(crate::proofs::Zips::zip_swapped))]
impl PairOperation for ReverseSubtraction {
    ghost operation = { λ w a b. word.sub w b a };

    fn of(first: &Lanes<u32, 4>, other: &Lanes<u32, 4>) -> Lanes<u32, 4> {
        other.sub(first)
    }
}

/// The lesser of each pair, read as unsigned.
pub(crate) struct LeastUnsigned;

impl PairOperation for LeastUnsigned {
    ghost operation = { word.min_unsigned };

    fn of(first: &Lanes<u32, 4>, other: &Lanes<u32, 4>) -> Lanes<u32, 4> {
        first.min_unsigned(other)
    }
}

/// The lesser of each pair, read as signed.
pub(crate) struct LeastSigned;

impl PairOperation for LeastSigned {
    ghost operation = { word.min_signed };

    fn of(first: &Lanes<u32, 4>, other: &Lanes<u32, 4>) -> Lanes<u32, 4> {
        first.min_signed(other)
    }
}

/// The greater of each pair, read as unsigned.
pub(crate) struct GreatestUnsigned;

impl PairOperation for GreatestUnsigned {
    ghost operation = { word.max_unsigned };

    fn of(first: &Lanes<u32, 4>, other: &Lanes<u32, 4>) -> Lanes<u32, 4> {
        first.max_unsigned(other)
    }
}

/// The greater of each pair, read as signed.
pub(crate) struct GreatestSigned;

impl PairOperation for GreatestSigned {
    ghost operation = { word.max_signed };

    fn of(first: &Lanes<u32, 4>, other: &Lanes<u32, 4>) -> Lanes<u32, 4> {
        first.max_signed(other)
    }
}

/// The bits that are 1 in both.
pub(crate) struct Conjunction;

impl PairOperation for Conjunction {
    ghost operation = { word.and };

    fn of(first: &Lanes<u32, 4>, other: &Lanes<u32, 4>) -> Lanes<u32, 4> {
        first.and(other)
    }
}

/// The bits that are 1 in either.
pub(crate) struct Disjunction;

impl PairOperation for Disjunction {
    ghost operation = { word.or };

    fn of(first: &Lanes<u32, 4>, other: &Lanes<u32, 4>) -> Lanes<u32, 4> {
        first.or(other)
    }
}

/// The bits that differ.
pub(crate) struct Difference;

impl PairOperation for Difference {
    ghost operation = { word.xor };

    fn of(first: &Lanes<u32, 4>, other: &Lanes<u32, 4>) -> Lanes<u32, 4> {
        first.xor(other)
    }
}

/// Shifted left.
pub(crate) struct LeftShift;

impl PairOperation for LeftShift {
    ghost operation = { word.shift_left };

    fn of(first: &Lanes<u32, 4>, other: &Lanes<u32, 4>) -> Lanes<u32, 4> {
        first.shift_left(other)
    }
}

/// Shifted right, where zeros come in.
pub(crate) struct LogicalShift;

impl PairOperation for LogicalShift {
    ghost operation = { word.shift_right_logical };

    fn of(first: &Lanes<u32, 4>, other: &Lanes<u32, 4>) -> Lanes<u32, 4> {
        first.shift_right_logical(other)
    }
}

/// Shifted right, where sign bits come in.
pub(crate) struct ArithmeticShift;

impl PairOperation for ArithmeticShift {
    ghost operation = { word.shift_right_arithmetic };

    fn of(first: &Lanes<u32, 4>, other: &Lanes<u32, 4>) -> Lanes<u32, 4> {
        first.shift_right_arithmetic(other)
    }
}

/// Quotients of unsigned numbers.
pub(crate) struct QuotientUnsigned;

impl PairOperation for QuotientUnsigned {
    ghost operation = { word.divide_unsigned };

    fn of(first: &Lanes<u32, 4>, other: &Lanes<u32, 4>) -> Lanes<u32, 4> {
        first.divide_unsigned(other)
    }
}

/// Quotients of signed numbers.
pub(crate) struct QuotientSigned;

impl PairOperation for QuotientSigned {
    ghost operation = { word.divide_signed };

    fn of(first: &Lanes<u32, 4>, other: &Lanes<u32, 4>) -> Lanes<u32, 4> {
        first.divide_signed(other)
    }
}

/// Remainders of unsigned numbers.
pub(crate) struct RemainderUnsigned;

impl PairOperation for RemainderUnsigned {
    ghost operation = { word.remainder_unsigned };

    fn of(first: &Lanes<u32, 4>, other: &Lanes<u32, 4>) -> Lanes<u32, 4> {
        first.remainder_unsigned(other)
    }
}

/// Remainders of signed numbers.
pub(crate) struct RemainderSigned;

impl PairOperation for RemainderSigned {
    ghost operation = { word.remainder_signed };

    fn of(first: &Lanes<u32, 4>, other: &Lanes<u32, 4>) -> Lanes<u32, 4> {
        first.remainder_signed(other)
    }
}

/// The low halves of products.
pub(crate) struct LowProduct;

impl PairOperation for LowProduct {
    ghost operation = { word.multiply };

    fn of(first: &Lanes<u32, 4>, other: &Lanes<u32, 4>) -> Lanes<u32, 4> {
        first.multiply(other)
    }
}

/// The high halves of products of unsigned numbers.
pub(crate) struct HighProductUnsigned;

impl PairOperation for HighProductUnsigned {
    ghost operation = { word.multiply_high_unsigned };

    fn of(first: &Lanes<u32, 4>, other: &Lanes<u32, 4>) -> Lanes<u32, 4> {
        first.multiply_high_unsigned(other)
    }
}

/// The high halves of products of signed numbers.
pub(crate) struct HighProductSigned;

impl PairOperation for HighProductSigned {
    ghost operation = { word.multiply_high_signed };

    fn of(first: &Lanes<u32, 4>, other: &Lanes<u32, 4>) -> Lanes<u32, 4> {
        first.multiply_high_signed(other)
    }
}

/// The high halves of products of a signed and an unsigned number.
pub(crate) struct HighProductMixed;

impl PairOperation for HighProductMixed {
    ghost operation = { word.multiply_high_signed_unsigned };

    fn of(first: &Lanes<u32, 4>, other: &Lanes<u32, 4>) -> Lanes<u32, 4> {
        first.multiply_high_signed_unsigned(other)
    }
}
