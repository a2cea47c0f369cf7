//! The operations on pairs of elements. Those of the arithmetic with an integer register are all that there
//! are of arithmetic; the other groups have some of them.

ghost use Rattle.std.specs.Prelude.{◌≡◌};
ghost use Rattle.lanes.specs.Words.{zip_with};
ghost use Rattle.vector_unit.specs.Operations as op;

use lanes::{LaneKernels, Lanes};
use rv_insn::{ArithmeticViOp, ArithmeticVvOp, ArithmeticVxOp, MultiplyOp, ShiftViOp};

/// The same operation, of the arithmetic of two vector registers.
pub(crate) fn of_two_registers(operation: ArithmeticVvOp) -> ArithmeticVxOp
    ensures { op.arithmetic_vx result ≡ op.arithmetic_vv operation }
{
    match operation {
        ArithmeticVvOp::Vadd => ArithmeticVxOp::Vadd,
        ArithmeticVvOp::Vsub => ArithmeticVxOp::Vsub,
        ArithmeticVvOp::Vminu => ArithmeticVxOp::Vminu,
        ArithmeticVvOp::Vmin => ArithmeticVxOp::Vmin,
        ArithmeticVvOp::Vmaxu => ArithmeticVxOp::Vmaxu,
        ArithmeticVvOp::Vmax => ArithmeticVxOp::Vmax,
        ArithmeticVvOp::Vand => ArithmeticVxOp::Vand,
        ArithmeticVvOp::Vor => ArithmeticVxOp::Vor,
        ArithmeticVvOp::Vxor => ArithmeticVxOp::Vxor,
        ArithmeticVvOp::Vsll => ArithmeticVxOp::Vsll,
        ArithmeticVvOp::Vsrl => ArithmeticVxOp::Vsrl,
        ArithmeticVvOp::Vsra => ArithmeticVxOp::Vsra,
    }
}

/// The same operation, of the arithmetic with an immediate.
pub(crate) fn with_immediate(operation: ArithmeticViOp) -> ArithmeticVxOp
    ensures { op.arithmetic_vx result ≡ op.arithmetic_vi operation }
{
    match operation {
        ArithmeticViOp::Vadd => ArithmeticVxOp::Vadd,
        ArithmeticViOp::Vrsub => ArithmeticVxOp::Vrsub,
        ArithmeticViOp::Vand => ArithmeticVxOp::Vand,
        ArithmeticViOp::Vor => ArithmeticVxOp::Vor,
        ArithmeticViOp::Vxor => ArithmeticVxOp::Vxor,
    }
}

/// The same operation, of the shifts by an amount in the word.
pub(crate) fn shift(operation: ShiftViOp) -> ArithmeticVxOp
    ensures { op.arithmetic_vx result ≡ op.shift_vi operation }
{
    match operation {
        ShiftViOp::Vsll => ArithmeticVxOp::Vsll,
        ShiftViOp::Vsrl => ArithmeticVxOp::Vsrl,
        ShiftViOp::Vsra => ArithmeticVxOp::Vsra,
    }
}

/// What an operation makes of each pair, where `first` are the elements of `vs2`.
pub(crate) fn arithmetic<K: LaneKernels<N>, const N: usize>(
    operation: ArithmeticVxOp,
    first: &Lanes<K, N>,
    other: &Lanes<K, N>,
) -> Lanes<K, N>
    ensures { result ≡ zip_with (op.arithmetic_vx operation K.width) first.now other.now }
{
    match operation {
        ArithmeticVxOp::Vadd => first.add(other),
        ArithmeticVxOp::Vsub => first.sub(other),
        ArithmeticVxOp::Vrsub => other.sub(first),
        ArithmeticVxOp::Vminu => first.min_unsigned(other),
        ArithmeticVxOp::Vmin => first.min_signed(other),
        ArithmeticVxOp::Vmaxu => first.max_unsigned(other),
        ArithmeticVxOp::Vmax => first.max_signed(other),
        ArithmeticVxOp::Vand => first.and(other),
        ArithmeticVxOp::Vor => first.or(other),
        ArithmeticVxOp::Vxor => first.xor(other),
        ArithmeticVxOp::Vsll => first.shift_left(other),
        ArithmeticVxOp::Vsrl => first.shift_right_logical(other),
        ArithmeticVxOp::Vsra => first.shift_right_arithmetic(other),
    }
}

/// What a multiplication or division makes of each pair, where `first` are the elements of `vs2`.
pub(crate) fn multiplied<K: LaneKernels<N>, const N: usize>(
    operation: MultiplyOp,
    first: &Lanes<K, N>,
    other: &Lanes<K, N>,
) -> Lanes<K, N>
    ensures { result ≡ zip_with (op.multiply operation K.width) first.now other.now }
{
    match operation {
        MultiplyOp::Vdivu => first.divide_unsigned(other),
        MultiplyOp::Vdiv => first.divide_signed(other),
        MultiplyOp::Vremu => first.remainder_unsigned(other),
        MultiplyOp::Vrem => first.remainder_signed(other),
        MultiplyOp::Vmulhu => first.multiply_high_unsigned(other),
        MultiplyOp::Vmul => first.multiply(other),
        MultiplyOp::Vmulhsu => first.multiply_high_signed_unsigned(other),
        MultiplyOp::Vmulh => first.multiply_high_signed(other),
    }
}
