//! The comparisons of pairs of elements, and the reductions. The comparisons with an integer register are all
//! that there are; the other groups have some of them.

ghost use Rattle.std.specs.Prelude.{◌≡◌};
ghost use Rattle.lanes.specs.Words.{zip_with, reduced};
ghost use Rattle.vector_unit.specs.Operations as op;

use lanes::{LaneKernels, LaneKind, Lanes};
use rv_insn::{CompareViOp, CompareVvOp, CompareVxOp, ReductionOp};

/// The same comparison, of those of two vector registers.
pub(crate) fn of_two_registers(operation: CompareVvOp) -> CompareVxOp
    ensures { op.compare_vx result ≡ op.compare_vv operation }
{
    match operation {
        CompareVvOp::Vmseq => CompareVxOp::Vmseq,
        CompareVvOp::Vmsne => CompareVxOp::Vmsne,
        CompareVvOp::Vmsltu => CompareVxOp::Vmsltu,
        CompareVvOp::Vmslt => CompareVxOp::Vmslt,
        CompareVvOp::Vmsleu => CompareVxOp::Vmsleu,
        CompareVvOp::Vmsle => CompareVxOp::Vmsle,
    }
}

/// The same comparison, of those with an immediate.
pub(crate) fn with_immediate(operation: CompareViOp) -> CompareVxOp
    ensures { op.compare_vx result ≡ op.compare_vi operation }
{
    match operation {
        CompareViOp::Vmseq => CompareVxOp::Vmseq,
        CompareViOp::Vmsne => CompareVxOp::Vmsne,
        CompareViOp::Vmsleu => CompareVxOp::Vmsleu,
        CompareViOp::Vmsle => CompareVxOp::Vmsle,
        CompareViOp::Vmsgtu => CompareVxOp::Vmsgtu,
        CompareViOp::Vmsgt => CompareVxOp::Vmsgt,
    }
}

/// Where a comparison holds of the pair, where `first` are the elements of `vs2`.
pub(crate) fn compared<K: LaneKernels<N>, const N: usize>(
    operation: CompareVxOp,
    first: &Lanes<K, N>,
    other: &Lanes<K, N>,
) -> [bool; N]
    ensures { result ≡ zip_with (op.compare_vx operation K.width) first.now other.now }
{
    match operation {
        CompareVxOp::Vmseq => first.equal(other),
        CompareVxOp::Vmsne => first.not_equal(other),
        CompareVxOp::Vmsltu => first.less_unsigned(other),
        CompareVxOp::Vmslt => first.less_signed(other),
        CompareVxOp::Vmsleu => first.less_or_equal_unsigned(other),
        CompareVxOp::Vmsle => first.less_or_equal_signed(other),
        CompareVxOp::Vmsgtu => other.less_unsigned(first),
        CompareVxOp::Vmsgt => other.less_signed(first),
    }
}

/// A start, joined with the active elements in turn.
pub(crate) fn joined<K: LaneKind, const N: usize>(
    operation: ReductionOp,
    start: K,
    elements: &Lanes<K, N>,
    active: &[bool; N],
) -> K
    ensures { K.number result ≡ reduced (op.reduction operation K.width) active.now (K.number start) elements.now }
{
    match operation {
        ReductionOp::Vredsum => elements.sum(start, active),
        ReductionOp::Vredminu => elements.least_unsigned(start, active),
        ReductionOp::Vredmin => elements.least_signed(start, active),
        ReductionOp::Vredmaxu => elements.greatest_unsigned(start, active),
        ReductionOp::Vredmax => elements.greatest_signed(start, active),
    }
}
