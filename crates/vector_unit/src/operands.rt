//! Operands as lanes of each width, a register of a group at a time, and results as a register's bytes.

ghost use Rattle.std.specs.Prelude.{◌≡◌, ◌+◌, ◌*◌, ◌<◌, ◌≤◌, ◌%◌, ◌^◌};
ghost use Rattle.lanes.specs.Words.{wrapped};
ghost use Rattle.lanes.specs.Words.{register_of};
ghost use Rattle.lanes.specs.Words.{active};
ghost use Rattle.lanes.specs.Words.{merged};
ghost use Rattle.vector_unit.specs.Vector.{register};
ghost use Rattle.vector_unit.specs.Vector.{width};
ghost use Rattle.vector_unit.specs.Operands.{pair_of};
ghost use Rattle.vector_unit.specs.inner.Parts.{operand_part};

use crate::states::VectorState;
use lane_merging::merged_register;
use lanes::{LaneKernels, LaneKind, Lanes, active};
use rv_insn::{Imm5, ShiftAmount, VReg, VectorInsn};

/// The other operand of an instruction.
#[derive(Clone, Copy)]
pub(crate) enum OtherOperand {
    /// The elements of a register.
    Register(VReg),
    /// The low bits of a number, in each element.
    Number(u32),
    /// A signed immediate, in each element.
    Immediate(Imm5),
    /// A shift amount, in each element.
    Amount(ShiftAmount),
}

/// The operands of an instruction that works on pairs of elements, and where it writes.
#[derive(Clone, Copy)]
pub(crate) struct PairOperands {
    /// The register that is written.
    pub vd: VReg,
    /// The register of the first elements.
    pub vs2: VReg,
    /// The second elements.
    pub other: OtherOperand,
    /// Whether all elements below the length are active, whatever the mask.
    pub vm: bool,
}

impl PairOperands {
    /// The operands of an instruction, if it works on pairs of elements; `scalar` is the number in `rs1`.
    pub fn of(insn: &VectorInsn, scalar: u32) -> Option<PairOperands>
        ensures { result ≡ pair_of insn.now scalar }
    {
        let other = match *insn {
            VectorInsn::ArithmeticVv { vs1, .. }
            | VectorInsn::CompareVv { vs1, .. }
            | VectorInsn::MultiplyVv { vs1, .. } => OtherOperand::Register(vs1),
            VectorInsn::ArithmeticVx { .. }
            | VectorInsn::CompareVx { .. }
            | VectorInsn::MultiplyVx { .. } => OtherOperand::Number(scalar),
            VectorInsn::ArithmeticVi { imm, .. } | VectorInsn::CompareVi { imm, .. } => {
                OtherOperand::Immediate(imm)
            }
            VectorInsn::ShiftVi { amount, .. } => OtherOperand::Amount(amount),
            _ => return None,
        };
        match *insn {
            VectorInsn::ArithmeticVv { vd, vs2, vm, .. }
            | VectorInsn::ArithmeticVx { vd, vs2, vm, .. }
            | VectorInsn::ArithmeticVi { vd, vs2, vm, .. }
            | VectorInsn::ShiftVi { vd, vs2, vm, .. }
            | VectorInsn::CompareVv { vd, vs2, vm, .. }
            | VectorInsn::CompareVx { vd, vs2, vm, .. }
            | VectorInsn::CompareVi { vd, vs2, vm, .. }
            | VectorInsn::MultiplyVv { vd, vs2, vm, .. }
            | VectorInsn::MultiplyVx { vd, vs2, vm, .. } => Some(PairOperands {
                vd,
                vs2,
                other,
                vm,
            }),
            _ => None,
        }
    }
}

/// The word of 32 bits whose low bits an immediate is, at each width.
pub(crate) fn word_of(imm: Imm5) -> u32
    ensures bytes { result % 2 ^ 8 ≡ wrapped 8 imm }
    ensures halves { result % 2 ^ 16 ≡ wrapped 16 imm }
    ensures words { result % 2 ^ 32 ≡ wrapped 32 imm }
{
    imm.value().cast_unsigned()
}

/// A shift amount as a word.
pub(crate) fn word_of_amount(amount: ShiftAmount) -> u32
    ensures { result % 2 ^ 32 ≡ amount }
{
    u32::from(amount.value())
}

impl VectorState {
    /// A part of an operand, as elements of 8 bits.
    pub(crate) fn bytes(&self, operand: OtherOperand, part: usize) -> Lanes<u8, 16>
        requires width { width self.now ≡ 8 }
        requires part { part < 4 }
        ensures { result ≡ operand_part self.now operand part }
    {
        match operand {
            OtherOperand::Register(v) => Lanes::<u8, 16>::from_register(&self.part(v, part)),
            OtherOperand::Number(number) => Lanes::<u8, 16>::splat(u8::from_u32(number)),
            OtherOperand::Immediate(imm) => Lanes::<u8, 16>::splat(u8::from_u32(word_of(imm))),
            OtherOperand::Amount(amount) => Lanes::<u8, 16>::splat(amount.value()),
        }
    }

    /// A part of an operand, as elements of 16 bits.
    pub(crate) fn halves(&self, operand: OtherOperand, part: usize) -> Lanes<u16, 8>
        requires width { width self.now ≡ 16 }
        requires part { part < 4 }
        ensures { result ≡ operand_part self.now operand part }
    {
        match operand {
            OtherOperand::Register(v) => Lanes::<u16, 8>::from_register(&self.part(v, part)),
            OtherOperand::Number(number) => Lanes::<u16, 8>::splat(u16::from_u32(number)),
            OtherOperand::Immediate(imm) => Lanes::<u16, 8>::splat(u16::from_u32(word_of(imm))),
            OtherOperand::Amount(amount) => Lanes::<u16, 8>::splat(u16::from(amount.value())),
        }
    }

    /// A part of an operand, as elements of 32 bits.
    pub(crate) fn words(&self, operand: OtherOperand, part: usize) -> Lanes<u32, 4>
        requires width { width self.now ≡ 32 }
        requires part { part < 4 }
        ensures { result ≡ operand_part self.now operand part }
    {
        match operand {
            OtherOperand::Register(v) => Lanes::<u32, 4>::from_register(&self.part(v, part)),
            OtherOperand::Number(number) => Lanes::<u32, 4>::splat(u32::from_u32(number)),
            OtherOperand::Immediate(imm) => Lanes::<u32, 4>::splat(u32::from_u32(word_of(imm))),
            OtherOperand::Amount(amount) => Lanes::<u32, 4>::splat(u32::from(amount.value())),
        }
    }

    /// Which elements of a part an instruction with this mask bit works on.
    pub(crate) fn active<const N: usize>(&self, vm: bool, part: usize) -> [bool; N]
        requires { part * N + N ≤ 128 }
        ensures { result ≡ active (part * N) N self.now.vl vm (register self.now 0) }
    {
        active(part * N, self.vl as usize, vm, &self.registers[0])
    }

    /// The bytes of a register of a group, with new elements where they are active and the old ones elsewhere.
    #[inline(always)]
    pub(crate) fn merged<K: LaneKernels<N>, const N: usize>(
        &self,
        vm: bool,
        part: usize,
        before: &Lanes<K, N>,
        new: &Lanes<K, N>,
    ) -> [u8; 16]
        requires few { part * N + N ≤ 128 }
        requires fills { N * K.width ≡ 128 }
        ensures { result ≡ register_of K.width (merged (active (part * N) N self.now.vl vm (register self.now 0))
            new.now before.now) }
    {
        merged_register(before, new, part, self.vl as usize, vm, &self.registers[0])
    }
}
