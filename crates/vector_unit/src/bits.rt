//! Instructions that write bits of a register or its first element alone, at the configured width.

ghost use Rattle.std.specs.Prelude.{◌≡◌, ◌<◌, ◌≤◌, ◌+◌, ◌%◌, ◌^◌, false};
ghost use Rattle.lanes.specs.Words as word;
ghost use Rattle.lanes.specs.Words.{element};
ghost use Rattle.lanes.specs.Words.{zip_with, reduced};
ghost use Rattle.vector_unit.specs.Vector.{register, has_vill};
ghost use Rattle.vector_unit.specs.Vector.{width, of_group, active_in, with_bits, with_first};
ghost use Rattle.vector_unit.specs.Operands.{operand_elements};
ghost use Rattle.vector_unit.specs.inner.Parts.{with_part_bits, with_parts_bits, reduced_parts};
ghost use Rattle.vector_unit.specs.Operations as op;

use crate::comparisons::{compared, joined};
use crate::operands::{OtherOperand, PairOperands};
use crate::states::VectorState;
use lanes::{LaneKind, write_mask_bits};
use rv_insn::{CompareVxOp, ElementWidth, ReductionOp, VReg};

/// What a reduction joins, and by which operation.
#[derive(Clone, Copy)]
struct ElementReduction {
    operation: ReductionOp,
    /// The group whose elements are joined.
    vs2: VReg,
    /// Whether all elements below the length are active, whatever the mask.
    vm: bool,
}

impl VectorState {
    /// Writes as bits where a comparison holds of the pair. All bits are made before any is written.
    #[tactic(auto, using(crate::proofs::Groups::compared_bits))]
    pub(crate) fn compare(&mut self, operation: CompareVxOp, pair: PairOperands)
        requires { has_vill self.old ≡ false }
        ensures { self.new ≡ with_bits self.old pair.vd pair.vm (zip_with (op.compare_vx operation (width self.old))
            (of_group self.old pair.vs2) (operand_elements self.old pair.other)) }
    {
        let mut register = self.register(pair.vd);
        self.compare_parts(operation, &pair, 0, self.group(), &mut register);
        self.set_register(pair.vd, register);
    }

    /// The same of this many registers of a group from one on, written into a register's bytes.
    fn compare_parts(
        &self,
        operation: CompareVxOp,
        pair: &PairOperands,
        part: usize,
        others: usize,
        register: &mut [u8; 16],
    )
        requires configured { has_vill self.now ≡ false }
        requires few { part + others ≤ 4 }
        ensures { register.new ≡ with_parts_bits self.now operation pair.now.vs2 pair.now.other pair.now.vm part others
            register.old }
    {
        if others > 0 {
            self.compare_part(operation, pair, part, register);
            self.compare_parts(operation, pair, part + 1, others - 1, register);
        }
    }

    /// The same of one register of a group.
    fn compare_part(
        &self,
        operation: CompareVxOp,
        pair: &PairOperands,
        part: usize,
        register: &mut [u8; 16],
    )
        requires configured { has_vill self.now ≡ false }
        requires part { part < 4 }
        ensures { register.new ≡ with_part_bits self.now operation pair.now.vs2 pair.now.other pair.now.vm part
            register.old }
    {
        let PairOperands { vs2, other, vm, .. } = *pair;
        let vs2 = OtherOperand::Register(vs2);
        match self.width() {
            ElementWidth::Bits8 => {
                let bits = compared(operation, &self.bytes(vs2, part), &self.bytes(other, part));
                write_mask_bits(register, part * 16, &self.active::<16>(vm, part), &bits);
            }
            ElementWidth::Bits16 => {
                let bits = compared(
                    operation,
                    &self.halves(vs2, part),
                    &self.halves(other, part),
                );
                write_mask_bits(register, part * 8, &self.active::<8>(vm, part), &bits);
            }
            ElementWidth::Bits32 => {
                let bits = compared(operation, &self.words(vs2, part), &self.words(other, part));
                write_mask_bits(register, part * 4, &self.active::<4>(vm, part), &bits);
            }
        }
    }

    /// Writes to element 0 what element 0 of `vs1` and the active elements of the group `vs2` are joined to.
    #[tactic(auto, using(crate::proofs::Groups::joined_all))]
    pub(crate) fn reduce(
        &mut self,
        operation: ReductionOp,
        vd: VReg,
        vs2: VReg,
        vs1: VReg,
        vm: bool,
    )
        requires { has_vill self.old ≡ false }
        ensures { self.new ≡ with_first self.old vd (reduced (op.reduction operation (width self.old))
            (active_in self.old vm) (element (width self.old) (register self.old vs1) 0) (of_group self.old vs2)) }
    {
        let start = self.register(vs1);
        let reduction = ElementReduction { operation, vs2, vm };
        let group = self.group();
        match self.width() {
            ElementWidth::Bits8 => {
                let start = u8::read(&start, 0);
                let total = self.join_bytes(reduction, start, 0, group);
                self.put_first(vd, total);
            }
            ElementWidth::Bits16 => {
                let start = u16::read(&start, 0);
                let total = self.join_halves(reduction, start, 0, group);
                self.put_first(vd, total);
            }
            ElementWidth::Bits32 => {
                let start = u32::read(&start, 0);
                let total = self.join_words(reduction, start, 0, group);
                self.put_first(vd, total);
            }
        }
    }

    /// A start, joined with the active elements of this many registers of a group from one on, at 8 bits.
    fn join_bytes(&self, reduction: ElementReduction, start: u8, part: usize, others: usize) -> u8
        requires width { width self.now ≡ 8 }
        requires few { part + others ≤ 4 }
        ensures { result ≡ reduced_parts self.now reduction.operation reduction.vs2 reduction.vm part others
            start }
    {
        if others == 0 {
            return start;
        }
        let ElementReduction { operation, vs2, vm } = reduction;
        let elements = self.bytes(OtherOperand::Register(vs2), part);
        let total = joined(operation, start, &elements, &self.active::<16>(vm, part));
        self.join_bytes(reduction, total, part + 1, others - 1)
    }

    /// A start, joined with the active elements of this many registers of a group from one on, at 16 bits.
    fn join_halves(
        &self,
        reduction: ElementReduction,
        start: u16,
        part: usize,
        others: usize,
    ) -> u16
        requires width { width self.now ≡ 16 }
        requires few { part + others ≤ 4 }
        ensures { result ≡ reduced_parts self.now reduction.operation reduction.vs2 reduction.vm part others
            start }
    {
        if others == 0 {
            return start;
        }
        let ElementReduction { operation, vs2, vm } = reduction;
        let elements = self.halves(OtherOperand::Register(vs2), part);
        let total = joined(operation, start, &elements, &self.active::<8>(vm, part));
        self.join_halves(reduction, total, part + 1, others - 1)
    }

    /// A start, joined with the active elements of this many registers of a group from one on, at 32 bits.
    fn join_words(&self, reduction: ElementReduction, start: u32, part: usize, others: usize) -> u32
        requires width { width self.now ≡ 32 }
        requires few { part + others ≤ 4 }
        ensures { result ≡ reduced_parts self.now reduction.operation reduction.vs2 reduction.vm part others
            start }
    {
        if others == 0 {
            return start;
        }
        let ElementReduction { operation, vs2, vm } = reduction;
        let elements = self.words(OtherOperand::Register(vs2), part);
        let total = joined(operation, start, &elements, &self.active::<4>(vm, part));
        self.join_words(reduction, total, part + 1, others - 1)
    }

    /// Writes the low bits of a number to element 0.
    pub(crate) fn put_scalar(&mut self, vd: VReg, number: u32)
        requires { has_vill self.old ≡ false }
        ensures { self.new ≡ with_first self.old vd (number % 2 ^ width self.old) }
    {
        match self.width() {
            ElementWidth::Bits8 => self.put_first(vd, u8::from_u32(number)),
            ElementWidth::Bits16 => self.put_first(vd, u16::from_u32(number)),
            ElementWidth::Bits32 => self.put_first(vd, number),
        }
    }

    /// Element 0 of a register, its sign extended.
    pub(crate) fn scalar(&self, vs2: VReg) -> u32
        requires { has_vill self.now ≡ false }
        ensures { result ≡ word.wrapped 32
            (word.signed (width self.now) (element (width self.now) (register self.now vs2) 0)) }
    {
        let register = self.register(vs2);
        match self.width() {
            ElementWidth::Bits8 => sign_extended(u8::read(&register, 0)),
            ElementWidth::Bits16 => sign_extended(u16::read(&register, 0)),
            ElementWidth::Bits32 => sign_extended(u32::read(&register, 0)),
        }
    }

    /// Writes element 0, unless there are no elements to work on.
    fn put_first<K: LaneKind>(&mut self, vd: VReg, value: K)
        requires { width self.old ≡ K.width }
        ensures { self.new ≡ with_first self.old vd (K.number value) }
    {
        if self.vl != 0 {
            let mut register = self.register(vd);
            value.write(&mut register, 0);
            self.set_register(vd, register);
        }
    }
}

/// An element as a word of 32 bits, its sign extended.
fn sign_extended<K: LaneKind>(value: K) -> u32
    ensures { result ≡ word.wrapped 32 (word.signed K.width (K.number value)) }
{
    value.to_i32().cast_unsigned()
}
