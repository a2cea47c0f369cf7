//! Instructions that write the elements of a group, at the configured width.

ghost use Rattle.std.specs.Prelude.{◌≡◌, ◌<◌, ◌≤◌, ◌+◌, false};
ghost use Rattle.vector_unit.specs.Vector.{has_vill, with_register};
ghost use Rattle.vector_unit.specs.Vector.{group, width, with_elements};
ghost use Rattle.vector_unit.specs.inner.Parts.{new_elements, new_part, merged_register, with_parts, AtWords};

use crate::operands::OtherOperand;
use crate::operations::{arithmetic, multiplied};
use crate::states::VectorState;
use lanes::{Lanes, mask_bits};
use rv_insn::{ArithmeticVxOp, ElementWidth, MultiplyOp, VReg};

/// What the new elements of a group are.
#[derive(Clone, Copy)]
pub(crate) enum NewElements {
    /// What an operation makes of each pair.
    Arithmetic {
        op: ArithmeticVxOp,
        vs2: VReg,
        other: OtherOperand,
    },
    /// What a multiplication or division makes of each pair.
    Multiply {
        op: MultiplyOp,
        vs2: VReg,
        other: OtherOperand,
    },
    /// The other operand where the mask has a 1, and the elements of `vs2` where it has a 0.
    Merge {
        vs2: VReg,
        other: OtherOperand,
    },
    /// An operand.
    Copy {
        other: OtherOperand,
    },
    /// Each element's number.
    Numbers,
    /// The first bytes of a register, at 32 bits alone.
    Bytes {
        vs2: VReg,
    },
}

impl VectorState {
    /// Writes new elements to a group where they are active.
    #[tactic(auto, using(crate::proofs::Groups::written))]
    pub(crate) fn write_elements(&mut self, vd: VReg, vm: bool, new: NewElements)
        requires configured { has_vill self.old ≡ false }
        requires bytes { AtWords self.old new }
        ensures { self.new ≡ with_elements self.old vd vm (new_elements self.old new) }
    {
        self.write_parts(vd, vm, &new, 0, self.group());
    }

    /// Writes new elements to this many registers of a group, from one on. What a register gets is made before any that
    /// is after it is written, so that all is read before anything is written.
    fn write_parts(&mut self, vd: VReg, vm: bool, new: &NewElements, part: usize, others: usize)
        requires configured { has_vill self.old ≡ false }
        requires bytes { AtWords self.old new.now }
        requires few { part + others ≤ 4 }
        ensures { self.new ≡ with_parts self.old vd vm new.now part others }
    {
        if others == 1 {
            self.write_register(vd, vm, new, part);
        } else if others > 1 {
            let register = self.new_register(vd, vm, new, part);
            self.write_parts(vd, vm, new, part + 1, others - 1);
            self.set_part(vd, part, register);
        }
    }

    /// Writes new elements to one register of a group. Each width writes on its own, so that elements go straight to
    /// their places.
    fn write_register(&mut self, vd: VReg, vm: bool, new: &NewElements, part: usize)
        requires configured { has_vill self.old ≡ false }
        requires bytes { AtWords self.old new.now }
        requires part { part < 4 }
        ensures { self.new ≡ with_register self.old (vd + part) (merged_register self.old vd vm new.now part) }
    {
        let before = OtherOperand::Register(vd);
        match self.width() {
            ElementWidth::Bits8 => {
                let new = self.new_bytes(new, part);
                let register = self.merged(vm, part, &self.bytes(before, part), &new);
                self.set_part(vd, part, register);
            }
            ElementWidth::Bits16 => {
                let new = self.new_halves(new, part);
                let register = self.merged(vm, part, &self.halves(before, part), &new);
                self.set_part(vd, part, register);
            }
            ElementWidth::Bits32 => self.write_words(vd, vm, new, part),
        }
    }

    /// The same at 32 bits.
    #[inline(always)]
    fn write_words(&mut self, vd: VReg, vm: bool, new: &NewElements, part: usize)
        requires width { width self.old ≡ 32 }
        requires bytes { AtWords self.old new.now }
        requires part { part < 4 }
        ensures { self.new ≡ with_register self.old (vd + part) (merged_register self.old vd vm new.now part) }
    {
        let new = self.new_words(new, part);
        let before = self.words(OtherOperand::Register(vd), part);
        let register = self.merged(vm, part, &before, &new);
        self.set_part(vd, part, register);
    }

    /// Writes new elements to a group of one register of words where they are active.
    #[tactic(auto, using(crate::proofs::Groups::written_alone))]
    #[inline(always)]
    pub(crate) fn write_single(&mut self, vd: VReg, vm: bool, new: NewElements)
        requires configured { has_vill self.old ≡ false }
        requires words { width self.old ≡ 32 }
        requires single { group self.old ≡ 1 }
        ensures { self.new ≡ with_elements self.old vd vm (new_elements self.old new) }
    {
        self.write_words(vd, vm, &new, 0);
    }

    /// The bytes of a register of a group with new elements.
    fn new_register(&self, vd: VReg, vm: bool, new: &NewElements, part: usize) -> [u8; 16]
        requires configured { has_vill self.now ≡ false }
        requires bytes { AtWords self.now new.now }
        requires part { part < 4 }
        ensures { result ≡ merged_register self.now vd vm new.now part }
    {
        let before = OtherOperand::Register(vd);
        match self.width() {
            ElementWidth::Bits8 => {
                self.merged(
                    vm,
                    part,
                    &self.bytes(before, part),
                    &self.new_bytes(new, part),
                )
            }
            ElementWidth::Bits16 => {
                self.merged(
                    vm,
                    part,
                    &self.halves(before, part),
                    &self.new_halves(new, part),
                )
            }
            ElementWidth::Bits32 => {
                self.merged(
                    vm,
                    part,
                    &self.words(before, part),
                    &self.new_words(new, part),
                )
            }
        }
    }

    /// A part of new elements, at 8 bits.
    #[inline(always)]
    fn new_bytes(&self, new: &NewElements, part: usize) -> Lanes<u8, 16>
        requires width { width self.now ≡ 8 }
        requires bytes { AtWords self.now new.now }
        requires part { part < 4 }
        ensures { result ≡ new_part self.now new.now part }
    {
        match *new {
            NewElements::Arithmetic { op, vs2, other } => arithmetic(
                op,
                &self.bytes(OtherOperand::Register(vs2), part),
                &self.bytes(other, part),
            ),
            NewElements::Multiply { op, vs2, other } => multiplied(
                op,
                &self.bytes(OtherOperand::Register(vs2), part),
                &self.bytes(other, part),
            ),
            NewElements::Merge { vs2, other } => {
                let chosen = mask_bits::<16>(part * 16, &self.registers[0]);
                self.bytes(OtherOperand::Register(vs2), part)
                    .merge(&self.bytes(other, part), &chosen)
            }
            NewElements::Copy { other } => self.bytes(other, part),
            NewElements::Numbers => Lanes::<u8, 16>::indices(part as u32 * 16),
            NewElements::Bytes { vs2 } => Lanes::<u8, 16>::from_bytes(&self.register(vs2), 0),
        }
    }

    /// A part of new elements, at 16 bits.
    #[inline(always)]
    fn new_halves(&self, new: &NewElements, part: usize) -> Lanes<u16, 8>
        requires width { width self.now ≡ 16 }
        requires bytes { AtWords self.now new.now }
        requires part { part < 4 }
        ensures { result ≡ new_part self.now new.now part }
    {
        match *new {
            NewElements::Arithmetic { op, vs2, other } => arithmetic(
                op,
                &self.halves(OtherOperand::Register(vs2), part),
                &self.halves(other, part),
            ),
            NewElements::Multiply { op, vs2, other } => multiplied(
                op,
                &self.halves(OtherOperand::Register(vs2), part),
                &self.halves(other, part),
            ),
            NewElements::Merge { vs2, other } => {
                let chosen = mask_bits::<8>(part * 8, &self.registers[0]);
                self.halves(OtherOperand::Register(vs2), part)
                    .merge(&self.halves(other, part), &chosen)
            }
            NewElements::Copy { other } => self.halves(other, part),
            NewElements::Numbers => Lanes::<u16, 8>::indices(part as u32 * 8),
            NewElements::Bytes { vs2 } => Lanes::<u16, 8>::from_bytes(&self.register(vs2), 0),
        }
    }

    /// A part of new elements, at 32 bits.
    #[inline(always)]
    fn new_words(&self, new: &NewElements, part: usize) -> Lanes<u32, 4>
        requires width { width self.now ≡ 32 }
        requires bytes { AtWords self.now new.now }
        requires part { part < 4 }
        ensures { result ≡ new_part self.now new.now part }
    {
        match *new {
            NewElements::Arithmetic { op, vs2, other } => arithmetic(
                op,
                &self.words(OtherOperand::Register(vs2), part),
                &self.words(other, part),
            ),
            NewElements::Multiply { op, vs2, other } => multiplied(
                op,
                &self.words(OtherOperand::Register(vs2), part),
                &self.words(other, part),
            ),
            NewElements::Merge { vs2, other } => {
                let chosen = mask_bits::<4>(part * 4, &self.registers[0]);
                self.words(OtherOperand::Register(vs2), part)
                    .merge(&self.words(other, part), &chosen)
            }
            NewElements::Copy { other } => self.words(other, part),
            NewElements::Numbers => Lanes::<u32, 4>::indices(part as u32 * 4),
            NewElements::Bytes { vs2 } => Lanes::<u32, 4>::from_bytes(
                &self.register(vs2),
                part * 4,
            ),
        }
    }
}
