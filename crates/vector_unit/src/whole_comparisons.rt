//! Comparisons of whole groups of words: the bits of each register's words are made and written without a test of which
//! are active.

ghost use Rattle.std.specs.Prelude.{◌≡◌, ◌<◌, ◌%◌, true, false, [], ◌∷◌};
ghost use Rattle.lanes.specs.Words.{zip_with};
ghost use Rattle.vector_unit.specs.Vector.{group, has_vill, is_misplaced, of_group};
ghost use Rattle.vector_unit.specs.Vector.{of_immediate, of_scalar, width, with_bits};
ghost use Rattle.vector_unit.specs.Operands.{operand_elements};
ghost use Rattle.vector_unit.specs.Operations as op;
ghost use Rattle.vector_unit.specs.inner.Parts.{with_part_bits, with_parts_bits};
ghost use Rattle.vector_unit.specs.inner.Wholes.{IsWhole};

use crate::comparisons::{of_two_registers, with_immediate};
use crate::pair_operations::WordOperand;
use crate::states::VectorState;
use crate::word_comparisons::{
    AtMostSigned, AtMostUnsigned, Equal, GreaterSigned, GreaterUnsigned, LessSigned, LessUnsigned,
    Unequal, WordComparison,
};
use lanes::write_four_mask_bits;
use rv_insn::{CompareViOp, CompareVvOp, CompareVxOp, Imm5, VReg};

impl VectorState {
    /// Writes the bits of a register of a group into a register's bytes.
    #[inline(always)]
    fn compare_words<C: WordComparison, T: WordOperand>(
        &self,
        vs2: VReg,
        other: T,
        part: usize,
        register: &mut [u8; 16],
    )
        requires whole { IsWhole self.now }
        requires vs2 { vs2 % group self.now ≡ 0 }
        requires other { T.IsPlaced other (group self.now) }
        requires part { part < group self.now }
        requires few { part < 4 }
        ensures { register.new ≡ with_part_bits self.now C.operation vs2 (T.operand other) true part register.old }
    {
        let bits = C::of(&self.words_at(vs2, part), &other.words(self, part));
        write_four_mask_bits(register, part, bits);
    }

    /// Writes the bits of a whole group into a register's bytes.
    #[tactic(auto, using(crate::proofs::Whole::four_registers, crate::proofs::Whole::one_register))]
    #[inline(always)]
    fn compare_all<C: WordComparison, T: WordOperand>(
        &self,
        vs2: VReg,
        other: T,
        register: &mut [u8; 16],
    )
        requires whole { IsWhole self.now }
        requires vs2 { vs2 % group self.now ≡ 0 }
        requires other { T.IsPlaced other (group self.now) }
        ensures { register.new ≡ with_parts_bits self.now C.operation vs2 (T.operand other) true 0 (group self.now)
            register.old }
    {
        let size = self.group();
        if size > 2 {
            self.compare_words::<C, T>(vs2, other, 0, register);
            self.compare_words::<C, T>(vs2, other, 1, register);
            self.compare_words::<C, T>(vs2, other, 2, register);
            self.compare_words::<C, T>(vs2, other, 3, register);
        } else if size > 1 {
            self.compare_words::<C, T>(vs2, other, 0, register);
            self.compare_words::<C, T>(vs2, other, 1, register);
        } else {
            self.compare_words::<C, T>(vs2, other, 0, register);
        }
    }

    /// Writes as bits where a comparison holds of the pairs of a whole group. All bits are made before any is written.
    #[tactic(auto, using(crate::proofs::Groups::compared_bits))]
    #[inline(always)]
    fn compare_pairs<C: WordComparison, T: WordOperand>(&mut self, vd: VReg, vs2: VReg, other: T)
        requires whole { IsWhole self.old }
        requires vs2 { vs2 % group self.old ≡ 0 }
        requires other { T.IsPlaced other (group self.old) }
        ensures { self.new ≡ with_bits self.old vd true (zip_with (op.compare_vx C.operation (width self.old))
            (of_group self.old vs2) (operand_elements self.old (T.operand other))) }
    {
        let mut register = self.register(vd);
        self.compare_all::<C, T>(vs2, other, &mut register);
        self.set_register(vd, register);
    }

    /// The same, where the comparison is told apart once for all pairs.
    #[inline(never)]
    fn compare_whole<T: WordOperand>(
        &mut self,
        operation: CompareVxOp,
        vd: VReg,
        vs2: VReg,
        other: T,
    )
        requires whole { IsWhole self.old }
        requires vs2 { vs2 % group self.old ≡ 0 }
        requires other { T.IsPlaced other (group self.old) }
        ensures { self.new ≡ with_bits self.old vd true (zip_with (op.compare_vx operation (width self.old))
            (of_group self.old vs2) (operand_elements self.old (T.operand other))) }
    {
        match operation {
            CompareVxOp::Vmseq => self.compare_pairs::<Equal, T>(vd, vs2, other),
            CompareVxOp::Vmsne => self.compare_pairs::<Unequal, T>(vd, vs2, other),
            CompareVxOp::Vmsltu => self.compare_pairs::<LessUnsigned, T>(vd, vs2, other),
            CompareVxOp::Vmslt => self.compare_pairs::<LessSigned, T>(vd, vs2, other),
            CompareVxOp::Vmsleu => self.compare_pairs::<AtMostUnsigned, T>(vd, vs2, other),
            CompareVxOp::Vmsle => self.compare_pairs::<AtMostSigned, T>(vd, vs2, other),
            CompareVxOp::Vmsgtu => self.compare_pairs::<GreaterUnsigned, T>(vd, vs2, other),
            CompareVxOp::Vmsgt => self.compare_pairs::<GreaterSigned, T>(vd, vs2, other),
        }
    }

    /// Writes as bits where a comparison holds of the pairs of two whole groups, if they are that.
    #[inline(always)]
    pub(crate) fn compare_groups(
        &mut self,
        operation: CompareVvOp,
        vd: VReg,
        vs2: VReg,
        vs1: VReg,
    ) -> bool
        ensures configured { result ≡ true → has_vill self.old ≡ false }
        ensures placed { result ≡ true → is_misplaced self.old (vs2 ∷ vs1 ∷ []) ≡ false }
        ensures state { result ≡ true → self.new ≡ with_bits self.old vd true
            (zip_with (op.compare_vv operation (width self.old)) (of_group self.old vs2) (of_group self.old vs1)) }
        ensures unchanged { result ≡ false → self.new ≡ self.old }
    {
        if !self.takes_two(vs2, vs1) {
            return false;
        }
        self.compare_whole(of_two_registers(operation), vd, vs2, vs1);
        true
    }

    /// The same of a whole group and a number.
    #[inline(always)]
    pub(crate) fn compare_number(
        &mut self,
        operation: CompareVxOp,
        vd: VReg,
        vs2: VReg,
        number: u32,
    ) -> bool
        ensures configured { result ≡ true → has_vill self.old ≡ false }
        ensures placed { result ≡ true → is_misplaced self.old (vs2 ∷ []) ≡ false }
        ensures state { result ≡ true → self.new ≡ with_bits self.old vd true
            (zip_with (op.compare_vx operation (width self.old)) (of_group self.old vs2) (of_scalar self.old number)) }
        ensures unchanged { result ≡ false → self.new ≡ self.old }
    {
        if !self.takes_one(vs2) {
            return false;
        }
        self.compare_whole(operation, vd, vs2, number);
        true
    }

    /// The same of a whole group and an immediate.
    #[inline(always)]
    pub(crate) fn compare_immediate(
        &mut self,
        operation: CompareViOp,
        vd: VReg,
        vs2: VReg,
        imm: Imm5,
    ) -> bool
        ensures configured { result ≡ true → has_vill self.old ≡ false }
        ensures placed { result ≡ true → is_misplaced self.old (vs2 ∷ []) ≡ false }
        ensures state { result ≡ true → self.new ≡ with_bits self.old vd true
            (zip_with (op.compare_vi operation (width self.old)) (of_group self.old vs2) (of_immediate self.old imm)) }
        ensures unchanged { result ≡ false → self.new ≡ self.old }
    {
        if !self.takes_one(vs2) {
            return false;
        }
        self.compare_whole(with_immediate(operation), vd, vs2, imm);
        true
    }
}
