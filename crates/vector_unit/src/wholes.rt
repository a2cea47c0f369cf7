//! Instructions on whole groups of words, the most that programs do: what an operation makes of a group is written
//! register by register, with no test of widths, masks and old elements.

ghost use Rattle.std.specs.Prelude.{◌≡◌, ◌<◌, ◌+◌, ◌%◌, ℕ, true, false, [], ◌∷◌, replicate};
ghost use Rattle.lanes.specs.Words.{zip_with, register_of};
ghost use Rattle.vector_unit.specs.Vector.{count, group, has_vill, is_misplaced, of_group};
ghost use Rattle.vector_unit.specs.Vector.{of_immediate, of_scalar};
ghost use Rattle.vector_unit.specs.Vector.{register, with_elements, with_register, width};
ghost use Rattle.vector_unit.specs.Operands.{operand_elements};
ghost use Rattle.vector_unit.specs.Operations as op;
ghost use Rattle.vector_unit.specs.inner.Wholes.{IsWhole, paired_words, with_each, words_in};

use crate::operands::{word_of, word_of_amount};
use crate::operations::{shift, with_immediate};
use crate::pair_operations::{
    Addition, ArithmeticShift, Conjunction, Difference, Disjunction, GreatestSigned,
    GreatestUnsigned, HighProductMixed, HighProductSigned, HighProductUnsigned, LeastSigned,
    LeastUnsigned, LeftShift, LogicalShift, LowProduct, PairOperation, QuotientSigned,
    QuotientUnsigned, RemainderSigned, RemainderUnsigned, ReverseSubtraction, Subtraction,
    WordOperand,
};
use crate::states::VectorState;
use lanes::Lanes;
use rv_insn::{
    ArithmeticViOp, ArithmeticVvOp, ArithmeticVxOp, Imm5, MultiplyOp, ShiftAmount, ShiftViOp, VReg,
};

impl VectorState {
    /// The bytes of a register of a group that lies in the registers.
    #[inline(always)]
    fn held(&self, v: VReg, part: usize) -> [u8; 16]
        requires { v + part < 32 }
        ensures { result ≡ register self.now (v + part) }
    {
        self.registers[v.number() as usize + part]
    }

    /// Writes such a register.
    #[inline(always)]
    fn hold(&mut self, v: VReg, part: usize, bytes: [u8; 16])
        requires { v + part < 32 }
        ensures { self.new ≡ with_register self.old (v + part) bytes }
    {
        self.registers[v.number() as usize + part] = bytes;
    }

    /// The words of a register of a group.
    #[tactic(auto, using(crate::proofs::Whole::place_inside))]
    #[inline(always)]
    pub(crate) fn words_at(&self, v: VReg, part: usize) -> Lanes<u32, 4>
        requires whole { IsWhole self.now }
        requires placed { v % group self.now ≡ 0 }
        requires part { part < group self.now }
        ensures { result ≡ words_in self.now v part }
    {
        Lanes::<u32, 4>::from_register(&self.held(v, part))
    }

    /// Writes a register of a group.
    #[tactic(auto, using(crate::proofs::Whole::place_inside))]
    #[inline(always)]
    pub(crate) fn put_part(&mut self, v: VReg, part: usize, bytes: [u8; 16])
        requires configured { has_vill self.old ≡ false }
        requires placed { v % group self.old ≡ 0 }
        requires part { part < group self.old }
        ensures { self.new ≡ with_register self.old (v + part) bytes }
    {
        self.hold(v, part, bytes);
    }

    /// What an operation makes of a register's pairs.
    #[inline(always)]
    fn paired<O: PairOperation, T: WordOperand>(&self, vs2: VReg, other: T, part: usize) -> [u8; 16]
        requires whole { IsWhole self.now }
        requires vs2 { vs2 % group self.now ≡ 0 }
        requires other { T.IsPlaced other (group self.now) }
        requires part { part < group self.now }
        ensures { result ≡ register_of 32 (paired_words self.now (O.operation 32) vs2 (T.operand other) part) }
    {
        O::of(&self.words_at(vs2, part), &other.words(self, part)).to_register()
    }

    /// Writes what an operation makes of each pair of groups of one. All is made before anything is written.
    #[inline(always)]
    fn pair_one<O: PairOperation, T: WordOperand>(&mut self, vd: VReg, vs2: VReg, other: T)
        requires size { group self.old ≡ 1 }
        requires whole { IsWhole self.old }
        requires vd { vd % group self.old ≡ 0 }
        requires vs2 { vs2 % group self.old ≡ 0 }
        requires other { T.IsPlaced other (group self.old) }
        ensures { self.new ≡ with_each self.old 32 vd
            (paired_words self.old (O.operation 32) vs2 (T.operand other)) 0 1 }
    {
        let first = self.paired::<O, T>(vs2, other, 0);
        self.put_part(vd, 0, first);
    }

    /// Writes what an operation makes of each pair of groups of two. All is made before anything is written.
    #[inline(always)]
    fn pair_two<O: PairOperation, T: WordOperand>(&mut self, vd: VReg, vs2: VReg, other: T)
        requires size { group self.old ≡ 2 }
        requires whole { IsWhole self.old }
        requires vd { vd % group self.old ≡ 0 }
        requires vs2 { vs2 % group self.old ≡ 0 }
        requires other { T.IsPlaced other (group self.old) }
        ensures { self.new ≡ with_each self.old 32 vd
            (paired_words self.old (O.operation 32) vs2 (T.operand other)) 0 2 }
    {
        let first = self.paired::<O, T>(vs2, other, 0);
        let second = self.paired::<O, T>(vs2, other, 1);
        self.put_part(vd, 1, second);
        self.put_part(vd, 0, first);
    }

    /// Writes what an operation makes of each pair of groups of four. All is made before anything is written.
    #[inline(always)]
    fn pair_four<O: PairOperation, T: WordOperand>(&mut self, vd: VReg, vs2: VReg, other: T)
        requires size { group self.old ≡ 4 }
        requires whole { IsWhole self.old }
        requires vd { vd % group self.old ≡ 0 }
        requires vs2 { vs2 % group self.old ≡ 0 }
        requires other { T.IsPlaced other (group self.old) }
        ensures { self.new ≡ with_each self.old 32 vd
            (paired_words self.old (O.operation 32) vs2 (T.operand other)) 0 4 }
    {
        let first = self.paired::<O, T>(vs2, other, 0);
        let second = self.paired::<O, T>(vs2, other, 1);
        let third = self.paired::<O, T>(vs2, other, 2);
        let fourth = self.paired::<O, T>(vs2, other, 3);
        self.put_part(vd, 3, fourth);
        self.put_part(vd, 2, third);
        self.put_part(vd, 1, second);
        self.put_part(vd, 0, first);
    }

    /// Writes what an operation makes of each pair.
    #[tactic(auto, using(crate::proofs::Whole::four_registers, crate::proofs::Whole::one_register))]
    #[inline(always)]
    fn compute_pairs<O: PairOperation, T: WordOperand>(&mut self, vd: VReg, vs2: VReg, other: T)
        requires whole { IsWhole self.old }
        requires vd { vd % group self.old ≡ 0 }
        requires vs2 { vs2 % group self.old ≡ 0 }
        requires other { T.IsPlaced other (group self.old) }
        ensures { self.new ≡ with_elements self.old vd true (zip_with (O.operation (width self.old))
            (of_group self.old vs2) (operand_elements self.old (T.operand other))) }
    {
        let size = self.group();
        if size > 2 {
            self.pair_four::<O, T>(vd, vs2, other);
        } else if size > 1 {
            self.pair_two::<O, T>(vd, vs2, other);
        } else {
            self.pair_one::<O, T>(vd, vs2, other);
        }
    }

    /// Writes what an operation makes of each pair of two groups.
    #[inline(never)]
    fn compute_groups(&mut self, operation: ArithmeticVvOp, vd: VReg, vs2: VReg, other: VReg)
        requires whole { IsWhole self.old }
        requires vd { vd % group self.old ≡ 0 }
        requires vs2 { vs2 % group self.old ≡ 0 }
        requires other { other % group self.old ≡ 0 }
        ensures { self.new ≡ with_elements self.old vd true
            (zip_with (op.arithmetic_vv operation (width self.old))
            (of_group self.old vs2) (of_group self.old other)) }
    {
        match operation {
            ArithmeticVvOp::Vadd => self.compute_pairs::<Addition, VReg>(vd, vs2, other),
            ArithmeticVvOp::Vsub => self.compute_pairs::<Subtraction, VReg>(vd, vs2, other),
            ArithmeticVvOp::Vminu => self.compute_pairs::<LeastUnsigned, VReg>(vd, vs2, other),
            ArithmeticVvOp::Vmin => self.compute_pairs::<LeastSigned, VReg>(vd, vs2, other),
            ArithmeticVvOp::Vmaxu => self.compute_pairs::<GreatestUnsigned, VReg>(vd, vs2, other),
            ArithmeticVvOp::Vmax => self.compute_pairs::<GreatestSigned, VReg>(vd, vs2, other),
            ArithmeticVvOp::Vand => self.compute_pairs::<Conjunction, VReg>(vd, vs2, other),
            ArithmeticVvOp::Vor => self.compute_pairs::<Disjunction, VReg>(vd, vs2, other),
            ArithmeticVvOp::Vxor => self.compute_pairs::<Difference, VReg>(vd, vs2, other),
            ArithmeticVvOp::Vsll => self.compute_pairs::<LeftShift, VReg>(vd, vs2, other),
            ArithmeticVvOp::Vsrl => self.compute_pairs::<LogicalShift, VReg>(vd, vs2, other),
            ArithmeticVvOp::Vsra => self.compute_pairs::<ArithmeticShift, VReg>(vd, vs2, other),
        }
    }

    /// Writes what an operation makes of each word of a group and a number.
    #[inline(never)]
    fn compute_numbers(&mut self, operation: ArithmeticVxOp, vd: VReg, vs2: VReg, other: u32)
        requires whole { IsWhole self.old }
        requires vd { vd % group self.old ≡ 0 }
        requires vs2 { vs2 % group self.old ≡ 0 }
        ensures { self.new ≡ with_elements self.old vd true
            (zip_with (op.arithmetic_vx operation (width self.old))
            (of_group self.old vs2) (of_scalar self.old other)) }
    {
        match operation {
            ArithmeticVxOp::Vadd => self.compute_pairs::<Addition, u32>(vd, vs2, other),
            ArithmeticVxOp::Vsub => self.compute_pairs::<Subtraction, u32>(vd, vs2, other),
            ArithmeticVxOp::Vrsub => self.compute_pairs::<ReverseSubtraction, u32>(vd, vs2, other),
            ArithmeticVxOp::Vminu => self.compute_pairs::<LeastUnsigned, u32>(vd, vs2, other),
            ArithmeticVxOp::Vmin => self.compute_pairs::<LeastSigned, u32>(vd, vs2, other),
            ArithmeticVxOp::Vmaxu => self.compute_pairs::<GreatestUnsigned, u32>(vd, vs2, other),
            ArithmeticVxOp::Vmax => self.compute_pairs::<GreatestSigned, u32>(vd, vs2, other),
            ArithmeticVxOp::Vand => self.compute_pairs::<Conjunction, u32>(vd, vs2, other),
            ArithmeticVxOp::Vor => self.compute_pairs::<Disjunction, u32>(vd, vs2, other),
            ArithmeticVxOp::Vxor => self.compute_pairs::<Difference, u32>(vd, vs2, other),
            ArithmeticVxOp::Vsll => self.compute_pairs::<LeftShift, u32>(vd, vs2, other),
            ArithmeticVxOp::Vsrl => self.compute_pairs::<LogicalShift, u32>(vd, vs2, other),
            ArithmeticVxOp::Vsra => self.compute_pairs::<ArithmeticShift, u32>(vd, vs2, other),
        }
    }

    /// Writes what a multiplication or division makes of each pair.
    #[inline(never)]
    fn multiply_pairs<T: WordOperand>(
        &mut self,
        operation: MultiplyOp,
        vd: VReg,
        vs2: VReg,
        other: T,
    )
        requires whole { IsWhole self.old }
        requires vd { vd % group self.old ≡ 0 }
        requires vs2 { vs2 % group self.old ≡ 0 }
        requires other { T.IsPlaced other (group self.old) }
        ensures { self.new ≡ with_elements self.old vd true
            (zip_with (op.multiply operation (width self.old))
            (of_group self.old vs2) (operand_elements self.old (T.operand other))) }
    {
        match operation {
            MultiplyOp::Vdivu => self.compute_pairs::<QuotientUnsigned, T>(vd, vs2, other),
            MultiplyOp::Vdiv => self.compute_pairs::<QuotientSigned, T>(vd, vs2, other),
            MultiplyOp::Vremu => self.compute_pairs::<RemainderUnsigned, T>(vd, vs2, other),
            MultiplyOp::Vrem => self.compute_pairs::<RemainderSigned, T>(vd, vs2, other),
            MultiplyOp::Vmulhu => self.compute_pairs::<HighProductUnsigned, T>(vd, vs2, other),
            MultiplyOp::Vmul => self.compute_pairs::<LowProduct, T>(vd, vs2, other),
            MultiplyOp::Vmulhsu => self.compute_pairs::<HighProductMixed, T>(vd, vs2, other),
            MultiplyOp::Vmulh => self.compute_pairs::<HighProductSigned, T>(vd, vs2, other),
        }
    }

    /// Whether instructions that aren't masked work on whole groups of words, of which one begins at this register.
    #[tactic(auto, using(crate::proofs::Whole::is_multiple, crate::proofs::Whole::one_placed))]
    #[inline(always)]
    pub(crate) fn takes_one(&self, vd: VReg) -> bool
        ensures whole { result ≡ true → IsWhole self.now }
        ensures placed { result ≡ true → is_misplaced self.now (vd ∷ []) ≡ false }
        ensures vd { result ≡ true → vd % group self.now ≡ 0 }
    {
        self.is_whole() && !self.is_inside(vd)
    }

    /// The same of two.
    #[tactic(auto, using(crate::proofs::Whole::is_multiple, crate::proofs::Whole::two_placed))]
    #[inline(always)]
    pub(crate) fn takes_two(&self, vd: VReg, vs2: VReg) -> bool
        ensures whole { result ≡ true → IsWhole self.now }
        ensures placed { result ≡ true → is_misplaced self.now (vd ∷ vs2 ∷ []) ≡ false }
        ensures vd { result ≡ true → vd % group self.now ≡ 0 }
        ensures vs2 { result ≡ true → vs2 % group self.now ≡ 0 }
    {
        self.is_whole() && !self.is_inside(vd) && !self.is_inside(vs2)
    }

    /// The same of three.
    #[tactic(auto, using(crate::proofs::Whole::is_multiple, crate::proofs::Whole::three_placed))]
    #[inline(always)]
    pub(crate) fn takes_three(&self, vd: VReg, vs2: VReg, vs1: VReg) -> bool
        ensures whole { result ≡ true → IsWhole self.now }
        ensures placed { result ≡ true → is_misplaced self.now (vd ∷ vs2 ∷ vs1 ∷ []) ≡ false }
        ensures vd { result ≡ true → vd % group self.now ≡ 0 }
        ensures vs2 { result ≡ true → vs2 % group self.now ≡ 0 }
        ensures vs1 { result ≡ true → vs1 % group self.now ≡ 0 }
    {
        self.takes_two(vd, vs2) && !self.is_inside(vs1)
    }

    /// Writes what an operation makes of each pair of two whole groups, if they are that.
    #[inline(always)]
    pub(crate) fn arithmetic_on_groups(
        &mut self,
        operation: ArithmeticVvOp,
        vd: VReg,
        vs2: VReg,
        vs1: VReg,
    ) -> bool
        ensures configured { result ≡ true → has_vill self.old ≡ false }
        ensures placed { result ≡ true → is_misplaced self.old (vd ∷ vs2 ∷ vs1 ∷ []) ≡ false }
        ensures state { result ≡ true → self.new ≡ with_elements self.old vd true
            (zip_with (op.arithmetic_vv operation (width self.old))
            (of_group self.old vs2) (of_group self.old vs1)) }
        ensures unchanged { result ≡ false → self.new ≡ self.old }
    {
        if !self.takes_three(vd, vs2, vs1) {
            return false;
        }
        self.compute_groups(operation, vd, vs2, vs1);
        true
    }

    /// Writes what an operation makes of each word of a whole group and a number, if it is that.
    #[inline(always)]
    pub(crate) fn arithmetic_on_numbers(
        &mut self,
        operation: ArithmeticVxOp,
        vd: VReg,
        vs2: VReg,
        number: u32,
    ) -> bool
        ensures configured { result ≡ true → has_vill self.old ≡ false }
        ensures placed { result ≡ true → is_misplaced self.old (vd ∷ vs2 ∷ []) ≡ false }
        ensures state { result ≡ true → self.new ≡ with_elements self.old vd true
            (zip_with (op.arithmetic_vx operation (width self.old))
            (of_group self.old vs2) (of_scalar self.old number)) }
        ensures unchanged { result ≡ false → self.new ≡ self.old }
    {
        if !self.takes_two(vd, vs2) {
            return false;
        }
        self.compute_numbers(operation, vd, vs2, number);
        true
    }

    /// Writes what an operation makes of each word of a group and an immediate.
    #[inline(always)]
    fn compute_immediates(&mut self, operation: ArithmeticViOp, vd: VReg, vs2: VReg, imm: Imm5)
        requires whole { IsWhole self.old }
        requires vd { vd % group self.old ≡ 0 }
        requires vs2 { vs2 % group self.old ≡ 0 }
        ensures { self.new ≡ with_elements self.old vd true
            (zip_with (op.arithmetic_vi operation (width self.old))
            (of_group self.old vs2) (of_immediate self.old imm)) }
    {
        self.compute_numbers(with_immediate(operation), vd, vs2, word_of(imm));
    }

    /// Writes each word of a group, shifted by an amount.
    #[inline(always)]
    fn compute_shifts(&mut self, operation: ShiftViOp, vd: VReg, vs2: VReg, amount: ShiftAmount)
        requires whole { IsWhole self.old }
        requires vd { vd % group self.old ≡ 0 }
        requires vs2 { vs2 % group self.old ≡ 0 }
        ensures { self.new ≡ with_elements self.old vd true
            (zip_with (op.shift_vi operation (width self.old))
            (of_group self.old vs2) (replicate (count self.old) amount)) }
    {
        self.compute_numbers(shift(operation), vd, vs2, word_of_amount(amount));
    }

    /// Writes what an operation makes of each word of a whole group and an immediate, if it is that.
    #[inline(always)]
    pub(crate) fn arithmetic_on_immediates(
        &mut self,
        operation: ArithmeticViOp,
        vd: VReg,
        vs2: VReg,
        imm: Imm5,
    ) -> bool
        ensures configured { result ≡ true → has_vill self.old ≡ false }
        ensures placed { result ≡ true → is_misplaced self.old (vd ∷ vs2 ∷ []) ≡ false }
        ensures state { result ≡ true → self.new ≡ with_elements self.old vd true
            (zip_with (op.arithmetic_vi operation (width self.old))
            (of_group self.old vs2) (of_immediate self.old imm)) }
        ensures unchanged { result ≡ false → self.new ≡ self.old }
    {
        if !self.takes_two(vd, vs2) {
            return false;
        }
        self.compute_immediates(operation, vd, vs2, imm);
        true
    }

    /// Writes each word of a whole group, shifted by an amount, if it is that.
    #[inline(always)]
    pub(crate) fn shift_by_amount(
        &mut self,
        operation: ShiftViOp,
        vd: VReg,
        vs2: VReg,
        amount: ShiftAmount,
    ) -> bool
        ensures configured { result ≡ true → has_vill self.old ≡ false }
        ensures placed { result ≡ true → is_misplaced self.old (vd ∷ vs2 ∷ []) ≡ false }
        ensures state { result ≡ true → self.new ≡ with_elements self.old vd true
            (zip_with (op.shift_vi operation (width self.old))
            (of_group self.old vs2) (replicate (count self.old) amount)) }
        ensures unchanged { result ≡ false → self.new ≡ self.old }
    {
        if !self.takes_two(vd, vs2) {
            return false;
        }
        self.compute_shifts(operation, vd, vs2, amount);
        true
    }

    /// Writes what a multiplication or division makes of each pair of two whole groups, if they are that.
    #[inline(always)]
    pub(crate) fn multiply_groups(
        &mut self,
        operation: MultiplyOp,
        vd: VReg,
        vs2: VReg,
        vs1: VReg,
    ) -> bool
        ensures configured { result ≡ true → has_vill self.old ≡ false }
        ensures placed { result ≡ true → is_misplaced self.old (vd ∷ vs2 ∷ vs1 ∷ []) ≡ false }
        ensures state { result ≡ true → self.new ≡ with_elements self.old vd true
            (zip_with (op.multiply operation (width self.old)) (of_group self.old vs2) (of_group self.old vs1)) }
        ensures unchanged { result ≡ false → self.new ≡ self.old }
    {
        if !self.takes_three(vd, vs2, vs1) {
            return false;
        }
        self.multiply_pairs(operation, vd, vs2, vs1);
        true
    }

    /// Writes what a multiplication or division makes of each word of a whole group and a number, if it is that.
    #[inline(always)]
    pub(crate) fn multiply_numbers(
        &mut self,
        operation: MultiplyOp,
        vd: VReg,
        vs2: VReg,
        number: u32,
    ) -> bool
        ensures configured { result ≡ true → has_vill self.old ≡ false }
        ensures placed { result ≡ true → is_misplaced self.old (vd ∷ vs2 ∷ []) ≡ false }
        ensures state { result ≡ true → self.new ≡ with_elements self.old vd true
            (zip_with (op.multiply operation (width self.old))
            (of_group self.old vs2) (of_scalar self.old number)) }
        ensures unchanged { result ≡ false → self.new ≡ self.old }
    {
        if !self.takes_two(vd, vs2) {
            return false;
        }
        self.multiply_pairs(operation, vd, vs2, number);
        true
    }
}
