//! What whole groups of words get that is not made of pairs: each kind as a type, so that what works on a group is made
//! for each of them.

ghost use Rattle.std.specs.Prelude.{◌≡◌, ◌<◌, ◌%◌, ℕ, true, false, [], ◌∷◌};
ghost use Rattle.vector_unit.specs.declared.elements.NewElements.{NewElements};
ghost use Rattle.vector_unit.specs.declared.elements.NewElements.TheVariants.{Bytes, Copy, Merge, Numbers};
ghost use Rattle.vector_unit.specs.Vector.{bytes_of_register, count, group, has_vill, is_misplaced, merged_by_mask};
ghost use Rattle.vector_unit.specs.Vector.{of_group, width, with_elements};
ghost use Rattle.vector_unit.specs.Operands.{operand_elements};
ghost use Rattle.vector_unit.specs.inner.Parts.{new_elements, new_part};
ghost use Rattle.vector_unit.specs.inner.Wholes.{IsWhole, with_each};
ghost use Rattle.std.specs.List.{range_with_len};

use crate::pair_operations::WordOperand;
use crate::states::VectorState;
use lanes::Lanes;
use rv_insn::VReg;

/// The words that a whole group gets.
pub(crate) trait WholeElements: Copy {
    /// The elements that they are.
    ghost elements: { Self → NewElements };

    /// Whether all that they are made of begins where groups of this many registers do.
    ghost ArePlaced: { Self → ℕ → Type 0 };

    /// A register's worth of them.
    fn words(self, state: &VectorState, part: usize) -> Lanes<u32, 4>
        requires whole { IsWhole state.now }
        requires placed { ArePlaced self (group state.now) }
        requires part { part < group state.now }
        requires few { part < 4 }
        ensures { result ≡ new_part state.now (elements self) part };
}

/// Each element's number.
#[derive(Clone, Copy)]
pub(crate) struct ElementNumbers;

impl WholeElements for ElementNumbers {
    ghost elements = { λ e. Numbers };

    ghost ArePlaced = { λ e size. Unit {0} };

    #[inline(always)]
    fn words(self, state: &VectorState, part: usize) -> Lanes<u32, 4> {
        Lanes::<u32, 4>::indices(part as u32 * 4)
    }
}

/// An operand.
#[derive(Clone, Copy)]
pub(crate) struct Copied<T: WordOperand> {
    pub other: T,
}

#[tactic(auto, using(crate::proofs::Whole::operand_words))]
impl<T: WordOperand> WholeElements for Copied<T> {
    ghost elements = { λ c. Copy (T.operand c.other) };

    ghost ArePlaced = { λ c size. T.IsPlaced c.other size };

    #[inline(always)]
    fn words(self, state: &VectorState, part: usize) -> Lanes<u32, 4> {
        self.other.words(state, part)
    }
}

/// The other operand where the mask has a 1, and the elements of `vs2` where it has a 0.
#[derive(Clone, Copy)]
pub(crate) struct Merged<T: WordOperand> {
    pub vs2: VReg,
    pub other: T,
}

#[tactic(auto, using(crate::proofs::Whole::operand_words))]
impl<T: WordOperand> WholeElements for Merged<T> {
    ghost elements = { λ m. Merge m.vs2 (T.operand m.other) };

    ghost ArePlaced = { λ m size. (m.vs2 % size ≡ 0) × T.IsPlaced m.other size };

    #[inline(always)]
    fn words(self, state: &VectorState, part: usize) -> Lanes<u32, 4> {
        let new = self.other.words(state, part);
        state
            .words_at(self.vs2, part)
            .merge_by_mask(&new, part, &state.registers[0])
    }
}

/// The first bytes of a register.
#[derive(Clone, Copy)]
pub(crate) struct FirstBytes {
    pub vs2: VReg,
}

impl WholeElements for FirstBytes {
    ghost elements = { λ b. Bytes b.vs2 };

    ghost ArePlaced = { λ b size. Unit {0} };

    #[inline(always)]
    fn words(self, state: &VectorState, part: usize) -> Lanes<u32, 4> {
        Lanes::<u32, 4>::from_bytes(&state.register(self.vs2), part * 4)
    }
}

impl VectorState {
    /// Writes new words to a group of one.
    #[inline(always)]
    fn give_one<N: WholeElements>(&mut self, vd: VReg, new: N)
        requires size { group self.old ≡ 1 }
        requires whole { IsWhole self.old }
        requires vd { vd % group self.old ≡ 0 }
        requires placed { N.ArePlaced new (group self.old) }
        ensures { self.new ≡ with_each self.old 32 vd (new_part self.old (N.elements new)) 0 1 }
    {
        let first = new.words(self, 0).to_register();
        self.put_part(vd, 0, first);
    }

    /// Writes new words to a group of two. All are made before anything is written.
    #[inline(always)]
    fn give_two<N: WholeElements>(&mut self, vd: VReg, new: N)
        requires size { group self.old ≡ 2 }
        requires whole { IsWhole self.old }
        requires vd { vd % group self.old ≡ 0 }
        requires placed { N.ArePlaced new (group self.old) }
        ensures { self.new ≡ with_each self.old 32 vd (new_part self.old (N.elements new)) 0 2 }
    {
        let first = new.words(self, 0).to_register();
        let second = new.words(self, 1).to_register();
        self.put_part(vd, 1, second);
        self.put_part(vd, 0, first);
    }

    /// Writes new words to a group of four. All are made before anything is written.
    #[inline(always)]
    fn give_four<N: WholeElements>(&mut self, vd: VReg, new: N)
        requires size { group self.old ≡ 4 }
        requires whole { IsWhole self.old }
        requires vd { vd % group self.old ≡ 0 }
        requires placed { N.ArePlaced new (group self.old) }
        ensures { self.new ≡ with_each self.old 32 vd (new_part self.old (N.elements new)) 0 4 }
    {
        let first = new.words(self, 0).to_register();
        let second = new.words(self, 1).to_register();
        let third = new.words(self, 2).to_register();
        let fourth = new.words(self, 3).to_register();
        self.put_part(vd, 3, fourth);
        self.put_part(vd, 2, third);
        self.put_part(vd, 1, second);
        self.put_part(vd, 0, first);
    }

    /// Writes new words to a whole group. It is a function of its own, so that instructions that are shorter need no
    /// room.
    #[tactic(auto, using(crate::proofs::Whole::four_registers, crate::proofs::Whole::one_register))]
    #[inline(never)]
    fn give_whole<N: WholeElements>(&mut self, vd: VReg, new: N)
        requires whole { IsWhole self.old }
        requires vd { vd % group self.old ≡ 0 }
        requires placed { N.ArePlaced new (group self.old) }
        ensures { self.new ≡ with_elements self.old vd true (new_elements self.old (N.elements new)) }
    {
        let size = self.group();
        if size > 2 {
            self.give_four(vd, new);
        } else if size > 1 {
            self.give_two(vd, new);
        } else {
            self.give_one(vd, new);
        }
    }

    /// Writes its number to each element of a whole group, if it is that.
    #[inline(always)]
    pub(crate) fn number_whole(&mut self, vd: VReg) -> bool
        ensures configured { result ≡ true → has_vill self.old ≡ false }
        ensures placed { result ≡ true → is_misplaced self.old (vd ∷ []) ≡ false }
        ensures state { result ≡ true → self.new ≡ with_elements self.old vd true (range_with_len 0 (count self.old)) }
        ensures unchanged { result ≡ false → self.new ≡ self.old }
    {
        if !self.takes_one(vd) {
            return false;
        }
        self.give_whole(vd, ElementNumbers);
        true
    }

    /// Copies a whole group, if it is that.
    #[inline(always)]
    pub(crate) fn copy_group(&mut self, vd: VReg, vs1: VReg) -> bool
        ensures configured { result ≡ true → has_vill self.old ≡ false }
        ensures placed { result ≡ true → is_misplaced self.old (vd ∷ vs1 ∷ []) ≡ false }
        ensures state { result ≡ true → self.new ≡ with_elements self.old vd true (of_group self.old vs1) }
        ensures unchanged { result ≡ false → self.new ≡ self.old }
    {
        if !self.takes_two(vd, vs1) {
            return false;
        }
        self.give_whole(vd, Copied { other: vs1 });
        true
    }

    /// Writes an operand that is no group to each word of a whole group, if it is that.
    #[inline(always)]
    pub(crate) fn copy_operand<T: WordOperand>(&mut self, vd: VReg, other: T) -> bool
        requires { (size : ℕ) → T.IsPlaced other size }
        ensures configured { result ≡ true → has_vill self.old ≡ false }
        ensures placed { result ≡ true → is_misplaced self.old (vd ∷ []) ≡ false }
        ensures state { result ≡ true
            → self.new ≡ with_elements self.old vd true (operand_elements self.old (T.operand other)) }
        ensures unchanged { result ≡ false → self.new ≡ self.old }
    {
        if !self.takes_one(vd) {
            return false;
        }
        self.give_whole(vd, Copied { other });
        true
    }

    /// Writes the words of one whole group where the mask has a 1, and those of `vs2` where it has a 0, if it is that.
    #[inline(always)]
    pub(crate) fn merge_groups(&mut self, vd: VReg, vs2: VReg, vs1: VReg) -> bool
        ensures configured { result ≡ true → has_vill self.old ≡ false }
        ensures mask { result ≡ true → 0 < vd }
        ensures placed { result ≡ true → is_misplaced self.old (vd ∷ vs2 ∷ vs1 ∷ []) ≡ false }
        ensures state { result ≡ true → self.new ≡ with_elements self.old vd true
            (merged_by_mask self.old (of_group self.old vs1) (of_group self.old vs2)) }
        ensures unchanged { result ≡ false → self.new ≡ self.old }
    {
        if vd.number() == 0 || !self.takes_three(vd, vs2, vs1) {
            return false;
        }
        self.give_whole(vd, Merged { vs2, other: vs1 });
        true
    }

    /// The same with an operand that is no group.
    #[inline(always)]
    pub(crate) fn merge_operand<T: WordOperand>(&mut self, vd: VReg, vs2: VReg, other: T) -> bool
        requires { (size : ℕ) → T.IsPlaced other size }
        ensures configured { result ≡ true → has_vill self.old ≡ false }
        ensures mask { result ≡ true → 0 < vd }
        ensures placed { result ≡ true → is_misplaced self.old (vd ∷ vs2 ∷ []) ≡ false }
        ensures state { result ≡ true → self.new ≡ with_elements self.old vd true
            (merged_by_mask self.old (operand_elements self.old (T.operand other)) (of_group self.old vs2)) }
        ensures unchanged { result ≡ false → self.new ≡ self.old }
    {
        if vd.number() == 0 || !self.takes_two(vd, vs2) {
            return false;
        }
        self.give_whole(vd, Merged { vs2, other });
        true
    }

    /// Extends bytes to the words of a whole group, if it is that.
    #[inline(always)]
    pub(crate) fn extend_bytes(&mut self, vd: VReg, vs2: VReg) -> bool
        ensures configured { result ≡ true → has_vill self.old ≡ false }
        ensures words { result ≡ true → width self.old ≡ 32 }
        ensures placed { result ≡ true → is_misplaced self.old (vd ∷ []) ≡ false }
        ensures state { result ≡ true → self.new ≡ with_elements self.old vd true (bytes_of_register self.old vs2) }
        ensures unchanged { result ≡ false → self.new ≡ self.old }
    {
        if !self.takes_one(vd) {
            return false;
        }
        self.give_whole(vd, FirstBytes { vs2 });
        true
    }
}
