//! Loads of whole groups of words that need not lie one after the other: each word is judged where it is read, and all
//! are read before any is written.

ghost use Rattle.std.specs.Prelude.{◌≡◌, ◌<◌, ◌≤◌, ◌+◌, ◌*◌, ◌%◌, ℕ, true};
ghost use Rattle.std.specs.Prelude.{false, replicate, IfErr, IfOk, None, OnErr, OnOk, Some};
ghost use Rattle.std.specs.Prelude.{length, map, take};
ghost use Rattle.rv_insn.specs.declared.vector_instructions.VectorInsn.TheVariants.{LoadElements};
ghost use Rattle.rv_insn.specs.declared.vector_instructions.Addressing.TheVariants as addressings;
ghost use Rattle.rv_insn.specs.declared.vector_operations.ElementWidth.TheVariants.{Bits32};
ghost use Rattle.lanes.specs.Words as word;
ghost use Rattle.memory.specs.Access.{access_at, fault_of, first_fault, number_at, Reads, Word};
ghost use Rattle.vector_unit.specs.Vector.{count, group, has_vill, is_refused, width};
ghost use Rattle.vector_unit.specs.Accesses.{addresses_by, filled_from, loaded, offset, IsHeld};
ghost use Rattle.vector_unit.specs.inner.Wholes.{IsWhole};
ghost use Rattle.vector_unit.specs.declared.accesses.Spacing.TheVariants.{Indexed, Strided};
ghost use Rattle.hart_core.specs.HartState.{register, vectors_of, with_vectors};
ghost use Rattle.hart_core.specs.VectorRows.{accesses_at};
ghost use Rattle.hart_core.specs.inner.Pieces.{spots};

use crate::harts::Hart;
use memory::{Bytes, read_u32};
use rv_insn::{Reg, Trap, VReg};
use vector_unit::{Spacing, VectorState};

/// The word of a group that lies so from a base on, or the trap that it makes.
#[inline(always)]
fn read_word<M: Bytes>(
    memory: &M,
    state: &VectorState,
    spacing: Spacing,
    base: u32,
    index: u32,
) -> Result<u32, Trap>
    requires whole { IsWhole state.now }
    requires index { index < 64 }
    requires held { IsHeld spacing index }
    ensures fits { OnOk result (fault_of (length (M.text memory.now)) (length (M.memory memory.now)) Reads
        (word.add 32 base (offset state.now spacing index)) 4 ≡ None) }
    ensures number { IfOk result (λ number. number ≡ number_at (M.text memory.now) (M.memory memory.now)
        (access_at Word (word.add 32 base (offset state.now spacing index)))) }
    ensures err { IfErr result (λ trap. fault_of (length (M.text memory.now)) (length (M.memory memory.now)) Reads
        (word.add 32 base (offset state.now spacing index)) 4 ≡ Some trap) }
{
    let address = base.wrapping_add(state.word_offset(spacing, index));
    read_u32(memory, address)
}

/// The words of a whole group that lie so from a base on, or the trap of the first that can't be loaded.
#[inline(always)]
fn read_words<M: Bytes>(
    memory: &M,
    state: &VectorState,
    spacing: Spacing,
    base: u32,
) -> Result<[u32; 16], Trap>
    requires whole { IsWhole state.now }
    requires held { (index : ℕ) → index < count state.now → IsHeld spacing index }
    ensures fits { OnOk result (first_fault (length (M.text memory.now)) (length (M.memory memory.now)) Reads
        (spots state.now spacing base 0 (count state.now)) ≡ None) }
    ensures words { IfOk result (λ words. take (count state.now) words
        ≡ map (number_at (M.text memory.now) (M.memory memory.now)) (spots state.now spacing base 0 (count state.now))) }
    ensures err { IfErr result (λ trap. first_fault (length (M.text memory.now)) (length (M.memory memory.now)) Reads
        (spots state.now spacing base 0 (count state.now)) ≡ Some trap) }
{
    let mut words = [0; 16];
    for part in 0..state.count() / 4 {
        let first = 4 * part;
        let at = first as usize;
        words[at] = read_word(memory, state, spacing, base, first)?;
        words[at + 1] = read_word(memory, state, spacing, base, first + 1)?;
        words[at + 2] = read_word(memory, state, spacing, base, first + 2)?;
        words[at + 3] = read_word(memory, state, spacing, base, first + 3)?;
    }
    Ok(words)
}

impl Hart {
    /// Writes the words of a whole group.
    #[inline(always)]
    fn put_words(&mut self, vd: VReg, words: &[u32; 16])
        requires whole { IsWhole (vectors_of self.old) }
        requires placed { vd % group (vectors_of self.old) ≡ 0 }
        ensures { self.new ≡ with_vectors self.old (filled_from 0 (vectors_of self.old) 32 vd
            (replicate (count (vectors_of self.old)) true) words.now) }
    {
        for part in 0..self.vectors().group() {
            let first = 4 * part;
            let four = [
                words[first],
                words[first + 1],
                words[first + 2],
                words[first + 3],
            ];
            self.put_four_words(vd, part, four);
        }
    }

    /// Loads a whole group of words that lie so from a base on, or says which trap the first that can't be loaded
    /// makes.
    #[inline(always)]
    fn load_words<M: Bytes>(
        &mut self,
        memory: &M,
        vd: VReg,
        rs1: Reg,
        spacing: Spacing,
    ) -> Result<(), Trap>
        requires whole { IsWhole (vectors_of self.old) }
        requires placed { vd % group (vectors_of self.old) ≡ 0 }
        requires held { (index : ℕ) → index < count (vectors_of self.old) → IsHeld spacing index }
        ensures fits { OnOk result (first_fault (length (M.text memory.now)) (length (M.memory memory.now)) Reads
            (accesses_at Bits32 (addresses_by (vectors_of self.old) spacing true (register self.old rs1))) ≡ None) }
        ensures hart { OnOk result (self.new ≡ with_vectors self.old (loaded (vectors_of self.old) Bits32 vd true
            (map (number_at (M.text memory.now) (M.memory memory.now)) (accesses_at Bits32
            (addresses_by (vectors_of self.old) spacing true (register self.old rs1)))))) }
        ensures err { IfErr result (λ trap. first_fault (length (M.text memory.now)) (length (M.memory memory.now))
            Reads (accesses_at Bits32 (addresses_by (vectors_of self.old) spacing true (register self.old rs1)))
            ≡ Some trap) }
        ensures unchanged { OnErr result (self.new ≡ self.old) }
    {
        let words = read_words(memory, self.vectors(), spacing, self.register(rs1))?;
        self.put_words(vd, &words);
        Ok(())
    }

    /// Loads a whole group of words that lie this many bytes apart as `rs2` says, or says which trap the first that
    /// can't be loaded makes.
    #[inline(never)]
    pub(crate) fn load_strided<M: Bytes>(
        &mut self,
        memory: &M,
        vd: VReg,
        rs1: Reg,
        rs2: Reg,
    ) -> Result<(), Trap>
        requires configured { has_vill (vectors_of self.old) ≡ false }
        requires words { width (vectors_of self.old) ≡ 32 }
        requires full { count (vectors_of self.old) ≤ self.old.vl }
        requires placed { vd % group (vectors_of self.old) ≡ 0 }
        ensures legal { is_refused (LoadElements Bits32 vd rs1 (addressings.Strided rs2) true) (vectors_of self.old)
            ≡ false }
        ensures fits { OnOk result (first_fault (length (M.text memory.now)) (length (M.memory memory.now)) Reads
            (accesses_at Bits32 (addresses_by (vectors_of self.old) (Strided (register self.old rs2)) true
            (register self.old rs1))) ≡ None) }
        ensures hart { OnOk result (self.new ≡ with_vectors self.old (loaded (vectors_of self.old) Bits32 vd true
            (map (number_at (M.text memory.now) (M.memory memory.now)) (accesses_at Bits32
            (addresses_by (vectors_of self.old) (Strided (register self.old rs2)) true (register self.old rs1)))))) }
        ensures err { IfErr result (λ trap. first_fault (length (M.text memory.now)) (length (M.memory memory.now))
            Reads (accesses_at Bits32 (addresses_by (vectors_of self.old) (Strided (register self.old rs2)) true
            (register self.old rs1))) ≡ Some trap) }
        ensures unchanged { OnErr result (self.new ≡ self.old) }
    {
        self.load_words(memory, vd, rs1, Spacing::Strided(self.register(rs2)))
    }

    /// The same of words that lie at the offsets that are the words of a group.
    #[inline(never)]
    pub(crate) fn load_indexed<M: Bytes>(
        &mut self,
        memory: &M,
        vd: VReg,
        rs1: Reg,
        vs2: VReg,
    ) -> Result<(), Trap>
        requires configured { has_vill (vectors_of self.old) ≡ false }
        requires words { width (vectors_of self.old) ≡ 32 }
        requires full { count (vectors_of self.old) ≤ self.old.vl }
        requires placed { vd % group (vectors_of self.old) ≡ 0 }
        requires offsets { vs2 % group (vectors_of self.old) ≡ 0 }
        ensures legal { is_refused (LoadElements Bits32 vd rs1 (addressings.Indexed vs2) true) (vectors_of self.old)
            ≡ false }
        ensures fits { OnOk result (first_fault (length (M.text memory.now)) (length (M.memory memory.now)) Reads
            (accesses_at Bits32 (addresses_by (vectors_of self.old) (Indexed vs2) true (register self.old rs1)))
            ≡ None) }
        ensures hart { OnOk result (self.new ≡ with_vectors self.old (loaded (vectors_of self.old) Bits32 vd true
            (map (number_at (M.text memory.now) (M.memory memory.now)) (accesses_at Bits32
            (addresses_by (vectors_of self.old) (Indexed vs2) true (register self.old rs1)))))) }
        ensures err { IfErr result (λ trap. first_fault (length (M.text memory.now)) (length (M.memory memory.now))
            Reads (accesses_at Bits32 (addresses_by (vectors_of self.old) (Indexed vs2) true (register self.old rs1)))
            ≡ Some trap) }
        ensures unchanged { OnErr result (self.new ≡ self.old) }
    {
        self.load_words(memory, vd, rs1, Spacing::Indexed(vs2))
    }
}
