//! Loads and stores of whole groups of words that lie one after the other in data: judged once, and moved a register
//! at a time.

ghost use Rattle.std.specs.Prelude.{◌≡◌, ◌<◌, ◌≤◌, ◌+◌, ◌*◌, true, false, None, length, map};
ghost use Rattle.rv_insn.specs.declared.vector_instructions.VectorInsn.TheVariants.{LoadElements, StoreElements};
ghost use Rattle.rv_insn.specs.declared.vector_instructions.Addressing.TheVariants as addressings;
ghost use Rattle.rv_insn.specs.declared.vector_operations.ElementWidth.TheVariants.{Bits32};
ghost use Rattle.memory.specs.Access.{first_fault, number_at, put, Reads, Writes, spread, touched};
ghost use Rattle.vector_unit.specs.Vector.{count, element_from, group, is_refused};
ghost use Rattle.vector_unit.specs.Accesses.{active_numbers, addresses_by, loaded};
ghost use Rattle.vector_unit.specs.declared.accesses.Spacing.TheVariants.{UnitStride};
ghost use Rattle.hart_core.specs.HartState.{register, vectors_of, with_vectors};
ghost use Rattle.hart_core.specs.VectorRows.{accesses_at};
ghost use Rattle.hart_core.specs.inner.Pieces.{IsRun, LiesInData, words_filled, words_put};

use crate::harts::Hart;
use crate::pieces::LAST_ADDRESSES;
use memory::Bytes;
use rv_insn::{Reg, VReg};
use vector_unit::VectorState;

/// Whether elements are words, the group that begins at a register is whole, and as many words lie aligned in data from
/// an address on.
#[inline(always)]
pub(crate) fn is_run<M: Bytes>(memory: &M, state: &VectorState, v: VReg, base: u32) -> bool
    ensures { result ≡ true → IsRun (length (M.memory memory.now)) state.now v base }
{
    if !state.takes_words(v) || base % 4 != 0 || base >= LAST_ADDRESSES {
        return false;
    }
    memory.covers_store(base, 4 * state.count())
}

impl Hart {
    /// Loads the words of a register of a group.
    #[inline(always)]
    fn load_register<M: Bytes>(&mut self, memory: &M, vd: VReg, address: u32, part: usize)
        requires inside { vd + part < 32 }
        requires lies { LiesInData (length (M.memory memory.now)) Bits32 address 4 }
        ensures { self.new ≡ with_vectors self.old (words_filled (number_at (M.text memory.now) (M.memory memory.now))
            vd (vectors_of self.old) (4 * part) address 4) }
    {
        self.put_four_words(vd, part, memory.read_four_words(address));
    }

    /// Loads the words of two registers of a group.
    #[inline(always)]
    fn load_two<M: Bytes>(&mut self, memory: &M, vd: VReg, address: u32, part: usize)
        requires inside { vd + part + 1 < 32 }
        requires lies { LiesInData (length (M.memory memory.now)) Bits32 address 8 }
        ensures { self.new ≡ with_vectors self.old (words_filled (number_at (M.text memory.now) (M.memory memory.now))
            vd (vectors_of self.old) (4 * part) address 8) }
    {
        self.load_register(memory, vd, address, part);
        self.load_register(memory, vd, address + 16, part + 1);
    }

    /// Loads the words of four registers, which are a group.
    #[inline(always)]
    fn load_four<M: Bytes>(&mut self, memory: &M, vd: VReg, address: u32)
        requires inside { vd + 3 < 32 }
        requires lies { LiesInData (length (M.memory memory.now)) Bits32 address 16 }
        ensures { self.new ≡ with_vectors self.old (words_filled (number_at (M.text memory.now) (M.memory memory.now))
            vd (vectors_of self.old) 0 address 16) }
    {
        self.load_two(memory, vd, address, 0);
        self.load_two(memory, vd, address + 32, 2);
    }

    /// Loads the words of a whole group.
    #[tactic(auto, using(crate::proofs::WordRuns::three_behind, crate::proofs::WordRuns::one_behind))]
    #[inline(always)]
    fn load_group_of_words<M: Bytes>(&mut self, memory: &M, vd: VReg, base: u32)
        requires { IsRun (length (M.memory memory.now)) (vectors_of self.old) vd base }
        ensures { self.new ≡ with_vectors self.old (words_filled (number_at (M.text memory.now) (M.memory memory.now))
            vd (vectors_of self.old) 0 base (count (vectors_of self.old))) }
    {
        let size = self.vectors().group();
        if size > 2 {
            self.load_four(memory, vd, base);
        } else if size > 1 {
            self.load_two(memory, vd, base, 0);
        } else {
            self.load_register(memory, vd, base, 0);
        }
    }

    /// Loads a whole group of words that lies in data one after the other.
    #[inline(always)]
    pub(crate) fn load_run<M: Bytes>(&mut self, memory: &M, vd: VReg, rs1: Reg)
        requires { IsRun (length (M.memory memory.now)) (vectors_of self.old) vd (register self.old rs1) }
        ensures legal { is_refused (LoadElements Bits32 vd rs1 addressings.UnitStride true) (vectors_of self.old)
            ≡ false }
        ensures fits { first_fault (length (M.text memory.now)) (length (M.memory memory.now)) Reads
            (accesses_at Bits32 (addresses_by (vectors_of self.old) (UnitStride Bits32) true (register self.old rs1)))
            ≡ None }
        ensures hart { self.new ≡ with_vectors self.old (loaded (vectors_of self.old) Bits32 vd true
            (map (number_at (M.text memory.now) (M.memory memory.now)) (accesses_at Bits32
            (addresses_by (vectors_of self.old) (UnitStride Bits32) true (register self.old rs1))))) }
    {
        self.load_group_of_words(memory, vd, self.register(rs1));
    }
}

/// Stores the words of a register of a group.
#[inline(always)]
fn store_register<M: Bytes>(
    memory: &mut M,
    state: &VectorState,
    vs3: VReg,
    address: u32,
    part: usize,
)
    requires inside { vs3 + part < 32 }
    requires lies { LiesInData (length (M.memory memory.old)) Bits32 address 4 }
    ensures put { M.memory memory.new ≡ words_put (element_from state.now 32 vs3) (M.memory memory.old) (4 * part)
        address 4 }
    ensures text { M.text memory.new ≡ M.text memory.old }
{
    memory.write_four_words(address, state.four_words(vs3, part));
}

/// Stores the words of two registers of a group.
#[inline(always)]
fn store_two<M: Bytes>(memory: &mut M, state: &VectorState, vs3: VReg, address: u32, part: usize)
    requires inside { vs3 + part + 1 < 32 }
    requires lies { LiesInData (length (M.memory memory.old)) Bits32 address 8 }
    ensures put { M.memory memory.new ≡ words_put (element_from state.now 32 vs3) (M.memory memory.old) (4 * part)
        address 8 }
    ensures text { M.text memory.new ≡ M.text memory.old }
{
    store_register(memory, state, vs3, address, part);
    store_register(memory, state, vs3, address + 16, part + 1);
}

/// Stores the words of four registers, which are a group.
#[inline(always)]
fn store_four<M: Bytes>(memory: &mut M, state: &VectorState, vs3: VReg, address: u32)
    requires inside { vs3 + 3 < 32 }
    requires lies { LiesInData (length (M.memory memory.old)) Bits32 address 16 }
    ensures put { M.memory memory.new ≡ words_put (element_from state.now 32 vs3) (M.memory memory.old) 0 address 16 }
    ensures text { M.text memory.new ≡ M.text memory.old }
{
    store_two(memory, state, vs3, address, 0);
    store_two(memory, state, vs3, address + 32, 2);
}

/// Stores the words of a whole group.
#[tactic(auto, using(crate::proofs::WordRuns::three_behind, crate::proofs::WordRuns::one_behind))]
#[inline(always)]
fn store_group_of_words<M: Bytes>(memory: &mut M, state: &VectorState, vs3: VReg, base: u32)
    requires { IsRun (length (M.memory memory.old)) state.now vs3 base }
    ensures put { M.memory memory.new ≡ words_put (element_from state.now 32 vs3) (M.memory memory.old) 0 base
        (count state.now) }
    ensures text { M.text memory.new ≡ M.text memory.old }
{
    let size = state.group();
    if size > 2 {
        store_four(memory, state, vs3, base);
    } else if size > 1 {
        store_two(memory, state, vs3, base, 0);
    } else {
        store_register(memory, state, vs3, base, 0);
    }
}

impl Hart {
    /// Stores a whole group of words, one after the other in data.
    #[inline(always)]
    pub(crate) fn store_run<M: Bytes>(&self, memory: &mut M, vs3: VReg, rs1: Reg)
        requires { IsRun (length (M.memory memory.old)) (vectors_of self.now) vs3 (register self.now rs1) }
        ensures legal { is_refused (StoreElements Bits32 vs3 rs1 addressings.UnitStride true) (vectors_of self.now)
            ≡ false }
        ensures fits { first_fault (length (M.text memory.old)) (length (M.memory memory.old)) Writes
            (accesses_at Bits32 (addresses_by (vectors_of self.now) (UnitStride Bits32) true (register self.now rs1)))
            ≡ None }
        ensures put { M.memory memory.new ≡ put (M.memory memory.old) (touched (accesses_at Bits32
            (addresses_by (vectors_of self.now) (UnitStride Bits32) true (register self.now rs1))))
            (spread (accesses_at Bits32
            (addresses_by (vectors_of self.now) (UnitStride Bits32) true (register self.now rs1)))
            (active_numbers (vectors_of self.now) Bits32 vs3 true)) }
        ensures text { M.text memory.new ≡ M.text memory.old }
    {
        store_group_of_words(memory, self.vectors(), vs3, self.register(rs1));
    }
}
