//! Loads and stores of all elements of a group that lie one after the other in data: judged once, and moved one after
//! the other.

ghost use Rattle.std.specs.Prelude.{◌≡◌, ◌<◌, ◌≤◌, ◌+◌, ◌*◌, ◌%◌, ◌^◌, true, false, IsTrue, length, map, replicate};
ghost use Rattle.std.specs.List.{range_with_len};
ghost use Rattle.memory.specs.Access.{covers_load, in_data, put};
ghost use Rattle.memory.specs.Access.{bytes_in, number_at, number_in, put_number, spread, touched};
ghost use Rattle.vector_unit.specs.Vector.{has_vill};
ghost use Rattle.vector_unit.specs.Vector.{bits_of, count, element_from};
ghost use Rattle.vector_unit.specs.Accesses.{filled_from, with_element_from};
ghost use Rattle.hart_core.specs.VectorRows.{accesses_at, size_of};
ghost use Rattle.hart_core.specs.HartState.{register, vectors_of, with_vectors};
ghost use Rattle.hart_core.specs.inner.Pieces.{addresses_from, IsPiece, LiesInData};

use crate::harts::Hart;
use memory::Bytes;
use memory_accesses::bytes_of;
use rv_insn::{ElementWidth, VReg};
use vector_unit::{Spacing, VectorState};

/// Addresses from which on the greatest group may reach the end of all addresses.
pub(crate) const LAST_ADDRESSES: u32 = 0xffff_ff00;

/// A group of registers as elements of a width.
#[derive(Clone, Copy)]
pub(crate) struct RegisterGroup {
    pub width: ElementWidth,
    /// The first of its registers.
    pub v: VReg,
}

/// The number of a width at an aligned address of text or data.
#[inline(always)]
fn read_covered<M: Bytes>(width: ElementWidth, memory: &M, address: u32) -> u32
    requires aligned { address % bytes_in (size_of width) ≡ 0 }
    requires covered { IsTrue (in_data (length (M.memory memory.now)) address (bytes_in (size_of width))) }
    ensures { result ≡ number_in (M.text memory.now) (M.memory memory.now) (size_of width) address }
{
    match width {
        ElementWidth::Bits8 => u32::from(memory.read(address)),
        ElementWidth::Bits16 => u32::from(memory.read_half(address)),
        ElementWidth::Bits32 => memory.read_word(address),
    }
}

/// Puts the low bits of a number at an aligned address of data.
#[inline(always)]
fn write_covered<M: Bytes>(width: ElementWidth, memory: &mut M, address: u32, number: u32)
    requires aligned { address % bytes_in (size_of width) ≡ 0 }
    requires covered { IsTrue (in_data (length (M.memory memory.old)) address (bytes_in (size_of width))) }
    ensures put { M.memory memory.new ≡ put_number (M.memory memory.old) (size_of width) address number }
    ensures text { M.text memory.new ≡ M.text memory.old }
{
    match width {
        ElementWidth::Bits8 => memory.write(address, (number & 0xff) as u8),
        ElementWidth::Bits16 => memory.write_half(address, (number & 0xffff) as u16),
        ElementWidth::Bits32 => memory.write_word(address, number),
    }
}

/// Whether an access works on all elements, and they lie one after the other, aligned, in data.
#[inline(always)]
pub(crate) fn is_piece<M: Bytes>(
    memory: &M,
    state: &VectorState,
    width: ElementWidth,
    spacing: Spacing,
    vm: bool,
    base: u32,
) -> bool
    requires { has_vill state.now ≡ false }
    ensures { result ≡ true → IsPiece (length (M.memory memory.now)) state.now width spacing vm base }
{
    let bytes = state.count() * bytes_of(width);
    spacing == Spacing::UnitStride(width)
        && state.is_full(vm)
        && base % bytes_of(width) == 0
        && base < LAST_ADDRESSES
        && memory.covers_store(base, bytes)
}

impl Hart {
    /// Loads an element of a width from an aligned address of data.
    #[inline(always)]
    fn load_one<M: Bytes>(
        &mut self,
        memory: &M,
        width: ElementWidth,
        vd: VReg,
        address: u32,
        index: u32,
    )
        requires few { index < 64 }
        requires aligned { address % bytes_in (size_of width) ≡ 0 }
        requires covered { IsTrue (in_data (length (M.memory memory.now)) address (bytes_in (size_of width))) }
        ensures { self.new ≡ with_vectors self.old (with_element_from (vectors_of self.old) (bits_of width) vd index
            (number_in (M.text memory.now) (M.memory memory.now) (size_of width) address)) }
    {
        let number = read_covered(width, memory, address);
        self.put_element(width, vd, index, number);
    }

    /// Loads all elements of a group, which lie one after the other in data. Where they are four, nothing goes round,
    /// so that where they lie is known at each, and the group needs no place in memory.
    #[inline(always)]
    pub(crate) fn load_group<M: Bytes>(&mut self, memory: &M, group: &RegisterGroup, address: u32)
        requires configured { has_vill (vectors_of self.old) ≡ false }
        requires lies { LiesInData (length (M.memory memory.now)) group.now.width address
            (count (vectors_of self.old)) }
        ensures { self.new ≡ with_vectors self.old (filled_from 0 (vectors_of self.old) (bits_of group.now.width)
            group.now.v (replicate (count (vectors_of self.old)) true)
            (map (number_at (M.text memory.now) (M.memory memory.now))
            (accesses_at group.now.width (addresses_from group.now.width address (count (vectors_of self.old)))))) }
    {
        let count = self.vectors().count();
        if count == 4 {
            self.load_quad(memory, group, address, 0);
        } else {
            let group = *group;
            self.load_piece(memory, &group, address, 0, count / 4);
        }
    }

    /// Loads four elements, from one whose number is a multiple of four on, which lie one after the other in data.
    /// They stand in one register at each width.
    #[inline(always)]
    fn load_quad<M: Bytes>(&mut self, memory: &M, group: &RegisterGroup, address: u32, quad: u32)
        requires few { quad < 16 }
        requires lies { LiesInData (length (M.memory memory.now)) group.now.width address 4 }
        ensures { self.new ≡ with_vectors self.old (filled_from (4 * quad) (vectors_of self.old)
            (bits_of group.now.width) group.now.v (replicate 4 true)
            (map (number_at (M.text memory.now) (M.memory memory.now))
            (accesses_at group.now.width (addresses_from group.now.width address 4)))) }
    {
        let RegisterGroup { width, v: vd } = *group;
        let bytes = bytes_of(width);
        let second = address + bytes;
        let third = second + bytes;
        let fourth = third + bytes;
        let index = 4 * quad;
        self.load_one(memory, width, vd, address, index);
        self.load_one(memory, width, vd, second, index + 1);
        self.load_one(memory, width, vd, third, index + 2);
        self.load_one(memory, width, vd, fourth, index + 3);
    }

    /// Loads this many times four elements, in the same way.
    fn load_piece<M: Bytes>(
        &mut self,
        memory: &M,
        group: &RegisterGroup,
        address: u32,
        quad: u32,
        others: u32,
    )
        requires few { 4 * (quad + others) ≤ 64 }
        requires lies { LiesInData (length (M.memory memory.now)) group.now.width address (4 * others) }
        ensures { self.new ≡ with_vectors self.old (filled_from (4 * quad) (vectors_of self.old)
            (bits_of group.now.width) group.now.v (replicate (4 * others) true)
            (map (number_at (M.text memory.now) (M.memory memory.now))
            (accesses_at group.now.width (addresses_from group.now.width address (4 * others))))) }
    {
        if others > 0 {
            self.load_quad(memory, group, address, quad);
            let next = address + 4 * bytes_of(group.width);
            self.load_piece(memory, group, next, quad + 1, others - 1);
        }
    }
}

/// Stores an element of a width at an aligned address of data.
#[inline(always)]
fn store_one<M: Bytes>(
    memory: &mut M,
    state: &VectorState,
    width: ElementWidth,
    vs3: VReg,
    address: u32,
    index: u32,
)
    requires few { index < 64 }
    requires aligned { address % bytes_in (size_of width) ≡ 0 }
    requires covered { IsTrue (in_data (length (M.memory memory.old)) address (bytes_in (size_of width))) }
    ensures put { M.memory memory.new ≡ put_number (M.memory memory.old) (size_of width) address
        (element_from state.now (bits_of width) vs3 index) }
    ensures text { M.text memory.new ≡ M.text memory.old }
{
    let number = state.element(width, vs3, index);
    write_covered(width, memory, address, number);
}

/// Stores all elements of a group, which are to lie one after the other in data. Where they are four, nothing goes
/// round.
#[inline(always)]
pub(crate) fn store_group<M: Bytes>(
    memory: &mut M,
    state: &VectorState,
    group: &RegisterGroup,
    address: u32,
)
    requires configured { has_vill state.now ≡ false }
    requires lies { LiesInData (length (M.memory memory.old)) group.now.width address (count state.now) }
    ensures put { M.memory memory.new
        ≡ put (M.memory memory.old)
        (touched (accesses_at group.now.width (addresses_from group.now.width address (count state.now))))
        (spread (accesses_at group.now.width (addresses_from group.now.width address (count state.now)))
        (map (element_from state.now (bits_of group.now.width) group.now.v) (range_with_len 0 (count state.now)))) }
    ensures text { M.text memory.new ≡ M.text memory.old }
{
    let count = state.count();
    if count == 4 {
        store_quad(memory, state, group, address, 0);
    } else {
        let group = *group;
        store_piece(memory, state, &group, address, 0, count / 4);
    }
}

/// Stores four elements, from one whose number is a multiple of four on, which are to lie one after the other in
/// data.
#[inline(always)]
fn store_quad<M: Bytes>(
    memory: &mut M,
    state: &VectorState,
    group: &RegisterGroup,
    address: u32,
    quad: u32,
)
    requires few { quad < 16 }
    requires lies { LiesInData (length (M.memory memory.old)) group.now.width address 4 }
    ensures put { M.memory memory.new
        ≡ put (M.memory memory.old)
        (touched (accesses_at group.now.width (addresses_from group.now.width address 4)))
        (spread (accesses_at group.now.width (addresses_from group.now.width address 4))
        (map (element_from state.now (bits_of group.now.width) group.now.v)
        (range_with_len (4 * quad) 4))) }
    ensures text { M.text memory.new ≡ M.text memory.old }
{
    let RegisterGroup { width, v: vs3 } = *group;
    let bytes = bytes_of(width);
    let second = address + bytes;
    let third = second + bytes;
    let fourth = third + bytes;
    let index = 4 * quad;
    store_one(memory, state, width, vs3, address, index);
    store_one(memory, state, width, vs3, second, index + 1);
    store_one(memory, state, width, vs3, third, index + 2);
    store_one(memory, state, width, vs3, fourth, index + 3);
}

/// Stores this many times four elements, in the same way.
fn store_piece<M: Bytes>(
    memory: &mut M,
    state: &VectorState,
    group: &RegisterGroup,
    address: u32,
    quad: u32,
    others: u32,
)
    requires few { 4 * (quad + others) ≤ 64 }
    requires lies { LiesInData (length (M.memory memory.old)) group.now.width address (4 * others) }
    ensures put { M.memory memory.new
        ≡ put (M.memory memory.old)
        (touched (accesses_at group.now.width (addresses_from group.now.width address (4 * others))))
        (spread (accesses_at group.now.width (addresses_from group.now.width address (4 * others)))
        (map (element_from state.now (bits_of group.now.width) group.now.v) (range_with_len (4 * quad) (4 * others)))) }
    ensures text { M.text memory.new ≡ M.text memory.old }
{
    if others > 0 {
        store_quad(memory, state, group, address, quad);
        let next = address + 4 * bytes_of(group.width);
        store_piece(memory, state, group, next, quad + 1, others - 1);
    }
}
