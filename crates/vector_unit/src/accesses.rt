//! What vector loads and stores need of the vector unit: where the elements lie, and the elements
//! themselves, one by one.

ghost use Rattle.std.specs.Prelude.{◌≡◌, ◌<◌, ◌≤◌, ◌+◌, ◌*◌, ◌/◌, ◌%◌, true, false, length, replicate, [], ◌∷◌};
ghost use Rattle.std.specs.Prelude.{slice_index};
ghost use Rattle.lanes.specs.Words.{element, with_element};
ghost use Rattle.lanes.specs.Words.{is_active};
ghost use Rattle.vector_unit.specs.Vector.{register, with_register, has_vill};
ghost use Rattle.vector_unit.specs.Vector as spec;
ghost use Rattle.vector_unit.specs.Vector.{width, count, group, group_at, element_from, active_in};
ghost use Rattle.vector_unit.specs.Accesses.{offset, addresses_by, active_numbers, filled_from, loaded, IsHeld};
ghost use Rattle.vector_unit.specs.Accesses.{with_element_from};

use crate::numbers::Numbers;
use crate::states::VectorState;
use crate::vtypes::width_of;
use lanes::{LaneKind, mask_bit};
use rv_insn::{ElementWidth, VReg};

/// How the elements of an access lie.
#[derive(Clone, Copy, Debug, PartialEq, Eq)]
pub enum Spacing {
    /// One after the other, at this width.
    UnitStride(ElementWidth),
    /// This many bytes apart, modulo 2^32.
    Strided(u32),
    /// At the offsets in bytes that are the elements of a group of registers, at the configured width.
    Indexed(VReg),
}

/// How many bits an element of a width has.
fn bits_of(width: ElementWidth) -> usize
    ensures { result ≡ spec.bits_of width }
{
    match width {
        ElementWidth::Bits8 => 8,
        ElementWidth::Bits16 => 16,
        ElementWidth::Bits32 => 32,
    }
}

impl VectorState {
    /// How many elements a group has in the state's configuration, at most 64.
    #[tactic(auto, using(crate::proofs::Configurations::few_elements))]
    #[inline(always)]
    pub fn count(&self) -> u32
        ensures value { result ≡ count self.now }
        ensures few { has_vill self.now ≡ false → result ≤ 64 }
    {
        self.count
    }

    /// How wide elements are.
    pub fn width(&self) -> ElementWidth
        requires { has_vill self.now ≡ false }
        ensures { spec.bits_of result ≡ width self.now }
    {
        width_of(self.vtype)
    }

    /// How many registers elements of a width take, where there are as many as are configured; 0 for a part of one.
    #[tactic(auto, using(crate::proofs::Configurations::group_by_count))]
    #[inline(always)]
    pub(crate) fn group_at(&self, width: ElementWidth) -> usize
        requires { has_vill self.now ≡ false }
        ensures { result ≡ group_at self.now width }
    {
        bits_of(width) * self.count as usize / 128
    }

    /// How many bytes from the base an element lies, modulo 2^32.
    #[inline(always)]
    pub fn offset(&self, spacing: Spacing, index: u32) -> u32
        requires configured { has_vill self.now ≡ false }
        requires index { index < 64 }
        ensures { result ≡ offset self.now spacing index }
    {
        match spacing {
            Spacing::UnitStride(width) => index * (bits_of(width) / 8) as u32,
            Spacing::Strided(stride) => index.wrapping_mul(stride),
            Spacing::Indexed(vs2) => self.element(self.width(), vs2, index),
        }
    }

    /// How many bytes from the base a word lies, modulo 2^32, where elements are words.
    #[tactic(auto, using(crate::proofs::Whole::word_lies))]
    #[inline(always)]
    pub fn word_offset(&self, spacing: Spacing, index: u32) -> u32
        requires configured { has_vill self.now ≡ false }
        requires words { width self.now ≡ 32 }
        requires held { IsHeld spacing index }
        requires index { index < 64 }
        ensures { result ≡ offset self.now spacing index }
    {
        match spacing {
            Spacing::Indexed(vs2) => self.held_word(vs2, index as usize / 4, index as usize % 4),
            _ => self.offset(spacing, index),
        }
    }

    /// The number that an element of a width is, of those of the registers from one on, read as unsigned.
    #[inline(always)]
    pub fn element(&self, width: ElementWidth, v: VReg, index: u32) -> u32
        requires { index < 64 }
        ensures { result ≡ element_from self.now (spec.bits_of width) v index }
    {
        let index = index as usize;
        match width {
            ElementWidth::Bits8 => self.get::<u8>(v, index / 16, index % 16).to_u32(),
            ElementWidth::Bits16 => self.get::<u16>(v, index / 8, index % 8).to_u32(),
            ElementWidth::Bits32 => self.get::<u32>(v, index / 4, index % 4).to_u32(),
        }
    }

    /// An element of a register of a group; beyond the last register it is 0.
    #[inline(always)]
    fn get<K: LaneKind>(&self, v: VReg, part: usize, index: usize) -> K
        requires part { part < 64 }
        requires index { index < 128 / K.width }
        ensures { K.number result ≡ element K.width (register self.now (v + part)) index }
    {
        let at = v.number() as usize + part;
        if at < 32 {
            K::read(&self.registers[at], index)
        } else {
            K::read(&[0; 16], index)
        }
    }

    /// Whether an instruction with this mask bit works on an element.
    #[inline(always)]
    pub fn is_active(&self, vm: bool, index: u32) -> bool
        requires { index < 128 }
        ensures { result ≡ is_active self.now.vl vm (register self.now 0) index }
    {
        index < self.vl && (vm || mask_bit(&self.registers[0], index as usize))
    }

    /// Whether an instruction with this mask bit works on all elements, whatever the mask holds.
    #[tactic(auto, using(crate::proofs::Actives::all_active))]
    #[inline(always)]
    pub fn is_full(&self, vm: bool) -> bool
        ensures { result ≡ true → active_in self.now vm ≡ replicate (count self.now) true }
    {
        vm && self.vl >= self.count()
    }

    /// The addresses of the active elements, element by element.
    #[tactic(auto, unfolding(crate::specs::Accesses::addresses_by))]
    #[inline(always)]
    pub fn addresses(&self, spacing: Spacing, vm: bool, base: u32) -> Numbers
        requires { has_vill self.now ≡ false }
        ensures { result ≡ addresses_by self.now spacing vm base }
    {
        let spacing = &spacing;
        let mut addresses = Numbers::new();
        for index in 0..self.count() {
            let address = base.wrapping_add(self.offset(*spacing, index));
            if self.is_active(vm, index) {
                addresses.push(address);
            }
        }
        addresses
    }

    /// The numbers of the active elements of a width, element by element.
    #[inline(always)]
    pub fn active_numbers(&self, width: ElementWidth, v: VReg, vm: bool) -> Numbers
        requires { has_vill self.now ≡ false }
        ensures { result ≡ active_numbers self.now width v vm }
    {
        let mut numbers = Numbers::new();
        for index in 0..self.count() {
            let number = self.element(width, v, index);
            if self.is_active(vm, index) {
                numbers.push(number);
            }
        }
        numbers
    }

    /// Writes the low bits of numbers to the active elements of a width, one after the other.
    pub fn load(&mut self, width: ElementWidth, vd: VReg, vm: bool, numbers: &[u32])
        requires { has_vill self.old ≡ false }
        ensures { self.new ≡ loaded self.old width vd vm numbers.now }
    {
        let active = self.active::<64>(vm, 0);
        self.fill(width, vd, &active[..self.count() as usize], numbers, 0);
    }

    /// Of the elements from `index` on each that is active takes the next number.
    fn fill(&mut self, width: ElementWidth, vd: VReg, active: &[bool], numbers: &[u32], index: u32)
        requires { index + length active.now ≤ 64 }
        ensures { self.new ≡ filled_from index self.old (spec.bits_of width) vd active.now numbers.now }
    {
        let [is_active, active @ ..] = active else {
            return;
        };
        if !*is_active {
            self.fill(width, vd, active, numbers, index + 1);
            return;
        }
        let [number, numbers @ ..] = numbers else {
            return;
        };
        self.put_element(width, vd, index, *number);
        self.fill(width, vd, active, numbers, index + 1);
    }

    /// Writes the low bits of a number to an element of a width, of those of the registers from one on.
    #[inline(always)]
    pub fn put_element(&mut self, width: ElementWidth, v: VReg, index: u32, number: u32)
        requires { index < 64 }
        ensures { self.new ≡ with_element_from self.old (spec.bits_of width) v index number }
    {
        let index = index as usize;
        match width {
            ElementWidth::Bits8 => self.put(u8::from_u32(number), v, index / 16, index % 16),
            ElementWidth::Bits16 => self.put(u16::from_u32(number), v, index / 8, index % 8),
            ElementWidth::Bits32 => self.put(u32::from_u32(number), v, index / 4, index % 4),
        }
    }

    /// Writes an element of a register of a group; beyond the last register nothing.
    #[inline(always)]
    fn put<K: LaneKind>(&mut self, value: K, v: VReg, part: usize, index: usize)
        requires part { part < 64 }
        requires index { index < 128 / K.width }
        ensures { self.new ≡ with_register self.old (v + part) (with_element K.width (register self.old (v + part))
            index (K.number value)) }
    {
        let at = v.number() as usize + part;
        if at < 32 {
            value.write(&mut self.registers[at], index);
        }
    }

    /// Whether elements are words, an instruction that isn't masked works on all of a group, and a register begins one.
    #[tactic(auto, using(crate::proofs::Whole::is_multiple))]
    #[inline(always)]
    pub fn takes_words(&self, v: VReg) -> bool
        ensures configured { result ≡ true → has_vill self.now ≡ false }
        ensures words { result ≡ true → width self.now ≡ 32 }
        ensures full { result ≡ true → count self.now ≤ self.now.vl }
        ensures placed { result ≡ true → v % group self.now ≡ 0 }
    {
        self.is_whole() && !self.is_inside(v)
    }

    /// A word of a register of a group.
    #[tactic(auto, using(crate::proofs::Whole::word_held))]
    #[inline(always)]
    fn held_word(&self, v: VReg, part: usize, index: usize) -> u32
        requires part { v + part < 32 }
        requires index { index < 4 }
        ensures { result ≡ element_from self.now 32 v (4 * part + index) }
    {
        u32::read(&self.registers[v.number() as usize + part], index)
    }

    /// Writes a word of a register of a group.
    #[tactic(auto, using(crate::proofs::Whole::word_put))]
    #[inline(always)]
    fn hold_word(&mut self, v: VReg, part: usize, index: usize, word: u32)
        requires part { v + part < 32 }
        requires index { index < 4 }
        ensures { self.new ≡ with_element_from self.old 32 v (4 * part + index) word }
    {
        let at = v.number() as usize + part;
        word.write(&mut self.registers[at], index);
    }

    /// The four words of a register of a group.
    #[inline(always)]
    pub fn four_words(&self, v: VReg, part: usize) -> [u32; 4]
        requires { v + part < 32 }
        ensures { result ≡ element_from self.now 32 v (4 * part) ∷ element_from self.now 32 v (4 * part + 1)
            ∷ element_from self.now 32 v (4 * part + 2) ∷ element_from self.now 32 v (4 * part + 3) ∷ [] }
    {
        [
            self.held_word(v, part, 0),
            self.held_word(v, part, 1),
            self.held_word(v, part, 2),
            self.held_word(v, part, 3),
        ]
    }

    /// Writes the four words of a register of a group.
    #[inline(always)]
    pub fn put_four_words(&mut self, v: VReg, part: usize, words: [u32; 4])
        requires { v + part < 32 }
        ensures { self.new ≡ with_element_from (with_element_from (with_element_from (with_element_from self.old
            32 v (4 * part) (slice_index words 0)) 32 v (4 * part + 1) (slice_index words 1))
            32 v (4 * part + 2) (slice_index words 2)) 32 v (4 * part + 3) (slice_index words 3) }
    {
        self.hold_word(v, part, 0, words[0]);
        self.hold_word(v, part, 1, words[1]);
        self.hold_word(v, part, 2, words[2]);
        self.hold_word(v, part, 3, words[3]);
    }
}
