//! The vector state of a hart.

ghost use Rattle.std.specs.Prelude.{◌≡◌, ◌<◌, ◌≤◌, ◌+◌, true, false, [], slice_index_or};
ghost use Rattle.vector_unit.specs.Vector.{register, with_register, opening_vector_state, has_vill};
ghost use Rattle.vector_unit.specs.Vector.{group};
ghost use Rattle.vector_unit.specs.inner.Wholes.{IsWhole};

use crate::vtypes::group_of;
use rv_insn::VReg;
use std::marker::Model;

/// A vtype that configures nothing: the bit vill alone.
pub const VILL: u32 = 0x8000_0000;

/// How many elements a group would have under that vtype, if it were one of this machine's.
pub(crate) const VILL_COUNT: u32 = 16;

/// The 32 vector registers of 16 bytes, the number of elements that instructions work on, and the
/// configuration as the vtype register spells it. A contract sees them as `VectorState`.
#[derive(Drop)]
pub struct VectorState {
    pub(crate) registers: [[u8; 16]; 32],
    pub(crate) vl: u32,
    pub(crate) vtype: u32,
    /// How many elements a group has under the vtype, found once for all instructions.
    pub(crate) count: u32,
    /// Whether the vtype is one of this machine's.
    pub(crate) is_configured: bool,
    /// Whether elements are words, and instructions that aren't masked work on all of a group.
    pub(crate) is_whole: bool,
}

impl Model for VectorState {
    ghost use Rattle.std.specs.Prelude.{◌≡◌};
    ghost use Rattle.vector_unit.specs.Vector.{Vectors, most_elements, is_supported};
    ghost use Rattle.vector_unit.specs.inner.Wholes.{is_whole_of};

    ghost Value = { Vectors };

    ghost view = { λ s. record { registers = s.registers; vl = s.vl; vtype = s.vtype } };

    ghost invariant = { λ s. (s.count ≡ most_elements s.vtype) × (s.is_configured ≡ is_supported s.vtype) ×
        (s.is_whole ≡ is_whole_of s.vtype s.vl) };
}

impl VectorState {
    /// All registers 0, no elements, and no configuration.
    pub fn new() -> VectorState
        ensures { result ≡ opening_vector_state }
    {
        VectorState {
            registers: [[0; 16]; 32],
            vl: 0,
            vtype: VILL,
            count: VILL_COUNT,
            is_configured: false,
            is_whole: false,
        }
    }

    /// The same state once more.
    pub fn duplicate(&self) -> VectorState
        ensures { result ≡ self.now }
    {
        VectorState {
            registers: self.registers,
            vl: self.vl,
            vtype: self.vtype,
            count: self.count,
            is_configured: self.is_configured,
            is_whole: self.is_whole,
        }
    }

    /// The 16 bytes of a register, byte 0 first.
    pub fn register(&self, v: VReg) -> [u8; 16]
        ensures value { result ≡ register self.now v }
        ensures held { result ≡ slice_index_or self.now.registers v [] }
    {
        self.registers[v.number() as usize]
    }

    /// Writes a register.
    pub fn set_register(&mut self, v: VReg, bytes: [u8; 16])
        ensures { self.new ≡ with_register self.old v bytes }
    {
        self.registers[v.number() as usize] = bytes;
    }

    /// How many registers a group has.
    pub fn group(&self) -> usize
        ensures value { result ≡ group self.now }
        ensures few { has_vill self.now ≡ false → result ≤ 4 }
    {
        group_of(self.vtype) as usize
    }

    /// The 16 bytes of a register of a group; beyond the last register they are 0.
    pub(crate) fn part(&self, v: VReg, part: usize) -> [u8; 16]
        requires { part < 64 }
        ensures { result ≡ register self.now (v + part) }
    {
        let place = v.number() as usize + part;
        if place < 32 {
            self.registers[place]
        } else {
            [0; 16]
        }
    }

    /// Writes a register of a group; beyond the last register nothing.
    pub(crate) fn set_part(&mut self, v: VReg, part: usize, bytes: [u8; 16])
        requires { part < 64 }
        ensures { self.new ≡ with_register self.old (v + part) bytes }
    {
        let place = v.number() as usize + part;
        if place < 32 {
            self.registers[place] = bytes;
        }
    }

    /// The number of elements that instructions work on.
    pub fn vl(&self) -> u32
        ensures { result ≡ self.now.vl }
    {
        self.vl
    }

    /// The configuration, as the vtype register spells it.
    pub fn vtype(&self) -> u32
        ensures { result ≡ self.now.vtype }
    {
        self.vtype
    }

    /// Whether elements are words, and instructions that aren't masked work on all of a group.
    #[tactic(auto, using(crate::proofs::Whole::known_whole))]
    pub(crate) fn is_whole(&self) -> bool
        ensures { result ≡ true → IsWhole self.now }
    {
        self.is_whole
    }

    /// Whether there is no configuration.
    pub fn has_vill(&self) -> bool
        ensures { result ≡ has_vill self.now }
    {
        !self.is_configured
    }
}
