//! Values of an instruction's fields, from the numbers there.

ghost use Rattle.std.specs.Prelude.{◌≡◌, ◌<◌, pos, negsuc, length};
ghost use Rattle.rv_insn.specs.Encoding.{bit_of};
ghost use Rattle.assembler_mnemonics.specs.Slots.{field_at, IsWithin};

use crate::fields::Fields;
use rv_insn::{
    BranchOffset, Imm5, Imm12, Imm20, JumpOffset, Length5, Reg, ShiftAmount, VReg, Vtype10, Vtype11,
};

/// An integer register, from a field that has one.
pub fn integer_at(fields: &Fields, field: usize) -> Reg
    requires place { field < length fields.now }
    requires range { IsWithin fields.now field (pos 0) (pos 31) }
    ensures { pos result ≡ field_at fields.now field }
{
    Reg::new(fields.get(field) as u8).unwrap()
}

/// A vector register, from a field that has one.
pub fn vector_at(fields: &Fields, field: usize) -> VReg
    requires place { field < length fields.now }
    requires range { IsWithin fields.now field (pos 0) (pos 31) }
    ensures { pos result ≡ field_at fields.now field }
{
    VReg::new(fields.get(field) as u8).unwrap()
}

/// A shift's amount, from a field that has one.
pub fn amount_at(fields: &Fields, field: usize) -> ShiftAmount
    requires place { field < length fields.now }
    requires range { IsWithin fields.now field (pos 0) (pos 31) }
    ensures { pos result ≡ field_at fields.now field }
{
    ShiftAmount::new(fields.get(field) as u8).unwrap()
}

/// A number of elements, from a field that has one.
pub fn length_at(fields: &Fields, field: usize) -> Length5
    requires place { field < length fields.now }
    requires range { IsWithin fields.now field (pos 0) (pos 31) }
    ensures { pos result ≡ field_at fields.now field }
{
    Length5::new(fields.get(field) as u32).unwrap()
}

/// The upper 20 bits of a word, from a field that has one.
pub fn upper_at(fields: &Fields, field: usize) -> Imm20
    requires place { field < length fields.now }
    requires range { IsWithin fields.now field (pos 0) (pos 1048575) }
    ensures { pos result ≡ field_at fields.now field }
{
    Imm20::new(fields.get(field) as u32).unwrap()
}

/// A vtype of 10 bits, from a field that has one.
pub fn vtype_10_at(fields: &Fields, field: usize) -> Vtype10
    requires place { field < length fields.now }
    requires range { IsWithin fields.now field (pos 0) (pos 1023) }
    ensures { pos result ≡ field_at fields.now field }
{
    Vtype10::new(fields.get(field) as u32).unwrap()
}

/// A vtype of 11 bits, from a field that has one.
pub fn vtype_11_at(fields: &Fields, field: usize) -> Vtype11
    requires place { field < length fields.now }
    requires range { IsWithin fields.now field (pos 0) (pos 2047) }
    ensures { pos result ≡ field_at fields.now field }
{
    Vtype11::new(fields.get(field) as u32).unwrap()
}

/// A signed immediate of 12 bits, from a field that has one.
pub fn immediate_12_at(fields: &Fields, field: usize) -> Imm12
    requires place { field < length fields.now }
    requires range { IsWithin fields.now field (negsuc 2047) (pos 2047) }
    ensures { result ≡ field_at fields.now field }
{
    Imm12::new(fields.get(field) as i32).unwrap()
}

/// A signed immediate of 5 bits, from a field that has one.
pub fn immediate_5_at(fields: &Fields, field: usize) -> Imm5
    requires place { field < length fields.now }
    requires range { IsWithin fields.now field (negsuc 15) (pos 15) }
    ensures { result ≡ field_at fields.now field }
{
    Imm5::new(fields.get(field) as i32).unwrap()
}

/// A branch's half-words, from a field that has one.
pub fn branch_at(fields: &Fields, field: usize) -> BranchOffset
    requires place { field < length fields.now }
    requires range { IsWithin fields.now field (negsuc 2047) (pos 2047) }
    ensures { result ≡ field_at fields.now field }
{
    BranchOffset::new(fields.get(field) as i32).unwrap()
}

/// A jump's half-words, from a field that has one.
pub fn jump_at(fields: &Fields, field: usize) -> JumpOffset
    requires place { field < length fields.now }
    requires range { IsWithin fields.now field (negsuc 524287) (pos 524287) }
    ensures { result ≡ field_at fields.now field }
{
    JumpOffset::new(fields.get(field) as i32).unwrap()
}

/// A bit, from a field that has one.
pub fn flag_at(fields: &Fields, field: usize) -> bool
    requires place { field < length fields.now }
    requires range { IsWithin fields.now field (pos 0) (pos 1) }
    ensures { pos (bit_of result) ≡ field_at fields.now field }
{
    fields.get(field) == 1
}
