//! Operands as a listing has them.

ghost use Rattle.std.specs.Prelude.{◌≡◌, ◌++◌, ◌<◌, ◌∷◌, length, OnOk, if◌then◌else◌, []};
ghost use Rattle.std.specs.String.{string_bytes};
ghost use Rattle.assembler_mnemonics.specs.Slots.{FitsSlot, FitsSlots};
ghost use Rattle.assembler_mnemonics.specs.Configuration.{width_names, group_names, tail_names, mask_names, width_code};
ghost use Rattle.assembler_mnemonics.specs.Configuration.{group_code, tail_code, mask_code, has_names, name_at};
ghost use Rattle.assembler_mnemonics.specs.Registers.{integer_letter, vector_letter};
ghost use Rattle.disassembler.specs.Listing as spec;
ghost use Rattle.disassembler.specs.Reaching.{Reaches, AllReach};

use crate::numbers::push_hexadecimal;
use assembler_mnemonics::{Fields, Slot};
use std::alloc::AllocError;

/// What is after a mnemonic: nothing where there are no slots, else a space and the operands with
/// commas between them.
#[tactic(auto, unfolding(crate::specs::Listing::operands_text))]
pub fn push_operands(text: &mut String, slots: &[Slot], fields: &Fields) -> Result<(), AllocError>
    requires within { AllReach (length fields.now) slots.now }
    requires fit { FitsSlots fields.now slots.now }
    ensures { OnOk result (string_bytes text.new ≡ string_bytes text.old ++ spec.operands_text slots.now fields.now) }
{
    let [first, others @ ..] = slots else {
        return Ok(());
    };
    text.push_str(" ")?;
    push_operand(text, *first, fields)?;
    push_later(text, others, fields)?;
    Ok(())
}

/// Later operands, each after a comma.
#[tactic(auto, unfolding(crate::specs::Listing::later_text))]
fn push_later(text: &mut String, slots: &[Slot], fields: &Fields) -> Result<(), AllocError>
    requires within { AllReach (length fields.now) slots.now }
    requires fit { FitsSlots fields.now slots.now }
    ensures { OnOk result (string_bytes text.new ≡ string_bytes text.old ++ spec.later_text slots.now fields.now) }
{
    let [slot, others @ ..] = slots else {
        return Ok(());
    };
    if is_written(*slot, fields) {
        text.push_str(",")?;
        push_operand(text, *slot, fields)?;
    }
    push_later(text, others, fields)?;
    Ok(())
}

/// Whether an operand is written: a mask that is 1 isn't.
fn is_written(slot: Slot, fields: &Fields) -> bool
    requires within { Reaches (length fields.now) slot }
    ensures { result ≡ spec.is_written slot fields.now }
{
    match slot {
        Slot::Mask(field) => fields.get(field) == 0,
        _ => true,
    }
}

/// The operand of a slot.
#[tactic(auto, unfolding(crate::specs::Listing::operand_text))]
fn push_operand(text: &mut String, slot: Slot, fields: &Fields) -> Result<(), AllocError>
    requires within { Reaches (length fields.now) slot }
    requires fit { FitsSlot fields.now slot }
    ensures { OnOk result (string_bytes text.new ≡ string_bytes text.old ++ spec.operand_text slot fields.now) }
{
    match slot {
        Slot::Integer(field) => push_integer(text, fields, field),
        Slot::Vector(field) => {
            let number = fields.get(field);
            write!(text, "v{number}")
        }
        Slot::MaskRegister => text.push_str("v0"),
        Slot::Number { field, .. } => {
            let number = fields.get(field);
            write!(text, "{number}")
        }
        Slot::Upper(field) => push_hexadecimal(text, 5, fields.get(field).unsigned_abs()),
        Slot::Based { offset, base } => {
            let number = fields.get(offset);
            write!(text, "{number}")?;
            push_address(text, fields, base)
        }
        Slot::Address(base) => push_address(text, fields, base),
        Slot::Target { field, .. } => {
            let bytes = fields.get(field) * 2;
            write!(text, "{bytes}")
        }
        Slot::Configuration { field, .. } => push_vtype(text, fields.get(field).unsigned_abs()),
        Slot::Mask(_) => text.push_str("v0.t"),
    }
}

/// `xN`
fn push_integer(text: &mut String, fields: &Fields, field: usize) -> Result<(), AllocError>
    requires { field < length fields.now }
    ensures { OnOk result (string_bytes text.new ≡ string_bytes text.old ++ spec.register_in integer_letter fields.now
        field) }
{
    let number = fields.get(field);
    write!(text, "x{number}")
}

/// `(xN)`
fn push_address(text: &mut String, fields: &Fields, field: usize) -> Result<(), AllocError>
    requires { field < length fields.now }
    ensures { OnOk result (string_bytes text.new ≡ string_bytes text.old
        ++ spec.bracketed (spec.register_in integer_letter fields.now field)) }
{
    let number = fields.get(field);
    write!(text, "(x{number})")
}

/// A vtype by its names where it has them, else by three hexadecimal digits.
#[tactic(auto, unfolding(crate::specs::Listing::vtype_text, crate::specs::Listing::names_text))]
fn push_vtype(text: &mut String, vtype: u64) -> Result<(), AllocError>
    ensures { OnOk result (string_bytes text.new ≡ string_bytes text.old ++ spec.vtype_text vtype) }
{
    if !has_names(vtype) {
        return push_hexadecimal(text, 3, vtype);
    }
    text.push_str(width_name(vtype))?;
    text.push_str(",")?;
    text.push_str(group_name(vtype))?;
    text.push_str(",")?;
    text.push_str(tail_name(vtype))?;
    text.push_str(",")?;
    text.push_str(mask_name(vtype))?;
    Ok(())
}

/// Whether a vtype is written by names.
fn has_names(vtype: u64) -> bool
    ensures { result ≡ has_names vtype }
{
    vtype < 256 && vtype % 8 < 3 && vtype / 8 % 8 < 3
}

// The names of a vtype's codes, of which vta is bit 6 and vma bit 7. Where a code has no name, none is
// asked for.
fn width_name(vtype: u64) -> &'static str
    ensures { result.now ≡ name_at width_names (width_code vtype) }
{
    match vtype / 8 % 8 {
        0 => "e8",
        1 => "e16",
        2 => "e32",
        _ => "",
    }
}

fn group_name(vtype: u64) -> &'static str
    ensures { result.now ≡ name_at group_names (group_code vtype) }
{
    match vtype % 8 {
        0 => "m1",
        1 => "m2",
        2 => "m4",
        _ => "",
    }
}

fn tail_name(vtype: u64) -> &'static str
    ensures { result.now ≡ name_at tail_names (tail_code vtype) }
{
    if vtype / 64 % 2 == 0 { "tu" } else { "ta" }
}

fn mask_name(vtype: u64) -> &'static str
    ensures { result.now ≡ name_at mask_names (mask_code vtype) }
{
    if vtype / 128 % 2 == 0 { "mu" } else { "ma" }
}
