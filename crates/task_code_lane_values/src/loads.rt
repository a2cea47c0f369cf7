//! Loads of lanes from an address in a register on: one after the other, at a stride that a register holds, or at
//! distances that the lanes hold.

ghost use Rattle.std.specs.Prelude.{◌*◌, ◌%◌, ◌<◌, ◌^◌, OnOk};
ghost use Rattle.task_code_scalar.specs.declared.layouts.Pixels.TheVariants.{Bytes as bytes, Words as words};
ghost use Rattle.task_code_scalar.specs.Code.{pixel_bytes};
ghost use Rattle.task_code_lanes.specs.Groups.{slots};
ghost use Rattle.task_code_lane_values.specs.inner.Parts.{LoadsAlong, LoadsFrom, LoadsStrided, ComputesOne};

use rv_insn::{ArithmeticVvOp, ArithmeticVxOp};
use std::alloc::AllocError;
use task_code_lanes::groups::{BYTE_SPARE, LaneGroup};
use task_code_lanes::vectors::{
    arithmetic, arithmetic_by, clear_low_bits, load_at, load_byte_row, load_row, load_strided,
    times_eight, times_four,
};
use task_code_registers::numbers::emit_number;
use task_code_registers::registers::{SCRATCH, ZERO};
use task_code_scalar::layouts::Pixels;

/// All bits of a byte.
const BYTE_MASK: u32 = 255;

// ---- one after the other

fn emit_words_along(code: &mut Vec<u32>, group: LaneGroup, k: u8, b: u8) -> Result<(), AllocError>
    requires { (k < slots group) × (b < 32) }
    ensures { OnOk result (LoadsAlong code.old.items code.new.items group k b words) }
{
    load_row(code, group.slot(k), b)?;
    Ok(())
}

fn emit_bytes_along(code: &mut Vec<u32>, group: LaneGroup, k: u8, b: u8) -> Result<(), AllocError>
    requires { (k < slots group) × (b < 32) }
    ensures { OnOk result (LoadsAlong code.old.items code.new.items group k b bytes) }
{
    load_byte_row(code, group.slot(k), b, BYTE_SPARE)?;
    Ok(())
}

/// Appends a load of pixels that lie one after the other.
pub(crate) fn emit_along(
    code: &mut Vec<u32>,
    group: LaneGroup,
    pixels: Pixels,
    k: u8,
    b: u8,
) -> Result<(), AllocError>
    requires { (k < slots group) × (b < 32) }
    ensures { OnOk result (LoadsAlong code.old.items code.new.items group k b pixels) }
{
    match pixels {
        Pixels::Words => {
            emit_words_along(code, group, k, b)?;
            Ok(())
        }
        Pixels::Bytes => {
            emit_bytes_along(code, group, k, b)?;
            Ok(())
        }
    }
}

// ---- at a stride

/// Appends a load of words that lie as many bytes apart as a register holds.
pub(crate) fn emit_strided(
    code: &mut Vec<u32>,
    group: LaneGroup,
    k: u8,
    b: u8,
    s: u8,
) -> Result<(), AllocError>
    requires { (k < slots group) × ((b < 32) × (s < 32)) }
    ensures { OnOk result (LoadsStrided code.old.items code.new.items group k b s) }
{
    load_strided(code, group.slot(k), b, s)?;
    Ok(())
}

// ---- at distances

/// Appends what makes of numbers of pixels how many bytes they take.
pub(crate) fn emit_offsets(
    code: &mut Vec<u32>,
    group: LaneGroup,
    pixels: Pixels,
    k: u8,
) -> Result<(), AllocError>
    requires { k < slots group }
    ensures { OnOk result (ComputesOne code.old.items code.new.items group k (λ x. (x * pixel_bytes pixels) % 2 ^ 32)) }
{
    match pixels {
        Pixels::Words => {
            times_four(code, group.slot(k))?;
            Ok(())
        }
        Pixels::Bytes => Ok(()),
    }
}

fn emit_words_from(code: &mut Vec<u32>, group: LaneGroup, k: u8, b: u8) -> Result<(), AllocError>
    requires { (k < slots group) × (b < 32) }
    ensures { OnOk result (LoadsFrom code.old.items code.new.items group k b words) }
{
    load_at(code, group.slot(k), b)?;
    Ok(())
}

/// Appends loads of the words that hold bytes, and what cuts off those before and after them.
fn emit_bytes_from(code: &mut Vec<u32>, group: LaneGroup, k: u8, b: u8) -> Result<(), AllocError>
    requires { (k < slots group) × (b < 32) }
    ensures { OnOk result (LoadsFrom code.old.items code.new.items group k b bytes) }
{
    let r = group.slot(k);
    let u = group.spare();
    arithmetic_by(code, ArithmeticVxOp::Vadd, r, r, b)?;
    times_eight(code, u, r)?;
    clear_low_bits(code, r)?;
    load_at(code, r, ZERO)?;
    arithmetic(code, ArithmeticVvOp::Vsrl, r, r, u)?;
    emit_number(code, SCRATCH, BYTE_MASK)?;
    arithmetic_by(code, ArithmeticVxOp::Vand, r, r, SCRATCH)?;
    Ok(())
}

/// Appends a load of pixels at distances.
pub(crate) fn emit_from(
    code: &mut Vec<u32>,
    group: LaneGroup,
    pixels: Pixels,
    k: u8,
    b: u8,
) -> Result<(), AllocError>
    requires { (k < slots group) × (b < 32) }
    ensures { OnOk result (LoadsFrom code.old.items code.new.items group k b pixels) }
{
    match pixels {
        Pixels::Words => {
            emit_words_from(code, group, k, b)?;
            Ok(())
        }
        Pixels::Bytes => {
            emit_bytes_from(code, group, k, b)?;
            Ok(())
        }
    }
}
