//! Words of the hart's frame in which values wait.

ghost use Rattle.std.specs.Prelude.{◌≡◌, ◌<◌, ◌≤◌, IfOk, OnOk};
ghost use Rattle.task_code_scalar.specs.Code.{frames_of};
ghost use Rattle.task_code_registers.specs.Registers.{IsPlace};
ghost use Rattle.task_code_values.specs.Spilling.{HasSlot, IsFirst, IsSlot, MakesSlot, Spills, Unspills};

use crate::accesses::{emit_fetch, emit_save};
use crate::sites::Site;
use loop_ir::expressions::Linear;
use std::alloc::{AllocError, Global};
use task_code_registers::registers::ADDRESS;
use task_code_registers::scopes::{AffineForm, Held};
use task_code_registers::sums::{At, emit_address};
use task_code_scalar::layouts::Pixels;

/// How many bytes a hart's frame has.
const FRAME_BYTES: u32 = 4096;
/// How many bytes a word has.
const WORD_BYTES: u32 = 4;

/// Where frames begin; 0 where there are none.
fn start_of(frames: Option<u32>) -> u32
    ensures { result ≡ frames_of frames }
{
    match frames {
        Some(start) => start,
        None => 0,
    }
}

/// The address of a word of the hart's frame.
fn slot_form(alloc: Global, start: u32, word: u32) -> AffineForm
    requires { (start ≤ 4294901760) × (word < 1024) }
    ensures { IsSlot start word result }
{
    let sum = Linear::of_number(alloc, start + WORD_BYTES * word);
    AffineForm {
        sum,
        per_hart: FRAME_BYTES,
    }
}

/// Appends what makes the address of a word of the hart's frame.
fn emit_slot(
    alloc: Global,
    code: &mut Vec<u32>,
    scope: &[Held],
    frames: Option<u32>,
    word: u32,
) -> Result<At, AllocError>
    requires { HasSlot frames word }
    ensures { IfOk result (MakesSlot code.old.items code.new.items scope.now frames word) }
{
    let form = slot_form(alloc, start_of(frames), word);
    let at = emit_address(alloc, code, scope, &form, ADDRESS)?;
    Ok(at)
}

/// Appends what keeps a register in a word of the frame.
///
/// # Errors
///
/// Memory ran out.
pub fn emit_spill(
    alloc: Global,
    code: &mut Vec<u32>,
    site: &Site<'_>,
    s: u8,
    word: u32,
) -> Result<(), AllocError>
    requires slot { HasSlot site.now.places.now.frames word }
    requires source { IsFirst site.now.scope.now s }
    ensures { OnOk result (Spills code.old.items code.new.items site.now.places.now site.now.scope.now s word) }
{
    let at = emit_slot(alloc, code, site.scope, site.places.frames, word)?;
    emit_save(code, at.register, s, at.offset)?;
    Ok(())
}

/// Appends what loads it again.
///
/// # Errors
///
/// Memory ran out.
pub fn emit_unspill(
    alloc: Global,
    code: &mut Vec<u32>,
    site: &Site<'_>,
    word: u32,
    r: u8,
) -> Result<(), AllocError>
    requires slot { HasSlot site.now.places.now.frames word }
    requires place { IsPlace r }
    ensures { OnOk result (Unspills code.old.items code.new.items site.now.places.now site.now.scope.now word r) }
{
    let at = emit_slot(alloc, code, site.scope, site.places.frames, word)?;
    emit_fetch(code, Pixels::Words, r, at.register, at.offset)?;
    Ok(())
}
