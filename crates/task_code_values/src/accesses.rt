//! Single loads and stores, at a register and an offset.

ghost use Rattle.std.specs.Prelude.{◌≡◌, ◌<◌, [], ◌∷◌, OnOk};
ghost use Rattle.rv_insn.specs.declared.instructions.Insn.TheVariants.{Load as Fetch, Store as Save};
ghost use Rattle.rv_insn.specs.declared.operations.StoreOp.TheVariants.{Sw};
ghost use Rattle.task_code_scalar.specs.Code.{lower, pixel_bytes};
ghost use Rattle.task_code_scalar.specs.Evaluation.{load_op};
ghost use Rattle.task_code_scalar.specs.Words.{Emits};

use rv_insn::{Insn, LoadOp, StoreOp};
use std::alloc::AllocError;
use task_code_registers::numbers::lower_part;
use task_code_scalar::instructions::{put, register};
use task_code_scalar::layouts::Pixels;

/// How many bytes a pixel takes.
pub fn bytes_of(pixels: Pixels) -> u32
    ensures { result ≡ pixel_bytes pixels }
{
    match pixels {
        Pixels::Words => 4,
        Pixels::Bytes => 1,
    }
}

fn load_of(pixels: Pixels) -> LoadOp
    ensures { result ≡ load_op pixels }
{
    match pixels {
        Pixels::Words => LoadOp::Lw,
        Pixels::Bytes => LoadOp::Lbu,
    }
}

/// Appends a load of a pixel.
///
/// # Errors
///
/// Memory ran out.
pub fn emit_fetch(
    code: &mut Vec<u32>,
    pixels: Pixels,
    r: u8,
    base: u8,
    offset: u32,
) -> Result<(), AllocError>
    requires { (r < 32) × (base < 32) }
    ensures { OnOk result (Emits code.old.items code.new.items (Fetch (load_op pixels) r base (lower offset) ∷ [])) }
{
    let op = load_of(pixels);
    let rd = register(r);
    let rs1 = register(base);
    let imm = lower_part(offset);
    put(code, &Insn::Load { op, rd, rs1, imm })?;
    Ok(())
}

/// Appends a store of a register's word.
///
/// # Errors
///
/// Memory ran out.
pub fn emit_save(code: &mut Vec<u32>, base: u8, s: u8, offset: u32) -> Result<(), AllocError>
    requires { (base < 32) × (s < 32) }
    ensures { OnOk result (Emits code.old.items code.new.items (Save Sw base s (lower offset) ∷ [])) }
{
    let rs1 = register(base);
    let rs2 = register(s);
    let imm = lower_part(offset);
    put(
        code,
        &Insn::Store {
            op: StoreOp::Sw,
            rs1,
            rs2,
            imm,
        },
    )?;
    Ok(())
}
