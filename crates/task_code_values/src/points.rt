//! Loads of points.

ghost use Rattle.std.specs.Prelude.{◌≡◌, ◌<◌, ◌+◌, ◌*◌, ◌%◌, ◌^◌};
ghost use Rattle.std.specs.Prelude.{◌≤◌, IfErr, OnOk, length, true};
ghost use Rattle.loop_ir.specs.declared.expressions.Linear.{Linear as Sums};
ghost use Rattle.task_code_scalar.specs.Code as spec;
ghost use Rattle.task_code_scalar.specs.Code.{pixel_bytes};
ghost use Rattle.task_code_scalar.specs.Faults.{IsFault};
ghost use Rattle.task_code_registers.specs.Emitting.{Makes};
ghost use Rattle.task_code_registers.specs.Registers.{IsPlace, IsSource};
ghost use Rattle.task_code_registers.specs.Scopes.{have_registers};
ghost use Rattle.task_code_values.specs.declared.points.PointIndex.TheVariants as indexes;
ghost use Rattle.task_code_values.specs.Making.{IsStack};
ghost use Rattle.task_code_values.specs.Operands.{MakesPixel, StandsIn};
ghost use Rattle.task_code_values.specs.Points.{HaveIndex, LoadsBehind, LoadsPoint};

use crate::accesses::{bytes_of, emit_fetch};
use crate::operands::emit_reached_address;
use crate::sites::{BufferSite, Site};
use halide_pipeline::{Source, words};
use loop_ir::expressions::Linear;
use rv_insn::{AluImmOp, AluOp, ShiftOp};
use std::alloc::{AllocError, Global};
use task_code_registers::numbers::emit_times;
use task_code_registers::points::point_form;
use task_code_registers::registers::ADDRESS;
use task_code_scalar::CodeFault;
use task_code_scalar::instructions::{alu, alu_small, shift};
use task_code_scalar::layouts::{BufferLayout, Pixels, place_of};

/// An index of a point.
#[derive(Debug)]
pub enum PointIndex {
    /// A sum of loop variables, of which an address can be made.
    Sum(Linear),
    /// The register that holds it.
    Register(u8),
}

impl Drop for PointIndex {
    fn drop(self) {
        match self {
            PointIndex::Sum(own) => drop(own),
            PointIndex::Register(_) => {}
        }
    }
}

/// The indexes of a point.
#[derive(Debug)]
pub struct PointIndexes {
    pub column: PointIndex,
    pub row: PointIndex,
}

impl Drop for PointIndexes {
    fn drop(self) {
        let PointIndexes { column, row } = self;
        drop(column);
        drop(row);
    }
}

/// 2 to this is the number of bytes of a word.
const WORD_SHIFT: u8 = 2;

/// Appends what leaves this many pixels' bytes.
pub(crate) fn emit_scaled(
    code: &mut Vec<u32>,
    pixels: Pixels,
    r: u8,
    s: u8,
) -> Result<(), AllocError>
    requires { IsPlace r × IsSource s }
    ensures { OnOk result (Makes code.old.items code.new.items 1 r (λ f. (f s * pixel_bytes pixels) % 2 ^ 32)) }
{
    match pixels {
        Pixels::Words => {
            shift(code, ShiftOp::Slli, r, s, WORD_SHIFT)?;
            Ok(())
        }
        Pixels::Bytes => {
            alu_small(code, AluImmOp::Addi, r, s, 0)?;
            Ok(())
        }
    }
}

/// Appends a load of the point at two sums.
fn emit_point(
    alloc: Global,
    code: &mut Vec<u32>,
    buffer: &BufferSite<'_>,
    x: &Linear,
    y: &Linear,
    r: u8,
) -> Result<(), CodeFault>
    requires { IsStack r }
    ensures ok { OnOk result (LoadsPoint code.old.items code.new.items buffer.now.scope.now buffer.now.place.now x.now
        y.now r) }
    ensures err { IfErr result (IsFault ⊥ (have_registers buffer.now.scope.now x.now.terms ≡ true
        → have_registers buffer.now.scope.now y.now.terms ≡ true → ⊥)) }
{
    let form = point_form(alloc, buffer.place, x, y)?;
    let at = emit_reached_address(alloc, code, buffer.scope, &form, r)?;
    emit_fetch(code, buffer.place.pixels, r, at.register, at.offset)?;
    Ok(())
}

/// Appends a load of what lies this many bytes after such a point as a register says.
fn emit_behind(
    alloc: Global,
    code: &mut Vec<u32>,
    buffer: &BufferSite<'_>,
    x: &Linear,
    y: &Linear,
    r: u8,
) -> Result<(), CodeFault>
    requires { IsStack r }
    ensures ok { OnOk result (LoadsBehind code.old.items code.new.items buffer.now.scope.now buffer.now.place.now x.now
        y.now r) }
    ensures err { IfErr result (IsFault ⊥ (have_registers buffer.now.scope.now x.now.terms ≡ true
        → have_registers buffer.now.scope.now y.now.terms ≡ true → ⊥)) }
{
    let form = point_form(alloc, buffer.place, x, y)?;
    let at = emit_reached_address(alloc, code, buffer.scope, &form, ADDRESS)?;
    alu(code, AluOp::Add, r, r, at.register)?;
    emit_fetch(code, buffer.place.pixels, r, r, at.offset)?;
    Ok(())
}

/// Appends what leaves the bytes of this many whole rows.
fn emit_rows(code: &mut Vec<u32>, layout: &BufferLayout, r: u8, s: u8) -> Result<(), AllocError>
    requires { IsPlace r × IsSource s }
    ensures { OnOk result (Makes code.old.items code.new.items 3 r
        (λ f. (f s * ((pixel_bytes layout.now.pixels * layout.now.width) % 2 ^ 32)) % 2 ^ 32)) }
{
    let row = words::multiply(bytes_of(layout.pixels), layout.width);
    emit_times(code, r, s, row)?;
    Ok(())
}

/// Appends a load of the point at a sum and an index, which is above r where it is a register.
fn emit_at_column(
    alloc: Global,
    code: &mut Vec<u32>,
    buffer: &BufferSite<'_>,
    x: &Linear,
    row: &PointIndex,
    r: u8,
) -> Result<(), CodeFault>
    requires place { IsStack r }
    requires stands { StandsIn buffer.now.scope.now (r + 1) row.now }
    ensures ok { OnOk result (MakesPixel code.old.items code.new.items buffer.now.scope.now buffer.now.place.now
        (indexes.Sum x.now) row.now r) }
    ensures err { IfErr result (IsFault ⊥ (have_registers buffer.now.scope.now x.now.terms ≡ true
        → HaveIndex buffer.now.scope.now row.now → ⊥)) }
{
    match row {
        PointIndex::Sum(y) => emit_point(alloc, code, buffer, x, y, r),
        PointIndex::Register(t) => {
            let zero = Linear::of_number(alloc, 0);
            emit_rows(code, buffer.place, r, *t)?;
            emit_behind(alloc, code, buffer, x, &zero, r)
        }
    }
}

/// Appends a load of the point at two registers.
fn emit_at_registers(
    alloc: Global,
    code: &mut Vec<u32>,
    buffer: &BufferSite<'_>,
    s: u8,
    t: u8,
    r: u8,
) -> Result<(), CodeFault>
    requires place { IsStack r }
    requires column { IsSource s }
    requires stands { StandsIn buffer.now.scope.now (r + 1) (indexes.Register t) }
    ensures ok { OnOk result (MakesPixel code.old.items code.new.items buffer.now.scope.now buffer.now.place.now
        (indexes.Register s) (indexes.Register t) r) }
    ensures err { IfErr result (IsFault ⊥ ⊥) }
{
    let zero = Linear::of_number(alloc, 0);
    emit_scaled(code, buffer.place.pixels, r, s)?;
    emit_rows(code, buffer.place, r + 1, t)?;
    alu(code, AluOp::Add, r, r, r + 1)?;
    emit_behind(alloc, code, buffer, &zero, &zero, r)
}

/// Appends a load of the point at a register and an index, which is above r where it is a register too.
fn emit_from_column(
    alloc: Global,
    code: &mut Vec<u32>,
    buffer: &BufferSite<'_>,
    s: u8,
    row: &PointIndex,
    r: u8,
) -> Result<(), CodeFault>
    requires place { IsStack r }
    requires column { IsSource s }
    requires stands { StandsIn buffer.now.scope.now (r + 1) row.now }
    ensures ok { OnOk result (MakesPixel code.old.items code.new.items buffer.now.scope.now buffer.now.place.now
        (indexes.Register s) row.now r) }
    ensures err { IfErr result (IsFault ⊥ (HaveIndex buffer.now.scope.now row.now → ⊥)) }
{
    match row {
        PointIndex::Sum(y) => {
            let zero = Linear::of_number(alloc, 0);
            emit_scaled(code, buffer.place.pixels, r, s)?;
            emit_behind(alloc, code, buffer, &zero, y, r)
        }
        PointIndex::Register(t) => emit_at_registers(alloc, code, buffer, s, *t, r),
    }
}

/// Appends a load of a source's point at two indexes. Where both are registers the second is above r.
///
/// # Errors
///
/// Memory ran out, or a loop variable has no register and no held form makes up for it.
pub fn emit_pixel(
    alloc: Global,
    code: &mut Vec<u32>,
    site: &Site<'_>,
    source: Source,
    point: &PointIndexes,
    r: u8,
) -> Result<(), CodeFault>
    requires place { IsStack r }
    requires first { StandsIn site.now.scope.now r point.now.column }
    requires second { StandsIn site.now.scope.now (r + 1) point.now.row }
    ensures ok { OnOk result (MakesPixel code.old.items code.new.items site.now.scope.now
        (spec.place_of site.now.places.now source) point.now.column point.now.row r) }
    ensures err { IfErr result (IsFault ⊥ (HaveIndex site.now.scope.now point.now.column
        → HaveIndex site.now.scope.now point.now.row → ⊥)) }
{
    let place = place_of(site.places, source);
    let buffer = BufferSite {
        place: &place,
        scope: site.scope,
    };
    match &point.column {
        PointIndex::Sum(x) => emit_at_column(alloc, code, &buffer, x, &point.row, r),
        PointIndex::Register(s) => emit_from_column(alloc, code, &buffer, *s, &point.row, r),
    }
}
