//! Addresses of points whose indexes may be computed.

ghost use Rattle.std.specs.Prelude.{◌≡◌, ◌*◌, ◌%◌, ◌^◌, IfErr, IfOk, OnOk, true};
ghost use Rattle.task_code_scalar.specs.Code.{pixel_bytes};
ghost use Rattle.task_code_scalar.specs.Faults.{IsFault};
ghost use Rattle.task_code_registers.specs.Emitting.{Makes};
ghost use Rattle.task_code_registers.specs.Scopes.{have_registers};
ghost use Rattle.task_code_values.specs.Making.{IsStack};
ghost use Rattle.task_code_values.specs.Operands.{StandsIn};
ghost use Rattle.task_code_values.specs.Points.{HaveIndex};
ghost use Rattle.task_code_values.specs.Scattering as spec;
ghost use Rattle.task_code_values.specs.Scattering.{HasSource, IsSumPart, ReachesBehind, ReachesPoint};
ghost use Rattle.task_code_values.specs.Scattering.{StandsBeside};

use crate::accesses::bytes_of;
use crate::operands::emit_reached_address;
use crate::points::{PointIndex, PointIndexes, emit_scaled};
use crate::sites::BufferSite;
use halide_pipeline::words;
use loop_ir::expressions::Linear;
use rv_insn::AluOp;
use std::alloc::{AllocError, Global};
use task_code_registers::numbers::{emit_number, emit_times};
use task_code_registers::points::point_form;
use task_code_registers::registers::{ADDRESS, SECOND_SCRATCH};
use task_code_scalar::CodeFault;
use task_code_scalar::instructions::alu;
use task_code_scalar::layouts::BufferLayout;

/// The part of an index that is a sum.
fn sum_part(alloc: Global, index: &PointIndex) -> Result<Linear, AllocError>
    ensures { IfOk result (IsSumPart index.now) }
{
    match index {
        PointIndex::Sum(own) => {
            let sum = own.copy(alloc)?;
            Ok(sum)
        }
        PointIndex::Register(_) => Ok(Linear::of_number(alloc, 0)),
    }
}

/// Appends what leaves the bytes of as many pixels as a register holds where an index is one, else 0.
fn emit_columns(
    code: &mut Vec<u32>,
    layout: &BufferLayout,
    column: &PointIndex,
    r: u8,
) -> Result<(), AllocError>
    requires place { IsStack r }
    requires source { HasSource column.now }
    ensures { OnOk result (Makes code.old.items code.new.items (spec.column_words column.now) r
        (λ f. (spec.register_part column.now f * pixel_bytes layout.now.pixels) % 2 ^ 32)) }
{
    match column {
        PointIndex::Sum(_) => {
            emit_number(code, r, 0)?;
            Ok(())
        }
        PointIndex::Register(s) => {
            emit_scaled(code, layout.pixels, r, *s)?;
            Ok(())
        }
    }
}

/// Appends what adds the bytes of as many rows as a register holds where an index is one.
fn emit_rows_added(
    code: &mut Vec<u32>,
    layout: &BufferLayout,
    row: &PointIndex,
    r: u8,
) -> Result<(), AllocError>
    requires place { IsStack r }
    requires source { HasSource row.now }
    ensures { OnOk result (Makes code.old.items code.new.items 4 r (spec.with_rows layout.now row.now r)) }
{
    match row {
        PointIndex::Sum(_) => Ok(()),
        PointIndex::Register(t) => {
            let bytes = words::multiply(bytes_of(layout.pixels), layout.width);
            emit_times(code, SECOND_SCRATCH, *t, bytes)?;
            alu(code, AluOp::Add, r, r, SECOND_SCRATCH)?;
            Ok(())
        }
    }
}

/// Appends what makes the address of what lies this many bytes after the point of two sums as r says: it is r and the
/// offset that is returned.
fn reach_behind(
    alloc: Global,
    code: &mut Vec<u32>,
    buffer: &BufferSite<'_>,
    x: &Linear,
    y: &Linear,
    r: u8,
) -> Result<u32, CodeFault>
    requires { IsStack r }
    ensures ok { IfOk result (ReachesBehind code.old.items code.new.items buffer.now.scope.now buffer.now.place.now
        x.now y.now r) }
    ensures err { IfErr result (IsFault ⊥ (have_registers buffer.now.scope.now x.now.terms ≡ true
        → have_registers buffer.now.scope.now y.now.terms ≡ true → ⊥)) }
{
    let form = point_form(alloc, buffer.place, x, y)?;
    let at = emit_reached_address(alloc, code, buffer.scope, &form, ADDRESS)?;
    alu(code, AluOp::Add, r, r, at.register)?;
    Ok(at.offset)
}

/// Appends what makes the address of the point at two indexes: it is r and the offset that is returned. A row that
/// is in a register is in another one than r.
///
/// # Errors
///
/// Memory ran out, or a loop variable has no register and no held form makes up for it.
pub fn reach_point(
    alloc: Global,
    code: &mut Vec<u32>,
    buffer: &BufferSite<'_>,
    point: &PointIndexes,
    r: u8,
) -> Result<u32, CodeFault>
    requires place { IsStack r }
    requires first { StandsIn buffer.now.scope.now r point.now.column }
    requires second { StandsBeside buffer.now.scope.now r point.now.row }
    ensures ok { IfOk result (ReachesPoint code.old.items code.new.items buffer.now.scope.now buffer.now.place.now
        point.now.column point.now.row r) }
    ensures err { IfErr result (IsFault ⊥ (HaveIndex buffer.now.scope.now point.now.column
        → HaveIndex buffer.now.scope.now point.now.row → ⊥)) }
{
    let x = sum_part(alloc, &point.column)?;
    let y = sum_part(alloc, &point.row)?;
    emit_columns(code, buffer.place, &point.column, r)?;
    emit_rows_added(code, buffer.place, &point.row, r)?;
    let offset = reach_behind(alloc, code, buffer, &x, &y, r)?;
    Ok(offset)
}
