//! Loads of pixels, one for each iteration.

ghost use Rattle.std.specs.Prelude.{◌≡◌, ◌+◌, ◌<◌, ◌%◌, ◌^◌, List, ℕ, IfOk, IfSome, OnOk, true};
ghost use Rattle.loop_ir.specs.declared.expressions.Expr.{Expr as Exprs};
ghost use Rattle.loop_ir.specs.declared.expressions.Expr.TheVariants.{Load as loaded};
ghost use Rattle.task_code_registers.specs.Strides.{strides};
ghost use Rattle.task_code_values.specs.Operands.{IsSum};
ghost use Rattle.task_code_lanes.specs.Groups.{slots};
ghost use Rattle.task_code_scalar.specs.declared.layouts.Places.{Places as AllPlaces};
ghost use Rattle.task_code_lane_values.specs.Leaving.{MakesDistances, MakesLanes};
ghost use Rattle.task_code_lane_values.specs.inner.Parts.{IsLoopInvariant, MakesPoint, MakesRowPointer};

use crate::loads::{emit_along, emit_from, emit_offsets, emit_strided};
use crate::operations::{emit_by, emit_two};
use crate::scalars::{emit_form_operand, emit_invariant, emit_literal};
use crate::sums::emit_steps;
use crate::vectorized::{LaneSite, VectorLanes};
use halide_pipeline::{Operation, Source, words};
use loop_ir::expressions::{Counter, Expr, Linear};
use rv_insn::AluOp;
use std::alloc::{AllocError, Global};
use task_code_registers::holding::{at_value, stride_of};
use task_code_registers::numbers::{emit_number, emit_times};
use task_code_registers::points::point_form;
use task_code_registers::registers::{ADDRESS, FIRST_VALUE};
use task_code_registers::scopes::Held;
use task_code_scalar::CodeFault;
use task_code_scalar::instructions::alu;
use task_code_scalar::layouts::{BufferLayout, Pixels, place_of};
use task_code_values::accesses::bytes_of;
use task_code_values::expressions::sum_of;

// ---- points of two sums

/// The column and the row of a point, where both are sums.
#[derive(Debug)]
pub(crate) struct PointSums {
    pub x: Linear,
    pub y: Linear,
}

impl Drop for PointSums {
    fn drop(self) {
        let PointSums { x, y } = self;
        drop(x);
        drop(y);
    }
}

/// Both of a point's indexes as sums, where they are.
pub(crate) fn both_sums(alloc: Global, x: &Expr, y: &Expr) -> Result<Option<PointSums>, AllocError>
    ensures { IfOk result (λ found. IfSome found (λ sums. IsSum x.now sums.x × IsSum y.now sums.y)) }
{
    match sum_of(alloc, x)? {
        None => Ok(None),
        Some(column) => match sum_of(alloc, y)? {
            None => Ok(None),
            Some(row) => Ok(Some(PointSums { x: column, y: row })),
        },
    }
}

/// Appends a load of the pixels at two sums: they lie one after the other, or at another stride.
pub(crate) fn emit_point(
    alloc: Global,
    code: &mut Vec<u32>,
    site: &LaneSite<'_>,
    source: Source,
    sums: &PointSums,
    k: u8,
) -> Result<(), CodeFault>
    requires { k < slots site.now.lanes.group }
    ensures { OnOk result (MakesPoint code.old.items code.new.items site.now.places.now site.now.scope.now
        site.now.lanes k source sums.now.x sums.now.y) }
{
    let place = place_of(site.places, source);
    let form = point_form(alloc, &place, &sums.x, &sums.y)?;
    let stride = stride_of(form.sum.terms.as_slice(), site.lanes.counter);
    let start = at_value(alloc, &form, site.lanes.counter, 0)?;
    if stride == bytes_of(place.pixels) {
        let b = emit_form_operand(alloc, code, site.scope, &start)?;
        emit_along(code, site.lanes.group, place.pixels, k, b)?;
        return Ok(());
    }
    match place.pixels {
        Pixels::Words => {
            emit_number(code, FIRST_VALUE, stride)?;
            let b = emit_form_operand(alloc, code, site.scope, &start)?;
            emit_strided(code, site.lanes.group, k, b, FIRST_VALUE)?;
            Ok(())
        }
        Pixels::Bytes => {
            emit_steps(alloc, code, site.scope, site.lanes, stride, k)?;
            let b = emit_form_operand(alloc, code, site.scope, &start)?;
            emit_from(code, site.lanes.group, place.pixels, k, b)?;
            Ok(())
        }
    }
}

// ---- points of a row that all iterations have

/// A row of a buffer that all iterations have.
#[derive(Clone, Copy)]
pub(crate) struct BufferRow<'a> {
    pub source: Source,
    pub y: &'a Expr,
}

/// Appends what makes a register point to a column of the first iteration in a row that all have.
fn emit_row_pointer(
    alloc: Global,
    code: &mut Vec<u32>,
    site: &LaneSite<'_>,
    layout: &BufferLayout,
    x: &Linear,
    y: &Expr,
) -> Result<u8, CodeFault>
    ensures { IfOk result (λ s. MakesRowPointer code.old.items code.new.items site.now.places.now
        site.now.scope.now site.now.lanes s layout.now x.now y.now) }
{
    match sum_of(alloc, y)? {
        Some(row) => {
            let form = point_form(alloc, layout, x, &row)?;
            let start = at_value(alloc, &form, site.lanes.counter, 0)?;
            let s = emit_form_operand(alloc, code, site.scope, &start)?;
            Ok(s)
        }
        None => {
            let row = words::multiply(bytes_of(layout.pixels), layout.width);
            let zero = Linear::of_number(alloc, 0);
            let form = point_form(alloc, layout, x, &zero)?;
            let start = at_value(alloc, &form, site.lanes.counter, 0)?;
            let t = emit_invariant(alloc, code, site, y)?;
            emit_times(code, FIRST_VALUE, t, row)?;
            let b = emit_form_operand(alloc, code, site.scope, &start)?;
            alu(code, AluOp::Add, ADDRESS, b, FIRST_VALUE)?;
            Ok(ADDRESS)
        }
    }
}

/// The column that an expression is, where it goes on by one pixel an iteration.
pub(crate) fn dense_column(
    alloc: Global,
    e: &Expr,
    counter: Counter,
) -> Result<Option<Linear>, AllocError>
    ensures { IfOk result (λ found. IfSome found (λ sum. IsSum e.now sum × (strides counter sum.terms % 2 ^ 32 ≡ 1))) }
{
    match sum_of(alloc, e)? {
        None => Ok(None),
        Some(sum) => {
            if stride_of(sum.terms.as_slice(), counter) == 1 {
                Ok(Some(sum))
            } else {
                Ok(None)
            }
        }
    }
}

/// Appends a load of the pixels from a column on, in a row that all iterations have.
pub(crate) fn emit_row(
    alloc: Global,
    code: &mut Vec<u32>,
    site: &LaneSite<'_>,
    row: &BufferRow<'_>,
    column: &Linear,
    k: u8,
) -> Result<(), CodeFault>
    requires slot { k < slots site.now.lanes.group }
    requires stride { strides site.now.lanes.counter column.now.terms % 2 ^ 32 ≡ 1 }
    requires row { IsLoopInvariant site.now.lanes.counter row.now.y.now }
    ensures { OnOk result ((x : Exprs) → IsSum x column.now
        → MakesLanes code.old.items code.new.items site.now.places.now site.now.scope.now site.now.lanes k
        (loaded row.now.source x row.now.y.now)) }
{
    let place = place_of(site.places, row.source);
    let b = emit_row_pointer(alloc, code, site, &place, column, row.y)?;
    emit_along(code, site.lanes.group, place.pixels, k, b)?;
    Ok(())
}

/// Appends a load of the pixels at columns in lanes, in a row that all iterations have.
pub(crate) fn emit_gather(
    alloc: Global,
    code: &mut Vec<u32>,
    site: &LaneSite<'_>,
    row: &BufferRow<'_>,
    k: u8,
) -> Result<(), CodeFault>
    requires slot { k < slots site.now.lanes.group }
    requires row { IsLoopInvariant site.now.lanes.counter row.now.y.now }
    ensures { OnOk result ((before : List ℕ) (x : Exprs) → MakesLanes before code.old.items site.now.places.now
        site.now.scope.now site.now.lanes k x
        → MakesLanes before code.new.items site.now.places.now site.now.scope.now site.now.lanes k
        (loaded row.now.source x row.now.y.now)) }
{
    let place = place_of(site.places, row.source);
    emit_offsets(code, site.lanes.group, place.pixels, k)?;
    let zero = Linear::of_number(alloc, 0);
    let b = emit_row_pointer(alloc, code, site, &place, &zero, row.y)?;
    emit_from(code, site.lanes.group, place.pixels, k, b)?;
    Ok(())
}

// ---- points that lie anywhere

/// Appends what makes of columns in the lanes of a group and rows in those of the next one how many bytes after a
/// buffer's first pixel they lie.
pub(crate) fn emit_distances(
    alloc: Global,
    code: &mut Vec<u32>,
    scope: &[Held],
    lanes: VectorLanes,
    layout: &BufferLayout,
    k: u8,
) -> Result<(), CodeFault>
    requires { k + 1 < slots lanes.group }
    ensures { OnOk result ((places : AllPlaces) (before middle : List ℕ) (x y : Exprs)
        → MakesLanes before middle places scope.now lanes k x
        → MakesLanes middle code.old.items places scope.now lanes (k + 1) y
        → MakesDistances before code.new.items places scope.now lanes k layout.now x y) }
{
    let s = emit_literal(alloc, code, scope, lanes, layout.width)?;
    emit_by(code, lanes.group, Operation::Multiply, k + 1, s)?;
    emit_two(code, lanes.group, Operation::Add, k)?;
    emit_offsets(code, lanes.group, layout.pixels, k)?;
    Ok(())
}

/// Appends a load of the pixels at columns in the lanes of a group and rows in those of the next one.
pub(crate) fn emit_scattered(
    alloc: Global,
    code: &mut Vec<u32>,
    site: &LaneSite<'_>,
    source: Source,
    k: u8,
) -> Result<(), CodeFault>
    requires { k + 1 < slots site.now.lanes.group }
    ensures { OnOk result ((before middle : List ℕ) (x y : Exprs)
        → MakesLanes before middle site.now.places.now site.now.scope.now site.now.lanes k x
        → MakesLanes middle code.old.items site.now.places.now site.now.scope.now site.now.lanes (k + 1) y
        → MakesLanes before code.new.items site.now.places.now site.now.scope.now site.now.lanes k
        (loaded source x y)) }
{
    let place = place_of(site.places, source);
    let zero = Linear::of_number(alloc, 0);
    let form = point_form(alloc, &place, &zero, &zero)?;
    let start = at_value(alloc, &form, site.lanes.counter, 0)?;
    emit_distances(alloc, code, site.scope, site.lanes, &place, k)?;
    let b = emit_form_operand(alloc, code, site.scope, &start)?;
    emit_from(code, site.lanes.group, place.pixels, k, b)?;
    Ok(())
}
