//! Sums that go along with the iterations.

ghost use Rattle.std.specs.Prelude.{◌<◌, OnOk};
ghost use Rattle.halide_pipeline.specs.declared.expressions.Operation.TheVariants.{Multiply as product};
ghost use Rattle.halide_pipeline.specs.Words as word;
ghost use Rattle.loop_ir.specs.declared.expressions.Expr.TheVariants as expressions;
ghost use Rattle.task_code_scalar.specs.declared.layouts.Places.{Places as AllPlaces};
ghost use Rattle.task_code_lanes.specs.Groups.{slots};
ghost use Rattle.task_code_lane_values.specs.Leaving.{MakesLanes};
ghost use Rattle.task_code_lane_values.specs.inner.Parts.{MakesEach, NothingEach};

use crate::operations::emit_by;
use crate::scalars::{emit_form_operand, emit_literal};
use crate::vectorized::VectorLanes;
use halide_pipeline::Operation;
use loop_ir::expressions::Linear;
use std::alloc::Global;
use task_code_lanes::vectors::lane_numbers;
use task_code_registers::holding::{at_value, stride_of};
use task_code_registers::scopes::{AffineForm, Held};
use task_code_scalar::CodeFault;

/// Appends what leaves each iteration's number times a stride.
pub(crate) fn emit_steps(
    alloc: Global,
    code: &mut Vec<u32>,
    scope: &[Held],
    lanes: VectorLanes,
    stride: u32,
    k: u8,
) -> Result<(), CodeFault>
    requires { k < slots lanes.group }
    ensures { OnOk result ((places : AllPlaces) → MakesEach code.old.items code.new.items places scope.now lanes k
        NothingEach (λ reads values i. word.applied product i stride)) }
{
    lane_numbers(code, lanes.group.slot(k))?;
    if stride == 1 {
        return Ok(());
    }
    let s = emit_literal(alloc, code, scope, lanes, stride)?;
    emit_by(code, lanes.group, Operation::Multiply, k, s)?;
    Ok(())
}

/// Appends what leaves a sum's values.
pub(crate) fn emit_sum(
    alloc: Global,
    code: &mut Vec<u32>,
    scope: &[Held],
    lanes: VectorLanes,
    sum: &Linear,
    k: u8,
) -> Result<(), CodeFault>
    requires { k < slots lanes.group }
    ensures { OnOk result ((places : AllPlaces) → MakesLanes code.old.items code.new.items places scope.now lanes k
        (expressions.Linear sum.now)) }
{
    let stride = stride_of(sum.terms.as_slice(), lanes.counter);
    emit_steps(alloc, code, scope, lanes, stride, k)?;
    let copied = sum.copy(alloc)?;
    let form = AffineForm {
        sum: copied,
        per_hart: 0,
    };
    let start = at_value(alloc, &form, lanes.counter, 0)?;
    let s = emit_form_operand(alloc, code, scope, &start)?;
    emit_by(code, lanes.group, Operation::Add, k, s)?;
    Ok(())
}
