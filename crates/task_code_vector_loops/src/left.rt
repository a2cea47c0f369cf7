//! How many iterations of a vectorized loop pass a test, the first of which does.

ghost use Rattle.std.specs.Prelude.{◌<◌, ◌/◌, [], IfOk, OnOk};
ghost use Rattle.task_code_registers.specs.Emitting.{MakesOf};
ghost use Rattle.task_code_registers.specs.Registers.{IsSource, IsTarget};
ghost use Rattle.task_code_vector_loops.specs.inner.Making.{MakesLeast, MakesLeft};

use crate::pointers::emit_pointer;
use loop_ir::expressions::{Counter, Linear};
use rv_insn::{AluOp, ShiftOp};
use std::alloc::{AllocError, Global};
use task_code_registers::holding::at_value;
use task_code_registers::numbers::{emit_number, power_of_two};
use task_code_registers::registers::{ADDRESS, FIRST_VALUE, SCRATCH};
use task_code_registers::scopes::{AffineForm, Held};
use task_code_scalar::CodeFault;
use task_code_scalar::instructions::{alu, shift};
use task_code_values::operands::emit_reached;

/// As many iterations as strides go into a sum in the first one.
#[derive(Debug)]
pub struct Left {
    pub sum: Linear,
    pub stride: u32,
}

impl Drop for Left {
    fn drop(self) {
        let Left { sum, stride: _ } = self;
        drop(sum);
    }
}

/// Appends what leaves a register's quotient by a number, both without a sign: by a shift where the number is a power
/// of two.
fn emit_share(code: &mut Vec<u32>, r: u8, s: u8, number: u32) -> Result<(), AllocError>
    requires registers { IsTarget r × IsSource s }
    requires some { 0 < number }
    ensures { OnOk result (MakesOf code.old.items code.new.items 3 r s (λ v. v / number)) }
{
    match power_of_two(number) {
        Some(k) => {
            shift(code, ShiftOp::Srli, r, s, k)?;
            Ok(())
        }
        None => {
            emit_number(code, SCRATCH, number)?;
            alu(code, AluOp::Divu, r, s, SCRATCH)?;
            Ok(())
        }
    }
}

/// Appends what puts into a register how many iterations a sum leaves; which register it is.
///
/// # Errors
///
/// Memory ran out, no register holds what the sum is made of, or the stride is 0.
pub fn emit_left(
    alloc: Global,
    code: &mut Vec<u32>,
    scope: &[Held],
    counter: Counter,
    left_store: &Left,
) -> Result<u8, CodeFault>
    ensures { IfOk result (λ b. MakesLeft code.old.items code.new.items scope.now counter b left_store.now) }
{
    let stride = left_store.stride;
    if stride == 0 {
        return Err(CodeFault::TooDeep);
    }
    let sum = left_store.sum.copy(alloc)?;
    let form = AffineForm { sum, per_hart: 0 };
    let register = emit_pointer(alloc, code, scope, counter, &form)?;
    if stride == 1 {
        return Ok(register);
    }
    emit_share(code, ADDRESS, register, stride)?;
    Ok(ADDRESS)
}

/// Appends what leaves how many iterations a sum leaves where values are made.
///
/// # Errors
///
/// Memory ran out, no register holds what the sum is made of, or the stride is 0.
pub fn emit_first_left(
    alloc: Global,
    code: &mut Vec<u32>,
    scope: &[Held],
    counter: Counter,
    left: &Left,
) -> Result<(), CodeFault>
    ensures { OnOk result (MakesLeast code.old.items code.new.items scope.now counter left.now []) }
{
    let stride = left.stride;
    if stride == 0 {
        return Err(CodeFault::TooDeep);
    }
    let sum = left.sum.copy(alloc)?;
    let form = AffineForm { sum, per_hart: 0 };
    let start = at_value(alloc, &form, counter, 0)?;
    emit_reached(alloc, code, scope, &start, FIRST_VALUE)?;
    if stride == 1 {
        return Ok(());
    }
    emit_share(code, FIRST_VALUE, FIRST_VALUE, stride)?;
    Ok(())
}
