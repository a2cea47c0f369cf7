//! The values of split loops, each in a register of its own.

ghost use Rattle.std.specs.Prelude.{◌≡◌, ◌≢◌, IfErr, IfOk, OnOk};
ghost use Rattle.task_code_registers.specs.Registers.{IsPlace, address_register};
ghost use Rattle.task_code_registers.specs.Scopes.{left_count};
ghost use Rattle.task_code_scalar.specs.Faults.{IsFault};
ghost use Rattle.task_code_variables.specs.Renaming.{HoldsAround};
ghost use Rattle.task_code_variables.specs.Splits.{Bounds, EntersSplit, HoldsStanding, MakesWhole};

use crate::renaming::{numbered, standing};
use loop_ir::expressions::Counter;
use loop_ir::statements::Whole;
use rv_insn::AluOp;
use std::alloc::{AllocError, Global};
use task_code_loops::tests::variable;
use task_code_registers::numbers::{emit_number, emit_times};
use task_code_registers::registers::{ADDRESS, SCRATCH, ZERO};
use task_code_registers::scopes::{Held, free_register, with_held};
use task_code_registers::sums::register_of;
use task_code_scalar::CodeFault;
use task_code_scalar::instructions::alu;
use task_code_values::operations::emit_blend;

/// The register that holds a loop variable's value: that of what stands for it, or x0.
fn register_for(scope: &[Held], around: &[Counter], counter: Counter) -> u8
    requires { HoldsAround around.now scope.now }
    ensures { HoldsStanding scope.now around.now counter result }
{
    match standing(around, counter) {
        None => ZERO,
        Some(own) => register_of(scope, own),
    }
}

/// Appends what leaves at most so much in a register.
fn emit_bounded(code: &mut Vec<u32>, last: Option<u32>, r: u8) -> Result<(), AllocError>
    requires place { IsPlace r }
    requires other { r ≢ address_register }
    ensures { OnOk result (Bounds code.old.items code.new.items last r) }
{
    match last {
        None => Ok(()),
        Some(last) => {
            emit_number(code, ADDRESS, last)?;
            alu(code, AluOp::Sltu, SCRATCH, ADDRESS, r)?;
            emit_blend(code, r, r, ADDRESS)?;
            Ok(())
        }
    }
}

/// Appends what leaves a split loop's value in a register.
fn emit_whole(
    code: &mut Vec<u32>,
    scope: &[Held],
    around: &[Counter],
    whole: &Whole,
    r: u8,
) -> Result<(), AllocError>
    requires holds { HoldsAround around.now scope.now }
    requires place { IsPlace r }
    requires other { r ≢ address_register }
    ensures { OnOk result (MakesWhole code.old.items code.new.items scope.now around.now whole.now r) }
{
    let outer = register_for(scope, around, whole.outer);
    let inner = register_for(scope, around, whole.inner);
    emit_times(code, r, outer, whole.factor)?;
    emit_bounded(code, whole.last, r)?;
    alu(code, AluOp::Add, r, r, inner)?;
    Ok(())
}

/// Appends what leaves a split loop's value in a register that holds nothing yet, and the scope with that.
///
/// # Errors
///
/// Memory ran out, or no register is left.
pub(crate) fn enter_split(
    alloc: Global,
    code: &mut Vec<u32>,
    scope: &[Held],
    around: &[Counter],
    whole: &Whole,
) -> Result<Vec<Held>, CodeFault>
    requires { HoldsAround around.now scope.now }
    ensures ok { IfOk result (λ inner. EntersSplit code.old.items code.new.items scope.now inner.items around.now
        whole.now) }
    ensures err { IfErr result (IsFault ⊥ (left_count scope.now ≡ 0)) }
{
    let Some(r) = free_register(scope, 0) else {
        return Err(CodeFault::TooDeep);
    };
    emit_whole(code, scope, around, whole, r)?;
    let form = variable(alloc, numbered(around.len()))?;
    let inner = with_held(alloc, scope, r, &form)?;
    Ok(inner)
}
