//! A test over a body.

ghost use Rattle.std.specs.Prelude.{◌+◌, ◌^◌, ◌≤◌, IfErr, OnOk, length};
ghost use Rattle.task_code_scalar.specs.Faults.{IsFault};
ghost use Rattle.task_code_loops.specs.Beginning.{HasNoRegister};
ghost use Rattle.task_code_loops.specs.Guarding.{GuardsWords};

use crate::holding::emit_known;
use task_code_registers::numbers::emit_number;
use task_code_registers::registers::{ADDRESS, SCRATCH};
use task_code_registers::scopes::{AffineForm, Held};
use task_code_scalar::instructions::{branch_below, jump_forth};
use task_code_scalar::{CodeFault, append};

/// Appends the words of a body, which are passed by where a form isn't below an extent.
///
/// # Errors
///
/// Memory ran out, the body has nearly as many words as a text may have, or a loop variable of the form has no
/// register.
pub fn emit_guarded(
    code: &mut Vec<u32>,
    scope: &[Held],
    form: &AffineForm,
    extent: u32,
    body: &[u32],
) -> Result<(), CodeFault>
    ensures ok { OnOk result (GuardsWords code.old.items code.new.items scope.now form.now extent body.now) }
    ensures err { IfErr result (IsFault (2 ^ 18 ≤ length body.now + 1) (HasNoRegister scope.now form.now)) }
{
    let words = body.len();
    if words >= 1 << 18 {
        return Err(CodeFault::TooLong);
    }
    let made = emit_known(code, scope, form, ADDRESS)?;
    if made {
        emit_number(code, SCRATCH, extent)?;
        branch_below(code, ADDRESS, SCRATCH)?;
        jump_forth(code, words + 1)?;
        append(code, body)?;
        return Ok(());
    }
    Err(CodeFault::TooDeep)
}
