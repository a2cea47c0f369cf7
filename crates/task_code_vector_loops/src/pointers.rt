//! Registers that point where the lanes of a run begin.

ghost use Rattle.std.specs.Prelude.{IfOk};
ghost use Rattle.task_code_vector_loops.specs.inner.Making.{MakesPointer};

use loop_ir::expressions::Counter;
use std::alloc::Global;
use task_code_registers::holding::at_value;
use task_code_registers::registers::ADDRESS;
use task_code_registers::scopes::{AffineForm, Held};
use task_code_registers::sums::find;
use task_code_scalar::CodeFault;
use task_code_values::operands::emit_reached;

/// Appends what leaves a form's value in a loop's first iteration in a register, where none holds it; which one it is.
/// Loads and stores of lanes have no offset.
pub fn emit_pointer(
    alloc: Global,
    code: &mut Vec<u32>,
    scope: &[Held],
    counter: Counter,
    form: &AffineForm,
) -> Result<u8, CodeFault>
    ensures { IfOk result (λ b. MakesPointer code.old.items code.new.items scope.now counter b form.now) }
{
    let start = at_value(alloc, form, counter, 0)?;
    match find(scope, &start, true) {
        Some(found) => {
            if found.number == 0 {
                return Ok(found.register);
            }
        }
        None => {}
    }
    emit_reached(alloc, code, scope, &start, ADDRESS)?;
    Ok(ADDRESS)
}
