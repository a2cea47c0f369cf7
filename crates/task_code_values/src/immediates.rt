//! Operations with a literal, which an instruction holds.

ghost use Rattle.std.specs.Prelude.{◌≡◌, IfSome, OnOk};
ghost use Rattle.task_code_registers.specs.Emitting.{MakesOf};
ghost use Rattle.task_code_registers.specs.Registers.{IsSource, IsTarget};
ghost use Rattle.task_code_values.specs.Immediates.{IsImmediate, IsImmediateNumber, immediate_value};

use halide_pipeline::{Operation, words};
use loop_ir::expressions::Expr;
use std::alloc::AllocError;
use task_code_registers::numbers::{emit_plus, emit_times, fits};

/// What an operation with a literal makes of a register.
#[derive(Clone, Copy, Debug)]
pub enum Immediate {
    Plus(u32),
    Times(u32),
}

/// What an operation with a number makes, where an instruction holds it.
fn immediate_number(operation: Operation, number: u32) -> Option<Immediate>
    ensures { IfSome result (IsImmediateNumber operation number) }
{
    match operation {
        Operation::Add => {
            if fits(number) {
                return Some(Immediate::Plus(number));
            }
            None
        }
        Operation::Subtract => {
            let opposite = words::subtract(0, number);
            if fits(opposite) {
                return Some(Immediate::Plus(opposite));
            }
            None
        }
        Operation::Multiply => {
            if number.count_ones() == 1 {
                return Some(Immediate::Times(number));
            }
            None
        }
        _ => None,
    }
}

/// So it is with an expression that is a number.
pub fn immediate_of(operation: Operation, e: &Expr) -> Option<Immediate>
    ensures { IfSome result (IsImmediate operation e.now) }
{
    match e {
        Expr::Number(number) => {
            let own = immediate_number(operation, *number)?;
            Some(own)
        }
        _ => None,
    }
}

/// Appends what it makes.
///
/// # Errors
///
/// Memory ran out.
pub fn emit_immediate(
    code: &mut Vec<u32>,
    immediate: Immediate,
    a: u8,
    r: u8,
) -> Result<(), AllocError>
    requires { IsTarget r × IsSource a }
    ensures { OnOk result (MakesOf code.old.items code.new.items 3 r a (immediate_value immediate)) }
{
    match immediate {
        Immediate::Plus(number) => {
            emit_plus(code, r, a, number)?;
            Ok(())
        }
        Immediate::Times(number) => {
            emit_times(code, r, a, number)?;
            Ok(())
        }
    }
}
