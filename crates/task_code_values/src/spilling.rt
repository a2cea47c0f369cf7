//! Values of expressions that may need more registers than the stack has: some wait in the hart's frame.

ghost use Rattle.std.specs.Prelude.{◌≡◌, ◌+◌, ◌≤◌, IfErr, IfOk, OnOk, true};
ghost use Rattle.task_code_scalar.specs.Faults.{FitsFrame, IsFault};
ghost use Rattle.task_code_registers.specs.Registers.{first_value};
ghost use Rattle.task_code_values.specs.Depths.{depth};
ghost use Rattle.task_code_values.specs.Variables.{are_held};
ghost use Rattle.task_code_values.specs.Spilling.{FitsPair, FitsSecond, IsDeep, IsFirst, MakesBoth, MakesRow, Pairs};
ghost use Rattle.task_code_values.specs.Storing.{MakesValue};

use crate::depths::known_depth;
use crate::expressions::{emit_operand, sum_of};
use crate::frames::{emit_spill, emit_unspill};
use crate::needs::is_leaf;
use crate::operations::{emit_operation, emit_quotient, emit_remainder, emit_selection};
use crate::points::{PointIndex, PointIndexes, emit_pixel};
use crate::sites::Site;
use loop_ir::expressions::Expr;
use rv_insn::AluImmOp;
use std::alloc::Global;
use task_code_registers::registers::{ADDRESS, FIRST_VALUE};
use task_code_scalar::CodeFault;
use task_code_scalar::instructions::alu_small;

/// Where a second value is.
pub const SECOND_VALUE: u8 = 21;
/// Where a third value is.
pub const THIRD_VALUE: u8 = 22;

/// The registers of two operands.
#[derive(Clone, Copy, Debug)]
pub struct OperandRegisters {
    pub first: u8,
    pub second: u8,
}

/// Appends what leaves an expression's value in the stack's first register, where none of the scope holds it, with the
/// frame free from a word on. For this many of it, its first operand and so on, the stack is known to have no room. It
/// returns the register.
#[cycle(deeply)]
pub fn emit_deep(
    alloc: Global,
    code: &mut Vec<u32>,
    site: &Site<'_>,
    e: &Expr,
    word: u32,
    known: u32,
) -> Result<u8, CodeFault>
    requires fits { FitsFrame site.now.places.now.frames e.now word }
    requires known { known ≤ depth e.now }
    ensures ok { IfOk result (λ s. MakesValue code.old.items code.new.items site.now.places.now site.now.scope.now word
        s e.now) }
    ensures err { IfErr result (IsFault ⊥ (are_held site.now.scope.now e.now ≡ true → ⊥)) }
{
    let over = known_depth(e, known);
    if over > 0 {
        emit_spilling(alloc, code, site, e, word, over - 1)?;
        return Ok(FIRST_VALUE);
    }
    let s = emit_operand(alloc, code, site, e, FIRST_VALUE, FIRST_VALUE)?;
    Ok(s)
}

/// Appends what leaves the value of an expression in the stack's first register for which the stack has no room, nor
/// for this many of its first operand, the first operand of that one and so on.
#[cycle(deeply)]
fn emit_spilling(
    alloc: Global,
    code: &mut Vec<u32>,
    site: &Site<'_>,
    e: &Expr,
    word: u32,
    known: u32,
) -> Result<(), CodeFault>
    requires fits { IsDeep site.now.places.now.frames e.now word }
    requires known { 1 + known ≤ depth e.now }
    ensures ok { OnOk result (MakesValue code.old.items code.new.items site.now.places.now site.now.scope.now word
        first_value e.now) }
    ensures err { IfErr result (IsFault ⊥ (are_held site.now.scope.now e.now ≡ true → ⊥)) }
{
    match e {
        Expr::Number(_) => Err(CodeFault::TooDeep),
        Expr::Linear(_) => Err(CodeFault::TooDeep),
        Expr::Binary(operation, a, b) => {
            let first = emit_deep(alloc, code, site, a.get(), word, known)?;
            let both = emit_beside(alloc, code, site, b.get(), word, first)?;
            emit_operation(code, *operation, FIRST_VALUE, both.first, both.second)?;
            Ok(())
        }
        Expr::Divide(a, divisor) => {
            let first = emit_deep(alloc, code, site, a.get(), word, known)?;
            emit_quotient(alloc, code, site.scope, *divisor, first, FIRST_VALUE)?;
            Ok(())
        }
        Expr::Remainder(a, divisor) => {
            let first = emit_deep(alloc, code, site, a.get(), word, known)?;
            emit_remainder(alloc, code, site.scope, *divisor, first, FIRST_VALUE)?;
            Ok(())
        }
        Expr::Select(c, a, b) => {
            let condition = emit_deep(alloc, code, site, c.get(), word, known)?;
            emit_spill(alloc, code, site, condition, word)?;
            let first = emit_deep(alloc, code, site, a.get(), word + 1, 0)?;
            emit_pair(alloc, code, site, b.get(), word + 1, first)?;
            emit_unspill(alloc, code, site, word, THIRD_VALUE)?;
            emit_selection(code, FIRST_VALUE, THIRD_VALUE, FIRST_VALUE, SECOND_VALUE)?;
            Ok(())
        }
        Expr::Load(source, x, y) => {
            let column = emit_deep(alloc, code, site, x.get(), word, known)?;
            let point = emit_row(alloc, code, site, y.get(), word, column)?;
            emit_pixel(alloc, code, site, *source, &point, FIRST_VALUE)?;
            Ok(())
        }
    }
}

/// Appends what leaves a second operand beside a first one: a leaf in a register of its own. For another one the first
/// waits in the frame.
#[cycle(deeply)]
fn emit_beside(
    alloc: Global,
    code: &mut Vec<u32>,
    site: &Site<'_>,
    e: &Expr,
    word: u32,
    first: u8,
) -> Result<OperandRegisters, CodeFault>
    requires fits { FitsSecond site.now.places.now.frames e.now word }
    requires first { IsFirst site.now.scope.now first }
    ensures ok { IfOk result (λ both. MakesBoth code.old.items code.new.items site.now.places.now site.now.scope.now
        word
        first both e.now) }
    ensures err { IfErr result (IsFault ⊥ (are_held site.now.scope.now e.now ≡ true → ⊥)) }
{
    if is_leaf(e) {
        let second = emit_operand(alloc, code, site, e, SECOND_VALUE, ADDRESS)?;
        return Ok(OperandRegisters { first, second });
    }
    emit_pair(alloc, code, site, e, word, first)?;
    Ok(OperandRegisters {
        first: FIRST_VALUE,
        second: SECOND_VALUE,
    })
}

/// Appends what finds a row beside a column that is in a register, which waits in the frame where the row is no
/// sum.
#[cycle(deeply)]
fn emit_row(
    alloc: Global,
    code: &mut Vec<u32>,
    site: &Site<'_>,
    e: &Expr,
    word: u32,
    first: u8,
) -> Result<PointIndexes, CodeFault>
    requires fits { FitsSecond site.now.places.now.frames e.now word }
    requires first { IsFirst site.now.scope.now first }
    ensures ok { IfOk result (λ point. MakesRow code.old.items code.new.items site.now.places.now site.now.scope.now
        word
        first point e.now) }
    ensures err { IfErr result (IsFault ⊥ (are_held site.now.scope.now e.now ≡ true → ⊥)) }
{
    match sum_of(alloc, e)? {
        Some(own) => Ok(PointIndexes {
            column: PointIndex::Register(first),
            row: PointIndex::Sum(own),
        }),
        None => {
            emit_pair(alloc, code, site, e, word, first)?;
            Ok(PointIndexes {
                column: PointIndex::Register(FIRST_VALUE),
                row: PointIndex::Register(SECOND_VALUE),
            })
        }
    }
}

/// Appends what leaves a register's number and an expression's value in the first registers of the stack: the first
/// waits in a word of the frame while the second is made.
#[cycle(deeply)]
fn emit_pair(
    alloc: Global,
    code: &mut Vec<u32>,
    site: &Site<'_>,
    e: &Expr,
    word: u32,
    first: u8,
) -> Result<(), CodeFault>
    requires fits { FitsPair site.now.places.now.frames e.now word }
    requires first { IsFirst site.now.scope.now first }
    ensures ok { OnOk result (Pairs code.old.items code.new.items site.now.places.now site.now.scope.now word first
        e.now) }
    ensures err { IfErr result (IsFault ⊥ (are_held site.now.scope.now e.now ≡ true → ⊥)) }
{
    emit_spill(alloc, code, site, first, word)?;
    let second = emit_deep(alloc, code, site, e, word + 1, 0)?;
    alu_small(code, AluImmOp::Addi, SECOND_VALUE, second, 0)?;
    emit_unspill(alloc, code, site, word, FIRST_VALUE)?;
    Ok(())
}
