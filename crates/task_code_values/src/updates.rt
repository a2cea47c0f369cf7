//! Stores of what an operation makes of the pixel that they overwrite, whose address is made once.

ghost use Rattle.std.specs.Prelude.{◌≡◌, IfErr, OnOk, true};
ghost use Rattle.halide_pipeline.specs.declared.expressions.Source.TheVariants as sources;
ghost use Rattle.loop_ir.specs.declared.expressions.Expr.TheVariants as expressions;
ghost use Rattle.task_code_scalar.specs.Faults.{FitsStack, IsFault};
ghost use Rattle.task_code_values.specs.Operands.{FitsOperand};
ghost use Rattle.task_code_values.specs.Variables.{are_held};
ghost use Rattle.task_code_values.specs.Storing.{FitsStore, MakesStore};
ghost use Rattle.task_code_values.specs.Updating.{Changes};

use crate::accesses::{emit_fetch, emit_save};
use crate::expressions::{emit_index, emit_operand};
use crate::immediates::{emit_immediate, immediate_of};
use crate::operations::emit_operation;
use crate::points::PointIndexes;
use crate::scatters::reach_point;
use crate::sites::{BufferSite, Site};
use crate::spilling::{SECOND_VALUE, THIRD_VALUE};
use halide_pipeline::{Operation, Source};
use loop_ir::expressions::{Expr, Linear};
use loop_ir::statements::Store;
use std::alloc::Global;
use task_code_registers::registers::{ADDRESS, FIRST_VALUE};
use task_code_registers::sums::same_terms;
use task_code_scalar::CodeFault;
use task_code_scalar::layouts::place_of;

// ---- expressions that are the same

fn same_sum(a: &Linear, b: &Linear) -> bool
    ensures { result ≡ true → a.now ≡ b.now }
{
    if a.number == b.number {
        same_terms(a.terms.as_slice(), b.terms.as_slice())
    } else {
        false
    }
}

fn same_source(a: Source, b: Source) -> bool
    ensures { result ≡ true → a ≡ b }
{
    match a {
        Source::Input(one) => match b {
            Source::Input(other) => one == other,
            Source::Func(_) => false,
        },
        Source::Func(one) => match b {
            Source::Input(_) => false,
            Source::Func(other) => one == other,
        },
    }
}

/// Whether two indexes are the same number, sum, or load at such indexes.
pub fn same_index(a: &Expr, b: &Expr) -> bool
    ensures { result ≡ true → a.now ≡ b.now }
{
    match a {
        Expr::Number(one) => match b {
            Expr::Number(other) => *one == *other,
            _ => false,
        },
        Expr::Linear(one) => match b {
            Expr::Linear(other) => same_sum(one, other),
            _ => false,
        },
        Expr::Load(source, x, y) => match b {
            Expr::Load(own, column, row) => {
                if same_source(*source, *own) && same_index(x.get(), column.get()) {
                    same_index(y.get(), row.get())
                } else {
                    false
                }
            }
            _ => false,
        },
        _ => false,
    }
}

/// Whether an expression is the pixel that a store overwrites.
pub fn is_own_pixel(e: &Expr, store: &Store) -> bool
    ensures { result ≡ true → e.now ≡ expressions.Load (sources.Func store.now.func) store.now.x store.now.y }
{
    match e {
        Expr::Load(source, x, y) => {
            if same_source(*source, Source::Func(store.func)) && same_index(x.get(), &store.x) {
                same_index(y.get(), &store.y)
            } else {
                false
            }
        }
        _ => false,
    }
}

// ---- code

/// Appends what makes of the second value what an operation makes of it and another expression.
fn emit_change(
    alloc: Global,
    code: &mut Vec<u32>,
    site: &Site<'_>,
    operation: Operation,
    other: &Expr,
) -> Result<(), CodeFault>
    requires { FitsOperand other.now 22 }
    ensures ok { OnOk result (Changes code.old.items code.new.items site.now.places.now site.now.scope.now operation
        other.now) }
    ensures err { IfErr result (IsFault ⊥ (are_held site.now.scope.now other.now ≡ true → ⊥)) }
{
    if let Some(own) = immediate_of(operation, other) {
        emit_immediate(code, own, SECOND_VALUE, SECOND_VALUE)?;
        return Ok(());
    }
    let second = emit_operand(alloc, code, site, other, THIRD_VALUE, ADDRESS)?;
    emit_operation(code, operation, SECOND_VALUE, SECOND_VALUE, second)?;
    Ok(())
}

/// Appends a store of what an operation makes of the pixel that it overwrites and another expression.
///
/// # Errors
///
/// Memory ran out, or a loop variable has no register and no held form makes up for it.
pub fn emit_update(
    alloc: Global,
    code: &mut Vec<u32>,
    site: &Site<'_>,
    store: &Store,
    operation: Operation,
    other: &Expr,
) -> Result<(), CodeFault>
    requires is { store.now.value ≡ expressions.Binary operation (expressions.Load (sources.Func store.now.func)
        store.now.x store.now.y) other.now }
    requires column { FitsStack store.now.x 20 }
    requires row { FitsStack store.now.y 21 }
    requires other { FitsStack other.now 22 }
    ensures ok { OnOk result (MakesStore code.old.items code.new.items site.now.places.now site.now.scope.now
        store.now) }
    ensures err { IfErr result (IsFault ⊥ (FitsStore site.now.places.now site.now.scope.now store.now → ⊥)) }
{
    let place = place_of(site.places, Source::Func(store.func));
    let column = emit_index(alloc, code, site, &store.x, FIRST_VALUE)?;
    let row = emit_index(alloc, code, site, &store.y, SECOND_VALUE)?;
    let point = PointIndexes { column, row };
    let buffer = BufferSite {
        place: &place,
        scope: site.scope,
    };
    let offset = reach_point(alloc, code, &buffer, &point, FIRST_VALUE)?;
    emit_fetch(code, place.pixels, SECOND_VALUE, FIRST_VALUE, offset)?;
    emit_change(alloc, code, site, operation, other)?;
    emit_save(code, FIRST_VALUE, SECOND_VALUE, offset)?;
    Ok(())
}
