//! Expressions and stores with names in place of parts.

ghost use Rattle.std.specs.Prelude.{IfOk};
ghost use Rattle.loop_ir.specs.Parts.{expression_of};
ghost use Rattle.task_code_names.specs.Names.{IsNamedExpr, IsNamedStore};

use crate::marks::{NamedPart, NodeMark, behind, has_name, marks_of};
use crate::names::{Named, name_of};
use loop_ir::expressions::Expr;
use loop_ir::parts::{ExprParts, StoreParts};
use loop_ir::statements::Store;
use sqlite_items::Boxed;
use std::alloc::{AllocError, Global};
use task_code_loops::tests::variable;

/// An expression in a box as `by_names` makes it. One of which nothing has a name stays where it is.
#[cycle(naming)]
fn part_by_names(
    alloc: Global,
    names: &[Named],
    e: Boxed<Expr>,
    marks: &[NodeMark],
) -> Result<Boxed<Expr>, AllocError>
    ensures { IfOk result (IsNamedExpr names.now e) }
{
    if !has_name(marks) {
        return Ok(e);
    }
    let made = by_names(alloc, names, e.into_inner(), marks)?;
    let boxed = Boxed::new(alloc, made)?;
    Ok(boxed)
}

/// The expression of these parts, with names in place of what has one. The marks are those of the parts.
#[cycle(naming)]
fn parts_by_names(
    alloc: Global,
    names: &[Named],
    parts: ExprParts,
    marks: &[NodeMark],
) -> Result<Expr, AllocError>
    ensures { IfOk result (IsNamedExpr names.now (expression_of parts)) }
{
    match parts {
        ExprParts::Number(n) => Ok(Expr::Number(n)),
        ExprParts::Linear(own) => Ok(Expr::Linear(own)),
        ExprParts::Binary(operation, a, b) => {
            let first = part_by_names(alloc, names, a, marks)?;
            let second = part_by_names(alloc, names, b, behind(marks))?;
            Ok(Expr::Binary(operation, first, second))
        }
        ExprParts::Divide(a, divisor) => {
            let first = part_by_names(alloc, names, a, marks)?;
            Ok(Expr::Divide(first, divisor))
        }
        ExprParts::Remainder(a, divisor) => {
            let first = part_by_names(alloc, names, a, marks)?;
            Ok(Expr::Remainder(first, divisor))
        }
        ExprParts::Select(c, a, b) => {
            let others = behind(marks);
            let condition = part_by_names(alloc, names, c, marks)?;
            let first = part_by_names(alloc, names, a, others)?;
            let second = part_by_names(alloc, names, b, behind(others))?;
            Ok(Expr::Select(condition, first, second))
        }
        ExprParts::Load(source, x, y) => {
            let column = part_by_names(alloc, names, x, marks)?;
            let row = part_by_names(alloc, names, y, behind(marks))?;
            Ok(Expr::Load(source, column, row))
        }
    }
}

/// An expression with names in place of the parts that have one, as its marks say.
#[cycle(naming)]
fn by_names(alloc: Global, names: &[Named], e: Expr, marks: &[NodeMark]) -> Result<Expr, AllocError>
    ensures { IfOk result (IsNamedExpr names.now e) }
{
    let [own, within @ ..] = marks else {
        return Ok(e);
    };
    match own.standing {
        NamedPart::HasNone => Ok(e),
        NamedPart::HasSome => {
            let expression = parts_by_names(alloc, names, e.into_parts(), within)?;
            Ok(expression)
        }
        NamedPart::IsNamed => match name_of(names, &e, own.nodes as usize) {
            None => Ok(e),
            Some(counter) => {
                drop(e);
                let form = variable(alloc, counter)?;
                Ok(Expr::Linear(form.sum))
            }
        },
    }
}

/// A store with names in place of the parts that have one. A store of which no part has one is given back as it is.
///
/// # Errors
///
/// Memory ran out.
pub fn renamed_store(alloc: Global, names: &[Named], store: Store) -> Result<Store, AllocError>
    ensures { IfOk result (IsNamedStore names.now store) }
{
    if names.is_empty() {
        return Ok(store);
    }
    let marks = marks_of(alloc, names, &store)?;
    let StoreParts { func, x, y, value } = store.into_parts();
    let x = by_names(alloc, names, x, marks.x.as_slice())?;
    let y = by_names(alloc, names, y, marks.y.as_slice())?;
    let value = by_names(alloc, names, value, marks.value.as_slice())?;
    Ok(Store { func, x, y, value })
}
