//! Loops in parts.

ghost use Rattle.std.specs.Prelude.{◌≡◌, ◌+◌, ◌≤◌, ℕ, IfOk, IfSome, false};
ghost use Rattle.loop_ir.specs.declared.statements.LoopKind.TheVariants as kinds;
ghost use Rattle.loop_ir.specs.declared.statements.Stmt.TheVariants as stmts;
ghost use Rattle.loop_ir.specs.declared.statements.Stmt.{Stmt};
ghost use Rattle.task_code_borders.specs.Borders.{is_border};
ghost use Rattle.task_code_borders.specs.Parted.{DoesIterations, IsParted};

use crate::copies::copy_of_statement;
use crate::cuts::Cuts;
use crate::variables::{iteration, number};
use loop_ir::expressions::Counter;
use loop_ir::statements::{LoopKind, Stmt, Whole};
use sqlite_items::Boxed;
use std::alloc::{AllocError, Global};

/// The variable of a loop that is in parts, and the level of its parts.
#[derive(Clone, Copy, Debug)]
pub(crate) struct Parting {
    pub counter: Counter,
    pub level: usize,
}

/// This many iterations of a loop from one on, of which there are this many in all.
fn part(
    alloc: Global,
    parting: Parting,
    all: u32,
    from: u32,
    count: u32,
    body: Stmt,
) -> Result<Stmt, AllocError>
    ensures { IfOk result (λ made. (inside : Stmt) → is_border parting.counter ≡ false → from + count ≤ all
        → IsParted inside body → DoesIterations parting.counter from count inside made) }
{
    let counter = iteration(parting.level);
    let whole = Whole {
        outer: counter,
        inner: number(from),
        factor: 1,
        last: None,
    };
    let inner = Boxed::new(alloc, body)?;
    let bound = Boxed::new(alloc, Stmt::Bind(parting.counter, whole, all, inner))?;
    Ok(Stmt::For(counter, count, LoopKind::Serial, bound))
}

/// A statement and one after it.
pub(crate) fn both(alloc: Global, first: Stmt, second: Stmt) -> Result<Stmt, AllocError>
    ensures { IfOk result (λ made. made ≡ stmts.Sequence first second) }
{
    let one = Boxed::new(alloc, first)?;
    let other = Boxed::new(alloc, second)?;
    Ok(Stmt::Sequence(one, other))
}

/// Iterations of a loop after this many first ones, of all that it has.
fn behind_first(
    alloc: Global,
    parting: Parting,
    all: u32,
    first: u32,
    border: &Stmt,
    statement: Stmt,
) -> Result<Stmt, AllocError>
    ensures { IfOk result (λ new_statement. (inside : Stmt) (count : ℕ) → is_border parting.counter ≡ false
        → first ≤ all
        → IsParted inside border.now → DoesIterations parting.counter first count inside statement
        → DoesIterations parting.counter 0 (first + count) inside new_statement) }
{
    if first == 0 {
        return Ok(statement);
    }
    let body = copy_of_statement(alloc, border)?;
    let front = part(alloc, parting, all, 0, first, body)?;
    let new_statement = both(alloc, front, statement)?;
    Ok(new_statement)
}

/// The first iterations of a loop, and this many last ones after them, of all that it has.
fn before_last(
    alloc: Global,
    parting: Parting,
    all: u32,
    from: u32,
    last: u32,
    border: &Stmt,
    statement: Stmt,
) -> Result<Stmt, AllocError>
    ensures { IfOk result (λ new_statement. (inside : Stmt) → is_border parting.counter ≡ false → from + last ≤ all
        → IsParted inside border.now → DoesIterations parting.counter 0 from inside statement
        → DoesIterations parting.counter 0 (from + last) inside new_statement) }
{
    if last == 0 {
        return Ok(statement);
    }
    let body = copy_of_statement(alloc, border)?;
    let end = part(alloc, parting, all, from, last, body)?;
    let new_statement = both(alloc, statement, end)?;
    Ok(new_statement)
}

/// A serial loop in three parts, the first and the last of which have another body: as many as there are iterations in
/// these, and one loop of one iteration around them.
///
/// # Errors
///
/// Memory ran out.
pub(crate) fn in_parts(
    alloc: Global,
    parting: Parting,
    count: u32,
    cuts: Cuts,
    border: &Stmt,
    inner: Stmt,
) -> Result<Option<Stmt>, AllocError>
    ensures { IfOk result (λ found. IfSome found (λ made. (inside : Stmt) → is_border parting.counter ≡ false
        → IsParted inside border.now → IsParted inside inner
        → IsParted (stmts.For parting.counter count kinds.Serial inside) made)) }
{
    if count < cuts.last || count - cuts.last < cuts.first {
        return Ok(None);
    }
    let end = count - cuts.last;
    let middle = part(alloc, parting, count, cuts.first, end - cuts.first, inner)?;
    let front = behind_first(alloc, parting, count, cuts.first, border, middle)?;
    let all = before_last(alloc, parting, count, end, cuts.last, border, front)?;
    let boxed = Boxed::new(alloc, all)?;
    let around = iteration(parting.level.saturating_add(1));
    Ok(Some(Stmt::For(around, 1, LoopKind::Serial, boxed)))
}
