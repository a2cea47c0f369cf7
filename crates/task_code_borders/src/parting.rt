//! Statements whose loops are in parts, where that decides clamps.

ghost use Rattle.std.specs.Prelude.{◌≡◌, IfOk, IfSome, false};
ghost use Rattle.loop_ir.specs.declared.statements.LoopKind.TheVariants as kinds;
ghost use Rattle.loop_ir.specs.declared.statements.Stmt.TheVariants as stmts;
ghost use Rattle.task_code_borders.specs.Borders.{is_border};
ghost use Rattle.task_code_borders.specs.Parted.{IsParted};

use crate::blindness::{has_stages, is_blind_statement};
use crate::copies::copy_of_statement;
use crate::cuts::{Cuts, Loop, cuts_of};
use crate::parts::{Parting, both, in_parts};
use crate::spans::{VariableInterval, below, of_whole, with_span};
use crate::variables::is_border;
use loop_ir::expressions::Counter;
use loop_ir::statements::{LoopKind, Stmt};
use sqlite_items::Boxed;
use std::alloc::{AllocError, Global};

/// Which loops are in parts.
#[derive(Clone, Copy, Debug, PartialEq, Eq)]
pub enum PartedLoops {
    /// All, in all parts of those around.
    All,
    /// All, but none in first and last parts of those around.
    Inner,
    /// Those that have no others inside.
    Innermost,
}

/// Where a statement is: between which numbers variables lie, which loops are to be in parts, and at which level.
#[derive(Clone, Copy, Debug)]
pub struct PartingScope<'a> {
    pub spans: &'a [VariableInterval],
    pub reach: PartedLoops,
    pub level: usize,
}

/// How many levels a loop in parts takes.
const LEVELS: usize = 2;

/// Whether a serial loop is in a statement.
fn has_serial(statement: &Stmt) -> bool {
    match statement {
        Stmt::Store(_) => false,
        Stmt::Sequence(first, second) => has_serial(first.get()) || has_serial(second.get()),
        Stmt::For(_, _, kind, body) => *kind == LoopKind::Serial || has_serial(body.get()),
        Stmt::Bind(_, _, _, body) => has_serial(body.get()),
    }
}

/// Whether a statement is a part of a loop.
pub fn is_part(statement: &Stmt) -> bool {
    match statement {
        Stmt::Store(_) | Stmt::Sequence(_, _) | Stmt::Bind(_, _, _, _) => false,
        Stmt::For(_, _, _, body) => match body.get() {
            Stmt::Bind(_, whole, _, _) => is_border(whole.inner),
            _ => false,
        },
    }
}

/// Whether loops of a statement are in parts.
pub fn has_parts(statement: &Stmt) -> bool {
    match statement {
        Stmt::Store(_) => false,
        Stmt::Sequence(first, second) => has_parts(first.get()) || has_parts(second.get()),
        Stmt::For(_, _, _, body) => has_parts(body.get()),
        Stmt::Bind(_, whole, _, body) => is_border(whole.inner) || has_parts(body.get()),
    }
}

/// A statement once more, if it names no variables but those of stages.
fn same(alloc: Global, statement: &Stmt) -> Result<Option<Stmt>, AllocError>
    ensures { IfOk result (λ found. IfSome found (IsParted statement.now)) }
{
    if !is_blind_statement(statement) {
        return Ok(None);
    }
    let new_statement = copy_of_statement(alloc, statement)?;
    Ok(Some(new_statement))
}

/// The body of first and last iterations, beside the one between.
fn border_of(
    alloc: Global,
    reach: PartedLoops,
    body: &Stmt,
    inner: &Stmt,
) -> Result<Option<Stmt>, AllocError>
    ensures { IfOk result (λ found_statement. IfSome found_statement (λ border. IsParted body.now inner.now
        → IsParted body.now border)) }
{
    match reach {
        PartedLoops::All => {
            let new_statement = copy_of_statement(alloc, inner)?;
            Ok(Some(new_statement))
        }
        PartedLoops::Inner | PartedLoops::Innermost => {
            let found_statement = same(alloc, body)?;
            Ok(found_statement)
        }
    }
}

/// A serial loop around a body that is in parts.
fn around(alloc: Global, counter: Counter, count: u32, inner: Stmt) -> Result<Stmt, AllocError>
    ensures { IfOk result (λ made. made ≡ stmts.For counter count kinds.Serial inner) }
{
    let boxed = Boxed::new(alloc, inner)?;
    Ok(Stmt::For(counter, count, LoopKind::Serial, boxed))
}

/// Where a loop is to be cut, if it is.
fn wanted_cuts(
    alloc: Global,
    scope: PartingScope<'_>,
    serial_loop: &Loop<'_>,
) -> Result<Option<Cuts>, AllocError> {
    if scope.reach == PartedLoops::Innermost && has_serial(serial_loop.body) {
        return Ok(None);
    }
    cuts_of(alloc, scope.spans, serial_loop)
}

/// A serial loop in parts, where that decides clamps.
fn cut(
    alloc: Global,
    scope: PartingScope<'_>,
    serial_loop: &Loop<'_>,
    inner: Stmt,
) -> Result<Option<Stmt>, AllocError>
    ensures { IfOk result (λ found_statement. IfSome found_statement
        (λ new_statement. is_border serial_loop.now.counter ≡ false
        → IsParted serial_loop.now.body.now inner
        → IsParted (stmts.For serial_loop.now.counter serial_loop.now.count kinds.Serial serial_loop.now.body.now)
        new_statement)) }
{
    match wanted_cuts(alloc, scope, serial_loop)? {
        None => {
            let new_statement = around(alloc, serial_loop.counter, serial_loop.count, inner)?;
            Ok(Some(new_statement))
        }
        Some(cuts) => match border_of(alloc, scope.reach, serial_loop.body, &inner)? {
            None => Ok(None),
            Some(border) => {
                let parting = Parting {
                    counter: serial_loop.counter,
                    level: scope.level,
                };
                let found_statement = in_parts(
                    alloc,
                    parting,
                    serial_loop.count,
                    cuts,
                    &border,
                    inner,
                )?;
                Ok(found_statement)
            }
        },
    }
}

#[cycle(parting)]
fn serial_in_parts(
    alloc: Global,
    scope: PartingScope<'_>,
    counter: Counter,
    count: u32,
    body: &Stmt,
) -> Result<Option<Stmt>, AllocError>
    ensures { IfOk result (λ new_statement. IfSome new_statement
        (IsParted (stmts.For counter count kinds.Serial body.now))) }
{
    if is_border(counter) {
        return Ok(None);
    }
    let spans = with_span(alloc, scope.spans, counter, below(count))?;
    let within = PartingScope {
        spans: spans.as_slice(),
        reach: scope.reach,
        level: scope.level.saturating_add(LEVELS),
    };
    match parted(alloc, within, body)? {
        None => Ok(None),
        Some(inner) => {
            let own = Loop {
                counter,
                count,
                body,
            };
            let new_statement = cut(alloc, scope, &own, inner)?;
            Ok(new_statement)
        }
    }
}

/// A statement whose serial loops are in parts, where that decides clamps, if it names no variables but those of
/// stages.
///
/// # Errors
///
/// Memory ran out.
#[cycle(parting)]
pub fn parted(
    alloc: Global,
    scope: PartingScope<'_>,
    statement: &Stmt,
) -> Result<Option<Stmt>, AllocError>
    ensures { IfOk result (λ found_statement. IfSome found_statement (IsParted statement.now)) }
{
    match statement {
        Stmt::Store(_) => {
            let found_statement = same(alloc, statement)?;
            Ok(found_statement)
        }
        Stmt::Sequence(first, second) => match parted(alloc, scope, first.get())? {
            None => Ok(None),
            Some(one) => match parted(alloc, scope, second.get())? {
                None => Ok(None),
                Some(other) => {
                    let new_statement = both(alloc, one, other)?;
                    Ok(Some(new_statement))
                }
            },
        },
        Stmt::For(counter, count, kind, body) => match kind {
            LoopKind::Serial => {
                let found_statement = serial_in_parts(alloc, scope, *counter, *count, body.get())?;
                Ok(found_statement)
            }
            LoopKind::Unrolled | LoopKind::Vectorized => {
                let found_statement = same(alloc, statement)?;
                Ok(found_statement)
            }
        },
        Stmt::Bind(counter, whole, extent, body) => {
            if is_border(*counter) || !has_stages(whole) {
                return Ok(None);
            }
            let span = of_whole(scope.spans, whole, *extent);
            let spans = with_span(alloc, scope.spans, *counter, span)?;
            let within = PartingScope {
                spans: spans.as_slice(),
                reach: scope.reach,
                level: scope.level,
            };
            match parted(alloc, within, body.get())? {
                None => Ok(None),
                Some(new_statement) => {
                    let inside = Boxed::new(alloc, new_statement)?;
                    Ok(Some(Stmt::Bind(*counter, *whole, *extent, inside)))
                }
            }
        }
    }
}
