//! The tests of split loops at a body's front: those that a loop doesn't change come first.

ghost use Rattle.std.specs.Prelude.{◌≡◌, IfOk, true};
ghost use Rattle.loop_ir.specs.Parts.{statement_of};
ghost use Rattle.loop_ir.specs.declared.statements.Stmt.TheVariants as stmts;
ghost use Rattle.lowering_nests.specs.Loops.{AreAlike, is_loop_invariant};

use loop_ir::expressions::{Counter, same_counter};
use loop_ir::parts::StmtParts;
use loop_ir::statements::{Stmt, Whole};
use sqlite_items::Boxed;
use std::alloc::{AllocError, Global};

/// Whether a split loop's value, and what it is made of, stay the same in all iterations of a loop.
pub(crate) fn is_loop_invariant(counter: Counter, split_counter: Counter, whole: Whole) -> bool
    ensures { result ≡ is_loop_invariant counter split_counter whole }
{
    !same_counter(whole.outer, counter)
        && (!same_counter(whole.inner, counter) && !same_counter(split_counter, counter))
}

/// Whether that is so of each of these variables.
fn is_invariant_in_all(changing: &[Counter], split_counter: Counter, whole: Whole) -> bool {
    for counter in changing {
        if !is_loop_invariant(*counter, split_counter, whole) {
            return false;
        }
    }
    true
}

/// These variables and one more.
fn and_one(
    alloc: Global,
    changing: &[Counter],
    split_counter: Counter,
) -> Result<Vec<Counter>, AllocError> {
    let mut more = changing.to_vec(alloc)?;
    more.push(split_counter)?;
    Ok(more)
}

/// Whether neither of two split loops' values depends on the other.
fn may_change_places(split_counter: Counter, whole: Whole, next: Counter, next_whole: Whole) -> bool
    ensures own { result ≡ true → is_loop_invariant split_counter next next_whole ≡ true }
    ensures next { result ≡ true → is_loop_invariant next split_counter whole ≡ true }
{
    is_loop_invariant(split_counter, next, next_whole)
        && is_loop_invariant(next, split_counter, whole)
}

/// The statement of its parts.
pub(crate) fn joined(parts: StmtParts) -> Stmt
    ensures { result ≡ statement_of parts }
{
    match parts {
        StmtParts::Store(store) => Stmt::Store(store),
        StmtParts::Sequence(first, second) => Stmt::Sequence(first, second),
        StmtParts::For(counter, count, kind, body) => Stmt::For(counter, count, kind, body),
        StmtParts::Bind(counter, split_counter, extent, body) => Stmt::Bind(
            counter,
            split_counter,
            extent,
            body,
        ),
    }
}

/// A test before a statement, or after the test that the statement begins with, if that one is steady.
fn behind_first(
    alloc: Global,
    changing: &[Counter],
    split_counter: Counter,
    whole: Whole,
    extent: u32,
    rest: Stmt,
) -> Result<Stmt, AllocError>
    ensures { IfOk result (AreAlike (stmts.Bind split_counter whole extent rest)) }
{
    match rest.into_parts() {
        StmtParts::Bind(next, next_whole, next_extent, last) => {
            let stays = is_invariant_in_all(changing, next, next_whole);
            if stays && may_change_places(split_counter, whole, next, next_whole) {
                let inner = Boxed::new(alloc, Stmt::Bind(split_counter, whole, extent, last))?;
                return Ok(Stmt::Bind(next, next_whole, next_extent, inner));
            }
            let same = Boxed::new(alloc, Stmt::Bind(next, next_whole, next_extent, last))?;
            Ok(Stmt::Bind(split_counter, whole, extent, same))
        }
        parts => {
            let same = Boxed::new(alloc, joined(parts))?;
            Ok(Stmt::Bind(split_counter, whole, extent, same))
        }
    }
}

/// A body that does the same, in which tests that stay the same where these variables change come before others, as
/// far as they may.
pub(crate) fn invariant_first(
    alloc: Global,
    changing: &[Counter],
    body: Stmt,
) -> Result<Stmt, AllocError>
    ensures { IfOk result (AreAlike body) }
{
    match body.into_parts() {
        StmtParts::Bind(split_counter, whole, extent, inside) => {
            if is_invariant_in_all(changing, split_counter, whole) {
                return Ok(Stmt::Bind(split_counter, whole, extent, inside));
            }
            let more = and_one(alloc, changing, split_counter)?;
            let rest = invariant_first(alloc, more.as_slice(), inside.into_inner())?;
            let statement = behind_first(
                alloc,
                more.as_slice(),
                split_counter,
                whole,
                extent,
                rest,
            )?;
            Ok(statement)
        }
        parts => Ok(joined(parts)),
    }
}
