//! What stays in groups while an expression's values are made: parts that several of its operands have. Which parts
//! stay is a guess, of which nothing is promised.

ghost use Rattle.std.specs.Prelude.{◌≡◌, ◌∷◌, IfOk, IfSome, true};
ghost use Rattle.task_code_lane_values.specs.inner.Sharing.{IsAnyPart, IsKeptAt, IsSmallerPart};

use crate::scalars::is_loop_invariant;
use crate::vectorized::LaneSite;
use halide_pipeline::Source;
use loop_ir::expressions::{Counter, Expr};
use std::alloc::{AllocError, Global};
use task_code_values::updates::same_index;

/// How many pairs of parts are compared at most where two expressions are looked through for a common one.
const MOST_PAIRS: usize = 1 << 14;

/// A part of an expression, whose values stay in a group of the stack.
#[derive(Clone, Copy)]
pub(crate) struct Kept<'a> {
    pub e: &'a Expr,
    pub slot: u8,
}

/// What values are made of.
#[derive(Clone, Copy)]
pub(crate) struct Sharing<'a> {
    pub site: LaneSite<'a>,
    pub kept: &'a [Kept<'a>],
    /// How many parts may stay at once.
    pub most: usize,
}

// ---- expressions that are the same

fn is_same_source(a: Source, b: Source) -> bool
    ensures { result ≡ true → a ≡ b }
{
    match a {
        Source::Input(one) => match b {
            Source::Input(other) => one == other,
            Source::Func(_) => false,
        },
        Source::Func(one) => match b {
            Source::Input(_) => false,
            Source::Func(other) => one == other,
        },
    }
}

/// Whether two expressions are the same one.
fn is_same(a: &Expr, b: &Expr) -> bool
    ensures { result ≡ true → a.now ≡ b.now }
{
    match a {
        Expr::Number(_) => same_index(a, b),
        Expr::Linear(_) => same_index(a, b),
        Expr::Binary(op, x, y) => match b {
            Expr::Binary(own, z, w) => {
                *op == *own && is_same(x.get(), z.get()) && is_same(y.get(), w.get())
            }
            _ => false,
        },
        Expr::Divide(x, divisor) => match b {
            Expr::Divide(z, own) => *divisor == *own && is_same(x.get(), z.get()),
            _ => false,
        },
        Expr::Remainder(x, divisor) => match b {
            Expr::Remainder(z, own) => *divisor == *own && is_same(x.get(), z.get()),
            _ => false,
        },
        Expr::Select(c, x, y) => match b {
            Expr::Select(d, z, w) => {
                is_same(c.get(), d.get()) && is_same(x.get(), z.get()) && is_same(y.get(), w.get())
            }
            _ => false,
        },
        Expr::Load(source, x, y) => match b {
            Expr::Load(own, z, w) => {
                is_same_source(*source, *own)
                    && is_same(x.get(), z.get())
                    && is_same(y.get(), w.get())
            }
            _ => false,
        },
    }
}

// ---- what stays

/// The group in which an expression's values stay, if they do.
pub(crate) fn slot_of(kept: &[Kept<'_>], e: &Expr) -> Option<u8>
    ensures { IfSome result (IsKeptAt kept.now e.now) }
{
    match kept {
        [] => None,
        [first, others @ ..] => {
            if is_same(first.e, e) {
                return Some(first.slot);
            }
            slot_of(others, e)
        }
    }
}

/// What stays, with one more in front.
///
/// # Errors
///
/// Memory ran out.
pub(crate) fn with_kept<'a>(
    alloc: Global,
    kept: &[Kept<'a>],
    own_kept: Kept<'a>,
) -> Result<Vec<Kept<'a>>, AllocError>
    ensures { IfOk result (λ made. made.items ≡ own_kept.entry ∷ kept.now) }
{
    let mut made = Vec::new(alloc);
    made.push(own_kept)?;
    made.extend_from_slice(kept)?;
    Ok(made)
}

// ---- common parts

/// How many parts an expression has, at least; a load is one.
fn parts_of(e: &Expr) -> usize {
    match e {
        Expr::Number(_) => 1,
        Expr::Linear(_) => 1,
        Expr::Binary(_, a, b) => parts_of(a.get()).saturating_add(parts_of(b.get())),
        Expr::Divide(a, _) => parts_of(a.get()),
        Expr::Remainder(a, _) => parts_of(a.get()),
        Expr::Select(c, a, b) => {
            let two = parts_of(a.get()).saturating_add(parts_of(b.get()));
            two.saturating_add(parts_of(c.get()))
        }
        Expr::Load(_, _, _) => 1,
    }
}

/// Whether an expression loads.
fn has_load(e: &Expr) -> bool {
    match e {
        Expr::Number(_) => false,
        Expr::Linear(_) => false,
        Expr::Binary(_, a, b) => has_load(a.get()) || has_load(b.get()),
        Expr::Divide(a, _) => has_load(a.get()),
        Expr::Remainder(a, _) => has_load(a.get()),
        Expr::Select(c, a, b) => has_load(c.get()) || (has_load(a.get()) || has_load(b.get())),
        Expr::Load(_, _, _) => true,
    }
}

/// Whether an expression has another one as a part, apart from indexes of loads.
fn has(whole: &Expr, part: &Expr) -> bool {
    if is_same(whole, part) {
        return true;
    }
    match whole {
        Expr::Number(_) => false,
        Expr::Linear(_) => false,
        Expr::Binary(_, a, b) => has(a.get(), part) || has(b.get(), part),
        Expr::Divide(a, _) => has(a.get(), part),
        Expr::Remainder(a, _) => has(a.get(), part),
        Expr::Select(c, a, b) => has(c.get(), part) || (has(a.get(), part) || has(b.get(), part)),
        Expr::Load(_, _, _) => false,
    }
}

/// Whether an expression's values are worth a group: those of a load, unless all iterations have it in common.
fn is_worth(e: &Expr, counter: Counter) -> bool {
    has_load(e) && !is_loop_invariant(e, counter)
}

/// The first part of an expression, a whole one before its own parts, that another one has too and that doesn't stay.
fn part_of_both<'a>(sharing: &Sharing<'_>, e: &'a Expr, other: &Expr) -> Option<&'a Expr>
    ensures { IfSome result (λ part. IsAnyPart e.now part.now) }
{
    if slot_of(sharing.kept, e).is_some() {
        return None;
    }
    if is_worth(e, sharing.site.lanes.counter) && has(other, e) {
        return Some(e);
    }
    match e {
        Expr::Number(_) => None,
        Expr::Linear(_) => None,
        Expr::Binary(_, a, b) => match part_of_both(sharing, a.get(), other) {
            Some(found) => Some(found),
            None => part_of_both(sharing, b.get(), other),
        },
        Expr::Divide(a, _) => part_of_both(sharing, a.get(), other),
        Expr::Remainder(a, _) => part_of_both(sharing, a.get(), other),
        Expr::Select(c, a, b) => match part_of_both(sharing, c.get(), other) {
            Some(found) => Some(found),
            None => match part_of_both(sharing, a.get(), other) {
                Some(found) => Some(found),
                None => part_of_both(sharing, b.get(), other),
            },
        },
        Expr::Load(_, _, _) => None,
    }
}

/// The same, where looking for it takes few comparisons.
fn common<'a>(sharing: &Sharing<'_>, e: &'a Expr, other: &Expr) -> Option<&'a Expr>
    ensures { IfSome result (λ part. IsAnyPart e.now part.now) }
{
    if parts_of(e).saturating_mul(parts_of(other)) > MOST_PAIRS {
        return None;
    }
    part_of_both(sharing, e, other)
}

/// A part that more than one operand of an expression has and that doesn't stay, where one more may.
pub(crate) fn common_part<'a>(sharing: &Sharing<'_>, e: &'a Expr) -> Option<&'a Expr>
    ensures { IfSome result (λ part. IsSmallerPart e.now part.now) }
{
    if sharing.kept.len() >= sharing.most {
        return None;
    }
    match e {
        Expr::Binary(_, a, b) => common(sharing, a.get(), b.get()),
        Expr::Select(c, a, b) => match common(sharing, c.get(), a.get()) {
            Some(found) => Some(found),
            None => match common(sharing, c.get(), b.get()) {
                Some(found) => Some(found),
                None => common(sharing, a.get(), b.get()),
            },
        },
        _ => None,
    }
}
