//! What of a loop's body stays the same in all iterations. Guesses, of which nothing is promised.

use loop_ir::expressions::{Counter, Expr, Term, same_counter};
use loop_ir::statements::Stmt;
use std::alloc::{AllocError, Global};
use task_code_loops::bounds::Bound;
use task_code_names::copies::{copy_of, is_load_free, is_same};

// ---- parts that stay

/// Whether a loop variable is that of one of these loops.
pub(crate) fn is_among(bounds: &[Bound], counter: Counter) -> bool {
    bounds.iter().any(|own| same_counter(own.counter, counter))
}

/// Whether loop variables are among those of these loops.
fn are_among(bounds: &[Bound], terms: &[Term]) -> bool {
    terms.iter().all(|term| is_among(bounds, term.counter))
}

/// Whether an expression's loop variables are those of these loops.
fn is_of_loops(bounds: &[Bound], e: &Expr) -> bool {
    match e {
        Expr::Number(_) => true,
        Expr::Linear(own) => are_among(bounds, own.terms.as_slice()),
        Expr::Binary(_, a, b) => is_of_loops(bounds, a.get()) && is_of_loops(bounds, b.get()),
        Expr::Divide(a, _) => is_of_loops(bounds, a.get()),
        Expr::Remainder(a, _) => is_of_loops(bounds, a.get()),
        Expr::Select(c, a, b) => {
            is_of_loops(bounds, c.get())
                && (is_of_loops(bounds, a.get()) && is_of_loops(bounds, b.get()))
        }
        Expr::Load(_, _, _) => false,
    }
}

/// Whether an expression is made of parts.
fn has_parts(e: &Expr) -> bool {
    match e {
        Expr::Number(_) => false,
        Expr::Linear(_) => false,
        _ => true,
    }
}

/// Adds an expression, unless it is there.
pub(crate) fn add(alloc: Global, expressions: &mut Vec<Expr>, e: &Expr) -> Result<(), AllocError> {
    if !expressions.as_slice().iter().any(|own| is_same(own, e)) {
        let own = copy_of(alloc, e)?;
        expressions.push(own)?;
    }
    Ok(())
}

/// Whether an expression loads nothing, and its loop variables are those of these loops.
pub(crate) fn is_invariant_over(bounds: &[Bound], e: &Expr) -> bool {
    is_load_free(e) && is_of_loops(bounds, e)
}

/// Whether what is beside an expression's first operand does not stay the same, or the expression itself has none.
fn others_leave(bounds: &[Bound], e: &Expr) -> bool {
    match e {
        Expr::Number(_) => false,
        Expr::Linear(_) => !is_of_loops(bounds, e),
        Expr::Binary(_, _, b) => !is_invariant_over(bounds, b.get()),
        Expr::Divide(_, _) => false,
        Expr::Remainder(_, _) => false,
        Expr::Select(_, a, b) => {
            !is_invariant_over(bounds, a.get()) || !is_invariant_over(bounds, b.get())
        }
        Expr::Load(_, _, _) => true,
    }
}

/// How many expressions do not stay the same: the expression itself, its first operand, the first operand of that one
/// and so on. So none of them is asked more than once.
fn varying_over(bounds: &[Bound], e: &Expr) -> u32 {
    let first = match e {
        Expr::Number(_) => 0,
        Expr::Linear(_) => 0,
        Expr::Binary(_, a, _) => varying_over(bounds, a.get()),
        Expr::Divide(a, _) => varying_over(bounds, a.get()),
        Expr::Remainder(a, _) => varying_over(bounds, a.get()),
        Expr::Select(c, _, _) => varying_over(bounds, c.get()),
        Expr::Load(_, x, _) => varying_over(bounds, x.get()),
    };
    if first > 0 || others_leave(bounds, e) {
        first.saturating_add(1)
    } else {
        0
    }
}

/// How many they are, where this many are known: it counts where none is.
fn known_varying(bounds: &[Bound], e: &Expr, known: u32) -> u32 {
    if known > 0 {
        known
    } else {
        varying_over(bounds, e)
    }
}

/// Adds the largest parts of an expression that stay the same. Of this many, the expression itself, its first operand
/// and so on, it is known that they don't.
fn add_parts(
    alloc: Global,
    bounds: &[Bound],
    expressions: &mut Vec<Expr>,
    e: &Expr,
    known: u32,
) -> Result<(), AllocError> {
    let own = known_varying(bounds, e, known);
    if own == 0 && has_parts(e) {
        return add(alloc, expressions, e);
    }
    let within = own.saturating_sub(1);
    match e {
        Expr::Number(_) => Ok(()),
        Expr::Linear(_) => Ok(()),
        Expr::Binary(_, a, b) => {
            add_parts(alloc, bounds, expressions, a.get(), within)?;
            add_parts(alloc, bounds, expressions, b.get(), 0)
        }
        Expr::Divide(a, _) => add_parts(alloc, bounds, expressions, a.get(), within),
        Expr::Remainder(a, _) => add_parts(alloc, bounds, expressions, a.get(), within),
        Expr::Select(c, a, b) => {
            add_parts(alloc, bounds, expressions, c.get(), within)?;
            add_parts(alloc, bounds, expressions, a.get(), 0)?;
            add_parts(alloc, bounds, expressions, b.get(), 0)
        }
        Expr::Load(_, x, y) => {
            add_parts(alloc, bounds, expressions, x.get(), within)?;
            add_parts(alloc, bounds, expressions, y.get(), 0)
        }
    }
}

fn add_statement(
    alloc: Global,
    bounds: &[Bound],
    expressions: &mut Vec<Expr>,
    statement: &Stmt,
) -> Result<(), AllocError> {
    match statement {
        Stmt::Store(store) => {
            add_parts(alloc, bounds, expressions, &store.x, 0)?;
            add_parts(alloc, bounds, expressions, &store.y, 0)?;
            add_parts(alloc, bounds, expressions, &store.value, 0)
        }
        Stmt::Sequence(first, second) => {
            add_statement(alloc, bounds, expressions, first.get())?;
            add_statement(alloc, bounds, expressions, second.get())
        }
        Stmt::For(_, _, _, body) => add_statement(alloc, bounds, expressions, body.get()),
        Stmt::Bind(_, _, _, body) => add_statement(alloc, bounds, expressions, body.get()),
    }
}

/// The largest parts of a loop's body, as its code is made, that stay the same in all iterations of this loop and those
/// inside, where these loops stand around it.
pub(crate) fn staying(
    alloc: Global,
    bounds: &[Bound],
    body: &Stmt,
) -> Result<Vec<Expr>, AllocError> {
    let mut expressions = Vec::new(alloc);
    add_statement(alloc, bounds, &mut expressions, body)?;
    Ok(expressions)
}

// ---- whether there may be such parts

/// What is known of an expression where some loop variables go on.
#[derive(Clone, Copy, Debug, PartialEq, Eq)]
enum Invariance {
    /// It is a number or a sum, and stays the same.
    Leaf,
    /// It is more than that, and stays the same.
    Whole,
    /// It doesn't, but some part of it that is more than a sum does.
    Part,
    /// Neither.
    Nothing,
}

/// Whether an expression stays the same.
fn is_invariant(invariance: Invariance) -> bool {
    invariance == Invariance::Leaf || invariance == Invariance::Whole
}

/// Whether an expression is worth a name, or some part of it is.
fn is_worth(invariance: Invariance) -> bool {
    invariance == Invariance::Whole || invariance == Invariance::Part
}

/// Of an operation on two parts.
fn joined(first: Invariance, second: Invariance) -> Invariance {
    if is_invariant(first) && is_invariant(second) {
        Invariance::Whole
    } else if is_worth(first) || is_worth(second) {
        Invariance::Part
    } else {
        Invariance::Nothing
    }
}

/// Of a pixel that is read at these indexes.
fn loaded(column: Invariance, row: Invariance) -> Invariance {
    if is_worth(column) || is_worth(row) {
        Invariance::Part
    } else {
        Invariance::Nothing
    }
}

/// Whether a loop variable is one of these.
fn is_varying(varying: &[Counter], counter: Counter) -> bool {
    varying.iter().any(|own| same_counter(*own, counter))
}

/// Whether some loop variable of a sum is one of these.
fn varies(varying: &[Counter], terms: &[Term]) -> bool {
    terms.iter().any(|term| is_varying(varying, term.counter))
}

/// What is known of an expression where these loop variables go on. Each part is asked once.
fn invariance_of(varying: &[Counter], e: &Expr) -> Invariance {
    match e {
        Expr::Number(_) => Invariance::Leaf,
        Expr::Linear(own) => {
            if varies(varying, own.terms.as_slice()) {
                Invariance::Nothing
            } else {
                Invariance::Leaf
            }
        }
        Expr::Binary(_, a, b) => joined(
            invariance_of(varying, a.get()),
            invariance_of(varying, b.get()),
        ),
        Expr::Divide(a, _) => joined(invariance_of(varying, a.get()), Invariance::Leaf),
        Expr::Remainder(a, _) => joined(invariance_of(varying, a.get()), Invariance::Leaf),
        Expr::Select(c, a, b) => {
            let operands = joined(
                invariance_of(varying, a.get()),
                invariance_of(varying, b.get()),
            );
            joined(invariance_of(varying, c.get()), operands)
        }
        Expr::Load(_, x, y) => loaded(
            invariance_of(varying, x.get()),
            invariance_of(varying, y.get()),
        ),
    }
}

/// Whether some part of a statement's stores may stay the same, where these loop variables go on, and those of loops
/// inside, which are added to them.
fn may_stay(statement: &Stmt, varying: &mut Vec<Counter>) -> Result<bool, AllocError> {
    match statement {
        Stmt::Store(store) => {
            let own = varying.as_slice();
            let point = loaded(invariance_of(own, &store.x), invariance_of(own, &store.y));
            Ok(is_worth(point) || is_worth(invariance_of(own, &store.value)))
        }
        Stmt::Sequence(first, second) => {
            let one = may_stay(first.get(), varying)?;
            let other = may_stay(second.get(), varying)?;
            Ok(one || other)
        }
        Stmt::For(counter, _, _, body) => {
            varying.push(*counter)?;
            may_stay(body.get(), varying)
        }
        // Its variable is the sum of both loops'.
        Stmt::Bind(counter, whole, _, body) => {
            if is_varying(varying.as_slice(), whole.outer)
                || is_varying(varying.as_slice(), whole.inner)
            {
                varying.push(*counter)?;
            }
            may_stay(body.get(), varying)
        }
    }
}

/// Whether some part of a loop's body may stay the same in all iterations of this loop and those inside, as far as its
/// text tells before its code is made.
pub(crate) fn may_stay_in(
    alloc: Global,
    counter: Counter,
    body: &Stmt,
) -> Result<bool, AllocError> {
    let mut varying = Vec::new(alloc);
    varying.push(counter)?;
    may_stay(body, &mut varying)
}
