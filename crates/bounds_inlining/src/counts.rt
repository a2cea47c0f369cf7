//! How many nodes an expression has with its inlined Funcs put in place.
//!
//! The nodes of an inlined Func's definition are a sum: its own, and those of its arguments this many times. One sum is
//! kept for each inlined Func, so that no definition is gone through twice.

ghost use Rattle.std.specs.Prelude.{◌≡◌, ℕ, ◌+◌, ◌-◌, ◌*◌, ◌^◌, ◌<◌, Bool, List, length, min, None, Some, IfOk};
ghost use Rattle.bounds_inlining.specs.Inlining.{answer, answered, arguments, flagged, inlined, through};
ghost use Rattle.bounds_inlining.specs.Inlining.{counting, dropped};
ghost use Rattle.halide_pipeline.specs.declared.definitions.Func.{Func};
ghost use Rattle.halide_pipeline.specs.Expressions.{uses};
ghost use Rattle.halide_pipeline.specs.declared.expressions.Variable.TheVariants as variables;
ghost use Rattle.bounds_inlining.specs.inner.Summing as inner;

use crate::funcs::inlined_func;
use halide_pipeline::{Expr, Func, Source, Variable};
use std::alloc::{AllocError, Global};

/// This many nodes, and those of the first and the second argument this many times. Numbers past the greatest `u32`
/// count as that.
#[derive(Clone, Copy, Debug)]
pub struct Sum {
    pub own: u32,
    pub first: u32,
    pub second: u32,
}

/// What a call of an inlined Func counts: with one argument, and with two.
#[derive(Clone, Copy, Debug)]
pub struct CountCall {
    pub one: Sum,
    pub two: Sum,
}

/// The sum of two sums.
fn plus(a: Sum, b: Sum) -> Sum
    ensures { (x y : ℕ) → inner.Same (inner.sum_at result x y) (inner.sum_at a x y + inner.sum_at b x y) }
{
    Sum {
        own: a.own.saturating_add(b.own),
        first: a.first.saturating_add(b.first),
        second: a.second.saturating_add(b.second),
    }
}

/// A sum this many times.
fn times(n: u32, a: Sum) -> Sum
    ensures { (x y : ℕ) → inner.Same (inner.sum_at result x y) (inner.times n (inner.sum_at a x y)) }
{
    Sum {
        own: n.saturating_mul(a.own),
        first: n.saturating_mul(a.first),
        second: n.saturating_mul(a.second),
    }
}

/// This many nodes alone.
fn number(n: u32) -> Sum
    ensures { (x y : ℕ) → inner.Same (inner.sum_at result x y) n }
{
    Sum {
        own: n,
        first: 0,
        second: 0,
    }
}

/// The nodes of a variable of a definition.
fn variable(variable: Variable) -> Sum
    ensures { (x y : ℕ) → inner.Same (inner.sum_at result x y) (arguments 1 x y variable) }
{
    match variable {
        Variable::FirstArgument => Sum {
            own: 0,
            first: 1,
            second: 0,
        },
        Variable::SecondArgument => Sum {
            own: 0,
            first: 0,
            second: 1,
        },
        Variable::FirstReduction | Variable::SecondReduction => number(1),
    }
}

/// A sum whose arguments are sums.
fn applied(sum: Sum, x: Sum, y: Sum) -> Sum
    ensures { (p q m n : ℕ) → inner.Same (inner.sum_at x p q) m → inner.Same (inner.sum_at y p q) n
        → inner.Same (inner.sum_at result p q) (inner.sum_at sum m n) }
{
    plus(
        number(sum.own),
        plus(times(sum.first, x), times(sum.second, y)),
    )
}

/// What is known of the Func that is called, if it is inlined.
fn found(table: &[Option<CountCall>], source: Source) -> Option<CountCall>
    ensures { inner.call_of result ≡ answer (inner.counted table.now) source }
{
    match source {
        Source::Input(_) => None,
        Source::Func(place) => match table.get(place) {
            None => None,
            Some(call) => *call,
        },
    }
}

/// The nodes of a call with one argument.
fn called1(table: &[Option<CountCall>], source: Source, x: Sum) -> Sum
    ensures { (p q m : ℕ) → inner.Same (inner.sum_at x p q) m
        → inner.Same (inner.sum_at result p q) (answered (1 + m) m None (answer (inner.counted table.now) source)) }
{
    match found(table, source) {
        None => plus(number(1), x),
        Some(call) => applied(call.one, x, number(0)),
    }
}

/// The nodes of a call with two arguments.
fn called2(table: &[Option<CountCall>], source: Source, x: Sum, y: Sum) -> Sum
    ensures { (p q m n : ℕ) → inner.Same (inner.sum_at x p q) m → inner.Same (inner.sum_at y p q) n
        → inner.Same (inner.sum_at result p q)
        (answered (1 + m + n) m (Some n) (answer (inner.counted table.now) source)) }
{
    match found(table, source) {
        None => plus(number(1), plus(x, y)),
        Some(call) => applied(call.two, x, y),
    }
}

/// The nodes of a definition, with its inlined Funcs put in place.
#[tactic(auto, unfolding(crate::specs::Inlining::through, crate::specs::Inlining::counting))]
fn sum_of(table: &[Option<CountCall>], expr: &Expr) -> Sum
    ensures { (x y : ℕ) → inner.Same (inner.sum_at result x y) (through counting (inner.counted table.now)
        (arguments 1 x y) expr.now) }
{
    match expr {
        Expr::Number(_) => number(1),
        Expr::Variable(own) => variable(*own),
        Expr::Divide(a, _) => plus(number(2), sum_of(table, a.get())),
        Expr::Remainder(a, _) => plus(number(2), sum_of(table, a.get())),
        Expr::Binary(_, a, b) => plus(
            number(1),
            plus(sum_of(table, a.get()), sum_of(table, b.get())),
        ),
        Expr::Select(c, a, b) => plus(
            plus(number(1), sum_of(table, c.get())),
            plus(sum_of(table, a.get()), sum_of(table, b.get())),
        ),
        Expr::Call1(source, x) => called1(table, *source, sum_of(table, x.get())),
        Expr::Call2(source, x, y) => called2(
            table,
            *source,
            sum_of(table, x.get()),
            sum_of(table, y.get()),
        ),
    }
}

/// What a call of an inlined Func counts, whose definition has this sum.
fn call_for(definition: &Expr, sum: Sum) -> CountCall
    ensures one { (x : ℕ) → inner.Same (inner.count_call result x None)
        (inner.sum_at sum x 1 + dropped (uses variables.FirstArgument definition.now) x) }
    ensures two { (x y : ℕ) → inner.Same (inner.count_call result x (Some y))
        (inner.sum_at sum x y + dropped (uses variables.FirstArgument definition.now) x + dropped
        (uses variables.SecondArgument definition.now) y) }
{
    let first = more(sum.first, definition.uses(Variable::FirstArgument));
    let second = more(sum.second, definition.uses(Variable::SecondArgument));
    CountCall {
        one: Sum {
            own: sum.own.saturating_add(sum.second),
            first,
            second: 0,
        },
        two: Sum {
            own: sum.own,
            first,
            second,
        },
    }
}

/// One more, where that isn't so.
fn more(n: u32, is_used: bool) -> u32
    ensures { (x : ℕ) → inner.Same (inner.times result x) (n * x + dropped is_used x) }
{
    if is_used { n } else { n.saturating_add(1) }
}

/// What a call of the Func at a place counts, if it is inlined, by what is known of those before it.
fn call_at(
    table: &[Option<CountCall>],
    funcs: &[Func],
    flags: &[bool],
    func_index: usize,
) -> Option<CountCall>
    requires known { inner.Counts flags.now funcs.now table.now }
    requires next { length table.now ≡ func_index }
    requires few { func_index < length funcs.now }
    ensures { inner.SameCall (inner.call_of result) (inner.made_at flags.now funcs.now func_index) }
{
    match inlined_func(funcs, flags, func_index + 1, func_index) {
        None => None,
        Some(func) => Some(call_for(&func.pure, sum_of(table, &func.pure))),
    }
}

/// What a call of each Func counts, where it is inlined, as its flag says.
pub fn count_calls(
    alloc: Global,
    funcs: &[Func],
    flags: &[bool],
) -> Result<Vec<Option<CountCall>>, AllocError>
    ensures { IfOk result (λ table. inner.Counts flags.now funcs.now table.items
        × (length table.items ≡ length funcs.now)) }
{
    let mut table = Vec::new(alloc);
    for place in 0..funcs.len() {
        let call = call_at(table.as_slice(), funcs, flags, place);
        table.push(call)?;
    }
    Ok(table)
}

/// How many nodes an expression has with its inlined Funcs put in place, or the greatest `u32` if there are more.
pub fn nodes(calls: &[Option<CountCall>], expr: &Expr) -> u32
    ensures { (flags : List Bool) (funcs : List Func) → inner.Counts flags funcs calls.now
        → result ≡ min (inlined counting (flagged flags) funcs (length calls.now) (λ v. 1) expr.now) (2 ^ 32 - 1) }
{
    let sum = sum_of(calls, expr);
    sum.own.saturating_add(sum.first.saturating_add(sum.second))
}
