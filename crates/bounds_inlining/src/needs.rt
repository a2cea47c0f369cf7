//! How many registers the parts of an expression need at once, with its inlined Funcs put in place.
//!
//! What an inlined Func's definition needs is the greatest of what it needs itself and what its arguments need, each
//! with what waits for it. That is found once for each inlined Func, so that no definition is gone through twice.

ghost use Rattle.std.specs.Prelude.{◌≡◌, ℕ, ◌+◌, ◌-◌, ◌^◌, ◌<◌, Bool, List, length, min, max, None, Some, IfOk};
ghost use Rattle.halide_pipeline.specs.declared.definitions.Func.{Func};
ghost use Rattle.bounds_inlining.specs.Inlining.{answer, answered, arguments, flagged, inlined, through};
ghost use Rattle.bounds_inlining.specs.Inlining.{needing};
ghost use Rattle.bounds_inlining.specs.inner.Summing as inner;

use crate::funcs::inlined_func;
use halide_pipeline::{Expr, Func, Source, Variable};
use std::alloc::{AllocError, Global};

/// What a definition needs: so much, and what its arguments need with what waits for them, where it uses them.
/// Numbers past the greatest `u32` count as that.
#[derive(Clone, Copy, Debug)]
pub struct Need {
    pub own: u32,
    pub first: Option<u32>,
    pub second: Option<u32>,
}

/// The greater of two, where they are.
fn longer(a: Option<u32>, b: Option<u32>) -> Option<u32>
    ensures { (n : ℕ) → inner.waited result n ≡ max (inner.waited a n) (inner.waited b n) }
{
    match a {
        None => b,
        Some(first) => match b {
            None => Some(first),
            Some(second) => Some(first.max(second)),
        },
    }
}

/// The greater of two needs.
fn greater(a: Need, b: Need) -> Need
    ensures { (x y : ℕ) → inner.need_at result x y ≡ max (inner.need_at a x y) (inner.need_at b x y) }
{
    Need {
        own: a.own.max(b.own),
        first: longer(a.first, b.first),
        second: longer(a.second, b.second),
    }
}

fn wait(n: u32, waiting: Option<u32>) -> Option<u32>
    ensures { (k : ℕ) → inner.Same (max n (inner.waited result k)) (n + inner.waited waiting k) }
{
    match waiting {
        None => None,
        Some(own) => Some(n.saturating_add(own)),
    }
}

/// So much more.
fn raised(n: u32, a: Need) -> Need
    ensures { (x y : ℕ) → inner.Same (inner.need_at result x y) (n + inner.need_at a x y) }
{
    Need {
        own: n.saturating_add(a.own),
        first: wait(n, a.first),
        second: wait(n, a.second),
    }
}

/// So much alone.
fn number(n: u32) -> Need
    ensures { (x y : ℕ) → inner.need_at result x y ≡ n }
{
    Need {
        own: n,
        first: None,
        second: None,
    }
}

/// What a variable of a definition needs.
fn variable(variable: Variable) -> Need
    ensures { (x y : ℕ) → inner.need_at result x y ≡ arguments 1 x y variable }
{
    match variable {
        Variable::FirstArgument => Need {
            own: 0,
            first: Some(0),
            second: None,
        },
        Variable::SecondArgument => Need {
            own: 0,
            first: None,
            second: Some(0),
        },
        Variable::FirstReduction | Variable::SecondReduction => number(1),
    }
}

/// What an argument needs with what waits for it.
fn waiting(wait: Option<u32>, x: Need) -> Need
    ensures { (p q : ℕ) → inner.Same (inner.need_at result p q) (inner.waited wait (inner.need_at x p q)) }
{
    match wait {
        None => number(0),
        Some(n) => raised(n, x),
    }
}

/// A need whose arguments have needs.
fn applied(need: Need, x: Need, y: Need) -> Need
    ensures { (p q : ℕ) → inner.Same (inner.need_at result p q) (inner.need_at need (inner.need_at x p q)
        (inner.need_at y p q)) }
{
    greater(
        number(need.own),
        greater(waiting(need.first, x), waiting(need.second, y)),
    )
}

/// What is known of the Func that is called, if it is inlined.
fn found(table: &[Option<Need>], source: Source) -> Option<Need>
    ensures { inner.need_of result ≡ answer (inner.needed table.now) source }
{
    match source {
        Source::Input(_) => None,
        Source::Func(place) => match table.get(place) {
            None => None,
            Some(need) => *need,
        },
    }
}

/// What an argument that needs 1 needs with what waits for it.
fn alone(wait: Option<u32>) -> u32
    ensures { inner.Same result (inner.waited wait 1) }
{
    match wait {
        None => 0,
        Some(n) => n.saturating_add(1),
    }
}

/// What a call with one argument needs.
fn called1(table: &[Option<Need>], source: Source, x: Need) -> Need
    ensures { (p q m : ℕ) → inner.Same (inner.need_at x p q) m
        → inner.Same (inner.need_at result p q) (answered m m None (answer (inner.needed table.now) source)) }
{
    match found(table, source) {
        None => x,
        Some(need) => applied(need, x, number(1)),
    }
}

/// What a call with two arguments needs.
fn called2(table: &[Option<Need>], source: Source, x: Need, y: Need) -> Need
    ensures { (p q m n : ℕ) → inner.Same (inner.need_at x p q) m → inner.Same (inner.need_at y p q) n
        → inner.Same (inner.need_at result p q) (answered (max m (1 + n)) m (Some n)
        (answer (inner.needed table.now) source)) }
{
    match found(table, source) {
        None => greater(x, raised(1, y)),
        Some(need) => applied(need, x, y),
    }
}

/// What a definition needs, with its inlined Funcs put in place.
#[tactic(auto, unfolding(crate::specs::Inlining::through, crate::specs::Inlining::needing))]
fn need_of(table: &[Option<Need>], expr: &Expr) -> Need
    ensures { (x y : ℕ) → inner.Same (inner.need_at result x y) (through needing (inner.needed table.now)
        (arguments 1 x y) expr.now) }
{
    match expr {
        Expr::Number(_) => number(1),
        Expr::Variable(own) => variable(*own),
        Expr::Divide(a, _) => greater(need_of(table, a.get()), number(2)),
        Expr::Remainder(a, _) => greater(need_of(table, a.get()), number(2)),
        Expr::Binary(_, a, b) => greater(
            need_of(table, a.get()),
            raised(1, need_of(table, b.get())),
        ),
        Expr::Select(c, a, b) => greater(
            need_of(table, c.get()),
            greater(
                raised(1, need_of(table, a.get())),
                raised(2, need_of(table, b.get())),
            ),
        ),
        Expr::Call1(source, x) => called1(table, *source, need_of(table, x.get())),
        Expr::Call2(source, x, y) => called2(
            table,
            *source,
            need_of(table, x.get()),
            need_of(table, y.get()),
        ),
    }
}

/// What a call of the Func at a place needs, if it is inlined, by what is known of those before it.
fn call_at(
    table: &[Option<Need>],
    funcs: &[Func],
    flags: &[bool],
    func_index: usize,
) -> Option<Need>
    requires known { inner.Needs flags.now funcs.now table.now }
    requires next { length table.now ≡ func_index }
    requires few { func_index < length funcs.now }
    ensures { inner.SameCall (inner.need_of result) (inner.need_made flags.now funcs.now func_index) }
{
    match inlined_func(funcs, flags, func_index + 1, func_index) {
        None => None,
        Some(func) => Some(need_of(table, &func.pure)),
    }
}

/// What a call of each Func needs, where it is inlined, as its flag says.
pub fn need_calls(
    alloc: Global,
    funcs: &[Func],
    flags: &[bool],
) -> Result<Vec<Option<Need>>, AllocError>
    ensures { IfOk result (λ table. inner.Needs flags.now funcs.now table.items
        × (length table.items ≡ length funcs.now)) }
{
    let mut table = Vec::new(alloc);
    for place in 0..funcs.len() {
        let need = call_at(table.as_slice(), funcs, flags, place);
        table.push(need)?;
    }
    Ok(table)
}

/// What an expression needs with its inlined Funcs put in place, or the greatest `u32` if it needs more.
pub fn registers(calls: &[Option<Need>], expr: &Expr) -> u32
    ensures { (flags : List Bool) (funcs : List Func) → inner.Needs flags funcs calls.now
        → result ≡ min (inlined needing (flagged flags) funcs (length calls.now) (λ v. 1) expr.now) (2 ^ 32 - 1) }
{
    let need = need_of(calls, expr);
    let first = alone(need.first);
    let second = alone(need.second);
    need.own.max(first.max(second))
}
