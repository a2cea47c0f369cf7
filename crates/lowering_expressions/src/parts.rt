//! Expressions from their parts: each follows what is seen of a definition if its parts do.

ghost use Rattle.std.specs.Prelude.{◌≡◌, ◌≤◌, ◌+◌, ℕ, Bool, List, IfOk, IfSome, max};
ghost use Rattle.halide_pipeline.specs.Words as word;
ghost use Rattle.halide_pipeline.specs.declared.expressions.Expr.TheOpen as layer;
ghost use Rattle.halide_pipeline.specs.Pixel.{Reads};
ghost use Rattle.halide_pipeline.specs.Points.{Hold, Point, Seen};
ghost use Rattle.loop_ir.specs.Counters.{Values};
ghost use Rattle.loop_ir.specs.Expressions.{loads, value};
ghost use Rattle.loop_ir.specs.Needs.{divisor_need, need};
ghost use Rattle.loop_ir.specs.Sizes.{size};
ghost use Rattle.lowering_expressions.specs.declared.calls.Corner.{Corner};
ghost use Rattle.lowering_expressions.specs.inner.Following.{Follows, algebra};

use halide_pipeline::{Operation, Source, words};
use loop_ir::expressions::{Expr, Linear};
use sqlite_items::Boxed;
use std::alloc::{AllocError, Global};

/// Two expressions.
pub(crate) struct ExprPair {
    pub first: Expr,
    pub second: Expr,
}

impl Drop for ExprPair {
    fn drop(self) {
        let ExprPair { first, second } = self;
        drop(first);
        drop(second);
    }
}

/// Two sums.
pub(crate) fn two_sums(
    alloc: Global,
    first: &Linear,
    second: &Linear,
) -> Result<ExprPair, AllocError>
    ensures first { IfOk result (λ made. made.first ≡ Expr.Linear first.now) }
    ensures second { IfOk result (λ made. made.second ≡ Expr.Linear second.now) }
{
    let first = first.copy(alloc)?;
    let second = second.copy(alloc)?;
    Ok(ExprPair {
        first: Expr::Linear(first),
        second: Expr::Linear(second),
    })
}

/// The same expression once more.
pub(crate) fn copy(alloc: Global, expression: &Expr) -> Result<Expr, AllocError>
    ensures { IfOk result (λ new_expression. new_expression ≡ expression.now) }
{
    match expression {
        Expr::Number(number) => Ok(Expr::Number(*number)),
        Expr::Linear(linear) => {
            let new_expression = linear.copy(alloc)?;
            Ok(Expr::Linear(new_expression))
        }
        Expr::Binary(operation, a, b) => {
            let a = copy(alloc, a.get())?;
            let b = copy(alloc, b.get())?;
            let new_expression = new_binary(alloc, *operation, a, b)?;
            Ok(new_expression)
        }
        Expr::Divide(a, divisor) => {
            let a = copy(alloc, a.get())?;
            Ok(Expr::Divide(Boxed::new(alloc, a)?, *divisor))
        }
        Expr::Remainder(a, divisor) => {
            let a = copy(alloc, a.get())?;
            Ok(Expr::Remainder(Boxed::new(alloc, a)?, *divisor))
        }
        Expr::Select(c, a, b) => {
            let c = copy(alloc, c.get())?;
            let a = copy(alloc, a.get())?;
            let b = copy(alloc, b.get())?;
            let new_expression = new_select(alloc, c, a, b)?;
            Ok(new_expression)
        }
        Expr::Load(source, x, y) => {
            let x = copy(alloc, x.get())?;
            let y = copy(alloc, y.get())?;
            let new_expression = new_load(alloc, *source, x, y)?;
            Ok(new_expression)
        }
    }
}

/// An operation on two, as a tree.
pub(crate) fn new_binary(
    alloc: Global,
    operation: Operation,
    a: Expr,
    b: Expr,
) -> Result<Expr, AllocError>
    ensures { IfOk result (λ made. made ≡ Expr.Binary operation a b) }
{
    let left = Boxed::new(alloc, a)?;
    let right = Boxed::new(alloc, b)?;
    Ok(Expr::Binary(operation, left, right))
}

/// A choice, as a tree.
fn new_select(alloc: Global, c: Expr, a: Expr, b: Expr) -> Result<Expr, AllocError>
    ensures { IfOk result (λ made. made ≡ Expr.Select c a b) }
{
    let condition = Boxed::new(alloc, c)?;
    let left = Boxed::new(alloc, a)?;
    let right = Boxed::new(alloc, b)?;
    Ok(Expr::Select(condition, left, right))
}

/// What the buffer of a source holds at x and y.
pub(crate) fn new_load(alloc: Global, source: Source, x: Expr, y: Expr) -> Result<Expr, AllocError>
    ensures { IfOk result (λ made. made ≡ Expr.Load source x y) }
{
    let column = Boxed::new(alloc, x)?;
    let row = Boxed::new(alloc, y)?;
    Ok(Expr::Load(source, column, row))
}

/// A number.
pub(crate) fn number(number: u32) -> Expr
    ensures is { result ≡ Expr.Number number }
    ensures follows { (corners : List Corner) (values : Values) (reads : Reads) (given : List Point)
        → Follows corners values reads given result ((algebra corners values reads).level (layer.Number number)) }
{
    Expr::Number(number)
}

/// An operation on two.
pub(crate) fn binary(
    alloc: Global,
    operation: Operation,
    a: Expr,
    b: Expr,
) -> Result<Expr, AllocError>
    ensures follows { IfOk result (λ expression. (corners : List Corner) (values : Values) (reads : Reads)
        (given : List Point) (left right : Seen)
        → Follows corners values reads given a left → Follows corners values reads given b right
        → Follows corners values reads given expression ((algebra corners values reads).level
        (layer.Binary operation left right))) }
    ensures needs { IfOk result (λ expression. need expression ≤ max (need a) (1 + need b)) }
    ensures sizes { IfOk result (λ expression. size expression ≤ size a + size b + 19) }
{
    match shift_of(operation, &b) {
        None => {
            let expression = new_binary(alloc, operation, a, b)?;
            Ok(expression)
        }
        Some(number) => {
            let expression = shifted(alloc, a, number)?;
            Ok(expression)
        }
    }
}

/// What is added to a left side, if the operation adds a number to it or takes one away.
fn shift_of(operation: Operation, right: &Expr) -> Option<u32>
    ensures { IfSome result (λ n. (reads : Reads) (values : Values) (x : ℕ)
        → word.applied operation x (value reads values right.now) ≡ word.add x n) }
{
    match right {
        Expr::Number(number) => match operation {
            Operation::Add => Some(*number),
            Operation::Subtract => Some(words::subtract(0, *number)),
            _ => None,
        },
        _ => None,
    }
}

/// An expression and so much more.
fn shifted(alloc: Global, expression: Expr, number: u32) -> Result<Expr, AllocError>
    ensures value { IfOk result (λ new_expression. (reads : Reads) (values : Values) → value reads values new_expression
        ≡ word.add (value reads values expression) number) }
    ensures loads { IfOk result (λ new_expression. (reads : Reads) (values : Values) (test : Point → Bool)
        → Hold test (loads reads values expression) → Hold test (loads reads values new_expression)) }
    ensures needs { IfOk result (λ new_expression. need new_expression ≤ need expression) }
    ensures sizes { IfOk result (λ new_expression. size new_expression ≤ size expression + 6) }
{
    match &expression {
        Expr::Linear(linear) => {
            let sum = linear.copy(alloc)?;
            Ok(Expr::Linear(sum.plus_number(number)))
        }
        _ => {
            let new_expression = new_binary(
                alloc,
                Operation::Add,
                expression,
                Expr::Number(number),
            )?;
            Ok(new_expression)
        }
    }
}

/// A quotient.
pub(crate) fn divide(alloc: Global, a: Expr, divisor: u32) -> Result<Expr, AllocError>
    ensures follows { IfOk result (λ made. (corners : List Corner) (values : Values) (reads : Reads)
        (given : List Point) (seen : Seen)
        → Follows corners values reads given a seen
        → Follows corners values reads given made ((algebra corners values reads).level (layer.Divide seen divisor))) }
    ensures needs { IfOk result (λ made. need made ≤ max (need a) (divisor_need divisor)) }
    ensures sizes { IfOk result (λ made. size made ≤ size a + 11) }
{
    let seen = Boxed::new(alloc, a)?;
    Ok(Expr::Divide(seen, divisor))
}

/// A remainder.
pub(crate) fn remainder(alloc: Global, a: Expr, divisor: u32) -> Result<Expr, AllocError>
    ensures follows { IfOk result (λ made. (corners : List Corner) (values : Values) (reads : Reads)
        (given : List Point) (seen : Seen)
        → Follows corners values reads given a seen
        → Follows corners values reads given made ((algebra corners values reads).level
        (layer.Remainder seen divisor))) }
    ensures needs { IfOk result (λ made. need made ≤ max (need a) (divisor_need divisor)) }
    ensures sizes { IfOk result (λ made. size made ≤ size a + 13) }
{
    let seen = Boxed::new(alloc, a)?;
    Ok(Expr::Remainder(seen, divisor))
}

/// A choice.
pub(crate) fn select(alloc: Global, c: Expr, a: Expr, b: Expr) -> Result<Expr, AllocError>
    ensures follows { IfOk result (λ expression. (corners : List Corner) (values : Values) (reads : Reads)
        (given : List Point) (test left right : Seen)
        → Follows corners values reads given c test → Follows corners values reads given a left
        → Follows corners values reads given b right
        → Follows corners values reads given expression ((algebra corners values reads).level
        (layer.Select test left right))) }
    ensures needs { IfOk result (λ expression. need expression ≤ max (need c) (max (1 + need a) (2 + need b))) }
    ensures sizes { IfOk result (λ expression. size expression ≤ size c + size a + size b + 33) }
{
    let expression = new_select(alloc, c, a, b)?;
    Ok(expression)
}
