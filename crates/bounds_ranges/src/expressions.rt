//! The range of an expression with its inlined Funcs put in place, and of the points that it reads.

ghost use Rattle.std.specs.Prelude.{◌≡◌, ◌++◌, [], ◌∷◌, Some, IfOk, OnOk};
ghost use Rattle.bounds_ranges.specs.Expressions as spec;
ghost use Rattle.bounds_ranges.specs.Ranges.{IsFit};
ghost use Rattle.bounds_ranges.specs.inner.Walking as walking;

use crate::bases::no_base;
use crate::ranges::{
    Ends, Lasts, ORIGIN, Range, between, divided, every, fit, hull, literal, operated, remainders,
};
use bounds_inlining::inlined_func;
use halide_pipeline::{Expr, Func, Input, Source, Variable};
use std::alloc::AllocError;

/// A read: in which ranges its point lies. An index that isn't written is 0.
#[derive(Clone, Copy, Debug)]
pub struct ReadRange {
    pub source: Source,
    pub x: Range,
    pub y: Range,
}

/// The ranges of an expression's variables.
#[derive(Clone, Copy, Debug)]
pub struct Variables {
    pub first_argument: Range,
    pub second_argument: Range,
    pub first_reduction: Range,
    pub second_reduction: Range,
}

/// The scope of an expression: the loops around it, what it may call, and its variables.
#[derive(Clone, Copy)]
pub struct RangeScope<'a> {
    pub lasts: &'a Lasts,
    pub inputs: &'a [Input],
    pub funcs: &'a [Func],
    /// Which Funcs are inlined.
    pub flags: &'a [bool],
    /// How many Funcs may be called, the first ones.
    pub count: usize,
    pub variables: &'a Variables,
}

/// Which calls in an update are of its own Func, and which arguments its left side has in place.
#[derive(Clone, Copy, Debug)]
pub struct OwnCalls {
    /// The Func's place, from 0.
    pub func: usize,
    pub first_in_place: bool,
    pub second_in_place: bool,
}

/// The range of what a source answers: a byte, or any word.
fn called(lasts: &Lasts, inputs: &[Input], source: Source) -> Range
    ensures value { result ≡ spec.called inputs.now source }
    ensures fits { IsFit lasts.now result }
{
    match source {
        Source::Func(_) => every(),
        Source::Input(place) => match inputs.get(place) {
            None => every(),
            Some(input) => pixels_of(lasts, input),
        },
    }
}

/// The range of an input's pixels.
fn pixels_of(lasts: &Lasts, input: &Input) -> Range
    ensures value { result ≡ spec.pixels_of (Some input.now) }
    ensures fits { IsFit lasts.now result }
{
    if input.is_bytes {
        between(ORIGIN, ORIGIN + 255)
    } else {
        every()
    }
}

/// The range of a variable.
fn variable(variables: &Variables, variable: Variable) -> Range
    ensures { result ≡ spec.range_of variables.now variable }
{
    match variable {
        Variable::FirstArgument => variables.first_argument,
        Variable::SecondArgument => variables.second_argument,
        Variable::FirstReduction => variables.first_reduction,
        Variable::SecondReduction => variables.second_reduction,
    }
}

/// The range of an expression with its inlined Funcs put in place. The ranges of the points that it reads are appended,
/// those of an argument of an inlined Func once.
#[cycle(ranged)]
#[tactic(auto, unfolding(bounds_inlining::specs::Inlining::through, crate::specs::Expressions::ranging))]
pub fn ranged(
    scope: &RangeScope<'_>,
    expr: &Expr,
    asked: &mut Vec<ReadRange>,
) -> Result<Range, AllocError>
    requires variables { spec.AreFit scope.now.lasts.now scope.now.variables.now }
    requires reads { spec.AreFitReads scope.now.lasts.now asked.old.items }
    ensures range { IfOk result (λ r. r
        ≡ (spec.walked scope.now.lasts.now scope.now.inputs.now scope.now.flags.now scope.now.funcs.now
        scope.now.count scope.now.variables.now expr.now).range) }
    ensures asked { OnOk result (asked.new.items ≡ asked.old.items
        ++ (spec.walked scope.now.lasts.now scope.now.inputs.now scope.now.flags.now scope.now.funcs.now
        scope.now.count scope.now.variables.now expr.now).asked) }
    ensures fits { IfOk result (λ r. IsFit scope.now.lasts.now r) }
    ensures reads { OnOk result (spec.AreFitReads scope.now.lasts.now asked.new.items) }
{
    match expr {
        Expr::Number(number) => Ok(literal(scope.lasts, *number)),
        Expr::Variable(own) => Ok(variable(scope.variables, *own)),
        Expr::Binary(operation, a, b) => {
            let a = ranged(scope, a.get(), asked)?;
            let b = ranged(scope, b.get(), asked)?;
            Ok(operated(scope.lasts, *operation, &a, &b))
        }
        Expr::Divide(a, divisor) => {
            let a = ranged(scope, a.get(), asked)?;
            Ok(divided(scope.lasts, &a, *divisor))
        }
        Expr::Remainder(a, divisor) => {
            ranged(scope, a.get(), asked)?;
            Ok(remainders(scope.lasts, *divisor))
        }
        Expr::Select(c, a, b) => {
            ranged(scope, c.get(), asked)?;
            let a = ranged(scope, a.get(), asked)?;
            let b = ranged(scope, b.get(), asked)?;
            Ok(hull(scope.lasts, &a, &b))
        }
        Expr::Call1(source, x) => {
            let x = ranged(scope, x.get(), asked)?;
            let y = literal(scope.lasts, 0);
            let range = answered(scope, *source, x, y, asked)?;
            Ok(range)
        }
        Expr::Call2(source, x, y) => {
            let x = ranged(scope, x.get(), asked)?;
            let second = ranged(scope, y.get(), asked)?;
            let range = answered(scope, *source, x, second, asked)?;
            Ok(range)
        }
    }
}

/// The range of a call of an input or a computed Func, which is appended.
#[tactic(auto, using(crate::proofs::Walking::fit_behind))]
fn ask(
    lasts: &Lasts,
    inputs: &[Input],
    source: Source,
    x: Range,
    y: Range,
    asked: &mut Vec<ReadRange>,
) -> Result<Range, AllocError>
    requires first { IsFit lasts.now x }
    requires second { IsFit lasts.now y }
    requires reads { spec.AreFitReads lasts.now asked.old.items }
    ensures range { IfOk result (λ r. r ≡ spec.called inputs.now source) }
    ensures fits { IfOk result (λ r. IsFit lasts.now r) }
    ensures reads { OnOk result (spec.AreFitReads lasts.now asked.new.items) }
    ensures asked { OnOk result (asked.new.items ≡ asked.old.items ++ (record { source = source; x = x; y = y } ∷ [])) }
{
    asked.push(ReadRange { source, x, y })?;
    Ok(called(lasts, inputs, source))
}

/// The range of a call, whose indexes have these ranges.
#[cycle(ranged)]
fn answered(
    scope: &RangeScope<'_>,
    source: Source,
    x: Range,
    y: Range,
    asked: &mut Vec<ReadRange>,
) -> Result<Range, AllocError>
    requires first { IsFit scope.now.lasts.now x }
    requires second { IsFit scope.now.lasts.now y }
    requires reads { spec.AreFitReads scope.now.lasts.now asked.old.items }
    ensures range { IfOk result (λ r. r
        ≡ (walking.answer_of scope.now.lasts.now scope.now.inputs.now scope.now.flags.now scope.now.funcs.now
        scope.now.count source x y).range) }
    ensures asked { OnOk result (asked.new.items ≡ asked.old.items
        ++ (walking.answer_of scope.now.lasts.now scope.now.inputs.now scope.now.flags.now scope.now.funcs.now
        scope.now.count source x y).asked) }
    ensures fits { IfOk result (λ r. IsFit scope.now.lasts.now r) }
    ensures reads { OnOk result (spec.AreFitReads scope.now.lasts.now asked.new.items) }
{
    let Source::Func(place) = source else {
        let range = ask(scope.lasts, scope.inputs, source, x, y, asked)?;
        return Ok(range);
    };
    match inlined_func(scope.funcs, scope.flags, scope.count, place) {
        None => {
            let range = ask(scope.lasts, scope.inputs, source, x, y, asked)?;
            Ok(range)
        }
        Some(func) => {
            let zero = literal(scope.lasts, 0);
            let variables = Variables {
                first_argument: x,
                second_argument: y,
                first_reduction: zero,
                second_reduction: zero,
            };
            let inside = RangeScope {
                count: place,
                variables: &variables,
                ..*scope
            };
            let range = ranged(&inside, &func.pure, asked)?;
            Ok(range)
        }
    }
}

/// The range of a variable of an update, where arguments may be anywhere or not.
fn update_variable(
    lasts: &Lasts,
    variables: &Variables,
    anywhere: bool,
    own_variable: Variable,
) -> Range
    requires { spec.AreFit lasts.now variables.now }
    ensures value { result ≡ spec.ranges_where lasts.now (spec.range_of variables.now) anywhere own_variable }
    ensures fits { IsFit lasts.now result }
{
    if !anywhere {
        return variable(variables, own_variable);
    }
    match own_variable {
        Variable::FirstArgument | Variable::SecondArgument => {
            let ends = Ends {
                low: ORIGIN - (1 << 24),
                high: ORIGIN + (1 << 24),
            };
            fit(lasts, no_base(), ends)
        }
        Variable::FirstReduction | Variable::SecondReduction => variable(variables, own_variable),
    }
}

/// Whether arguments may be anywhere in an index of a call.
fn is_anywhere(own_calls: &OwnCalls, anywhere: bool, source: Source, in_place: bool) -> bool
    ensures { result ≡ spec.is_anywhere own_calls.now anywhere source in_place }
{
    anywhere
        || match source {
            Source::Input(_) => false,
            Source::Func(place) => own_calls.func == place && !in_place,
        }
}

/// As [`ranged`] does, of an expression of an update. In an index of a call of the own Func that doesn't stand in
/// place, each argument counts as -2^24 to 2^24; with `anywhere` it does so everywhere, as in an index of the left side
/// that doesn't stand in place.
#[tactic(auto, unfolding(crate::specs::Expressions::ranged_update, crate::specs::Expressions::ranging))]
pub fn ranged_update(
    scope: &RangeScope<'_>,
    own_calls: &OwnCalls,
    anywhere: bool,
    expr: &Expr,
    asked: &mut Vec<ReadRange>,
) -> Result<Range, AllocError>
    requires variables { spec.AreFit scope.now.lasts.now scope.now.variables.now }
    requires reads { spec.AreFitReads scope.now.lasts.now asked.old.items }
    ensures range { IfOk result (λ r. r
        ≡ (spec.walked_update scope.now.lasts.now scope.now.inputs.now scope.now.flags.now scope.now.funcs.now
        scope.now.count own_calls.now anywhere scope.now.variables.now expr.now).range) }
    ensures asked { OnOk result (asked.new.items ≡ asked.old.items
        ++ (spec.walked_update scope.now.lasts.now scope.now.inputs.now scope.now.flags.now scope.now.funcs.now
        scope.now.count own_calls.now anywhere scope.now.variables.now expr.now).asked) }
    ensures fits { IfOk result (λ r. IsFit scope.now.lasts.now r) }
    ensures reads { OnOk result (spec.AreFitReads scope.now.lasts.now asked.new.items) }
{
    match expr {
        Expr::Number(number) => Ok(literal(scope.lasts, *number)),
        Expr::Variable(v) => Ok(update_variable(scope.lasts, scope.variables, anywhere, *v)),
        Expr::Binary(operation, a, b) => {
            let a = ranged_update(scope, own_calls, anywhere, a.get(), asked)?;
            let b = ranged_update(scope, own_calls, anywhere, b.get(), asked)?;
            Ok(operated(scope.lasts, *operation, &a, &b))
        }
        Expr::Divide(a, divisor) => {
            let a = ranged_update(scope, own_calls, anywhere, a.get(), asked)?;
            Ok(divided(scope.lasts, &a, *divisor))
        }
        Expr::Remainder(a, divisor) => {
            ranged_update(scope, own_calls, anywhere, a.get(), asked)?;
            Ok(remainders(scope.lasts, *divisor))
        }
        Expr::Select(c, a, b) => {
            ranged_update(scope, own_calls, anywhere, c.get(), asked)?;
            let a = ranged_update(scope, own_calls, anywhere, a.get(), asked)?;
            let b = ranged_update(scope, own_calls, anywhere, b.get(), asked)?;
            Ok(hull(scope.lasts, &a, &b))
        }
        Expr::Call1(source, x) => {
            let first = is_anywhere(own_calls, anywhere, *source, own_calls.first_in_place);
            let x = ranged_update(scope, own_calls, first, x.get(), asked)?;
            let y = literal(scope.lasts, 0);
            let range = answered(scope, *source, x, y, asked)?;
            Ok(range)
        }
        Expr::Call2(source, x, y) => {
            let first = is_anywhere(own_calls, anywhere, *source, own_calls.first_in_place);
            let second = is_anywhere(own_calls, anywhere, *source, own_calls.second_in_place);
            let x = ranged_update(scope, own_calls, first, x.get(), asked)?;
            let y = ranged_update(scope, own_calls, second, y.get(), asked)?;
            let range = answered(scope, *source, x, y, asked)?;
            Ok(range)
        }
    }
}
