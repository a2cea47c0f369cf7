//! Definitions with their inlined Funcs put in place.

ghost use Rattle.std.specs.Prelude.{◌≡◌, ◌≤◌, ℕ, Bool, List, Option, Some, IfOk};
ghost use Rattle.halide_pipeline.specs.declared.expressions.Expr.TheOpen as layer;
ghost use Rattle.halide_pipeline.specs.declared.expressions.Variable.{Variable as Variables};
ghost use Rattle.halide_pipeline.specs.Pixel.{Reads, variable as variable_in};
ghost use Rattle.halide_pipeline.specs.Points.{Point, Seen, Hold};
ghost use Rattle.bounds_inlining.specs.Inlining.{answer, answered, flagged, inlined, inside};
ghost use Rattle.bounds_inlining.specs.Laws.{seen_variable};
ghost use Rattle.bounds_inlining.specs.Values.{values as valuing, seeing};
ghost use Rattle.loop_ir.specs.declared.expressions.Expr.TheVariants as sum;
ghost use Rattle.loop_ir.specs.Counters.{Values};
ghost use Rattle.loop_ir.specs.Expressions.{value, loads};
ghost use Rattle.bounds_inlining.specs.Inlining.{counting};
ghost use Rattle.loop_ir.specs.Needs.{need};
ghost use Rattle.loop_ir.specs.Sizes.{size};
ghost use Rattle.lowering_expressions.specs.Lowering.{environment, place, placed};
ghost use Rattle.lowering_expressions.specs.Needing.{taking};
ghost use Rattle.lowering_expressions.specs.inner.Following.{Follows, algebra, variable_terms, term_loads};
ghost use Rattle.lowering_expressions.specs.Sizing.{AreShort, AreShortArguments, IsGiven};
ghost use Rattle.lowering_expressions.specs.inner.Sizing.{AreGiven, IsGivenSecond, call_nodes, term_size};
ghost use Rattle.lowering_expressions.specs.inner.Taking.{AreTaken, IsSecond, call_need, term_need};

use crate::calls::{Corner, load};
use crate::parts::{ExprPair, binary, copy, divide, number, remainder, select, two_sums};
use bounds_inlining::inlined_func;
use halide_pipeline::{Expr, Func, Source, Variable};
use loop_ir::expressions as terms;
use loop_ir::expressions::Linear;
use std::alloc::{AllocError, Global};

/// What stands for the variables of a definition.
#[derive(Debug)]
pub struct Arguments {
    pub first_argument: Linear,
    pub second_argument: Linear,
    pub first_reduction: Linear,
    pub second_reduction: Linear,
}

impl Drop for Arguments {
    fn drop(self) {
        let Arguments {
            first_argument,
            second_argument,
            first_reduction,
            second_reduction,
        } = self;
        drop(first_argument);
        drop(second_argument);
        drop(first_reduction);
        drop(second_reduction);
    }
}

/// What stands for the variables of a definition, inside calls of inlined Funcs.
#[derive(Clone, Copy)]
struct Terms<'a> {
    first_argument: &'a terms::Expr,
    second_argument: &'a terms::Expr,
    first_reduction: &'a terms::Expr,
    second_reduction: &'a terms::Expr,
}

/// What stands for a variable.
fn variable_of(
    alloc: Global,
    variables: &Terms<'_>,
    variable: Variable,
) -> Result<terms::Expr, AllocError>
    ensures follows { IfOk result (λ expression. (corners : List Corner) (values : Values) (reads : Reads)
        → Follows corners values reads (term_loads reads values variables.now) expression
        (variable_terms reads values variables.now variable)) }
    ensures needs { IfOk result (λ expression. need expression ≡ term_need variables.now variable) }
    ensures sizes { IfOk result (λ expression. size expression ≡ term_size variables.now variable) }
{
    match variable {
        Variable::FirstArgument => {
            let expression = copy(alloc, variables.first_argument)?;
            Ok(expression)
        }
        Variable::SecondArgument => {
            let expression = copy(alloc, variables.second_argument)?;
            Ok(expression)
        }
        Variable::FirstReduction => {
            let expression = copy(alloc, variables.first_reduction)?;
            Ok(expression)
        }
        Variable::SecondReduction => {
            let expression = copy(alloc, variables.second_reduction)?;
            Ok(expression)
        }
    }
}

/// The Funcs that a definition may call, and where they lie.
#[derive(Clone, Copy)]
pub struct Callees<'a> {
    pub funcs: &'a [Func],
    /// Which Funcs are inlined.
    pub flags: &'a [bool],
    /// How many of the Funcs the definition may call, the first ones.
    pub count: usize,
    /// The corner of each Func's box.
    pub corners: &'a [Corner],
}

/// A definition, with inlined Funcs put in place.
#[cycle(lowering)]
fn lowered_in(
    alloc: Global,
    callees: &Callees<'_>,
    variables: &Terms<'_>,
    expr: &Expr,
) -> Result<terms::Expr, AllocError>
    ensures follows { IfOk result (λ expression. (values : Values) (reads : Reads)
        → Follows callees.now.corners.now values reads (term_loads reads values variables.now) expression
        (inlined (algebra callees.now.corners.now values reads) (flagged callees.now.flags.now) callees.now.funcs.now
        callees.now.count
        (variable_terms reads values variables.now) expr.now)) }
    ensures needs { IfOk result (λ expression. (most : Variables → ℕ) → AreTaken variables.now most
        → need expression ≤ inlined taking (flagged callees.now.flags.now) callees.now.funcs.now callees.now.count most
        expr.now) }
    ensures sizes { IfOk result (λ expression. AreShort callees.now.corners.now → (nodes : Variables → ℕ) → AreGiven
        variables.now nodes
        → IsGiven (size expression) (inlined counting (flagged callees.now.flags.now) callees.now.funcs.now
        callees.now.count
        nodes expr.now)) }
{
    match expr {
        Expr::Number(own) => Ok(number(*own)),
        Expr::Variable(own) => variable_of(alloc, variables, *own),
        Expr::Binary(operation, a, b) => {
            let a = lowered_in(alloc, callees, variables, a.get())?;
            let b = lowered_in(alloc, callees, variables, b.get())?;
            let expression = binary(alloc, *operation, a, b)?;
            Ok(expression)
        }
        Expr::Divide(a, divisor) => {
            let a = lowered_in(alloc, callees, variables, a.get())?;
            let expression = divide(alloc, a, *divisor)?;
            Ok(expression)
        }
        Expr::Remainder(a, divisor) => {
            let a = lowered_in(alloc, callees, variables, a.get())?;
            let expression = remainder(alloc, a, *divisor)?;
            Ok(expression)
        }
        Expr::Select(c, a, b) => {
            let c = lowered_in(alloc, callees, variables, c.get())?;
            let a = lowered_in(alloc, callees, variables, a.get())?;
            let b = lowered_in(alloc, callees, variables, b.get())?;
            let expression = select(alloc, c, a, b)?;
            Ok(expression)
        }
        Expr::Call1(source, x) => {
            let x = lowered_in(alloc, callees, variables, x.get())?;
            let expression = called(alloc, callees, *source, x, number(0))?;
            Ok(expression)
        }
        Expr::Call2(source, x, y) => {
            let x = lowered_in(alloc, callees, variables, x.get())?;
            let y = lowered_in(alloc, callees, variables, y.get())?;
            let expression = called(alloc, callees, *source, x, y)?;
            Ok(expression)
        }
    }
}

/// A call in such a definition, with its second argument or 0.
#[cycle(lowering)]
fn called(
    alloc: Global,
    callees: &Callees<'_>,
    source: Source,
    x: terms::Expr,
    y: terms::Expr,
) -> Result<terms::Expr, AllocError>
    ensures follows { IfOk result (λ expression. (values : Values) (reads : Reads) (given : List Point)
        (left right : Seen)
        → Follows callees.now.corners.now values reads given x left → Follows callees.now.corners.now values reads
        given y right
        → Follows callees.now.corners.now values reads given expression
        (answered ((algebra callees.now.corners.now values reads).level (layer.Call2 source left right)) left (Some
        right)
        (answer (inside (algebra callees.now.corners.now values reads) (flagged callees.now.flags.now)
        callees.now.funcs.now callees.now.count) source))) }
    ensures needs { IfOk result (λ expression. (left : ℕ) (right : Option ℕ) → need x ≤ left → IsSecond y right
        → need expression ≤ answered (call_need left right) left right
        (answer (inside taking (flagged callees.now.flags.now) callees.now.funcs.now callees.now.count) source)) }
    ensures sizes { IfOk result (λ expression. AreShort callees.now.corners.now → (left : ℕ) (right : Option ℕ)
        → IsGiven
        (size x) left
        → IsGivenSecond y right
        → IsGiven (size expression) (answered (call_nodes left right) left right
        (answer (inside counting (flagged callees.now.flags.now) callees.now.funcs.now callees.now.count) source))) }
{
    match source {
        Source::Input(_) => {
            let expression = load(alloc, callees.corners, source, x, y)?;
            Ok(expression)
        }
        Source::Func(place) => match inlined_func(
            callees.funcs,
            callees.flags,
            callees.count,
            place,
        ) {
            None => {
                let expression = load(alloc, callees.corners, source, x, y)?;
                Ok(expression)
            }
            Some(func) => {
                let zero = number(0);
                let earlier = Callees {
                    count: place,
                    ..*callees
                };
                let variables = Terms {
                    first_argument: &x,
                    second_argument: &y,
                    first_reduction: &zero,
                    second_reduction: &zero,
                };
                let expression = lowered_in(alloc, &earlier, &variables, &func.pure)?;
                Ok(expression)
            }
        },
    }
}

/// The sums that stand for the variables, as expressions that are made, lent and let go as one: side by side in one
/// function they make its check long.
struct VariableSums {
    arguments: ExprPair,
    reductions: ExprPair,
}

impl Drop for VariableSums {
    fn drop(self) {
        let VariableSums {
            arguments,
            reductions,
        } = self;
        drop(arguments);
        drop(reductions);
    }
}

/// Copies the sums.
fn sums_of(alloc: Global, variables: &Arguments) -> Result<VariableSums, AllocError>
    ensures first_argument { IfOk result (λ sums. sums.arguments.first
        ≡ sum.Linear variables.now.first_argument) }
    ensures second_argument { IfOk result (λ sums. sums.arguments.second
        ≡ sum.Linear variables.now.second_argument) }
    ensures first_reduction { IfOk result (λ sums. sums.reductions.first
        ≡ sum.Linear variables.now.first_reduction) }
    ensures second_reduction { IfOk result (λ sums. sums.reductions.second
        ≡ sum.Linear variables.now.second_reduction) }
{
    let arguments = two_sums(alloc, &variables.first_argument, &variables.second_argument)?;
    let reductions = two_sums(
        alloc,
        &variables.first_reduction,
        &variables.second_reduction,
    )?;
    Ok(VariableSums {
        arguments,
        reductions,
    })
}

/// The sums, lent.
fn terms_of<'a>(sums: &'a VariableSums) -> Terms<'a>
    ensures first_argument { result.first_argument.now ≡ sums.now.arguments.first }
    ensures second_argument { result.second_argument.now ≡ sums.now.arguments.second }
    ensures first_reduction { result.first_reduction.now ≡ sums.now.reductions.first }
    ensures second_reduction { result.second_reduction.now ≡ sums.now.reductions.second }
{
    Terms {
        first_argument: &sums.arguments.first,
        second_argument: &sums.arguments.second,
        first_reduction: &sums.reductions.first,
        second_reduction: &sums.reductions.second,
    }
}

/// What a definition comes to that may call these Funcs: those that are inlined are put in place, and what it reads of
/// inputs and of all others is loaded from their buffers, counted from their corners.
///
/// # Errors
///
/// Memory ran out.
pub fn lowered(
    alloc: Global,
    callees: &Callees<'_>,
    variables: &Arguments,
    expr: &Expr,
) -> Result<terms::Expr, AllocError>
    ensures value { IfOk result (λ expression. (reads : Reads) (values : Values) → value reads values expression
        ≡ inlined (valuing (placed callees.now.corners.now values reads)) (flagged callees.now.flags.now)
        callees.now.funcs.now callees.now.count
        (variable_in (environment values variables.now)) expr.now) }
    ensures loads { IfOk result (λ expression. (reads : Reads) (values : Values) (test : Point → Bool)
        → Hold (λ point. test (place callees.now.corners.now values point)) (inlined (seeing (placed
        callees.now.corners.now values reads))
        (flagged callees.now.flags.now) callees.now.funcs.now callees.now.count (seen_variable (environment values
        variables.now)) expr.now).points
        → Hold test (loads reads values expression)) }
    ensures needs { IfOk result (λ expression. need expression ≤ inlined taking (flagged callees.now.flags.now)
        callees.now.funcs.now callees.now.count (λ v. 1)
        expr.now) }
    ensures sizes { IfOk result (λ expression. AreShort callees.now.corners.now → AreShortArguments variables.now
        → IsGiven (size expression) (inlined counting (flagged callees.now.flags.now) callees.now.funcs.now
        callees.now.count
        (λ v. 1) expr.now)) }
{
    let sums = sums_of(alloc, variables)?;
    let standing = terms_of(&sums);
    let expression = lowered_in(alloc, callees, &standing, expr)?;
    Ok(expression)
}
