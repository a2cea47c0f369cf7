//! Split loops: their values as sums.

ghost use Rattle.std.specs.Prelude.{◌≡◌, ◌<◌, ◌^◌, ◌≤◌, IfOk, IfSome, Some, min, true};
ghost use Rattle.task_code_statements.specs.Splits.{AddsInner, BeginsAt, BeginsRun, EntersSplit, HasLesser, IsInner};
ghost use Rattle.task_code_statements.specs.Splits.{IsProduct, IsSplitSum, IsSplitValue, IsStart, IsValueOf};

use crate::contexts::{Context, with_sum};
use crate::lessers::{NEGATIVE, lesser_of};
use crate::plain::is_name;
use crate::replacing::plus;
use crate::room::is_in_order;
use loop_ir::expressions::{Counter, Expr, Linear, Term, same_counter};
use loop_ir::statements::{Stmt, Whole};
use std::alloc::{AllocError, Global};
use task_code_loops::bounds::{Bound, is_below};
use task_code_loops::known::sum_by_others;
use task_code_names::copies::is_load_free;
use task_code_names::names::name_for;
use task_code_registers::scopes::AffineForm;
use task_code_registers::terms::with_room;
use task_code_scalar::CodeFault;

/// Where a run of a split loop's inner loop begins.
#[derive(Clone, Copy, Debug)]
pub(crate) enum TaskStart {
    /// At the product of the outer variable and the factor.
    Product,
    /// At a number.
    Number(u32),
    /// At the value of a name.
    Name(Counter),
    /// At the lesser of the product and the last start, which of them isn't known, and which has no name.
    Unknown,
}

/// The product of a split loop's outer variable and its factor, by the loop variables that aren't known.
fn product_of(alloc: Global, context: &Context, whole: &Whole) -> Result<Linear, AllocError>
    ensures { IfOk result (IsProduct context.now whole.now) }
{
    let mut terms = with_room(alloc, 1)?;
    terms.push(Term {
        counter: whole.outer,
        stride: whole.factor,
    })?;
    let own = Linear { number: 0, terms };
    let product = sum_by_others(alloc, &own, context.known.as_slice())?;
    Ok(product)
}

fn lesser(one: u32, other: u32) -> u32
    ensures value { result ≡ min one other }
    ensures word { one < 2 ^ 32 }
{
    if one < other { one } else { other }
}

/// The name of the lesser of a product and the last start.
fn name_of_lesser(
    alloc: Global,
    context: &Context,
    product: Linear,
    last: u32,
) -> Result<Option<Counter>, AllocError>
    ensures { IfOk result (λ counter. IfSome counter (HasLesser context.now product last)) }
{
    let form = AffineForm {
        sum: product,
        per_hart: 0,
    };
    if last >= NEGATIVE || !is_below(&form, context.bounds.as_slice(), NEGATIVE) {
        return Ok(None);
    }
    let e = lesser_of(alloc, form.sum, last)?;
    let counter = name_for(context.names.as_slice(), &e);
    Ok(counter)
}

/// Where a run of a split loop's inner loop begins, whose last run begins here at most.
fn start_up_to(
    alloc: Global,
    context: &Context,
    whole: &Whole,
    last: u32,
) -> Result<TaskStart, AllocError>
    requires { whole.now.last ≡ Some last }
    ensures { IfOk result (BeginsRun context.now whole.now) }
{
    let product = product_of(alloc, context, whole)?;
    if product.terms.len() == 0 {
        let number = lesser(product.number, last);
        return Ok(TaskStart::Number(number));
    }
    let form = AffineForm {
        sum: product,
        per_hart: 0,
    };
    if last < u32::MAX && is_below(&form, context.bounds.as_slice(), last + 1) {
        return Ok(TaskStart::Product);
    }
    match name_of_lesser(alloc, context, form.sum, last)? {
        None => Ok(TaskStart::Unknown),
        Some(name) => Ok(TaskStart::Name(name)),
    }
}

/// Where a run of a split loop's inner loop begins.
fn start_of(alloc: Global, context: &Context, whole: &Whole) -> Result<TaskStart, AllocError>
    ensures { IfOk result (BeginsRun context.now whole.now) }
{
    match whole.last {
        None => Ok(TaskStart::Product),
        Some(last) => {
            let start = start_up_to(alloc, context, whole, last)?;
            Ok(start)
        }
    }
}

/// The sum of the variables of a split loop's two loops, where a run begins so.
fn sum_from(alloc: Global, whole: &Whole, start: TaskStart) -> Result<Option<Linear>, AllocError>
    ensures { IfOk result (λ found. IfSome found (AddsInner whole.now start)) }
{
    let inner = Term {
        counter: whole.inner,
        stride: 1,
    };
    let mut terms = with_room(alloc, 2)?;
    match start {
        TaskStart::Product => {
            terms.push(Term {
                counter: whole.outer,
                stride: whole.factor,
            })?;
            terms.push(inner)?;
            Ok(Some(Linear { number: 0, terms }))
        }
        TaskStart::Number(number) => {
            terms.push(inner)?;
            Ok(Some(Linear { number, terms }))
        }
        TaskStart::Name(counter) => {
            terms.push(Term { counter, stride: 1 })?;
            terms.push(inner)?;
            Ok(Some(Linear { number: 0, terms }))
        }
        TaskStart::Unknown => Ok(None),
    }
}

/// Where a run of a split loop's inner loop begins, where that needs a name and has none.
///
/// # Errors
///
/// Memory ran out.
#[tactic(auto, using(crate::proofs::Starting::start_made))]
pub(crate) fn unnamed_start(
    alloc: Global,
    context: &Context,
    whole: &Whole,
) -> Result<Option<Expr>, AllocError>
    ensures { IfOk result (λ found. IfSome found (IsStart context.now whole.now)) }
{
    match start_of(alloc, context, whole)? {
        TaskStart::Unknown => match whole.last {
            None => Ok(None),
            Some(last) => {
                let product = product_of(alloc, context, whole)?;
                let e = lesser_of(alloc, product, last)?;
                Ok(Some(e))
            }
        },
        _ => Ok(None),
    }
}

/// The value of a split loop as a sum of loop variables that aren't known, where it is one.
fn split_sum(alloc: Global, context: &Context, whole: &Whole) -> Result<Option<Linear>, AllocError>
    ensures { IfOk result (λ found. IfSome found (IsSplitSum context.now whole.now)) }
{
    if is_name(whole.outer) {
        return Ok(None);
    }
    if is_name(whole.inner) {
        return Ok(None);
    }
    let start = start_of(alloc, context, whole)?;
    let Some(own) = sum_from(alloc, whole, start)? else {
        return Ok(None);
    };
    let sum = sum_by_others(alloc, &own, context.known.as_slice())?;
    Ok(Some(sum))
}

/// Where a run of a split loop's inner loop begins, as an expression: at the lesser of the product and the last start,
/// neither of which is negative.
fn start_as_lesser(
    alloc: Global,
    context: &Context,
    whole: &Whole,
    last: u32,
) -> Result<Option<Expr>, AllocError>
    requires { whole.now.last ≡ Some last }
    ensures { IfOk result (λ found. IfSome found (BeginsAt context.now whole.now)) }
{
    let sum = product_of(alloc, context, whole)?;
    let form = AffineForm { sum, per_hart: 0 };
    if last >= NEGATIVE || !is_below(&form, context.bounds.as_slice(), NEGATIVE) {
        return Ok(None);
    }
    let e = lesser_of(alloc, form.sum, last)?;
    Ok(Some(e))
}

/// The variable of a split loop's inner loop, by the loop variables that aren't known, if it stays below a number.
fn inner_below(
    alloc: Global,
    context: &Context,
    whole: &Whole,
    count: u32,
) -> Result<Option<Linear>, AllocError>
    ensures { IfOk result (λ found. IfSome found (IsInner context.now whole.now count)) }
{
    let own = Linear::of_counter(alloc, whole.inner)?;
    let sum = sum_by_others(alloc, &own, context.known.as_slice())?;
    let form = AffineForm { sum, per_hart: 0 };
    if is_below(&form, context.bounds.as_slice(), count) {
        Ok(Some(form.sum))
    } else {
        Ok(None)
    }
}

/// The value of a split loop whose last run begins here, as an expression, if it stays below an extent.
fn value_up_to(
    alloc: Global,
    context: &Context,
    whole: &Whole,
    last: u32,
    extent: u32,
) -> Result<Option<Expr>, AllocError>
    requires { whole.now.last ≡ Some last }
    ensures { IfOk result (λ found. IfSome found (IsValueOf context.now whole.now extent)) }
{
    if last >= extent {
        return Ok(None);
    }
    let Some(inner) = inner_below(alloc, context, whole, extent - last)? else {
        return Ok(None);
    };
    let Some(start) = start_as_lesser(alloc, context, whole, last)? else {
        return Ok(None);
    };
    let e = plus(alloc, start, inner)?;
    if is_load_free(&e) {
        Ok(Some(e))
    } else {
        Ok(None)
    }
}

/// Whether a split loop's runs begin where no sum is known to.
fn is_unknown(alloc: Global, context: &Context, whole: &Whole) -> Result<bool, AllocError> {
    match start_of(alloc, context, whole)? {
        TaskStart::Unknown => Ok(true),
        _ => Ok(false),
    }
}

/// The value of a split loop as an expression that loads nothing, where it is no sum that is known, and stays below the
/// loop's extent.
///
/// # Errors
///
/// Memory ran out.
pub(crate) fn split_value(
    alloc: Global,
    context: &Context,
    whole: &Whole,
    extent: u32,
) -> Result<Option<Expr>, AllocError>
    ensures { IfOk result (λ expression. IfSome expression (IsSplitValue context.now whole.now extent)) }
{
    if is_name(whole.outer) || is_name(whole.inner) {
        return Ok(None);
    }
    let Some(last) = whole.last else {
        return Ok(None);
    };
    if !is_unknown(alloc, context, whole)? {
        return Ok(None);
    }
    let expression = value_up_to(alloc, context, whole, last, extent)?;
    Ok(expression)
}

/// What is known where a split loop's body runs, and the loop's value.
pub(crate) struct Entered {
    pub inner: Context,
    pub form: AffineForm,
}

impl Drop for Entered {
    fn drop(self) {
        let Entered { inner: _, form: _ } = self;
    }
}

impl Entered {
    /// The value alone.
    pub(crate) fn into_form(self) -> AffineForm
        ensures { result ≡ self.form }
    {
        let Entered { inner: _, form } = self;
        form
    }
}

/// Where a split loop's variable is at its value.
///
/// # Errors
///
/// Memory ran out, the value is no sum that is known, or the loop variable stands for a loop outside too.
pub(crate) fn enter_split(
    alloc: Global,
    context: &Context,
    counter: Counter,
    whole: &Whole,
) -> Result<Entered, CodeFault>
    ensures { IfOk result (EntersSplit context.now counter whole.now) }
{
    match split_sum(alloc, context, whole)? {
        None => Err(CodeFault::TooDeep),
        Some(sum) => {
            let inner = with_sum(alloc, context, counter, &sum)?;
            let form = AffineForm { sum, per_hart: 0 };
            Ok(Entered { inner, form })
        }
    }
}

/// Whether a split loop's run begins before its product in a loop's last iteration, where the loop is its outer one.
fn is_cut_by(whole: &Whole, bound: Bound) -> bool
    requires { 1 ≤ bound.count }
{
    let Some(last) = whole.last else {
        return false;
    };
    let product = u64::from(bound.count - 1) * u64::from(whole.factor);
    same_counter(whole.outer, bound.counter) && product > u64::from(last)
}

/// From how many serial loops around a split loop's value on code of its own for a last iteration isn't worth
/// while: where a run begins gets a name in front of them, once for all their iterations.
const ENOUGH_LOOPS: usize = 2;

/// Whether some split loop's value inside isn't the same sum in a loop's last iteration as in those before, and few
/// loops stand around it.
pub(crate) fn is_cut(body: &Stmt, bound: Bound) -> bool
    ensures { result ≡ true → 1 ≤ bound.count }
{
    if bound.count == 0 {
        return false;
    }
    has_cut(body, bound, 0)
}

/// So it is inside of this many serial loops.
fn has_cut(body: &Stmt, bound: Bound, around: usize) -> bool
    requires { 1 ≤ bound.count }
{
    match body {
        Stmt::Store(_) => false,
        Stmt::Sequence(first, second) => {
            has_cut(first.get(), bound, around) || has_cut(second.get(), bound, around)
        }
        Stmt::For(_, count, kind, inside) => {
            let inner = around.saturating_add(usize::from(is_in_order(*kind, *count)));
            inner < ENOUGH_LOOPS && has_cut(inside.get(), bound, inner)
        }
        Stmt::Bind(_, whole, _, inside) => {
            is_cut_by(whole, bound) || has_cut(inside.get(), bound, around)
        }
    }
}
