//! Which forms a loop's body wants in registers: addresses, and numbers that take two instructions, those that are used
//! most first. A guess, of which nothing is promised.

use crate::bounds::{Bound, is_below};
use crate::gathering::{VALUE_USES, Width, gather_store};
use crate::known::KnownSum;
use crate::uses::{Use, count, count_by_others, count_inside, form_by_others, most_used_first};
use halide_pipeline::words;
use loop_ir::expressions::{Counter, Linear, Term, same_counter};
use loop_ir::statements::{LoopKind, Stmt, Whole};
use std::alloc::{AllocError, Global};
use task_code_registers::holding::stride_of;
use task_code_registers::scopes::AffineForm;
use task_code_registers::terms::with_room;
use task_code_scalar::layouts::Places;

/// This many iterations of a loop that is laid out are looked at.
const MOST_LAID_OUT: u32 = 16;

/// The value of a split loop, where it is a sum of those of its two loops.
fn split_sum(alloc: Global, counter: Counter, whole: &Whole) -> Result<Vec<KnownSum>, AllocError> {
    let mut known = Vec::new(alloc);
    if whole.last.is_some() {
        return Ok(known);
    }
    let mut terms = with_room(alloc, 2)?;
    terms.push(Term {
        counter: whole.outer,
        stride: whole.factor,
    })?;
    terms.push(Term {
        counter: whole.inner,
        stride: 1,
    })?;
    known.push(KnownSum {
        counter,
        sum: Linear { number: 0, terms },
    })?;
    Ok(known)
}

/// A variable that goes up from one lane to the next, and by how much.
#[derive(Clone, Copy)]
struct LaneStep {
    counter: Counter,
    stride: u32,
}

/// By how much a sum goes up from one lane to the next.
fn stride_along(sum: &Linear, lanes: Option<LaneStep>) -> u32 {
    match lanes {
        Some(own) => words::multiply(stride_of(sum.terms.as_slice(), own.counter), own.stride),
        None => 0,
    }
}

/// What is known where a statement is: the numbers below which loop variables stay, those that stand at sums of
/// others, and the variable that its lanes go along.
#[derive(Clone, Copy)]
struct Around<'a> {
    bounds: &'a [Bound],
    known: &'a [KnownSum],
    lanes: Option<LaneStep>,
}

impl<'a> Around<'a> {
    /// The width of what is made there.
    fn width(&self) -> Width {
        match self.lanes {
            Some(_) => Width::Lanes,
            None => Width::Scalar,
        }
    }

    /// Whether a split loop's value is known to stay below an extent, by the values of split loops around it too.
    fn is_below(
        &self,
        alloc: Global,
        split: &[KnownSum],
        sum: &Linear,
        extent: u32,
    ) -> Result<bool, AllocError> {
        let form = value_form(alloc, sum)?;
        if is_below(&form, self.bounds, extent) {
            return Ok(true);
        }
        let inner = form_by_others(alloc, form, split)?;
        let own = form_by_others(alloc, inner, self.known)?;
        Ok(is_below(&own, self.bounds, extent))
    }
}

/// The value of a sum as a form.
fn value_form(alloc: Global, sum: &Linear) -> Result<AffineForm, AllocError> {
    let sum = sum.copy(alloc)?;
    Ok(AffineForm { sum, per_hart: 0 })
}

/// Counts the value of a split loop that is tested, where it isn't known to pass; of one that goes along with lanes,
/// how far it is from the extent: as many lanes are left as strides go into that.
fn count_tested(
    alloc: Global,
    around: &Around<'_>,
    split: &[KnownSum],
    known_sum: &KnownSum,
    extent: u32,
    uses: &mut Vec<Use>,
) -> Result<(), AllocError> {
    if around.is_below(alloc, split, &known_sum.sum, extent)? {
        return Ok(());
    }
    let stride = stride_along(&known_sum.sum, around.lanes);
    if stride == 0 {
        return count(uses, value_form(alloc, &known_sum.sum)?, VALUE_USES);
    }
    let most = words::add(extent, stride - 1);
    let sum = Linear::of_number(alloc, most).minus(&known_sum.sum)?;
    count(uses, AffineForm { sum, per_hart: 0 }, VALUE_USES)
}

/// How many iterations of a loop are looked at on their own: those of one that is laid out, unless they are many.
fn laid_out(count: u32, kind: LoopKind) -> u32 {
    match kind {
        LoopKind::Unrolled => count.min(MOST_LAID_OUT),
        LoopKind::Serial => 1,
        LoopKind::Vectorized => 1,
    }
}

/// The variable of a loop whose iterations are lanes.
fn lanes_of(counter: Counter, kind: LoopKind) -> Option<LaneStep> {
    match kind {
        LoopKind::Serial => None,
        LoopKind::Unrolled => None,
        LoopKind::Vectorized => Some(LaneStep { counter, stride: 1 }),
    }
}

/// The variable that goes along with lanes inside a split loop: that of the split loop, where one of its two loops'
/// does.
fn along(counter: Counter, whole: &Whole, lanes: Option<LaneStep>) -> Option<LaneStep> {
    match lanes {
        Some(own) if same_counter(own.counter, whole.inner) => Some(LaneStep {
            counter,
            stride: own.stride,
        }),
        Some(own) if same_counter(own.counter, whole.outer) => Some(LaneStep {
            counter,
            stride: words::multiply(own.stride, whole.factor),
        }),
        _ => lanes,
    }
}

/// Adds the value of a split loop, by loop variables that stand at no sum, to those of split loops around it.
fn push_split(
    alloc: Global,
    known: &[KnownSum],
    split: &mut Vec<KnownSum>,
    known_sum: &KnownSum,
) -> Result<(), AllocError> {
    let inner = form_by_others(alloc, value_form(alloc, &known_sum.sum)?, split.as_slice())?;
    let AffineForm { sum, per_hart: _ } = form_by_others(alloc, inner, known)?;
    split.push(KnownSum {
        counter: known_sum.counter,
        sum,
    })?;
    Ok(())
}

/// Counts what a split loop's body wants, and its test.
#[cycle(counting)]
fn gather_split(
    alloc: Global,
    places: &Places,
    around: &Around<'_>,
    split: &mut Vec<KnownSum>,
    statement: &Stmt,
    uses: &mut Vec<Use>,
) -> Result<(), AllocError> {
    let Stmt::Bind(counter, whole, extent, body) = statement else {
        return Ok(());
    };
    let known = split_sum(alloc, *counter, whole)?;
    for own in known.as_slice() {
        count_tested(alloc, around, split.as_slice(), own, *extent, uses)?;
        push_split(alloc, around.known, split, own)?;
    }
    // After its test the split loop's value is below the extent.
    let mut within = around.bounds.to_vec(alloc)?;
    within.push(Bound {
        counter: *counter,
        count: *extent,
    })?;
    let next = Around {
        bounds: within.as_slice(),
        known: around.known,
        lanes: along(*counter, whole, around.lanes),
    };
    let mut inner = Vec::new(alloc);
    gather(alloc, places, &next, split, body.get(), &mut inner)?;
    if !known.is_empty() {
        drop(split.pop());
    }
    count_by_others(alloc, inner, known.as_slice(), uses)
}

/// Counts what a statement wants, where this many split loops stand around it.
#[cycle(counting)]
fn gather(
    alloc: Global,
    places: &Places,
    around: &Around<'_>,
    split: &mut Vec<KnownSum>,
    statement: &Stmt,
    uses: &mut Vec<Use>,
) -> Result<(), AllocError> {
    match statement {
        Stmt::Store(store) => gather_store(alloc, places, around.width(), store, uses),
        Stmt::Sequence(first, second) => {
            gather(alloc, places, around, split, first.get(), uses)?;
            gather(alloc, places, around, split, second.get(), uses)
        }
        Stmt::For(counter, count, kind, body) => {
            let mut within = around.bounds.to_vec(alloc)?;
            within.push(Bound {
                counter: *counter,
                count: *count,
            })?;
            let next = Around {
                bounds: within.as_slice(),
                known: around.known,
                lanes: lanes_of(*counter, *kind),
            };
            let mut inner = Vec::new(alloc);
            gather(alloc, places, &next, split, body.get(), &mut inner)?;
            count_inside(alloc, inner, *counter, laid_out(*count, *kind), uses)
        }
        Stmt::Bind(_, _, _, _) => gather_split(alloc, places, around, split, statement, uses),
    }
}

/// The forms that a loop's body wants in registers, most used first, where loop variables stay below these bounds and
/// some stand at these sums.
///
/// # Errors
///
/// Memory ran out.
pub fn wanted_forms(
    alloc: Global,
    places: &Places,
    bounds: &[Bound],
    known: &[KnownSum],
    body: &Stmt,
) -> Result<Vec<AffineForm>, AllocError> {
    let around = Around {
        bounds,
        known,
        lanes: None,
    };
    let mut found = Vec::new(alloc);
    let mut split = Vec::new(alloc);
    gather(alloc, places, &around, &mut split, body, &mut found)?;
    most_used_first(alloc, found)
}
