//! Which forms the values and points of stores want in registers. A guess, of which nothing is promised.

use crate::sums::combined;
use crate::tests::number;
use crate::uses::{Use, count};
use halide_pipeline::{Operation, Source, words};
use loop_ir::expressions::{Expr, Linear};
use loop_ir::statements::Store;
use std::alloc::{AllocError, Global};
use task_code_registers::numbers::fits;
use task_code_registers::points::point_form;
use task_code_registers::scopes::AffineForm;
use task_code_scalar::layouts::{Places, place_of};

/// As many uses a sum counts for whose value is wanted and not only an address: there may be no code for it where no
/// register holds it.
pub(crate) const VALUE_USES: u32 = 64;

/// An expression as a sum, if it is one.
fn sum_of(alloc: Global, e: &Expr) -> Result<Option<Linear>, AllocError> {
    match e {
        Expr::Linear(own) => {
            let sum = own.copy(alloc)?;
            Ok(Some(sum))
        }
        Expr::Number(n) => Ok(Some(Linear::of_number(alloc, *n))),
        Expr::Binary(operation, a, b) => match sum_of(alloc, a.get())? {
            None => Ok(None),
            Some(x) => match sum_of(alloc, b.get())? {
                None => Ok(None),
                Some(y) => {
                    let new_sum = combined(alloc, *operation, x, &y)?;
                    Ok(new_sum)
                }
            },
        },
        _ => Ok(None),
    }
}

/// An index of a point, as far as it is a sum.
#[derive(Debug, Drop)]
enum SumIndex<'a> {
    /// It is one.
    Own(&'a Linear),
    /// It is made of parts that come to one.
    Made(Linear),
    /// It is none.
    Other,
}

impl<'a> SumIndex<'a> {
    fn of(alloc: Global, e: &'a Expr) -> Result<SumIndex<'a>, AllocError> {
        match e {
            Expr::Linear(own) => Ok(SumIndex::Own(own)),
            _ => match sum_of(alloc, e)? {
                Some(sum) => Ok(SumIndex::Made(sum)),
                None => Ok(SumIndex::Other),
            },
        }
    }

    /// The sum, or 0 where it is none.
    fn sum_or<'b>(&'b self, zero: &'b Linear) -> &'b Linear {
        match self {
            SumIndex::Own(sum) => sum,
            SumIndex::Made(sum) => sum,
            SumIndex::Other => zero,
        }
    }

    fn is_sum(&self) -> bool {
        !matches!(self, SumIndex::Other)
    }
}

/// Counts the part of a point's address that is made of those of its indexes that are sums.
fn count_point(
    alloc: Global,
    places: &Places,
    source: Source,
    column: &SumIndex<'_>,
    row: &SumIndex<'_>,
    uses: &mut Vec<Use>,
) -> Result<(), AllocError> {
    let place = place_of(places, source);
    let zero = Linear::of_number(alloc, 0);
    let form = point_form(alloc, &place, column.sum_or(&zero), row.sum_or(&zero))?;
    count(uses, form, 1)?;
    Ok(())
}

/// Counts a number that has to stand in a register; 0 always does.
fn count_number(alloc: Global, own_number: u32, uses: &mut Vec<Use>) -> Result<(), AllocError> {
    if own_number != 0 {
        count(uses, number(alloc, own_number), 1)?;
    }
    Ok(())
}

/// Counts a divisor, unless a shift divides by it.
fn count_divisor(alloc: Global, divisor: u32, uses: &mut Vec<Use>) -> Result<(), AllocError> {
    if divisor.count_ones() != 1 {
        count_number(alloc, divisor, uses)?;
    }
    Ok(())
}

/// What a value is made for: one point, or all lanes of a group at once.
#[derive(Clone, Copy, Debug)]
pub(crate) enum Width {
    Scalar,
    Lanes,
}

/// Whether an instruction holds the number that is the second operand: of those that are made for lanes none does.
fn is_immediate(width: Width, operation: Operation, e: &Expr) -> bool {
    match (width, e) {
        (Width::Scalar, Expr::Number(n)) => match operation {
            Operation::Add => fits(*n),
            Operation::Subtract => fits(words::subtract(0, *n)),
            Operation::Multiply => n.count_ones() == 1,
            _ => false,
        },
        _ => false,
    }
}

/// Counts a sum whose value is wanted.
fn count_value(alloc: Global, new_sum: Linear, uses: &mut Vec<Use>) -> Result<(), AllocError> {
    if new_sum.terms.len() == 0 {
        count_number(alloc, new_sum.number, uses)?;
        return Ok(());
    }
    let form = AffineForm {
        sum: new_sum,
        per_hart: 0,
    };
    count(uses, form, VALUE_USES)?;
    Ok(())
}

/// Counts what an expression wants.
#[cycle(gathering)]
fn gather_expr(
    alloc: Global,
    places: &Places,
    width: Width,
    e: &Expr,
    uses: &mut Vec<Use>,
) -> Result<(), AllocError> {
    match gather_parts(alloc, places, width, e, uses)? {
        Some(own) => count_value(alloc, own, uses)?,
        None => {}
    }
    Ok(())
}

/// An expression as a sum, of which nothing is counted; of one that is no sum what its parts want is counted. Each part
/// is asked for its sum once, but for second operands, of which few stand in one another.
#[cycle(gathering)]
fn gather_parts(
    alloc: Global,
    places: &Places,
    width: Width,
    e: &Expr,
    uses: &mut Vec<Use>,
) -> Result<Option<Linear>, AllocError> {
    match e {
        Expr::Number(n) => Ok(Some(Linear::of_number(alloc, *n))),
        Expr::Linear(own) => {
            let sum = own.copy(alloc)?;
            Ok(Some(sum))
        }
        Expr::Binary(operation, a, b) => {
            match gather_parts(alloc, places, width, a.get(), uses)? {
                Some(x) => gather_both(alloc, places, width, e, x, uses),
                None => {
                    if !is_immediate(width, *operation, b.get()) {
                        gather_expr(alloc, places, width, b.get(), uses)?;
                    }
                    Ok(None)
                }
            }
        }
        Expr::Divide(a, divisor) | Expr::Remainder(a, divisor) => {
            gather_expr(alloc, places, width, a.get(), uses)?;
            count_divisor(alloc, *divisor, uses)?;
            Ok(None)
        }
        Expr::Select(c, a, b) => {
            gather_expr(alloc, places, width, c.get(), uses)?;
            gather_expr(alloc, places, width, a.get(), uses)?;
            gather_expr(alloc, places, width, b.get(), uses)?;
            Ok(None)
        }
        Expr::Load(_, _, _) => {
            gather_load(alloc, places, width, e, uses)?;
            Ok(None)
        }
    }
}

/// Counts what a pixel that is read wants.
#[cycle(gathering)]
fn gather_load(
    alloc: Global,
    places: &Places,
    width: Width,
    e: &Expr,
    uses: &mut Vec<Use>,
) -> Result<(), AllocError> {
    let Expr::Load(source, x, y) = e else {
        return Ok(());
    };
    let column = SumIndex::of(alloc, x.get())?;
    let row = SumIndex::of(alloc, y.get())?;
    if !column.is_sum() {
        gather_expr(alloc, places, width, x.get(), uses)?;
    }
    if !row.is_sum() {
        gather_expr(alloc, places, width, y.get(), uses)?;
    }
    count_point(alloc, places, *source, &column, &row, uses)?;
    Ok(())
}

/// The sum that an operation on a sum and another operand is, if it is one; else counts what both want.
#[cycle(gathering)]
fn gather_both(
    alloc: Global,
    places: &Places,
    width: Width,
    e: &Expr,
    x: Linear,
    uses: &mut Vec<Use>,
) -> Result<Option<Linear>, AllocError> {
    let Expr::Binary(operation, _, b) = e else {
        drop(x);
        return Ok(None);
    };
    match sum_of(alloc, b.get())? {
        Some(y) => {
            let sum = combined(alloc, *operation, x.copy(alloc)?, &y)?;
            if sum.is_none() {
                count_value(alloc, x, uses)?;
                if !is_immediate(width, *operation, b.get()) {
                    count_value(alloc, y, uses)?;
                }
            }
            Ok(sum)
        }
        None => {
            count_value(alloc, x, uses)?;
            gather_expr(alloc, places, width, b.get(), uses)?;
            Ok(None)
        }
    }
}

/// Counts what a store wants.
///
/// # Errors
///
/// Memory ran out.
pub(crate) fn gather_store(
    alloc: Global,
    places: &Places,
    width: Width,
    store: &Store,
    uses: &mut Vec<Use>,
) -> Result<(), AllocError> {
    gather_expr(alloc, places, width, &store.value, uses)?;
    let source = Source::Func(store.func);
    let column = SumIndex::of(alloc, &store.x)?;
    let row = SumIndex::of(alloc, &store.y)?;
    count_point(alloc, places, source, &column, &row, uses)?;
    Ok(())
}
