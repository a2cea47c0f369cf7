//! Where loops are cut. Guesses, of which nothing is promised.

use crate::spans::{Interval, VariableInterval, open_clamps, with_span};
use loop_ir::expressions::Counter;
use loop_ir::statements::Stmt;
use std::alloc::{AllocError, Global};

/// How many iterations a first or last part has at most.
const MOST: u32 = 4;

/// How many iterations are left between at least: fewer would be code of their own each, and no loop.
const LEAST_BETWEEN: u32 = 2;

/// How many iterations the first and the last part of a loop have.
#[derive(Clone, Copy, Debug)]
pub(crate) struct Cuts {
    pub first: u32,
    pub last: u32,
}

/// A serial loop.
#[derive(Clone, Copy, Debug)]
pub(crate) struct Loop<'a> {
    pub counter: Counter,
    pub count: u32,
    pub body: &'a Stmt,
}

/// How many clamps aren't decided in a loop's iterations but this many first and last ones.
fn left_open(
    alloc: Global,
    spans: &[VariableInterval],
    serial_loop: &Loop<'_>,
    first: u32,
    last: u32,
) -> Result<usize, AllocError> {
    let span = Interval {
        low: i64::from(first),
        high: i64::from(serial_loop.count.saturating_sub(last).saturating_sub(1)),
    };
    let inner = with_span(alloc, spans, serial_loop.counter, span)?;
    open_clamps(alloc, inner.as_slice(), serial_loop.body)
}

/// How many first iterations to leave out at least, where this many last ones are, so that no more clamps stay open.
fn least_first(
    alloc: Global,
    spans: &[VariableInterval],
    serial_loop: &Loop<'_>,
    most: u32,
    open: usize,
) -> Result<u32, AllocError> {
    for first in 0..most {
        if left_open(alloc, spans, serial_loop, first, most)? <= open {
            return Ok(first);
        }
    }
    Ok(most)
}

/// How many last iterations to leave out at least, where this many first ones are, so that no more clamps stay open.
fn least_last(
    alloc: Global,
    spans: &[VariableInterval],
    serial_loop: &Loop<'_>,
    first: u32,
    most: u32,
    open: usize,
) -> Result<u32, AllocError> {
    for last in 0..most {
        if left_open(alloc, spans, serial_loop, first, last)? <= open {
            return Ok(last);
        }
    }
    Ok(most)
}

/// Where a loop is cut so that the part between decides more clamps than the whole loop, if it is.
///
/// # Errors
///
/// Memory ran out.
pub(crate) fn cuts_of(
    alloc: Global,
    spans: &[VariableInterval],
    serial_loop: &Loop<'_>,
) -> Result<Option<Cuts>, AllocError> {
    let most = (serial_loop.count.saturating_sub(1) / 2).min(MOST);
    let whole = left_open(alloc, spans, serial_loop, 0, 0)?;
    let open = left_open(alloc, spans, serial_loop, most, most)?;
    if open >= whole {
        return Ok(None);
    }
    let first = least_first(alloc, spans, serial_loop, most, open)?;
    let last = least_last(alloc, spans, serial_loop, first, most, open)?;
    let between = serial_loop.count.saturating_sub(first).saturating_sub(last);
    if between < LEAST_BETWEEN {
        return Ok(None);
    }
    Ok(Some(Cuts { first, last }))
}
