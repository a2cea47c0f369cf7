//! Between which numbers loop variables and expressions lie, and how many clamps that doesn't decide. Guesses, of which
//! nothing is promised.

use halide_pipeline::Operation;
use loop_ir::expressions::{Counter, Expr, Linear, same_counter};
use loop_ir::statements::{Stmt, Store, Whole};
use std::alloc::{AllocError, Global};

/// Between which numbers a value lies.
#[derive(Clone, Copy, Debug)]
pub struct Interval {
    pub low: i64,
    pub high: i64,
}

/// A loop variable's.
#[derive(Clone, Copy, Debug)]
pub struct VariableInterval {
    pub counter: Counter,
    pub span: Interval,
}

/// An expression's, and how many clamps inside it aren't decided.
#[derive(Clone, Copy, Debug)]
struct Seen {
    span: Interval,
    open: usize,
}

/// The least word as a signed number, and the greatest.
const LEAST: i64 = -2147483648;

const GREATEST: i64 = 2147483647;

/// That of a value of which nothing is known.
fn any() -> Interval {
    Interval {
        low: LEAST,
        high: GREATEST,
    }
}

/// A word as a signed number.
fn signed(word: u32) -> i64 {
    i64::from(word.wrapping_add(1 << 31)).saturating_add(LEAST)
}

/// A span, or that of all words where a word turns over.
fn narrowed(span: Interval) -> Interval {
    if span.low < LEAST || span.high > GREATEST {
        any()
    } else {
        span
    }
}

fn of_variable(spans: &[VariableInterval], counter: Counter) -> Interval {
    match spans {
        [] => any(),
        [others @ .., last] => {
            if same_counter(last.counter, counter) {
                last.span
            } else {
                of_variable(others, counter)
            }
        }
    }
}

fn plus(a: Interval, b: Interval) -> Interval {
    narrowed(Interval {
        low: a.low.saturating_add(b.low),
        high: a.high.saturating_add(b.high),
    })
}

fn minus(a: Interval, b: Interval) -> Interval {
    narrowed(Interval {
        low: a.low.saturating_sub(b.high),
        high: a.high.saturating_sub(b.low),
    })
}

fn times(a: Interval, stride: i64) -> Interval {
    let one = a.low.saturating_mul(stride);
    let other = a.high.saturating_mul(stride);
    narrowed(Interval {
        low: one.min(other),
        high: one.max(other),
    })
}

fn of_sum(spans: &[VariableInterval], sum: &Linear) -> Interval {
    let number = signed(sum.number);
    let mut span = Interval {
        low: number,
        high: number,
    };
    for term in sum.terms.as_slice() {
        span = plus(
            span,
            times(of_variable(spans, term.counter), signed(term.stride)),
        );
    }
    span
}

fn is_open(a: Interval, b: Interval) -> bool {
    a.high > b.low && b.high > a.low
}

fn lesser(a: Interval, b: Interval) -> Interval {
    Interval {
        low: a.low.min(b.low),
        high: a.high.min(b.high),
    }
}

fn greater(a: Interval, b: Interval) -> Interval {
    Interval {
        low: a.low.max(b.low),
        high: a.high.max(b.high),
    }
}

fn of_both(operation: Operation, a: Seen, b: Seen) -> Seen {
    let open = a.open.saturating_add(b.open);
    let is_one_more = is_open(a.span, b.span);
    match operation {
        Operation::Minimum => Seen {
            span: lesser(a.span, b.span),
            open: open.saturating_add(usize::from(is_one_more)),
        },
        Operation::Maximum => Seen {
            span: greater(a.span, b.span),
            open: open.saturating_add(usize::from(is_one_more)),
        },
        Operation::Add => Seen {
            span: plus(a.span, b.span),
            open,
        },
        Operation::Subtract => Seen {
            span: minus(a.span, b.span),
            open,
        },
        _ => Seen { span: any(), open },
    }
}

#[cycle(looking)]
fn look_at(spans: &[VariableInterval], e: &Expr) -> Seen {
    match e {
        Expr::Number(n) => Seen {
            span: Interval {
                low: signed(*n),
                high: signed(*n),
            },
            open: 0,
        },
        Expr::Linear(own) => Seen {
            span: of_sum(spans, own),
            open: 0,
        },
        Expr::Binary(operation, a, b) => {
            of_both(*operation, look_at(spans, a.get()), look_at(spans, b.get()))
        }
        Expr::Divide(a, _) | Expr::Remainder(a, _) => Seen {
            span: any(),
            open: look_at(spans, a.get()).open,
        },
        Expr::Select(c, a, b) => Seen {
            span: any(),
            open: look_at(spans, c.get())
                .open
                .saturating_add(look_at(spans, a.get()).open)
                .saturating_add(look_at(spans, b.get()).open),
        },
        Expr::Load(_, x, y) => Seen {
            span: any(),
            open: in_index(spans, x.get()).saturating_add(in_index(spans, y.get())),
        },
    }
}

/// How many clamps of an index aren't decided.
#[cycle(looking)]
fn in_index(spans: &[VariableInterval], e: &Expr) -> usize {
    look_at(spans, e).open
}

fn in_store(spans: &[VariableInterval], store: &Store) -> usize {
    look_at(spans, &store.x)
        .open
        .saturating_add(look_at(spans, &store.y).open)
        .saturating_add(look_at(spans, &store.value).open)
}

/// These and one more after them.
pub fn with_span(
    alloc: Global,
    spans: &[VariableInterval],
    counter: Counter,
    span: Interval,
) -> Result<Vec<VariableInterval>, AllocError> {
    let mut new_spans = Vec::new(alloc);
    new_spans.extend_from_slice(spans)?;
    new_spans.push(VariableInterval { counter, span })?;
    Ok(new_spans)
}

/// That of a loop's variable.
pub fn below(count: u32) -> Interval {
    Interval {
        low: 0,
        high: i64::from(count).saturating_sub(1).max(0),
    }
}

/// That of a split loop's value.
pub fn of_whole(spans: &[VariableInterval], whole: &Whole, extent: u32) -> Interval {
    let product = times(of_variable(spans, whole.outer), i64::from(whole.factor));
    let start = match whole.last {
        None => product,
        Some(last) => lesser(
            product,
            Interval {
                low: i64::from(last),
                high: i64::from(last),
            },
        ),
    };
    let own = plus(start, of_variable(spans, whole.inner));
    Interval {
        low: own.low,
        high: own.high.min(i64::from(extent)),
    }
}

/// How many clamps of a statement aren't decided where variables lie in these spans.
///
/// # Errors
///
/// Memory ran out.
pub fn open_clamps(
    alloc: Global,
    spans: &[VariableInterval],
    statement: &Stmt,
) -> Result<usize, AllocError> {
    match statement {
        Stmt::Store(store) => Ok(in_store(spans, store)),
        Stmt::Sequence(first, second) => {
            let one = open_clamps(alloc, spans, first.get())?;
            let other = open_clamps(alloc, spans, second.get())?;
            Ok(one.saturating_add(other))
        }
        Stmt::For(counter, count, _, body) => {
            let inner = with_span(alloc, spans, *counter, below(*count))?;
            open_clamps(alloc, inner.as_slice(), body.get())
        }
        Stmt::Bind(counter, whole, extent, body) => {
            let own = of_whole(spans, whole, *extent);
            let inner = with_span(alloc, spans, *counter, own)?;
            open_clamps(alloc, inner.as_slice(), body.get())
        }
    }
}
