//! Boxes of sources.

ghost use Rattle.std.specs.Prelude.{◌≡◌, ◌≤◌, ◌+◌, ◌*◌, ◌^◌};
ghost use Rattle.bounds.specs.Boxes as spec;
ghost use Rattle.bounds.specs.Extents as views;
ghost use Rattle.bounds_ranges.specs.Expressions.{AreFitReads};
ghost use Rattle.bounds_ranges.specs.Ranges.{IsFit};

use crate::sources::same_source;
use bounds_ranges::bases::no_base;
use bounds_ranges::expressions::ReadRange;
use bounds_ranges::ranges::{Ends, Lasts, ORIGIN, Range, fit, hull, widened};
use halide_pipeline::Source;
use schedule_lines::LoopId;
use schedule_loops::Extents;

/// Which points of a source are read or computed: a range for each dimension, the second one 0 to 0 where there is
/// one dimension.
///
/// That of a Func computed at a loop is its box in one iteration of the loop: its ranges have bases over the loops
/// of the Func whose loop it is. All other boxes have no base.
#[derive(Clone, Copy, Debug)]
pub struct SourceBox {
    pub x: Range,
    pub y: Range,
    /// The greatest value of each loop of the bases, innermost first.
    pub lasts: Lasts,
}

/// The loop at which a Func is computed.
#[derive(Clone, Copy, Debug)]
pub struct ConsumerLoop {
    pub inside: LoopId,
    /// How many loops of its stage stand inside it.
    pub inner: usize,
    /// The greatest value of each loop of its stage, innermost first.
    pub lasts: Lasts,
}

/// The source whose box is inferred.
#[derive(Clone, Copy)]
pub struct InferredSource<'a> {
    pub source: Source,
    /// The loop at which it is computed, if it is a Func at one.
    pub consumer: &'a Option<ConsumerLoop>,
}

/// The ranges so far in which a source is read.
#[derive(Clone, Copy, Debug)]
pub struct Spread {
    pub x: Option<Range>,
    pub y: Option<Range>,
}

/// The greatest values of loops that aren't there.
pub const NO_LOOPS: Lasts = [0; 5];

/// How many numbers a range has, in one iteration.
fn extent(range: &Range) -> u32
    requires ordered { range.now.low ≤ range.now.high }
    requires short { range.now.high ≤ range.now.low + 2 ^ 25 }
    ensures is { result ≡ views.extent range.now }
    ensures few { result ≤ 2 ^ 25 + 1 }
{
    (range.high - range.low + 1) as u32
}

/// How many values the arguments take in a box, in one iteration.
#[tactic(auto, using(crate::proofs::Near::short_x, crate::proofs::Near::short_y))]
pub fn extents_of(source_box: &SourceBox) -> Extents
    requires { spec.IsBox source_box.now }
    ensures { result ≡ views.extents_of source_box.now }
{
    Extents {
        first_argument: extent(&source_box.x),
        second_argument: extent(&source_box.y),
        first_reduction: 0,
        second_reduction: 0,
    }
}

/// A product of two short extents.
fn product(a: u32, b: u32) -> u64
    requires first { a ≤ 2 ^ 25 + 1 }
    requires second { b ≤ 2 ^ 25 + 1 }
    ensures is { result ≡ a * b }
    ensures few { result ≤ 2 ^ 51 }
{
    u64::from(a) * u64::from(b)
}

/// How many points a box has, in one iteration.
#[tactic(auto, using(crate::proofs::Near::short_x, crate::proofs::Near::short_y))]
pub fn points(source_box: &SourceBox) -> u64
    requires { spec.IsBox source_box.now }
    ensures is { result ≡ views.points source_box.now }
    ensures few { result ≤ 2 ^ 51 }
{
    product(extent(&source_box.x), extent(&source_box.y))
}

/// Whether ends lie from -2^24 to 2^24.
fn are_near(ends: Ends) -> bool
    ensures { result ≡ spec.are_near ends }
{
    ORIGIN - (1 << 24) <= ends.low && ends.high <= ORIGIN + (1 << 24)
}

/// Whether a box stays from -2^24 to 2^24, whatever the values of the loops.
pub fn is_near(source_box: &SourceBox) -> bool
    requires first { IsFit source_box.now.lasts source_box.now.x }
    requires second { IsFit source_box.now.lasts source_box.now.y }
    ensures { result ≡ spec.is_near source_box.now }
{
    are_near(widened(&source_box.lasts, &source_box.x))
        && are_near(widened(&source_box.lasts, &source_box.y))
}

/// The greatest values of the loops of the consumer.
pub fn lasts_of(consumer: &Option<ConsumerLoop>) -> Lasts
    ensures { result ≡ spec.lasts_of consumer.now }
{
    match consumer {
        None => NO_LOOPS,
        Some(consumer) => consumer.lasts,
    }
}

/// A range that is asked by a reader with these loops, as one over the loops of the source's consumer.
fn taken(consumer: &Option<ConsumerLoop>, lasts: &Lasts, range: &Range) -> Range
    requires { IsFit lasts.now range.now }
    ensures value { result ≡ spec.taken consumer.now lasts.now range.now }
    ensures fits { IsFit (spec.lasts_of consumer.now) result }
{
    match consumer {
        None => fit(&NO_LOOPS, no_base(), widened(lasts, range)),
        Some(consumer) => {
            let ends = Ends {
                low: range.low,
                high: range.high,
            };
            fit(&consumer.lasts, range.base, ends)
        }
    }
}

/// The hull of the ranges so far and another one, if that counts.
fn joined(lasts: &Lasts, counts: bool, own_range: Option<Range>, range: Range) -> Option<Range>
    requires own { spec.IsFitOrNone lasts.now own_range }
    requires other { IsFit lasts.now range }
    ensures value { result ≡ spec.joined lasts.now counts own_range range }
    ensures fits { spec.IsFitOrNone lasts.now result }
{
    if !counts {
        return own_range;
    }
    match own_range {
        None => Some(range),
        Some(own_range) => Some(hull(lasts, &own_range, &range)),
    }
}

/// The ranges so far with one read, of whose dimensions these count.
fn with_read(
    consumer: &Option<ConsumerLoop>,
    lasts: &Lasts,
    first: bool,
    second: bool,
    spread: Spread,
    read: &ReadRange,
) -> Spread
    requires spread { spec.IsSpread (spec.lasts_of consumer.now) spread }
    requires first { IsFit lasts.now read.now.x }
    requires second { IsFit lasts.now read.now.y }
    ensures value { result ≡ spec.with_read consumer.now lasts.now first second spread read.now }
    ensures fits { spec.IsSpread (spec.lasts_of consumer.now) result }
{
    let own = lasts_of(consumer);
    let x = taken(consumer, lasts, &read.x);
    let y = taken(consumer, lasts, &read.y);
    Spread {
        x: joined(&own, first, spread.x, x),
        y: joined(&own, second, spread.y, y),
    }
}

/// The ranges so far with all reads of the source among these, of whose dimensions these count.
#[tactic(auto, unfolding(bounds_ranges::specs::Expressions::AreFitReads))]
pub fn gathered(
    sought: &InferredSource<'_>,
    lasts: &Lasts,
    first: bool,
    second: bool,
    spread: Spread,
    asked: &[ReadRange],
) -> Spread
    requires spread { spec.IsSpread (spec.lasts_of sought.now.consumer.now) spread }
    requires asked { AreFitReads lasts.now asked.now }
    ensures value { result ≡ spec.gathered sought.now.consumer.now lasts.now sought.now.source first second spread
        asked.now }
    ensures fits { spec.IsSpread (spec.lasts_of sought.now.consumer.now) result }
{
    let mut found_spread = spread;
    let mut rest = asked;
    'reads: while let [read, others @ ..] = rest {
        if same_source(read.source, sought.source) {
            found_spread = with_read(sought.consumer, lasts, first, second, found_spread, read);
        }
        rest = others;
    }
    found_spread
}

/// No ranges so far.
pub const NO_SPREAD: Spread = Spread { x: None, y: None };

/// The box of what is read, if anything is.
pub fn spread_box(consumer: &Option<ConsumerLoop>, spread: Spread) -> Option<SourceBox>
    requires { spec.IsSpread (spec.lasts_of consumer.now) spread }
    ensures value { result ≡ spec.spread_box consumer.now spread }
    ensures fits { spec.IsFitBox result }
{
    match (spread.x, spread.y) {
        (Some(x), Some(y)) => Some(SourceBox {
            x,
            y,
            lasts: lasts_of(consumer),
        }),
        _ => None,
    }
}
