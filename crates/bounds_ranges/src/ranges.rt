//! Ranges, and what operations make of them.

ghost use Rattle.std.specs.Prelude.{◌≡◌, ◌^◌, ◌+◌, ◌-◌, ◌*◌, ◌<◌, ◌≤◌, ◌&&◌, nat_le};
ghost use Rattle.bounds_ranges.specs.Ranges as bases;
ghost use Rattle.bounds_ranges.specs.Numbers as spec_numbers;

use crate::bases::{Base, add_base, less_sum, more_sum, negated, no_base, same_base, times_base};
use halide_pipeline::Operation;

/// The greatest value of each loop that a stage can have.
pub type Lasts = [u32; 5];

/// Two ends, with 2^62 added.
#[derive(Clone, Copy, Debug)]
pub struct Ends {
    pub low: u64,
    pub high: u64,
}

/// The ends of two ranges over one base.
#[derive(Clone, Copy, Debug)]
pub struct CommonBase {
    pub base: Base,
    pub first: Ends,
    pub second: Ends,
}

/// What lies between base + low and base + high, as signed numbers. Ends have 2^62 added.
#[derive(Clone, Copy, Debug)]
pub struct Range {
    pub base: Base,
    pub low: u64,
    pub high: u64,
}

/// The end 0.
pub const ORIGIN: u64 = 1 << 62;

/// The end -2^31.
pub const LEAST: u64 = ORIGIN - (1 << 31);

/// The end 2^31 - 1.
pub const GREATEST: u64 = ORIGIN + (1 << 31) - 1;

/// The range between two ends, with no base.
pub fn between(low: u64, high: u64) -> Range
    ensures { result ≡ bases.between low high }
{
    Range {
        base: no_base(),
        low,
        high,
    }
}

/// All words.
pub fn every() -> Range
    ensures { result ≡ bases.every }
{
    between(LEAST, GREATEST)
}

fn ends_of(a: &Range) -> Ends
    ensures { result ≡ bases.ends_of a.now }
{
    Ends {
        low: a.low,
        high: a.high,
    }
}

/// Whether ends over a base stay within the words.
fn is_within(lasts: &Lasts, base: &Base, ends: Ends) -> bool
    requires high { ends.high ≤ 2 ^ 63 }
    requires ordered { ends.low ≤ ends.high }
    ensures { result ≡ (nat_le (spec_numbers.least + bases.less_sum base.now lasts.now) ends.low && nat_le
        (ends.high + bases.more_sum base.now lasts.now) spec_numbers.greatest) }
{
    LEAST + less_sum(base, lasts) <= ends.low && ends.high + more_sum(base, lasts) <= GREATEST
}

/// The range with this base and these ends; every word, where some values of the loops would leave the
/// words.
pub fn fit(lasts: &Lasts, base: Base, ends: Ends) -> Range
    requires high { ends.high ≤ 2 ^ 63 }
    requires ordered { ends.low ≤ ends.high }
    ensures value { result ≡ bases.fit lasts.now base ends }
    ensures fits { bases.IsFit lasts.now result }
{
    if is_within(lasts, &base, ends) {
        Range {
            base,
            low: ends.low,
            high: ends.high,
        }
    } else {
        every()
    }
}

/// The ends over all values of the loops.
pub fn widened(lasts: &Lasts, a: &Range) -> Ends
    requires { bases.IsFit lasts.now a.now }
    ensures value { result ≡ bases.widened lasts.now a.now }
    ensures low { spec_numbers.least ≤ result.low }
    ensures ordered { result.low ≤ result.high }
    ensures high { result.high ≤ spec_numbers.greatest }
{
    Ends {
        low: a.low - less_sum(&a.base, lasts),
        high: a.high + more_sum(&a.base, lasts),
    }
}

/// The sum of two ranges.
pub fn added(lasts: &Lasts, a: &Range, b: &Range) -> Range
    requires first { bases.IsFit lasts.now a.now }
    requires second { bases.IsFit lasts.now b.now }
    ensures value { result ≡ bases.added lasts.now a.now b.now }
    ensures fits { bases.IsFit lasts.now result }
{
    let ends = Ends {
        low: a.low + b.low - ORIGIN,
        high: a.high + b.high - ORIGIN,
    };
    fit(lasts, add_base(a.base, b.base), ends)
}

/// The difference of two ranges.
pub fn subtracted(lasts: &Lasts, a: &Range, b: &Range) -> Range
    requires first { bases.IsFit lasts.now a.now }
    requires second { bases.IsFit lasts.now b.now }
    ensures value { result ≡ bases.subtracted lasts.now a.now b.now }
    ensures fits { bases.IsFit lasts.now result }
{
    let ends = Ends {
        low: a.low + ORIGIN - b.high,
        high: a.high + ORIGIN - b.low,
    };
    fit(lasts, add_base(a.base, negated(b.base)), ends)
}

/// The ends of two ranges over one base, widened first if their bases differ.
fn aligned(lasts: &Lasts, a: &Range, b: &Range) -> CommonBase
    requires first { bases.IsFit lasts.now a.now }
    requires second { bases.IsFit lasts.now b.now }
    ensures value { result ≡ bases.aligned lasts.now a.now b.now }
    ensures first { result.first.low ≤ result.first.high }
    ensures second { result.second.low ≤ result.second.high }
    ensures first_high { result.first.high ≤ spec_numbers.greatest }
    ensures second_high { result.second.high ≤ spec_numbers.greatest }
{
    if same_base(a.base, b.base) {
        CommonBase {
            base: a.base,
            first: ends_of(a),
            second: ends_of(b),
        }
    } else {
        CommonBase {
            base: no_base(),
            first: widened(lasts, a),
            second: widened(lasts, b),
        }
    }
}

/// The range of the lesser of two numbers.
pub fn minimum(lasts: &Lasts, a: &Range, b: &Range) -> Range
    requires first { bases.IsFit lasts.now a.now }
    requires second { bases.IsFit lasts.now b.now }
    ensures value { result ≡ bases.together lasts.now bases.lesser a.now b.now }
    ensures fits { bases.IsFit lasts.now result }
{
    let both = aligned(lasts, a, b);
    let ends = Ends {
        low: both.first.low.min(both.second.low),
        high: both.first.high.min(both.second.high),
    };
    fit(lasts, both.base, ends)
}

/// The range of the greater of two numbers.
pub fn maximum(lasts: &Lasts, a: &Range, b: &Range) -> Range
    requires first { bases.IsFit lasts.now a.now }
    requires second { bases.IsFit lasts.now b.now }
    ensures value { result ≡ bases.together lasts.now bases.greater a.now b.now }
    ensures fits { bases.IsFit lasts.now result }
{
    let both = aligned(lasts, a, b);
    let ends = Ends {
        low: both.first.low.max(both.second.low),
        high: both.first.high.max(both.second.high),
    };
    fit(lasts, both.base, ends)
}

/// The range that two lie in.
pub fn hull(lasts: &Lasts, a: &Range, b: &Range) -> Range
    requires first { bases.IsFit lasts.now a.now }
    requires second { bases.IsFit lasts.now b.now }
    ensures value { result ≡ bases.together lasts.now bases.hull a.now b.now }
    ensures fits { bases.IsFit lasts.now result }
{
    let both = aligned(lasts, a, b);
    let ends = Ends {
        low: both.first.low.min(both.second.low),
        high: both.first.high.max(both.second.high),
    };
    fit(lasts, both.base, ends)
}

/// A product of two numbers up to 2^31.
fn product(a: u64, b: u64) -> u64
    requires first { a ≤ 2 ^ 31 }
    requires second { b ≤ 2 ^ 31 }
    ensures value { result ≡ a * b }
    ensures small { result ≤ 2 ^ 62 }
{
    a * b
}

/// The product of two ends.
fn times_end(p: u64, q: u64) -> u64
    requires least_first { spec_numbers.least ≤ p }
    requires first { p ≤ spec_numbers.greatest }
    requires least_second { spec_numbers.least ≤ q }
    requires second { q ≤ spec_numbers.greatest }
    ensures value { result ≡ bases.times_end p q }
    ensures small { result ≤ 2 ^ 63 }
{
    if p >= ORIGIN {
        if q >= ORIGIN {
            ORIGIN + product(p - ORIGIN, q - ORIGIN)
        } else {
            ORIGIN - product(p - ORIGIN, ORIGIN - q)
        }
    } else if q >= ORIGIN {
        ORIGIN - product(ORIGIN - p, q - ORIGIN)
    } else {
        ORIGIN + product(ORIGIN - p, ORIGIN - q)
    }
}

/// Two ends in order.
fn ordered(p: u64, q: u64) -> Ends
    ensures { result ≡ bases.ordered p q }
{
    Ends {
        low: p.min(q),
        high: p.max(q),
    }
}

fn scaled_base(c: u64, base: Base) -> Base
    ensures { result ≡ bases.scaled_base c base }
{
    if c >= ORIGIN {
        times_base(c - ORIGIN, base)
    } else {
        times_base(ORIGIN - c, negated(base))
    }
}

/// A range times a number, which is told by its end.
fn scaled(lasts: &Lasts, a: &Range, c: u64) -> Range
    requires fits { bases.IsFit lasts.now a.now }
    requires least { spec_numbers.least ≤ c }
    requires greatest { c ≤ spec_numbers.greatest }
    ensures value { result ≡ bases.scaled lasts.now a.now c }
    ensures fits { bases.IsFit lasts.now result }
{
    let ends = ordered(times_end(a.low, c), times_end(a.high, c));
    fit(lasts, scaled_base(c, a.base), ends)
}

/// From the least to the greatest of four products.
fn crossed(a: Ends, b: Ends) -> Ends
    requires least_first { spec_numbers.least ≤ a.low }
    requires ordered_first { a.low ≤ a.high }
    requires first { a.high ≤ spec_numbers.greatest }
    requires least_second { spec_numbers.least ≤ b.low }
    requires ordered_second { b.low ≤ b.high }
    requires second { b.high ≤ spec_numbers.greatest }
    ensures value { result ≡ bases.crossed a b }
    ensures ordered { result.low ≤ result.high }
    ensures small { result.high ≤ 2 ^ 63 }
{
    let lows = ordered(times_end(a.low, b.low), times_end(a.low, b.high));
    let highs = ordered(times_end(a.high, b.low), times_end(a.high, b.high));
    Ends {
        low: lows.low.min(highs.low),
        high: lows.high.max(highs.high),
    }
}

/// Whether there is one number in a range, and no base.
fn is_number(a: &Range) -> bool
    ensures { result ≡ bases.is_number a.now }
{
    same_base(a.base, no_base()) && a.low == a.high
}

/// The product of two ranges.
pub fn multiplied(lasts: &Lasts, a: &Range, b: &Range) -> Range
    requires first { bases.IsFit lasts.now a.now }
    requires second { bases.IsFit lasts.now b.now }
    ensures value { result ≡ bases.multiplied lasts.now a.now b.now }
    ensures fits { bases.IsFit lasts.now result }
{
    if is_number(b) {
        scaled(lasts, a, b.low)
    } else if is_number(a) {
        scaled(lasts, b, a.low)
    } else {
        fit(
            lasts,
            no_base(),
            crossed(widened(lasts, a), widened(lasts, b)),
        )
    }
}

/// An end divided, rounded to minus infinity.
fn divided_end(end: u64, c: u64) -> u64
    requires positive { 1 ≤ c }
    requires small { end ≤ spec_numbers.greatest }
    ensures value { result ≡ bases.divided_end end c }
    ensures small { result ≤ spec_numbers.greatest }
{
    if end >= ORIGIN {
        ORIGIN + (end - ORIGIN) / c
    } else {
        ORIGIN - 1 - (ORIGIN - 1 - end) / c
    }
}

fn divided_ends(a: Ends, c: u64) -> Ends
    requires positive { 1 ≤ c }
    requires ordered { a.low ≤ a.high }
    requires small { a.high ≤ spec_numbers.greatest }
    ensures value { result ≡ bases.divided_ends a c }
    ensures ordered { result.low ≤ result.high }
    ensures small { result.high ≤ spec_numbers.greatest }
{
    Ends {
        low: divided_end(a.low, c),
        high: divided_end(a.high, c),
    }
}

/// A range divided by a number.
pub fn divided(lasts: &Lasts, a: &Range, c: u32) -> Range
    requires { bases.IsFit lasts.now a.now }
    ensures value { result ≡ bases.divided lasts.now a.now c }
    ensures fits { bases.IsFit lasts.now result }
{
    if c == 0 {
        every()
    } else {
        fit(
            lasts,
            no_base(),
            divided_ends(widened(lasts, a), u64::from(c)),
        )
    }
}

/// The range of remainders.
pub fn remainders(lasts: &Lasts, c: u32) -> Range
    ensures value { result ≡ bases.remainders lasts.now c }
    ensures fits { bases.IsFit lasts.now result }
{
    if c == 0 {
        every()
    } else {
        let ends = Ends {
            low: ORIGIN,
            high: ORIGIN + u64::from(c) - 1,
        };
        fit(lasts, no_base(), ends)
    }
}

/// The range of a number.
pub fn literal(lasts: &Lasts, n: u32) -> Range
    ensures value { result ≡ bases.literal lasts.now n }
    ensures fits { bases.IsFit lasts.now result }
{
    let end = ORIGIN + u64::from(n);
    fit(
        lasts,
        no_base(),
        Ends {
            low: end,
            high: end,
        },
    )
}

/// The range of an operation on two numbers.
pub fn operated(lasts: &Lasts, operation: Operation, a: &Range, b: &Range) -> Range
    requires first { bases.IsFit lasts.now a.now }
    requires second { bases.IsFit lasts.now b.now }
    ensures value { result ≡ bases.operated lasts.now operation a.now b.now }
    ensures fits { bases.IsFit lasts.now result }
{
    match operation {
        Operation::Add => added(lasts, a, b),
        Operation::Subtract => subtracted(lasts, a, b),
        Operation::Multiply => multiplied(lasts, a, b),
        Operation::Minimum => minimum(lasts, a, b),
        Operation::Maximum => maximum(lasts, a, b),
        Operation::Less
        | Operation::LessOrEqual
        | Operation::Greater
        | Operation::GreaterOrEqual
        | Operation::Equal
        | Operation::NotEqual => between(ORIGIN, ORIGIN + 1),
    }
}
