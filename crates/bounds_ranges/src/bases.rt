//! Sums of multiples of loops.

ghost use Rattle.std.specs.Prelude.{◌≡◌, ◌^◌, ◌+◌, ◌-◌, ◌≤◌, min};
ghost use Rattle.bounds_ranges.specs.Ranges as spec;

/// A whole number: `more` less `less`, of which one is 0.
#[derive(Clone, Copy, Debug, PartialEq, Eq)]
pub struct Multiple {
    pub more: u64,
    pub less: u64,
}

/// A multiple of each loop that a stage can have.
pub type Base = [Multiple; 5];

/// Multiples past this bound count as the bound.
const MOST: u64 = 1 << 40;

fn cut(n: u64) -> u64
    ensures { result ≡ spec.cut n }
{
    n.min(MOST)
}

fn difference(more: u64, less: u64) -> Multiple
    ensures { result ≡ spec.difference more less }
{
    Multiple {
        more: more.saturating_sub(less),
        less: less.saturating_sub(more),
    }
}

fn add_multiple(a: Multiple, b: Multiple) -> Multiple
    ensures { result ≡ spec.add_multiple a b }
{
    difference(cut(a.more) + cut(b.more), cut(a.less) + cut(b.less))
}

fn opposite(a: Multiple) -> Multiple
    ensures { result ≡ spec.opposite a }
{
    Multiple {
        more: a.less,
        less: a.more,
    }
}

fn times_multiple(n: u64, a: Multiple) -> Multiple
    ensures { result ≡ spec.times_multiple n a }
{
    Multiple {
        more: cut(a.more.saturating_mul(n)),
        less: cut(a.less.saturating_mul(n)),
    }
}

/// The base 0.
pub fn no_base() -> Base
    ensures { result ≡ spec.no_base }
{
    [Multiple { more: 0, less: 0 }; 5]
}

/// The sum of two bases.
pub fn add_base(a: Base, b: Base) -> Base
    ensures { result ≡ spec.add_base a b }
{
    let [a0, a1, a2, a3, a4] = a;
    let [b0, b1, b2, b3, b4] = b;
    [
        add_multiple(a0, b0),
        add_multiple(a1, b1),
        add_multiple(a2, b2),
        add_multiple(a3, b3),
        add_multiple(a4, b4),
    ]
}

/// The base with the other sign.
pub fn negated(a: Base) -> Base
    ensures { result ≡ spec.negated a }
{
    let [a0, a1, a2, a3, a4] = a;
    [
        opposite(a0),
        opposite(a1),
        opposite(a2),
        opposite(a3),
        opposite(a4),
    ]
}

/// The base this many times.
pub fn times_base(n: u64, a: Base) -> Base
    ensures { result ≡ spec.times_base n a }
{
    let [a0, a1, a2, a3, a4] = a;
    [
        times_multiple(n, a0),
        times_multiple(n, a1),
        times_multiple(n, a2),
        times_multiple(n, a3),
        times_multiple(n, a4),
    ]
}

/// Whether two multiples are one number.
fn same_multiple(a: Multiple, b: Multiple) -> bool
    ensures { result ≡ spec.same_multiple a b }
{
    cut(a.more) + cut(b.less) == cut(b.more) + cut(a.less)
}

/// Whether two bases are one.
pub fn same_base(a: Base, b: Base) -> bool
    ensures { result ≡ spec.same_base a b }
{
    let [a0, a1, a2, a3, a4] = a;
    let [b0, b1, b2, b3, b4] = b;
    same_multiple(a0, b0)
        && (same_multiple(a1, b1)
            && (same_multiple(a2, b2) && (same_multiple(a3, b3) && same_multiple(a4, b4))))
}

/// Sums stop here.
const MOST_SUM: u64 = 0x7fff_ffff_ffff_ffff;

/// What a base adds where the loops have these values, at most 2^63 - 1.
pub fn more_sum(base: &[Multiple], values: &[u32]) -> u64
    ensures { result ≡ min (spec.more_sum base.now values.now) (2 ^ 63 - 1) }
{
    match base {
        [] => 0,
        [first, others @ ..] => match values {
            [] => 0,
            [value, behind @ ..] => first
                .more
                .saturating_mul(u64::from(*value))
                .saturating_add(more_sum(others, behind))
                .min(MOST_SUM),
        },
    }
}

/// What a base takes away where the loops have these values, at most 2^63 - 1.
pub fn less_sum(base: &[Multiple], values: &[u32]) -> u64
    ensures { result ≡ min (spec.less_sum base.now values.now) (2 ^ 63 - 1) }
{
    match base {
        [] => 0,
        [first, others @ ..] => match values {
            [] => 0,
            [value, behind @ ..] => first
                .less
                .saturating_mul(u64::from(*value))
                .saturating_add(less_sum(others, behind))
                .min(MOST_SUM),
        },
    }
}
