//! What numbers, variables and pixels range over.

use halide_pipeline::{Operation, Reduction, Source, Update, Variable};

/// The signed numbers from `low` to `high`.
#[derive(Clone, Copy)]
pub(crate) struct SignedRange {
    pub low: i64,
    pub high: i64,
}

/// All signed numbers of 32 bits.
pub(crate) const ALL: SignedRange = SignedRange {
    low: -0x8000_0000,
    high: 0x7fff_ffff,
};

/// The one number 0.
pub(crate) const ZERO: SignedRange = SignedRange { low: 0, high: 0 };

impl SignedRange {
    /// The range, or all numbers where it leaves them.
    pub fn or_all(low: i64, high: i64) -> SignedRange {
        if low < ALL.low || high > ALL.high || low > high {
            ALL
        } else {
            SignedRange { low, high }
        }
    }

    /// The least range with both.
    pub fn hull(self, other: SignedRange) -> SignedRange {
        SignedRange {
            low: self.low.min(other.low),
            high: self.high.max(other.high),
        }
    }

    /// The products of both.
    fn times(self, other: SignedRange) -> SignedRange {
        let a = self.low.saturating_mul(other.low);
        let b = self.low.saturating_mul(other.high);
        let c = self.high.saturating_mul(other.low);
        let d = self.high.saturating_mul(other.high);
        SignedRange::or_all(a.min(b).min(c).min(d), a.max(b).max(c).max(d))
    }

    /// What an operation makes of both.
    pub fn apply(self, operation: Operation, other: SignedRange) -> SignedRange {
        match operation {
            Operation::Add => SignedRange::or_all(
                self.low.saturating_add(other.low),
                self.high.saturating_add(other.high),
            ),
            Operation::Subtract => SignedRange::or_all(
                self.low.saturating_sub(other.high),
                self.high.saturating_sub(other.low),
            ),
            Operation::Multiply => self.times(other),
            Operation::Minimum => {
                SignedRange::or_all(self.low.min(other.low), self.high.min(other.high))
            }
            Operation::Maximum => {
                SignedRange::or_all(self.low.max(other.low), self.high.max(other.high))
            }
            Operation::Less
            | Operation::LessOrEqual
            | Operation::Greater
            | Operation::GreaterOrEqual
            | Operation::Equal
            | Operation::NotEqual => SignedRange { low: 0, high: 1 },
        }
    }

    /// How many numbers there are.
    pub fn count(self) -> u64 {
        self.high
            .saturating_sub(self.low)
            .saturating_add(1)
            .max(0)
            .cast_unsigned()
    }

    /// The word of the least.
    pub fn corner(self) -> u32 {
        (self.low.rem_euclid(1 << 32)).cast_unsigned() as u32
    }
}

/// The signed number of a word.
pub(crate) fn signed(word: u32) -> i64 {
    i64::from(word.cast_signed())
}

/// What the pixels of inputs and Funcs range over.
#[derive(Clone, Copy)]
pub(crate) struct Values<'a> {
    pub inputs: &'a [SignedRange],
    pub funcs: &'a [SignedRange],
}

impl Values<'_> {
    pub fn range(self, source: Source) -> SignedRange {
        let known = match source {
            Source::Input(place) => self.inputs.get(place),
            Source::Func(place) => self.funcs.get(place),
        };
        known.copied().unwrap_or(ALL)
    }
}

/// What the variables and the reads of an expression range over, and how often it is computed.
#[derive(Clone, Copy)]
pub(crate) struct RangeSetting<'a> {
    pub first_argument: SignedRange,
    pub second_argument: SignedRange,
    pub first_reduction: SignedRange,
    pub second_reduction: SignedRange,
    pub values: Values<'a>,
    pub times: u64,
}

impl RangeSetting<'_> {
    pub fn range(&self, variable: Variable) -> SignedRange {
        match variable {
            Variable::FirstArgument => self.first_argument,
            Variable::SecondArgument => self.second_argument,
            Variable::FirstReduction => self.first_reduction,
            Variable::SecondReduction => self.second_reduction,
        }
    }
}

/// The setting of a pure definition.
pub(crate) fn pure_setting<'a>(
    columns: SignedRange,
    rows: SignedRange,
    times: u64,
    values: Values<'a>,
) -> RangeSetting<'a> {
    RangeSetting {
        first_argument: columns,
        second_argument: rows,
        first_reduction: ZERO,
        second_reduction: ZERO,
        values,
        times,
    }
}

/// The setting of an update.
pub(crate) fn update_setting<'a>(
    update: &Update,
    columns: SignedRange,
    rows: SignedRange,
    times: u64,
    values: Values<'a>,
) -> RangeSetting<'a> {
    RangeSetting {
        first_argument: columns,
        second_argument: rows,
        first_reduction: reduction_range(&update.first),
        second_reduction: update.second.as_ref().map_or(ZERO, reduction_range),
        values,
        times,
    }
}

/// What a reduction variable ranges over.
pub(crate) fn reduction_range(reduction: &Reduction) -> SignedRange {
    let low = signed(reduction.minimum);
    SignedRange::or_all(
        low,
        low.saturating_add(i64::from(reduction.extent))
            .saturating_sub(1),
    )
}
