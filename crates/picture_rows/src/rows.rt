//! Rows of words.

ghost use Rattle.std.specs.Prelude.{◌≡◌, ◌==◌, ◌<◌, ◌^◌, if◌then◌else◌, IfOk, length, slice_index};
ghost use Rattle.halide_pipeline.specs.Words as word;
ghost use Rattle.picture_rows.specs.Rows.{AreValues, HasLength, IsRow, value_at};

use crate::clamps::{Clamp, GREATEST, LEAST};
use crate::loops::{choose, clamp_up, combine, combine_with, count_up, divide, remain};
use halide_pipeline::{Operation, words};
use std::alloc::{AllocError, Global};

/// The words at places one beside the other.
#[derive(Drop)]
pub enum Row {
    /// The same word at each place.
    Same(u32),
    /// This word at place 0, and one more at each next place, as words.
    Step(u32),
    /// The same, kept between two signed numbers.
    Clamped(Clamp),
    /// A word for each place.
    Each(Vec<u32>),
}

impl Row {
    /// The word at a place.
    pub fn value_at(&self, at: usize, width: usize) -> u32
        requires row { HasLength width self.now }
        requires within { at < width }
        requires narrow { width < 2 ^ 32 }
        ensures { result ≡ value_at self.now at }
    {
        match self {
            Row::Same(value) => *value,
            Row::Step(first) => words::add(*first, at as u32),
            Row::Clamped(clamp) => clamp.value_at(at as u32),
            Row::Each(values) => values[at],
        }
    }

    /// The words at this many places, each written down.
    ///
    /// # Errors
    ///
    /// Memory ran out.
    pub fn into_values(self, alloc: Global, width: usize) -> Result<Vec<u32>, AllocError>
        requires row { HasLength width self }
        requires narrow { width < 2 ^ 32 }
        ensures { IfOk result (λ values. AreValues width (value_at self) values.items) }
    {
        match self {
            Row::Same(value) => {
                let values = vec![in alloc; value; width]?;
                Ok(values)
            }
            Row::Step(first) => {
                let mut values = vec![in alloc; first; width]?;
                count_up(&mut values, first);
                Ok(values)
            }
            Row::Clamped(clamp) => {
                let mut values = vec![in alloc; clamp.first; width]?;
                clamp_up(&mut values, clamp);
                Ok(values)
            }
            Row::Each(values) => Ok(values),
        }
    }

    /// What an operation makes of the words of two rows, place by place.
    ///
    /// # Errors
    ///
    /// Memory ran out.
    pub fn combined(
        self,
        alloc: Global,
        operation: Operation,
        other: Row,
        width: usize,
    ) -> Result<Row, AllocError>
        requires row { HasLength width self }
        requires other { HasLength width other }
        requires narrow { width < 2 ^ 32 }
        ensures { IfOk result (IsRow width (λ at. word.applied operation (value_at self at) (value_at other at))) }
    {
        match other {
            Row::Same(second) => {
                let row = self.combined_with(alloc, operation, second, width)?;
                Ok(row)
            }
            other => {
                let mut values = self.into_values(alloc, width)?;
                let others = other.into_values(alloc, width)?;
                combine(operation, &mut values, &others);
                Ok(Row::Each(values))
            }
        }
    }

    /// What an operation makes of the words of a row and of this one.
    fn combined_with(
        self,
        alloc: Global,
        operation: Operation,
        second: u32,
        width: usize,
    ) -> Result<Row, AllocError>
        requires row { HasLength width self }
        requires narrow { width < 2 ^ 32 }
        ensures { IfOk result (IsRow width (λ at. word.applied operation (value_at self at) second)) }
    {
        match (self, operation) {
            (Row::Same(first), _) => Ok(Row::Same(operation.apply(first, second))),
            (Row::Step(first), Operation::Add) => Ok(Row::Step(words::add(first, second))),
            (Row::Step(first), Operation::Subtract) => Ok(Row::Step(words::subtract(
                first, second,
            ))),
            (Row::Step(first), Operation::Maximum) => Ok(Row::Clamped(Clamp {
                first,
                low: second,
                high: GREATEST,
            })),
            (Row::Step(first), Operation::Minimum) => Ok(Row::Clamped(Clamp {
                first,
                low: LEAST,
                high: second,
            })),
            (Row::Clamped(clamp), Operation::Minimum) => Ok(Row::Clamped(Clamp {
                high: words::minimum(clamp.high, second),
                ..clamp
            })),
            (row, _) => {
                let mut values = row.into_values(alloc, width)?;
                combine_with(operation, &mut values, second);
                Ok(Row::Each(values))
            }
        }
    }

    /// Quotients by a number, place by place.
    ///
    /// # Errors
    ///
    /// Memory ran out.
    pub fn divided(self, alloc: Global, divisor: u32, width: usize) -> Result<Row, AllocError>
        requires row { HasLength width self }
        requires narrow { width < 2 ^ 32 }
        ensures { IfOk result (IsRow width (λ at. word.divide (value_at self at) divisor)) }
    {
        match self {
            Row::Same(first) => Ok(Row::Same(words::divide(first, divisor))),
            row => {
                let mut values = row.into_values(alloc, width)?;
                divide(&mut values, divisor);
                Ok(Row::Each(values))
            }
        }
    }

    /// Remainders by a number, place by place.
    ///
    /// # Errors
    ///
    /// Memory ran out.
    pub fn remaining(self, alloc: Global, divisor: u32, width: usize) -> Result<Row, AllocError>
        requires row { HasLength width self }
        requires narrow { width < 2 ^ 32 }
        ensures { IfOk result (IsRow width (λ at. word.remainder (value_at self at) divisor)) }
    {
        match self {
            Row::Same(first) => Ok(Row::Same(words::remainder(first, divisor))),
            row => {
                let mut values = row.into_values(alloc, width)?;
                remain(&mut values, divisor);
                Ok(Row::Each(values))
            }
        }
    }

    /// This row's words where a condition isn't 0, else another row's.
    ///
    /// # Errors
    ///
    /// Memory ran out.
    pub fn chosen(
        self,
        alloc: Global,
        condition: Row,
        other: Row,
        width: usize,
    ) -> Result<Row, AllocError>
        requires row { HasLength width self }
        requires other { HasLength width other }
        requires condition { HasLength width condition }
        requires narrow { width < 2 ^ 32 }
        ensures { IfOk result (IsRow width (λ at. if value_at condition at == 0 then value_at other at else value_at
            self at)) }
    {
        match condition {
            Row::Same(0) => Ok(other),
            Row::Same(_) => Ok(self),
            condition => {
                let conditions = condition.into_values(alloc, width)?;
                let mut values = self.into_values(alloc, width)?;
                let others = other.into_values(alloc, width)?;
                choose(&conditions, &mut values, &others);
                Ok(Row::Each(values))
            }
        }
    }
}
