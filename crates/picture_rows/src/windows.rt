//! Stretches of a row whose words are known.

ghost use Rattle.std.specs.Prelude.{◌≡◌, ◌+◌, ◌<◌, ◌≤◌, ◌^◌, IfOk, IfSome, ℕ, length, slice_index, true};
ghost use Rattle.halide_pipeline.specs.Words as word;
ghost use Rattle.picture_rows.specs.Rows.{AreValues, Covers, IsWindow, clamped};

use crate::clamps::Clamp;
use crate::loops::spread;
use halide_pipeline::words;
use std::alloc::{AllocError, Global};

/// This many words from a place on.
pub fn stretch(values: &[u32], from: usize, count: usize) -> &[u32]
    requires { from + count ≤ length values.now }
    ensures { AreValues count (λ at. slice_index values.now (from + at)) result.now }
{
    let (_, values) = values.split_at(from);
    let (values, _) = values.split_at(count);
    values
}

/// Words that stand in a row, from a column on; the column is a word.
#[derive(Clone, Copy)]
pub struct Window<'a> {
    pub first: u32,
    pub values: &'a [u32],
}

impl<'a> Window<'a> {
    /// A window with no words.
    pub fn nothing() -> Window<'a>
        ensures { (says : ℕ → ℕ) → IsWindow says result }
    {
        Window {
            first: 0,
            values: &[],
        }
    }

    /// The word in a column, if it is known.
    pub fn get(&self, column: u32) -> Option<u32>
        ensures { (says : ℕ → ℕ) → IsWindow says self.now → IfSome result (λ value. value ≡ says column) }
    {
        let at = words::subtract(column, self.first) as usize;
        if at >= self.values.len() {
            return None;
        }
        Some(self.values[at])
    }

    /// The words in this many columns from one on, if all are known; there may be no columns.
    fn part(&self, column: u32, count: usize) -> Option<&'a [u32]>
        requires { count < 2 ^ 32 }
        ensures len { IfSome result (λ values. length values.now ≡ count) }
        ensures values { (says : ℕ → ℕ) → IsWindow says self.now
            → IfSome result (λ values. AreValues count (λ at. says (word.add column at)) values.now) }
    {
        if count == 0 {
            return Some(&[]);
        }
        let at = words::subtract(column, self.first) as usize;
        if at + count > self.values.len() {
            return None;
        }
        Some(stretch(self.values, at, count))
    }

    /// The words in this many columns from one on, if all are known.
    pub fn columns(&self, column: u32, count: usize) -> Option<&'a [u32]>
        requires { count < 2 ^ 32 }
        ensures { (says : ℕ → ℕ) → IsWindow says self.now
            → IfSome result (λ values. AreValues count (λ at. says (word.add column at)) values.now) }
    {
        self.part(column, count)
    }

    /// How far after the first one the furthest of these columns is, as words go; 0 of none.
    fn reach(&self, columns: &[u32]) -> u32
        ensures { (at : ℕ) → at < length columns.now → (slice_index columns.now at < 2 ^ 32)
            × (word.subtract (slice_index columns.now at) self.now.first ≤ result) }
    {
        let mut most = 0;
        for at in 0..columns.len() {
            let column = columns[at];
            most = words::subtract(column, self.first).max(most);
        }
        most
    }

    /// Whether the words in all these columns are known.
    pub fn covers(&self, columns: &[u32]) -> bool
        ensures { result ≡ true → Covers self.now columns.now }
    {
        (self.reach(columns) as usize) < self.values.len()
    }

    /// The word in each of these columns, in its place.
    pub fn fetch(&self, columns: &mut [u32])
        requires { Covers self.now columns.old }
        ensures { (says : ℕ → ℕ) → IsWindow says self.now
            → AreValues (length columns.old) (λ at. says (slice_index columns.old at)) columns.new }
    {
        let first = self.first;
        for at in 0..columns.len() {
            columns[at] = self.values[words::subtract(columns[at], first) as usize];
        }
    }

    /// The word in a column, if it is known or not needed.
    fn get_if(&self, is_needed: bool, column: u32) -> Option<u32>
        ensures { (says : ℕ → ℕ) → IsWindow says self.now
            → IfSome result (λ value. is_needed ≡ true → value ≡ says column) }
    {
        if !is_needed {
            return Some(0);
        }
        self.get(column)
    }

    /// The words in columns that go up by 1 and are clamped, if all are known.
    pub fn clamped(
        &self,
        alloc: Global,
        clamp: Clamp,
        width: usize,
    ) -> Result<Option<Vec<u32>>, AllocError>
        requires { width < 2 ^ 32 }
        ensures { (says : ℕ → ℕ) → IsWindow says self.now
            → IfOk result (λ found. IfSome found (λ values. AreValues width (λ at. says (clamped clamp at))
            values.items)) }
    {
        let Some((from, to)) = clamp.inside(width) else {
            return Ok(None);
        };
        let Some(before) = self.get_if(from > 0, clamp.low) else {
            return Ok(None);
        };
        let Some(behind) = self.get_if(to < width, clamp.high) else {
            return Ok(None);
        };
        let first = words::add(clamp.first, from as u32);
        let Some(inside) = self.part(first, to - from) else {
            return Ok(None);
        };
        let values = spread(alloc, width, from, inside, before, behind)?;
        Ok(Some(values))
    }
}
