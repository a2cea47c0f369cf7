//! Words of a list that stand equally far apart, as those of a column of pixels do: plain loops over slices.

ghost use Rattle.std.specs.Prelude.{◌≡◌, ◌+◌, ◌*◌, ◌<◌, ℕ, length, slice_index, true};
ghost use Rattle.picture.specs.inner.Apart.{stored};
ghost use Rattle.picture_rows.specs.Rows.{AreValues};

use crate::points::product;

/// Whether a list of this length has so many words from an offset on, each so far after the one before it.
pub(crate) fn has_words(len: usize, from: usize, apart: u32, count: u32) -> bool
    ensures { result ≡ true → (at : ℕ) → at < count → from + at * apart < len }
{
    if count == 0 {
        return true;
    }
    let last = product(count - 1, apart) as usize;
    if from >= len || last >= len - from {
        return false;
    }
    true
}

/// The words from an offset on, each so far after the one before it.
#[inline(always)]
pub(crate) fn fetch_apart(words: &[u32], from: usize, apart: usize, values: &mut [u32])
    requires { (at : ℕ) → at < length values.old → from + at * apart < length words.now }
    ensures { AreValues (length values.old) (λ at. slice_index words.now (from + at * apart)) values.new }
{
    for at in 0..values.len() {
        values[at] = words[from + at * apart];
    }
}

/// Stores words from an offset on, each so far after the one before it.
#[inline(always)]
pub(crate) fn store_apart(values: &[u32], from: usize, apart: usize, words: &mut [u32])
    requires { (at : ℕ) → at < length values.now → from + at * apart < length words.old }
    ensures { words.new ≡ stored values.now from apart (length values.now) words.old }
{
    for at in 0..values.len() {
        words[from + at * apart] = values[at];
    }
}
