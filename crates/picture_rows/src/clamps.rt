//! Words that go up by 1 from place to place and are kept between two signed numbers.

ghost use Rattle.std.specs.Prelude.{◌≡◌, ◌<◌, ◌+◌, ◌%◌, ◌^◌, IfSome};
ghost use Rattle.halide_pipeline.specs.Words as word;
ghost use Rattle.picture_rows.specs.Rows.{clamped};
ghost use Rattle.picture_rows.specs.inner.Clamps.{IsInside};

use halide_pipeline::words;

/// The least signed number, a word.
pub(crate) const LEAST: u32 = 0x8000_0000;

/// The greatest one.
pub(crate) const GREATEST: u32 = 0x7fff_ffff;

/// Words that go up by 1 from the first on, each taken to the nearer one of two bounds that it lies outside of.
#[derive(Clone, Copy)]
pub struct Clamp {
    pub first: u32,
    pub low: u32,
    pub high: u32,
}

/// A word half a turn further: the order of signed numbers is that of such.
fn turned(word: u32) -> u64
    ensures value { result ≡ (word + 2 ^ 31) % 2 ^ 32 }
    ensures small { result < 2 ^ 32 }
{
    u64::from(word.wrapping_add(LEAST))
}

impl Clamp {
    /// The word at a place.
    pub fn value_at(self, at: u32) -> u32
        ensures { result ≡ clamped self at }
    {
        words::minimum(
            words::maximum(words::add(self.first, at), self.low),
            self.high,
        )
    }

    /// From where on and up to where words lie between the bounds; none where numbers turn round, or the bounds are the
    /// wrong way round.
    pub fn inside(self, width: usize) -> Option<(usize, usize)>
        requires { width < 2 ^ 32 }
        ensures { IfSome result (IsInside self width) }
    {
        let (first, low, high) = (turned(self.first), turned(self.low), turned(self.high));
        let width = width as u64;
        if low > high || first + width > 1 << 32 {
            return None;
        }
        let from = low.saturating_sub(first).min(width);
        let to = (high + 1).saturating_sub(first).min(width);
        Some((from as usize, to as usize))
    }
}
