//! Between which numbers words lie, as signed numbers.

ghost use Rattle.std.specs.Prelude.{true, ◌≡◌, ◌≤◌, ◌<◌, ℕ};
ghost use Rattle.halide_pipeline.specs.Words as word;
ghost use Rattle.loop_ir.specs.Counters.{Values};
ghost use Rattle.loop_ir.specs.Expressions.{linear_value};
ghost use Rattle.task_code_loops.specs.Bounds.{AreBelow};
ghost use Rattle.task_code_clamps.specs.Ranges as spec;
ghost use Rattle.task_code_clamps.specs.Ranges.{IsByte, LiesIn};

use halide_pipeline::Source;
use loop_ir::expressions::Linear;
use task_code_loops::bounds::{Bound, most_of};
use task_code_scalar::layouts::{Pixels, Places, place_of};

/// Between which levels a word lies; its level is how far it lies above -2^31, as a signed number.
#[derive(Clone, Copy, Debug)]
pub struct LevelRange {
    pub low: u32,
    pub high: u32,
}

/// The level of 0.
pub const ZERO: u32 = 1 << 31;

/// How far a word lies above -2^31.
pub fn level(word: u32) -> u32
    ensures { result ≡ spec.level word }
{
    word.wrapping_add(ZERO)
}

/// That of every word.
pub fn any() -> LevelRange
    ensures { (v : ℕ) → LiesIn result v }
{
    LevelRange {
        low: 0,
        high: u32::MAX,
    }
}

/// That of one word.
pub fn only(word: u32) -> LevelRange
    ensures { LiesIn result word }
{
    let own = level(word);
    LevelRange {
        low: own,
        high: own,
    }
}

/// Words that are so much more than one at most.
fn up_from(first: u32, most: u64) -> LevelRange
    ensures { (more : ℕ) → more ≤ most → LiesIn result (word.add first more) }
{
    let low = level(first);
    if most < 1 << 32 && u64::from(low) + most < 1 << 32 {
        return LevelRange {
            low,
            high: low + most as u32,
        };
    }
    any()
}

/// That of a sum, where loop variables stay below their bounds.
pub fn of_sum(new_sum: &Linear, bounds: &[Bound]) -> LevelRange
    ensures { (values : Values) → AreBelow bounds.now values → LiesIn result (linear_value values new_sum.now) }
{
    match most_of(new_sum.terms.as_slice(), bounds) {
        Some(most) => up_from(new_sum.number, most),
        None => any(),
    }
}

/// That of a source's pixels.
pub fn of_pixels(places: &Places, source: Source) -> LevelRange
    ensures { (v : ℕ) → IsByte places.now source v → LiesIn result v }
{
    match source {
        Source::Func(_) => any(),
        Source::Input(_) => match place_of(places, source).pixels {
            Pixels::Words => any(),
            Pixels::Bytes => LevelRange {
                low: ZERO,
                high: ZERO + 255,
            },
        },
    }
}

/// Whether a source is an input of bytes.
pub fn has_bytes(places: &Places, source: Source) -> bool
    ensures { result ≡ true → (v : ℕ) → IsByte places.now source v → v < 256 }
{
    match source {
        Source::Func(_) => false,
        Source::Input(_) => match place_of(places, source).pixels {
            Pixels::Words => false,
            Pixels::Bytes => true,
        },
    }
}

/// That of the lesser of two words.
pub fn of_lesser(a: LevelRange, b: LevelRange) -> LevelRange
    ensures { (v w : ℕ) → LiesIn a v → LiesIn b w → LiesIn result (word.minimum v w) }
{
    LevelRange {
        low: a.low.min(b.low),
        high: a.high.min(b.high),
    }
}

/// That of the greater of two words.
pub fn of_greater(a: LevelRange, b: LevelRange) -> LevelRange
    ensures { (v w : ℕ) → LiesIn a v → LiesIn b w → LiesIn result (word.maximum v w) }
{
    LevelRange {
        low: a.low.max(b.low),
        high: a.high.max(b.high),
    }
}
