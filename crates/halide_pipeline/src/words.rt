//! Arithmetic on words. A word stands for the signed number from -2^31 to 2^31 - 1 that it is congruent
//! to modulo 2^32.

ghost use Rattle.std.specs.Prelude.{◌≡◌, ◌+◌, ◌*◌, ◌%◌, ◌^◌, ◌<◌};
ghost use Rattle.halide_pipeline.specs.Words as word;

/// The sum.
#[tactic(auto, unfolding(crate::specs::Words::add))]
pub fn add(x: u32, y: u32) -> u32
    ensures { result ≡ word.add x y }
{
    x.wrapping_add(y)
}

/// The difference.
#[tactic(auto, unfolding(crate::specs::Words::subtract))]
pub fn subtract(x: u32, y: u32) -> u32
    ensures { result ≡ word.subtract x y }
{
    x.wrapping_sub(y)
}

/// The product.
#[tactic(auto, unfolding(crate::specs::Words::multiply))]
pub fn multiply(x: u32, y: u32) -> u32
    ensures { result ≡ word.multiply x y }
{
    x.wrapping_mul(y)
}

/// The quotient by a positive number, rounded to minus infinity; 0 where the divisor is 0.
#[tactic(auto, unfolding(crate::specs::Words::divide))]
pub fn divide(x: u32, divisor: u32) -> u32
    ensures { result ≡ word.divide x divisor }
{
    if divisor == 0 {
        0
    } else if x < 0x8000_0000 {
        x / divisor
    } else {
        u32::MAX - (u32::MAX - x) / divisor
    }
}

/// The remainder by a positive number, which is not negative; 0 where the divisor is 0.
#[tactic(auto, unfolding(crate::specs::Words::remainder))]
pub fn remainder(x: u32, divisor: u32) -> u32
    ensures { result ≡ word.remainder x divisor }
{
    if divisor == 0 {
        0
    } else if x < 0x8000_0000 {
        x % divisor
    } else {
        divisor - 1 - (u32::MAX - x) % divisor
    }
}

/// Whether the first is below the second as a signed number.
#[tactic(auto, unfolding(crate::specs::Words::less))]
pub fn less(x: u32, y: u32) -> bool
    ensures { result ≡ word.less x y }
{
    x.wrapping_add(0x8000_0000) < y.wrapping_add(0x8000_0000)
}

/// The lesser of two signed numbers.
pub fn minimum(x: u32, y: u32) -> u32
    ensures { result ≡ word.minimum x y }
{
    if less(y, x) { y } else { x }
}

/// The greater of two signed numbers.
pub fn maximum(x: u32, y: u32) -> u32
    ensures { result ≡ word.maximum x y }
{
    if less(x, y) { y } else { x }
}

/// The word of a comparison: 1 where it holds, else 0.
pub fn truth(holds: bool) -> u32
    ensures { result ≡ word.truth holds }
{
    u32::from(holds)
}
