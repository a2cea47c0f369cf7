//! Points at which definitions are computed, and which variables they depend on.

ghost use Rattle.std.specs.Prelude.{◌≡◌, ◌<◌, ◌+◌, ◌-◌, ◌*◌, ◌/◌, ◌%◌, ◌^◌};
ghost use Rattle.halide_pipeline.specs.Pixel as spec;
ghost use Rattle.halide_pipeline.specs.Words as word;
ghost use Rattle.picture.specs.Slices.{is_forward, mentions};

use halide_pipeline::{Environment, Update, Variable, words};

/// What a variable stands for.
pub(crate) fn variable(environment: &Environment, variable: Variable) -> u32
    ensures { result ≡ spec.variable environment.now variable }
{
    match variable {
        Variable::FirstArgument => environment.first_argument,
        Variable::SecondArgument => environment.second_argument,
        Variable::FirstReduction => environment.first_reduction,
        Variable::SecondReduction => environment.second_reduction,
    }
}

/// A point, with no reduction.
pub(crate) fn at_point(x: u32, y: u32) -> Environment
    ensures { result ≡ spec.at_point x y }
{
    Environment {
        first_argument: x,
        second_argument: y,
        first_reduction: 0,
        second_reduction: 0,
    }
}

/// The product, which fits.
pub(crate) fn product(a: u32, b: u32) -> u64
    ensures value { result ≡ a * b }
    ensures few { result + 2 ^ 32 < 2 ^ 64 }
{
    u64::from(a) * u64::from(b)
}

/// How many points a reduction box has.
pub(crate) fn points(update: &Update) -> u64
    ensures value { result ≡ spec.points update.now }
    ensures few { result < 2 ^ 64 - 1 }
{
    let second = match &update.second {
        None => 1,
        Some(reduction) => reduction.extent,
    };
    product(update.first.extent, second)
}

/// The value of a reduction variable after this many steps.
#[tactic(auto, unfolding(halide_pipeline::specs::Words::add))]
fn reduction_value(minimum: u32, step: u64) -> u32
    ensures { result ≡ word.add minimum step }
{
    words::add(minimum, (step % (1 << 32)) as u32)
}

/// The point with this number of a reduction box, for a wanted point.
pub(crate) fn at_reduction(update: &Update, number: u64, x: u32, y: u32) -> Environment
    ensures { result ≡ spec.at_reduction update.now number x y }
{
    let extent = u64::from(update.first.extent);
    let (first_step, second_step) = steps(number, extent);
    let second = match &update.second {
        None => 0,
        Some(reduction) => reduction_value(reduction.minimum, second_step),
    };
    Environment {
        first_argument: x,
        second_argument: y,
        first_reduction: reduction_value(update.first.minimum, first_step),
        second_reduction: second,
    }
}

/// How many steps the first and the second variable have made at a point. A first variable without
/// values makes none.
fn steps(number: u64, extent: u64) -> (u64, u64)
    ensures first { result.0 ≡ number % extent }
    ensures second { result.1 ≡ number / extent }
{
    if extent == 0 {
        (number, 0)
    } else {
        (number % extent, number / extent)
    }
}

/// Whether a variable occurs anywhere in an update.
fn mentions(variable: Variable, update: &Update) -> bool
    ensures { result ≡ mentions variable update.now }
{
    let in_left_y = match &update.left_y {
        None => false,
        Some(left_y) => left_y.uses(variable),
    };
    update.left_x.uses(variable) || in_left_y || update.right.uses(variable)
}

/// Whether an argument that isn't in place occurs nowhere in an update, so that it can be run
/// forward.
pub(crate) fn is_forward(update: &Update) -> bool
    ensures { result ≡ is_forward update.now }
{
    (update.is_first_in_place() || !mentions(Variable::FirstArgument, update))
        && (update.is_second_in_place() || !mentions(Variable::SecondArgument, update))
}
