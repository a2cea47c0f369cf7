//! How many values the variables of a stage take.

ghost use Rattle.std.specs.Prelude.{◌≡◌};
ghost use Rattle.schedule_loops.specs.Visits.{extent_of};

use halide_pipeline::Variable;

/// How many values each variable of a stage takes. What is said of a variable that no loop is over counts for
/// nothing.
#[derive(Clone, Copy, Debug, PartialEq, Eq)]
pub struct Extents {
    pub first_argument: u32,
    pub second_argument: u32,
    pub first_reduction: u32,
    pub second_reduction: u32,
}

impl Extents {
    /// How many values the variable takes.
    pub fn of(&self, variable: Variable) -> u32
        ensures { result ≡ extent_of self.now variable }
    {
        match variable {
            Variable::FirstArgument => self.first_argument,
            Variable::SecondArgument => self.second_argument,
            Variable::FirstReduction => self.first_reduction,
            Variable::SecondReduction => self.second_reduction,
        }
    }
}
