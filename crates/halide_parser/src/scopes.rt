//! The variables of a definition.

ghost use Rattle.std.specs.Prelude.{◌≡◌, IfOk};
ghost use Rattle.halide_pipeline.specs.Pipelines.{is_named};
ghost use Rattle.halide_parser.specs.Expressions as spec;

use halide_pipeline::Variable;
use sqlite_items::Items;

/// The names that stand for variables in a line, and the Func that the line updates.
#[derive(Drop)]
pub struct NameScope {
    pub first_argument: Option<Items<u8>>,
    pub second_argument: Option<Items<u8>>,
    pub first_reduction: Option<Items<u8>>,
    pub second_reduction: Option<Items<u8>>,
    pub own: Option<usize>,
}

impl NameScope {
    /// No variables.
    pub fn empty() -> NameScope
        ensures { result ≡ spec.empty }
    {
        NameScope {
            first_argument: None,
            second_argument: None,
            first_reduction: None,
            second_reduction: None,
            own: None,
        }
    }
}

/// Whether there is a name, and it is this one.
pub fn is_named(own: &Option<Items<u8>>, name: &[u8]) -> bool
    ensures { result ≡ is_named own.now name.now }
{
    match own {
        None => false,
        Some(own) => own.as_slice() == name,
    }
}

/// The variable with a name.
#[tactic(auto, unfolding(crate::specs::Expressions::variable))]
pub fn variable(scope: &NameScope, name: &[u8]) -> Option<Variable>
    ensures { result ≡ spec.variable scope.now name.now }
{
    if is_named(&scope.first_argument, name) {
        Some(Variable::FirstArgument)
    } else if is_named(&scope.second_argument, name) {
        Some(Variable::SecondArgument)
    } else if is_named(&scope.first_reduction, name) {
        Some(Variable::FirstReduction)
    } else if is_named(&scope.second_reduction, name) {
        Some(Variable::SecondReduction)
    } else {
        None
    }
}
