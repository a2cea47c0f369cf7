//! What the variables of an expression stand for.

/// The values of an expression's variables, as words.
#[derive(Clone, Copy, Debug, PartialEq, Eq)]
pub struct Environment {
    /// The Func's first argument.
    pub first_argument: u32,
    /// The Func's second argument.
    pub second_argument: u32,
    /// The first reduction variable.
    pub first_reduction: u32,
    /// The second reduction variable.
    pub second_reduction: u32,
}
