//! Expressions over words.

ghost use Rattle.std.specs.Prelude.{◌≡◌};
ghost use Rattle.halide_pipeline.specs.Words as word;

use crate::words;
use sqlite_items::Boxed;

/// A variable of a definition.
#[derive(Clone, Copy, Debug, PartialEq, Eq)]
pub enum Variable {
    /// The Func's first argument.
    FirstArgument,
    /// The Func's second argument, where it has two.
    SecondArgument,
    /// The update's first reduction variable, the innermost.
    FirstReduction,
    /// The update's second reduction variable, where it has two.
    SecondReduction,
}

/// What a call reads: a place in the pipeline's order, from 0.
#[derive(Clone, Copy, Debug, PartialEq, Eq)]
pub enum Source {
    /// An input picture.
    Input(usize),
    /// A Func.
    Func(usize),
}

/// An operation on two words. Comparisons give 1 or 0.
#[derive(Clone, Copy, Debug, PartialEq, Eq)]
pub enum Operation {
    Add,
    Subtract,
    Multiply,
    Minimum,
    Maximum,
    Less,
    LessOrEqual,
    Greater,
    GreaterOrEqual,
    Equal,
    NotEqual,
}

impl Operation {
    /// What the operation makes of two words.
    pub fn apply(self, x: u32, y: u32) -> u32
        ensures { result ≡ word.applied self x y }
    {
        match self {
            Operation::Add => words::add(x, y),
            Operation::Subtract => words::subtract(x, y),
            Operation::Multiply => words::multiply(x, y),
            Operation::Minimum => words::minimum(x, y),
            Operation::Maximum => words::maximum(x, y),
            Operation::Less => words::truth(words::less(x, y)),
            Operation::LessOrEqual => words::truth(!words::less(y, x)),
            Operation::Greater => words::truth(words::less(y, x)),
            Operation::GreaterOrEqual => words::truth(!words::less(x, y)),
            Operation::Equal => words::truth(x == y),
            Operation::NotEqual => words::truth(x != y),
        }
    }
}

/// An expression. `clamp` is its minimum and maximum, and `-a` is `0 - a`.
#[derive(Debug)]
pub enum Expr {
    /// A literal, 0 to 2147483647.
    Number(u32),
    Variable(Variable),
    Binary(Operation, Boxed<Expr>, Boxed<Expr>),
    /// The quotient by a literal, 1 to 2147483647, rounded to minus infinity.
    Divide(Boxed<Expr>, u32),
    /// The remainder by a literal, 1 to 2147483647, which is not negative.
    Remainder(Boxed<Expr>, u32),
    /// The second where the first is not 0, else the third.
    Select(Boxed<Expr>, Boxed<Expr>, Boxed<Expr>),
    /// A read of a source of one dimension.
    Call1(Source, Boxed<Expr>),
    /// A read of a source of two dimensions, at x and y.
    Call2(Source, Boxed<Expr>, Boxed<Expr>),
}

impl Drop for Expr {
    fn drop(self) {
        match self {
            Expr::Number(_) | Expr::Variable(_) => {}
            Expr::Binary(_, a, b) => {
                drop(a);
                drop(b);
            }
            Expr::Divide(a, _) => drop(a),
            Expr::Remainder(a, _) => drop(a),
            Expr::Select(c, a, b) => {
                drop(c);
                drop(a);
                drop(b);
            }
            Expr::Call1(_, x) => drop(x),
            Expr::Call2(_, x, y) => {
                drop(x);
                drop(y);
            }
        }
    }
}

impl Expr {
    ghost use Rattle.halide_pipeline.specs.Expressions.{is_variable, uses};

    /// Whether the expression is this variable alone.
    pub fn is_variable(&self, variable: Variable) -> bool
        ensures { result ≡ is_variable variable self.now }
    {
        match self {
            Expr::Variable(alone) => *alone == variable,
            _ => false,
        }
    }

    /// Whether the variable occurs anywhere in the expression.
    #[tactic(auto, unfolding(crate::specs::Expressions::uses))]
    pub fn uses(&self, variable: Variable) -> bool
        ensures { result ≡ uses variable self.now }
    {
        match self {
            Expr::Number(_) => false,
            Expr::Variable(own) => *own == variable,
            Expr::Divide(a, _) | Expr::Remainder(a, _) | Expr::Call1(_, a) => a
                .get()
                .uses(variable),
            Expr::Binary(_, a, b) | Expr::Call2(_, a, b) => {
                a.get().uses(variable) || b.get().uses(variable)
            }
            Expr::Select(c, a, b) => {
                c.get().uses(variable) || a.get().uses(variable) || b.get().uses(variable)
            }
        }
    }
}
