//! Inputs, Funcs with their updates, and the output.

ghost use Rattle.std.specs.Prelude.{◌≡◌};
ghost use Rattle.halide_pipeline.specs.WellFormed as spec;

use crate::expressions::{Expr, Variable};
use sqlite_items::Items;

/// A picture, and the box of a reduction, are at most so wide and so high.
pub const MOST_EXTENT: u32 = 65_536;

/// And they have at most this many points.
pub const MOST_POINTS: u64 = 1_048_576;

/// A reduction variable and its values: `extent` of them, one after the other from `minimum`.
#[derive(Debug)]
pub struct Reduction {
    /// An ASCII text of at most 32 bytes.
    pub name: Items<u8>,
    /// A word that stands for a signed number, -2^24 to 2^24.
    pub minimum: u32,
    /// 1 to 65536.
    pub extent: u32,
}

impl Drop for Reduction {
    fn drop(self) {
        let Reduction {
            name,
            minimum: _,
            extent: _,
        } = self;
        drop(name);
    }
}

/// A change to a Func: for each point of the reduction box in turn, the first variable innermost, the
/// pixel at the left indexes becomes the right side.
#[derive(Debug)]
pub struct Update {
    /// The first index on the left.
    pub left_x: Expr,
    /// The second index on the left, where the Func has two arguments.
    pub left_y: Option<Expr>,
    pub right: Expr,
    pub first: Reduction,
    pub second: Option<Reduction>,
}

impl Drop for Update {
    fn drop(self) {
        let Update {
            left_x,
            left_y,
            right,
            first,
            second,
        } = self;
        drop(left_x);
        drop(left_y);
        drop(right);
        drop(first);
        drop(second);
    }
}

impl Update {
    /// Whether the first argument is alone in its own position on the left, so that the update is
    /// made for all its values.
    pub fn is_first_in_place(&self) -> bool
        ensures { result ≡ spec.is_first_in_place self.now }
    {
        self.left_x.is_variable(Variable::FirstArgument)
    }

    /// The same for the second argument. It is not in place where there is none.
    pub fn is_second_in_place(&self) -> bool
        ensures { result ≡ spec.is_second_in_place self.now }
    {
        match &self.left_y {
            Some(left_y) => left_y.is_variable(Variable::SecondArgument),
            None => false,
        }
    }
}

/// A Func: an expression over its arguments, and the updates of what it gives.
#[derive(Debug)]
pub struct Func {
    /// The first argument's name, an ASCII text of at most 32 bytes.
    pub first_argument: Items<u8>,
    /// The second argument's name, where there are two.
    pub second_argument: Option<Items<u8>>,
    pub pure: Expr,
    /// At most 4.
    pub updates: Items<Update>,
}

impl Drop for Func {
    fn drop(self) {
        let Func {
            first_argument,
            second_argument,
            pure,
            updates,
        } = self;
        drop(first_argument);
        drop(second_argument);
        drop(pure);
        drop(updates);
    }
}

impl Func {
    /// How many arguments there are, 1 or 2.
    pub fn dimensions(&self) -> usize
        ensures { result ≡ spec.dimensions self.now }
    {
        if self.second_argument.is_some() { 2 } else { 1 }
    }
}

/// An input picture that is asked for. With one dimension its height is 1.
#[derive(Clone, Copy, Debug, PartialEq, Eq)]
pub struct Input {
    /// In pixels, 1 to 65536.
    pub width: u32,
    /// In pixels, 1 to 65536.
    pub height: u32,
    /// 1 or 2.
    pub dimensions: usize,
    /// Whether each pixel is a byte, from 0 to 255.
    pub is_bytes: bool,
}

/// What is asked for: the pixels of a Func from 0 on in each dimension. With one dimension the height
/// is 1.
#[derive(Clone, Copy, Debug, PartialEq, Eq)]
pub struct Output {
    /// The Func's place, from 0.
    pub func: usize,
    /// In pixels, 1 to 65536.
    pub width: u32,
    /// In pixels, 1 to 65536.
    pub height: u32,
    /// 1 or 2.
    pub dimensions: usize,
}
