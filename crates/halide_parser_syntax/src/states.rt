//! Where a pass over the tokens of an expression is. `V` is what the pass makes of a part that it has
//! read.

ghost use Rattle.std.specs.Prelude.{◌≡◌, [], ◌∷◌, OnOk, MatchOption};
ghost use Rattle.halide_parser_syntax.specs.inner.Machine.{is_empty};

use crate::tokens::{CompareOperator, ProductOperator, SumOperator, ThreeFunction, TwoFunction};
use sqlite_items::Items;
use std::alloc::{AllocError, Global};
use std::marker::Model;

/// What waits for an operand, in one bracket: an operand and its operator for each level of the grammar.
#[derive(Drop)]
pub struct Pending<V> {
    /// How many signs stand before the next operand.
    pub signs: usize,
    pub product: Option<(ProductOperator, V)>,
    pub sum: Option<(SumOperator, V)>,
    pub comparison: Option<(CompareOperator, V)>,
}

/// What an open bracket is of, with the operands before the one that is being read.
#[derive(Drop)]
pub enum Bracket<V> {
    Group,
    /// The first argument of a call.
    CallFirst(Items<u8>),
    /// The second argument of a call.
    CallSecond(Items<u8>, V),
    TwoFirst(TwoFunction),
    TwoSecond(TwoFunction, V),
    ThreeFirst(ThreeFunction),
    ThreeSecond(ThreeFunction, V),
    ThreeThird(ThreeFunction, V, V),
}

/// An open bracket, and what is pending around it.
#[derive(Drop)]
pub struct Frame<V> {
    pub bracket: Bracket<V>,
    pub outer: Pending<V>,
}

/// The brackets that are open. Contracts see a list with the innermost first.
#[derive(Drop)]
pub struct Stack<V> {
    frames: Items<Frame<V>>,
}

impl<V> Model for Stack<V> {
    ghost use Rattle.std.specs.Prelude.{List};
    ghost use Rattle.halide_parser_syntax.specs.declared.states.Frame.{Frame};
    ghost use Rattle.halide_parser_syntax.specs.inner.Reversed.{on_top};

    ghost Value = { List (Frame V) };

    ghost view = { λ s. on_top s.frames };
}

impl<V> Stack<V> {
    /// No open bracket.
    pub fn new(alloc: Global) -> Stack<V>
        ensures { result ≡ [] }
    {
        Stack {
            frames: Items::new(alloc),
        }
    }

    /// Takes the innermost bracket off.
    pub fn pop(&mut self) -> Option<Frame<V>>
        ensures { MatchOption result ((self.old ≡ []) × (self.new ≡ [])) (λ frame. self.old ≡ frame ∷ self.new) }
    {
        self.frames.pop()
    }

    /// Whether no bracket is open.
    pub fn is_empty(&self) -> bool
        ensures { result ≡ is_empty self.now }
    {
        self.frames.len() == 0
    }
}

impl<V: Drop> Stack<V> {
    /// Opens a bracket inside the others.
    pub fn push(&mut self, frame: Frame<V>) -> Result<(), AllocError>
        ensures { OnOk result (self.new ≡ frame ∷ self.old) }
    {
        self.frames.push(frame)?;
        Ok(())
    }
}

/// Where the pass is: the open brackets, and in the innermost what is pending, and the product so
/// far where an operand was read last.
#[derive(Drop)]
pub struct TermState<V> {
    pub stack: Stack<V>,
    pub pending: Pending<V>,
    pub term: Option<V>,
}
