//! The words and the grammar of algorithm texts, before any meaning.
//!
//! - [`faults`]: what can be wrong with a text.
//! - [`tokens`]: the tokens of a line (`specs/Tokens.antt`).
//! - [`states`]: where a pass over the tokens of an expression is: the brackets that are open, and
//!   what is pending in each. The pass itself is `specs/inner/Machine.antt`, over any values that an algebra
//!   makes of the parts; `specs/Grammar.antt` says what is written by the grammar.
//! - [`line_parts`]: the parts of a line that are no expressions.
//! - [`lines`]: what a line says (`specs/LineGrammar.antt`).
//! - [`laws`]: what is read is what the grammar spells, whatever reads it (`specs/inner`).
#![tactic(auto)]

pub mod faults;
pub mod laws;
pub mod line_parts;
pub mod lines;
pub mod states;
pub mod tokens;

pub use crate::faults::ParseFault;
pub use crate::lines::{AlgorithmLine, Change, Definition, NamedExtents, ReductionBounds};
pub use crate::states::{Bracket, Frame, Pending, Stack, TermState};
pub use crate::tokens::{
    CompareOperator, ProductOperator, SumOperator, ThreeFunction, Token, TwoFunction, tokens_of,
};
