//! The lines of an assembly text: tokens, and what a line says before anything is known of its names.
//!
//! A line is `[label:] [mnemonic [operand {, operand}]]`, and `#` begins a comment. Its tokens are words,
//! numbers and the marks `, : ( )` (`specs/Tokens.antt`). [`statement_of`] reads them one after the other as
//! a label, a mnemonic and operands (`specs/Statements.antt`), of which it keeps no more than are asked for.
//! [`head_of`] reads the front of a line alone, which says where labels lie even where the rest of the line
//! is faulty.
#![tactic(auto)]

pub mod statements;
pub mod tokens;

pub use crate::statements::{
    Head, MnemonicLine, Operand, Statement, head_of, is_label, statement_of,
};
pub use crate::tokens::AssemblyToken;
