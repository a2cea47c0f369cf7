//! Reads algorithm texts: [`parse`] gives the pipeline that a text names, or its first faulty line and that
//! line's least fault.
//!
//! A line is cut into tokens (`halide_parser_syntax`), the names of its variables are found among them ([`ahead`]),
//! and one pass over them, with a stack of open brackets in place of recursion, says whether they are of the grammar
//! and what is known of each expression ([`judging`], `calls`, [`passes`], [`line_reading`]): the rules that it
//! breaks, its size, and its tree where it is not too large. Then the rules of the line are tested from the least
//! fault on ([`rules`]), and a faultless line adds to what the lines before it have named ([`applying`]).
//!
//! What a text names is said of its lines as they are written: `specs/Expressions.antt` says what is asked of an
//! expression and which tree it means, `specs/Rules.antt` which fault a line has, `specs/Meaning.antt` what it
//! adds, `specs/Parsing.antt` what the text comes to. `specs/inner` has words for the code alone.
#![tactic(auto)]

mod ahead;
mod applying;
mod calls;
mod judging;
mod line_reading;
mod parsing;
mod passes;
pub mod readers;
mod rules;
mod scopes;

pub use crate::parsing::parse;
