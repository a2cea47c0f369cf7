//! What the refusals of the program mean: their causes and what helps, by family and code.
//!
//! - [`table`]: the texts, as data.
//! - [`explanations`]: the lines that explain a refusal ([`push_explanation`]), over `specs/Explanations.antt`.
#![tactic(auto)]

mod explanations;
mod table;

pub use crate::explanations::{is_explained, push_explanation};
