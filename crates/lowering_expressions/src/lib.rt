//! Definitions as expressions of loops, with their inlined Funcs put in place and their reads as loads of buffers.
//!
//! - [`lowering`]: **what a definition comes to, where buffers answer its reads** (`specs/Lowering.antt`), how many
//!   registers that needs (`specs/Needing.antt`), and how many words of code (`specs/Sizing.antt`).
//! - [`calls`]: loads of buffers, each counted from its corner.
//! - [`parts`]: expressions from their parts.
#![tactic(auto)]

pub mod calls;
pub mod lowering;
mod parts;

pub use crate::calls::Corner;
pub use crate::lowering::{Arguments, Callees, lowered};
