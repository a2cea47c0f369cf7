//! Compiles an algorithm under a schedule into an image that any number of harts compute together.
//!
//! - [`compile`]: the program of two texts, or the first fault that there is (`specs/Verdict.antt`,
//!   `specs/Compiled.antt`).
//! - [`Compiled::image`]: an image of it with these input pictures (`specs/Images.antt`), which does what
//!   `specs/Correct.antt`, `specs/Assigned.antt` and `specs/Runs.antt` say. [`Compiled::image_bytes`]: its bytes, as
//!   `hrv compile` stores them.
//! - [`faults`]: why nothing is compiled.
//! - [`places`]: where buffers lie.
#![tactic(auto)]

mod compiled;
mod compiling;
mod data;
pub mod faults;
mod places;

pub use crate::compiled::Compiled;
pub use crate::compiling::compile;
pub use crate::faults::CompileFault;
