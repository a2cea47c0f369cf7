//! What an algorithm text says, and what it means: a pipeline of inputs, Funcs and an output, the arithmetic of its
//! words, and the pixels of its Funcs over what pictures hold.
//!
//! - [`expressions`]: expressions over words, as trees. Contracts see a tree as plain data
//!   (`specs/Expressions.antt` counts its nodes and says which variables it uses).
//! - [`definitions`]: inputs, Funcs with their updates, and the output.
//! - [`names`]: names with what they stand for, in order (`specs/Pipelines.antt`).
//! - [`pipelines`]: the whole of what a text names. `specs/WellFormed.antt` says what each keeps.
//! - [`words`]: arithmetic on words that stand for signed numbers (`specs/Words.antt`).
//! - `specs/Pixel.antt`: **what a pixel is**, for every Func, update and point of the plane; [`environments`] has what
//!   the variables of an expression stand for, `specs/Contents.antt` what a picture holds, `specs/Picture.antt` the
//!   limits that it keeps.
//! - `specs/Points.antt`: **the points that an expression reads, and a pixel**, with all that these read in turn.
//! - [`laws`]: values and pixels depend on these points alone; a test that each definition's reads pass is passed by
//!   all that pixels read.
//!
//! `picture` computes pixels, and the compiler is proved against them.
#![tactic(auto)]

pub mod definitions;
pub mod environments;
pub mod expressions;
pub mod laws;
mod names;
mod pipelines;
pub mod words;

pub use crate::definitions::{Func, Input, MOST_EXTENT, MOST_POINTS, Output, Reduction, Update};
pub use crate::environments::Environment;
pub use crate::expressions::{Expr, Operation, Source, Variable};
pub use crate::names::Names;
pub use crate::pipelines::Pipeline;
