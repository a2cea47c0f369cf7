//! Pictures, and the picture that a pipeline makes of others.
//!
//! `halide_pipeline` has what a picture holds, `specs/Reading.antt` its text and what a text is read as:
//! [`Picture::read`] reads exactly what is spelled so and else names the first fault, [`Picture::write`] spells a
//! picture, and [`one_spelling`] is the law that each picture has one spelling and no spelling begins another.
//!
//! `halide_pipeline` has what the pixels of a pipeline are, and `specs/Evaluated.antt` what [`evaluate`] answers: the
//! output's pixels, or why the pictures aren't those that are asked for. Each Func gets a table of the pixels that are
//! wanted of it (`boxes`), filled by as many threads as there are processors (`evaluation`); what no table has is kept
//! pixel by pixel (`asking`), or computed as it is defined (`plain`).
//! An update is run forward over its reduction box, row by row (`update_rows`, `update_runs`), beforehand and once
//! where at most one argument is in place. Where all do, it is run along rows of pixels (`in_place`).
#![tactic(auto)]

mod apart;
mod asking;
mod beforehand;
mod boxes;
mod evaluation;
pub mod faults;
mod in_place;
mod keeping;
mod line_values;
mod lines;
mod lookups;
mod memos;
mod offsets;
mod pictures;
mod plain;
mod points;
mod ranges;
mod readings;
mod row_reads;
mod row_values;
mod scenes;
mod spellings;
mod together;
mod update_rows;
mod update_runs;
mod writes;

pub use crate::evaluation::{evaluate, judge};
pub use crate::faults::{EvalError, PictureFault};
pub use crate::pictures::Picture;
pub use crate::spellings::one_spelling;
