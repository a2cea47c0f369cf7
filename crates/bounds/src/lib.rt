//! Which points of each source an accepted schedule computes or reads, and where they lie in the data of a compiled
//! image.
//!
//! - [`verdict`]: **the boxes of a pipeline under a schedule, or the first fault** (`specs/Verdict.antt`); [`judging`]
//!   has what is judged of boxes, [`faults`] why there are none.
//! - [`boxes`]: the box of a source, as the hull of the ranges in which it is read (`specs/Boxes.antt`), and how wide
//!   and high it is (`specs/Extents.antt`).
//! - [`views`]: between which numbers a Func's arguments lie where it reads a source (`specs/Views.antt`).
//! - `asks`: what a Func reads that is computed (`specs/Inference.antt`).
//! - `readings`, `inference`, [`source_boxes`]: the boxes of all sources, from the output back
//!   (`specs/Inference.antt`).
//! - [`layout`]: where inputs, boxes and frames lie (`specs/Layout.antt`).
//! - [`plan`]: a pipeline, a schedule that is accepted for it and its boxes as one value (`specs/Plans.antt`).
//! - [`tasks`]: how many tasks each phase has (`specs/Tasks.antt`). Which stage it computes, and which points that one
//!   writes, other crates say in the words of `specs/Stages.antt`.
//! - [`sources`]: sources told apart.
//! - [`laws`]: what each byte of the data is part of, by its address (`specs/Parts.antt`): a phase's control words, an
//!   input, the box of a Func computed at root, the copies of that of one computed at a loop, a frame. Each is found
//!   where the layout has it (`specs/Finding.antt`).
//!
//! That what is read lies in its box is proved in the crate `bounds_laws`.
#![tactic(auto)]

mod asks;
pub mod boxes;
pub mod faults;
mod inference;
mod judging;
mod laws;
pub mod layout;
mod plan;
mod readings;
mod source_boxes;
mod sources;
pub mod tasks;
pub mod verdict;
pub mod views;

pub use crate::boxes::SourceBox;
pub use crate::faults::BoundsFault;
pub use crate::laws::{parts_are_found, parts_lie_within, roots_lie};
pub use crate::layout::Layout;
pub use crate::plan::Plan;
pub use crate::source_boxes::SourceBoxes;
pub use crate::verdict::{Boxes, infer};
