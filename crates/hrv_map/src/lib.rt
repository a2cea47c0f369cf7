//! Where everything of a compiled program lies, as a text: a fact a line.
//!
//! - [`maps`]: the text of a pipeline under a schedule ([`map_text`], over `specs/Maps.antt`).
//! - [`names`]: the names that an algorithm's text gives (`specs/Names.antt`).
//! - [`areas`]: where the pixels of a source lie (`specs/Areas.antt`).
//! - [`lines`]: the lines of phases, inputs, Funcs and frames (`specs/Lines.antt`).
//! - [`phases`]: the stages that are phases, and where their code lies (`specs/Phases.antt`).
//! - [`stages`]: the lines of stages inside of phases (`specs/Stages.antt`).
#![tactic(auto)]

mod areas;
mod lines;
mod maps;
mod names;
mod phases;
mod stages;

pub use crate::maps::map_text;
pub use crate::names::{SourceNames, names_of};
