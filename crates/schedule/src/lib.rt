//! Reads schedules: [`read`] gives the loops of each stage, how they are run, and where each Func is computed; or
//! the first faulty line and that line's least fault. What one line says and does is in `schedule_lines`.
//!
//! - [`plans`]: what is said of each Func (`specs/Plans.antt`).
//! - [`readers`]: one line after the other (`specs/Reading.antt`).
//! - [`calls`], [`placements`]: which Funcs the output reaches, and where each is computed
//!   (`specs/Placements.antt`); where the reads of a Func at a loop lie (`specs/Uses.antt`).
//! - [`legality`]: what is wrong with the final loops (`specs/Legal.antt`).
//! - [`schedules`]: the whole (`specs/Reading.antt`).
#![tactic(auto)]

mod calls;
pub mod legality;
pub mod placements;
pub mod plans;
mod readers;
pub mod schedules;

pub use crate::placements::{ComputeLevel, FuncPlacement, LoopPosition};
pub use crate::plans::{FuncPlan, Plans};
pub use crate::schedules::{Schedule, read};
