//! How heavy a schedule is, and how many registers its stages need.
//!
//! - [`copies`]: how often a stage's code is, for loops that are unrolled (`specs/Weight.antt`).
//! - [`weighing`]: what all stages together weigh (`specs/Weight.antt`), and [`weigh`], which refuses what is too
//!   heavy.
//! - [`stage_needs`]: how many registers expressions need at once (`specs/Weight.antt`): of a stage, [`stage_need`]; of
//!   all stages, [`needs`].
//!
//! Inlined Funcs are never put in place: each Func is gone through once (`bounds_inlining`).
#![tactic(auto)]

mod copies;
pub mod faults;
pub mod stage_needs;
pub mod weighing;

pub use crate::faults::WeightError;
pub use crate::stage_needs::{StageNeeds, needs, stage_need};
pub use crate::weighing::weigh;
