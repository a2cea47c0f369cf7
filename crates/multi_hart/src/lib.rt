//! Several harts over one memory, of which one after the other makes a turn.
//!
//! The contracts that crates above use are those of [`Machine`]: a turn is the turn of its hart and a
//! run is the turns one after the other, as `specs/Run.antt` defines them over the instruction table.
//!
//! - [`machines`]: the machine, its turns and runs, and what can be read of it.
//! - [`snapshots`]: copies of what turns change, to go back to; [`parts`]: the same part by part.
//! - [`laws`]: a turn depends on what it reads alone, turns that don't conflict commute, and what a
//!   turn leaves (`specs/Run.antt`).
#![tactic(auto)]

mod laws;
mod machines;
mod parts;
mod snapshots;

pub use crate::laws::{commute, frame, frame_within, turns_put_back};
pub use crate::machines::{Machine, TurnsMade, UnknownHart};
pub use crate::snapshots::Snapshot;
