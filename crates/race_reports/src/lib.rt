//! The first place of a log at which two harts race.
//!
//! - [`found`]: what is told of a race ([`FirstRace`]).
//! - [`passes`]: one pass over a log, up to the first race ([`first_race`]), over `specs/Races.antt`.
//! - `harts`: the first two harts of a machine that race; `pairs`: whether two turns do.
//! - `watches`: which turns may race, known for each hart from its last turn on.
//! - [`texts`]: the same as lines ([`races_text`]), over `specs/RaceText.antt`.
//! - [`laws`]: what is told are the races that the theorem on programs excludes, and none is left out.
#![tactic(auto)]

pub mod found;
mod harts;
pub mod laws;
mod pairs;
mod passes;
mod texts;
mod watches;

pub use crate::found::{FirstRace, RacingTurns};
pub use crate::passes::first_race;
pub use crate::texts::races_text;
