//! What the turns of a log come to, as a text.
//!
//! - [`profiles`]: where the harts of a machine stand at the turns of a log, counted over the words of text
//!   ([`profile`]), over `specs/Profile.antt`.
//! - [`texts`]: the same as lines ([`profile_text`]), over `specs/ProfileText.antt`.
//! - `straights`: words of text that are executed one after the other.
//! - [`laws`]: each turn of a hart is counted as one that it makes, or as an idle one.
#![tactic(auto)]

pub mod laws;
pub mod profiles;
mod straights;
mod texts;

pub use crate::profiles::{HartProfile, profile};
pub use crate::texts::profile_text;
