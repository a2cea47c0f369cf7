//! What the next turn of a hart touches, known before the turn.
//!
//! - [`values`]: the numbers that a turn loads, stores, or both ([`Accesses`]), over `specs/Accesses.antt`.
//! - [`turns`]: those of a hart's next turn, none where it rests or traps ([`next_accesses`]); between which bytes they
//!   lie ([`next_span`]).
//! - `numbers`: whether numbers may be touched at addresses.
//! - [`tables`]: the instructions of a text that touch memory, found once ([`accesses_of`], [`access_at`]).
//! - [`quiets`]: words that touch no memory, counted once ([`quiets_of`], [`quiet_at`]), over `specs/Quiet.antt`.
//! - [`spans`]: between which bytes accesses lie ([`Span`]).
#![tactic(auto)]

mod numbers;
pub mod quiets;
pub mod spans;
pub mod tables;
pub mod turns;
pub mod values;

pub use crate::numbers::Sizes;
pub use crate::quiets::{quiet_at, quiets_of};
pub use crate::spans::Span;
pub use crate::tables::{access_at, accesses_of};
pub use crate::turns::{next_accesses, next_span};
pub use crate::values::{AccessKind, Accesses};
