//! A session with gdb over an image and a log of turns: what each of its requests is answered with.
//!
//! - [`sessions`]: the session ([`GdbSession`]), and its answers (`specs/Answers.antt`).
//! - [`answers`]: requests that leave it as it is; [`changing`]: those that change it.
//! - [`going`]: steps and searches in the log, forwards and backwards (`specs/Going.antt`, `specs/Stopping.antt`).
//! - [`endings`]: which requests end the talk.
//! - [`stops`]: where a run stops, and why.
//! - [`texts`], [`registers`] and [`memories`]: the texts of answers (`specs/Texts.antt`).
//! - [`monitor`]: lines of `monitor` (`specs/Monitor.antt`).
#![tactic(auto)]

mod answers;
mod changes;
mod changing;
pub mod endings;
mod finding;
mod going;
mod memories;
mod monitor;
mod registers;
mod sessions;
pub mod stops;
mod telling;
mod texts;

pub use crate::endings::{Ending, ending_of};
pub use crate::sessions::GdbSession;
pub use crate::stops::{Stop, StopReason};
