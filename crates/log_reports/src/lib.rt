//! What logs of turns say, as texts.
//!
//! - [`text_of`], [`read_text`]: the runs of a log as lines, and the log of such lines, over `specs/LogText.antt`.
//! - [`faults`]: why a text is none of a log ([`LogTextFault`]).
//! - [`laws`]: that the text of a log is read as that log.
#![tactic(auto)]

pub mod faults;
pub mod laws;
mod lines;
mod reading;
mod writing;

pub use crate::faults::LogTextFault;
pub use crate::reading::read_text;
pub use crate::writing::text_of;
