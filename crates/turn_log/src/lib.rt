//! Logs of turns: which hart made which turn, as a value ([`TurnLog`]) and as a file.
//!
//! A log is how many harts there are and the hart of each turn (`specs/TurnLog.antt`), and its bytes
//! are the spelling in `specs/LogSpelling.antt`. In memory it is kept by its runs, the longest stretches of
//! turns of one hart, so that neither memory nor time goes by the turn.
//!
//! - [`turn_logs`]: the log, what can be read of it, turns and runs added at its end, its bytes.
//! - [`log_faults`]: why bytes are no log ([`LogFault`]).
//! - [`laws`]: what the spellings and the runs of a log say, for callers ([`one_spelling`], [`runs_stand`]).
#![tactic(auto)]

mod finding;
mod laws;
pub mod log_faults;
mod log_reading;
mod log_writing;
mod run_ends;
mod runs;
mod turn_logs;

pub use crate::laws::{one_spelling, runs_stand};
pub use crate::log_faults::LogFault;
pub use crate::turn_logs::{MOST_TURNS, TurnLog};
