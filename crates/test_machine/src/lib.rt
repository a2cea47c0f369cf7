//! Tests of the machine's crates that no file of cases can ask: calls of harts, memories, logs and sessions.
//!
//! - [`memories`]: turns over a memory that covers text alone, and turns whose instruction is given.
//! - [`machines`]: many turns at once.
//! - [`vectors`]: a vector state that is set and read.
//! - [`lane_corners`]: lanes at the corners of division, masked sums, and reductions.
//! - [`logs`]: logs that are made turn by turn, and looked up.
//! - [`sessions`]: the debugger over 2 ^ 40 turns, and back to places that it keeps.
//! - [`traces`]: the turns of logs as lines, worked out by hand.
//! - [`comparing`]: values compared.
#![tactic(auto)]

#[cfg(test)]
mod comparing;
#[cfg(test)]
mod lane_corners;
#[cfg(test)]
mod logs;
#[cfg(test)]
mod machines;
#[cfg(test)]
mod memories;
#[cfg(test)]
mod sessions;
#[cfg(test)]
mod traces;
#[cfg(test)]
mod vectors;
