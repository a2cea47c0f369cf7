//! The debugger: an image and a log of turns, looked at from any place of the log.
//!
//! A [`Session`] is at a place, which is how many of the log's turns were made, and answers from
//! the state there (`specs/Places.antt`). It goes forwards and backwards, by turns, to a place, or to the next
//! or previous place at which a mark stops (`specs/Stops.antt`): a break at an address of text, or a watch of
//! a word of data (`specs/Marks.antt`). A refused call leaves the session where it was, with its
//! marks; turns that it made stay counted (`specs/Counts.antt`).
//!
//! - [`sessions`]: the session, and going from place to place.
//! - [`readers`]: what can be read of the state at its place.
//! - [`parts`]: the log, the machine at the place, and which marks are set.
//! - [`marks`]: breaks and watches; [`clearing`]: marks taken away.
//! - [`stops`]: going to the next and to the previous stop.
//! - [`refusals`]: why a call is refused ([`SessionRefusal`]).
#![tactic(auto)]

mod clearing;
mod kept;
mod marks;
mod parts;
mod passing;
mod readers;
pub mod refusals;
mod sessions;
mod stops;
mod turns;
mod walking;
mod watches;

pub use crate::refusals::SessionRefusal;
pub use crate::sessions::Session;
