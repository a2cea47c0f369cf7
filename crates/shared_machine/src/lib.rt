//! A machine that threads share: each makes the turns of one hart, under one lock, and a log tells them all.
//!
//! - [`books`], [`ledgers`]: what is known of each hart's turns under the lock and in its seat.
//! - [`locked`]: the machine beside its log, of which it is always the replay.
//! - [`origins`]: what is in a type for the image and the number of harts.
//! - [`shared`]: the machine that threads share ([`Shared`]).
//! - [`driving`], [`gates`]: a thread for each seat ([`drive`], [`Gate`]).
//! - [`running`]: a machine made, driven and closed in one call ([`run`]).
//! - [`seats`]: a hart of it ([`Seat`]).
//! - [`refusals`]: why a turn is refused ([`TurnRefusal`]).
#![tactic(auto)]

mod books;
mod driving;
mod ending;
mod gates;
mod guarded;
mod ledgers;
mod locked;
mod meetings;
mod opening;
mod origins;
pub mod refusals;
mod replaying;
mod running;
mod seats;
mod shared;
mod waiting;

pub use crate::books::Blanks;
pub use crate::driving::{drive, drive_batched};
pub use crate::gates::{AlwaysOpen, Gate};
pub use crate::ledgers::Ledgers;
pub use crate::locked::Locked;
pub use crate::origins::Origin;
pub use crate::refusals::{DriveFault, TurnRefusal};
pub use crate::running::run;
pub use crate::seats::{Batch, Ended, Report, Seat};
pub use crate::shared::Shared;
