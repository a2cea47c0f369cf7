//! What turns write: the numbers that instructions store, known before they are executed, and copies of data in pages.
//!
//! A copy has the pages of data that turns wrote since the copy before it, and is laid over that one; the first is laid
//! over the data of the image (`specs/Pages.antt`). Which pages turns write is marked while they are made.
//!
//! - [`stores`]: the numbers that an instruction stores in a hart's state ([`Stored`], [`numbers_stored`]), also where
//!   it is one alone ([`number_stored`]).
//! - [`tables`]: the instructions of a text that store, found once ([`stores_of`], [`store_at`]).
//! - [`pages`]: copies of pages, and what they put back ([`PageCopy`]).
//! - [`layers`]: copies that are let go, each of which leaves its pages to the next one.
//! - [`marks`]: pages that are written.
//! - [`turns`]: turns that mark the pages which they write.
#![tactic(auto)]

mod layers;
mod marks;
pub mod pages;
pub mod stores;
mod tables;
mod turns;

pub use crate::layers::{put_below, settle};
pub use crate::marks::{mark_below, mark_pages};
pub use crate::pages::{PAGE, PageCopy, changed_pages, put_pages};
pub use crate::stores::{Stored, StoredNumber, number_stored, numbers_stored, store_of};
pub use crate::tables::{store_at, stores_of};
pub use crate::turns::turn_marking;
