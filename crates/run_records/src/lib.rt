//! What a run was, as a text beside its log.
//!
//! - [`records`]: which program made a run of which image, how long each hart might go on, and how it ended
//!   ([`RunRecord`]).
//! - [`writing`]: a record as lines ([`push_record`]), with digests as digits ([`digits_of`]); [`reading`]: the record
//!   of such lines ([`read_record`]), over `specs/RecordText.antt`.
//! - [`faults`]: why a text is no record ([`RecordFault`]).
//! - [`laws`]: that the text of a record is read as that record.
#![tactic(auto)]

pub mod faults;
mod items;
pub mod laws;
pub mod reading;
pub mod records;
mod values;
pub mod writing;

pub use crate::faults::{RecordError, RecordFault};
pub use crate::reading::read_record;
pub use crate::records::{Ending, MOST_LIMIT, RunRecord};
pub use crate::writing::{digits_of, push_record};
