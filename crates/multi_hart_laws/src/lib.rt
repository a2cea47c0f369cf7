//! What one hart does that runs alone: which bytes each of its turns may touch, and what it has come to
//! after this many turns.
//!
//! Bytes of memory are each for one purpose (`specs/Uses.antt`). A run alone is told forwards, from where it
//! begins (`specs/Alone.antt`): after this many quiet turns, what is wanted holds. Code is told by paths
//! (`specs/Paths.antt`): from one address, numbers and memory to others, whatever is around. Lanes of the group
//! that begins at v0, whose bits are numbers too, are what these spell (`specs/FirstGroup.antt`).
//!
//! - [`laws`]: words that stand in a text, paths one after the other, and what each kind of scalar
//!   instruction leaves, and each kind of vector row on lanes of 32 bits, in groups of up to four registers.
#![tactic(auto)]

mod laws;

pub use crate::laws::{
    any_group_is_written, bytes_are_extended, bytes_are_loaded, first_lanes_are_read,
    groups_hold_lanes, jumps_lead_on, lanes_are_chosen, lanes_are_compared, lanes_are_copied,
    lanes_are_given, lanes_are_loaded, lanes_are_paired, lanes_are_stored, lanes_meet_a_number,
    lengths_are_set, numbers_are_moved, paths_follow, registers_are_given, words_stand,
};
