//! Loops in order in parts: first iterations, those between and last ones, so that clamps at the borders of a picture
//! are left to the first and last.
//!
//! - [`variables`]: variables that no stage has (`specs/Borders.antt`).
//! - [`blindness`]: what names no such variable (`specs/Blind.antt`), and `copies`: statements once more.
//! - `parts`: a loop in parts, and [`parting`]: **statements whose loops are in parts** (`specs/Parted.antt`).
//! - [`spans`]: between which numbers loop variables and expressions lie, and `cuts`: where a loop is cut. Guesses, of
//!   which nothing is promised.
#![tactic(auto)]

pub mod blindness;
mod copies;
mod cuts;
pub mod parting;
mod parts;
pub mod spans;
pub mod variables;
