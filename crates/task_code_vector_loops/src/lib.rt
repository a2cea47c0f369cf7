//! Vectorized loops whose iterations store all at once, each in a lane. Contracts say what the appended code does, and
//! not which instructions it has.
//!
//! - [`left`]: how many iterations pass tests.
//! - [`runs`]: appends what does such a loop (`specs/Runs.antt`), where it may be done at once (`specs/AtOnce.antt`).
//! - [`terms`]: whether sums and forms have a term of a loop variable, and the number of names (`specs/Naming.antt`).
//! - `configuring`: how many lanes a run has.
//! - `parts`: values that take more groups than there are, made part by part (`specs/inner/Parting.antt`).
//! - `distances`: how far points lie after a buffer's first pixel, as expressions (`specs/inner/Far.antt`).
//! - `further`: expressions whose loop variable is further (`specs/inner/Going.antt`).
//! - `pointers`: registers that point where the lanes of a run begin (`specs/inner/Making.antt`).
#![tactic(auto)]

mod configuring;
mod distances;
mod further;
pub mod left;
mod parts;
mod pointers;
pub mod runs;
pub mod terms;

pub use task_code_lane_values::vectorized::VectorLanes;
