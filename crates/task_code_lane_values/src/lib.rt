//! Values of expressions over lanes, a lane for each iteration of a vectorized loop, from what registers hold in its
//! first one. Contracts say what the appended code does, and not which instructions it has.
//!
//! - [`vectorized`]: which loop has lanes, and in which groups of vector registers
//!   ([`VectorLanes`](vectorized::VectorLanes)).
//! - [`needs`]: how many groups values take, and which operand is made first.
//! - `loads`: appends loads of lanes from an address in a register on.
//! - `operations`: appends what an operation makes of lanes and those of the next group, or a scalar register.
//! - `scalars`: which expressions all iterations have in common; appends what leaves one, or
//!   an address.
//! - `points`: appends loads of pixels: one after the other, at a stride, in one row, or anywhere.
//! - [`sharing`]: appends what leaves an expression's values in the first group, with what it loads twice loaded once.
//! - `sums`: appends what leaves a sum's values where it goes along with the iterations.
//! - [`values`]: appends what leaves an expression's values in a group (`specs/Leaving.antt`).
#![tactic(auto)]

mod kept;
mod loads;
pub mod needs;
mod operations;
mod points;
mod scalars;
pub mod sharing;
mod sums;
pub mod values;
pub mod vectorized;
