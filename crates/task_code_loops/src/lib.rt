//! Loops that hold forms in registers, step them in each iteration, and are tested at their bottom, around the code
//! of any body. Contracts say what the appended code does, and not which instructions it has.
//!
//! - [`holding`]: appends what holds the forms that a body wants.
//! - [`tests`]: which register tells when a loop ends, and what it is compared with.
//! - [`beginning`]: appends what is in front of a loop (`specs/Beginning.antt`).
//! - [`ending`]: appends what is after its body, and goes back (`specs/Ending.antt`).
//! - [`guards`]: appends a test over a body (`specs/Guarding.antt`).
//! - [`bounds`]: whether a form stays below an extent, so that it needs no test (`specs/Bounds.antt`).
//! - [`known`]: loop variables that are sums of others, or numbers, and sums without them (`specs/Known.antt`).
//! - [`sums`]: what operations make of sums, where it is a sum again (`specs/Sums.antt`).
//! - [`wanted`]: which forms a body wants in registers, `gathering`: those of stores, and [`uses`]: how often it uses
//!   them, guesses.
//! - [`laws`]: what is begun and ended is a loop; code after other code, and iterations that are laid out.
#![tactic(auto)]

pub mod beginning;
pub mod bounds;
pub mod ending;
mod gathering;
pub mod guards;
mod holding;
pub mod known;
pub mod laws;
pub mod sums;
pub mod tests;
pub mod uses;
pub mod wanted;
