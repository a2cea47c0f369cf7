//! Phases: what their tasks leave in the Funcs' buffers.
//!
//! - [`laws`]: **the tasks of a phase may be done in any order** (`specs/Phases.antt`), and phases one after the other
//!   leave the result of the last one (`specs/Order.antt`).
//! - [`phases`]: **all phases of a pipeline, which leave its output's pixels** (`specs/Lowered.antt`).
//! - [`pure_phases`]: **the phase of a pure definition** (`specs/PurePhases.antt`).
//! - [`consuming`]: loops of a consumer, with the nests of the Funcs computed at them (`specs/Consuming.antt`).
//! - [`nests`]: **the nest of a pure definition** of a Func that is computed at a loop fills its box of one iteration.
//! - [`computed`]: a Func that is lowered, with what is known of it.
//! - [`corners`]: corners of boxes, also of those that begin elsewhere in each iteration (`specs/Corners.antt`).
//! - [`updates`]: **the phase of an update**, and its loops where the Func is computed at a loop
//!   (`specs/Updates.antt`).
//! - [`stores`], [`update_stores`]: stores of definitions at the points where loops stand.
//!
//! Of each phase it is also said what its tasks may touch (`specs/Touching.antt`), **at which points of their Func they
//! store** (`specs/Stored.antt`), and how many registers they take (`specs/Registers.antt`).
#![tactic(auto)]

mod computed;
pub mod consuming;
mod corners;
pub mod laws;
mod nests;
pub mod phases;
mod pure_phases;
mod stores;
mod update_stores;
mod updates;
