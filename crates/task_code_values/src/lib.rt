//! Values of expressions in scalar registers, and stores of them. Contracts say what the appended code does, and not
//! which instructions it has.
//!
//! - [`operations`]: appends what an operation, a quotient, a remainder or a choice makes of registers.
//! - [`immediates`]: appends what an operation with a literal makes, which an instruction holds.
//! - [`accesses`]: appends single loads and stores.
//! - [`operands`]: appends what leaves a number or a sum of loop variables in a register, or names the register that
//!   holds it already.
//! - [`points`]: appends loads of points, whose indexes are sums or stand in registers.
//! - [`scatters`]: appends what makes the address of a point for a store (`specs/Scattering.antt`).
//! - [`sites`]: what is around the appended code.
//! - [`frames`]: appends what keeps a register in a word of the hart's frame, and loads it again.
//! - [`parking`]: appends what keeps one in a lane (`specs/Parking.antt`).
//! - [`expressions`]: appends what leaves an expression's value in a register (`specs/Operands.antt`).
//! - [`spilling`]: the same where the registers do not suffice and values wait in the hart's frame.
//! - [`needs`]: how many registers that takes; [`depths`]: for how many first operands the stack has too few.
//! - [`stores`]: appends stores (`specs/Storing.antt`), or all of one but the store itself; [`updates`] those of what
//!   is made of the pixel that they overwrite.
#![tactic(auto)]

pub mod accesses;
mod depths;
pub mod expressions;
mod frames;
mod immediates;
pub mod needs;
pub mod operands;
pub mod operations;
mod parking;
mod points;
mod scatters;
pub mod sites;
mod spilling;
pub mod stores;
pub mod updates;
