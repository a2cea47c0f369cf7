//! Tests of what gdb is told.
//!
//! - [`packets`]: packets and requests, as gdb 13.1 sent them.
//! - [`texts`]: the target description and the memory map.
//! - [`talks`]: a session over two harts, answer by answer.
#![tactic(auto)]

#[cfg(test)]
mod packets;
#[cfg(test)]
mod talks;
#[cfg(test)]
mod texts;
