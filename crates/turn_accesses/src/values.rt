//! Accesses as values.

use rv_insn::ElementWidth;
use vector_unit::Numbers;

/// What is done with the numbers that are touched.
#[derive(Clone, Copy, Debug, PartialEq, Eq)]
pub enum AccessKind {
    Loads,
    Stores,
    /// An atomic addition: they are loaded and stored.
    Adds,
}

/// Numbers of one width that a turn touches.
#[derive(Drop)]
pub enum Accesses {
    Nothing,
    Number {
        kind: AccessKind,
        address: u32,
        width: ElementWidth,
    },
    /// The active elements of vector registers.
    Elements {
        kind: AccessKind,
        addresses: Numbers,
        width: ElementWidth,
    },
}
