//! A turn that wrote a word.

/// A turn of a log that wrote a byte of a word of data.
#[derive(Clone, Copy, Debug, PartialEq, Eq)]
pub struct Write {
    /// How many turns of the log came before it.
    pub turn: u64,
    /// The hart whose turn it was.
    pub hart: usize,
    /// Where the hart was.
    pub pc: u32,
    /// What the word held before the turn, and after it.
    pub before: u32,
    pub after: u32,
}
