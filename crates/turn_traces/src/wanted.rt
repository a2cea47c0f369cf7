//! Which turns of a log are wanted.

/// Turns that are numbered from one number up to another one, of all harts or of one, all of them or those that touch a
/// word of memory.
#[derive(Clone, Copy, Debug, PartialEq, Eq)]
pub struct TurnsWanted {
    pub from: u64,
    pub to: u64,
    pub hart: Option<usize>,
    /// The word's address, a multiple of 4.
    pub address: Option<u32>,
}
