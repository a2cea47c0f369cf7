//! The record of a run.

ghost use Rattle.std.specs.Prelude.{◌≡◌};
ghost use Rattle.run_records.specs.RecordText.{same_ending};

use rv_insn::Trap;

/// How a run ended.
#[derive(Clone, Copy, Debug, PartialEq, Eq)]
pub enum Ending {
    /// All harts have finished.
    Finished,
    /// None trapped, and one was still running when its turns were made.
    Limit,
    /// Of the harts that trapped, the one with the least number trapped so.
    Trapped(Trap),
}

impl Ending {
    /// Whether two runs ended in the same way.
    pub fn is_same(self, other: Ending) -> bool
        ensures { result ≡ same_ending self other }
    {
        match (self, other) {
            (Ending::Finished, Ending::Finished) | (Ending::Limit, Ending::Limit) => true,
            (Ending::Trapped(first), Ending::Trapped(second)) => first.number() == second.number(),
            _ => false,
        }
    }
}

/// What is kept of a run beside its log.
#[derive(Clone, Copy)]
pub struct RunRecord<'a> {
    /// The version of the program that made it, a word of visible ASCII characters.
    pub version: &'a [u8],
    /// The logic in which that program is proved, a word too.
    pub logic: &'a [u8],
    /// The SHA-256 digest of the image.
    pub image: [u8; 32],
    /// The SHA-256 digest of the log.
    pub log: [u8; 32],
    /// How many harts it had, 1 to 8.
    pub harts: u64,
    /// How many turns each hart was to make at most, 1 to 2^40.
    pub limit: u64,
    pub ending: Ending,
}

/// The most turns that a hart may be given.
pub const MOST_LIMIT: u64 = 1 << 40;
