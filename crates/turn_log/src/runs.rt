//! Runs of turns, and the nine bytes that spell one.

ghost use Rattle.std.specs.Prelude.{◌≡◌, ◌<◌, ◌≤◌, length, drop, IfSome, MatchOption};
ghost use Rattle.turn_log.specs.LogSpelling.{run_bytes, run_read};

use byteorder::{ByteOrder, LittleEndian};

/// This many turns of one hart in a row.
#[derive(Clone, Copy, Debug)]
pub struct Run {
    pub hart: u8,
    pub length: u64,
}

impl Run {
    /// The run's spelling.
    #[tactic(auto, unfolding(crate::specs::LogSpelling::run_bytes))]
    pub fn to_bytes(self) -> [u8; 9]
        ensures { result ≡ run_bytes self }
    {
        let mut bytes = [self.hart; 9];
        LittleEndian::write_u64(&mut bytes[1..], self.length);
        bytes
    }

    /// The run that the first nine bytes spell, and the bytes after it, if there are nine.
    pub fn split_from(bytes: &[u8]) -> Option<(Run, &[u8])>
        ensures long { MatchOption result (length bytes.now < 9) (λ x. 9 ≤ length bytes.now) }
        ensures parts { IfSome result (λ x. (x.0 ≡ run_read bytes.now) × (x.1.now ≡ drop 9 bytes.now)) }
    {
        if bytes.len() < 9 {
            return None;
        }
        let run = Run {
            hart: bytes[0],
            length: LittleEndian::read_u64(&bytes[1..]),
        };
        Some((run, &bytes[9..]))
    }
}
