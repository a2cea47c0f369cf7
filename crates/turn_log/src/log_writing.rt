//! Writing a log of turns.

ghost use Rattle.std.specs.Prelude.{◌≡◌, ℕ, ◌+◌, ◌*◌, ◌≤◌, ◌++◌, length, vec_len, vec_capacity};
ghost use Rattle.std.specs.List.{flat_map};
ghost use Rattle.turn_log.specs.inner.Kept.{AreRuns, runs_from};
ghost use Rattle.turn_log.specs.LogSpelling.{header, run_bytes};

use crate::run_ends::RunEnd;
use crate::runs::Run;
use byteorder::{ByteOrder, LittleEndian};

/// The first 16 bytes of a log.
#[tactic(auto, unfolding(crate::specs::LogSpelling::header))]
pub fn header_bytes(harts: u8, runs: u64) -> [u8; 16]
    ensures { result ≡ header harts runs }
{
    let mut bytes = [0; 16];
    bytes[..4].copy_from_slice(b"HRL1");
    LittleEndian::write_u32(&mut bytes[4..], u32::from(harts));
    LittleEndian::write_u64(&mut bytes[8..], runs);
    bytes
}

/// Appends the spelling of the runs, for which there is room.
pub fn push_runs(out: &mut Vec<u8>, runs: &[RunEnd])
    requires runs { (harts : ℕ) × AreRuns harts (runs_from 0 runs.now) }
    requires room { vec_len out.old + 9 * length runs.now ≤ vec_capacity out.old }
    ensures { out.new.items ≡ out.old.items ++ flat_map run_bytes (runs_from 0 runs.now) }
{
    let mut start = 0;
    let mut rest = runs;
    while let [run_end, others @ ..] = rest {
        let end = run_end.end();
        let run = Run {
            hart: run_end.hart(),
            length: end - start,
        };
        out.extend_from_slice(&run.to_bytes()).unwrap();
        start = end;
        rest = others;
    }
}
