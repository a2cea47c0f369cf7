//! Reading a log of turns: run by run, each judged before it is kept.

ghost use Rattle.std.specs.Prelude.{◌≡◌, ℕ, ◌≤◌, List, [], length, OnOk, IfOk, IfErr, MatchResult};
ghost use Rattle.turn_log.specs.LogSpelling.{header_at, judged, log_of, Refuses};
ghost use Rattle.turn_log.specs.inner.SoFar.{IsOf};
ghost use Rattle.turn_log.specs.declared.runs.Run.{Run as RunState};

use crate::log_faults::LogFault;
use crate::runs::Run;
use crate::turn_logs::{MOST_TURNS, TurnLog};
use byteorder::{ByteOrder, LittleEndian};
use std::alloc::Global;

/// The numbers of harts and of runs.
#[tactic(auto, unfolding(crate::specs::LogSpelling::header_at))]
fn header_of(bytes: &[u8]) -> Result<(u8, u64), LogFault>
    ensures value { result ≡ header_at bytes.now }
    ensures long { OnOk result (16 ≤ length bytes.now) }
    ensures some { IfOk result (λ x. 1 ≤ x.0) }
    ensures few { IfOk result (λ x. x.0 ≤ 8) }
{
    if bytes.len() < 4 {
        return Err(LogFault::Truncated);
    }
    if !bytes.starts_with(b"HRL1") {
        return Err(LogFault::Magic);
    }
    if bytes.len() < 16 {
        return Err(LogFault::Truncated);
    }
    let harts = LittleEndian::read_u32(&bytes[4..]);
    if harts == 0 || harts > 8 {
        return Err(LogFault::Hart);
    }
    Ok((harts as u8, LittleEndian::read_u64(&bytes[8..])))
}

/// Judges a run after those that the log has.
#[tactic(auto, unfolding(crate::specs::LogSpelling::judged))]
fn judge(log: &TurnLog, run: Run) -> Result<(), LogFault>
    ensures { (before : List RunState) → IsOf log.now before → MatchResult result (λ _. judged log.now.harts before run
        ≡ Ok run) (λ fault. judged log.now.harts before run ≡ Err fault) }
{
    let hart = run.hart as usize;
    if hart >= log.harts() {
        return Err(LogFault::Hart);
    }
    if run.length == 0 || log.last_hart() == Some(hart) {
        return Err(LogFault::NotCanonical);
    }
    if log.count_of(hart).saturating_add(run.length) > MOST_TURNS {
        return Err(LogFault::TooManyTurns);
    }
    Ok(())
}

/// The log that the bytes spell, all of the bytes.
pub fn read_log(alloc: Global, bytes: &[u8]) -> Result<TurnLog, LogFault>
    ensures ok { IfOk result (λ log. log_of bytes.now ≡ Ok log) }
    ensures err { IfErr result (λ fault. Refuses fault (log_of bytes.now)) }
{
    let (harts, count) = header_of(bytes)?;
    let (_, mut rest) = bytes.split_at(16);
    let most = (rest.len() / 9).min(count as usize);
    let mut log = TurnLog::with_room(alloc, harts, most)?;
    for _ in 0..count {
        let Some((run, after)) = Run::split_from(rest) else {
            return Err(LogFault::Truncated);
        };
        judge(&log, run)?;
        log.push_run(run.hart as usize, run.length)?;
        rest = after;
    }
    if !rest.is_empty() {
        return Err(LogFault::NotCanonical);
    }
    Ok(log)
}
