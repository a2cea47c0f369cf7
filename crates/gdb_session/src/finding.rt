//! The turns of one hart in a log.

ghost use Rattle.std.specs.Prelude.{◌≡◌, ◌≢◌, ◌-◌, ◌<◌, ◌≤◌, length, true};
ghost use Rattle.gdb_session.specs.Going.{NoneBetween, is_turn_of, last_turn, next_turn};

use turn_log::TurnLog;

/// The hart's first turn from a place on.
pub fn next_turn_of(log: &TurnLog, hart: usize, from: u64) -> Option<u64>
    ensures { result ≡ next_turn log.now.turns hart from }
{
    // What this ensures says that places are numbers of 64 bits.
    let _length = log.len();
    let mut place = from;
    'runs: while let Some((other, count)) = log.run_at(place) {
        if other == hart {
            return Some(place);
        }
        place += count;
    }
    None
}

/// The hart's last turn before a place. Turns of another hart that stand in a row are passed in steps of twice their
/// size each.
pub fn last_turn_of(log: &TurnLog, hart: usize, before: u64) -> Option<u64>
    requires { before ≤ length log.now.turns }
    ensures { result ≡ last_turn log.now.turns hart before }
{
    let mut place = before;
    let mut width: u64 = 1;
    'places: while place > 0 {
        let passed = turns_passed(log, hart, place, width);
        if passed == 0 && width == 1 {
            return Some(place - 1);
        }
        place -= passed;
        width = if passed == 0 {
            1
        } else {
            width.saturating_mul(2)
        };
    }
    None
}

/// This many turns before a place, where all of them are in a row another hart's; else none.
fn turns_passed(log: &TurnLog, hart: usize, place: u64, width: u64) -> u64
    requires { place ≤ length log.now.turns }
    ensures within { result ≤ place }
    ensures most { result ≤ width }
    ensures none { NoneBetween log.now.turns hart (place - result) place }
    ensures some { result ≡ 0 → width ≡ 1 → 1 ≤ place → is_turn_of log.now.turns hart (place - 1) ≡ true }
{
    if width > place {
        return 0;
    }
    let Some((other, count)) = log.run_at(place - width) else {
        return 0;
    };
    if other == hart {
        return 0;
    }
    if count < width { 0 } else { width }
}
