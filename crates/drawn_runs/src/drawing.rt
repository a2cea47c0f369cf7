//! Turns that are drawn.

ghost use Rattle.std.specs.Prelude.{◌≡◌, ◌<◌, ◌≤◌, ℕ, length, slice_index, OnOk};
ghost use Rattle.rand_xoshiro.specs.SplitMix64.{mix_u64};
ghost use Rattle.turn_log.specs.TurnLog.{IsLog};
ghost use Rattle.drawn_runs.specs.Drawing.{RunsOut, bound_of, chosen, drawn_run, is_ready, is_running, ready_below};

use arrayvec::ArrayVec;
use hart_core::Status;
use multi_hart::Machine;
use rand_core::SeedableRng;
use rand_core::utils::NextWord;
use rand_xoshiro::SplitMix64;
use std::alloc::AllocError;
use turn_log::{MOST_TURNS, TurnLog};

/// How the turns of a run are drawn.
#[derive(Clone, Copy, Debug, PartialEq, Eq)]
pub struct DrawRules {
    /// Where the generator begins.
    pub seed: u64,
    /// How many turns a hart makes at most each time that it is drawn, at least one.
    pub every: u64,
    /// How many turns each hart makes at most in all.
    pub limit: u64,
}

/// Makes turns of a machine, and adds them to its log, until each hart has stopped or has made as many as it is to
/// make: again and again a number is drawn, and its remainder by the number of harts that may go on says which of
/// these makes turns, in order of their numbers. The machine and the log's turns are then those of `drawn_run`.
///
/// Where the log is refused memory the run breaks off.
pub fn draw_run(
    machine: &mut Machine,
    log: &mut TurnLog,
    rules: DrawRules,
) -> Result<(), AllocError>
    requires harts { length machine.old.harts ≡ log.old.harts }
    requires every { 1 ≤ rules.every }
    ensures machine { OnOk result (machine.new ≡ (drawn_run rules machine.old log.old.turns).machine) }
    ensures turns { OnOk result (log.new.turns ≡ (drawn_run rules machine.old log.old.turns).turns) }
    ensures harts { OnOk result (log.new.harts ≡ log.old.harts) }
    ensures runs_out { OnOk result (RunsOut rules.limit machine.old log.old.turns machine.new log.new.turns) }
    ensures log { OnOk result (IsLog log.new) }
{
    let bounds = bounds_of(log, rules.limit);
    let mut generator = SplitMix64::seed_from_u64(rules.seed);
    'draws: loop {
        let ready = ready_harts(machine, log, &bounds);
        if ready.is_empty() {
            return Ok(());
        }
        let hart = choose(&mut generator, ready.as_slice());
        let left = bounds[hart] - log.count_of(hart);
        let stretch = machine.step_on(hart, rules.every.min(left));
        log.push_run(hart, stretch.made)?;
    }
}

/// One of the harts, by the generator's next number.
fn choose(generator: &mut SplitMix64, harts: &[usize]) -> usize
    requires { 0 < length harts.now }
    ensures hart { result ≡ chosen harts.now generator.old }
    ensures generator { generator.new ≡ (mix_u64 generator.old).1 }
{
    let number = generator.next_word() % harts.len() as u64;
    harts[number as usize]
}

/// How many turns a hart has at most in the end that makes this many more.
fn bound_of(log: &TurnLog, limit: u64, hart: usize) -> u64
    ensures { result ≡ bound_of limit log.now.turns hart }
{
    log.count_of(hart).saturating_add(limit).min(MOST_TURNS)
}

/// The same of each hart.
fn bounds_of(log: &TurnLog, limit: u64) -> [u64; 8]
    ensures { (hart : ℕ) → hart < 8 → slice_index result hart ≡ bound_of limit log.now.turns hart }
{
    let mut bounds = [0; 8];
    for hart in 0..8 {
        bounds[hart] = bound_of(log, limit, hart);
    }
    bounds
}

/// The harts that are ready, in order of their numbers.
fn ready_harts(machine: &Machine, log: &TurnLog, bounds: &[u64; 8]) -> ArrayVec<usize, 8>
    requires { length machine.now.harts ≡ log.now.harts }
    ensures ready { result.items
        ≡ ready_below (slice_index bounds.now) machine.now log.now.turns (length machine.now.harts) }
    ensures log { IsLog log.now }
{
    let mut ready = ArrayVec::new();
    for hart in 0..log.harts() {
        if is_ready(machine, log, bounds, hart) {
            ready.push(hart);
        }
    }
    ready
}

/// Whether a hart is running and has fewer turns than its bound.
fn is_ready(machine: &Machine, log: &TurnLog, bounds: &[u64; 8], hart: usize) -> bool
    requires there { hart < length machine.now.harts }
    requires few { hart < 8 }
    ensures { result ≡ is_ready (slice_index bounds.now) machine.now log.now.turns hart }
{
    is_running(machine.status(hart)) && log.count_of(hart) < bounds[hart]
}

/// Whether the status is that of a hart that goes on.
fn is_running(status: Status) -> bool
    ensures { result ≡ is_running status }
{
    matches!(status, Status::Running)
}
