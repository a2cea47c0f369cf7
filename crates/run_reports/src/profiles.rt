//! Where the harts of a machine stand at the turns of a log, counted in one pass.

ghost use Rattle.std.specs.Prelude.{◌≡◌, ◌+◌, ◌<◌, ◌≤◌, ◌^◌, [], ℕ, length, replicate, IfOk, OnOk, All};
ghost use Rattle.memory.specs.Access.{most_words};
ghost use Rattle.multi_hart.specs.Run.{KeepsShape, hart_at, run};
ghost use Rattle.run_reports.specs.Profile.{IsProfile};
ghost use Rattle.run_reports.specs.inner.Counting.{AreAdded, AreRaised, HasRoom, HaveRoom, IsAdded, IsUncounted};
ghost use Rattle.run_reports.specs.inner.Straight.{AreCounts};

use crate::straights::{place_of, straights_of};
use hart_core::Status;
use multi_hart::Machine;
use std::alloc::{AllocError, Global};
use turn_log::TurnLog;

/// What is counted of a hart's turns.
#[derive(Drop)]
pub struct HartProfile {
    /// For each word of text how many turns the hart made there.
    pub counts: Vec<u64>,
    /// How many turns it made while it ran, also where it was at no word.
    pub made: u64,
    /// How many of the log's turns found it finished or trapped.
    pub idle: u64,
}

/// Makes the turns of a log on a machine whose text has these words, and counts them: a profile for each hart, in
/// order. It takes memory by the word of text: four bytes, and eight for each hart.
pub fn profile(
    alloc: Global,
    machine: &mut Machine,
    words: &[u32],
    log: &TurnLog,
) -> Result<Vec<HartProfile>, AllocError>
    requires text { words.now ≡ machine.old.text }
    requires few { length words.now ≤ most_words }
    requires harts { length machine.old.harts ≡ log.now.harts }
    ensures counted { IfOk result (λ profiles. IsProfile machine.old log.now.turns profiles.items) }
    ensures state { OnOk result (machine.new ≡ run machine.old log.now.turns) }
{
    let straights = straights_of(alloc, words)?;
    let mut profiles = uncounted(alloc, words.len(), log.harts())?;
    count_all(machine, &straights, log, &mut profiles);
    Ok(profiles)
}

/// This many profiles over this many words, in which no turn is counted.
fn uncounted(alloc: Global, words: usize, harts: usize) -> Result<Vec<HartProfile>, AllocError>
    ensures count { IfOk result (λ profiles. length profiles.items ≡ harts) }
    ensures none { IfOk result (λ profiles. All (IsUncounted words) profiles.items) }
{
    let mut profiles = Vec::new(alloc);
    for _hart in 0..harts {
        profiles.push(HartProfile {
            counts: vec![in alloc; 0; words]?,
            made: 0,
            idle: 0,
        })?;
    }
    Ok(profiles)
}

/// Makes the turns of a log and counts them, where it is known how many words are straight from each on, and no turn is
/// counted.
fn count_all(machine: &mut Machine, straights: &[u32], log: &TurnLog, profiles: &mut [HartProfile])
    requires straight { AreCounts machine.old.text straights.now }
    requires few { length machine.old.text ≤ most_words }
    requires harts { length machine.old.harts ≡ log.now.harts }
    requires uncounted { IsProfile machine.old [] profiles.old }
    ensures counted { IsProfile machine.old log.now.turns profiles.new }
    ensures state { machine.new ≡ run machine.old log.now.turns }
{
    // What these ensure says that every turn is of one of the log's harts, and that places are numbers of 64 bits.
    let _harts = log.harts();
    let _length = log.len();
    let mut place = 0;
    'runs: while let Some((hart, count)) = log.run_at(place) {
        count_run(machine, straights, hart, count, &mut profiles[hart]);
        place += count;
    }
}

/// Makes turns of one hart, and counts them. Where the hart doesn't run, all that are left are made at once.
fn count_run(
    machine: &mut Machine,
    straights: &[u32],
    hart: usize,
    count: u64,
    profile: &mut HartProfile,
)
    requires there { hart < length machine.old.harts }
    requires straight { AreCounts machine.old.text straights.now }
    requires few { length machine.old.text ≤ most_words }
    requires as_many { length profile.old.counts.items ≡ length machine.old.text }
    requires room { HasRoom profile.old count }
    ensures state { machine.new ≡ run machine.old (replicate count hart) }
    ensures added { IsAdded hart machine.old (replicate count hart) profile.old profile.new }
{
    let mut made = 0;
    'turns: while made < count {
        let left = count - made;
        let Status::Running = machine.status(hart) else {
            let _ = machine.run_same(hart, left);
            profile.idle += left;
            return;
        };
        let more = count_some(machine, straights, hart, left, &mut profile.counts);
        profile.made += more;
        made += more;
    }
}

/// Makes turns of a hart that runs, counts them, and says how many it made: all up to a word that may go on elsewhere,
/// or one where the hart is at no word.
#[inline(always)]
fn count_some(
    machine: &mut Machine,
    straights: &[u32],
    hart: usize,
    most: u64,
    counts: &mut [u64],
) -> u64
    requires there { hart < length machine.old.harts }
    requires runs { (hart_at machine.old hart).status ≡ Status.Running }
    requires straight { AreCounts machine.old.text straights.now }
    requires few { length machine.old.text ≤ most_words }
    requires as_many { length counts.old ≡ length machine.old.text }
    requires some { 1 ≤ most }
    requires room { HaveRoom counts.old most }
    ensures some { 1 ≤ result }
    ensures within { result ≤ most }
    ensures state { machine.new ≡ run machine.old (replicate result hart) }
    ensures shape { KeepsShape machine.old machine.new }
    ensures added { AreAdded hart machine.old (replicate result hart) counts.old counts.new }
    ensures runs { (k : ℕ) → k < result → (hart_at (run machine.old (replicate k hart)) hart).status ≡ Status.Running }
{
    let Some(place) = place_of(straights.len(), machine.pc(hart)) else {
        let _ = machine.turn(hart);
        return 1;
    };
    let straight = u64::from(straights[place]);
    let made = machine.step_on(hart, straight.min(most)).made;
    raise(counts, place, made as usize);
    made
}

/// Counts a turn at each of this many words from a place on.
#[inline(always)]
fn raise(counts: &mut [u64], place: usize, count: usize)
    requires within { place + count ≤ length counts.old }
    requires room { HaveRoom counts.old 1 }
    ensures { AreRaised place count counts.old counts.new }
{
    for at in place..place + count {
        counts[at] += 1;
    }
}
