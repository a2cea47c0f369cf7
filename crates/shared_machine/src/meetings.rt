//! Where threads meet before their work.

ghost use Rattle.std.specs.Prelude.{◌≡◌, ◌-◌, ◌≤◌, ◌↔◌, All, IsSome, IfNone, IfSome, length, true, false};
ghost use Rattle.std.specs.Thread.{IsSend, IsSync};
ghost use Rattle.shared_machine.specs.inner.Meetings.{Came, EachIs};

use std::sync::atomic::AtomicU64;
use std::sync::{Mutex, OnceLock, OnceToken, Wait};
use std::thread::{Threads, join_mut, yield_now};
use std::time::Duration;

/// How often a thread looks whether all have come, and lets other threads run in between, before it naps.
const LOOKS: u32 = 1_000;

/// How many microseconds a nap is.
const NAP: u64 = 1_000;

/// After how many naps a thread has waited in vain: a second and a half, and longer where the processors are busy,
/// since each nap then is.
const NAPS: u32 = 1_500;

/// Work that is done at each of several places, or left at all of them.
pub(crate) trait Work<T> {
    ghost fits: { Self → T → Type 0 };

    ghost done: { Self → T → T → Type 0 };

    ghost left: { Self → T → T → Type 0 };

    /// Does it at one place.
    fn work(&self, it: &mut T)
        requires { fits self.now it.old }
        ensures fits { fits self.now it.new }
        ensures done { done self.now it.old it.new };

    /// Leaves it there.
    fn leave(&self, it: &mut T)
        requires { fits self.now it.old }
        ensures fits { fits self.now it.new }
        ensures left { left self.now it.old it.new };
}

/// Does the work of each place in a thread of its own. The threads meet before: where one of them can't be had, or
/// doesn't come for more than a second, the work is left at each place. Whether it was done. The first thread is there:
/// one place needs no other.
pub(crate) fn for_each_met<T: Send, W: Work<T> + Sync, R: Threads + Wait + Sync>(
    rt: &R,
    s: &mut [T],
    work: &W,
) -> bool
    requires { All (W.fits work.now) s.old }
    ensures fits { All (W.fits work.now) s.new }
    ensures done { result ≡ true → EachIs (W.done work.now) s.old s.new }
    ensures left { result ≡ false → EachIs (W.left work.now) s.old s.new }
    ensures several { result ≡ false → 2 ≤ length s.old }
{
    if s.is_empty() {
        return true;
    }
    if s.len() == 1 {
        work.work(&mut s[0]);
        return true;
    }
    let meeting = Meeting::new(s.len());
    let decision = work_at(rt, &meeting, work, s);
    match meeting.decided(&decision) {
        Some(_) => true,
        None => false,
    }
}

/// Has a thread come to the meeting for each place. What was decided there.
///
/// The places are halved, and one half goes to a new thread, or comes last where none can be had.
#[cycle(halves)]
fn work_at<'a, T: Send, W: Work<T> + Sync, R: Threads + Wait + Sync>(
    rt: &R,
    meeting: &'a Meeting,
    work: &W,
    s: &mut [T],
) -> OnceToken<'a, Option<AllHere>>
    requires there { 1 ≤ length s.old }
    requires fits { All (W.fits work.now) s.old }
    ensures decision { result.of ≡ meeting.now.decision.id }
    ensures fits { All (W.fits work.now) s.new }
    ensures came { Came (W.done work.now) (W.left work.now) result.value s.old s.new }
{
    if s.len() == 1 {
        return work_at_one(rt, meeting, work, &mut s[0]);
    }
    let (a, b) = s.split_at_mut(s.len() / 2);
    work_at_both(rt, meeting, work, a, b)
}

/// The same of two halves of the places.
#[cycle(halves)]
fn work_at_both<'a, T: Send, W: Work<T> + Sync, R: Threads + Wait + Sync>(
    rt: &R,
    meeting: &'a Meeting,
    work: &W,
    a: &mut [T],
    b: &mut [T],
) -> OnceToken<'a, Option<AllHere>>
    requires there { (1 ≤ length a.old) × (1 ≤ length b.old) }
    requires fits { All (W.fits work.now) a.old × All (W.fits work.now) b.old }
    ensures decision { result.of ≡ meeting.now.decision.id }
    ensures fits { All (W.fits work.now) a.new × All (W.fits work.now) b.new }
    ensures front { Came (W.done work.now) (W.left work.now) result.value a.old a.new }
    ensures back { Came (W.done work.now) (W.left work.now) result.value b.old b.new }
{
    let mut front = || -> OnceToken<'_, Option<AllHere>>
        requires { IsSync R.row × IsSync W.row × IsSend T.row × (1 ≤ length a.now) × All (W.fits work.now) a.now }
        ensures { (result.of ≡ meeting.entry.now.decision.id) × All (W.fits work.entry.now) a.exit.now
            × Came (W.done work.entry.now) (W.left work.entry.now) result.value a.entry.now a.exit.now }
    { work_at(rt, meeting, work, a) };
    let mut back = || -> OnceToken<'_, Option<AllHere>>
        requires { IsSync R.row × IsSync W.row × IsSend T.row × (1 ≤ length b.now) × All (W.fits work.now) b.now }
        ensures { (result.of ≡ meeting.entry.now.decision.id) × All (W.fits work.entry.now) b.exit.now
            × Came (W.done work.entry.now) (W.left work.entry.now) result.value b.entry.now b.exit.now }
    { work_at(rt, meeting, work, b) };
    let (decision, other) = join_mut(rt, &mut front, &mut back);
    decision.agrees(&other);
    decision
}

/// The same of one place, in the thread that comes for it.
fn work_at_one<'a, T, W: Work<T>, R: Wait>(
    rt: &R,
    meeting: &'a Meeting,
    work: &W,
    it: &mut T,
) -> OnceToken<'a, Option<AllHere>>
    requires { W.fits work.now it.old }
    ensures decision { result.of ≡ meeting.now.decision.id }
    ensures fits { W.fits work.now it.new }
    ensures done { IfSome result.value (λ all. W.done work.now it.old it.new) }
    ensures left { IfNone result.value (W.left work.now it.old it.new) }
{
    let decision = meeting.attend(rt);
    match meeting.decided(&decision) {
        Some(_) => work.work(it),
        None => work.leave(it),
    }
    decision
}

/// A meeting of threads. Whether all of them have come is decided once.
#[derive(Drop)]
struct Meeting {
    desk: Mutex<Desk>,
    decision: OnceLock<Option<AllHere>>,
}

/// Counts those who come.
#[derive(Drop)]
struct Desk {
    missing: usize,
}

/// Shows that all have come.
#[derive(Drop)]
struct AllHere {
    missing: usize,
    ghost none: { missing ≡ 0 },
}

impl Desk {
    /// One more has come. Who comes last is told that all are here.
    fn come_in(&mut self) -> Option<AllHere>
        ensures counted { self.new.missing ≡ self.old.missing - 1 }
        ensures all { IsSome result ↔ (self.new.missing ≡ 0) }
    {
        self.missing = self.missing.saturating_sub(1);
        if self.missing > 0 {
            return None;
        }
        Some(AllHere {
            missing: self.missing,
        })
    }
}

impl Meeting {
    /// A meeting of this many.
    fn new(many: usize) -> Meeting {
        Meeting {
            desk: Mutex::new(Desk { missing: many }),
            decision: OnceLock::new(),
        }
    }

    /// Comes, and waits for the others. Whether all have come: who comes last decides that they have, and who has
    /// waited in vain that they haven't, whichever is first.
    fn attend<R: Wait>(&self, rt: &R) -> OnceToken<'_, Option<AllHere>>
        ensures { result.of ≡ self.now.decision.id }
    {
        let all = self.desk.lock(rt).come_in();
        if all.is_some() {
            return self.decide(rt, all);
        }
        for _look in 0..LOOKS {
            if let Some(decision) = self.decision.witness() {
                return decision;
            }
            yield_now();
        }
        let never = AtomicU64::new(0);
        for _nap in 0..NAPS {
            if let Some(decision) = self.decision.witness() {
                return decision;
            }
            never.park_timeout(rt, 0, Duration::from_micros(NAP));
        }
        self.decide(rt, None)
    }

    /// Decides, where nobody has decided yet. What was decided.
    fn decide<R: Wait>(&self, rt: &R, all: Option<AllHere>) -> OnceToken<'_, Option<AllHere>>
        ensures { result.of ≡ self.now.decision.id }
    {
        match self.decision.try_insert(rt, all) {
            Ok(decision) => decision,
            Err((decision, _)) => decision,
        }
    }

    /// What was decided, for whoever shows that it was.
    fn decided<'a>(&'a self, decision: &OnceToken<'a, Option<AllHere>>) -> &'a Option<AllHere>
        requires { decision.now.of ≡ self.now.decision.id }
        ensures { result.now ≡ decision.now.value }
    {
        self.decision.value(decision)
    }
}
