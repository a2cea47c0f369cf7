//! The two-hart counter as a shared machine: each hart adds 1 to the one word of data, and finishes with its fourth
//! turn.

ghost use Rattle.std.specs.Prelude.{◌≡◌, [], All, IfOk};
ghost use Rattle.board.specs.Tokens.{name_of};
ghost use Rattle.shared_machine.specs.Seats.{IsSeatOf};
ghost use Rattle.shared_machine.specs.Tallies.{AreNamed};

use loader::{Image, read_image};
use multi_hart::Machine;
use shared_machine::{
    AlwaysOpen, Blanks, DriveFault, Ended, Gate, Ledgers, Origin, Seat, Shared, TurnRefusal, drive,
    drive_batched, run,
};
use std::marker::Brand;
use std::process::Abort;
use std::sync::Wait;
use std::sync::atomic::Ordering::SeqCst;
use std::sync::atomic::{AtomicBool, AtomicU64};
use std::test::Fail;
use std::thread::{Threads, yield_now};
use turn_log::TurnLog;

pub(crate) const COUNTER: [u8; 52] = [
    0x48, 0x52, 0x56, 0x31, 0x00, 0x00, 0x01, 0x00, 0x04, 0x00, 0x00, 0x00, 0x04, 0x00, 0x00, 0x00,
    0x00, 0x00, 0x20, 0x00, 0x01, 0x00, 0x00, 0x00, 0x01, 0x00, 0x00, 0x00, 0x04, 0x00, 0x00, 0x00,
    0xb7, 0x02, 0x20, 0x00, 0x13, 0x03, 0x10, 0x00, 0xaf, 0xa3, 0x62, 0x00, 0x73, 0x00, 0x00, 0x00,
    0x00, 0x00, 0x00, 0x00,
];

/// Where the one word of data lies.
const WORD: u32 = 0x0020_0000;

/// Tries of the gate that waits for two harts.
const TRIES: u32 = 1_000_000;

/// A gate that lets a hart make its first turn once both harts are about to.
#[derive(Drop)]
struct Both {
    here: [AtomicBool; 2],
}

impl Both {
    fn new() -> Both {
        Both {
            here: [AtomicBool::new(false), AtomicBool::new(false)],
        }
    }
}

impl Gate for Both {
    ghost use Rattle.std.specs.Prelude.{false};

    ghost OPEN = { false };

    const OPEN: bool = false;

    fn before(&self, hart: usize, number: u64) -> bool {
        if number != 1 || hart >= 2 {
            return true;
        }
        self.here[hart].store(true, SeqCst);
        for _ in 0..TRIES {
            if self.here[1 - hart].load(SeqCst) {
                return true;
            }
            yield_now();
        }
        false
    }

    fn after(&self, _hart: usize, _number: u64) {}
}

/// Drives all seats, each for up to a hundred turns, one under each lock or up to 64.
fn drive_all<
    O: Origin + Send + Sync,
    F: Ledgers + Send + Sync,
    G: Gate + Sync,
    R: Threads + Wait + Sync,
>(
    rt: &R,
    shared: &Shared<O, F>,
    seats: &mut Vec<Seat<O, F>>,
    batched: bool,
    gate: &G,
) -> Result<(), DriveFault>
    requires { All (IsSeatOf (name_of shared.now.board)) seats.old.items }
    ensures { All (IsSeatOf (name_of shared.now.board)) seats.new.items }
{
    if batched {
        drive_batched(rt, shared, seats.as_mut_slice(), 100, 64, gate)
    } else {
        drive(rt, shared, seats.as_mut_slice(), 100, gate)
    }
}

/// What a closed machine came to: each hart has made this many turns, and the word is this.
fn check_end<R: Abort>(rt: &R, machine: &Machine, log: &TurnLog, turns: [u64; 2], word: u32) {
    assert_eq!(rt; machine.word(WORD), Some(word));
    assert_eq!(rt; log.count_of(0), turns[0]);
    assert_eq!(rt; log.count_of(1), turns[1]);
}

/// Closes a machine, and looks at what it came to.
fn check_closed<O: Origin, F: Ledgers, R: Abort>(
    rt: &R,
    shared: Shared<O, F>,
    seats: Vec<Seat<O, F>>,
    turns: [u64; 2],
    word: u32,
)
    requires { All (IsSeatOf (name_of shared.board)) seats.items }
{
    match shared.close(seats) {
        Ok((machine, log, _)) => check_end(rt, &machine, &log, turns, word),
        Err(_) => assert!(rt; false, "a seat is missing"),
    }
}

/// Drives all seats to their end: each has made this many turns then, and so the board says.
pub(crate) fn check_driven<
    O: Origin + Send + Sync,
    F: Ledgers + Send + Sync,
    G: Gate + Sync,
    R: Threads + Wait + Abort + AllocGlobal + Sync,
>(rt: &R, shared: &Shared<O, F>, seats: &mut Vec<Seat<O, F>>, batched: bool, gate: &G, turns: u64)
    requires { All (IsSeatOf (name_of shared.now.board)) seats.old.items }
    ensures { All (IsSeatOf (name_of shared.now.board)) seats.new.items }
{
    assert!(rt; drive_all(rt, shared, seats, batched, gate).is_ok());
    for seat in seats.iter() {
        assert_eq!(rt; seat.ended(), Some(Ended::Halted));
        assert_eq!(rt; seat.number(), turns);
    }
    let board = shared.board();
    for hart in 0..board.harts() {
        assert_eq!(rt; board.look(&mut board.new_glance(), hart), turns);
    }
}

/// Drives the counter to its end, and then once more: both harts make four turns, and then an idle one.
fn drive_counter<
    O: Origin + Send + Sync,
    F: Ledgers + Send + Sync,
    G: Gate + Sync,
    R: Threads + Wait + Abort + AllocGlobal + Sync,
>(rt: &R, image: Image, blanks: Blanks, batched: bool, gate: &G) -> Result<(), Fail>
    requires image { image ≡ O.image }
    requires harts { O.harts ≡ 2 }
    requires resumed { O.resumed ≡ [] }
    requires blanks { AreNamed F.numbers F.tallies blanks }
{
    let (shared, mut seats) = Shared::<O, F>::new(rt.alloc(), image, 2, blanks)?;
    for seat in seats.iter() {
        assert_eq!(rt; seat.ended(), None);
    }
    check_driven(rt, &shared, &mut seats, batched, gate, 4);
    check_driven(rt, &shared, &mut seats, batched, gate, 5);
    check_closed(rt, shared, seats, [5, 5], 2);
    Ok(())
}

#[test]
fn two_harts_count(rt: HostRuntime) -> Result<(), Fail> {
    let image = read_image(rt.alloc(), &COUNTER)?;
    drive_counter::<Brand, Brand, AlwaysOpen, HostRuntime>(
        &rt,
        image,
        Blanks::new(),
        true,
        &AlwaysOpen,
    )
}

/// Drives the counter of one hart to its end in the thread that is there, and then once more.
fn drive_lone_counter<
    O: Origin + Send + Sync,
    F: Ledgers + Send + Sync,
    R: Threads + Wait + Abort + AllocGlobal + Sync,
>(rt: &R, image: Image, blanks: Blanks, batched: bool) -> Result<(), Fail>
    requires image { image ≡ O.image }
    requires harts { O.harts ≡ 1 }
    requires resumed { O.resumed ≡ [] }
    requires blanks { AreNamed F.numbers F.tallies blanks }
{
    let (shared, mut seats) = Shared::<O, F>::new(rt.alloc(), image, 1, blanks)?;
    check_driven(rt, &shared, &mut seats, batched, &AlwaysOpen, 4);
    check_driven(rt, &shared, &mut seats, batched, &AlwaysOpen, 5);
    Ok(())
}

#[test]
fn a_lone_seat_is_driven(rt: HostRuntime) -> Result<(), Fail> {
    for batched in [false, true] {
        let image = read_image(rt.alloc(), &COUNTER)?;
        drive_lone_counter::<Brand, Brand, HostRuntime>(&rt, image, Blanks::new(), batched)?;
    }
    Ok(())
}

/// One hart runs to its limit or its end, and goes on from its log: one that has finished makes an idle turn more.
#[test]
fn one_hart_runs(rt: HostRuntime) -> Result<(), Fail> {
    for (limit, turns, word) in [(0, 0, 0), (2, 2, 0), (3, 3, 1), (4, 4, 1), (100, 4, 1)] {
        let image = read_image(rt.alloc(), &COUNTER)?;
        let (_, log) = run(&rt, rt.alloc(), image, TurnLog::new(rt.alloc(), 1), limit)?;
        assert_eq!(rt; log.count_of(0), turns);
        let image = read_image(rt.alloc(), &COUNTER)?;
        let (machine, log) = run(&rt, rt.alloc(), image, log, 0)?;
        assert_eq!(rt; machine.word(WORD), Some(word));
        let image = read_image(rt.alloc(), &COUNTER)?;
        let (machine, log) = run(&rt, rt.alloc(), image, log, 100)?;
        assert_eq!(rt; machine.word(WORD), Some(1));
        assert_eq!(rt; log.count_of(0), if turns < 4 { 4 } else { 5 });
    }
    Ok(())
}

/// Each hart has a thread of its own, which begins before the other one has made a turn.
#[test]
fn harts_run_at_once(rt: HostRuntime) -> Result<(), Fail> {
    for batched in [false, true] {
        let image = read_image(rt.alloc(), &COUNTER)?;
        let both = Both::new();
        drive_counter::<Brand, Brand, Both, HostRuntime>(
            &rt,
            image,
            Blanks::new(),
            batched,
            &both,
        )?;
    }
    Ok(())
}

/// A gate that keeps what it is asked and told: of each hart the last number, and whether one came out of its turn.
#[derive(Drop)]
struct Notes {
    /// How many turns are made under a lock at most.
    most: u64,
    asked: [AtomicU64; 2],
    told: [AtomicU64; 2],
    is_wrong: AtomicBool,
}

impl Notes {
    fn new(most: u64) -> Notes {
        Notes {
            most,
            asked: [AtomicU64::new(0), AtomicU64::new(0)],
            told: [AtomicU64::new(0), AtomicU64::new(0)],
            is_wrong: AtomicBool::new(false),
        }
    }
}

impl Gate for Notes {
    ghost use Rattle.std.specs.Prelude.{false};

    ghost OPEN = { false };

    const OPEN: bool = false;

    /// It is asked about the turn after the last one that it was told of.
    fn before(&self, hart: usize, number: u64) -> bool {
        if hart < 2 {
            if number != self.told[hart].load(SeqCst).wrapping_add(1) {
                self.is_wrong.store(true, SeqCst);
            }
            self.asked[hart].store(number, SeqCst);
        }
        true
    }

    /// It is told of the turn that it was asked about, or of the last one under the same lock.
    fn after(&self, hart: usize, number: u64) {
        if hart < 2 {
            if number.wrapping_sub(self.asked[hart].load(SeqCst)) >= self.most {
                self.is_wrong.store(true, SeqCst);
            }
            self.told[hart].store(number, SeqCst);
        }
    }
}

/// A gate is asked before the turns of each hart and told after them: turn by turn, or by what is made under a lock.
#[test]
fn gates_are_asked_and_told(rt: HostRuntime) -> Result<(), Fail> {
    for (batched, most) in [(false, 1), (true, 64)] {
        let image = read_image(rt.alloc(), &COUNTER)?;
        let notes = Notes::new(most);
        drive_counter::<Brand, Brand, Notes, HostRuntime>(
            &rt,
            image,
            Blanks::new(),
            batched,
            &notes,
        )?;
        assert!(rt; !notes.is_wrong.load(SeqCst));
        for hart in 0..2 {
            assert_eq!(rt; notes.asked[hart].load(SeqCst), 5);
            assert_eq!(rt; notes.told[hart].load(SeqCst), 5);
        }
    }
    Ok(())
}

/// A gate that lets hart 1 make two turns.
struct Holds;

impl Gate for Holds {
    ghost use Rattle.std.specs.Prelude.{false};

    ghost OPEN = { false };

    const OPEN: bool = false;

    fn before(&self, hart: usize, number: u64) -> bool {
        hart != 1 || number < 3
    }

    fn after(&self, _hart: usize, _number: u64) {}
}

/// How many turns the seats of two harts have made, and why their threads ended.
fn check_seats<O: Origin, F: Ledgers, R: Abort>(
    rt: &R,
    seats: &[Seat<O, F>],
    turns: [u64; 2],
    ended: [Ended; 2],
) {
    for seat in seats {
        let hart = seat.hart();
        if hart < 2 {
            assert_eq!(rt; seat.number(), turns[hart]);
            assert_eq!(rt; seat.ended(), Some(ended[hart]));
        }
    }
}

/// Drives the counter until hart 1 is held, and then to its end: hart 0 makes an idle turn more.
fn drive_held_counter<
    O: Origin + Send + Sync,
    F: Ledgers + Send + Sync,
    R: Threads + Wait + Abort + AllocGlobal + Sync,
>(rt: &R, image: Image, blanks: Blanks) -> Result<(), Fail>
    requires image { image ≡ O.image }
    requires harts { O.harts ≡ 2 }
    requires resumed { O.resumed ≡ [] }
    requires blanks { AreNamed F.numbers F.tallies blanks }
{
    let (shared, mut seats) = Shared::<O, F>::new(rt.alloc(), image, 2, blanks)?;
    assert!(rt; drive_all(rt, &shared, &mut seats, false, &Holds).is_ok());
    check_seats(rt, &seats, [4, 2], [Ended::Halted, Ended::Shut]);
    assert!(rt; drive_all(rt, &shared, &mut seats, false, &AlwaysOpen).is_ok());
    check_seats(rt, &seats, [5, 4], [Ended::Halted, Ended::Halted]);
    check_closed(rt, shared, seats, [5, 4], 2);
    Ok(())
}

/// A hart whose thread ended before it had finished is driven on by another.
#[test]
fn a_held_hart_goes_on(rt: HostRuntime) -> Result<(), Fail> {
    let image = read_image(rt.alloc(), &COUNTER)?;
    drive_held_counter::<Brand, Brand, HostRuntime>(&rt, image, Blanks::new())
}

/// Makes turns of a seat that has made none.
fn make_turns<O: Origin, F: Ledgers, R: Wait + Abort>(
    rt: &R,
    shared: &Shared<O, F>,
    seat: &mut Seat<O, F>,
    turns: u64,
)
    requires { IsSeatOf (name_of shared.now.board) seat.old }
    ensures { IsSeatOf (name_of shared.now.board) seat.new }
{
    for made in 0..turns {
        let number = match shared.turn(rt, seat) {
            Ok(report) => report.number,
            Err(_) => 0,
        };
        assert_eq!(rt; number, made + 1);
    }
}

/// A seat's turns are refused, since a stop was asked.
fn check_stopped<O: Origin, F: Ledgers, R: Wait + Abort>(
    rt: &R,
    shared: &Shared<O, F>,
    seat: &mut Seat<O, F>,
)
    requires { IsSeatOf (name_of shared.now.board) seat.old }
    ensures { IsSeatOf (name_of shared.now.board) seat.new }
{
    assert_eq!(rt; shared.turn(rt, seat).err(), Some(TurnRefusal::StopAsked));
    assert_eq!(rt;
        shared.turns(rt, seat, 64).err(),
        Some(TurnRefusal::StopAsked)
    );
}

/// The last of some seats.
fn last_seat<O: Origin, F: Ledgers>(
    shared: &Shared<O, F>,
    seats: &mut Vec<Seat<O, F>>,
) -> Result<Seat<O, F>, Fail>
    requires { All (IsSeatOf (name_of shared.now.board)) seats.old.items }
    ensures rest { All (IsSeatOf (name_of shared.now.board)) seats.new.items }
    ensures seat { IfOk result (IsSeatOf (name_of shared.now.board)) }
{
    let _ = shared;
    match seats.pop() {
        Some(seat) => Ok(seat),
        None => Err(Fail::new("no seat is left")),
    }
}

/// Makes this many turns of each of two harts, asks for a stop, and closes the machine: it is as the turns left it.
fn stop_counter<O: Origin, F: Ledgers, R: Wait + Abort + AllocGlobal>(
    rt: &R,
    image: Image,
    blanks: Blanks,
    turns: [u64; 2],
    word: u32,
) -> Result<(), Fail>
    requires image { image ≡ O.image }
    requires harts { O.harts ≡ 2 }
    requires resumed { O.resumed ≡ [] }
    requires blanks { AreNamed F.numbers F.tallies blanks }
{
    let (shared, mut seats) = Shared::<O, F>::new(rt.alloc(), image, 2, blanks)?;
    let mut second = last_seat(&shared, &mut seats)?;
    let mut first = last_seat(&shared, &mut seats)?;
    make_turns(rt, &shared, &mut first, turns[0]);
    make_turns(rt, &shared, &mut second, turns[1]);
    shared.board().ask_stop(&mut shared.board().new_glance());
    check_stopped(rt, &shared, &mut first);
    check_stopped(rt, &shared, &mut second);
    let seats = Vec::from_array(rt.alloc(), [first, second])?;
    check_closed(rt, shared, seats, turns, word);
    Ok(())
}

#[test]
fn a_stop_ends_all_turns(rt: HostRuntime) -> Result<(), Fail> {
    for turns in 0..9 {
        let image = read_image(rt.alloc(), &COUNTER)?;
        let firsts = turns.min(4);
        let word = (turns >= 3) as u32 + (turns >= 7) as u32;
        let each = [firsts, turns - firsts];
        stop_counter::<Brand, Brand, HostRuntime>(&rt, image, Blanks::new(), each, word)?;
    }
    Ok(())
}

/// Goes on from a log of turns 0, 1, 0, and drives the machine to its end.
fn resume_counter<
    O: Origin + Send + Sync,
    F: Ledgers + Send + Sync,
    R: Threads + Wait + Abort + AllocGlobal + Sync,
>(rt: &R, image: Image, log: TurnLog, blanks: Blanks) -> Result<(), Fail>
    requires image { image ≡ O.image }
    requires harts { log.harts ≡ O.harts }
    requires resumed { log.turns ≡ O.resumed }
    requires blanks { AreNamed F.numbers F.tallies blanks }
{
    let (shared, mut seats) = Shared::<O, F>::resume(rt.alloc(), image, log, blanks)?;
    for seat in seats.iter() {
        assert_eq!(rt; seat.number(), if seat.hart() == 0 { 2 } else { 1 });
    }
    check_driven(rt, &shared, &mut seats, true, &AlwaysOpen, 4);
    check_closed(rt, shared, seats, [4, 4], 2);
    Ok(())
}

#[test]
fn a_log_goes_on(rt: HostRuntime) -> Result<(), Fail> {
    let image = read_image(rt.alloc(), &COUNTER)?;
    let mut log = TurnLog::new(rt.alloc(), 2);
    log.push(0)?;
    log.push(1)?;
    log.push(0)?;
    resume_counter::<Brand, Brand, HostRuntime>(&rt, image, log, Blanks::new())
}
