//! A compiled blur on three harts: in strips, where one is abandoned in the middle of a strip, and in two phases.

ghost use Rattle.std.specs.Prelude.{◌≡◌, [], All};
ghost use Rattle.board.specs.Tokens.{name_of};
ghost use Rattle.shared_machine.specs.Seats.{IsSeatOf};
ghost use Rattle.shared_machine.specs.Tallies.{AreNamed};

use hart_core::Status;
use hrv_compiler::compile;
use loader::{Image, Output};
use multi_hart::Machine;
use picture::Picture;
use shared_machine::{AlwaysOpen, Blanks, Ended, Gate, Ledgers, Origin, Seat, Shared, drive};
use std::alloc::Global;
use std::marker::Brand;
use std::process::Abort;
use std::sync::Wait;
use std::sync::atomic::AtomicBool;
use std::sync::atomic::Ordering::SeqCst;
use std::test::Fail;
use std::thread::{Threads, yield_now};
use turn_log::TurnLog;

const WIDTH: u32 = 64;

const HEIGHT: u32 = 48;

/// Means of three neighbours in a row, and of three of these in a column.
const ALGORITHM: &str = "input in 64 48
func bx(x,y) = (in(clamp(x-1,0,63),clamp(y,0,47)) + in(x,clamp(y,0,47)) + in(clamp(x+1,0,63),clamp(y,0,47))) / 3
func by(x,y) = (bx(x,y-1) + bx(x,y) + bx(x,y+1)) / 3
output by 64 48
";

/// Six tasks of eight rows.
const SCHEDULE: &str = "by split y yo yi 8 guard
by parallel yo
bx compute_at by yo
bx split x xo xi 4 guard
bx vectorize xi
";

/// Two phases: tasks of ten rows of the first blur, and then of eight of the second one.
const PHASES: &str = "bx compute_root
bx split y yo yi 10 guard
bx parallel yo
by split y yo yi 8 guard
by parallel yo
";

/// How many turns hart 1 makes before it is abandoned. A strip takes it thousands.
const TURNS: u64 = 199;

/// In this many turns of each hart a picture is done.
const LIMIT: u64 = 10_000_000;

/// How often the others look whether hart 1 has made its turns.
const TRIES: u32 = 1_000_000;

/// A gate that lets hart 1 make this many turns, and the others begin after them.
#[derive(Drop)]
struct Abandons {
    made: AtomicBool,
}

impl Gate for Abandons {
    ghost use Rattle.std.specs.Prelude.{false};

    ghost OPEN = { false };

    const OPEN: bool = false;

    fn before(&self, hart: usize, number: u64) -> bool {
        if hart == 1 {
            return number <= TURNS;
        }
        for _ in 0..TRIES {
            if self.made.load(SeqCst) {
                return true;
            }
            yield_now();
        }
        false
    }

    fn after(&self, hart: usize, number: u64) {
        if hart == 1 && number == TURNS {
            self.made.store(true, SeqCst);
        }
    }
}

/// The input's pixels: 9 for each column.
fn columns(alloc: Global) -> Result<Picture, Fail> {
    let mut pixels = Vec::new(alloc);
    for _ in 0..HEIGHT {
        for x in 0..WIDTH {
            pixels.push(9 * x)?;
        }
    }
    match Picture::new(WIDTH, HEIGHT, pixels) {
        Some(picture) => Ok(picture),
        None => Err(Fail::new("no picture")),
    }
}

/// What the blur makes of them: the mean of a column and its neighbours, which differ at the sides alone.
fn blurred(x: u32) -> u32 {
    match x {
        0 => 3,
        63 => 564,
        _ => x.wrapping_mul(9),
    }
}

/// The image of the blur. What was compiled is let go by a call, since a drop of it is long to check.
fn blur(alloc: Global, schedule: &str) -> Result<Image, Fail> {
    let inputs = Vec::from_array(alloc, [columns(alloc)?])?;
    match compile(ALGORITHM, schedule, alloc) {
        Ok(compiled) => {
            let made = compiled.image(alloc, &inputs);
            drop(compiled);
            made.map_err(|_| Fail::new("no image"))
        }
        Err(_) => Err(Fail::new("the texts are refused")),
    }
}

/// Hart 1 was shut out after its turns, and the others have finished.
fn check_seats<O: Origin, F: Ledgers, R: Abort>(rt: &R, seats: &[Seat<O, F>]) {
    for seat in seats {
        if seat.hart() == 1 {
            assert_eq!(rt; seat.number(), TURNS);
            assert_eq!(rt; seat.ended(), Some(Ended::Shut));
        } else {
            assert_eq!(rt; seat.ended(), Some(Ended::Halted));
        }
    }
}

/// No hart is running after its last turn.
fn check_halted<O: Origin, F: Ledgers, R: Abort>(rt: &R, seats: &[Seat<O, F>]) {
    for seat in seats {
        assert_eq!(rt; seat.ended(), Some(Ended::Halted));
    }
}

/// Hart 1 runs, the others have finished, so there is no picture.
fn check_left<R: Abort>(rt: &R, machine: &Machine, log: &TurnLog) {
    assert!(rt; !machine.is_finished());
    assert_eq!(rt; log.count_of(1), TURNS);
    for hart in 0..machine.harts() {
        let is_running = matches!(machine.status(hart), Status::Running);
        assert_eq!(rt; is_running, hart == 1);
    }
}

/// All harts have finished, and each pixel is the blur's.
fn check_whole<R: Abort>(rt: &R, machine: &Machine, output: Output) {
    assert!(rt; machine.is_finished());
    for y in 0..HEIGHT {
        for x in 0..WIDTH {
            let behind = output
                .stride
                .wrapping_mul(y)
                .wrapping_add(x.wrapping_mul(4));
            let pixel = machine.word(output.address.wrapping_add(behind));
            assert_eq!(rt; pixel, Some(blurred(x)));
        }
    }
}

/// Where the output of an image lies.
fn output_of(image: &Image) -> Result<Output, Fail> {
    match image.output() {
        Some(output) => Ok(output),
        None => Err(Fail::new("no output")),
    }
}

/// Drives all seats until hart 1 is abandoned.
fn drive_first<O: Origin + Send + Sync, F: Ledgers + Send + Sync, R: Threads + Wait + Abort + Sync>(
    rt: &R,
    shared: &Shared<O, F>,
    seats: &mut Vec<Seat<O, F>>,
)
    requires { All (IsSeatOf (name_of shared.now.board)) seats.old.items }
    ensures { All (IsSeatOf (name_of shared.now.board)) seats.new.items }
{
    let gate = Abandons {
        made: AtomicBool::new(false),
    };
    assert!(rt; drive(rt, shared, seats.as_mut_slice(), LIMIT, &gate).is_ok());
    check_seats(rt, seats);
}

/// Drives all seats to their end, and each of them says that its hart isn't running.
fn drive_on<O: Origin + Send + Sync, F: Ledgers + Send + Sync, R: Threads + Wait + Abort + Sync>(
    rt: &R,
    shared: &Shared<O, F>,
    seats: &mut Vec<Seat<O, F>>,
)
    requires { All (IsSeatOf (name_of shared.now.board)) seats.old.items }
    ensures { All (IsSeatOf (name_of shared.now.board)) seats.new.items }
{
    assert!(rt; drive(rt, shared, seats.as_mut_slice(), LIMIT, &AlwaysOpen).is_ok());
    check_halted(rt, seats);
}

/// Closes a machine, and looks at what it came to: with its picture, where that is wanted.
fn check_closed<O: Origin, F: Ledgers, R: Abort>(
    rt: &R,
    shared: Shared<O, F>,
    seats: Vec<Seat<O, F>>,
    output: Output,
    is_wanted: bool,
)
    requires { All (IsSeatOf (name_of shared.board)) seats.items }
{
    match shared.close(seats) {
        Ok((machine, log, _)) => {
            if is_wanted {
                check_whole(rt, &machine, output);
            } else {
                check_left(rt, &machine, &log);
            }
        }
        Err(_) => assert!(rt; false, "a seat is missing"),
    }
}

/// Drives three harts until hart 1 is abandoned, and on where the picture is wanted.
fn drive_strips<
    O: Origin + Send + Sync,
    F: Ledgers + Send + Sync,
    R: Threads + Wait + Abort + AllocGlobal + Sync,
>(rt: &R, image: Image, blanks: Blanks, is_wanted: bool) -> Result<(), Fail>
    requires image { image ≡ O.image }
    requires harts { O.harts ≡ 3 }
    requires resumed { O.resumed ≡ [] }
    requires blanks { AreNamed F.numbers F.tallies blanks }
{
    let output = output_of(&image)?;
    let (shared, mut seats) = Shared::<O, F>::new(rt.alloc(), image, 3, blanks)?;
    drive_first(rt, &shared, &mut seats);
    if is_wanted {
        drive_on(rt, &shared, &mut seats);
    }
    check_closed(rt, shared, seats, output, is_wanted);
    Ok(())
}

/// Drives three harts through all phases.
fn drive_phases<
    O: Origin + Send + Sync,
    F: Ledgers + Send + Sync,
    R: Threads + Wait + Abort + AllocGlobal + Sync,
>(rt: &R, image: Image, blanks: Blanks) -> Result<(), Fail>
    requires image { image ≡ O.image }
    requires harts { O.harts ≡ 3 }
    requires resumed { O.resumed ≡ [] }
    requires blanks { AreNamed F.numbers F.tallies blanks }
{
    let output = output_of(&image)?;
    let (shared, mut seats) = Shared::<O, F>::new(rt.alloc(), image, 3, blanks)?;
    drive_on(rt, &shared, &mut seats);
    check_closed(rt, shared, seats, output, true);
    Ok(())
}

/// The strip that an abandoned hart drew is nobody else's: there is no picture.
#[test]
fn an_abandoned_strip_is_missed(rt: HostRuntime) -> Result<(), Fail> {
    let image = blur(rt.alloc(), SCHEDULE)?;
    drive_strips::<Brand, Brand, HostRuntime>(&rt, image, Blanks::new(), false)
}

/// Where it is driven on, the picture is that of the algorithm.
#[test]
fn an_abandoned_strip_is_taken_up(rt: HostRuntime) -> Result<(), Fail> {
    let image = blur(rt.alloc(), SCHEDULE)?;
    drive_strips::<Brand, Brand, HostRuntime>(&rt, image, Blanks::new(), true)
}

/// Harts that wait for one another between two phases all come to their ends.
#[test]
fn two_phases_end(rt: HostRuntime) -> Result<(), Fail> {
    let image = blur(rt.alloc(), PHASES)?;
    drive_phases::<Brand, Brand, HostRuntime>(&rt, image, Blanks::new())
}
