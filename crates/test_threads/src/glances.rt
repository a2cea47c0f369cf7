//! Looks at the board of a shared machine through its own glances, while the two-hart counter is driven.

ghost use Rattle.std.specs.Prelude.{◌≡◌, [], IfOk};
ghost use Rattle.board.specs.Tokens.{IsGlanceOf, name_of};
ghost use Rattle.shared_machine.specs.Tallies.{AreNamed};

use crate::counters::{COUNTER, check_driven};
use board::Glance;
use loader::{Image, read_image};
use shared_machine::{AlwaysOpen, Blanks, Ledgers, Origin, Shared};
use std::marker::Brand;
use std::process::Abort;
use std::sync::Wait;
use std::test::Fail;
use std::thread::Threads;

/// Takes the other seven glances that a machine has, and finds no more.
fn take_glances<O: Origin, F: Ledgers, R: Abort>(rt: &R, shared: &mut Shared<O, F>)
    ensures { shared.new.board ≡ shared.old.board }
{
    for _ in 0..7 {
        assert!(rt; shared.glance().is_some());
    }
    assert!(rt; shared.glance().is_none());
}

/// The first glance of a machine.
fn first_glance<O: Origin, F: Ledgers>(shared: &mut Shared<O, F>) -> Result<Glance, Fail>
    ensures same { shared.new.board ≡ shared.old.board }
    ensures glance { IfOk result (IsGlanceOf (name_of shared.old.board)) }
{
    match shared.glance() {
        Some(glance) => Ok(glance),
        None => Err(Fail::new("no glance is left")),
    }
}

/// Through one glance each seat's number is seen.
fn check_looks<O: Origin, F: Ledgers, R: Abort>(
    rt: &R,
    shared: &Shared<O, F>,
    glance: &mut Glance,
    turns: u64,
)
    requires { IsGlanceOf (name_of shared.now.board) glance.old }
    ensures { IsGlanceOf (name_of shared.now.board) glance.new }
{
    let board = shared.board();
    for hart in 0..board.harts() {
        assert_eq!(rt; board.look(glance, hart), turns);
    }
}

/// Drives the counter to its end, and then once more, and looks before and after through a glance of the machine's own.
fn watch_counter<
    O: Origin + Send + Sync,
    F: Ledgers + Send + Sync,
    R: Threads + Wait + Abort + AllocGlobal + Sync,
>(rt: &R, image: Image, blanks: Blanks, batched: bool) -> Result<(), Fail>
    requires image { image ≡ O.image }
    requires harts { O.harts ≡ 2 }
    requires resumed { O.resumed ≡ [] }
    requires blanks { AreNamed F.numbers F.tallies blanks }
{
    let (mut shared, mut seats) = Shared::<O, F>::new(rt.alloc(), image, 2, blanks)?;
    let mut glance = first_glance(&mut shared)?;
    take_glances(rt, &mut shared);
    check_looks(rt, &shared, &mut glance, 0);
    check_driven(rt, &shared, &mut seats, batched, &AlwaysOpen, 4);
    check_looks(rt, &shared, &mut glance, 4);
    check_driven(rt, &shared, &mut seats, batched, &AlwaysOpen, 5);
    check_looks(rt, &shared, &mut glance, 5);
    Ok(())
}

/// A glance that saw what stood there before sees what stands there now.
#[test]
fn a_glance_sees_each_drive(rt: HostRuntime) -> Result<(), Fail> {
    for batched in [false, true] {
        let image = read_image(rt.alloc(), &COUNTER)?;
        watch_counter::<Brand, Brand, HostRuntime>(&rt, image, Blanks::new(), batched)?;
    }
    Ok(())
}
