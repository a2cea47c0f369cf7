//! Which watched word a turn changes, and whether a hart is on a break.

ghost use Rattle.std.specs.Prelude.{◌≡◌, ◌+◌, ◌<◌, drop, length};
ghost use Rattle.debugger.specs.Places.{moved, state_at, state_here};
ghost use Rattle.gdb_session.specs.Stopping.{changed_before, first_changed, is_on_break};

use debugger::Session;
use std::alloc::Global;

/// Makes the next turn, and answers the first watch, from the one with this number on, whose word it changes.
pub fn next_changing(session: &mut Session, alloc: Global, number: usize) -> Option<u32>
    requires { session.old.state.place < length session.old.state.log.turns }
    ensures state { session.new.state ≡ moved session.old.state (session.old.state.place + 1) }
    ensures changed { result ≡ first_changed (state_here session.old.state)
        (state_at session.old.state (session.old.state.place + 1)) (drop number session.old.state.watches) }
{
    let Some(address) = session.watch(number) else {
        go_on_one(session, alloc);
        return None;
    };
    let before = session.machine().word(address);
    let later = next_changing(session, alloc, number + 1);
    if session.machine().word(address) == before {
        later
    } else {
        Some(address)
    }
}

/// Makes the next turn.
fn go_on_one(session: &mut Session, alloc: Global)
    requires { session.old.state.place < length session.old.state.log.turns }
    ensures { session.new.state ≡ moved session.old.state (session.old.state.place + 1) }
{
    match session.next(alloc) {
        Ok(()) => {}
        Err(_refusal) => unreachable!(),
    }
}

/// The first watched word that the last turn before the place changed. The session stays there.
pub fn last_changing(session: &mut Session, alloc: Global) -> Option<u32>
    ensures state { session.new.state ≡ session.old.state }
    ensures changed { result ≡ changed_before session.old.state session.old.state.place }
{
    // What this ensures says that the place is within the log.
    let _place = session.place();
    match session.back(alloc) {
        Ok(()) => next_changing(session, alloc, 0),
        Err(_refusal) => None,
    }
}

/// Whether the hart of the next turn is on a break.
pub fn is_at_break(session: &Session) -> bool
    ensures { result ≡ is_on_break session.now.state session.now.state.place }
{
    // What this ensures says that every turn is of one of the log's harts.
    let _harts = session.log().harts();
    match session.log().turn_at(session.place()) {
        Some(hart) => session.is_break(session.pc(hart)),
        None => false,
    }
}
