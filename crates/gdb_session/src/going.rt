//! Going on in the log.

ghost use Rattle.std.specs.Prelude.{◌≡◌, ◌-◌, ◌<◌, ◌≤◌, length};
ghost use Rattle.debugger.specs.Places.{moved};
ghost use Rattle.gdb_session.specs.Going as spec;
ghost use Rattle.gdb_session.specs.inner.Telling.{told_ahead};

use crate::changes::{is_at_break, last_changing};
use crate::finding::{last_turn_of, next_turn_of};
use crate::stops::{Stop, StopReason};
use debugger::Session;
use std::alloc::Global;

/// Goes behind a hart's next turn.
#[tactic(auto, unfolding(crate::specs::Going::step))]
pub fn step(session: &mut Session, alloc: Global, hart: usize) -> Stop
    requires { hart < session.old.state.log.harts }
    ensures state { session.new.state ≡ moved session.old.state (spec.step session.old.state hart).place }
    ensures stop { result ≡ (spec.step session.old.state hart).stop }
    ensures there { result.hart < session.old.state.log.harts }
{
    let end = session.length();
    match next_turn_of(session.log(), hart, session.place()) {
        Some(place) => arrive(session, alloc, place + 1, StopReason::Stepped, hart),
        None => arrive(session, alloc, end, StopReason::LogEnd, hart),
    }
}

/// Goes back before a hart's last turn.
#[tactic(auto, unfolding(crate::specs::Going::step_back))]
pub fn step_back(session: &mut Session, alloc: Global, hart: usize) -> Stop
    requires { hart < session.old.state.log.harts }
    ensures state { session.new.state ≡ moved session.old.state (spec.step_back session.old.state hart).place }
    ensures stop { result ≡ (spec.step_back session.old.state hart).stop }
    ensures there { result.hart < session.old.state.log.harts }
{
    match last_turn_of(session.log(), hart, session.place()) {
        Some(place) => arrive(session, alloc, place, StopReason::Stepped, hart),
        None => arrive(session, alloc, 0, StopReason::LogStart, hart),
    }
}

/// Goes to a place.
pub fn go_to(session: &mut Session, alloc: Global, place: u64)
    requires { place ≤ length session.old.state.log.turns }
    ensures { session.new.state ≡ moved session.old.state place }
{
    match session.goto(alloc, place) {
        Ok(()) => {}
        Err(_refusal) => unreachable!(),
    }
}

/// Goes to a place, and stops there.
fn arrive(session: &mut Session, alloc: Global, place: u64, reason: StopReason, hart: usize) -> Stop
    requires { place ≤ length session.old.state.log.turns }
    ensures state { session.new.state ≡ moved session.old.state place }
    ensures stop { result ≡ record { reason = reason; hart = hart } }
{
    go_to(session, alloc, place);
    Stop { reason, hart }
}

/// Goes on to the next stop. At the end of the log gdb is told of this hart.
pub fn go_on(session: &mut Session, alloc: Global, focus: usize) -> Stop
    requires { focus < session.old.state.log.harts }
    ensures state { session.new.state ≡ moved session.old.state (spec.continue session.old.state focus).place }
    ensures stop { result ≡ (spec.continue session.old.state focus).stop }
    ensures there { result.hart < session.old.state.log.harts }
{
    if is_at_break(session) {
        return stop_at_next(session, StopReason::Break);
    }
    match session.forward(alloc) {
        Ok(()) => tell_ahead(session, alloc),
        Err(_refusal) => {
            let end = session.length();
            arrive(session, alloc, end, StopReason::LogEnd, focus)
        }
    }
}

/// Why a mark stops here, forwards. Where the last turn changes a watched word the session goes before it.
fn tell_ahead(session: &mut Session, alloc: Global) -> Stop
    ensures state { session.new.state ≡ moved session.old.state (told_ahead session.old.state).place }
    ensures stop { result ≡ (told_ahead session.old.state).stop }
    ensures there { result.hart < session.old.state.log.harts }
{
    match last_changing(session, alloc) {
        Some(address) => stop_before(session, alloc, address),
        None => stop_at_next(session, StopReason::Break),
    }
}

/// Goes before the last turn, which changes the word at an address, where there is one.
fn stop_before(session: &mut Session, alloc: Global, address: u32) -> Stop
    ensures state { session.new.state ≡ moved session.old.state (session.old.state.place - 1) }
    ensures stop { result ≡ record {
      reason = StopReason.Watch address;
      hart = spec.next_hart session.old.state (session.old.state.place - 1);
    } }
    ensures there { result.hart < session.old.state.log.harts }
{
    let before = session.place().saturating_sub(1);
    let hart = hart_at(session, before);
    arrive(session, alloc, before, StopReason::Watch(address), hart)
}

/// Goes back to the last stop. At the start of the log gdb is told of this hart.
pub fn go_back(session: &mut Session, alloc: Global, focus: usize) -> Stop
    requires { focus < session.old.state.log.harts }
    ensures state { session.new.state ≡ moved session.old.state (spec.continue_back session.old.state focus).place }
    ensures stop { result ≡ (spec.continue_back session.old.state focus).stop }
    ensures there { result.hart < session.old.state.log.harts }
{
    if let Some(address) = last_changing(session, alloc) {
        return stop_at_last(session, address);
    }
    match session.reverse(alloc) {
        Ok(()) => tell_behind(session, alloc),
        Err(_refusal) => arrive(session, alloc, 0, StopReason::LogStart, focus),
    }
}

/// Why a mark stops here, backwards.
fn tell_behind(session: &mut Session, alloc: Global) -> Stop
    ensures state { session.new.state ≡ session.old.state }
    ensures stop { result ≡ (spec.behind_at session.old.state session.old.state.place).stop }
    ensures there { result.hart < session.old.state.log.harts }
{
    if is_at_break(session) {
        return stop_at_next(session, StopReason::Break);
    }
    let address = last_changing(session, alloc).unwrap_or(0);
    stop_at_last(session, address)
}

/// A stop of the hart of the next turn.
fn stop_at_next(session: &Session, reason: StopReason) -> Stop
    ensures stop { result ≡ record {
      reason = reason;
      hart = spec.next_hart session.now.state session.now.state.place;
    } }
    ensures there { result.hart < session.now.state.log.harts }
{
    let hart = hart_at(session, session.place());
    Stop { reason, hart }
}

/// A stop of the hart of the last turn, which changes the word at an address.
fn stop_at_last(session: &Session, address: u32) -> Stop
    ensures stop { result ≡ record {
      reason = StopReason.Watch address;
      hart = spec.last_hart session.now.state session.now.state.place;
    } }
    ensures there { result.hart < session.now.state.log.harts }
{
    // What this ensures says that there is a hart.
    let _harts = session.log().harts();
    let place = session.place();
    let hart = if place == 0 {
        0
    } else {
        hart_at(session, place - 1)
    };
    Stop {
        reason: StopReason::Watch(address),
        hart,
    }
}

/// The hart of the turn at a place, and hart 0 where there is none.
fn hart_at(session: &Session, place: u64) -> usize
    ensures hart { result ≡ spec.next_hart session.now.state place }
    ensures there { result < session.now.state.log.harts }
{
    // What this ensures says that every turn is of one of the log's harts, of which there is one.
    let _harts = session.log().harts();
    match session.log().turn_at(place) {
        Some(hart) => hart,
        None => 0,
    }
}
