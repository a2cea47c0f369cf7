//! How gdb wants a run to go on.

ghost use Rattle.std.specs.Prelude.{◌≡◌, option_map};
ghost use Rattle.gdb_packets.specs.Requests as spec;

use crate::request_parts::{mark_at, number_at, thread_at};
use crate::requests::{Action, Request, Thread};

/// The leftmost action after `vCont;`.
#[tactic(auto, unfolding(crate::specs::Requests::action_in))]
pub fn action_in(bytes: &[u8]) -> Option<Request>
    ensures { result ≡ spec.action_in bytes.now }
{
    let (letter, rest) = bytes.split_first()?;
    let action = action_by(*letter, rest)?;
    Some(Request::Go(action))
}

/// The action that a letter begins.
#[tactic(auto, unfolding(crate::specs::Requests::action_by))]
fn action_by(letter: u8, bytes: &[u8]) -> Option<Action>
    ensures { result ≡ spec.action_by letter bytes.now }
{
    match letter {
        b's' => steps(bytes),
        b'c' => continues(bytes),
        b'S' => {
            let (_, rest) = number_at(bytes)?;
            steps(rest)
        }
        b'C' => {
            let (_, rest) = number_at(bytes)?;
            continues(rest)
        }
        _ => None,
    }
}

/// A step of the threads that follow.
fn steps(bytes: &[u8]) -> Option<Action>
    ensures { result ≡ spec.steps bytes.now }
{
    let (thread, rest) = threads_at(bytes)?;
    before_others(Action::Step(thread), rest)
}

/// Going on with the threads that follow.
fn continues(bytes: &[u8]) -> Option<Action>
    ensures { result ≡ spec.continues bytes.now }
{
    let (thread, rest) = threads_at(bytes)?;
    before_others(Action::Continue(thread), rest)
}

/// The thread after a colon, or all threads where there is none.
#[tactic(auto, unfolding(crate::specs::Requests::threads_at))]
fn threads_at(bytes: &[u8]) -> Option<(Thread, &[u8])>
    ensures { option_map (λ found. (found.0, found.1.now)) result ≡ spec.threads_at bytes.now }
{
    match mark_at(b':', bytes) {
        Some(rest) => thread_at(rest),
        None => Some((Thread::All, bytes)),
    }
}

/// The action, where nothing follows it or others do.
fn before_others(action: Action, bytes: &[u8]) -> Option<Action>
    ensures { result ≡ spec.before_others action bytes.now }
{
    match bytes {
        [] => Some(action),
        [byte, ..] => { if *byte == b';' { Some(action) } else { None } }
    }
}
