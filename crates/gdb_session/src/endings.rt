//! Which requests end a talk.

ghost use Rattle.std.specs.Prelude.{◌≡◌};
ghost use Rattle.gdb_session.specs.Endings as spec;

use gdb_packets::{Request, read_request};

/// Whether a request ends the talk.
#[derive(Clone, Copy, Debug, PartialEq, Eq)]
pub enum Ending {
    /// It goes on.
    GoesOn,
    /// It ends behind the answer.
    Answered,
    /// It ends at once: there is no answer.
    Unanswered,
}

/// Whether the talk ends with what a packet's payload asks for.
#[tactic(auto, unfolding(crate::specs::Endings::ending))]
pub fn ending_of(payload: &[u8]) -> Ending
    ensures { result ≡ spec.ending payload.now }
{
    match read_request(payload) {
        Request::Detach | Request::KillProcess => Ending::Answered,
        Request::Kill => Ending::Unanswered,
        _ => Ending::GoesOn,
    }
}
