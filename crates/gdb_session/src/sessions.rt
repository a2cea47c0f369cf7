//! The session, and its answers.

ghost use Rattle.std.specs.Prelude.{◌≡◌, ◌≢◌, ◌⊎◌, ◌++◌, ℕ, OnOk, OnErr};
ghost use Rattle.gdb_session.specs.Answers as spec;
ghost use Rattle.gdb_session.specs.Sessions.{begun};

use debugger::Session;
use gdb_packets::{Request, read_request};
use std::alloc::{AllocError, Global};
use std::marker::Model;

/// A session over an image and a log, with the harts that gdb looks at and steps. A contract sees it as a `GdbState`.
pub struct GdbSession {
    pub(crate) session: Session,
    pub(crate) focus: usize,
    pub(crate) stepping: Option<usize>,
}

impl Model for GdbSession {
    ghost use Rattle.std.specs.Prelude.{◌<◌, IfSome};
    ghost use Rattle.gdb_session.specs.Sessions.{GdbState};

    ghost Value = { GdbState };

    ghost view = { λ s. record { session = s.session.state; focus = s.focus; stepping = s.stepping } };

    ghost invariant = { λ s. (s.focus < s.session.state.log.harts)
        × IfSome s.stepping (λ hart. hart < s.session.state.log.harts) };
}

impl Drop for GdbSession {
    fn drop(self) {
        let GdbSession {
            session,
            focus: _,
            stepping: _,
        } = self;
        drop(session);
    }
}

impl GdbSession {
    /// A session of which gdb has asked nothing.
    pub fn new(session: Session) -> GdbSession
        ensures { result ≡ begun session.state }
    {
        // What this ensures says that there is a hart.
        let _harts = session.log().harts();
        GdbSession {
            session,
            focus: 0,
            stepping: None,
        }
    }

    /// Appends the answer to a packet's payload. Where memory is short the session is as it was, or as it is after the
    /// answer.
    #[tactic(auto, unfolding(crate::specs::Answers::answer))]
    pub fn answer(
        &mut self,
        alloc: Global,
        payload: &[u8],
        out: &mut Vec<u8>,
    ) -> Result<(), AllocError>
        ensures text { OnOk result (out.new.items ≡ out.old.items ++ (spec.answer self.old payload.now).text) }
        ensures next { OnOk result (self.new ≡ (spec.answer self.old payload.now).next) }
        ensures err { OnErr result ((self.new ≡ self.old) ⊎ (self.new ≡ (spec.answer self.old payload.now).next)) }
    {
        let request = read_request(payload);
        match request {
            Request::Go(action) => self.answer_going(alloc, action, out),
            Request::FocusForState(thread) => self.focus_on(thread, out),
            Request::FocusForSteps(thread) => self.focus_steps_on(thread, out),
            Request::SetMark(kind, address, count) => self.set_mark(kind, address, count, out),
            Request::ClearMark(kind, address, count) => self.clear_mark(kind, address, count, out),
            Request::Monitor => self.answer_monitor(alloc, payload, out),
            _ => self.tell(alloc, request, out),
        }
    }
}
