//! Answers to requests that change the session.

ghost use Rattle.std.specs.Prelude.{◌≡◌, ◌≢◌, ◌⊎◌, ◌++◌, ◌<◌, ℕ, OnOk, OnErr, IfSome, Some, drop, unwrap_or};
ghost use Rattle.debugger.specs.Marks.{with_break, with_watch};
ghost use Rattle.gdb_session.specs.Answers as spec;
ghost use Rattle.gdb_session.specs.Going as spec_going;
ghost use Rattle.gdb_session.specs.Going.{arrived, arrived_if, gone, stop_if};
ghost use Rattle.gdb_session.specs.Monitor.{place_in};
ghost use Rattle.gdb_session.specs.Sessions.{hart_of, if_hart};
ghost use Rattle.gdb_session.specs.Texts.{refused};

use crate::going::{go_back, go_on, go_to, step, step_back};
use crate::monitor::place_in;
use crate::sessions::GdbSession;
use crate::stops::Stop;
use crate::texts::{push_done, push_no_place, push_ok, push_refused, push_stop, push_unknown};
use debugger::SessionRefusal;
use gdb_packets::{Action, MarkKind, Thread, monitor_digits};
use std::alloc::{AllocError, Global};

impl GdbSession {
    /// The hart of a thread.
    pub(crate) fn hart_of(&self, thread: Thread) -> Option<usize>
        ensures hart { result ≡ hart_of self.now thread }
        ensures there { IfSome result (λ hart. hart < self.now.session.log.harts) }
    {
        match thread {
            Thread::Any | Thread::All => Some(self.focus),
            Thread::One(number) => self.numbered(number),
        }
    }

    /// The hart of a thread's number.
    fn numbered(&self, number: u32) -> Option<usize>
        ensures hart { result ≡ if_hart self.now.session.log.harts number }
        ensures there { IfSome result (λ hart. hart < self.now.session.log.harts) }
    {
        if number == 0 {
            return None;
        }
        let hart = (number - 1) as usize;
        if hart < self.session.harts() {
            Some(hart)
        } else {
            None
        }
    }

    /// `vCont`, `bs` and `bc`
    pub(crate) fn answer_going(
        &mut self,
        alloc: Global,
        action: Action,
        out: &mut Vec<u8>,
    ) -> Result<(), AllocError>
        ensures text { OnOk result (out.new.items ≡ out.old.items ++ (spec.went self.old (gone self.old action)).text) }
        ensures next { self.new ≡ (spec.went self.old (gone self.old action)).next }
    {
        // What this ensures says that there are no more than 8 harts.
        let _harts = self.session.log().harts();
        match self.go(alloc, action) {
            Some(stop) => push_stop(out, stop),
            None => push_refused(out),
        }
    }

    /// Goes on, and says where the run stops; nowhere where there is no such hart.
    fn go(&mut self, alloc: Global, action: Action) -> Option<Stop>
        ensures next { self.new ≡ arrived_if self.old (gone self.old action) }
        ensures stop { result ≡ stop_if (gone self.old action) }
        ensures there { IfSome result (λ stop. stop.hart < self.old.session.log.harts) }
    {
        match action {
            Action::Step(thread) => {
                let hart = self.hart_of(thread)?;
                Some(self.step(alloc, hart))
            }
            Action::Continue(thread) => {
                self.hart_of(thread)?;
                Some(self.go_on(alloc))
            }
            Action::StepBack => Some(self.step_back(alloc)),
            Action::ContinueBack => Some(self.go_back(alloc)),
        }
    }

    fn step(&mut self, alloc: Global, hart: usize) -> Stop
        requires { hart < self.old.session.log.harts }
        ensures next { self.new ≡ arrived self.old (spec_going.step self.old.session hart) }
        ensures stop { result ≡ (spec_going.step self.old.session hart).stop }
        ensures there { result.hart < self.old.session.log.harts }
    {
        let stop = step(&mut self.session, alloc, hart);
        self.focus = stop.hart;
        stop
    }

    fn step_back(&mut self, alloc: Global) -> Stop
        ensures next { self.new
            ≡ arrived self.old (spec_going.step_back self.old.session (unwrap_or self.old.stepping self.old.focus)) }
        ensures stop { result ≡ (spec_going.step_back self.old.session (unwrap_or self.old.stepping self.old.focus)).stop }
        ensures there { result.hart < self.old.session.log.harts }
    {
        let hart = match self.stepping {
            Some(hart) => hart,
            None => self.focus,
        };
        let stop = step_back(&mut self.session, alloc, hart);
        self.focus = stop.hart;
        stop
    }

    fn go_on(&mut self, alloc: Global) -> Stop
        ensures next { self.new ≡ arrived self.old (spec_going.continue self.old.session self.old.focus) }
        ensures stop { result ≡ (spec_going.continue self.old.session self.old.focus).stop }
        ensures there { result.hart < self.old.session.log.harts }
    {
        let stop = go_on(&mut self.session, alloc, self.focus);
        self.focus = stop.hart;
        stop
    }

    fn go_back(&mut self, alloc: Global) -> Stop
        ensures next { self.new ≡ arrived self.old (spec_going.continue_back self.old.session self.old.focus) }
        ensures stop { result ≡ (spec_going.continue_back self.old.session self.old.focus).stop }
        ensures there { result.hart < self.old.session.log.harts }
    {
        let stop = go_back(&mut self.session, alloc, self.focus);
        self.focus = stop.hart;
        stop
    }

    /// `qRcmd`
    pub(crate) fn answer_monitor(
        &mut self,
        alloc: Global,
        payload: &[u8],
        out: &mut Vec<u8>,
    ) -> Result<(), AllocError>
        ensures text { OnOk result (out.new.items ≡ out.old.items
            ++ (spec.monitored self.old (place_in (drop 6 payload.now))).text) }
        ensures next { self.new ≡ (spec.monitored self.old (place_in (drop 6 payload.now))).next }
    {
        match place_in(monitor_digits(payload)) {
            Some(place) => self.go_to(alloc, place, out),
            None => push_unknown(out),
        }
    }

    fn go_to(&mut self, alloc: Global, place: u64, out: &mut Vec<u8>) -> Result<(), AllocError>
        ensures text { OnOk result (out.new.items ≡ out.old.items ++ (spec.monitored self.old (Some place)).text) }
        ensures next { self.new ≡ (spec.monitored self.old (Some place)).next }
    {
        if place > self.session.length() {
            return push_no_place(out);
        }
        go_to(&mut self.session, alloc, place);
        push_done(out)
    }

    /// `Hg`
    pub(crate) fn focus_on(&mut self, thread: Thread, out: &mut Vec<u8>) -> Result<(), AllocError>
        ensures text { OnOk result (out.new.items ≡ out.old.items ++ (spec.focused self.old (hart_of self.old thread)).text) }
        ensures next { self.new ≡ (spec.focused self.old (hart_of self.old thread)).next }
    {
        match self.hart_of(thread) {
            Some(hart) => {
                self.focus = hart;
                push_ok(out)
            }
            None => push_refused(out),
        }
    }

    /// `Hc`
    pub(crate) fn focus_steps_on(
        &mut self,
        thread: Thread,
        out: &mut Vec<u8>,
    ) -> Result<(), AllocError>
        ensures text { OnOk result (out.new.items ≡ out.old.items ++ (spec.focused_for_steps self.old thread).text) }
        ensures next { self.new ≡ (spec.focused_for_steps self.old thread).next }
    {
        match thread {
            Thread::Any | Thread::All => {
                self.stepping = None;
                push_ok(out)
            }
            Thread::One(number) => self.focus_steps_on_one(number, out),
        }
    }

    /// `Hc` of one thread.
    fn focus_steps_on_one(&mut self, number: u32, out: &mut Vec<u8>) -> Result<(), AllocError>
        ensures text { OnOk result (out.new.items ≡ out.old.items
            ++ (spec.stepping_with self.old (if_hart self.old.session.log.harts number)).text) }
        ensures next { self.new ≡ (spec.stepping_with self.old (if_hart self.old.session.log.harts number)).next }
    {
        match self.numbered(number) {
            Some(hart) => {
                self.stepping = Some(hart);
                push_ok(out)
            }
            None => push_refused(out),
        }
    }

    /// `Z`
    pub(crate) fn set_mark(
        &mut self,
        kind: MarkKind,
        address: u32,
        count: u32,
        out: &mut Vec<u8>,
    ) -> Result<(), AllocError>
        ensures text { OnOk result (out.new.items ≡ out.old.items ++ (spec.with_mark self.old kind address count).text) }
        ensures next { OnOk result (self.new ≡ (spec.with_mark self.old kind address count).next) }
        ensures err { OnErr result ((self.new ≡ self.old) ⊎ (self.new
            ≡ (spec.with_mark self.old kind address count).next)) }
    {
        match kind {
            MarkKind::SoftwareBreak | MarkKind::HardwareBreak => self.set_break(address, out),
            MarkKind::Write if count == 4 => self.set_watch(address, out),
            MarkKind::Write => push_refused(out),
            MarkKind::Read | MarkKind::Access => Ok(()),
        }
    }

    fn set_break(&mut self, address: u32, out: &mut Vec<u8>) -> Result<(), AllocError>
        ensures text { OnOk result (out.new.items ≡ out.old.items
            ++ (spec.marked self.old (with_break self.old.session address)).text) }
        ensures next { OnOk result (self.new ≡ (spec.marked self.old (with_break self.old.session address)).next) }
        ensures err { OnErr result ((self.new ≡ self.old) ⊎ (self.new
            ≡ (spec.marked self.old (with_break self.old.session address)).next)) }
    {
        match self.session.set_break(address) {
            Ok(()) => push_ok(out),
            Err(refusal) => push_refusal(out, refusal),
        }
    }

    fn set_watch(&mut self, address: u32, out: &mut Vec<u8>) -> Result<(), AllocError>
        ensures text { OnOk result (out.new.items ≡ out.old.items
            ++ (spec.marked self.old (with_watch self.old.session address)).text) }
        ensures next { OnOk result (self.new ≡ (spec.marked self.old (with_watch self.old.session address)).next) }
        ensures err { OnErr result ((self.new ≡ self.old) ⊎ (self.new
            ≡ (spec.marked self.old (with_watch self.old.session address)).next)) }
    {
        match self.session.set_watch(address) {
            Ok(()) => push_ok(out),
            Err(refusal) => push_refusal(out, refusal),
        }
    }

    /// `z`
    pub(crate) fn clear_mark(
        &mut self,
        kind: MarkKind,
        address: u32,
        count: u32,
        out: &mut Vec<u8>,
    ) -> Result<(), AllocError>
        ensures text { OnOk result (out.new.items ≡ out.old.items ++ (spec.without_mark self.old kind address count).text) }
        ensures next { self.new ≡ (spec.without_mark self.old kind address count).next }
    {
        match kind {
            MarkKind::SoftwareBreak | MarkKind::HardwareBreak => {
                self.session.clear_break(address);
                push_ok(out)
            }
            MarkKind::Write if count == 4 => {
                self.session.clear_watch(address);
                push_ok(out)
            }
            MarkKind::Write => push_refused(out),
            MarkKind::Read | MarkKind::Access => Ok(()),
        }
    }
}

/// A mark is refused. A lack of memory is one here too.
fn push_refusal(out: &mut Vec<u8>, refusal: SessionRefusal) -> Result<(), AllocError>
    ensures text { OnOk result (out.new.items ≡ out.old.items ++ refused) }
    ensures known { OnOk result (refusal ≢ SessionRefusal.OutOfMemory) }
{
    match refusal {
        SessionRefusal::OutOfMemory => Err(AllocError),
        _ => push_refused(out),
    }
}
