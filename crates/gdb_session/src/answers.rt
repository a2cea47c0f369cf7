//! Answers to requests that leave the session as it is.

ghost use Rattle.std.specs.Prelude.{◌≡◌, ◌++◌, OnOk};
ghost use Rattle.gdb_session.specs.Answers as spec;
ghost use Rattle.gdb_session.specs.Sessions.{hart_of};

use crate::memories::push_memory;
use crate::registers::{push_register, push_registers};
use crate::sessions::GdbSession;
use crate::stops::{Stop, StopReason};
use crate::telling::{push_description_piece, push_hart, push_map_piece};
use crate::texts::{
    push_actions, push_attached, push_current, push_features, push_last, push_ok, push_refused,
    push_stop, push_threads,
};
use gdb_packets::{Request, Thread};
use std::alloc::{AllocError, Global};

impl GdbSession {
    /// Appends the answer to a request that leaves the session as it is.
    pub(crate) fn tell(
        &self,
        alloc: Global,
        request: Request,
        out: &mut Vec<u8>,
    ) -> Result<(), AllocError>
        ensures { OnOk result (out.new.items ≡ out.old.items ++ spec.told self.now request) }
    {
        let session = &self.session;
        match request {
            Request::Registers => push_registers(out, session.machine(), self.focus),
            Request::Register(number) => {
                push_register(out, session.machine(), self.focus, number)
            }
            Request::Memory(address, count) => push_memory(out, session, address, count),
            Request::TargetDescription(offset, count) => {
                push_description_piece(out, alloc, offset, count)
            }
            Request::MemoryMap(offset, count) => {
                push_map_piece(out, alloc, session, offset, count)
            }
            Request::ThreadInfo(thread) => self.tell_info(alloc, thread, out),
            _ => self.tell_short(request, out),
        }
    }

    /// Appends an answer of a few bytes.
    fn tell_short(&self, request: Request, out: &mut Vec<u8>) -> Result<(), AllocError>
        ensures { OnOk result (out.new.items ≡ out.old.items ++ spec.told_short self.now request) }
    {
        // What this ensures says that there are no more than 8 harts.
        let harts = self.session.log().harts();
        match request {
            Request::WhyStopped => self.tell_here(out),
            Request::IsAlive(thread) => self.tell_alive(thread, out),
            Request::Actions => push_actions(out),
            Request::Supported => push_features(out),
            Request::FirstThreads => push_threads(out, harts),
            Request::MoreThreads => push_last(out),
            Request::CurrentThread => push_current(out, self.focus),
            Request::IsAttached => push_attached(out),
            Request::NoAcknowledgments | Request::Detach | Request::KillProcess => push_ok(out),
            Request::OtherAnnex | Request::Refused => push_refused(out),
            _ => Ok(()),
        }
    }

    /// `?`
    fn tell_here(&self, out: &mut Vec<u8>) -> Result<(), AllocError>
        ensures { OnOk result (out.new.items ≡ out.old.items ++ spec.here_text self.now) }
    {
        // What this ensures says that there are no more than 8 harts.
        let _harts = self.session.log().harts();
        let stop = Stop {
            reason: StopReason::Stepped,
            hart: self.focus,
        };
        push_stop(out, stop)
    }

    /// `T`
    fn tell_alive(&self, thread: Thread, out: &mut Vec<u8>) -> Result<(), AllocError>
        ensures { OnOk result (out.new.items ≡ out.old.items ++ spec.alive_text (hart_of self.now thread)) }
    {
        match self.hart_of(thread) {
            Some(_) => push_ok(out),
            None => push_refused(out),
        }
    }

    /// `qThreadExtraInfo`
    fn tell_info(&self, alloc: Global, thread: Thread, out: &mut Vec<u8>) -> Result<(), AllocError>
        ensures { OnOk result (out.new.items ≡ out.old.items ++ spec.info_text self.now (hart_of self.now thread)) }
    {
        match self.hart_of(thread) {
            Some(hart) => push_hart(out, alloc, &self.session, hart),
            None => push_refused(out),
        }
    }
}
