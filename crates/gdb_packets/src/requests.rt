//! What gdb asks for.

/// Which harts an action or a question is about.
#[derive(Clone, Copy, Debug, PartialEq, Eq)]
pub enum Thread {
    /// `0`: any one.
    Any,
    /// `-1`, or no number.
    All,
    /// The thread with this number, from 1.
    One(u32),
}

/// How a run goes on.
#[derive(Clone, Copy, Debug, PartialEq, Eq)]
pub enum Action {
    /// Forwards by one turn of a thread.
    Step(Thread),
    /// Forwards to the next stop.
    Continue(Thread),
    /// Backwards by one turn.
    StepBack,
    /// Backwards to the last stop.
    ContinueBack,
}

/// What a mark stops at.
#[derive(Clone, Copy, Debug, PartialEq, Eq)]
pub enum MarkKind {
    SoftwareBreak,
    HardwareBreak,
    Write,
    Read,
    Access,
}

/// What a packet asks for. Numbers are below 2^32.
#[derive(Clone, Copy, Debug, PartialEq, Eq)]
pub enum Request {
    /// `?`
    WhyStopped,
    /// `g`
    Registers,
    /// `p N`
    Register(u32),
    /// `m A,N`: an address and a number of bytes.
    Memory(u32, u32),
    /// `Hg T`: which thread registers are asked of.
    FocusForState(Thread),
    /// `Hc T`: which thread steps.
    FocusForSteps(Thread),
    /// `T T`
    IsAlive(Thread),
    /// `vCont?`
    Actions,
    /// `vCont;..`, `bs` or `bc`
    Go(Action),
    /// `Z K,A,N`: a kind, an address and a length.
    SetMark(MarkKind, u32, u32),
    /// `z K,A,N`
    ClearMark(MarkKind, u32, u32),
    /// `qSupported`
    Supported,
    /// `qXfer:features:read:target.xml:O,N`: N bytes from byte O on.
    TargetDescription(u32, u32),
    /// `qXfer:features:read:..` of another file.
    OtherAnnex,
    /// `qXfer:memory-map:read::O,N`
    MemoryMap(u32, u32),
    /// `qfThreadInfo`
    FirstThreads,
    /// `qsThreadInfo`
    MoreThreads,
    /// `qThreadExtraInfo,T`
    ThreadInfo(Thread),
    /// `qC`
    CurrentThread,
    /// `qAttached`
    IsAttached,
    /// `qRcmd,..`: what follows are the digits of a line.
    Monitor,
    /// `QStartNoAckMode`
    NoAcknowledgments,
    /// `D`
    Detach,
    /// `k`, which has no answer.
    Kill,
    /// `vKill;..`, which has one.
    KillProcess,
    /// A write to registers or memory, or what isn't of the form that its name has.
    Refused,
    /// Any other.
    Unknown,
}
