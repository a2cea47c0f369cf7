//! Logs of turns, and sessions over them.

use crate::machines::{TURNS, WORD, counter, turns};
use crate::wanting::{Answer, is_answered, refused_again};
use debugger::{Session, SessionRefusal};
use loader::Image;
use std::alloc::{AllocError, Global};
use std::process::Abort;
use std::test::Fail;
use turn_log::TurnLog;

/// Where hart 1 adds in its eighth turn of the log.
const ADDS: u32 = 0x0001_0008;

/// How many turns a log has at most to which turns are added.
const FEW: u64 = 100;

/// Turns are added to a log, one alone or a run; where they aren't, it is as it was.
fn push(log: &mut TurnLog, hart: usize, run: u64) -> Answer {
    let (length, count) = (log.len(), log.count_of(hart));
    if hart >= log.harts() || length > FEW || count > FEW || run < 1 || run > FEW {
        return Ok(false);
    }
    let pushed = if run == 1 {
        log.push(hart)
    } else {
        log.push_run(hart, run)
    };
    let made = if pushed.is_ok() { run } else { 0 };
    if log.len() != length + made || log.count_of(hart) != count + made {
        return Ok(false);
    }
    pushed?;
    Ok(true)
}

/// A log is written where nothing is; where it isn't, nothing is.
fn write(log: &TurnLog, out: &mut Vec<u8>) -> Answer {
    if log.write(out).is_ok() {
        Ok(out.as_slice() == TURNS.as_slice())
    } else if out.is_empty() {
        Err(AllocError)
    } else {
        Ok(false)
    }
}

/// The calls of logs. One grows, for which it takes memory several times.
pub fn check_logs<R: Abort + AllocGlobal>(rt: &R) -> Result<(), Fail> {
    let mut log = TurnLog::new(rt.alloc(), 2);
    for run in 1..10 {
        let hart = (run % 2) as usize;
        if !is_answered(rt, push(&mut log, hart, run))
            && !is_answered(rt, push(&mut log, hart, run))
        {
            return Err(refused_again());
        }
    }
    let log = turns(rt.alloc())?;
    let mut out = Vec::new(rt.alloc());
    if is_answered(rt, write(&log, &mut out)) || is_answered(rt, write(&log, &mut out)) {
        Ok(())
    } else {
        Err(refused_again())
    }
}

/// A session is opened at the start of a log.
fn open(alloc: Global, image: Image, log: TurnLog) -> Answer {
    let session = Session::open(alloc, image, log)?;
    Ok(session.place() == 0 && session.length() == 11)
}

/// From the start the word is watched; where it isn't, no mark stops.
fn watch(alloc: Global, session: &mut Session) -> Answer {
    let watched = session.set_watch(WORD);
    let went = session.forward(alloc);
    match watched {
        Ok(()) => Ok(went.is_ok() && session.place() == 3),
        Err(SessionRefusal::OutOfMemory) if session.place() == 0 => Err(AllocError),
        Err(_) => Ok(false),
    }
}

/// From the watch's first stop a break is set; where it isn't, the watch stops after it.
fn set_break(alloc: Global, session: &mut Session) -> Answer {
    let set = session.set_break(ADDS);
    let went = session.forward(alloc);
    match set {
        Ok(()) => Ok(went.is_ok() && session.place() == 7),
        Err(SessionRefusal::OutOfMemory) if session.place() == 8 => {
            let _ = session.reverse(alloc);
            Err(AllocError)
        }
        Err(_) => Ok(false),
    }
}

/// The calls of sessions.
pub fn check_sessions<R: Abort + AllocGlobal>(rt: &R) -> Result<(), Fail> {
    let alloc = rt.alloc();
    if !is_answered(rt, open(alloc, counter(alloc)?, turns(alloc)?))
        && !is_answered(rt, open(alloc, counter(alloc)?, turns(alloc)?))
    {
        return Err(refused_again());
    }
    let mut session = Session::open(alloc, counter(alloc)?, turns(alloc)?)?;
    if !is_answered(rt, watch(alloc, &mut session))
        && !is_answered(rt, watch(alloc, &mut session))
    {
        return Err(refused_again());
    }
    if is_answered(rt, set_break(alloc, &mut session))
        || is_answered(rt, set_break(alloc, &mut session))
    {
        Ok(())
    } else {
        Err(refused_again())
    }
}
