//! Calls that want memory, each made again where it is refused; the test of them.
//!
//! The commands of the program end at the first refusal, and some of these calls they don't make. A function that makes
//! calls answers by an [`Answer`]. Where one is refused, it looks at what was lent if the call's contract says what
//! that is then, and the same is done once more. What is refused twice ends the test, which can't come of one
//! allocation that is refused alone.

use crate::machines::{counter, turns};
use crate::wanting_logs::{check_logs, check_sessions};
use crate::wanting_machines::{images, machines, stores};
use crate::wanting_shared_machines::check_shared;
use crate::wanting_texts::check_lines;
use crate::wanting_threads::check_driven;
use std::alloc::AllocError;
use std::process::Abort;
use std::test::Fail;

/// How often calls are made where values have to be made for them anew.
pub const TRIES: u32 = 2;

/// Whether calls answered rightly, or that one of them was refused memory and left all as it was.
pub type Answer = Result<bool, AllocError>;

/// Whether calls were answered, which is rightly; else memory was refused.
pub fn is_answered<R: Abort>(rt: &R, answer: Answer) -> bool {
    match answer {
        Ok(is_right) => {
            assert!(rt; is_right);
            true
        }
        Err(AllocError) => false,
    }
}

/// The end of the test where a call was refused memory once more.
pub fn refused_again() -> Fail {
    Fail::new("refused again")
}

/// The calls of machines and images, and of what tells where they store.
fn check_machines<R: Abort + AllocGlobal>(rt: &R) -> Result<(), Fail> {
    let alloc = rt.alloc();
    let image = counter(alloc)?;
    let log = turns(alloc)?;
    let mut out = [0x23].to_vec(alloc)?;
    let machines_answer = is_answered(rt, machines(alloc)) || is_answered(rt, machines(alloc));
    let images_answer = is_answered(rt, images(alloc, &image, &mut out))
        || is_answered(rt, images(alloc, &image, &mut out));
    let stores_answer = is_answered(rt, stores(alloc, &image, &log))
        || is_answered(rt, stores(alloc, &image, &log));
    if machines_answer && images_answer && stores_answer {
        Ok(())
    } else {
        Err(refused_again())
    }
}

/// Each call answers rightly or by want of memory, and then so once more.
#[test]
fn want_of_memory_is_answered(rt: HostRuntime) -> Result<(), Fail> {
    check_machines(&rt)?;
    check_logs(&rt)?;
    check_sessions(&rt)?;
    check_lines(&rt)?;
    check_shared(&rt)?;
    check_driven(&rt, false)?;
    check_driven(&rt, true)
}
