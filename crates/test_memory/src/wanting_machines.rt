//! Machines, copies of what turns change, images, and where turns store.

use crate::machines::{COUNTER, WORD};
use crate::wanting::Answer;
use debugger_blame::{MarkedRange, Marking, last_write, mark_words};
use debugger_writes::{changed_pages, stores_of};
use hart_core::Meaning;
use loader::{Image, LoadFault, load, store};
use multi_hart::{Machine, Snapshot};
use std::alloc::{AllocError, Global};
use turn_log::TurnLog;

/// Where the text begins.
const ENTRY: u32 = 0x0001_0000;

/// The text of the counter.
const TEXT: [u32; 4] = [0x0020_02b7, 0x0010_0313, 0x0062_a3af, 0x0000_0073];

/// One byte, and then the image of the counter in the second format, whose data is left out since it is 0.
const STORED: [u8; 53] = [
    0x23, 0x48, 0x52, 0x56, 0x32, 0x00, 0x00, 0x01, 0x00, 0x04, 0x00, 0x00, 0x00, 0x04, 0x00, 0x00,
    0x00, 0x00, 0x00, 0x20, 0x00, 0x01, 0x00, 0x00, 0x00, 0x01, 0x00, 0x00, 0x00, 0x04, 0x00, 0x00,
    0x00, 0x00, 0x00, 0x00, 0x00, 0xb7, 0x02, 0x20, 0x00, 0x13, 0x03, 0x10, 0x00, 0xaf, 0xa3, 0x62,
    0x00, 0x73, 0x00, 0x00, 0x00,
];

/// A machine is made; snapshot and harts are copied, and put it back after turns.
pub fn machines(alloc: Global) -> Answer {
    let words = TEXT.to_vec(alloc)?;
    let bytes = [0; 4].to_vec(alloc)?;
    let mut machine = Machine::new(alloc, ENTRY, words, bytes, 2)?;
    let snapshot = Snapshot::of(alloc, &machine)?;
    let harts = machine.copy_harts(alloc)?;
    let ran = machine.run(&[0, 0, 0, 1]);
    let counted = machine.word(WORD);
    machine.set_harts(&harts);
    let kept = (machine.pc(0), machine.word(WORD));
    snapshot.restore(&mut machine);
    let is_back = (machine.pc(0), machine.word(WORD)) == (ENTRY, Some(0));
    Ok(ran.is_ok() && counted == Some(1) && kept == (ENTRY, Some(1)) && is_back)
}

/// Bytes are loaded, and not with nine harts; an image makes a machine, words have meanings, and the image is stored
/// after a byte, which alone is there where it isn't.
pub fn images(alloc: Global, image: &Image, out: &mut Vec<u8>) -> Answer {
    let loaded = match load(alloc, &COUNTER, 2) {
        Err(LoadFault::OutOfMemory) => return Err(AllocError),
        Err(_) => None,
        Ok(machine) => machine.word(WORD),
    };
    let fault = match load(alloc, &COUNTER, 9) {
        Err(LoadFault::OutOfMemory) => return Err(AllocError),
        answer => answer.err(),
    };
    let machine = image.machine(alloc, 2)?;
    let meanings = Meaning::of_words(alloc, &[TEXT[0], 0xffff_ffff])?;
    let are_meant = matches!(meanings.as_slice(), [Meaning::Lui { .. }, Meaning::Nothing]);
    if store(image, out).is_err() {
        return if out.len() == 1 {
            Err(AllocError)
        } else {
            Ok(false)
        };
    }
    let is_stored = out.as_slice() == STORED.as_slice();
    let is_loaded = loaded == Some(0) && fault == Some(LoadFault::HartCount);
    Ok(is_loaded && machine.word(WORD) == Some(0) && are_meant && is_stored)
}

/// The third word stores; of two pages of data the second, of four bytes, is copied; the eighth turn of the log, of
/// hart 1, wrote the word last, which is marked with it.
pub fn stores(alloc: Global, image: &Image, log: &TurnLog) -> Answer {
    if log.harts() != 2 {
        return Ok(false);
    }
    let insns = stores_of(alloc, image.words())?;
    let is_third = matches!(insns.as_slice(), [None, None, Some(_), None]);
    let pages = changed_pages(alloc, &[7; 4100], &[false, true])?;
    let is_second = match pages.as_slice() {
        [page] => page.number == 1 && page.bytes.as_slice() == [7; 4].as_slice(),
        _ => false,
    };
    let mut machine = image.machine(alloc, 2)?;
    let last = last_write(alloc, &mut machine, image.words(), log, WORD)?;
    let is_last = match last {
        Some(write) => (write.turn, write.hart, write.before, write.after) == (7, 1, 1, 2),
        None => false,
    };
    let mut machine = image.machine(alloc, 2)?;
    let range = MarkedRange {
        first: WORD,
        count: 1,
        marking: Marking::Turns,
    };
    let marks = mark_words(alloc, &mut machine, image.words(), log, range)?;
    Ok(is_third && is_second && is_last && marks.as_slice() == [7].as_slice())
}
