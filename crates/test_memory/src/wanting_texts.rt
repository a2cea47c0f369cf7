//! Lines of words.

use crate::wanting::{Answer, is_answered, refused_again};
use disassembler::{push_hexadecimal, write_addressed_lines, write_line, write_lines};
use std::alloc::{AllocError, Global};
use std::process::Abort;
use std::test::Fail;

/// The counter's second and third word.
const WORDS: [u32; 2] = [0x0010_0313, 0x0062_a3af];

/// The byte, and the line of one word after it, or of both.
const BYTE: &[u8] = b"#";

const LINE: &[u8] = b"#amoadd.w x7,x6,(x5)\n";

const LINES: &[u8] = b"#addi x6,x0,1\namoadd.w x7,x6,(x5)\n";

/// The lines with their addresses.
const ADDRESSED: &[u8] = b"addi x6,x0,1 # 0x00010004\namoadd.w x7,x6,(x5) # 0x00010008\n";

/// Lines are written after a byte, which alone is there where they aren't.
fn write(out: &mut Vec<u8>, both: bool) -> Answer {
    let (written, wanted) = if both {
        (write_lines(&WORDS, out), LINES)
    } else {
        (write_line(WORDS[1], out), LINE)
    };
    if written.is_ok() {
        Ok(out.as_slice() == wanted)
    } else if out.as_slice() == BYTE {
        Err(AllocError)
    } else {
        Ok(false)
    }
}

/// A number and lines with their addresses are written where nothing is.
fn write_new(alloc: Global) -> Answer {
    let mut number = String::new(alloc);
    push_hexadecimal(&mut number, 8, 0x00ab_cdef)?;
    let mut listing = Vec::new(alloc);
    write_addressed_lines(&WORDS, 0x0001_0004, &mut listing)?;
    Ok(number.as_str() == "0x00abcdef" && listing.as_slice() == ADDRESSED)
}

/// The calls of lines.
pub fn check_lines<R: Abort + AllocGlobal>(rt: &R) -> Result<(), Fail> {
    let alloc = rt.alloc();
    for both in [false, true] {
        let mut out = BYTE.to_vec(alloc)?;
        if !is_answered(rt, write(&mut out, both)) && !is_answered(rt, write(&mut out, both)) {
            return Err(refused_again());
        }
    }
    if is_answered(rt, write_new(alloc)) || is_answered(rt, write_new(alloc)) {
        Ok(())
    } else {
        Err(refused_again())
    }
}
