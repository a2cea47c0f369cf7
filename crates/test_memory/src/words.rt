//! Words from instructions, instructions from words, and numbers in memory.

use crate::comparing::same;
use memory::{Memory, read_for_amo, read_u8, read_u16, read_u32, write_u8, write_u16, write_u32};
use rv_encoding::{decode, encode};
use rv_insn::Trap;
use std::process::Abort;

/// A word means an instruction that has this word, or none.
pub fn check_words<R: Abort>(rt: &R) {
    for word in [0x0010_0313, 0x0062_a3af, 0x0220_a1d7] {
        match decode(word) {
            Some(insn) => same(rt, &encode(&insn), &word),
            None => assert!(rt; false, "{word:08x}"),
        }
    }
    assert!(rt; decode(0xffff_ffff).is_none());
}

/// Four bytes of data, written and read as numbers of each size.
pub fn check_memory<R: Abort>(rt: &R, memory: &mut Memory) {
    same(rt, &write_u32(memory, 0x0020_0000, 0x8765_4321), &Ok(()));
    same(rt, &write_u16(memory, 0x0020_0002, 0xabcd), &Ok(()));
    same(rt, &write_u8(memory, 0x0020_0000, 7), &Ok(()));
    same(rt, &read_u8(memory, 0x0020_0000), &Ok(7));
    same(rt, &read_u16(memory, 0x0020_0002), &Ok(0xabcd));
    same(rt, &read_u32(memory, 0x0020_0000), &Ok(0xabcd_4307));
    same(rt, &read_for_amo(memory, 0x0020_0000), &Ok(0xabcd_4307));
    same(
        rt,
        &write_u32(memory, 0x0020_0004, 1),
        &Err(Trap::StoreOutside),
    );
    same(
        rt,
        &write_u16(memory, 0x0020_0001, 1),
        &Err(Trap::StoreMisaligned),
    );
    same(
        rt,
        &write_u8(memory, 0x0001_0000, 1),
        &Err(Trap::StoreOutside),
    );
    same(
        rt,
        &read_u32(memory, 0x0020_0002),
        &Err(Trap::LoadMisaligned),
    );
    same(rt, &read_u16(memory, 0x0020_0004), &Err(Trap::LoadOutside));
    same(rt, &read_u8(memory, 0), &Err(Trap::LoadOutside));
}
