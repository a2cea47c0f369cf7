//! Atomic additions: RISC-V Unprivileged ISA 20191213, section 8.4 "Atomic Memory Operations".

ghost use Rattle.std.specs.Prelude.{◌≡◌, ◌+◌, ◌%◌, ◌^◌, IfOk, IfErr, OnErr, OnOk, Some, None, length};
ghost use Rattle.memory.specs.Access.{fault_of, Updates, Word, number_in, put_number};

use memory::{Bytes, read_for_amo, write_u32};
use rv_insn::Trap;

/// Adds a number to the word of data at an address, modulo 2^32, and answers the word that was there before. Refused,
/// with nothing written, as a store of a word is: by trap 6 where the address is no multiple of 4, else by trap 7 where
/// a byte isn't data.
#[inline(always)]
pub fn add_to_word<M: Bytes>(memory: &mut M, address: u32, addend: u32) -> Result<u32, Trap>
    ensures fits { OnOk result (fault_of (length (M.text memory.old)) (length (M.memory memory.old)) Updates address 4
        ≡ None) }
    ensures before { IfOk result (λ before. before
        ≡ number_in (M.text memory.old) (M.memory memory.old) Word address) }
    ensures put { IfOk result (λ before. M.memory memory.new
        ≡ put_number (M.memory memory.old) Word address ((before + addend) % 2 ^ 32)) }
    ensures err { IfErr result (λ trap. fault_of (length (M.text memory.old)) (length (M.memory memory.old)) Updates
        address 4 ≡ Some trap) }
    ensures unchanged { OnErr result (M.memory memory.new ≡ M.memory memory.old) }
    ensures text { M.text memory.new ≡ M.text memory.old }
{
    let before = read_for_amo(memory, address)?;
    write_u32(memory, address, before.wrapping_add(addend))?;
    Ok(before)
}
