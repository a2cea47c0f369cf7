//! Elements of vectors that are stored: judged all, then written.

ghost use Rattle.std.specs.Prelude.{◌≡◌, IfErr, OnErr, OnOk, Some, None, length};
ghost use Rattle.memory.specs.Access.{put};
ghost use Rattle.memory.specs.Access.{fault_of, first_fault, bytes_in, Writes, put_number};
ghost use Rattle.memory.specs.Access.{spread, touched};
ghost use Rattle.memory_accesses.specs.Elements.{accesses_at, size_of};

use memory::{Bytes, check_store, write_u8, write_u16, write_u32};
use rv_insn::{ElementWidth, Trap};

/// How many bytes a number of a width has.
pub fn bytes_of(width: ElementWidth) -> u32
    ensures { result ≡ bytes_in (size_of width) }
{
    match width {
        ElementWidth::Bits8 => 1,
        ElementWidth::Bits16 => 2,
        ElementWidth::Bits32 => 4,
    }
}

/// Puts the low bits of a number at an address that a store of its width may touch.
fn write_number<M: Bytes>(width: ElementWidth, memory: &mut M, address: u32, number: u32)
    requires { fault_of (length (M.text memory.old)) (length (M.memory memory.old)) Writes address
        (bytes_in (size_of width)) ≡ None }
    ensures put { M.memory memory.new ≡ put_number (M.memory memory.old) (size_of width) address number }
    ensures text { M.text memory.new ≡ M.text memory.old }
{
    match width {
        ElementWidth::Bits8 => write_u8(memory, address, (number & 0xff) as u8).unwrap(),
        ElementWidth::Bits16 => write_u16(memory, address, (number & 0xffff) as u16).unwrap(),
        ElementWidth::Bits32 => write_u32(memory, address, number).unwrap(),
    }
}

/// Whether numbers of a width may be stored at addresses: the trap of the first that can't.
#[inline(always)]
fn check_stores<M: Bytes>(width: ElementWidth, memory: &M, addresses: &[u32]) -> Result<(), Trap>
    ensures fits { OnOk result (first_fault (length (M.text memory.now)) (length (M.memory memory.now)) Writes
        (accesses_at width addresses.now) ≡ None) }
    ensures err { IfErr result (λ trap. first_fault (length (M.text memory.now)) (length (M.memory memory.now)) Writes
        (accesses_at width addresses.now) ≡ Some trap) }
{
    let mut rest = addresses;
    while let [address, others @ ..] = rest {
        check_store(memory, *address, bytes_of(width))?;
        rest = others;
    }
    Ok(())
}

/// Puts the low bits of numbers at addresses that stores of their width may touch, one after the other, as far as there
/// are both.
#[tactic(auto, using(crate::proofs::Puts::nothing_put))]
#[inline(always)]
fn write_numbers<M: Bytes>(width: ElementWidth, memory: &mut M, addresses: &[u32], numbers: &[u32])
    requires fits { first_fault (length (M.text memory.old)) (length (M.memory memory.old)) Writes
        (accesses_at width addresses.now) ≡ None }
    ensures put { M.memory memory.new ≡ put (M.memory memory.old) (touched (accesses_at width addresses.now))
        (spread (accesses_at width addresses.now) numbers.now) }
    ensures text { M.text memory.new ≡ M.text memory.old }
{
    let mut addresses = addresses;
    let mut numbers = numbers;
    while let [address, more_addresses @ ..] = addresses {
        let [number, more_numbers @ ..] = numbers else {
            return;
        };
        write_number(width, memory, *address, *number);
        addresses = more_addresses;
        numbers = more_numbers;
    }
}

/// Puts the low bits of numbers at addresses, one after the other, as far as there are both; refused, with nothing
/// written, by the trap of the first address that a store of that width may not touch: trap 6 where it is no multiple
/// of the width's bytes, else trap 7 where a byte isn't data.
#[inline(always)]
pub fn store_elements<M: Bytes>(
    width: ElementWidth,
    memory: &mut M,
    addresses: &[u32],
    numbers: &[u32],
) -> Result<(), Trap>
    ensures fits { OnOk result (first_fault (length (M.text memory.old)) (length (M.memory memory.old)) Writes
        (accesses_at width addresses.now) ≡ None) }
    ensures put { OnOk result (M.memory memory.new ≡ put (M.memory memory.old) (touched (accesses_at width
        addresses.now)) (spread (accesses_at width addresses.now) numbers.now)) }
    ensures err { IfErr result (λ trap. first_fault (length (M.text memory.old)) (length (M.memory memory.old)) Writes
        (accesses_at width addresses.now) ≡ Some trap) }
    ensures unchanged { OnErr result (M.memory memory.new ≡ M.memory memory.old) }
    ensures text { M.text memory.new ≡ M.text memory.old }
{
    check_stores(width, memory, addresses)?;
    write_numbers(width, memory, addresses, numbers);
    Ok(())
}
