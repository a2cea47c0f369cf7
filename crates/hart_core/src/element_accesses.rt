//! Loads of vector elements.

ghost use Rattle.std.specs.Prelude.{◌≡◌, ◌≤◌, ◌+◌, ◌++◌, IfOk, IfErr, OnErr, OnOk, Some, None, length, map};
ghost use Rattle.memory.specs.Access.{fault_of, first_fault, bytes_in, Reads, number_at, number_in};
ghost use Rattle.hart_core.specs.VectorRows.{accesses_at, size_of};

use memory::{Bytes, read_u8, read_u16, read_u32};
use rv_insn::{ElementWidth, Trap};
use vector_unit::Numbers;

/// The number of a width at an address, or the trap that its load makes.
fn read_number<M: Bytes>(width: ElementWidth, memory: &M, address: u32) -> Result<u32, Trap>
    ensures fits { OnOk result (fault_of (length (M.text memory.now)) (length (M.memory memory.now)) Reads address
        (bytes_in (size_of width)) ≡ None) }
    ensures number { IfOk result (λ number. number ≡ number_in (M.text memory.now) (M.memory memory.now) (size_of width)
        address) }
    ensures err { IfErr result (λ trap. fault_of (length (M.text memory.now)) (length (M.memory memory.now)) Reads
        address (bytes_in (size_of width)) ≡ Some trap) }
{
    match width {
        ElementWidth::Bits8 => Ok(u32::from(read_u8(memory, address)?)),
        ElementWidth::Bits16 => Ok(u32::from(read_u16(memory, address)?)),
        ElementWidth::Bits32 => read_u32(memory, address),
    }
}

/// The numbers of a width at addresses, or the trap of the first that can't be loaded.
#[inline(always)]
pub fn read_numbers<M: Bytes>(
    width: ElementWidth,
    memory: &M,
    addresses: &[u32],
) -> Result<Numbers, Trap>
    requires { length addresses.now ≤ 64 }
    ensures fits { OnOk result (first_fault (length (M.text memory.now)) (length (M.memory memory.now)) Reads
        (accesses_at width addresses.now) ≡ None) }
    ensures numbers { IfOk result (λ numbers. numbers ≡ map (number_at (M.text memory.now) (M.memory memory.now))
        (accesses_at width addresses.now)) }
    ensures err { IfErr result (λ trap. first_fault (length (M.text memory.now)) (length (M.memory memory.now)) Reads
        (accesses_at width addresses.now) ≡ Some trap) }
{
    let mut numbers = Numbers::new();
    let mut rest = addresses;
    while let [address, others @ ..] = rest {
        numbers.push(read_number(width, memory, *address)?);
        rest = others;
    }
    Ok(numbers)
}
