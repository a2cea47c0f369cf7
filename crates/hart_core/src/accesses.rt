//! Loads and stores of each size.

ghost use Rattle.std.specs.Prelude.{◌≡◌, IfOk, IfErr, OnErr, OnOk, Some, None, length};
ghost use Rattle.memory.specs.Access.{fault_of, bytes_in, Reads, Writes, number_in, put_number};
ghost use Rattle.hart_core.specs.Scalar.{load_size, loaded, store_size, kept};

use memory::{Bytes, read_u8, read_u16, read_u32, write_u8, write_u16, write_u32};
use rv_insn::{LoadOp, StoreOp, Trap};

/// How many bytes a load reads.
#[inline]
pub fn count_of(op: LoadOp) -> u32
    ensures { result ≡ bytes_in (load_size op) }
{
    match op {
        LoadOp::Lb | LoadOp::Lbu => 1,
        LoadOp::Lh | LoadOp::Lhu => 2,
        LoadOp::Lw => 4,
    }
}

/// What a load of an address gives, or the trap that it makes.
#[inline]
pub fn load<M: Bytes>(op: LoadOp, memory: &M, address: u32) -> Result<u32, Trap>
    ensures fits { OnOk result (fault_of (length (M.text memory.now)) (length (M.memory memory.now)) Reads address
        (bytes_in (load_size op)) ≡ None) }
    ensures number { IfOk result (λ number. number
        ≡ loaded op (number_in (M.text memory.now) (M.memory memory.now) (load_size op) address)) }
    ensures err { IfErr result (λ trap. fault_of (length (M.text memory.now)) (length (M.memory memory.now)) Reads
        address (bytes_in (load_size op)) ≡ Some trap) }
{
    match op {
        LoadOp::Lb => {
            let byte = read_u8(memory, address)?;
            Ok(i32::from(byte.cast_signed()).cast_unsigned())
        }
        LoadOp::Lh => {
            let half = read_u16(memory, address)?;
            Ok(i32::from(half.cast_signed()).cast_unsigned())
        }
        LoadOp::Lw => {
            let word = read_u32(memory, address)?;
            Ok(word)
        }
        LoadOp::Lbu => {
            let byte = read_u8(memory, address)?;
            Ok(u32::from(byte))
        }
        LoadOp::Lhu => {
            let half = read_u16(memory, address)?;
            Ok(u32::from(half))
        }
    }
}

/// Puts what a store keeps of a register at an address, or says which trap it makes and changes
/// nothing.
#[inline]
pub fn store<M: Bytes>(op: StoreOp, memory: &mut M, address: u32, value: u32) -> Result<(), Trap>
    ensures fits { OnOk result (fault_of (length (M.text memory.old)) (length (M.memory memory.old)) Writes address
        (bytes_in (store_size op)) ≡ None) }
    ensures put { OnOk result (M.memory memory.new ≡ put_number (M.memory memory.old) (store_size op) address
        (kept op value)) }
    ensures err { IfErr result (λ trap. fault_of (length (M.text memory.old)) (length (M.memory memory.old)) Writes
        address (bytes_in (store_size op)) ≡ Some trap) }
    ensures unchanged { OnErr result (M.memory memory.new ≡ M.memory memory.old) }
    ensures text { M.text memory.new ≡ M.text memory.old }
{
    match op {
        StoreOp::Sb => write_u8(memory, address, (value & 0xff) as u8)?,
        StoreOp::Sh => write_u16(memory, address, (value & 0xffff) as u16)?,
        StoreOp::Sw => write_u32(memory, address, value)?,
    }
    Ok(())
}
