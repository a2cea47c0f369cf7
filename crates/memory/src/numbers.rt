//! Numbers in memory, with their lowest byte first: RISC-V Unprivileged ISA 20191213, section 2.6.
//! What a misaligned or outside address comes to is this project's own.

ghost use Rattle.std.specs.Prelude.{◌≡◌, ◌<◌, IfOk, IfErr, OnErr, OnOk, Some, None, length};
ghost use Rattle.memory.specs.Access.{fault_of, Reads, Writes, Updates, Byte, Half, Word, number_in, put_number};

use crate::bytes::Bytes;
use rv_insn::Trap;

/// Whether this many bytes from an address on may be loaded: trap 4 where the address is no multiple of
/// their number, else trap 5 where one is neither text nor data.
fn check_load<M: Bytes>(memory: &M, address: u32, count: u32) -> Result<(), Trap>
    requires { 0 < count }
    ensures ok { OnOk result (fault_of (length (M.text memory.now)) (length (M.memory memory.now)) Reads address count
        ≡ None) }
    ensures err { IfErr result (λ trap. fault_of (length (M.text memory.now)) (length (M.memory memory.now)) Reads
        address count ≡ Some trap) }
{
    if address % count != 0 {
        return Err(Trap::LoadMisaligned);
    }
    if !memory.covers_load(address, count) {
        return Err(Trap::LoadOutside);
    }
    Ok(())
}

/// Whether this many bytes from an address on may be stored: trap 6 where the address is no multiple of
/// their number, else trap 7 where one isn't data.
pub fn check_store<M: Bytes>(memory: &M, address: u32, count: u32) -> Result<(), Trap>
    requires { 0 < count }
    ensures ok { OnOk result (fault_of (length (M.text memory.now)) (length (M.memory memory.now)) Writes address count
        ≡ None) }
    ensures err { IfErr result (λ trap. fault_of (length (M.text memory.now)) (length (M.memory memory.now)) Writes
        address count ≡ Some trap) }
{
    if address % count != 0 {
        return Err(Trap::StoreMisaligned);
    }
    if !memory.covers_store(address, count) {
        return Err(Trap::StoreOutside);
    }
    Ok(())
}

/// The byte at an address. Refused with trap 5 where it is neither text nor
/// data.
pub fn read_u8<M: Bytes>(memory: &M, address: u32) -> Result<u8, Trap>
    ensures fits { OnOk result (fault_of (length (M.text memory.now)) (length (M.memory memory.now)) Reads address 1
        ≡ None) }
    ensures number { IfOk result (λ number. number ≡ number_in (M.text memory.now) (M.memory memory.now) Byte address) }
    ensures err { IfErr result (λ trap. fault_of (length (M.text memory.now)) (length (M.memory memory.now)) Reads
        address 1 ≡ Some trap) }
{
    check_load(memory, address, 1)?;
    Ok(memory.read(address))
}

/// The half-word at an address, its lowest byte first. Refused with trap 4 where the address is no
/// multiple of 2, else with trap 5 where a byte is neither text nor data.
pub fn read_u16<M: Bytes>(memory: &M, address: u32) -> Result<u16, Trap>
    ensures fits { OnOk result (fault_of (length (M.text memory.now)) (length (M.memory memory.now)) Reads address 2
        ≡ None) }
    ensures number { IfOk result (λ number. number ≡ number_in (M.text memory.now) (M.memory memory.now) Half address) }
    ensures err { IfErr result (λ trap. fault_of (length (M.text memory.now)) (length (M.memory memory.now)) Reads
        address 2 ≡ Some trap) }
{
    check_load(memory, address, 2)?;
    Ok(memory.read_half(address))
}

/// The word at an address, its lowest byte first. Refused with trap 4 where the address is no
/// multiple of 4, else with trap 5 where a byte is neither text nor data.
#[inline(always)]
pub fn read_u32<M: Bytes>(memory: &M, address: u32) -> Result<u32, Trap>
    ensures fits { OnOk result (fault_of (length (M.text memory.now)) (length (M.memory memory.now)) Reads address 4
        ≡ None) }
    ensures number { IfOk result (λ number. number ≡ number_in (M.text memory.now) (M.memory memory.now) Word address) }
    ensures err { IfErr result (λ trap. fault_of (length (M.text memory.now)) (length (M.memory memory.now)) Reads
        address 4 ≡ Some trap) }
{
    check_load(memory, address, 4)?;
    Ok(memory.read_word(address))
}

/// The word of data that an atomic addition finds. Refused as [`write_u32`] is.
pub fn read_for_amo<M: Bytes>(memory: &M, address: u32) -> Result<u32, Trap>
    ensures fits { OnOk result (fault_of (length (M.text memory.now)) (length (M.memory memory.now)) Updates address 4
        ≡ None) }
    ensures number { IfOk result (λ number. number ≡ number_in (M.text memory.now) (M.memory memory.now) Word address) }
    ensures err { IfErr result (λ trap. fault_of (length (M.text memory.now)) (length (M.memory memory.now)) Updates
        address 4 ≡ Some trap) }
{
    check_store(memory, address, 4)?;
    read_u32(memory, address)
}

/// Puts a byte at an address and leaves all other bytes. Refused, with nothing written, by trap 7 where the
/// address isn't data.
pub fn write_u8<M: Bytes>(memory: &mut M, address: u32, value: u8) -> Result<(), Trap>
    ensures fits { OnOk result (fault_of (length (M.text memory.old)) (length (M.memory memory.old)) Writes address 1
        ≡ None) }
    ensures put { OnOk result (M.memory memory.new ≡ put_number (M.memory memory.old) Byte address value) }
    ensures err { IfErr result (λ trap. fault_of (length (M.text memory.old)) (length (M.memory memory.old)) Writes
        address 1 ≡ Some trap) }
    ensures unchanged { OnErr result (M.memory memory.new ≡ M.memory memory.old) }
    ensures text { M.text memory.new ≡ M.text memory.old }
{
    check_store(memory, address, 1)?;
    memory.write(address, value);
    Ok(())
}

/// Puts a half-word at an address, its lowest byte first, and leaves all other bytes. Refused, with nothing written, by
/// trap 6 where the address is no multiple of 2, else by trap 7 where a byte isn't data.
pub fn write_u16<M: Bytes>(memory: &mut M, address: u32, value: u16) -> Result<(), Trap>
    ensures fits { OnOk result (fault_of (length (M.text memory.old)) (length (M.memory memory.old)) Writes address 2
        ≡ None) }
    ensures put { OnOk result (M.memory memory.new ≡ put_number (M.memory memory.old) Half address value) }
    ensures err { IfErr result (λ trap. fault_of (length (M.text memory.old)) (length (M.memory memory.old)) Writes
        address 2 ≡ Some trap) }
    ensures unchanged { OnErr result (M.memory memory.new ≡ M.memory memory.old) }
    ensures text { M.text memory.new ≡ M.text memory.old }
{
    check_store(memory, address, 2)?;
    memory.write_half(address, value);
    Ok(())
}

/// Puts a word at an address, its lowest byte first, and leaves all other bytes. Refused, with nothing written, by trap
/// 6 where the address is no multiple of 4, else by trap 7 where a byte isn't data.
pub fn write_u32<M: Bytes>(memory: &mut M, address: u32, value: u32) -> Result<(), Trap>
    ensures fits { OnOk result (fault_of (length (M.text memory.old)) (length (M.memory memory.old)) Writes address 4
        ≡ None) }
    ensures put { OnOk result (M.memory memory.new ≡ put_number (M.memory memory.old) Word address value) }
    ensures err { IfErr result (λ trap. fault_of (length (M.text memory.old)) (length (M.memory memory.old)) Writes
        address 4 ≡ Some trap) }
    ensures unchanged { OnErr result (M.memory memory.new ≡ M.memory memory.old) }
    ensures text { M.text memory.new ≡ M.text memory.old }
{
    check_store(memory, address, 4)?;
    memory.write_word(address, value);
    Ok(())
}
