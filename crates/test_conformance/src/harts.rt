//! What a hart holds, as lines.

ghost use Rattle.std.specs.Prelude.{◌<◌, length};

use hart_core::Status;
use multi_hart::Machine;
use rv_insn::{Reg, VReg};
use std::alloc::AllocError;

/// What a hart holds.
#[derive(Drop)]
pub struct HartState {
    pub pc: u32,
    pub status: Status,
    pub registers: [u32; 32],
    pub vectors: [[u8; 16]; 32],
    pub vl: u32,
    pub vtype: u32,
}

/// What a hart of a machine holds.
pub fn state_of(machine: &Machine, hart: usize) -> HartState
    requires { hart < length machine.now.harts }
{
    let mut registers = [0; 32];
    let mut vectors = [[0; 16]; 32];
    for number in 0..32u8 {
        registers[number as usize] = machine.register(hart, integer_register(number));
        vectors[number as usize] = machine.vector(hart, vector_register(number));
    }
    HartState {
        pc: machine.pc(hart),
        status: machine.status(hart),
        registers,
        vectors,
        vl: machine.vl(hart),
        vtype: machine.vtype(hart),
    }
}

/// The integer register of a number.
fn integer_register(number: u8) -> Reg
    requires { number < 32 }
{
    Reg::new(number).unwrap()
}

/// The vector register of a number.
fn vector_register(number: u8) -> VReg
    requires { number < 32 }
{
    VReg::new(number).unwrap()
}

/// A line for each integer register that isn't as before.
pub fn push_registers(
    old: &[u32; 32],
    new: &[u32; 32],
    out: &mut String,
) -> Result<(), AllocError> {
    for number in 0..32usize {
        let value = new[number];
        if value != old[number] {
            writeln!(out, "  x{number} 0x{value:08x}")?;
        }
    }
    Ok(())
}

/// A line for each vector register that isn't as before, byte 0 first.
pub fn push_vectors(
    old: &[[u8; 16]; 32],
    new: &[[u8; 16]; 32],
    out: &mut String,
) -> Result<(), AllocError> {
    for number in 0..32usize {
        if new[number] != old[number] {
            push_vector(number, &new[number], out)?;
        }
    }
    Ok(())
}

fn push_vector(number: usize, bytes: &[u8], out: &mut String) -> Result<(), AllocError> {
    write!(out, "  v{number} ")?;
    for byte in bytes {
        write!(out, "{byte:02x}")?;
    }
    writeln!(out)
}

/// The line of a vector configuration.
pub fn push_configuration(state: &HartState, out: &mut String) -> Result<(), AllocError> {
    let vl = state.vl;
    let vtype = state.vtype;
    writeln!(out, "  vl {vl} vtype 0x{vtype:08x}")
}

/// `running`, `finished` or `trap K`.
pub fn push_status(status: Status, out: &mut String) -> Result<(), AllocError> {
    match status {
        Status::Running => out.push_str("running"),
        Status::Finished => out.push_str("finished"),
        Status::Trapped(trap) => {
            let number = trap.number();
            write!(out, "trap {number}")
        }
    }
}
