//! Registers, as gdb reads them.

ghost use Rattle.std.specs.Prelude.{◌≡◌, ◌++◌, ◌<◌, length, OnOk};
ghost use Rattle.hart_core.specs.HartState.{register, vector};
ghost use Rattle.multi_hart.specs.Run.{hart_at};
ghost use Rattle.gdb_session.specs.Texts as spec;

use crate::texts::{push_hex, push_refused, push_word};
use multi_hart::Machine;
use rv_insn::{Reg, VReg};
use std::alloc::AllocError;

/// Appends all registers of a hart.
#[tactic(auto, unfolding(crate::specs::Texts::registers))]
pub fn push_registers(out: &mut Vec<u8>, machine: &Machine, hart: usize) -> Result<(), AllocError>
    requires { hart < length machine.now.harts }
    ensures { OnOk result (out.new.items ≡ out.old.items ++ spec.registers (hart_at machine.now hart)) }
{
    push_integers(out, machine, hart)?;
    push_word(out, machine.pc(hart))?;
    push_vectors(out, machine, hart)?;
    push_word(out, machine.vl(hart))?;
    push_word(out, machine.vtype(hart))
}

/// Appends the register of a number in the target description.
#[tactic(auto, unfolding(crate::specs::Texts::register_text))]
pub fn push_register(
    out: &mut Vec<u8>,
    machine: &Machine,
    hart: usize,
    number: u32,
) -> Result<(), AllocError>
    requires { hart < length machine.now.harts }
    ensures { OnOk result (out.new.items ≡ out.old.items ++ spec.register_text (hart_at machine.now hart) number) }
{
    match number {
        0..32 => push_integer(out, machine, hart, number as u8),
        32 => push_word(out, machine.pc(hart)),
        33..65 => push_vector(out, machine, hart, (number - 33) as u8),
        65 => push_word(out, machine.vl(hart)),
        66 => push_word(out, machine.vtype(hart)),
        _ => push_refused(out),
    }
}

/// Appends all integer registers.
fn push_integers(out: &mut Vec<u8>, machine: &Machine, hart: usize) -> Result<(), AllocError>
    requires { hart < length machine.now.harts }
    ensures { OnOk result (out.new.items ≡ out.old.items ++ spec.integers (hart_at machine.now hart) 32) }
{
    for number in 0..32u8 {
        push_integer(out, machine, hart, number)?;
    }
    Ok(())
}

fn push_integer(
    out: &mut Vec<u8>,
    machine: &Machine,
    hart: usize,
    number: u8,
) -> Result<(), AllocError>
    requires there { hart < length machine.now.harts }
    requires number { number < 32 }
    ensures { OnOk result (out.new.items ≡ out.old.items
        ++ spec.word_text (register (hart_at machine.now hart) number)) }
{
    push_word(out, machine.register(hart, integer_register(number)))
}

/// Appends all vector registers.
fn push_vectors(out: &mut Vec<u8>, machine: &Machine, hart: usize) -> Result<(), AllocError>
    requires { hart < length machine.now.harts }
    ensures { OnOk result (out.new.items ≡ out.old.items ++ spec.vectors (hart_at machine.now hart) 32) }
{
    for number in 0..32u8 {
        push_vector(out, machine, hart, number)?;
    }
    Ok(())
}

fn push_vector(
    out: &mut Vec<u8>,
    machine: &Machine,
    hart: usize,
    number: u8,
) -> Result<(), AllocError>
    requires there { hart < length machine.now.harts }
    requires number { number < 32 }
    ensures { OnOk result (out.new.items ≡ out.old.items ++ spec.hex_of (vector (hart_at machine.now hart) number)) }
{
    push_hex(out, &machine.vector(hart, vector_register(number)))
}

/// The integer register of a number.
fn integer_register(number: u8) -> Reg
    requires { number < 32 }
    ensures { result ≡ number }
{
    Reg::new(number).unwrap()
}

/// The vector register of a number.
fn vector_register(number: u8) -> VReg
    requires { number < 32 }
    ensures { result ≡ number }
{
    VReg::new(number).unwrap()
}
