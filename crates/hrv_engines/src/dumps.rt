//! The text that shows a machine: each hart's state, and the picture.

ghost use Rattle.std.specs.Prelude.{◌≡◌, ◌<◌, ◌≤◌, ◌+◌, ◌++◌, ◌==◌, List, length, OnOk, IfOk, IsTrue};
ghost use Rattle.std.specs.List.{list_all};
ghost use Rattle.std.specs.String.{string_bytes};
ghost use Rattle.memory.specs.Access.{most_bytes};
ghost use Rattle.loader.specs.Image.{is_output_or_none};
ghost use Rattle.multi_hart.specs.Run.{hart_at};
ghost use Rattle.hrv_engines.specs.Dump.{hex_of, hex_word, status_text, heading, register_line, register_lines};
ghost use Rattle.hrv_engines.specs.Dump.{configuration_line, vector_line, vector_lines, hart_text, hart_texts};
ghost use Rattle.hrv_engines.specs.Dump.{picture_part, dumped};

use crate::pictures::push_picture;
use hart_core::Status;
use loader::Output;
use multi_hart::Machine;
use rv_insn::{Reg, VReg};
use std::alloc::{AllocError, Global};
use turn_log::TurnLog;

/// The dump of a machine after turns: each hart's state with the count of its turns, and the picture
/// where there is an output and all harts have finished.
#[tactic(auto, unfolding(crate::specs::Dump::dumped))]
pub fn dump(
    alloc: Global,
    machine: &Machine,
    log: &TurnLog,
    output: Option<Output>,
) -> Result<String, AllocError>
    requires fits { IsTrue (is_output_or_none (length machine.now.memory) output) }
    requires bytes { length machine.now.memory ≤ most_bytes }
    ensures { IfOk result (λ text. string_bytes text ≡ dumped machine.now log.now.turns output) }
{
    let mut text = String::new(alloc);
    push_harts(&mut text, machine, log)?;
    push_picture_part(&mut text, machine, output)?;
    Ok(text)
}

/// All harts, in the order of their numbers.
fn push_harts(text: &mut String, machine: &Machine, log: &TurnLog) -> Result<(), AllocError>
    ensures { OnOk result (string_bytes text.new ≡ string_bytes text.old
        ++ hart_texts machine.now log.now.turns (length machine.now.harts)) }
{
    for hart in 0..machine.harts() {
        push_hart(text, machine, hart, log.count_of(hart))?;
    }
    Ok(())
}

/// The picture, where there is an output and all harts have finished.
#[tactic(auto, unfolding(crate::specs::Dump::picture_part))]
fn push_picture_part(
    text: &mut String,
    machine: &Machine,
    output: Option<Output>,
) -> Result<(), AllocError>
    requires fits { IsTrue (is_output_or_none (length machine.now.memory) output) }
    requires bytes { length machine.now.memory ≤ most_bytes }
    ensures { OnOk result (string_bytes text.new ≡ string_bytes text.old ++ picture_part machine.now output) }
{
    let Some(output) = output else {
        return Ok(());
    };
    if machine.is_finished() {
        push_picture(text, machine, output)?;
    }
    Ok(())
}

/// The heading and the registers of one hart.
#[tactic(auto, unfolding(crate::specs::Dump::hart_text))]
fn push_hart(
    text: &mut String,
    machine: &Machine,
    hart: usize,
    turns: u64,
) -> Result<(), AllocError>
    requires { hart < length machine.now.harts }
    ensures { OnOk result (string_bytes text.new ≡ string_bytes text.old ++ hart_text hart (hart_at machine.now hart)
        turns) }
{
    push_heading(text, hart, machine.status(hart), machine.pc(hart), turns)?;
    push_registers(text, machine, hart)?;
    push_configuration(text, machine.vl(hart), machine.vtype(hart))?;
    push_vectors(text, machine, hart)?;
    Ok(())
}

/// `hart H STATUS pc 0xPPPPPPPP turns N`
#[tactic(auto, unfolding(crate::specs::Dump::heading))]
fn push_heading(
    text: &mut String,
    number: usize,
    status: Status,
    pc: u32,
    turns: u64,
) -> Result<(), AllocError>
    ensures { OnOk result (string_bytes text.new ≡ string_bytes text.old ++ heading number status pc turns) }
{
    write!(text, "hart {number} ")?;
    push_status(text, status)?;
    text.push_str(" pc ")?;
    push_hex_word(text, pc)?;
    writeln!(text, " turns {turns}")?;
    Ok(())
}

/// The integer registers that aren't 0, a line each.
fn push_registers(text: &mut String, machine: &Machine, hart: usize) -> Result<(), AllocError>
    requires { hart < length machine.now.harts }
    ensures { OnOk result (string_bytes text.new ≡ string_bytes text.old ++ register_lines (hart_at machine.now hart)
        32) }
{
    for number in 0..32u8 {
        let value = machine.register(hart, integer_register(number));
        push_register(text, number, value)?;
    }
    Ok(())
}

/// `  xR 0xVVVVVVVV`, where the register isn't 0.
#[tactic(auto, unfolding(crate::specs::Dump::register_line))]
fn push_register(text: &mut String, number: u8, value: u32) -> Result<(), AllocError>
    ensures { OnOk result (string_bytes text.new ≡ string_bytes text.old ++ register_line number value) }
{
    if value == 0 {
        return Ok(());
    }
    write!(text, "  x{number} ")?;
    push_hex_word(text, value)?;
    text.push_str("\n")?;
    Ok(())
}

/// `  vl N vtype 0xVVVVVVVV`
#[tactic(auto, unfolding(crate::specs::Dump::configuration_line))]
fn push_configuration(text: &mut String, vl: u32, vtype: u32) -> Result<(), AllocError>
    ensures { OnOk result (string_bytes text.new ≡ string_bytes text.old ++ configuration_line vl vtype) }
{
    write!(text, "  vl {vl} vtype ")?;
    push_hex_word(text, vtype)?;
    text.push_str("\n")?;
    Ok(())
}

/// The vector registers that aren't all 0, a line each.
fn push_vectors(text: &mut String, machine: &Machine, hart: usize) -> Result<(), AllocError>
    requires { hart < length machine.now.harts }
    ensures { OnOk result (string_bytes text.new ≡ string_bytes text.old ++ vector_lines (hart_at machine.now hart)
        32) }
{
    for number in 0..32u8 {
        let bytes = machine.vector(hart, vector_register(number));
        push_vector(text, number, &bytes)?;
    }
    Ok(())
}

/// `  vR ` and 32 digits, byte 0 first, where not all bytes are 0.
#[tactic(auto, unfolding(crate::specs::Dump::vector_line))]
fn push_vector(text: &mut String, number: u8, bytes: &[u8]) -> Result<(), AllocError>
    ensures { OnOk result (string_bytes text.new ≡ string_bytes text.old ++ vector_line number bytes.now) }
{
    if is_zero(bytes) {
        return Ok(());
    }
    write!(text, "  v{number} ")?;
    push_hex(text, bytes)?;
    text.push_str("\n")?;
    Ok(())
}

fn is_zero(bytes: &[u8]) -> bool
    ensures { result ≡ list_all (λ byte. byte == 0) bytes.now }
{
    bytes.iter().all(|byte| *byte == 0)
}

/// The integer register of a number.
pub fn integer_register(number: u8) -> Reg
    requires { number < 32 }
    ensures { result ≡ number }
{
    Reg::new(number).unwrap()
}

/// The vector register of a number.
pub fn vector_register(number: u8) -> VReg
    requires { number < 32 }
    ensures { result ≡ number }
{
    VReg::new(number).unwrap()
}

/// `running`, `finished` or `trap K`.
#[tactic(auto, unfolding(crate::specs::Dump::status_text))]
pub fn push_status(text: &mut String, status: Status) -> Result<(), AllocError>
    ensures { OnOk result (string_bytes text.new ≡ string_bytes text.old ++ status_text status) }
{
    match status {
        Status::Running => text.push_str("running"),
        Status::Finished => text.push_str("finished"),
        Status::Trapped(trap) => {
            let number = trap.number();
            write!(text, "trap {number}")
        }
    }
}

/// `0x` and eight hexadecimal digits.
#[tactic(auto, unfolding(crate::specs::Dump::hex_word))]
pub fn push_hex_word(text: &mut String, word: u32) -> Result<(), AllocError>
    ensures { OnOk result (string_bytes text.new ≡ string_bytes text.old ++ hex_word word) }
{
    text.push_str("0x")?;
    push_hex(text, &word.to_be_bytes())?;
    Ok(())
}

/// Two hexadecimal digits for each byte.
pub fn push_hex(text: &mut String, bytes: &[u8]) -> Result<(), AllocError>
    ensures { OnOk result (string_bytes text.new ≡ string_bytes text.old ++ hex_of bytes.now) }
{
    for byte in bytes {
        write!(text, "{byte:02x}")?;
    }
    Ok(())
}
