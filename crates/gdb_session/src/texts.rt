//! Texts of answers.

ghost use Rattle.std.specs.Prelude.{◌≡◌, ◌++◌, ◌<◌, ◌≤◌, OnOk};
ghost use Rattle.gdb_packets.specs.Packets as packets;
ghost use Rattle.gdb_session.specs.Texts as spec;

use crate::stops::{Stop, StopReason};
use std::alloc::AllocError;

/// Appends a text.
pub fn push_text(out: &mut Vec<u8>, text: &str) -> Result<(), AllocError>
    ensures { OnOk result (out.new.items ≡ out.old.items ++ text.now) }
{
    out.extend_from_slice(text.as_bytes())?;
    Ok(())
}

#[tactic(auto, unfolding(crate::specs::Texts::ok))]
pub fn push_ok(out: &mut Vec<u8>) -> Result<(), AllocError>
    ensures { OnOk result (out.new.items ≡ out.old.items ++ spec.ok) }
{
    push_text(out, "OK")
}

#[tactic(auto, unfolding(crate::specs::Texts::refused))]
pub fn push_refused(out: &mut Vec<u8>) -> Result<(), AllocError>
    ensures { OnOk result (out.new.items ≡ out.old.items ++ spec.refused) }
{
    push_text(out, "E01")
}

#[tactic(auto, unfolding(crate::specs::Texts::features))]
pub fn push_features(out: &mut Vec<u8>) -> Result<(), AllocError>
    ensures { OnOk result (out.new.items ≡ out.old.items ++ spec.features) }
{
    push_text(out, "PacketSize=4000;qXfer:features:read+;")?;
    push_text(out, "qXfer:memory-map:read+;QStartNoAckMode+;")?;
    push_text(out, "ReverseStep+;ReverseContinue+;")?;
    push_text(out, "vContSupported+;swbreak+;hwbreak+")
}

#[tactic(auto, unfolding(crate::specs::Texts::actions))]
pub fn push_actions(out: &mut Vec<u8>) -> Result<(), AllocError>
    ensures { OnOk result (out.new.items ≡ out.old.items ++ spec.actions) }
{
    push_text(out, "vCont;c;C;s;S")
}

#[tactic(auto, unfolding(crate::specs::Texts::last))]
pub fn push_last(out: &mut Vec<u8>) -> Result<(), AllocError>
    ensures { OnOk result (out.new.items ≡ out.old.items ++ spec.last) }
{
    push_text(out, "l")
}

#[tactic(auto, unfolding(crate::specs::Texts::attached))]
pub fn push_attached(out: &mut Vec<u8>) -> Result<(), AllocError>
    ensures { OnOk result (out.new.items ≡ out.old.items ++ spec.attached) }
{
    push_text(out, "1")
}

#[tactic(auto, unfolding(crate::specs::Texts::done))]
pub fn push_done(out: &mut Vec<u8>) -> Result<(), AllocError>
    ensures { OnOk result (out.new.items ≡ out.old.items ++ spec.done) }
{
    push_digits(out, "done\n")
}

#[tactic(auto, unfolding(crate::specs::Texts::no_place))]
pub fn push_no_place(out: &mut Vec<u8>) -> Result<(), AllocError>
    ensures { OnOk result (out.new.items ≡ out.old.items ++ spec.no_place) }
{
    push_digits(out, "the log has no such place\n")
}

#[tactic(auto, unfolding(crate::specs::Texts::unknown))]
pub fn push_unknown(out: &mut Vec<u8>) -> Result<(), AllocError>
    ensures { OnOk result (out.new.items ≡ out.old.items ++ spec.unknown) }
{
    push_digits(out, "unknown\n")
}

/// Appends the digits of a text.
fn push_digits(out: &mut Vec<u8>, text: &str) -> Result<(), AllocError>
    ensures { OnOk result (out.new.items ≡ out.old.items ++ spec.hex_of text.now) }
{
    push_hex(out, text.as_bytes())
}

/// Appends two digits for each byte.
pub fn push_hex(out: &mut Vec<u8>, bytes: &[u8]) -> Result<(), AllocError>
    ensures { OnOk result (out.new.items ≡ out.old.items ++ spec.hex_of bytes.now) }
{
    if let [byte, others @ ..] = bytes {
        out.push(digit(*byte / 16))?;
        out.push(digit(*byte % 16))?;
        push_hex(out, others)?;
    }
    Ok(())
}

/// Appends a number, its lowest byte first.
#[tactic(auto, unfolding(crate::specs::Texts::word_text))]
pub fn push_word(out: &mut Vec<u8>, number: u32) -> Result<(), AllocError>
    ensures { OnOk result (out.new.items ≡ out.old.items ++ spec.word_text number) }
{
    push_hex(out, &number.to_le_bytes())
}

/// Appends a hart's thread.
pub fn push_thread(out: &mut Vec<u8>, hart: usize) -> Result<(), AllocError>
    requires { hart < 8 }
    ensures { OnOk result (out.new.items ≡ out.old.items ++ spec.thread_text hart) }
{
    out.push(digit(hart as u8 + 1))?;
    Ok(())
}

/// Appends all threads.
pub fn push_threads(out: &mut Vec<u8>, harts: usize) -> Result<(), AllocError>
    requires { harts ≤ 8 }
    ensures { OnOk result (out.new.items ≡ out.old.items ++ spec.threads harts) }
{
    for hart in 0..harts {
        push_listed(out, hart)?;
    }
    Ok(())
}

/// Appends a thread of a list, with what stands before it.
fn push_listed(out: &mut Vec<u8>, hart: usize) -> Result<(), AllocError>
    requires { hart < 8 }
    ensures { OnOk result (out.new.items ≡ out.old.items ++ spec.listed hart) }
{
    out.push(if hart == 0 { b'm' } else { b',' })?;
    push_thread(out, hart)
}

#[tactic(auto, unfolding(crate::specs::Texts::current_text))]
pub fn push_current(out: &mut Vec<u8>, hart: usize) -> Result<(), AllocError>
    requires { hart < 8 }
    ensures { OnOk result (out.new.items ≡ out.old.items ++ spec.current_text hart) }
{
    push_text(out, "QC")?;
    push_thread(out, hart)
}

/// Appends a stop.
#[tactic(auto, unfolding(crate::specs::Texts::stop_text))]
pub fn push_stop(out: &mut Vec<u8>, stop: Stop) -> Result<(), AllocError>
    requires { stop.hart < 8 }
    ensures { OnOk result (out.new.items ≡ out.old.items ++ spec.stop_text stop) }
{
    push_text(out, "T05")?;
    push_reason(out, stop.reason)?;
    push_text(out, "thread:")?;
    push_thread(out, stop.hart)?;
    push_text(out, ";")
}

#[tactic(auto, unfolding(crate::specs::Texts::reason_text))]
fn push_reason(out: &mut Vec<u8>, reason: StopReason) -> Result<(), AllocError>
    ensures { OnOk result (out.new.items ≡ out.old.items ++ spec.reason_text reason) }
{
    match reason {
        StopReason::Stepped => Ok(()),
        StopReason::Break => push_text(out, "swbreak:;"),
        StopReason::Watch(address) => push_watch(out, address),
        StopReason::LogEnd => push_text(out, "replaylog:end;"),
        StopReason::LogStart => push_text(out, "replaylog:begin;"),
    }
}

#[tactic(auto, unfolding(crate::specs::Texts::reason_text))]
fn push_watch(out: &mut Vec<u8>, address: u32) -> Result<(), AllocError>
    ensures { OnOk result (out.new.items ≡ out.old.items ++ spec.reason_text (StopReason.Watch address)) }
{
    push_text(out, "watch:")?;
    push_hex(out, &address.to_be_bytes())?;
    push_text(out, ";")
}

/// A hexadecimal digit.
fn digit(value: u8) -> u8
    requires { value < 16 }
    ensures { result ≡ packets.digit value }
{
    if value < 10 {
        b'0' + value
    } else {
        b'a' + (value - 10)
    }
}
