//! Writing packets.

ghost use Rattle.std.specs.Prelude.{◌≡◌, ◌++◌, ◌<◌, IfOk, OnOk};
ghost use Rattle.gdb_packets.specs.Packets as spec;

use std::alloc::AllocError;

/// Appends the frame of a payload. Its special bytes are escaped, and it has no runs.
#[tactic(auto, unfolding(crate::specs::Packets::frame))]
pub fn push_frame(out: &mut Vec<u8>, payload: &[u8]) -> Result<(), AllocError>
    ensures { OnOk result (out.new.items ≡ out.old.items ++ spec.frame payload.now) }
{
    out.push(b'$')?;
    let sum = push_escaped(out, payload)?;
    out.push(b'#')?;
    out.push(digit(sum / 16))?;
    out.push(digit(sum % 16))?;
    Ok(())
}

/// Appends a payload with its special bytes escaped, and answers the check sum of what it appends.
fn push_escaped(out: &mut Vec<u8>, payload: &[u8]) -> Result<u8, AllocError>
    ensures body { OnOk result (out.new.items ≡ out.old.items ++ spec.escaped payload.now) }
    ensures sum { IfOk result (λ sum. sum ≡ spec.check_sum (spec.escaped payload.now)) }
{
    let mut sum: u8 = 0;
    for &byte in payload {
        if is_special(byte) {
            out.push(b'}')?;
            out.push(byte ^ 0x20)?;
            sum = sum.wrapping_add(b'}').wrapping_add(byte ^ 0x20);
        } else {
            out.push(byte)?;
            sum = sum.wrapping_add(byte);
        }
    }
    Ok(sum)
}

/// Whether a byte has to be escaped.
fn is_special(byte: u8) -> bool
    ensures { result ≡ spec.is_special byte }
{
    matches!(byte, b'#' | b'$' | b'*' | b'}')
}

/// A hexadecimal digit.
fn digit(value: u8) -> u8
    requires { value < 16 }
    ensures { result ≡ spec.digit value }
{
    if value < 10 {
        b'0' + value
    } else {
        b'a' + (value - 10)
    }
}
