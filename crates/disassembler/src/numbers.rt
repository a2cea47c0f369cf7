//! Numbers as a listing has them.

ghost use Rattle.std.specs.Prelude.{◌≡◌, ◌<◌, ◌++◌, [], ◌∷◌, OnOk};
ghost use Rattle.std.specs.String.{string_bytes};
ghost use Rattle.disassembler.specs.Listing.{hexadecimal_digit, last_digits, hexadecimal_text};

use std::alloc::AllocError;

/// `0x` and the last this many hexadecimal digits of a number.
#[tactic(auto, unfolding(crate::specs::Listing::hexadecimal_text))]
pub fn push_hexadecimal(text: &mut String, count: u32, number: u64) -> Result<(), AllocError>
    ensures { OnOk result (string_bytes text.new ≡ string_bytes text.old ++ hexadecimal_text count number) }
{
    text.push_str("0x")?;
    push_digits(text, count, number)?;
    Ok(())
}

fn push_digits(text: &mut String, count: u32, number: u64) -> Result<(), AllocError>
    ensures { OnOk result (string_bytes text.new ≡ string_bytes text.old ++ last_digits count number) }
{
    if count == 0 {
        return Ok(());
    }
    push_digits(text, count - 1, number / 16)?;
    push_digit(text, number % 16)?;
    Ok(())
}

#[tactic(auto, using(std::proofs::lemmas::Fmt::hex_one_digit))]
fn push_digit(text: &mut String, digit: u64) -> Result<(), AllocError>
    requires { digit < 16 }
    ensures { OnOk result (string_bytes text.new ≡ string_bytes text.old ++ hexadecimal_digit digit ∷ []) }
{
    write!(text, "{digit:x}")
}
