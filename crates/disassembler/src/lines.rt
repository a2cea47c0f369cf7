//! The line of a word.

ghost use Rattle.std.specs.Prelude.{◌≡◌, ℕ, [], ◌∷◌, ◌++◌, OnOk, OnErr};
ghost use Rattle.std.specs.String.{string_bytes};
ghost use Rattle.rv_insn.specs.Table.{Means};
ghost use Rattle.rv_encoding.specs.Decoding.{decoded};
ghost use Rattle.disassembler.specs.Listing.{addressed_line, instruction_text, word_text, line_of, listed};

use crate::numbers::push_hexadecimal;
use crate::operands::push_operands;
use assembler_mnemonics::laws::fields_fit;
use assembler_mnemonics::{Fields, MnemonicForm};
use rv_encoding::decode;
use rv_insn::Insn;
use std::alloc::AllocError;

/// Room for the line of most words, in bytes.
const USUAL_LINE: usize = 64;

/// Appends the line of a word and a line feed. An `Err` says that there was no memory, and leaves what
/// is in `out` as it was.
pub fn write_line(word: u32, out: &mut Vec<u8>) -> Result<(), AllocError>
    ensures appended { OnOk result (out.new.items ≡ out.old.items ++ listed word) }
    ensures unchanged { OnErr result (out.new.items ≡ out.old.items) }
{
    let mut line = String::with_capacity(*out.allocator(), USUAL_LINE)?;
    push_word(&mut line, word)?;
    line.push_str("\n")?;
    out.extend_from_slice(line.as_bytes())?;
    Ok(())
}

/// Appends the line of a word, after it a comment with the address at which the word is, and a line feed. An `Err`
/// says that there was no memory, and leaves what is in `out` as it was.
pub(crate) fn write_addressed_line(
    word: u32,
    address: u32,
    out: &mut Vec<u8>,
) -> Result<(), AllocError>
    ensures appended { OnOk result (out.new.items ≡ out.old.items ++ (addressed_line address word ++ 10 ∷ [])) }
    ensures unchanged { OnErr result (out.new.items ≡ out.old.items) }
{
    let mut line = String::with_capacity(*out.allocator(), USUAL_LINE)?;
    push_addressed(&mut line, word, address)?;
    line.push_str("\n")?;
    out.extend_from_slice(line.as_bytes())?;
    Ok(())
}

/// The line of a word and a comment with its address, without a line feed.
fn push_addressed(text: &mut String, word: u32, address: u32) -> Result<(), AllocError>
    ensures { OnOk result (string_bytes text.new ≡ string_bytes text.old ++ addressed_line address word) }
{
    push_word(text, word)?;
    text.push_str(" # ")?;
    push_hexadecimal(text, 8, u64::from(address))?;
    Ok(())
}

/// The line without its line feed.
#[tactic(auto, unfolding(crate::specs::Listing::word_text))]
fn push_word(text: &mut String, word: u32) -> Result<(), AllocError>
    ensures { OnOk result (string_bytes text.new ≡ string_bytes text.old ++ line_of word) }
{
    match decode(word) {
        Some(insn) => push_instruction(text, &insn)?,
        None => {
            text.push_str(".word ")?;
            push_hexadecimal(text, 8, u64::from(word))?;
        }
    }
    Ok(())
}

/// An instruction that some word means.
#[tactic(auto, unfolding(crate::specs::Listing::instruction_text))]
fn push_instruction(text: &mut String, insn: &Insn) -> Result<(), AllocError>
    requires { (word : ℕ) × Means word insn.now }
    ensures { OnOk result (string_bytes text.new ≡ string_bytes text.old ++ instruction_text insn.now) }
{
    fields_fit();
    let form = MnemonicForm::of(insn);
    text.push_str(form.mnemonic())?;
    push_operands(text, form.shape(), &Fields::of(insn))?;
    Ok(())
}
