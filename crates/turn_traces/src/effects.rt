//! What a turn does, as a text.

ghost use Rattle.std.specs.Prelude.{◌≡◌, ◌<◌, ◌++◌, ◌∷◌, [], ◌^◌, OnOk};
ghost use Rattle.std.specs.String.{string_bytes};
ghost use Rattle.disassembler.specs.Listing.{hexadecimal_digit};
ghost use Rattle.turn_traces.specs.TraceText as spec;

use crate::ranges::{WordRange, joined};
use disassembler::push_hexadecimal;
use hart_core::{Hart, Status};
use rv_insn::{Reg, VReg};
use std::alloc::AllocError;

// ---- registers

/// Appends the scalar registers that a turn changed.
pub(crate) fn push_scalars(text: &mut String, before: &Hart, after: &Hart) -> Result<(), AllocError>
    ensures { OnOk result (string_bytes text.new ≡ string_bytes text.old
        ++ spec.scalars_text before.now after.now 32) }
{
    for number in 0..32u8 {
        let register = scalar_register(number);
        let was = before.register(register);
        let is = after.register(register);
        push_scalar(text, was, is, number)?;
    }
    Ok(())
}

/// `  xN 0xVVVVVVVV`, where the register has another value than before.
#[tactic(auto, unfolding(crate::specs::TraceText::scalar_text))]
fn push_scalar(text: &mut String, before: u32, after: u32, number: u8) -> Result<(), AllocError>
    ensures { OnOk result (string_bytes text.new ≡ string_bytes text.old
        ++ spec.scalar_text before after number) }
{
    if after == before {
        return Ok(());
    }
    write!(text, "  x{number} ")?;
    push_hexadecimal(text, 8, u64::from(after))?;
    Ok(())
}

/// Appends the vector registers that a turn changed.
pub(crate) fn push_vectors(text: &mut String, before: &Hart, after: &Hart) -> Result<(), AllocError>
    ensures { OnOk result (string_bytes text.new ≡ string_bytes text.old
        ++ spec.vectors_text before.now after.now 32) }
{
    for number in 0..32u8 {
        let register = vector_register(number);
        let was = before.vector(register);
        let is = after.vector(register);
        push_vector(text, &was, &is, number)?;
    }
    Ok(())
}

/// `  vN 0x` and two digits a byte, the last byte first, where not all bytes are those before.
#[tactic(auto, unfolding(crate::specs::TraceText::vector_text))]
fn push_vector(text: &mut String, before: &[u8], after: &[u8], number: u8) -> Result<(), AllocError>
    ensures { OnOk result (string_bytes text.new ≡ string_bytes text.old
        ++ spec.vector_text before.now after.now number) }
{
    if after == before {
        return Ok(());
    }
    write!(text, "  v{number} 0x")?;
    push_digits(text, after)?;
    Ok(())
}

/// Two digits a byte, the last byte first.
#[tactic(auto, unfolding(crate::specs::TraceText::digits_of))]
fn push_digits(text: &mut String, bytes: &[u8]) -> Result<(), AllocError>
    ensures { OnOk result (string_bytes text.new ≡ string_bytes text.old ++ spec.digits_of bytes.now) }
{
    let [byte, others @ ..] = bytes else {
        return Ok(());
    };
    push_digits(text, others)?;
    push_digit(text, *byte / 16)?;
    push_digit(text, *byte % 16)?;
    Ok(())
}

#[tactic(auto, using(std::proofs::lemmas::Fmt::hex_one_digit))]
fn push_digit(text: &mut String, digit: u8) -> Result<(), AllocError>
    requires { digit < 16 }
    ensures { OnOk result (string_bytes text.new ≡ string_bytes text.old ++ hexadecimal_digit digit ∷ []) }
{
    write!(text, "{digit:x}")
}

/// The scalar register of a number.
fn scalar_register(number: u8) -> Reg
    requires { number < 32 }
    ensures { result ≡ number }
{
    Reg::new(number).unwrap()
}

/// The vector register of a number.
fn vector_register(number: u8) -> VReg
    requires { number < 32 }
    ensures { result ≡ number }
{
    VReg::new(number).unwrap()
}

// ---- memory

/// The words that a turn reads, and those that it writes.
#[derive(Clone, Copy, Debug)]
pub(crate) struct WordsTouched {
    pub(crate) read: Option<WordRange>,
    pub(crate) written: Option<WordRange>,
}

impl WordsTouched {
    /// The first of all these words.
    pub(crate) fn first(&self) -> u64
        ensures { result ≡ spec.first_word self.now.read self.now.written }
    {
        match (self.read, self.written) {
            (None, None) => 0,
            (Some(read), None) => read.first,
            (None, Some(written)) => written.first,
            (Some(read), Some(written)) => joined(read, written).first,
        }
    }
}

/// Appends which words a turn read and wrote, the first of which held this before it and holds that after it.
#[tactic(auto, unfolding(crate::specs::TraceText::memory_text))]
pub(crate) fn push_memory(
    text: &mut String,
    touched: &WordsTouched,
    before: u32,
    after: u32,
) -> Result<(), AllocError>
    ensures { OnOk result (string_bytes text.new ≡ string_bytes text.old
        ++ spec.memory_text before after touched.now.read touched.now.written) }
{
    match (touched.read, touched.written) {
        (None, None) => Ok(()),
        (Some(read), None) => push_read(text, before, read),
        (None, Some(written)) => push_written(text, before, after, written, "written"),
        (Some(read), Some(written)) => {
            push_written(
                text,
                before,
                after,
                joined(read, written),
                "read and written",
            )
        }
    }
}

/// Words that are read.
fn push_read(text: &mut String, value: u32, words: WordRange) -> Result<(), AllocError>
    ensures { OnOk result (string_bytes text.new ≡ string_bytes text.old ++ spec.read_text value words) }
{
    if words.first == words.last {
        push_word_read(text, words.first, value)
    } else {
        push_several(text, words, "read")
    }
}

/// Words that are written.
fn push_written(
    text: &mut String,
    before: u32,
    after: u32,
    words: WordRange,
    done: &str,
) -> Result<(), AllocError>
    ensures { OnOk result (string_bytes text.new ≡ string_bytes text.old
        ++ spec.written_text before after words done.now) }
{
    if words.first == words.last {
        push_word_written(text, words.first, before, after)
    } else {
        push_several(text, words, done)
    }
}

/// `  word 0xAAAAAAAA is V`
#[tactic(auto, unfolding(crate::specs::TraceText::word_read))]
fn push_word_read(text: &mut String, word: u64, value: u32) -> Result<(), AllocError>
    ensures { OnOk result (string_bytes text.new ≡ string_bytes text.old ++ spec.word_read word value) }
{
    text.push_str("  word ")?;
    push_hexadecimal(text, 8, word)?;
    text.push_str(" is ")?;
    push_hexadecimal(text, 8, u64::from(value))?;
    Ok(())
}

/// `  word 0xAAAAAAAA before V after W`
#[tactic(auto, unfolding(crate::specs::TraceText::word_written))]
fn push_word_written(
    text: &mut String,
    word: u64,
    before: u32,
    after: u32,
) -> Result<(), AllocError>
    ensures { OnOk result (string_bytes text.new ≡ string_bytes text.old ++ spec.word_written word before after) }
{
    text.push_str("  word ")?;
    push_hexadecimal(text, 8, word)?;
    text.push_str(" before ")?;
    push_hexadecimal(text, 8, u64::from(before))?;
    text.push_str(" after ")?;
    push_hexadecimal(text, 8, u64::from(after))?;
    Ok(())
}

/// `  words 0xFIRST to 0xLAST ` and what is done with them.
#[tactic(auto, unfolding(crate::specs::TraceText::several_text))]
fn push_several(text: &mut String, words: WordRange, done: &str) -> Result<(), AllocError>
    ensures { OnOk result (string_bytes text.new ≡ string_bytes text.old ++ spec.several_text words done.now) }
{
    text.push_str("  words ")?;
    push_hexadecimal(text, 8, words.first)?;
    text.push_str(" to ")?;
    push_hexadecimal(text, 8, words.last)?;
    text.push_str(" ")?;
    text.push_str(done)?;
    Ok(())
}

// ---- where it led

/// `  finished` or `  trap`, where a turn has led there.
#[tactic(auto, unfolding(crate::specs::TraceText::ending_text))]
pub(crate) fn push_ending(text: &mut String, status: Status) -> Result<(), AllocError>
    ensures { OnOk result (string_bytes text.new ≡ string_bytes text.old ++ spec.ending_text status) }
{
    match status {
        Status::Running => Ok(()),
        Status::Finished => text.push_str("  finished"),
        Status::Trapped(_) => text.push_str("  trap"),
    }
}
