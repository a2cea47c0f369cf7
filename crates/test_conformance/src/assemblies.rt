//! Assembly texts, and the lines of words.

use crate::algorithms::push_bytes;
use crate::failures::CaseFailure;
use assembler::assemble;
use disassembler::write_line;
use loader::Output;
use std::alloc::{AllocError, Global};
use test_cases::Part;

/// What an assembly text becomes: its entry, its words, its bytes and its picture.
pub fn push_object(alloc: Global, parts: &[Part], out: &mut String) -> Result<(), CaseFailure> {
    let [text] = parts else {
        return Err(CaseFailure::Malformed("not one part"));
    };
    let object = assemble(text.named("text")?, alloc)?;
    let entry = object.entry();
    writeln!(out, "entry 0x{entry:08x}")?;
    push_words(object.words(), out)?;
    push_data(object.data(), out)?;
    push_output(object.output(), out)?;
    Ok(())
}

/// The words of text, a line for each run of the same.
fn push_words(words: &[u32], out: &mut String) -> Result<(), AllocError> {
    let mut run = None;
    for word in words {
        run = match run {
            Some((same, count)) if same == *word => Some((same, saturating_next(count))),
            _ => {
                push_word_run(run, out)?;
                Some((*word, 1))
            }
        };
    }
    push_word_run(run, out)
}

fn push_word_run(run: Option<(u32, u64)>, out: &mut String) -> Result<(), AllocError> {
    match run {
        None => Ok(()),
        Some((word, 1)) => writeln!(out, "word 0x{word:08x}"),
        Some((word, count)) => writeln!(out, "word 0x{word:08x} x {count}"),
    }
}

/// The bytes of data, a line for each run of the same.
fn push_data(bytes: &[u8], out: &mut String) -> Result<(), AllocError> {
    let mut run = None;
    for byte in bytes {
        run = match run {
            Some((same, count)) if same == *byte => Some((same, saturating_next(count))),
            _ => {
                push_byte_run(run, out)?;
                Some((*byte, 1))
            }
        };
    }
    push_byte_run(run, out)
}

fn push_byte_run(run: Option<(u8, u64)>, out: &mut String) -> Result<(), AllocError> {
    match run {
        None => Ok(()),
        Some((byte, 1)) => writeln!(out, "byte 0x{byte:02x}"),
        Some((byte, count)) => writeln!(out, "byte 0x{byte:02x} x {count}"),
    }
}

/// One more; no text has this many that it would not be.
fn saturating_next(count: u64) -> u64 {
    count.saturating_add(1)
}

fn push_output(output: Option<Output>, out: &mut String) -> Result<(), AllocError> {
    let Some(output) = output else {
        return Ok(());
    };
    let Output {
        address,
        width,
        height,
        stride,
    } = output;
    writeln!(out, "output 0x{address:08x} {width} {height} {stride}")
}

/// The line of each word, which the case has in hexadecimal.
pub fn push_listing(alloc: Global, parts: &[Part], out: &mut String) -> Result<(), CaseFailure> {
    let [words] = parts else {
        return Err(CaseFailure::Malformed("not one part"));
    };
    let mut lines = Vec::new(alloc);
    for word in words.named("words")?.lines() {
        let Ok(word) = u32::from_str_radix(word, 16) else {
            return Err(CaseFailure::Malformed("a line that is no word"));
        };
        write_line(word, &mut lines)?;
    }
    push_bytes(&lines, out)
}
