//! The texts that say who wrote data.

ghost use Rattle.std.specs.Prelude.{◌≡◌, ◌+◌, ◌-◌, ◌*◌, ◌/◌, ◌<◌, ◌≤◌, ◌++◌, codes, length, unwrap_or, OnOk, IfOk};
ghost use Rattle.std.specs.Fmt.{decimal};
ghost use Rattle.std.specs.String.{string_bytes};
ghost use Rattle.memory.specs.Access.{fetched, most_words};
ghost use Rattle.picture.specs.Reading.{heading, number_text, row_text};
ghost use Rattle.hrv_engines.specs.Blame.{last_text, write_text};
ghost use Rattle.hrv_engines.specs.BlameQuestions.{LiesInData};
ghost use Rattle.hrv_engines.specs.Dump.{hex_word, newline};
ghost use Rattle.hrv_engines.specs.inner.MarkRows.{mark_in, row_in, rows_in};

use crate::dumps::push_hex_word;
use crate::pictures::{push_number, push_picture_heading, push_separated};
use debugger_blame::Write;
use disassembler::write_line;
use loader::Output;
use memory::TEXT_START;
use std::alloc::{AllocError, Global};

/// `never written`, or what is said of the last write.
pub(crate) fn last_lines(
    alloc: Global,
    words: &[u32],
    last: Option<Write>,
) -> Result<Vec<u8>, AllocError>
    requires { length words.now ≤ most_words }
    ensures { IfOk result (λ text. text.items ≡ last_text words.now last) }
{
    let Some(write) = last else {
        return Vec::from_slice(alloc, b"never written\n");
    };
    write_lines(alloc, words, write)
}

/// `turn N hart H pc 0xPPPPPPPP` and the instruction, and below it what the word held before and after.
#[tactic(auto, unfolding(crate::specs::Blame::write_text))]
fn write_lines(alloc: Global, words: &[u32], write: Write) -> Result<Vec<u8>, AllocError>
    requires { length words.now ≤ most_words }
    ensures { IfOk result (λ text. text.items ≡ write_text words.now write) }
{
    let turn = turn_line(alloc, write)?;
    let held = held_lines(alloc, write)?;
    let mut text = turn.into_bytes();
    write_line(word_at(words, write.pc), &mut text)?;
    text.extend_from_slice(held.as_bytes())?;
    Ok(text)
}

/// `turn N hart H pc 0xPPPPPPPP `
fn turn_line(alloc: Global, write: Write) -> Result<String, AllocError>
    ensures { IfOk result (λ text. string_bytes text ≡ codes "turn " ++ decimal write.turn ++ codes " hart "
        ++ decimal write.hart
        ++ codes " pc " ++ hex_word write.pc ++ codes " ") }
{
    let Write { turn, hart, pc, .. } = write;
    let mut text = String::new(alloc);
    write!(text, "turn {turn} hart {hart} pc ")?;
    push_hex_word(&mut text, pc)?;
    text.push_str(" ")?;
    Ok(text)
}

/// `before N` and `after N`, a line each.
fn held_lines(alloc: Global, write: Write) -> Result<String, AllocError>
    ensures { IfOk result (λ text. string_bytes text ≡ codes "before " ++ number_text write.before ++ newline
        ++ codes "after " ++ number_text write.after ++ newline) }
{
    let mut text = String::new(alloc);
    text.push_str("before ")?;
    push_number(&mut text, write.before)?;
    text.push_str("\nafter ")?;
    push_number(&mut text, write.after)?;
    text.push_str("\n")?;
    Ok(text)
}

/// The word of text at an address, and 0 where there is none.
fn word_at(words: &[u32], pc: u32) -> u32
    requires { length words.now ≤ most_words }
    ensures { result ≡ unwrap_or (fetched words.now pc) 0 }
{
    if pc < TEXT_START || !pc.is_multiple_of(4) {
        return 0;
    }
    words
        .get(((pc - TEXT_START) / 4) as usize)
        .copied()
        .unwrap_or(0)
}

/// How many words lie from the first pixel of an output to the last.
pub(crate) fn words_to_the_last(output: Output) -> usize
    requires { LiesInData output }
    ensures { result ≡ (output.height - 1) * (output.stride / 4) + output.width }
{
    ((output.height - 1) * (output.stride / 4) + output.width) as usize
}

/// A picture of an output's size, whose pixels are marks that stand in a list as the pixels stand in data.
pub(crate) fn marks_picture(
    alloc: Global,
    marks: &[u32],
    output: Output,
) -> Result<String, AllocError>
    requires fits { LiesInData output }
    requires count { length marks.now ≡ (output.height - 1) * (output.stride / 4) + output.width }
    ensures { IfOk result (λ text. string_bytes text ≡ heading output.width output.height
        ++ rows_in marks.now output output.height) }
{
    let mut text = String::new(alloc);
    push_picture_heading(&mut text, output.width, output.height)?;
    for y in 0..output.height {
        push_mark_row(&mut text, marks, output, y)?;
    }
    Ok(text)
}

/// The marks of one row, joined by one space, and a newline.
fn push_mark_row(text: &mut String, marks: &[u32], output: Output, y: u32) -> Result<(), AllocError>
    requires fits { LiesInData output }
    requires count { length marks.now ≡ (output.height - 1) * (output.stride / 4) + output.width }
    requires row { y < output.height }
    ensures { OnOk result (string_bytes text.new ≡ string_bytes text.old
        ++ row_text (row_in marks.now output y output.width)) }
{
    for x in 0..output.width {
        push_separated(text, x, mark_of(marks, output, x, y))?;
    }
    text.push_str("\n")?;
    Ok(())
}

/// The mark of one pixel.
fn mark_of(marks: &[u32], output: Output, x: u32, y: u32) -> u32
    requires fits { LiesInData output }
    requires count { length marks.now ≡ (output.height - 1) * (output.stride / 4) + output.width }
    requires column { x < output.width }
    requires row { y < output.height }
    ensures { result ≡ mark_in marks.now output x y }
{
    marks[(y * (output.stride / 4) + x) as usize]
}
