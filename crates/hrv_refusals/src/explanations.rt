//! The lines that explain a refusal.

ghost use Rattle.std.specs.Prelude.{◌≡◌, ◌++◌, OnOk};
ghost use Rattle.std.specs.List.{list_any};
ghost use Rattle.std.specs.Str.{bytes_eq};
ghost use Rattle.line_text.specs.Lines.{lines_of};
ghost use Rattle.hrv_refusals.specs.Explanations as spec;

use crate::table::REFUSALS;
use line_text::lines::first_line;
use std::alloc::AllocError;

/// Whether there is a refusal of this family and code, or with an empty code a family of this name.
#[tactic(auto, unfolding(crate::specs::Explanations::is_explained))]
pub fn is_explained(family: &str, code: &str) -> bool
    ensures { result ≡ spec.is_explained family.now code.now }
{
    is_among(&REFUSALS, family, code)
}

/// Appends what a refusal means: how it is printed, what its family says, and each cause with what helps, a line each.
/// Without a family and a code it appends all families, a line each.
#[tactic(auto, unfolding(crate::specs::Explanations::explanation))]
pub fn push_explanation(out: &mut Vec<u8>, family: &str, code: &str) -> Result<(), AllocError>
    ensures { OnOk result (out.new.items ≡ out.old.items ++ spec.explanation family.now code.now) }
{
    if family.is_empty() && code.is_empty() {
        push_families(out, &REFUSALS)
    } else {
        push_refusal(out, family, code)
    }
}

/// Appends what the refusal of a family and a code means.
#[tactic(auto, unfolding(crate::specs::Explanations::refusal))]
fn push_refusal(out: &mut Vec<u8>, family: &str, code: &str) -> Result<(), AllocError>
    ensures { OnOk result (out.new.items ≡ out.old.items ++ spec.refusal family.now code.now) }
{
    out.extend_from_slice(b"refused ")?;
    push_name(out, family, code)?;
    out.push(b'\n')?;
    push_chosen(out, &REFUSALS, false, family, code)?;
    Ok(())
}

/// Appends the lines of a text that head a family.
fn push_families(out: &mut Vec<u8>, text: &[u8]) -> Result<(), AllocError>
    ensures { OnOk result (out.new.items ≡ out.old.items ++ spec.families (lines_of text.now)) }
{
    if text.is_empty() {
        return Ok(());
    }
    let (line, rest) = first_line(text);
    push_if(out, is_family(line), line)?;
    push_families(out, rest)?;
    Ok(())
}

/// Whether a line heads a family: no blank is in it.
fn is_family(line: &[u8]) -> bool
    ensures { result ≡ spec.is_family line.now }
{
    match line {
        [] => true,
        [byte, line @ ..] => *byte != b' ' && is_family(line),
    }
}

/// Whether one of the lines of a text is the heading of the refusal.
fn is_among(text: &[u8], family: &str, code: &str) -> bool
    ensures { result ≡ list_any (spec.is_heading family.now code.now) (lines_of text.now) }
{
    if text.is_empty() {
        return false;
    }
    let (line, rest) = first_line(text);
    is_heading(line, family, code) || is_among(rest, family, code)
}

/// Appends those lines of a text that stand below a heading of the refusal or of its family, where it is known whether
/// the lines above are chosen.
fn push_chosen(
    out: &mut Vec<u8>,
    text: &[u8],
    is_chosen: bool,
    family: &str,
    code: &str,
) -> Result<(), AllocError>
    ensures { OnOk result (out.new.items ≡ out.old.items ++ spec.chosen is_chosen family.now code.now
        (lines_of text.now)) }
{
    if text.is_empty() {
        return Ok(());
    }
    let (line, rest) = first_line(text);
    if is_indented(line) {
        push_if(out, is_chosen, line)?;
        push_chosen(out, rest, is_chosen, family, code)?;
        return Ok(());
    }
    push_chosen(out, rest, chooses(line, family, code), family, code)?;
    Ok(())
}

/// Appends a line if it is chosen.
fn push_if(out: &mut Vec<u8>, is_chosen: bool, line: &[u8]) -> Result<(), AllocError>
    ensures { OnOk result (out.new.items ≡ out.old.items ++ spec.line_if is_chosen line.now) }
{
    if is_chosen {
        out.extend_from_slice(line)?;
        out.push(b'\n')?;
    }
    Ok(())
}

/// Whether a line is what is in front of the first blank: the family alone, of a family and a code in one word.
#[tactic(auto, unfolding(crate::specs::Explanations::is_front))]
fn is_front(line: &[u8], word: &[u8]) -> bool
    ensures { result ≡ spec.is_front word.now line.now }
{
    match word {
        [] => line.is_empty(),
        [byte, word @ ..] => match line {
            [] => *byte == b' ',
            [first, line @ ..] => *byte != b' ' && (first == byte && is_front(line, word)),
        },
    }
}

/// Whether the lines below a heading are chosen.
fn chooses(line: &[u8], family: &str, code: &str) -> bool
    ensures { result ≡ spec.chooses family.now code.now line.now }
{
    (!is_indented(line) && is_front(line, family.as_bytes())) || is_heading(line, family, code)
}

/// Whether a line begins with a blank.
fn is_indented(line: &[u8]) -> bool
    ensures { result ≡ spec.is_indented line.now }
{
    match line {
        [first, ..] => *first == b' ',
        [] => false,
    }
}

/// Whether a line is the heading of the refusal: its name, before which no blank is.
fn is_heading(line: &[u8], family: &str, code: &str) -> bool
    ensures { result ≡ spec.is_heading family.now code.now line.now }
{
    !is_indented(line) && is_name(line, family.as_bytes(), code.as_bytes())
}

/// Whether a line is a family, and after a blank a code where there is one.
fn is_name(line: &[u8], family: &[u8], code: &[u8]) -> bool
    ensures { result ≡ bytes_eq line.now (spec.name family.now code.now) }
{
    match family {
        [] => is_behind_blank(line, code),
        [wanted, family @ ..] => match line {
            [] => false,
            [first, line @ ..] => first == wanted && is_name(line, family, code),
        },
    }
}

/// Whether a text is a blank and a code, or nothing where there is no code.
fn is_behind_blank(text: &[u8], code: &[u8]) -> bool
    ensures { result ≡ bytes_eq text.now (spec.behind_blank code.now) }
{
    match code {
        [] => text.is_empty(),
        _ => match text {
            [] => false,
            [first, rest @ ..] => *first == b' ' && rest == code,
        },
    }
}

/// The family, and after a blank the code where there is one.
fn push_name(out: &mut Vec<u8>, family: &str, code: &str) -> Result<(), AllocError>
    ensures { OnOk result (out.new.items ≡ out.old.items ++ spec.name family.now code.now) }
{
    out.extend_from_slice(family.as_bytes())?;
    if !code.is_empty() {
        out.push(b' ')?;
        out.extend_from_slice(code.as_bytes())?;
    }
    Ok(())
}
