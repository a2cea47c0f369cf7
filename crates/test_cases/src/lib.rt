//! Cases in files, for the programs that answer them.
//!
//! A file is a text of lines. A case begins at `== KIND NAME`; before the first one stand comments (`#`) and empty
//! lines. A part of a case begins at `-- NAME`, and its text is all lines up to the next part or case, each with its
//! line feed. Where `in pieces` is after the part's name, each line is `COUNT TEXT` and means the text this many
//! times, without a line feed; in the text `\n`, `\r`, `\t`, `\s`, `\0` and `\\` stand for a line feed, a carriage
//! return, a tab, a space, a zero byte and a backslash. A text may stand in hexadecimal too, with `in hexadecimal`
//! after the part's name. The last part of each case is named `answer`, and is what the rules say of the case.
//!
//! - [`read_cases`]: the cases of a file's text.
//! - [`judge_file`]: a program's answers beside those that stand in a file.
#![tactic(auto)]

mod faults;
mod judging;

pub use crate::faults::CaseFault;
pub use crate::judging::judge_file;
use std::alloc::{AllocError, Global};

/// One case: what is asked, its name, and its parts in their order.
#[derive(Drop)]
pub struct Case {
    pub kind: String,
    pub name: String,
    pub parts: Vec<Part>,
}

/// A text of a case.
#[derive(Drop)]
pub struct Part {
    pub name: String,
    form: PartForm,
    pub text: String,
}

/// How the lines of a part stand for its text.
#[derive(Debug, Clone, Copy, PartialEq)]
enum PartForm {
    Lines,
    Pieces,
    /// The text is the digits of bytes.
    Hexadecimal,
}

impl Case {
    /// The parts that ask, and the answer.
    pub fn asked(&self) -> Result<(&[Part], &str), CaseFault> {
        match self.parts.as_slice() {
            [asked @ .., answer] => Ok((asked, answer.named("answer")?)),
            [] => Err(CaseFault::Malformed("a case without an answer")),
        }
    }
}

impl Part {
    /// The text, where the part has this name.
    pub fn named(&self, name: &str) -> Result<&str, CaseFault> {
        if self.name.as_str() == name {
            Ok(self.text.as_str())
        } else {
            Err(CaseFault::Malformed("a part has another name"))
        }
    }

    /// The bytes of the text, or those that its digits stand for, where the part has this name.
    pub fn bytes(&self, alloc: Global, name: &str) -> Result<Vec<u8>, CaseFault> {
        let text = self.named(name)?;
        match self.form {
            PartForm::Hexadecimal => bytes_of(alloc, text),
            PartForm::Lines | PartForm::Pieces => Ok(text.as_bytes().to_vec(alloc)?),
        }
    }
}

/// The bytes of lines of hexadecimal digits.
pub fn bytes_of(alloc: Global, lines: &str) -> Result<Vec<u8>, CaseFault> {
    let mut bytes = Vec::new(alloc);
    for line in lines.lines() {
        let Ok(found) = hex::decode(alloc, line) else {
            return Err(CaseFault::Malformed("a line that is not in hexadecimal"));
        };
        bytes.extend_from_slice(&found)?;
    }
    Ok(bytes)
}

/// The cases of a file's text, up to the end or to the first line that is malformed.
pub fn read_cases(alloc: Global, text: &str) -> Result<Vec<Case>, CaseFault> {
    let mut cases = Vec::new(alloc);
    for line in text.lines() {
        take_line(alloc, &mut cases, line)?;
    }
    Ok(cases)
}

/// Adds a line to the cases so far.
fn take_line(alloc: Global, cases: &mut Vec<Case>, line: &str) -> Result<(), CaseFault> {
    if let Some(heading) = line.strip_prefix("== ") {
        cases.push(headed(alloc, heading)?)?;
        return Ok(());
    }
    match cases.last_mut() {
        Some(case) => take_part_line(alloc, &mut case.parts, line),
        None if line.is_empty() || line.starts_with('#') => Ok(()),
        None => Err(CaseFault::Malformed("a line before the first case")),
    }
}

/// A case without parts, with a heading's kind and name.
fn headed(alloc: Global, heading: &str) -> Result<Case, CaseFault> {
    let Some((kind, name)) = heading.split_once(' ') else {
        return Err(CaseFault::Malformed("a case without a name"));
    };
    Ok(Case {
        kind: String::from_str(alloc, kind)?,
        name: String::from_str(alloc, name)?,
        parts: Vec::new(alloc),
    })
}

/// Adds a line of a case to its parts.
fn take_part_line(alloc: Global, parts: &mut Vec<Part>, line: &str) -> Result<(), CaseFault> {
    if let Some(name) = line.strip_prefix("-- ") {
        parts.push(begun(alloc, name)?)?;
        return Ok(());
    }
    match parts.last_mut() {
        Some(part) => part.take_line(alloc, line),
        None => Err(CaseFault::Malformed("a line before the first part")),
    }
}

/// A part without lines.
fn begun(alloc: Global, heading: &str) -> Result<Part, AllocError> {
    let (name, form) = named_form(heading);
    Ok(Part {
        name: String::from_str(alloc, name)?,
        form,
        text: String::new(alloc),
    })
}

/// A part's name and form, as its heading says them.
fn named_form(heading: &str) -> (&str, PartForm) {
    if let Some(name) = heading.strip_suffix(" in pieces") {
        return (name, PartForm::Pieces);
    }
    match heading.strip_suffix(" in hexadecimal") {
        Some(name) => (name, PartForm::Hexadecimal),
        None => (heading, PartForm::Lines),
    }
}

impl Part {
    /// Adds a line as it is, or what its piece says.
    fn take_line(&mut self, alloc: Global, line: &str) -> Result<(), CaseFault> {
        if self.form == PartForm::Pieces {
            return push_piece(alloc, &mut self.text, line);
        }
        self.text.push_str(line)?;
        self.text.push_str("\n")?;
        Ok(())
    }
}

/// Appends a text this many times, both as a line says.
fn push_piece(alloc: Global, text: &mut String, line: &str) -> Result<(), CaseFault> {
    let Some((count, piece)) = line.split_once(' ') else {
        return Err(CaseFault::Malformed("a piece without a text"));
    };
    let Ok(count) = count.parse::<u32>() else {
        return Err(CaseFault::Malformed("a piece without a count"));
    };
    let piece = unescaped(alloc, piece)?;
    for _ in 0..count {
        text.push_str(piece.as_str())?;
    }
    Ok(())
}

/// A text with the bytes that its backslashes stand for.
fn unescaped(alloc: Global, piece: &str) -> Result<String, CaseFault> {
    let mut text = String::new(alloc);
    let mut is_escaped = false;
    for letter in piece.chars() {
        if is_escaped {
            text.push(escape(letter)?)?;
            is_escaped = false;
        } else if letter == '\\' {
            is_escaped = true;
        } else {
            text.push(letter)?;
        }
    }
    if is_escaped {
        return Err(CaseFault::Malformed("a backslash at the end of a piece"));
    }
    Ok(text)
}

/// What a letter after a backslash stands for.
fn escape(letter: char) -> Result<char, CaseFault> {
    match letter {
        'n' => Ok('\n'),
        'r' => Ok('\r'),
        't' => Ok('\t'),
        's' => Ok(' '),
        '0' => Ok('\0'),
        '\\' => Ok('\\'),
        _ => Err(CaseFault::Malformed("an unknown letter behind a backslash")),
    }
}
