//! The names that an algorithm's text gives.

ghost use Rattle.std.specs.Prelude.{◌≡◌, ◌++◌, [], IfOk, OnOk};
ghost use Rattle.halide_parser_syntax.specs.Tokens.{tokens_of as tokens_in};
ghost use Rattle.line_text.specs.Lines.{lines_of};
ghost use Rattle.hrv_map.specs.Names as spec;

use halide_parser_syntax::{Token, tokens_of};
use line_text::ReadError;
use line_text::lines::first_line;
use sqlite_items::Items;
use std::alloc::{AllocError, Global};

/// What a line names.
#[derive(Clone, Copy, Debug, PartialEq, Eq)]
pub enum NameKind {
    /// `input NAME ..`
    Inputs,
    /// `func NAME ..`
    Funcs,
}

/// The names of the inputs and of the Funcs, each in order of the text.
#[derive(Drop)]
pub struct SourceNames {
    pub inputs: Items<Items<u8>>,
    pub funcs: Items<Items<u8>>,
}

/// Whether lines of a kind begin with a token.
fn begins(kind: NameKind, token: &Token) -> bool
    ensures { result ≡ spec.begins kind token.now }
{
    match kind {
        NameKind::Inputs => match token {
            Token::Input => true,
            _ => false,
        },
        NameKind::Funcs => match token {
            Token::Func => true,
            _ => false,
        },
    }
}

/// The name that a token is.
fn word_in(alloc: Global, token: &Token) -> Result<Option<Items<u8>>, AllocError>
    ensures { IfOk result (λ name. name ≡ spec.word_in token.now) }
{
    match token {
        Token::Name(name) => Ok(Some(Items::from_slice(alloc, name.as_slice())?)),
        _ => Ok(None),
    }
}

/// What tokens name, if their line is of a kind.
fn name_in(alloc: Global, kind: NameKind, tokens: &[Token]) -> Result<Option<Items<u8>>, AllocError>
    ensures { IfOk result (λ name. name ≡ spec.name_in kind tokens.now) }
{
    let [first, second, ..] = tokens else {
        return Ok(None);
    };
    if !begins(kind, first) {
        return Ok(None);
    }
    let name = word_in(alloc, second)?;
    Ok(name)
}

/// What a line names, if it is of a kind.
fn name_of(alloc: Global, kind: NameKind, line: &[u8]) -> Result<Option<Items<u8>>, AllocError>
    ensures { IfOk result (λ name. name ≡ spec.name_by kind (tokens_in line.now)) }
{
    match tokens_of(alloc, line) {
        Ok(tokens) => {
            let name = name_in(alloc, kind, tokens.as_slice())?;
            Ok(name)
        }
        Err(ReadError::Fault(_)) => Ok(None),
        Err(ReadError::Memory) => Err(AllocError),
    }
}

/// Appends a name, if there is one.
fn push_name(names: &mut Vec<Items<u8>>, name: Option<Items<u8>>) -> Result<(), AllocError>
    ensures { OnOk result (names.new.items ≡ names.old.items ++ spec.and_names name []) }
{
    if let Some(name) = name {
        names.push(name)?;
    }
    Ok(())
}

/// The names of a kind in a text.
fn names_in(alloc: Global, kind: NameKind, text: &[u8]) -> Result<Vec<Items<u8>>, AllocError>
    ensures { IfOk result (λ names. names.items ≡ spec.names_in kind (lines_of text.now)) }
{
    let mut names = Vec::new(alloc);
    let mut rest = text;
    'lines: while !rest.is_empty() {
        let (line, after) = first_line(rest);
        let name = name_of(alloc, kind, line)?;
        push_name(&mut names, name)?;
        rest = after;
    }
    Ok(names)
}

/// The names that an algorithm's text gives its inputs and its Funcs.
///
/// # Errors
///
/// Memory ran out.
pub fn names_of(alloc: Global, algorithm: &str) -> Result<SourceNames, AllocError>
    ensures { IfOk result (λ names. names ≡ spec.names_of algorithm.now) }
{
    let inputs = names_in(alloc, NameKind::Inputs, algorithm.as_bytes())?;
    let funcs = names_in(alloc, NameKind::Funcs, algorithm.as_bytes())?;
    Ok(SourceNames {
        inputs: Items::from_vec(inputs),
        funcs: Items::from_vec(funcs),
    })
}

/// The name at a place.
pub fn name_at(names: &Items<Items<u8>>, index: usize) -> &[u8]
    ensures { result.now ≡ spec.name_at names.now index }
{
    match names.get(index) {
        Some(name) => name.as_slice(),
        None => &[],
    }
}
