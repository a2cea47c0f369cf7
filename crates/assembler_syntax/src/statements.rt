//! What the tokens of a line say.

ghost use Rattle.std.specs.Prelude.{◌≡◌, ◌<◌, ◌==◌, List, [], ◌∷◌, ◌++◌, Some, None, length, take, option_map, if◌then◌else◌, IfOk, IfSome, OnOk};
ghost use Rattle.std.specs.List.{list_all};
ghost use Rattle.line_text.specs.Lines.{continues_name};
ghost use Rattle.assembler_syntax.specs.Statements as spec;
ghost use Rattle.assembler_syntax.specs.Tokens.{tokens_of};
ghost use Rattle.assembler_syntax.specs.inner.Fronts as inner;
ghost use Rattle.assembler_syntax.specs.declared.statements.Operand.{Operand};
ghost use Rattle.assembler_syntax.specs.declared.statements.Operand.TheVariants.{Bracketed};
ghost use Rattle.assembler_syntax.specs.declared.tokens.AssemblyToken.TheVariants.{Word};

use crate::tokens::{AssemblyToken, next_token};
use line_text::spans::{begins_name, continues_name, ends, skip_blanks};
use sqlite_items::Items;
use std::alloc::{AllocError, Global};

/// No label is longer, in bytes.
const MOST_LABEL: usize = 64;

/// An operand, before anything is known of its words.
#[derive(Debug, Drop)]
pub enum Operand {
    /// A register, a label or a name.
    Word(Items<u8>),
    /// A number, capped as in its token.
    Number(i64),
    /// `number(word)`.
    Based(i64, Items<u8>),
    /// `(word)`.
    Bracketed(Items<u8>),
}

/// A mnemonic and its operands.
#[derive(Debug, Drop)]
pub struct MnemonicLine {
    pub mnemonic: Items<u8>,
    pub operands: Items<Operand>,
}

/// What a line says: a label, a mnemonic with its operands, both or neither.
#[derive(Debug, Drop)]
pub struct Statement {
    pub label: Option<Items<u8>>,
    pub command: Option<MnemonicLine>,
}

/// The front of a line, whatever follows.
#[derive(Debug, Drop)]
pub struct Head {
    pub label: Option<Items<u8>>,
    pub mnemonic: Option<Items<u8>>,
    /// The number that is the only thing after the mnemonic, if that is so.
    pub number: Option<i64>,
}

/// Whether a word begins as a label does.
fn begins_label(word: &[u8]) -> bool
    ensures { result ≡ spec.begins_label word.now }
{
    match word {
        [first, ..] => begins_name(*first),
        [] => false,
    }
}

/// Whether all bytes can be later ones of a name.
fn continues_label(word: &[u8]) -> bool
    ensures { result ≡ list_all continues_name word.now }
{
    word.iter().all(|&byte| continues_name(byte))
}

/// Whether a word can be a label: a letter or `_`, then letters, digits and `_`, at most 64 bytes in all.
pub fn is_label(word: &[u8]) -> bool
    ensures { result ≡ spec.is_label word.now }
{
    begins_label(word) && continues_label(word) && word.len() <= MOST_LABEL
}

/// The operand, where nothing follows it but a comma, and what follows the comma, if there is one.
fn ended(
    alloc: Global,
    operand: Operand,
    bytes: &[u8],
) -> Result<Option<(Operand, Option<&[u8]>)>, AllocError>
    ensures value { IfOk result (λ front. option_map (λ x. (x.0, option_map (λ more. tokens_of more.now) x.1)) front
        ≡ inner.ended operand (tokens_of bytes.now)) }
    ensures shorter { IfOk result (λ front. IfSome front
        (λ x. IfSome x.1 (λ more. length more.now < length bytes.now))) }
{
    let Some((token, more)) = next_token(alloc, bytes)? else {
        return Ok(Some((operand, None)));
    };
    match token {
        AssemblyToken::Comma => Ok(Some((operand, Some(more)))),
        _ => Ok(None),
    }
}

/// The word and what follows the `)` after it, if that stands there.
fn closed_after(
    alloc: Global,
    base: Items<u8>,
    bytes: &[u8],
) -> Result<Option<(Items<u8>, &[u8])>, AllocError>
    ensures value { IfOk result (λ closed. option_map (λ x. (x.0, tokens_of x.1.now)) closed
        ≡ inner.closed (Word base ∷ tokens_of bytes.now)) }
    ensures shorter { IfOk result (λ closed. IfSome closed (λ x. length x.1.now < length bytes.now)) }
{
    let Some((AssemblyToken::Close, rest)) = next_token(alloc, bytes)? else {
        return Ok(None);
    };
    Ok(Some((base, rest)))
}

/// The word before `)`, and what follows, if they stand there.
fn closed(alloc: Global, bytes: &[u8]) -> Result<Option<(Items<u8>, &[u8])>, AllocError>
    ensures value { IfOk result (λ closed. option_map (λ x. (x.0, tokens_of x.1.now)) closed
        ≡ inner.closed (tokens_of bytes.now)) }
    ensures shorter { IfOk result (λ closed. IfSome closed (λ x. length x.1.now < length bytes.now)) }
{
    let Some((token, rest)) = next_token(alloc, bytes)? else {
        return Ok(None);
    };
    match token {
        AssemblyToken::Word(base) => closed_after(alloc, base, rest),
        _ => Ok(None),
    }
}

/// The operand that a number begins.
fn number_front(
    alloc: Global,
    number: i64,
    bytes: &[u8],
) -> Result<Option<(Operand, Option<&[u8]>)>, AllocError>
    ensures value { IfOk result (λ front. option_map (λ x. (x.0, option_map (λ more. tokens_of more.now) x.1)) front
        ≡ inner.number_front number (tokens_of bytes.now)) }
    ensures shorter { IfOk result (λ front. IfSome front
        (λ x. IfSome x.1 (λ more. length more.now < length bytes.now))) }
{
    let Some((AssemblyToken::Open, rest)) = next_token(alloc, bytes)? else {
        return ended(alloc, Operand::Number(number), bytes);
    };
    match closed(alloc, rest)? {
        Some((base, rest)) => ended(alloc, Operand::Based(number, base), rest),
        None => Ok(None),
    }
}

/// The operand that `(` begins.
fn bracket_front(
    alloc: Global,
    bytes: &[u8],
) -> Result<Option<(Operand, Option<&[u8]>)>, AllocError>
    ensures value { IfOk result (λ front. option_map (λ x. (x.0, option_map (λ more. tokens_of more.now) x.1)) front
        ≡ inner.based Bracketed (inner.closed (tokens_of bytes.now))) }
    ensures shorter { IfOk result (λ front. IfSome front
        (λ x. IfSome x.1 (λ more. length more.now < length bytes.now))) }
{
    match closed(alloc, bytes)? {
        Some((base, rest)) => ended(alloc, Operand::Bracketed(base), rest),
        None => Ok(None),
    }
}

/// The operand at the front, which ends with the line or at a comma, and what follows the comma, if there is one.
fn operand_front(
    alloc: Global,
    bytes: &[u8],
) -> Result<Option<(Operand, Option<&[u8]>)>, AllocError>
    ensures value { IfOk result (λ front. option_map (λ x. (x.0, option_map (λ more. tokens_of more.now) x.1)) front
        ≡ inner.operand_front (tokens_of bytes.now)) }
    ensures shorter { IfOk result (λ front. IfSome front
        (λ x. IfSome x.1 (λ more. length more.now < length bytes.now))) }
{
    let Some((token, rest)) = next_token(alloc, bytes)? else {
        return Ok(None);
    };
    match token {
        AssemblyToken::Word(word) => ended(alloc, Operand::Word(word), rest),
        AssemblyToken::Number(number) => number_front(alloc, number, rest),
        AssemblyToken::Open => bracket_front(alloc, rest),
        _ => Ok(None),
    }
}

/// Whether the line or its text ends before another token.
fn is_over(bytes: &[u8]) -> bool
    ensures { result ≡ (length (tokens_of bytes.now) == 0) }
{
    ends(skip_blanks(bytes))
}

/// Keeps one operand more, while they are fewer than the most.
fn keep(operands: &mut Items<Operand>, operand: Operand, most: usize) -> Result<(), AllocError>
    ensures { OnOk result ((front : List Operand) → operands.old ≡ take most front
        → operands.new ≡ take most (front ++ operand ∷ [])) }
{
    if operands.len() < most {
        operands.push(operand)?;
    }
    Ok(())
}

/// The operands between commas, none where no token is left, or nothing where a piece is no operand. No more are kept
/// than the most.
fn operands_of(
    alloc: Global,
    bytes: &[u8],
    most: usize,
) -> Result<Option<Items<Operand>>, AllocError>
    ensures { IfOk result (λ operands. operands ≡ option_map (take most) (spec.operands_of (tokens_of bytes.now))) }
{
    let mut operands = Items::new(alloc);
    if is_over(bytes) {
        return Ok(Some(operands));
    }
    let mut rest = bytes;
    'pieces: loop {
        let Some((operand, after)) = operand_front(alloc, rest)? else {
            return Ok(None);
        };
        keep(&mut operands, operand, most)?;
        let Some(more) = after else {
            return Ok(Some(operands));
        };
        rest = more;
    }
}

/// What a mnemonic and the operands after it say.
fn commanded(
    alloc: Global,
    label: Option<Items<u8>>,
    mnemonic: Items<u8>,
    bytes: &[u8],
    most: usize,
) -> Result<Option<Statement>, AllocError>
    ensures { IfOk result (λ statement. statement ≡ option_map (spec.up_to most)
        (spec.commanded label mnemonic (spec.operands_of (tokens_of bytes.now)))) }
{
    let Some(operands) = operands_of(alloc, bytes, most)? else {
        return Ok(None);
    };
    Ok(Some(Statement {
        label,
        command: Some(MnemonicLine { mnemonic, operands }),
    }))
}

/// What the tokens after a label say.
fn behind_label(
    alloc: Global,
    label: Items<u8>,
    bytes: &[u8],
    most: usize,
) -> Result<Option<Statement>, AllocError>
    ensures { IfOk result (λ statement. statement ≡ option_map (spec.up_to most)
        (spec.behind_label (Some label) (tokens_of bytes.now))) }
{
    let Some((token, rest)) = next_token(alloc, bytes)? else {
        return Ok(Some(Statement {
            label: Some(label),
            command: None,
        }));
    };
    match token {
        AssemblyToken::Word(mnemonic) => commanded(alloc, Some(label), mnemonic, rest, most),
        _ => Ok(None),
    }
}

/// What follows a colon at the front, if there is one.
fn behind_colon(alloc: Global, bytes: &[u8]) -> Result<Option<&[u8]>, AllocError>
    ensures { IfOk result (λ rest. option_map (λ more. tokens_of more.now) rest
        ≡ inner.behind_colon (tokens_of bytes.now)) }
{
    let Some((token, rest)) = next_token(alloc, bytes)? else {
        return Ok(None);
    };
    match token {
        AssemblyToken::Colon => Ok(Some(rest)),
        _ => Ok(None),
    }
}

/// What a line says that begins with a word.
#[tactic(auto, using(crate::proofs::Labels::no_label))]
fn behind_word(
    alloc: Global,
    word: Items<u8>,
    bytes: &[u8],
    most: usize,
) -> Result<Option<Statement>, AllocError>
    ensures { IfOk result (λ statement. statement ≡ option_map (spec.up_to most)
        (spec.statement_of (Word word ∷ tokens_of bytes.now))) }
{
    let Some(rest) = behind_colon(alloc, bytes)? else {
        return commanded(alloc, None, word, bytes, most);
    };
    if is_label(word.as_slice()) {
        behind_label(alloc, word, rest, most)
    } else {
        Ok(None)
    }
}

/// What a line says, or nothing where its tokens are no statement. Of its operands no more are kept than the most.
#[tactic(auto, unfolding(crate::specs::Statements::statement_of))]
pub fn statement_of(
    alloc: Global,
    line: &[u8],
    most: usize,
) -> Result<Option<Statement>, AllocError>
    ensures { IfOk result (λ statement. statement ≡ option_map (spec.up_to most)
        (spec.statement_of (tokens_of line.now))) }
{
    let Some((token, rest)) = next_token(alloc, line)? else {
        return Ok(Some(Statement {
            label: None,
            command: None,
        }));
    };
    match token {
        AssemblyToken::Word(word) => behind_word(alloc, word, rest, most),
        _ => Ok(None),
    }
}

/// The number that is the only token left, if that is so.
fn only_number(alloc: Global, bytes: &[u8]) -> Result<Option<i64>, AllocError>
    ensures { IfOk result (λ number. number ≡ spec.only_number (tokens_of bytes.now)) }
{
    let Some((AssemblyToken::Number(number), rest)) = next_token(alloc, bytes)? else {
        return Ok(None);
    };
    if is_over(rest) {
        Ok(Some(number))
    } else {
        Ok(None)
    }
}

/// The front of a line after its label.
fn command_head(alloc: Global, label: Option<Items<u8>>, bytes: &[u8]) -> Result<Head, AllocError>
    ensures { IfOk result (λ head. head ≡ spec.command_head label (tokens_of bytes.now)) }
{
    let Some((token, rest)) = next_token(alloc, bytes)? else {
        return Ok(Head {
            label,
            mnemonic: None,
            number: None,
        });
    };
    match token {
        AssemblyToken::Word(mnemonic) => Ok(Head {
            label,
            mnemonic: Some(mnemonic),
            number: only_number(alloc, rest)?,
        }),
        _ => Ok(Head {
            label,
            mnemonic: None,
            number: None,
        }),
    }
}

/// A word as a label, if it can be one.
fn label_of(word: Items<u8>) -> Option<Items<u8>>
    ensures { result ≡ (if spec.is_label word then Some word else None) }
{
    if is_label(word.as_slice()) {
        Some(word)
    } else {
        None
    }
}

/// The front of a line that begins with a word.
#[tactic(auto, using(crate::proofs::Labels::no_label_head))]
fn word_head(alloc: Global, word: Items<u8>, bytes: &[u8]) -> Result<Head, AllocError>
    ensures { IfOk result (λ head. head ≡ spec.head_of (Word word ∷ tokens_of bytes.now)) }
{
    let Some(rest) = behind_colon(alloc, bytes)? else {
        let number = only_number(alloc, bytes)?;
        return Ok(Head {
            label: None,
            mnemonic: Some(word),
            number,
        });
    };
    command_head(alloc, label_of(word), rest)
}

/// The front of a line that has none.
fn no_head() -> Head
    ensures { result ≡ spec.command_head None [] }
{
    Head {
        label: None,
        mnemonic: None,
        number: None,
    }
}

/// The front of a line: its label and mnemonic, whatever follows.
#[tactic(auto, unfolding(crate::specs::Statements::head_of))]
pub fn head_of(alloc: Global, line: &[u8]) -> Result<Head, AllocError>
    ensures { IfOk result (λ head. head ≡ spec.head_of (tokens_of line.now)) }
{
    let Some((token, rest)) = next_token(alloc, line)? else {
        return Ok(no_head());
    };
    match token {
        AssemblyToken::Word(word) => word_head(alloc, word, rest),
        _ => Ok(no_head()),
    }
}
