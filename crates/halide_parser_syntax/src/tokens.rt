//! The tokens of a line.

ghost use Rattle.std.specs.Prelude.{◌≡◌, ◌≤◌, ◌<◌, length, IfOk};
ghost use Rattle.line_text.specs.Lines.{Gives};
ghost use Rattle.halide_parser_syntax.specs.Tokens as spec;

use crate::faults::ParseFault;
use line_text::ReadError;
use line_text::numbers::saturating_number;
use line_text::spans::{begins_name, digits_len, ends, is_digit, name_len, skip_blanks};
use sqlite_items::Items;
use std::alloc::{AllocError, Global};

/// What joins factors.
#[derive(Clone, Copy, Debug, PartialEq, Eq)]
pub enum ProductOperator {
    Multiply,
    Divide,
    Remainder,
}

/// What joins terms. A minus is also a sign.
#[derive(Clone, Copy, Debug, PartialEq, Eq)]
pub enum SumOperator {
    Add,
    Subtract,
}

/// What compares sums.
#[derive(Clone, Copy, Debug, PartialEq, Eq)]
pub enum CompareOperator {
    Less,
    LessOrEqual,
    Greater,
    GreaterOrEqual,
    Equal,
    NotEqual,
}

/// The reserved functions of two operands.
#[derive(Clone, Copy, Debug, PartialEq, Eq)]
pub enum TwoFunction {
    Minimum,
    Maximum,
}

/// The reserved functions of three operands.
#[derive(Clone, Copy, Debug, PartialEq, Eq)]
pub enum ThreeFunction {
    Clamp,
    Select,
}

/// A word, a number or a mark.
#[derive(Debug, Drop)]
pub enum Token {
    /// A word that is not reserved.
    Name(Items<u8>),
    /// A number; one of 2^31 or more is kept as 2^31.
    Number(u32),
    Input,
    Func,
    Update,
    Output,
    Over,
    Two(TwoFunction),
    Three(ThreeFunction),
    Open,
    Close,
    Comma,
    Assign,
    Product(ProductOperator),
    Sum(SumOperator),
    Compare(CompareOperator),
}

/// The token of a word.
fn word(alloc: Global, bytes: &[u8]) -> Result<Token, AllocError>
    ensures { IfOk result (λ token. token ≡ spec.word bytes.now) }
{
    if bytes == b"input".as_slice() {
        Ok(Token::Input)
    } else if bytes == b"func".as_slice() {
        Ok(Token::Func)
    } else if bytes == b"update".as_slice() {
        Ok(Token::Update)
    } else if bytes == b"output".as_slice() {
        Ok(Token::Output)
    } else if bytes == b"over".as_slice() {
        Ok(Token::Over)
    } else if bytes == b"min".as_slice() {
        Ok(Token::Two(TwoFunction::Minimum))
    } else if bytes == b"max".as_slice() {
        Ok(Token::Two(TwoFunction::Maximum))
    } else if bytes == b"clamp".as_slice() {
        Ok(Token::Three(ThreeFunction::Clamp))
    } else if bytes == b"select".as_slice() {
        Ok(Token::Three(ThreeFunction::Select))
    } else {
        Ok(Token::Name(Items::from_slice(alloc, bytes)?))
    }
}

/// The first where `=` follows, which is then taken too, else the second.
fn then_equals(rest: &[u8], double: Token, single: Token) -> (Token, &[u8])
    ensures value { (result.0, result.1.now) ≡ spec.then_equals rest.now double single }
    ensures within { length result.1.now ≤ length rest.now }
{
    match rest {
        [b'=', rest @ ..] => (double, rest),
        _ => (single, rest),
    }
}

/// The token of a mark that begins with a byte, and what follows.
fn mark(byte: u8, rest: &[u8]) -> Result<(Token, &[u8]), ReadError<ParseFault>>
    ensures value { Gives (λ x. (x.0, x.1.now)) result (spec.mark byte rest.now) }
    ensures within { IfOk result (λ x. length x.1.now ≤ length rest.now) }
{
    match byte {
        b'(' => Ok((Token::Open, rest)),
        b')' => Ok((Token::Close, rest)),
        b',' => Ok((Token::Comma, rest)),
        b'+' => Ok((Token::Sum(SumOperator::Add), rest)),
        b'-' => Ok((Token::Sum(SumOperator::Subtract), rest)),
        b'*' => Ok((Token::Product(ProductOperator::Multiply), rest)),
        b'/' => Ok((Token::Product(ProductOperator::Divide), rest)),
        b'%' => Ok((Token::Product(ProductOperator::Remainder), rest)),
        b'=' => {
            let equal = Token::Compare(CompareOperator::Equal);
            Ok(then_equals(rest, equal, Token::Assign))
        }
        b'<' => {
            let or_equal = Token::Compare(CompareOperator::LessOrEqual);
            Ok(then_equals(rest, or_equal, Token::Compare(CompareOperator::Less)))
        }
        b'>' => {
            let or_equal = Token::Compare(CompareOperator::GreaterOrEqual);
            Ok(then_equals(rest, or_equal, Token::Compare(CompareOperator::Greater)))
        }
        b'!' => match rest {
            [b'=', rest @ ..] => Ok((Token::Compare(CompareOperator::NotEqual), rest)),
            _ => Err(ReadError::Fault(ParseFault::Syntax)),
        },
        _ => Err(ReadError::Fault(ParseFault::Syntax)),
    }
}

/// The number that digits spell, or 2^31 where it is more.
fn number(digits: &[u8]) -> u32
    ensures { result ≡ spec.number digits.now }
{
    saturating_number(digits, 0x7fff_ffff) as u32
}

/// The token at the front, and what follows it.
#[tactic(auto, unfolding(crate::specs::Tokens::front_token))]
fn front_token(alloc: Global, bytes: &[u8]) -> Result<(Token, &[u8]), ReadError<ParseFault>>
    ensures value { Gives (λ x. (x.0, x.1.now)) result (spec.front_token bytes.now) }
    ensures shorter { IfOk result (λ x. length x.1.now < length bytes.now) }
{
    match bytes {
        [] => Err(ReadError::Fault(ParseFault::Syntax)),
        [first, rest @ ..] => {
            if begins_name(*first) {
                let (name, rest) = bytes.split_at(name_len(bytes));
                Ok((word(alloc, name)?, rest))
            } else if is_digit(*first) {
                let (digits, rest) = bytes.split_at(digits_len(bytes));
                Ok((Token::Number(number(digits)), rest))
            } else {
                mark(*first, rest)
            }
        }
    }
}

/// The tokens of a line, up to its comment.
///
/// # Errors
///
/// `Syntax` where bytes stand that are no token; memory ran out.
pub fn tokens_of(alloc: Global, line: &[u8]) -> Result<Vec<Token>, ReadError<ParseFault>>
    ensures { Gives (λ tokens. tokens.items) result (spec.tokens_of line.now) }
{
    let mut tokens = Vec::new(alloc);
    let mut rest = line;
    'tokens: loop {
        let text = skip_blanks(rest);
        if ends(text) {
            return Ok(tokens);
        }
        let (next, after) = front_token(alloc, text)?;
        tokens.push(next)?;
        rest = after;
    }
}
