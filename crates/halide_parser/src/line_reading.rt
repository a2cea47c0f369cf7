//! A line read from its tokens, its expressions judged.

ghost use Rattle.std.specs.Prelude.{◌≡◌};
ghost use Rattle.line_text.specs.Lines.{Gives};
ghost use Rattle.halide_parser_syntax.specs.inner.LineReading as reading;
ghost use Rattle.halide_parser.specs.inner.Judging.{judging};

use crate::judging::Judged;
use crate::passes::expression;
use crate::readers::AlgorithmReader;
use crate::scopes::NameScope;
use halide_parser_syntax::line_parts::{
    arguments, assigned, bounds, extents, kind, more_bounds, over,
};
use halide_parser_syntax::{AlgorithmLine, Change, Definition, ParseFault, Token};
use line_text::ReadError;
use sqlite_items::Items;

/// Nothing, or a comma and a second index.
#[tactic(auto, unfolding(halide_parser_syntax::specs::inner::LineReading::index))]
fn index<'a>(
    reader: &AlgorithmReader,
    scope: &NameScope,
    tokens: &'a [Token],
) -> Result<(Option<Judged>, &'a [Token]), ReadError<ParseFault>>
    ensures { Gives (λ x. (x.0, x.1.now)) result (reading.index (judging reader.now scope.now) tokens.now) }
{
    match tokens {
        [Token::Comma, rest @ ..] => {
            let (value, rest) = expression(reader, scope, rest)?;
            Ok((Some(value), rest))
        }
        _ => Ok((None, tokens)),
    }
}

/// What is after `func`, the name and its bracket.
#[tactic(auto, unfolding(halide_parser_syntax::specs::inner::LineReading::definition))]
fn definition(
    reader: &AlgorithmReader,
    scope: &NameScope,
    name: &Items<u8>,
    tokens: &[Token],
) -> Result<AlgorithmLine<Judged>, ReadError<ParseFault>>
    ensures { Gives (λ x. x) result (reading.definition (judging reader.now scope.now) name.now tokens.now) }
{
    let ((first_argument, second_argument), behind) = arguments(reader.alloc, tokens)?;
    let (right, rest) = expression(reader, scope, behind)?;
    if !rest.is_empty() {
        return Err(ReadError::Fault(ParseFault::Syntax));
    }
    Ok(AlgorithmLine::Func(Definition {
        name: Items::from_slice(reader.alloc, name.as_slice())?,
        first_argument,
        second_argument,
        right,
    }))
}

/// What is after `update`, the name and its bracket.
#[tactic(auto, unfolding(halide_parser_syntax::specs::inner::LineReading::change))]
fn change(
    reader: &AlgorithmReader,
    scope: &NameScope,
    name: &Items<u8>,
    tokens: &[Token],
) -> Result<AlgorithmLine<Judged>, ReadError<ParseFault>>
    ensures { Gives (λ x. x) result (reading.change (judging reader.now scope.now) name.now tokens.now) }
{
    let (left_x, rest) = expression(reader, scope, tokens)?;
    let (left_y, rest) = index(reader, scope, rest)?;
    let (right, rest) = expression(reader, scope, assigned(rest)?)?;
    let (first, rest) = bounds(reader.alloc, over(rest)?)?;
    let second = more_bounds(reader.alloc, rest)?;
    Ok(AlgorithmLine::Update(Change {
        name: Items::from_slice(reader.alloc, name.as_slice())?,
        left_x,
        left_y,
        right,
        first,
        second,
    }))
}

/// What the tokens of a line say.
///
/// # Errors
///
/// `Syntax` where they are not of the grammar; memory ran out.
#[tactic(auto, unfolding(halide_parser_syntax::specs::inner::LineReading::read_line))]
pub fn read_line(
    reader: &AlgorithmReader,
    scope: &NameScope,
    tokens: &[Token],
) -> Result<AlgorithmLine<Judged>, ReadError<ParseFault>>
    ensures { Gives (λ x. x) result (reading.read_line (judging reader.now scope.now) tokens.now) }
{
    match tokens {
        [] => Ok(AlgorithmLine::Blank),
        [Token::Input, rest @ ..] => {
            let (extents, behind) = extents(reader.alloc, rest)?;
            let is_bytes = kind(behind)?;
            Ok(AlgorithmLine::Input { extents, is_bytes })
        }
        [Token::Output, rest @ ..] => {
            let (extents, behind) = extents(reader.alloc, rest)?;
            if !behind.is_empty() {
                return Err(ReadError::Fault(ParseFault::Syntax));
            }
            Ok(AlgorithmLine::Output(extents))
        }
        [Token::Func, Token::Name(name), Token::Open, rest @ ..] => {
            Ok(definition(reader, scope, name, rest)?)
        }
        [Token::Update, Token::Name(name), Token::Open, rest @ ..] => {
            Ok(change(reader, scope, name, rest)?)
        }
        _ => Err(ReadError::Fault(ParseFault::Syntax)),
    }
}
