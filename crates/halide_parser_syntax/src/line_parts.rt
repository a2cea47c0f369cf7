//! The parts of a line that are no expressions, each read from the front of its tokens.

ghost use Rattle.std.specs.Prelude.{◌≡◌, IfOk};
ghost use Rattle.line_text.specs.Lines.{Gives};
ghost use Rattle.halide_parser_syntax.specs.inner.LineReading as spec;

use crate::faults::ParseFault;
use crate::lines::{NamedExtents, ReductionBounds};
use crate::tokens::{SumOperator, Token};
use line_text::ReadError;
use sqlite_items::Items;
use std::alloc::{AllocError, Global};

fn copied(alloc: Global, name: &Items<u8>) -> Result<Items<u8>, AllocError>
    ensures { IfOk result (λ copy. copy ≡ name.now) }
{
    Items::from_slice(alloc, name.as_slice())
}

/// A name with one or two extents, and the tokens after it.
///
/// # Errors
///
/// `Syntax` where the tokens are other; memory ran out.
#[tactic(auto, unfolding(crate::specs::inner::LineReading::extents))]
pub fn extents(
    alloc: Global,
    tokens: &[Token],
) -> Result<(NamedExtents, &[Token]), ReadError<ParseFault>>
    ensures { Gives (λ x. (x.0, x.1.now)) result (spec.extents tokens.now) }
{
    match tokens {
        [
            Token::Name(name),
            Token::Number(width),
            Token::Number(height),
            rest @ ..,
        ] => {
            let name = copied(alloc, name)?;
            let height = Some(*height);
            Ok((
                NamedExtents {
                    name,
                    width: *width,
                    height,
                },
                rest,
            ))
        }
        [Token::Name(name), Token::Number(width), rest @ ..] => {
            let name = copied(alloc, name)?;
            Ok((
                NamedExtents {
                    name,
                    width: *width,
                    height: None,
                },
                rest,
            ))
        }
        _ => Err(ReadError::Fault(ParseFault::Syntax)),
    }
}

/// Whether an input's pixels are bytes: nothing, or `u8` and nothing else.
///
/// # Errors
///
/// `Syntax` where the tokens are other.
#[tactic(auto, unfolding(crate::specs::inner::LineReading::kind))]
pub fn kind(tokens: &[Token]) -> Result<bool, ReadError<ParseFault>>
    ensures { Gives (λ x. x) result (spec.kind tokens.now) }
{
    match tokens {
        [] => Ok(false),
        [Token::Name(word)] if word.as_slice() == b"u8".as_slice() => Ok(true),
        _ => Err(ReadError::Fault(ParseFault::Syntax)),
    }
}

/// The minimum and the extent after a name and perhaps a minus.
fn bounds_from<'a>(
    alloc: Global,
    name: &Items<u8>,
    is_negative: bool,
    tokens: &'a [Token],
) -> Result<(ReductionBounds, &'a [Token]), ReadError<ParseFault>>
    ensures { Gives (λ x. (x.0, x.1.now)) result (spec.bounds_from name.now is_negative tokens.now) }
{
    match tokens {
        [Token::Number(minimum), Token::Number(extent), rest @ ..] => Ok((
            ReductionBounds {
                name: copied(alloc, name)?,
                is_negative,
                minimum: *minimum,
                extent: *extent,
            },
            rest,
        )),
        _ => Err(ReadError::Fault(ParseFault::Syntax)),
    }
}

/// A reduction variable with its minimum and extent, and the tokens after it.
///
/// # Errors
///
/// `Syntax` where the tokens are other; memory ran out.
#[tactic(auto, unfolding(crate::specs::inner::LineReading::bounds))]
pub fn bounds(
    alloc: Global,
    tokens: &[Token],
) -> Result<(ReductionBounds, &[Token]), ReadError<ParseFault>>
    ensures { Gives (λ x. (x.0, x.1.now)) result (spec.bounds tokens.now) }
{
    match tokens {
        [
            Token::Name(name),
            Token::Sum(SumOperator::Subtract),
            rest @ ..,
        ] => { Ok(bounds_from(alloc, name, true, rest)?) }
        [Token::Name(name), rest @ ..] => Ok(bounds_from(alloc, name, false, rest)?),
        _ => Err(ReadError::Fault(ParseFault::Syntax)),
    }
}

/// Nothing, or a comma and a second reduction variable and nothing else.
///
/// # Errors
///
/// `Syntax` where the tokens are other; memory ran out.
#[tactic(auto, unfolding(crate::specs::inner::LineReading::more_bounds))]
pub fn more_bounds(
    alloc: Global,
    tokens: &[Token],
) -> Result<Option<ReductionBounds>, ReadError<ParseFault>>
    ensures { Gives (λ x. x) result (spec.more_bounds tokens.now) }
{
    match tokens {
        [] => Ok(None),
        [Token::Comma, rest @ ..] => {
            let (second, rest) = bounds(alloc, rest)?;
            if rest.is_empty() {
                Ok(Some(second))
            } else {
                Err(ReadError::Fault(ParseFault::Syntax))
            }
        }
        _ => Err(ReadError::Fault(ParseFault::Syntax)),
    }
}

/// The arguments of a Func, and the tokens after the `=`.
///
/// # Errors
///
/// `Syntax` where the tokens are other; memory ran out.
#[tactic(auto, unfolding(crate::specs::inner::LineReading::arguments))]
pub fn arguments(
    alloc: Global,
    tokens: &[Token],
) -> Result<((Items<u8>, Option<Items<u8>>), &[Token]), ReadError<ParseFault>>
    ensures { Gives (λ x. (x.0, x.1.now)) result (spec.arguments tokens.now) }
{
    match tokens {
        [Token::Name(first), Token::Close, Token::Assign, rest @ ..] => {
            Ok(((copied(alloc, first)?, None), rest))
        }
        [
            Token::Name(first),
            Token::Comma,
            Token::Name(second),
            Token::Close,
            Token::Assign,
            rest @ ..,
        ] => {
            let second = copied(alloc, second)?;
            Ok(((copied(alloc, first)?, Some(second)), rest))
        }
        _ => Err(ReadError::Fault(ParseFault::Syntax)),
    }
}

/// The tokens after a closing bracket and `=`.
///
/// # Errors
///
/// `Syntax` where the tokens are other.
#[tactic(auto, unfolding(crate::specs::inner::LineReading::assigned))]
pub fn assigned(tokens: &[Token]) -> Result<&[Token], ReadError<ParseFault>>
    ensures { Gives (λ x. x.now) result (spec.assigned tokens.now) }
{
    match tokens {
        [Token::Close, Token::Assign, rest @ ..] => Ok(rest),
        _ => Err(ReadError::Fault(ParseFault::Syntax)),
    }
}

/// The tokens after `over`.
///
/// # Errors
///
/// `Syntax` where the tokens are other.
#[tactic(auto, unfolding(crate::specs::inner::LineReading::over))]
pub fn over(tokens: &[Token]) -> Result<&[Token], ReadError<ParseFault>>
    ensures { Gives (λ x. x.now) result (spec.over tokens.now) }
{
    match tokens {
        [Token::Over, rest @ ..] => Ok(rest),
        _ => Err(ReadError::Fault(ParseFault::Syntax)),
    }
}
