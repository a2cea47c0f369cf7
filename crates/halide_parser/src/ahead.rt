//! The variables of a line, found in its tokens before its expressions are read. Those of an update stand after
//! `over`.

ghost use Rattle.std.specs.Prelude.{◌≡◌, IfOk};
ghost use Rattle.std.specs.Option.{option_copied};
ghost use Rattle.halide_parser.specs.inner.Ahead as spec;

use crate::readers::{AlgorithmReader, func, func_place};
use crate::scopes::NameScope;
use halide_parser_syntax::{SumOperator, Token};
use halide_pipeline::Func;
use sqlite_items::Items;
use std::alloc::{AllocError, Global};

/// The tokens after the first `over`.
fn behind_over(tokens: &[Token]) -> &[Token]
    ensures { result.now ≡ spec.behind_over tokens.now }
{
    let mut rest = tokens;
    'search: while let [token, others @ ..] = rest {
        if matches!(token, Token::Over) {
            return others;
        }
        rest = others;
    }
    rest
}

/// The name at the front.
fn first_name(tokens: &[Token]) -> Option<&Items<u8>>
    ensures { option_copied result ≡ spec.first_name tokens.now }
{
    match tokens {
        [Token::Name(name), ..] => Some(name),
        _ => None,
    }
}

/// The second argument after the first.
fn second_argument(tokens: &[Token]) -> Option<&Items<u8>>
    ensures { option_copied result ≡ spec.second_argument tokens.now }
{
    match tokens {
        [Token::Comma, rest @ ..] => first_name(rest),
        _ => None,
    }
}

/// The name of a second reduction variable, after the numbers of the first.
fn name_behind(tokens: &[Token]) -> Option<&Items<u8>>
    ensures { option_copied result ≡ spec.name_behind tokens.now }
{
    match tokens {
        [Token::Number(_), Token::Number(_), Token::Comma, rest @ ..] => first_name(rest),
        _ => None,
    }
}

/// The name of a second reduction variable, after the name of the first.
fn second_name(tokens: &[Token]) -> Option<&Items<u8>>
    ensures { option_copied result ≡ spec.second_name tokens.now }
{
    match tokens {
        [Token::Sum(SumOperator::Subtract), rest @ ..] => name_behind(rest),
        _ => name_behind(tokens),
    }
}

fn copied(alloc: Global, name: Option<&Items<u8>>) -> Result<Option<Items<u8>>, AllocError>
    ensures { IfOk result (λ copy. copy ≡ option_copied name.entry) }
{
    match name {
        None => Ok(None),
        Some(name) => Ok(Some(Items::from_slice(alloc, name.as_slice())?)),
    }
}

/// The variables of a definition, of the tokens after its bracket.
fn definition_scope(alloc: Global, tokens: &[Token]) -> Result<NameScope, AllocError>
    ensures { IfOk result (λ scope. scope ≡ spec.definition_scope tokens.now) }
{
    match tokens {
        [Token::Name(first), rest @ ..] => Ok(NameScope {
            first_argument: copied(alloc, Some(first))?,
            second_argument: copied(alloc, second_argument(rest))?,
            ..NameScope::empty()
        }),
        _ => Ok(NameScope::empty()),
    }
}

/// The arguments of a Func, in the update of one at a place.
fn arguments_of(
    alloc: Global,
    func: Option<&Func>,
    own: Option<usize>,
) -> Result<NameScope, AllocError>
    ensures { IfOk result (λ scope. scope ≡ spec.arguments_of (option_copied func.entry) own) }
{
    match func {
        None => Ok(NameScope {
            own,
            ..NameScope::empty()
        }),
        Some(func) => Ok(NameScope {
            first_argument: copied(alloc, Some(&func.first_argument))?,
            second_argument: copied(alloc, func.second_argument.as_ref())?,
            own,
            ..NameScope::empty()
        }),
    }
}

/// The variables of an update of a name, of the tokens after its `over`.
fn update_scope(
    reader: &AlgorithmReader,
    name: &[u8],
    ranges: &[Token],
) -> Result<NameScope, AllocError>
    ensures { IfOk result (λ scope. scope ≡ spec.update_scope reader.now name.now ranges.now) }
{
    let mut scope = arguments_of(reader.alloc, func(reader, name), func_place(reader, name))?;
    if let [Token::Name(first), rest @ ..] = ranges {
        scope.first_reduction = copied(reader.alloc, Some(first))?;
        scope.second_reduction = copied(reader.alloc, second_name(rest))?;
    }
    Ok(scope)
}

/// The variables of the line that these tokens spell, if they spell one.
pub fn scope_ahead(reader: &AlgorithmReader, tokens: &[Token]) -> Result<NameScope, AllocError>
    ensures { IfOk result (λ scope. scope ≡ spec.scope_ahead reader.now tokens.now) }
{
    match tokens {
        [Token::Func, Token::Name(_), Token::Open, rest @ ..] => {
            Ok(definition_scope(reader.alloc, rest)?)
        }
        [Token::Update, Token::Name(name), Token::Open, rest @ ..] => {
            Ok(update_scope(reader, name.as_slice(), behind_over(rest))?)
        }
        _ => Ok(NameScope::empty()),
    }
}
