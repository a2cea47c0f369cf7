//! The tokens of a line.

ghost use Rattle.std.specs.List.{list_all};
ghost use Rattle.line_text.specs.Lines.{is_digit, is_hexadecimal};
ghost use Rattle.std.specs.Prelude.{◌≡◌, ◌≤◌, ◌<◌, ◌^◌, ◌+◌, pos, ◌-ℤ◌, [], ◌∷◌, length, IfOk, IfSome, MatchOption};
ghost use Rattle.line_text.specs.Lines.{decimal_number, hexadecimal_number, hexadecimal_value};
ghost use Rattle.assembler_syntax.specs.Tokens as spec;

use line_text::spans::{begins_name, continues_name, ends, is_digit, is_hexadecimal, skip_blanks};
use sqlite_items::Items;
use std::alloc::{AllocError, Global};

/// A word, a number or a mark.
#[derive(Debug, Drop)]
pub enum AssemblyToken {
    /// Letters, digits, `_` and `.`, of which a digit isn't the first: a mnemonic, a register, a name.
    Word(Items<u8>),
    /// A number. One above 2^32, of either sign, is kept as 2^32 or 2^32 + 1, whichever is odd or even
    /// as it is.
    Number(i64),
    Comma,
    Colon,
    Open,
    Close,
    /// Bytes that are no token.
    Other,
}

/// No number that can be written is above this one in what it means.
const LIMIT: u64 = 1 << 32;

/// Whether a byte can be the first of a word.
fn begins_word(byte: u8) -> bool
    ensures { result ≡ spec.begins_word byte }
{
    begins_name(byte) || byte == b'.'
}

/// Whether a byte can be a later one of a word.
fn continues_word(byte: u8) -> bool
    ensures { result ≡ spec.continues_word byte }
{
    continues_name(byte) || byte == b'.'
}

/// How many bytes at the front can be later ones of a word.
fn span(bytes: &[u8]) -> usize
    ensures value { result ≡ spec.span bytes.now }
    ensures within { result ≤ length bytes.now }
{
    bytes
        .iter()
        .take_while(|&&byte| continues_word(byte))
        .count()
}

/// The number itself, or where it is above the limit the limit or the next, whichever is odd or even as it is.
#[tactic(auto, unfolding(crate::specs::Tokens::capped))]
fn capped(number: u64) -> u64
    ensures value { result ≡ spec.capped number }
    ensures small { result < 2 ^ 32 + 2 }
{
    if number <= LIMIT {
        number
    } else {
        LIMIT + number % 2
    }
}

/// The number that decimal digits spell, capped.
fn decimal(digits: &[u8]) -> u64
    ensures value { result ≡ spec.capped (decimal_number digits.now) }
    ensures small { result < 2 ^ 32 + 2 }
{
    let mut number = 0;
    for &digit in digits {
        number = capped(number * 10 + u64::from(digit.saturating_sub(b'0')));
    }
    number
}

/// What a hexadecimal digit stands for. Other bytes count as `hexadecimal_value` says.
fn digit_of(byte: u8) -> u64
    ensures value { result ≡ hexadecimal_value byte }
    ensures small { result < 256 }
{
    let value = match byte {
        b'a'..=u8::MAX => byte - b'a' + 10,
        b'A'..=u8::MAX => byte - b'A' + 10,
        _ => byte.saturating_sub(b'0'),
    };
    u64::from(value)
}

/// The number that hexadecimal digits spell, capped.
fn hexadecimal(digits: &[u8]) -> u64
    ensures value { result ≡ spec.capped (hexadecimal_number digits.now) }
    ensures small { result < 2 ^ 32 + 2 }
{
    let mut number = 0;
    for &digit in digits {
        number = capped(number * 16 + digit_of(digit));
    }
    number
}

/// A hexadecimal number after `0x`, or no token.
#[tactic(auto, unfolding(crate::specs::Tokens::prefixed))]
fn prefixed(bytes: &[u8]) -> AssemblyToken
    ensures { result ≡ spec.prefixed bytes.now }
{
    match bytes {
        [b'0', b'x', digits @ ..] if !digits.is_empty() && is_all_hexadecimal(digits) => {
            AssemblyToken::Number(hexadecimal(digits) as i64)
        }
        _ => AssemblyToken::Other,
    }
}

/// Whether all bytes are decimal digits.
fn is_all_decimal(bytes: &[u8]) -> bool
    ensures { result ≡ list_all is_digit bytes.now }
{
    bytes.iter().all(|&byte| is_digit(byte))
}

/// Whether all bytes are hexadecimal digits.
fn is_all_hexadecimal(bytes: &[u8]) -> bool
    ensures { result ≡ list_all is_hexadecimal bytes.now }
{
    bytes.iter().all(|&byte| is_hexadecimal(byte))
}

/// The number that bytes of a word spell, of which the first is a digit, or no token.
#[tactic(auto, unfolding(crate::specs::Tokens::number_token))]
fn number_token(bytes: &[u8]) -> AssemblyToken
    ensures { result ≡ spec.number_token bytes.now }
{
    if is_all_decimal(bytes) {
        AssemblyToken::Number(decimal(bytes) as i64)
    } else {
        prefixed(bytes)
    }
}

/// The number that decimal digits spell after a minus, or no token.
#[tactic(auto, unfolding(crate::specs::Tokens::negative_token))]
fn negative_token(digits: &[u8]) -> AssemblyToken
    ensures { result ≡ spec.negative_token digits.now }
{
    if digits.is_empty() || !is_all_decimal(digits) {
        return AssemblyToken::Other;
    }
    AssemblyToken::Number(-(decimal(digits) as i64))
}

/// A mark, or no token.
fn mark(byte: u8) -> AssemblyToken
    ensures { result ≡ spec.mark byte }
{
    match byte {
        b',' => AssemblyToken::Comma,
        b':' => AssemblyToken::Colon,
        b'(' => AssemblyToken::Open,
        b')' => AssemblyToken::Close,
        _ => AssemblyToken::Other,
    }
}

/// The token at the front, and what follows it.
#[tactic(auto, unfolding(crate::specs::Tokens::front_token))]
fn front_token(alloc: Global, bytes: &[u8]) -> Result<(AssemblyToken, &[u8]), AllocError>
    ensures value { IfOk result (λ x. (x.0, x.1.now) ≡ spec.front_token bytes.now) }
    ensures shorter { IfOk result (λ x. 0 < length bytes.now → length x.1.now < length bytes.now) }
{
    let [first, rest @ ..] = bytes else {
        return Ok((AssemblyToken::Other, bytes));
    };
    if begins_word(*first) {
        let (word, rest) = bytes.split_at(span(bytes));
        Ok((AssemblyToken::Word(Items::from_slice(alloc, word)?), rest))
    } else if is_digit(*first) {
        let (number, rest) = bytes.split_at(span(bytes));
        Ok((number_token(number), rest))
    } else if *first == b'-' {
        let (digits, rest) = rest.split_at(span(rest));
        Ok((negative_token(digits), rest))
    } else {
        Ok((mark(*first), rest))
    }
}

/// The next token of a line and what follows it, or nothing where the line or its text ends.
pub(crate) fn next_token(
    alloc: Global,
    bytes: &[u8],
) -> Result<Option<(AssemblyToken, &[u8])>, AllocError>
    ensures value { IfOk result (λ next. MatchOption next (spec.tokens_of bytes.now ≡ [])
        (λ x. spec.tokens_of bytes.now ≡ x.0 ∷ spec.tokens_of x.1.now)) }
    ensures shorter { IfOk result (λ next. IfSome next (λ x. length x.1.now < length bytes.now)) }
{
    let text = skip_blanks(bytes);
    if ends(text) {
        return Ok(None);
    }
    Ok(Some(front_token(alloc, text)?))
}
