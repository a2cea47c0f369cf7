//! What a line of a talk with the debugger commands.

ghost use Rattle.std.specs.Prelude.{◌≡◌, ◌+◌, ◌*◌, [], ◌∷◌, MatchOption};
ghost use Rattle.std.specs.Str.{bytes_eq};
ghost use Rattle.line_text.specs.Lines.{hexadecimal_value};
ghost use Rattle.hrv_engines.specs.Commands as spec;

use crate::cuts::cut_at;
use line_text::numbers::{saturating_hexadecimal, saturating_number};
use line_text::spans::{digits_len, hexadecimal_len};

/// What a line commands. A number is as the line has it: any below 2 ^ 64.
#[derive(Clone, Copy, Debug, PartialEq, Eq)]
pub enum Command {
    /// `goto K`
    Goto(u64),
    /// `next`
    Next,
    /// `back`
    Back,
    /// `forward`
    Forward,
    /// `reverse`
    Reverse,
    /// `break A`
    Break(u64),
    /// `watch A`
    Watch(u64),
    /// `reg H R`: a hart's number and a register's.
    Register(u64, u64),
    /// `vec H V`: a hart's number and a register's.
    Vector(u64, u64),
    /// `word A`
    Word(u64),
    /// `status`
    Status,
    /// `quit`
    Quit,
}

/// The command of a line, which comes without its line feed.
#[tactic(auto, unfolding(crate::specs::Commands::command_of))]
pub fn read_command(line: &[u8]) -> Option<Command>
    ensures { result ≡ spec.command_of line.now }
{
    let (name, rest) = first_word(line);
    let Some(rest) = rest else {
        return alone(name);
    };
    let (first, rest) = first_word(rest);
    let Some(rest) = rest else {
        return with_one(name, read_number(first)?);
    };
    let (second, rest) = first_word(rest);
    if let Some(_) = rest {
        return None;
    }
    with_two(name, read_number(first)?, read_number(second)?)
}

/// The first word, and what follows the space after it, if there is one.
#[tactic(auto, using(crate::proofs::Splits::one_word, crate::proofs::Splits::word_and_more))]
pub(crate) fn first_word(line: &[u8]) -> (&[u8], Option<&[u8]>)
    ensures { MatchOption result.1 (spec.words_of line.now ≡ result.0.now ∷ [])
        (λ rest. spec.words_of line.now ≡ result.0.now ∷ spec.words_of rest.now) }
{
    match cut_at(line, b' ') {
        Some((word, rest)) => (word, Some(rest)),
        None => (line, None),
    }
}

/// Whether a word is this one.
fn is(word: &[u8], name: &str) -> bool
    ensures { result ≡ bytes_eq word.now name.now }
{
    word == name.as_bytes()
}

/// The command of one word.
#[tactic(auto, unfolding(crate::specs::Commands::alone))]
fn alone(name: &[u8]) -> Option<Command>
    ensures { result ≡ spec.alone name.now }
{
    if is(name, "next") {
        Some(Command::Next)
    } else if is(name, "back") {
        Some(Command::Back)
    } else if is(name, "forward") {
        Some(Command::Forward)
    } else if is(name, "reverse") {
        Some(Command::Reverse)
    } else if is(name, "status") {
        Some(Command::Status)
    } else if is(name, "quit") {
        Some(Command::Quit)
    } else {
        None
    }
}

/// The command of a word and a number.
#[tactic(auto, unfolding(crate::specs::Commands::with_one))]
fn with_one(name: &[u8], number: u64) -> Option<Command>
    ensures { result ≡ spec.with_one name.now number }
{
    if is(name, "goto") {
        Some(Command::Goto(number))
    } else if is(name, "break") {
        Some(Command::Break(number))
    } else if is(name, "watch") {
        Some(Command::Watch(number))
    } else if is(name, "word") {
        Some(Command::Word(number))
    } else {
        None
    }
}

/// The command of a word and two numbers.
#[tactic(auto, unfolding(crate::specs::Commands::with_two))]
fn with_two(name: &[u8], hart: u64, number: u64) -> Option<Command>
    ensures { result ≡ spec.with_two name.now hart number }
{
    if is(name, "reg") {
        Some(Command::Register(hart, number))
    } else if is(name, "vec") {
        Some(Command::Vector(hart, number))
    } else {
        None
    }
}

/// The number that a word spells: decimal digits, or `0x` and hexadecimal digits.
#[tactic(auto, unfolding(crate::specs::Commands::number_of))]
pub(crate) fn read_number(word: &[u8]) -> Option<u64>
    ensures { result ≡ spec.number_of word.now }
{
    match word {
        [b'0', b'x', digits @ ..] => hexadecimal_of(digits),
        _ => decimal_of(word),
    }
}

/// The number that decimal digits spell. All digits but the last are cut off at the greatest number, which has no digit
/// more.
fn decimal_of(digits: &[u8]) -> Option<u64>
    ensures { result ≡ spec.decimal_of digits.now }
{
    if digits_len(digits) < digits.len() {
        return None;
    }
    let (last, front) = digits.split_last()?;
    let number = saturating_number(front, u64::MAX - 1);
    with_digit(number, 10, last.saturating_sub(b'0'))
}

/// The number that hexadecimal digits spell, in the same way.
fn hexadecimal_of(digits: &[u8]) -> Option<u64>
    ensures { result ≡ spec.hexadecimal_of digits.now }
{
    if hexadecimal_len(digits) < digits.len() {
        return None;
    }
    let (last, front) = digits.split_last()?;
    let number = saturating_hexadecimal(front, u64::MAX - 1);
    with_digit(number, 16, hexadecimal_digit(*last))
}

/// What a hexadecimal digit stands for.
fn hexadecimal_digit(byte: u8) -> u8
    ensures { result ≡ hexadecimal_value byte }
{
    match byte {
        b'a'..=u8::MAX => byte - b'a' + 10,
        b'A'..=u8::MAX => byte - b'A' + 10,
        _ => byte.saturating_sub(b'0'),
    }
}

/// A number with a digit after it, if it is below 2 ^ 64.
fn with_digit(number: u64, base: u64, digit: u8) -> Option<u64>
    ensures { result ≡ spec.below_most (number * base + digit) }
{
    number.checked_mul(base)?.checked_add(u64::from(digit))
}
