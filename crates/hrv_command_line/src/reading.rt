//! The values and the options that words give a command.

ghost use Rattle.std.specs.Prelude.{◌≡◌, ◌∷◌, [], if◌then◌else◌, map, option_map, IfOk, OnOk, Some, None};
ghost use Rattle.clap.specs.Lexer.{long_of, name_and_value, strip_byte};
ghost use Rattle.clap.specs.Walk.{texts};
ghost use Rattle.hrv_command_line.specs.CommandLine.{nothing_given, with_choice, with_values};
ghost use Rattle.hrv_command_line.specs.CommandLine as spec;
ghost use Rattle.hrv_command_line.specs.Commands.{choice_of};
ghost use Rattle.hrv_command_line.specs.inner.Readings.{chosen_of, given_of, meaning_as};

use crate::table::{Choice, OptionKind};
use std::alloc::{AllocError, Global};

/// An option that is given, with its text: of a flag it is empty.
#[derive(Clone, Copy)]
pub(crate) struct Chosen<'a> {
    pub(crate) name: &'a str,
    pub(crate) text: &'a str,
}

/// What words give a command.
#[derive(Drop)]
pub(crate) struct Given<'a> {
    pub(crate) values: Vec<&'a str>,
    pub(crate) choices: Vec<Chosen<'a>>,
}

/// What a word is.
enum WordMeaning<'a> {
    /// The mark after which all words are values.
    Marks,
    /// A value.
    Gives,
    /// An option whose text is the next word.
    Awaits(&'a str),
    /// An option with its text.
    Chooses(Chosen<'a>),
    /// Nothing that the command has.
    Strays,
}

/// Reads what words give a command that has these options. There is nothing where the command hasn't all of them.
pub(crate) fn read_all<'a>(
    alloc: Global,
    choices: &[Choice<'_>],
    words: &[&'a str],
) -> Result<Option<Given<'a>>, AllocError>
    ensures { IfOk result (λ given. option_map given_of given
        ≡ spec.read (map choice_of choices.now) None (texts words.now) nothing_given) }
{
    let mut given = Given::new(alloc);
    if read(&mut given, choices, None, words)? {
        Ok(Some(given))
    } else {
        Ok(None)
    }
}

// Reads what words give, after an option that awaits its text or none, to what is given already. Answers whether the
// command has all of them.
fn read<'a>(
    given: &mut Given<'a>,
    choices: &[Choice<'_>],
    awaited: Option<&'a str>,
    words: &[&'a str],
) -> Result<bool, AllocError>
    ensures { IfOk result (λ is_whole. spec.read (map choice_of choices.now) (option_map (λ s. s.now) awaited.entry)
        (texts words.now) (given_of given.old) ≡ (if is_whole then Some (given_of given.new) else None)) }
{
    match words {
        [] => Ok(awaited.is_none()),
        [word, words @ ..] => match meaning_of(choices, awaited, word) {
            WordMeaning::Marks => {
                given.add_values(words)?;
                Ok(true)
            }
            WordMeaning::Gives => {
                given.add_value(word)?;
                read(given, choices, None, words)
            }
            WordMeaning::Awaits(name) => read(given, choices, Some(name), words),
            WordMeaning::Chooses(chosen) => {
                if text_of(chosen.name, given.choices.as_slice()).is_some() {
                    return Ok(false);
                }
                given.add_choice(chosen)?;
                read(given, choices, None, words)
            }
            WordMeaning::Strays => Ok(false),
        },
    }
}

impl<'a> Given<'a> {
    // Nothing yet.
    fn new(alloc: Global) -> Given<'a>
        ensures { given_of result ≡ nothing_given }
    {
        Given {
            values: Vec::new(alloc),
            choices: Vec::new(alloc),
        }
    }

    // Adds the values after the mark.
    fn add_values(&mut self, words: &[&'a str]) -> Result<(), AllocError>
        ensures { OnOk result (given_of self.new ≡ with_values (given_of self.old) (texts words.now)) }
    {
        self.values.extend_from_slice(words)
    }

    // Adds a value.
    fn add_value(&mut self, word: &'a str) -> Result<(), AllocError>
        ensures { OnOk result (given_of self.new ≡ with_values (given_of self.old) (word.now ∷ [])) }
    {
        self.values.push(word)?;
        Ok(())
    }

    // Adds an option.
    fn add_choice(&mut self, chosen: Chosen<'a>) -> Result<(), AllocError>
        ensures { OnOk result (given_of self.new
            ≡ with_choice (given_of self.old) chosen.entry.name.now chosen.entry.text.now) }
    {
        self.choices.push(chosen)?;
        Ok(())
    }
}

/// The text of an option, if it is given.
pub(crate) fn text_of<'a>(name: &str, choices: &[Chosen<'a>]) -> Option<&'a str>
    ensures { option_map (λ s. s.now) result ≡ spec.text_of name.now (map chosen_of choices.now) }
{
    match choices {
        [] => None,
        [choice, choices @ ..] => {
            if choice.name == name {
                Some(choice.text)
            } else {
                text_of(name, choices)
            }
        }
    }
}

// What a word is, after an option that awaits its text or none.
fn meaning_of<'a>(
    choices: &[Choice<'_>],
    awaited: Option<&'a str>,
    word: &'a str,
) -> WordMeaning<'a>
    ensures { meaning_as result
        ≡ spec.meaning_of (map choice_of choices.now) (option_map (λ s. s.now) awaited.entry) word.now }
{
    if let Some(name) = awaited {
        return text_or_stray(name, word);
    }
    if word == "--" {
        return WordMeaning::Marks;
    }
    match long_of(word) {
        Some((name, text)) => chosen_by(name, text, kind_named(name, choices)),
        None => value_or_stray(word),
    }
}

// A word after an option that awaits its text.
fn text_or_stray<'a>(name: &'a str, word: &'a str) -> WordMeaning<'a>
    ensures { meaning_as result ≡ (if spec.is_plain word.now then spec.Chooses name.now word.now
        else spec.Strays) }
{
    if is_plain(word) {
        WordMeaning::Chooses(Chosen { name, text: word })
    } else {
        WordMeaning::Strays
    }
}

// A word that is no option.
fn value_or_stray<'a>(word: &'a str) -> WordMeaning<'a>
    ensures { meaning_as result ≡ (if spec.is_plain word.now then spec.Gives else spec.Strays) }
{
    if is_plain(word) {
        WordMeaning::Gives
    } else {
        WordMeaning::Strays
    }
}

// What an option and the text in its word are, by the option's kind.
fn chosen_by<'a>(name: &'a str, text: Option<&'a str>, kind: Option<OptionKind>) -> WordMeaning<'a>
    ensures { meaning_as result ≡ spec.chosen_by name.now (option_map (λ s. s.now) text.entry) kind }
{
    match (kind, text) {
        (Some(OptionKind::Flag), None) => WordMeaning::Chooses(Chosen { name, text: "" }),
        (None, _) | (Some(OptionKind::Flag), Some(_)) => WordMeaning::Strays,
        (Some(_), None) => WordMeaning::Awaits(name),
        (Some(_), Some(text)) => WordMeaning::Chooses(Chosen { name, text }),
    }
}

// The kind of the option of a name.
fn kind_named(name: &str, choices: &[Choice<'_>]) -> Option<OptionKind>
    ensures { result ≡ spec.kind_named name.now (map choice_of choices.now) }
{
    match choices {
        [] => None,
        [choice, choices @ ..] => {
            if choice.name == name {
                Some(choice.kind)
            } else {
                kind_named(name, choices)
            }
        }
    }
}

// Whether a word is taken as it is.
fn is_plain(word: &str) -> bool
    ensures { result ≡ spec.is_plain word.now }
{
    match without_hyphen(word) {
        Some(_) => word == "-",
        None => true,
    }
}

// What follows a first hyphen.
fn without_hyphen(word: &str) -> Option<&str>
    ensures { option_map (λ s. s.now) result ≡ strip_byte 45 word.now }
{
    word.strip_prefix('-')
}

// The name and the text of `--name` or `--name=text`.
fn long_of(word: &str) -> Option<(&str, Option<&str>)>
    ensures { option_map (λ p. (p.0.now, option_map (λ s. s.now) p.1)) result ≡ long_of word.now }
{
    let rest = without_hyphen(without_hyphen(word)?)?;
    if rest.is_empty() {
        return None;
    }
    Some(name_and_text(rest))
}

// What is before the first `=`, and what is after it if there is one.
fn name_and_text(text: &str) -> (&str, Option<&str>)
    ensures { (result.0.now, option_map (λ s. s.now) result.1) ≡ name_and_value text.now }
{
    match text.split_once('=') {
        Some((name, text)) => (name, Some(text)),
        None => (text, None),
    }
}
