//! The words of a line.

ghost use Rattle.std.specs.Prelude.{◌≡◌, ◌≢◌, ◌<◌, ◌≤◌, [], ◌++◌, length, IfOk, OnOk};
ghost use Rattle.std.specs.List.{prefix_len};
ghost use Rattle.line_text.specs.Lines.{after_first};
ghost use Rattle.schedule_lines.specs.Lines as spec;

use sqlite_items::Items;
use std::alloc::{AllocError, Global};

/// How many bytes stand before a comment.
fn text_len(line: &[u8]) -> usize
    ensures value { result ≡ prefix_len spec.is_in_text line.now }
    ensures within { result ≤ length line.now }
{
    line.iter().take_while(|&&byte| byte != b'#').count()
}

/// How many bytes stand before the first space.
fn word_len(bytes: &[u8]) -> usize
    ensures value { result ≡ prefix_len spec.is_in_word bytes.now }
    ensures within { result ≤ length bytes.now }
{
    bytes.iter().take_while(|&&byte| byte != b' ').count()
}

/// The line up to its comment.
fn text_of(line: &[u8]) -> &[u8]
    ensures { result.now ≡ spec.text_of line.now }
{
    let (text, _) = line.split_at(text_len(line));
    text
}

/// What follows the first byte.
fn behind_first(bytes: &[u8]) -> &[u8]
    ensures { result.now ≡ after_first bytes.now }
{
    match bytes {
        [] => bytes,
        [_, rest @ ..] => rest,
    }
}

/// What is before the first space, perhaps nothing, and what follows it.
fn front_word(bytes: &[u8]) -> (&[u8], &[u8])
    ensures shorter { bytes.now ≢ [] → length result.1.now < length bytes.now }
    ensures words { spec.words_of bytes.now ≡ spec.word_of result.0.now ++ spec.words_of result.1.now }
{
    let (word, rest) = bytes.split_at(word_len(bytes));
    (word, behind_first(rest))
}

/// Appends a word, unless it is empty.
fn push_word(words: &mut Vec<Items<u8>>, alloc: Global, word: &[u8]) -> Result<(), AllocError>
    ensures { OnOk result (words.new.items ≡ words.old.items ++ spec.word_of word.now) }
{
    match word {
        [] => Ok(()),
        [..] => {
            words.push(Items::from_slice(alloc, word)?)?;
            Ok(())
        }
    }
}

/// The words of a line, up to its comment. Only spaces part them.
pub fn words_of(alloc: Global, line: &[u8]) -> Result<Vec<Items<u8>>, AllocError>
    ensures { IfOk result (λ words. words.items ≡ spec.words_of (spec.text_of line.now)) }
{
    let mut words = Vec::new(alloc);
    let mut rest = text_of(line);
    'words: while !rest.is_empty() {
        let (word, after) = front_word(rest);
        push_word(&mut words, alloc, word)?;
        rest = after;
    }
    Ok(words)
}
