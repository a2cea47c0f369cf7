//! Reading texts. All that a source has left is looked at, and refused where it isn't UTF-8; of a text that is longer
//! than any that is accepted no more is kept than it takes to tell why it is refused.

ghost use Rattle.std.specs.Prelude.{◌≡◌, ℕ, ◌+◌, ◌<◌, ◌≤◌, ◌^◌, true, List, ◌++◌, length, IfNone, IfOk, IfSome, OnOk};
ghost use Rattle.std.specs.List.{prefix_len};
ghost use Rattle.std.specs.Str.{IsUtf8};
ghost use Rattle.std.specs.String.{string_bytes};
ghost use Rattle.hrv_engines.specs.Devices.{most_algorithm_bytes, most_picture_bytes, most_schedule_lines, text_of};
ghost use Rattle.hrv_engines.specs.Engine.{Reads};
ghost use Rattle.hrv_engines.specs.inner.Fronts.{Decides, IsLineTold, IsLongestText, IsReadSoFar};
ghost use Rattle.hrv_engines.specs.inner.Fronts.{Keeps, KeepsOf, TookPiece, kept_text_of};
ghost use Rattle.hrv_engines.specs.inner.Fronts as spec;
ghost use Rattle.hrv_engines.specs.inner.LineCounts.{line_feeds};
ghost use Rattle.hrv_engines.specs.declared.texts.Extent.TheVariants.{Bytes, FirstLine, Lines};

use crate::devices::{
    CHUNK, MOST_ALGORITHM_BYTES, MOST_PICTURE_BYTES, MOST_SCHEDULE_LINES, Source,
};
use crate::faults::Fault;
use crate::line_counts::{has_more_lines, line_feeds};
use line_text::spans::{continues_name, is_blank};
use std::alloc::{AllocError, Global};

/// How much of a text is kept: what decides its fault, where it is too long.
#[derive(Clone, Copy, Debug, PartialEq, Eq)]
pub(crate) enum Extent {
    /// All of it.
    All,
    /// This many bytes and one more.
    Bytes(usize),
    /// The same, and the first line up to a comment, or up to a byte of which no token of an algorithm is made.
    FirstLine(usize),
    /// This many lines, and what came with the first byte of one more.
    Lines(usize),
}

/// The front of a text that is kept.
#[derive(Drop)]
pub(crate) struct KeptFront {
    pub extent: Extent,
    pub bytes: Vec<u8>,
    /// Whether a byte is among them that ends what an algorithm's first line says.
    pub is_line_told: bool,
    /// How many line feeds are among them.
    pub line_feeds: usize,
    /// Whether they decide what is to be said of the text, so that no more is kept.
    pub is_enough: bool,
}

/// A text of which some pieces came.
#[derive(Drop)]
pub(crate) struct Reading {
    pub kept: KeptFront,
    /// The bytes after the last whole character, three at most.
    pub unended: Vec<u8>,
}

/// Whether a byte is a mark, or part of one.
fn is_mark(byte: u8) -> bool
    ensures { result ≡ spec.is_mark byte }
{
    matches!(
        byte,
        b'(' | b')' | b',' | b'+' | b'-' | b'*' | b'/' | b'%' | b'=' | b'<' | b'>' | b'!'
    )
}

/// Whether a byte is in tokens of an algorithm, or between them.
#[tactic(auto, unfolding(crate::specs::inner::Fronts::is_of_tokens))]
fn is_of_tokens(byte: u8) -> bool
    ensures { result ≡ spec.is_of_tokens byte }
{
    is_blank(byte) || continues_name(byte) || is_mark(byte)
}

/// How many bytes at the front are of tokens.
fn tokens_len(bytes: &[u8]) -> usize
    ensures value { result ≡ prefix_len spec.is_of_tokens bytes.now }
    ensures within { result ≤ length bytes.now }
{
    bytes.iter().take_while(|&&byte| is_of_tokens(byte)).count()
}

/// The length of the longest front that is a text.
fn valid_len(bytes: &[u8]) -> usize
    ensures { IsLongestText bytes.now result }
{
    match str::from_utf8(bytes) {
        Ok(_) => bytes.len(),
        Err(error) => error.valid_up_to(),
    }
}

/// Whether a front decides what is to be said of the text.
fn is_enough(extent: Extent, front: &[u8], is_line_told: bool, feeds: usize) -> bool
    ensures { feeds ≡ line_feeds front.now → (is_line_told ≡ true → IsLineTold front.now) → result ≡ true
        → Decides extent front.now }
{
    match extent {
        Extent::All => false,
        Extent::Bytes(most) => front.len() > most,
        Extent::FirstLine(most) => front.len() > most && is_line_told,
        Extent::Lines(most) => has_more_lines(front, feeds, most),
    }
}

/// Whether an algorithm's first line is told in bytes, or in what comes after them.
#[tactic(auto, using(crate::proofs::TextFronts::still_told, crate::proofs::TextFronts::told_behind))]
fn is_told(before: bool, front: &[u8]) -> bool
    ensures { (text : List ℕ) → (before ≡ true → IsLineTold text) → result ≡ true → IsLineTold (text ++ front.now) }
{
    before || tokens_len(front) < front.len()
}

impl KeptFront {
    /// Keeps what comes next, unless there is enough.
    fn push(&mut self, front: &[u8]) -> Result<(), AllocError>
        ensures keeps { (text : List ℕ) → Keeps self.old text → IsUtf8 front.now
            → OnOk result (Keeps self.new (text ++ front.now)) }
        ensures extent { OnOk result (self.new.extent ≡ self.old.extent) }
    {
        if self.is_enough {
            return Ok(());
        }
        self.bytes.extend_from_slice(front)?;
        self.is_line_told = is_told(self.is_line_told, front);
        self.line_feeds = self.line_feeds.saturating_add(line_feeds(front));
        self.is_enough = is_enough(self.extent, &self.bytes, self.is_line_told, self.line_feeds);
        Ok(())
    }
}

impl Reading {
    /// Takes the next piece, and says whether the text may still be one.
    fn take(&mut self, alloc: Global, piece: &[u8]) -> Result<bool, AllocError>
        ensures took { (all : List ℕ) → IsReadSoFar self.old all
            → IfOk result (λ may. TookPiece may self.new (all ++ piece.now)) }
        ensures extent { OnOk result (self.new.kept.extent ≡ self.old.kept.extent) }
    {
        self.unended.extend_from_slice(piece)?;
        let valid = valid_len(&self.unended);
        if self.unended.len() - valid > 3 {
            return Ok(false);
        }
        let (front, rest) = self.unended.split_at(valid);
        self.kept.push(front)?;
        let rest = Vec::from_slice(alloc, rest)?;
        self.unended = rest;
        Ok(true)
    }
}

/// The text whose pieces all came, or the front of it that is kept; none where the last character isn't whole.
fn finished(reading: Reading) -> Option<String>
    ensures some { IfSome result (λ text. (all : List ℕ) → IsReadSoFar reading all
        → IsUtf8 all × KeepsOf reading.kept.extent (string_bytes text) all) }
    ensures none { IfNone result ((all : List ℕ) → IsReadSoFar reading all → IsUtf8 all → ⊥) }
{
    let Reading { kept, unended } = reading;
    if !unended.is_empty() {
        return None;
    }
    let Ok(text) = String::from_utf8(kept.bytes) else {
        return None;
    };
    Some(text)
}

/// Reads what a source has left, which is to be a text, and keeps as much of it as is asked for.
pub(crate) fn read_kept<S: Source>(
    alloc: Global,
    source: &mut S,
    extent: Extent,
) -> Result<String, Fault>
    requires { S.failed source.old + 1 < 2 ^ 64 }
    ensures { Reads string_bytes (kept_text_of extent S.place S.failed S.gave S.ended source.old source.new) result }
{
    // Made before the first read, so that a read that fails needs no memory.
    let path = String::from_str(alloc, source.path())?;
    let mut reading = Reading {
        kept: KeptFront {
            extent,
            bytes: Vec::new(alloc),
            is_line_told: false,
            line_feeds: 0,
            is_enough: false,
        },
        unended: Vec::new(alloc),
    };
    let mut buffer = [0; CHUNK];
    'pieces: for _ in 0..u64::MAX {
        let Ok(count) = source.read(&mut buffer) else {
            return Err(Fault::File(path));
        };
        if count == 0 {
            return match finished(reading) {
                Some(text) => Ok(text),
                None => Err(Fault::File(path)),
            };
        }
        if !reading.take(alloc, &buffer[..count])? {
            return Err(Fault::File(path));
        }
    }
    // No source gives this many pieces.
    Err(Fault::Memory)
}

/// Reads all that a source has left, as a text.
pub(crate) fn read_text<S: Source>(alloc: Global, source: &mut S) -> Result<String, Fault>
    requires { S.failed source.old + 1 < 2 ^ 64 }
    ensures { Reads string_bytes (text_of S.place S.failed S.gave S.ended source.old source.new) result }
{
    read_kept(alloc, source, Extent::All)
}

/// Reads an algorithm. Of one that is longer than any may be, more bytes than it may have are kept, with all that its
/// first line says.
pub(crate) fn read_algorithm<S: Source>(alloc: Global, source: &mut S) -> Result<String, Fault>
    requires { S.failed source.old + 1 < 2 ^ 64 }
    ensures { Reads string_bytes
        (kept_text_of (FirstLine most_algorithm_bytes) S.place S.failed S.gave S.ended source.old source.new) result }
{
    read_kept(alloc, source, Extent::FirstLine(MOST_ALGORITHM_BYTES))
}

/// Reads a schedule. Of one that has more lines than any may have, no more is kept than these and a beginning of the
/// next.
pub(crate) fn read_schedule<S: Source>(alloc: Global, source: &mut S) -> Result<String, Fault>
    requires { S.failed source.old + 1 < 2 ^ 64 }
    ensures { Reads string_bytes
        (kept_text_of (Lines most_schedule_lines) S.place S.failed S.gave S.ended source.old source.new) result }
{
    read_kept(alloc, source, Extent::Lines(MOST_SCHEDULE_LINES))
}

/// Reads a picture. Of one that is longer than any, more bytes than it may have are kept.
pub(crate) fn read_picture_text<S: Source>(alloc: Global, source: &mut S) -> Result<String, Fault>
    requires { S.failed source.old + 1 < 2 ^ 64 }
    ensures { Reads string_bytes
        (kept_text_of (Bytes most_picture_bytes) S.place S.failed S.gave S.ended source.old source.new) result }
{
    read_kept(alloc, source, Extent::Bytes(MOST_PICTURE_BYTES))
}
