//! Images as values.

ghost use Rattle.std.specs.Prelude.{◌≡◌, ◌≢◌, IfOk, IfErr};
ghost use Rattle.loader.specs.Image.{IsImage, judged, is_entry, is_output_or_none};

use crate::faults::LoadFault;
use crate::outputs::Output;
use memory::{MOST_BYTES, MOST_WORDS, TEXT_START};
use std::marker::Model;

/// What a machine starts from: the address at which every hart starts, the words of text, the bytes
/// of data, and which part of the data, if any, is a picture. Every image keeps the rules of its
/// format: a contract sees it as an `ImageContents` that is an `IsImage`.
pub struct Image {
    entry: u32,
    words: Vec<u32>,
    bytes: Vec<u8>,
    output: Option<Output>,
}

impl Model for Image {
    ghost use Rattle.loader.specs.Image.{ImageContents, IsImage};

    ghost Value = { ImageContents };

    ghost view = { λ i. record { entry = i.entry; words = i.words.items; bytes = i.bytes.items; output = i.output } };

    ghost invariant = { λ i. IsImage (record {
      entry = i.entry;
      words = i.words.items;
      bytes = i.bytes.items;
      output = i.output;
    }) };
}

impl Drop for Image {
    fn drop(self) {
        let Image {
            words,
            bytes,
            entry: _,
            output: _,
        } = self;
        drop(words);
        drop(bytes);
    }
}

impl Image {
    /// An image of these parts. Refused where there are more than 262,144 words or 33,554,432 data
    /// bytes, else where the entry isn't the address of a word, else where the output isn't a picture
    /// that lies in the data. It takes no memory.
    pub fn new(
        entry: u32,
        words: Vec<u32>,
        bytes: Vec<u8>,
        output: Option<Output>,
    ) -> Result<Image, LoadFault>
        ensures exact { result ≡ judged
            (record { entry = entry; words = words.items; bytes = bytes.items; output = output }) }
        ensures rules { IfOk result IsImage }
        ensures no_memory { IfErr result (λ fault. fault ≢ LoadFault.OutOfMemory) }
    {
        if words.len() > MOST_WORDS || bytes.len() > MOST_BYTES {
            return Err(LoadFault::OverLimit);
        }
        if !is_entry(entry, words.len()) {
            return Err(LoadFault::Entry);
        }
        if !is_output_or_none(output, bytes.len()) {
            return Err(LoadFault::OutputRange);
        }
        Ok(Image {
            entry,
            words,
            bytes,
            output,
        })
    }

    /// The address at which every hart starts.
    pub fn entry(&self) -> u32
        ensures value { result ≡ self.now.entry }
        ensures rules { IsImage self.now }
    {
        self.entry
    }

    /// The words of text.
    pub fn words(&self) -> &[u32]
        ensures value { result.now ≡ self.now.words }
        ensures rules { IsImage self.now }
    {
        &self.words
    }

    /// The bytes of data.
    pub fn data(&self) -> &[u8]
        ensures value { result.now ≡ self.now.bytes }
        ensures rules { IsImage self.now }
    {
        &self.bytes
    }

    /// The picture in the data, if there is one.
    pub fn output(&self) -> Option<Output>
        ensures value { result ≡ self.now.output }
        ensures rules { IsImage self.now }
    {
        self.output
    }
}

/// Whether it is the address of a word, where text has this many words.
fn is_entry(entry: u32, words: usize) -> bool
    ensures { result ≡ is_entry words entry }
{
    entry.is_multiple_of(4) && entry >= TEXT_START && (((entry - TEXT_START) / 4) as usize) < words
}

/// Whether the picture, if there is one, lies in data of this many bytes.
fn is_output_or_none(output: Option<Output>, bytes: usize) -> bool
    ensures { result ≡ is_output_or_none bytes output }
{
    match output {
        None => true,
        Some(output) => output.lies_in(bytes),
    }
}
