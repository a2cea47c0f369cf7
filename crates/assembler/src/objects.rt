//! What a text becomes.

ghost use Rattle.std.specs.Prelude.{◌≡◌, Ok};
ghost use Rattle.loader.specs.Image.{judged};

use loader::{Image, Output};
use std::marker::Model;

/// What an image is made of: the entry's address, the words of text, the bytes of data, and the picture in
/// the data, if there is one. Contracts see it with lists for words and bytes.
#[derive(Debug, Drop)]
pub struct Object {
    entry: u32,
    words: Vec<u32>,
    bytes: Vec<u8>,
    output: Option<Output>,
}

impl Model for Object {
    ghost use Rattle.loader.specs.Image.{ImageContents};

    ghost Value = { ImageContents };

    ghost view = { λ o. record { entry = o.entry; words = o.words.items; bytes = o.bytes.items; output = o.output } };
}

impl Object {
    /// The object of these parts. It takes no memory.
    pub(crate) fn new(entry: u32, words: Vec<u32>, bytes: Vec<u8>, output: Option<Output>) -> Object
        ensures { result ≡ record { entry = entry; words = words.items; bytes = bytes.items; output = output } }
    {
        Object {
            entry,
            words,
            bytes,
            output,
        }
    }

    /// The address at which every hart starts.
    pub fn entry(&self) -> u32
        ensures { result ≡ self.now.entry }
    {
        self.entry
    }

    /// The words of text.
    pub fn words(&self) -> &[u32]
        ensures { result.now ≡ self.now.words }
    {
        &self.words
    }

    /// The bytes of data.
    pub fn data(&self) -> &[u8]
        ensures { result.now ≡ self.now.bytes }
    {
        &self.bytes
    }

    /// The picture in the data, if there is one.
    pub fn output(&self) -> Option<Output>
        ensures { result ≡ self.now.output }
    {
        self.output
    }

    /// The image that the object is, where it keeps the rules of images, as that of each text does.
    pub fn into_image(self) -> Image
        requires { judged self ≡ Ok self }
        ensures { result ≡ self }
    {
        Image::new(self.entry, self.words, self.bytes, self.output).unwrap()
    }
}
