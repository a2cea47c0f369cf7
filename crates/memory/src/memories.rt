//! The plain memory.

ghost use Rattle.std.specs.Prelude.{◌≡◌, ◌≤◌, ◌+◌, ◌%◌, IsTrue, length, slice_index};
ghost use Rattle.memory.specs.Access.{most_words, most_bytes, covers_load, data_start, in_text};
ghost use Rattle.memory.specs.Access.{Word, number_in, put_number};

use crate::bytes::{Bytes, DATA_START, TEXT_START};
use std::boxed::BoxedSlice;
use std::marker::Model;

/// Text and data, side by side: the plain memory. A contract sees both as lists. Neither can grow, so that no
/// access takes memory.
pub struct Memory {
    words: BoxedSlice<u32>,
    bytes: BoxedSlice<u8>,
}

impl Model for Memory {
    ghost use Rattle.std.specs.Prelude.{length, ◌≤◌};
    ghost use Rattle.std.specs.Box.{boxed_slice_items};
    ghost use Rattle.memory.specs.Access.{Contents, most_words, most_bytes};

    ghost Value = { Contents };

    ghost view = { λ m. record { text = boxed_slice_items m.words; memory = boxed_slice_items m.bytes } };

    ghost invariant = { λ m. (length (boxed_slice_items m.words) ≤ most_words) ×
        (length (boxed_slice_items m.bytes) ≤ most_bytes) };
}

impl Drop for Memory {
    fn drop(self) {
        let Memory { words, bytes } = self;
        drop(words);
        drop(bytes);
    }
}

impl Memory {
    /// A memory of at most 262,144 words of text and 33,554,432 bytes of data.
    pub fn new(words: Vec<u32>, bytes: Vec<u8>) -> Memory
        requires words { length words.items ≤ most_words }
        requires bytes { length bytes.items ≤ most_bytes }
        ensures text { result.text ≡ words.items }
        ensures memory { result.memory ≡ bytes.items }
    {
        Memory {
            words: words.into_boxed_slice(),
            bytes: bytes.into_boxed_slice(),
        }
    }

    /// All bytes of data.
    pub fn bytes(&self) -> &[u8]
        ensures { result.now ≡ self.now.memory }
    {
        &self.bytes
    }

    /// Whether this many bytes from an address on are all text: apart, so that nothing of it is worked out for data.
    #[cold]
    #[inline(never)]
    fn covers_text(&self, address: u32, count: u32) -> bool
        ensures { result ≡ in_text (length self.now.text) address count }
    {
        let end = address as usize + count as usize;
        address >= TEXT_START && end <= TEXT_START as usize + 4 * self.words.len()
    }

    /// The word at an address of text that is a multiple of 4: apart, so that words of data are read in place.
    #[inline(never)]
    fn read_text_word(&self, address: u32) -> u32
        requires aligned { address % 4 ≡ 0 }
        requires covered { IsTrue (covers_load (length self.now.text) (length self.now.memory) address 4) }
        ensures { result ≡ number_in self.now.text self.now.memory Word address }
    {
        u32::from_le_bytes([
            self.read(address),
            self.read(address + 1),
            self.read(address + 2),
            self.read(address + 3),
        ])
    }

    /// The word of data from a byte on.
    #[inline(always)]
    fn word_from(&self, at: usize) -> u32
        requires { at + 4 ≤ length self.now.memory }
        ensures { result ≡ number_in self.now.text self.now.memory Word (at + data_start) }
    {
        let word = &self.bytes[at..at + 4];
        u32::from_le_bytes([word[0], word[1], word[2], word[3]])
    }

    /// Puts other bytes in the place of all data. Takes no memory.
    pub fn set_bytes(&mut self, bytes: &[u8])
        requires { length bytes.now ≡ length self.old.memory }
        ensures text { self.new.text ≡ self.old.text }
        ensures memory { self.new.memory ≡ bytes.now }
    {
        self.bytes.copy_from_slice(bytes);
    }
}

impl Bytes for Memory {
    ghost text = { λ m. m.text };

    ghost memory = { λ m. m.memory };

    fn fetch(&self, pc: u32) -> Option<u32> {
        if pc < TEXT_START || pc % 4 != 0 {
            return None;
        }
        self.words.get(((pc - TEXT_START) / 4) as usize).copied()
    }

    #[inline(always)]
    fn covers_load(&self, address: u32, count: u32) -> bool {
        self.covers_store(address, count) || self.covers_text(address, count)
    }

    #[inline(always)]
    fn covers_store(&self, address: u32, count: u32) -> bool {
        // an address before the data comes to one far after its end
        let at = address.wrapping_sub(DATA_START) as usize;
        at + count as usize <= self.bytes.len()
    }

    fn read(&self, address: u32) -> u8 {
        if address >= DATA_START {
            self.bytes[(address - DATA_START) as usize]
        } else {
            let offset = address - TEXT_START;
            let word = self.words[(offset / 4) as usize];
            word.to_le_bytes()[(offset % 4) as usize]
        }
    }

    fn write(&mut self, address: u32, value: u8) {
        self.bytes[(address - DATA_START) as usize] = value;
    }

    #[inline(always)]
    fn read_half(&self, address: u32) -> u16 {
        if address < DATA_START {
            return u16::from_le_bytes([self.read(address), self.read(address + 1)]);
        }
        let at = (address - DATA_START) as usize;
        u16::from_le_bytes([self.bytes[at], self.bytes[at + 1]])
    }

    #[inline(always)]
    fn read_word(&self, address: u32) -> u32 {
        if address < DATA_START {
            return self.read_text_word(address);
        }
        let at = (address - DATA_START) as usize;
        let bytes = &self.bytes;
        u32::from_le_bytes([bytes[at], bytes[at + 1], bytes[at + 2], bytes[at + 3]])
    }

    #[inline(always)]
    fn write_half(&mut self, address: u32, value: u16) {
        let at = (address - DATA_START) as usize;
        let value = value.to_le_bytes();
        let bytes: &mut [u8] = &mut self.bytes;
        bytes[at] = value[0];
        bytes[at + 1] = value[1];
    }

    #[inline(always)]
    fn write_word(&mut self, address: u32, value: u32) {
        put_word(&mut self.bytes, (address - DATA_START) as usize, value);
    }

    #[inline(always)]
    fn read_four_words(&self, address: u32) -> [u32; 4] {
        let at = (address - DATA_START) as usize;
        [
            self.word_from(at),
            self.word_from(at + 4),
            self.word_from(at + 8),
            self.word_from(at + 12),
        ]
    }

    #[inline(always)]
    fn write_four_words(&mut self, address: u32, words: [u32; 4]) {
        put_four_words(&mut self.bytes, address, words);
    }
}

/// Puts four words in bytes of data, one after the other from an address on.
#[tactic(auto, using(crate::proofs::Putting::size_kept))]
#[inline(always)]
fn put_four_words(bytes: &mut [u8], address: u32, words: [u32; 4])
    requires low { data_start ≤ address }
    requires high { address + 16 ≤ data_start + length bytes.old }
    ensures { bytes.new ≡ put_number (put_number (put_number (put_number bytes.old Word address (slice_index words 0))
        Word (address + 4) (slice_index words 1)) Word (address + 8) (slice_index words 2))
        Word (address + 12) (slice_index words 3) }
{
    let at = (address - DATA_START) as usize;
    put_word(bytes, at, words[0]);
    put_word(bytes, at + 4, words[1]);
    put_word(bytes, at + 8, words[2]);
    put_word(bytes, at + 12, words[3]);
}

/// Puts a word in bytes of data, its lowest byte first.
#[inline(always)]
fn put_word(bytes: &mut [u8], at: usize, value: u32)
    requires { at + 4 ≤ length bytes.old }
    ensures { bytes.new ≡ put_number bytes.old Word (at + data_start) value }
{
    let value = value.to_le_bytes();
    bytes[at] = value[0];
    bytes[at + 1] = value[1];
    bytes[at + 2] = value[2];
    bytes[at + 3] = value[3];
}
