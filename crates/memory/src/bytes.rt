//! What a memory must do.

ghost use Rattle.std.specs.Prelude.{◌≡◌, ◌<◌, ◌+◌, ◌%◌, ◌^◌, ℕ, List, [], ◌∷◌, length, slice_index, IsTrue};
ghost use Rattle.memory.specs.Access.{fetched, byte_at, covers_load, in_data, put_byte};
ghost use Rattle.memory.specs.Access.{Half, Word, number_in, put_number};

/// The address of the first text word.
pub const TEXT_START: u32 = 0x0001_0000;

/// The address of the first data byte.
pub const DATA_START: u32 = 0x0020_0000;

/// The most words that a text has.
pub const MOST_WORDS: usize = 262_144;

/// The most bytes that data has.
pub const MOST_BYTES: usize = 33_554_432;

/// A memory that harts share: words of text, which are never written, and bytes of data.
///
/// Its law is in the clauses: a read gives the byte that is at the address, and a write puts one
/// byte and leaves every other one. The half-words and words of data are those bytes, the lowest first; a memory
/// that has them side by side may take them in one go, and four words one after the other too.
pub trait Bytes {
    /// The words of text.
    ghost text: { Self → List ℕ };

    /// The bytes of data.
    ghost memory: { Self → List ℕ };

    /// The word of text that begins at an address, if one does.
    fn fetch(&self, pc: u32) -> Option<u32>
        ensures { result ≡ fetched (text self.now) pc };

    /// Whether this many bytes from an address on are all text or all data.
    fn covers_load(&self, address: u32, count: u32) -> bool
        ensures { result ≡ covers_load (length (text self.now)) (length (memory self.now)) address count };

    /// Whether this many bytes from an address on are all data.
    fn covers_store(&self, address: u32, count: u32) -> bool
        ensures { result ≡ in_data (length (memory self.now)) address count };

    /// The byte at an address of text or data.
    fn read(&self, address: u32) -> u8
        requires { IsTrue (covers_load (length (text self.now)) (length (memory self.now)) address 1) }
        ensures { result ≡ byte_at (text self.now) (memory self.now) address };

    /// Puts a byte at an address of data.
    fn write(&mut self, address: u32, value: u8)
        requires { IsTrue (in_data (length (memory self.old)) address 1) }
        ensures text { text self.new ≡ text self.old }
        ensures memory { memory self.new ≡ put_byte (memory self.old) address value };

    /// The half-word at an even address of text or data, its lowest byte first.
    fn read_half(&self, address: u32) -> u16
        requires aligned { address % 2 ≡ 0 }
        requires covered { IsTrue (covers_load (length (text self.now)) (length (memory self.now)) address 2) }
        ensures { result ≡ number_in (text self.now) (memory self.now) Half address }
    {
        u16::from_le_bytes([self.read(address), self.read(address + 1)])
    }

    /// The word at an address of text or data that is a multiple of 4, its lowest byte first.
    fn read_word(&self, address: u32) -> u32
        requires aligned { address % 4 ≡ 0 }
        requires covered { IsTrue (covers_load (length (text self.now)) (length (memory self.now)) address 4) }
        ensures { result ≡ number_in (text self.now) (memory self.now) Word address }
    {
        u32::from_le_bytes([
            self.read(address),
            self.read(address + 1),
            self.read(address + 2),
            self.read(address + 3),
        ])
    }

    /// Puts a half-word at an even address of data, its lowest byte first.
    fn write_half(&mut self, address: u32, value: u16)
        requires aligned { address % 2 ≡ 0 }
        requires covered { IsTrue (in_data (length (memory self.old)) address 2) }
        ensures text { text self.new ≡ text self.old }
        ensures memory { memory self.new ≡ put_number (memory self.old) Half address value }
    {
        let bytes = value.to_le_bytes();
        self.write(address, bytes[0]);
        self.write(address + 1, bytes[1]);
    }

    /// Puts a word at an address of data that is a multiple of 4, its lowest byte first.
    fn write_word(&mut self, address: u32, value: u32)
        requires aligned { address % 4 ≡ 0 }
        requires covered { IsTrue (in_data (length (memory self.old)) address 4) }
        ensures text { text self.new ≡ text self.old }
        ensures memory { memory self.new ≡ put_number (memory self.old) Word address value }
    {
        let bytes = value.to_le_bytes();
        self.write(address, bytes[0]);
        self.write(address + 1, bytes[1]);
        self.write(address + 2, bytes[2]);
        self.write(address + 3, bytes[3]);
    }

    /// The four words of data from an address on that is a multiple of 4.
    fn read_four_words(&self, address: u32) -> [u32; 4]
        requires aligned { address % 4 ≡ 0 }
        requires covered { IsTrue (in_data (length (memory self.now)) address 16) }
        requires below { address + 16 < 2 ^ 32 }
        ensures { result ≡ number_in (text self.now) (memory self.now) Word address
            ∷ number_in (text self.now) (memory self.now) Word (address + 4)
            ∷ number_in (text self.now) (memory self.now) Word (address + 8)
            ∷ number_in (text self.now) (memory self.now) Word (address + 12) ∷ [] }
    {
        [
            self.read_word(address),
            self.read_word(address + 4),
            self.read_word(address + 8),
            self.read_word(address + 12),
        ]
    }

    /// Puts four words of data, one after the other, from an address on that is a multiple of 4.
    #[tactic(auto, using(crate::proofs::Putting::size_kept))]
    fn write_four_words(&mut self, address: u32, words: [u32; 4])
        requires aligned { address % 4 ≡ 0 }
        requires covered { IsTrue (in_data (length (memory self.old)) address 16) }
        requires below { address + 16 < 2 ^ 32 }
        ensures text { text self.new ≡ text self.old }
        ensures memory { memory self.new ≡ put_number (put_number (put_number (put_number (memory self.old)
            Word address (slice_index words 0)) Word (address + 4) (slice_index words 1))
            Word (address + 8) (slice_index words 2)) Word (address + 12) (slice_index words 3) }
    {
        self.write_word(address, words[0]);
        self.write_word(address + 4, words[1]);
        self.write_word(address + 8, words[2]);
        self.write_word(address + 12, words[3]);
    }
}
