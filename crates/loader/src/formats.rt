//! The two formats of images.

ghost use Rattle.std.specs.Prelude.{◌≡◌};
ghost use Rattle.loader.specs.Spelling.{header_length, magic};

/// A format of images. Both are read, and the second is written.
#[derive(Clone, Copy, Debug, PartialEq, Eq)]
pub enum Format {
    /// All data bytes are stored.
    Hrv1,
    /// The zeros at the end of data aren't stored.
    Hrv2,
}

impl Format {
    /// The letters that an image begins with.
    pub fn magic(self) -> [u8; 4]
        ensures { result ≡ magic self }
    {
        match self {
            Format::Hrv1 => *b"HRV1",
            Format::Hrv2 => *b"HRV2",
        }
    }

    /// How many bytes stand before the words.
    pub fn header_len(self) -> usize
        ensures { result ≡ header_length self }
    {
        match self {
            Format::Hrv1 => 32,
            Format::Hrv2 => 36,
        }
    }
}
