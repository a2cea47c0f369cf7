//! Where the lines of a text lie.

ghost use Rattle.std.specs.Prelude.{◌≡◌};
ghost use Rattle.assembler.specs.Places as spec;

use memory::{DATA_START, TEXT_START};

/// Counts of words and bytes stop here, far above every limit.
const CAP: u64 = 1 << 60;

/// Where words and bytes go.
#[derive(Clone, Copy, Debug, PartialEq, Eq)]
pub enum Section {
    /// Instructions and words, from 0x00010000 on.
    Text,
    /// Bytes that a program may write, from 0x00200000 on.
    Data,
}

/// Where a line begins: its section, and how many words of text and bytes of data stand before it.
#[derive(Clone, Copy, Debug, PartialEq, Eq)]
pub struct LineLocation {
    pub section: Section,
    pub words: u64,
    pub bytes: u64,
}

fn capped(count: u64) -> u64
    ensures { result ≡ spec.capped count }
{
    count.min(CAP)
}

impl LineLocation {
    /// The place before the first line.
    pub fn start() -> LineLocation
        ensures { result ≡ spec.start }
    {
        LineLocation {
            section: Section::Text,
            words: 0,
            bytes: 0,
        }
    }

    /// The address at which the line's words or bytes go.
    pub fn address(self) -> u64
        ensures { result ≡ spec.address self }
    {
        match self.section {
            Section::Text => u64::from(TEXT_START) + 4 * capped(self.words),
            Section::Data => u64::from(DATA_START) + capped(self.bytes),
        }
    }

    /// The place after this many more words of text.
    pub fn after_words(self, count: u64) -> LineLocation
        ensures { result ≡ spec.after_words self count }
    {
        LineLocation {
            words: capped(self.words.saturating_add(count)),
            ..self
        }
    }

    /// The place after this many more bytes of data.
    pub fn after_bytes(self, count: u64) -> LineLocation
        ensures { result ≡ spec.after_bytes self count }
    {
        LineLocation {
            bytes: capped(self.bytes.saturating_add(count)),
            ..self
        }
    }

    /// The place after a word in the place's section.
    pub fn after_word(self) -> LineLocation
        ensures { result ≡ spec.after_word self self.section }
    {
        match self.section {
            Section::Text => self.after_words(1),
            Section::Data => self.after_bytes(4),
        }
    }

    /// The place after this many bytes that `.space` leaves: none in text, or where the number is no count.
    pub fn after_space(self, number: Option<i64>) -> LineLocation
        ensures { result ≡ spec.after_space self self.section number }
    {
        match (self.section, number) {
            (Section::Data, Some(count)) if count >= 0 => self.after_bytes(count as u64),
            _ => self,
        }
    }

    /// The place in another section.
    pub fn within(self, section: Section) -> LineLocation
        ensures { result ≡ record self { section = section } }
    {
        LineLocation { section, ..self }
    }
}
