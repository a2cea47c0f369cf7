//! Breaks and watches.

ghost use Rattle.std.specs.Prelude.{◌≡◌, ◌≤◌, [], ◌∷◌, ◌++◌, Ok, Err, OnOk, OnErr, IfErr};
ghost use Rattle.memory.specs.Access.{is_text_word, most_words, most_bytes};
ghost use Rattle.debugger.specs.Marks.{with_break, with_watch, is_data_word};
ghost use Rattle.debugger.specs.Refusals.{UnlessMemory};

use crate::refusals::SessionRefusal;
use crate::sessions::Session;
use memory::{DATA_START, TEXT_START};

/// The most marks that a session has, breaks and watches together.
pub const MOST_MARKS: usize = 64;

impl Session {
    /// Sets a break at the address of a text word. Refused where it is none, else where 64 marks are set
    /// and this isn't one of them. A break that is set stays so.
    pub fn set_break(&mut self, pc: u32) -> Result<(), SessionRefusal>
        ensures ok { OnOk result (with_break self.old.state pc ≡ Ok self.new.state) }
        ensures err { IfErr result (λ refusal. UnlessMemory refusal (with_break self.old.state pc ≡ Err refusal)) }
        ensures unchanged { OnErr result (self.new ≡ self.old) }
        ensures steps { self.new.steps ≡ self.old.steps }
        // Memory is wanted for a mark that is to be added alone.
        ensures needed { result ≡ Err SessionRefusal.OutOfMemory → with_break self.old.state pc
            ≡ Ok (record self.old.state { breaks = self.old.state.breaks ++ pc ∷ [] }) }
    {
        if !is_text_word(self.image.words().len(), pc) {
            return Err(SessionRefusal::Address);
        }
        if self.breaks.contains(&pc) {
            return Ok(());
        }
        if self.breaks.len() + self.watches.len() >= MOST_MARKS {
            return Err(SessionRefusal::TooManyMarks);
        }
        self.breaks.push(pc)?;
        Ok(())
    }

    /// Sets a watch of an aligned word, of which all four bytes are data. Refused where it is none, else
    /// where 64 marks are set and this isn't one of them. A watch that is set stays so.
    pub fn set_watch(&mut self, address: u32) -> Result<(), SessionRefusal>
        ensures ok { OnOk result (with_watch self.old.state address ≡ Ok self.new.state) }
        ensures err { IfErr result (λ refusal. UnlessMemory refusal (with_watch self.old.state address ≡ Err refusal)) }
        ensures unchanged { OnErr result (self.new ≡ self.old) }
        ensures steps { self.new.steps ≡ self.old.steps }
        // Memory is wanted for a mark that is to be added alone.
        ensures needed { result ≡ Err SessionRefusal.OutOfMemory → with_watch self.old.state address
            ≡ Ok (record self.old.state { watches = self.old.state.watches ++ address ∷ [] }) }
    {
        if !is_data_word(self.image.data().len(), address) {
            return Err(SessionRefusal::Address);
        }
        if self.watches.contains(&address) {
            return Ok(());
        }
        if self.breaks.len() + self.watches.len() >= MOST_MARKS {
            return Err(SessionRefusal::TooManyMarks);
        }
        self.watches.push(address)?;
        Ok(())
    }
}

/// Whether a word begins at the address, where text has this many words.
fn is_text_word(words: usize, address: u32) -> bool
    requires { words ≤ most_words }
    ensures { result ≡ is_text_word words address }
{
    address.is_multiple_of(4)
        && address >= TEXT_START
        && (address as usize) < TEXT_START as usize + 4 * words
}

/// Whether an aligned word at the address is all data, where data has this many bytes.
fn is_data_word(bytes: usize, address: u32) -> bool
    requires { bytes ≤ most_bytes }
    ensures { result ≡ is_data_word bytes address }
{
    address.is_multiple_of(4)
        && address >= DATA_START
        && address as usize + 4 <= DATA_START as usize + bytes
}
