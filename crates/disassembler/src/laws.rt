//! Laws of the listing, each the contract of a function that does nothing: its caller learns the law.

ghost use Rattle.std.specs.Prelude.{◌≡◌, ◌<◌, ◌^◌, ℕ, Some};
ghost use Rattle.line_text.specs.Lines.{IsLine};
ghost use Rattle.assembler_syntax.specs.Tokens.{tokens_of};
ghost use Rattle.assembler_syntax.specs.Statements.{statement_of};
ghost use Rattle.disassembler.specs.Listing.{addressed_line, line_of};
ghost use Rattle.disassembler.specs.Reading.{tokens_said, statement_said};

use assembler_mnemonics::laws::{fields_fit, mnemonics_tell_apart};
use rv_encoding::decoded_is_meant;

/// A law: the line of a word, without its line feed, is read as the mnemonic and the operands that it
/// shows.
pub fn lines_say_their_words()
    ensures tokens { (word : ℕ) → word < 2 ^ 32 → tokens_of (line_of word) ≡ tokens_said word }
    ensures statement { (word : ℕ) → word < 2 ^ 32 → statement_of (tokens_of (line_of word))
        ≡ Some (statement_said word) }
{
    fields_fit();
    mnemonics_tell_apart();
    decoded_is_meant();
}

/// A law: the line of a word has no line feed within.
pub fn lines_are_single()
    ensures { (word : ℕ) → word < 2 ^ 32 → IsLine (line_of word) }
{
    fields_fit();
    mnemonics_tell_apart();
    decoded_is_meant();
}

/// A law: with its address the line of a word is read as it is without, and has no line feed within.
pub fn addresses_say_nothing()
    ensures tokens { (word address : ℕ) → word < 2 ^ 32 → tokens_of (addressed_line address word) ≡ tokens_said word }
    ensures statement { (word address : ℕ) → word < 2 ^ 32 → statement_of (tokens_of (addressed_line address word))
        ≡ Some (statement_said word) }
    ensures single { (word address : ℕ) → word < 2 ^ 32 → IsLine (addressed_line address word) }
{
    fields_fit();
    mnemonics_tell_apart();
    decoded_is_meant();
}
