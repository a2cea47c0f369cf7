//! Laws of the assembler, each the contract of a function that does nothing: its caller learns the law.

ghost use Rattle.std.specs.Prelude.{◌≤◌, ℕ, List, length};
ghost use Rattle.memory.specs.Access.{most_words};
ghost use Rattle.assembler.specs.Listings.{AreWords, AssemblesBack, AssemblesBackFrom};

use assembler_mnemonics::laws::{fields_fit, means_is_word, mnemonics_tell_apart};
use disassembler::laws::{addresses_say_nothing, lines_are_single, lines_say_their_words};
use line_text::laws::lines_are_read_back;
use rv_encoding::decoded_is_meant;

/// A law: the listing of words assembles to these words, and to nothing else.
pub fn listings_assemble()
    ensures { (words : List ℕ) → AreWords words → 1 ≤ length words → length words ≤ most_words → AssemblesBack words }
{
    lines_say_their_words();
    lines_are_single();
    lines_are_read_back();
    mnemonics_tell_apart();
    fields_fit();
    means_is_word();
    decoded_is_meant();
}

/// A law: the listing with addresses assembles to the same words, and to nothing else.
pub fn addressed_listings_assemble()
    ensures { (start : ℕ) (words : List ℕ) → AreWords words → 1 ≤ length words → length words ≤ most_words
        → AssemblesBackFrom start words }
{
    lines_say_their_words();
    lines_are_single();
    addresses_say_nothing();
    lines_are_read_back();
    mnemonics_tell_apart();
    fields_fit();
    means_is_word();
    decoded_is_meant();
}
