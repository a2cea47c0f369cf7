//! Laws of the definitions, each the contract of a function that does nothing.

ghost use Rattle.std.specs.Fmt.{decimal};
ghost use Rattle.std.specs.Prelude.{◌≡◌, ◌≢◌, ◌<◌, ◌^◌, ℕ, Bool, true, length, List, [], ◌∷◌, ◌++◌, Err};
ghost use Rattle.std.specs.List.{AllByRecursion, list_all, prefix_len};
ghost use Rattle.line_text.specs.Lines.{IsLine, lines_of, text_of};
ghost use Rattle.line_text.specs.Lines.{is_digit};
ghost use Rattle.line_text.specs.Lines.{decimal_number};
ghost use Rattle.line_text.specs.Lines.{IsFirstFault, TakesInTurn, taken_from};

use crate::line_readers::LineReader;

/// Lines that line feeds end are read back as they are, whether or not the last one has its line
/// feed.
pub fn lines_are_read_back()
    ensures ended { (lines : List (List ℕ)) → AllByRecursion IsLine lines → lines_of (text_of lines) ≡ lines }
    ensures unended { (lines : List (List ℕ)) (last : List ℕ) → AllByRecursion IsLine lines → IsLine last → last ≢ []
        → lines_of (text_of lines ++ last) ≡ lines ++ last ∷ [] }
{}

/// The line that is named is the first faulty one: all lines before it are taken, and it is refused
/// with the fault.
pub fn named_line_is_the_first<R: LineReader>()
    ensures { (first : ℕ) (state : R) (lines : List (List ℕ)) (number : ℕ) (fault : R.Fault)
        → taken_from R.takes first state lines ≡ Err (number, fault)
        → IsFirstFault R.takes first state lines number fault }
{}

/// A number that `{}` writes is read back: what is written are digits, and they spell the number.
pub fn numbers_are_read_back()
    ensures digits { (number : ℕ) → number < 2 ^ 64 → list_all is_digit (decimal number) ≡ true }
    ensures value { (number : ℕ) → number < 2 ^ 64 → decimal_number (decimal number) ≡ number }
{}

/// Bytes of a class in front of others are the span, where the others begin with no byte of the
/// class.
pub fn front_is_the_span()
    ensures { (class : ℕ → Bool) (front rest : List ℕ) → list_all class front ≡ true → prefix_len class rest ≡ 0
        → prefix_len class (front ++ rest) ≡ length front }
{}

/// Lines are taken up to any place, and then from there.
pub fn lines_are_taken_in_turn<R: LineReader>()
    ensures { TakesInTurn R.takes }
{}
