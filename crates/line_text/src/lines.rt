//! The lines of a text.

ghost use Rattle.std.specs.Prelude.{◌≡◌, ◌≢◌, ◌<◌, ◌≤◌, [], ◌∷◌, length};
ghost use Rattle.std.specs.List.{prefix_len};
ghost use Rattle.line_text.specs.Lines as spec;

/// How many bytes the first line has.
fn line_len(text: &[u8]) -> usize
    ensures value { result ≡ prefix_len spec.is_in_line text.now }
    ensures within { result ≤ length text.now }
{
    text.iter().take_while(|&&byte| byte != b'\n').count()
}

/// What follows the first byte.
fn after_first(bytes: &[u8]) -> &[u8]
    ensures { result.now ≡ spec.after_first bytes.now }
{
    match bytes {
        [] => bytes,
        [_, rest @ ..] => rest,
    }
}

/// The first line, without its line feed, and what follows the line feed. An empty text gives two
/// empty ones.
///
/// Only a line feed ends a line: a carriage return is a byte like others.
pub fn first_line(text: &[u8]) -> (&[u8], &[u8])
    ensures value { (result.0.now, result.1.now) ≡ spec.first_line text.now }
    ensures shorter { text.now ≢ [] → length result.1.now < length text.now }
    ensures lines { text.now ≢ [] → spec.lines_of text.now ≡ result.0.now ∷ spec.lines_of result.1.now }
{
    let (line, rest) = text.split_at(line_len(text));
    (line, after_first(rest))
}
