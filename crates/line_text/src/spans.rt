//! Spans at the front of bytes, each the longest of its class.

ghost use Rattle.std.specs.Prelude.{◌≡◌, ◌≤◌, length};
ghost use Rattle.std.specs.List.{prefix_len};
ghost use Rattle.line_text.specs.Lines as spec;

/// Whether a byte is a space or a tab.
pub fn is_blank(byte: u8) -> bool
    ensures { result ≡ spec.is_blank byte }
{
    byte == b' ' || byte == b'\t'
}

/// Whether a byte is a decimal digit.
pub fn is_digit(byte: u8) -> bool
    ensures { result ≡ spec.is_digit byte }
{
    byte.is_ascii_digit()
}

/// Whether a byte is a hexadecimal digit, of either case.
pub fn is_hexadecimal(byte: u8) -> bool
    ensures { result ≡ spec.is_hexadecimal byte }
{
    matches!(byte, b'0'..=b'9' | b'A'..=b'F' | b'a'..=b'f')
}

/// Whether a byte can be the first of a name: an ASCII letter or `_`.
pub fn begins_name(byte: u8) -> bool
    ensures { result ≡ spec.begins_name byte }
{
    byte.is_ascii_alphabetic() || byte == b'_'
}

/// Whether a byte can be a later one of a name: an ASCII letter, a decimal digit or `_`.
pub fn continues_name(byte: u8) -> bool
    ensures { result ≡ spec.continues_name byte }
{
    begins_name(byte) || is_digit(byte)
}

/// How many bytes at the front are blanks.
pub fn blanks_len(bytes: &[u8]) -> usize
    ensures value { result ≡ prefix_len spec.is_blank bytes.now }
    ensures within { result ≤ length bytes.now }
{
    bytes.iter().take_while(|&&byte| is_blank(byte)).count()
}

/// How many bytes at the front are decimal digits.
pub fn digits_len(bytes: &[u8]) -> usize
    ensures value { result ≡ prefix_len spec.is_digit bytes.now }
    ensures within { result ≤ length bytes.now }
{
    bytes.iter().take_while(|&&byte| is_digit(byte)).count()
}

/// How many bytes at the front are hexadecimal digits.
pub fn hexadecimal_len(bytes: &[u8]) -> usize
    ensures value { result ≡ prefix_len spec.is_hexadecimal bytes.now }
    ensures within { result ≤ length bytes.now }
{
    bytes
        .iter()
        .take_while(|&&byte| is_hexadecimal(byte))
        .count()
}

/// How many bytes at the front can continue a name. They are a name where the first begins one.
pub fn name_len(bytes: &[u8]) -> usize
    ensures value { result ≡ prefix_len spec.continues_name bytes.now }
    ensures within { result ≤ length bytes.now }
{
    bytes
        .iter()
        .take_while(|&&byte| continues_name(byte))
        .count()
}

/// The bytes from the first that is no blank.
pub fn skip_blanks(bytes: &[u8]) -> &[u8]
    ensures value { result.now ≡ spec.skip_blanks bytes.now }
    ensures within { length result.now ≤ length bytes.now }
{
    let (_, rest) = bytes.split_at(blanks_len(bytes));
    rest
}

/// Whether nothing but a comment is left of a line: there are no bytes, or the first is `#`.
pub fn ends(bytes: &[u8]) -> bool
    ensures { result ≡ spec.ends bytes.now }
{
    match bytes {
        [] => true,
        [first, ..] => *first == b'#',
    }
}
