//! How many lines a text has begun.

ghost use Rattle.std.specs.Prelude.{◌≡◌, ◌<◌, ◌≤◌, true, length};
ghost use Rattle.line_text.specs.Lines.{lines_of};
ghost use Rattle.hrv_engines.specs.inner.LineCounts as spec;

/// How many line feeds there are.
pub(crate) fn line_feeds(bytes: &[u8]) -> usize
    ensures value { result ≡ spec.line_feeds bytes.now }
    ensures within { result ≤ length bytes.now }
{
    let mut count = 0;
    for &byte in bytes {
        if byte == b'\n' {
            count += 1;
        }
    }
    count
}

/// Whether a text of this many line feeds has more lines than this many, of which the last need not have ended.
pub(crate) fn has_more_lines(bytes: &[u8], feeds: usize, most: usize) -> bool
    ensures { feeds ≡ spec.line_feeds bytes.now → result ≡ true → most < length (lines_of bytes.now) }
{
    if feeds != most {
        return feeds > most;
    }
    match bytes.split_last() {
        Some((last, _)) => *last != b'\n',
        None => false,
    }
}
