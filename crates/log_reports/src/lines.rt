//! What a line of a log's text says.

ghost use Rattle.std.specs.Prelude.{◌≡◌};
ghost use Rattle.log_reports.specs.LogText as spec;

use line_text::numbers::saturating_number;
use line_text::spans::digits_len;
use turn_log::MOST_TURNS;

/// The number that is all of the bytes.
#[tactic(auto, unfolding(crate::specs::LogText::number_of))]
fn number_of(word: &[u8]) -> Option<u64>
    ensures { result ≡ spec.number_of word.now }
{
    if word.is_empty() || digits_len(word) < word.len() {
        return None;
    }
    Some(saturating_number(word, MOST_TURNS))
}

/// The number of harts that a line gives.
#[tactic(auto, unfolding(crate::specs::LogText::harts_in))]
pub fn harts_in(line: &[u8]) -> Option<u64>
    ensures { result ≡ spec.harts_in line.now }
{
    if !line.starts_with(b"harts ") {
        return None;
    }
    number_of(&line[6..])
}

/// The hart of a run and how many turns it has, as a line gives them.
#[tactic(auto, unfolding(crate::specs::LogText::run_in))]
pub fn run_in(line: &[u8]) -> Option<(u64, u64)>
    ensures { result ≡ spec.run_in line.now }
{
    let (digits, rest) = line.split_at(digits_len(line));
    let hart = number_of(digits)?;
    let [byte, word @ ..] = rest else {
        return None;
    };
    if *byte != b' ' {
        return None;
    }
    Some((hart, number_of(word)?))
}
