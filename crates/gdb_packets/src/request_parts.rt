//! Parts of requests, each with what follows it.

ghost use Rattle.std.specs.Prelude.{◌≡◌, option_map};
ghost use Rattle.gdb_packets.specs.Requests as spec;

use crate::requests::Thread;
use line_text::numbers::saturating_hexadecimal;
use line_text::spans::hexadecimal_len;

/// The number that the hexadecimal digits at the front spell.
#[tactic(auto, unfolding(crate::specs::Requests::number_at))]
pub fn number_at(bytes: &[u8]) -> Option<(u32, &[u8])>
    ensures { option_map (λ found. (found.0, found.1.now)) result ≡ spec.number_at bytes.now }
{
    let count = hexadecimal_len(bytes);
    if count == 0 {
        return None;
    }
    let (digits, rest) = bytes.split_at(count);
    let number = saturating_hexadecimal(digits, u64::from(u32::MAX));
    if number > u64::from(u32::MAX) {
        return None;
    }
    Some((number as u32, rest))
}

/// What follows this byte, where it is at the front.
#[tactic(auto, unfolding(crate::specs::Requests::mark_at))]
pub fn mark_at(mark: u8, bytes: &[u8]) -> Option<&[u8]>
    ensures { option_map (λ rest. rest.now) result ≡ spec.mark_at mark bytes.now }
{
    let (first, rest) = bytes.split_first()?;
    if *first == mark { Some(rest) } else { None }
}

/// The thread that a number names, or `-1`.
#[tactic(auto, unfolding(crate::specs::Requests::thread_at))]
pub fn thread_at(bytes: &[u8]) -> Option<(Thread, &[u8])>
    ensures { option_map (λ found. (found.0, found.1.now)) result ≡ spec.thread_at bytes.now }
{
    if bytes.starts_with(b"-1") {
        return Some((Thread::All, &bytes[2..]));
    }
    let (number, rest) = number_at(bytes)?;
    if number == 0 {
        return Some((Thread::Any, rest));
    }
    Some((Thread::One(number), rest))
}

/// Two numbers with a comma between them.
#[tactic(auto, unfolding(crate::specs::Requests::pair_at))]
pub fn pair_at(bytes: &[u8]) -> Option<((u32, u32), &[u8])>
    ensures { option_map (λ found. (found.0, found.1.now)) result ≡ spec.pair_at bytes.now }
{
    let (first, rest) = number_at(bytes)?;
    let rest = mark_at(b',', rest)?;
    let (second, rest) = number_at(rest)?;
    Some(((first, second), rest))
}

/// A number that all bytes spell.
pub fn number_in(bytes: &[u8]) -> Option<u32>
    ensures { result ≡ spec.number_in bytes.now }
{
    let (number, rest) = number_at(bytes)?;
    if rest.is_empty() { Some(number) } else { None }
}

/// A thread that all bytes name.
pub fn thread_in(bytes: &[u8]) -> Option<Thread>
    ensures { result ≡ spec.thread_in bytes.now }
{
    let (thread, rest) = thread_at(bytes)?;
    if rest.is_empty() { Some(thread) } else { None }
}

/// Two numbers, and nothing else.
pub fn pair_in(bytes: &[u8]) -> Option<(u32, u32)>
    ensures { result ≡ spec.pair_in bytes.now }
{
    let (pair, rest) = pair_at(bytes)?;
    if rest.is_empty() { Some(pair) } else { None }
}
