//! Bytes cut at the first of a kind.

ghost use Rattle.std.specs.Prelude.{◌≡◌, ◌≢◌, ◌≤◌, ◌<◌, ◌==◌, not, ◌++◌, ◌∷◌, length, IfSome, MatchOption};
ghost use Rattle.std.specs.List.{AllByRecursion, prefix_len};

/// What is before the first such byte, and what follows it; nothing where there is no such byte.
pub fn cut_at(bytes: &[u8], mark: u8) -> Option<(&[u8], &[u8])>
    ensures parts { MatchOption result (AllByRecursion (λ byte. byte ≢ mark) bytes.now)
        (λ found. (bytes.now ≡ found.0.now ++ mark ∷ found.1.now) × AllByRecursion (λ byte. byte ≢ mark) found.0.now) }
    ensures shorter { IfSome result (λ found. length found.1.now < length bytes.now) }
{
    let (front, rest) = bytes.split_at(len_before(bytes, mark));
    match rest.split_first() {
        Some((_, others)) => Some((front, others)),
        None => None,
    }
}

/// How many bytes stand before the first such byte.
fn len_before(bytes: &[u8], mark: u8) -> usize
    ensures value { result ≡ prefix_len (λ byte. not (byte == mark)) bytes.now }
    ensures within { result ≤ length bytes.now }
{
    bytes.iter().take_while(|&&byte| byte != mark).count()
}
