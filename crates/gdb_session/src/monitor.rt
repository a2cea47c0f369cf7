//! Lines of `monitor`.

ghost use Rattle.std.specs.Prelude.{◌≡◌, ◌≤◌, ◌^◌, true};
ghost use Rattle.gdb_session.specs.Monitor as spec;

/// No log has this many turns.
const MOST_PLACE: u64 = 1 << 60;

/// `goto ` as hexadecimal digits.
const GOTO: &str = "676f746f20";

/// The place that a line names, which these hexadecimal digits spell.
#[tactic(auto, unfolding(crate::specs::Monitor::place_in))]
pub fn place_in(digits: &[u8]) -> Option<u64>
    ensures { result ≡ spec.place_in digits.now }
{
    if !digits.starts_with(GOTO.as_bytes()) {
        return None;
    }
    let (_, rest) = digits.split_at(GOTO.len());
    number_in(rest)
}

/// The number that decimal digits spell, each by two digits.
fn number_in(digits: &[u8]) -> Option<u64>
    ensures { result ≡ spec.number_in digits.now }
{
    match digits {
        [] => None,
        [_, ..] => number_from(0, digits),
    }
}

/// The same, after digits that spelled a number.
#[tactic(auto, unfolding(crate::specs::Monitor::number_from))]
fn number_from(number: u64, digits: &[u8]) -> Option<u64>
    requires { number ≤ 2 ^ 60 }
    ensures { result ≡ spec.number_from number digits.now }
{
    let [three, behind @ ..] = digits else {
        return Some(number);
    };
    let [digit, others @ ..] = behind else {
        return None;
    };
    if !is_pair(*three, *digit) {
        return None;
    }
    let next = number * 10 + (*digit - b'0') as u64;
    number_from(next.min(MOST_PLACE), others)
}

/// Whether two digits spell a decimal digit.
fn is_pair(three: u8, digit: u8) -> bool
    ensures pair { result ≡ spec.is_pair three digit }
    ensures digit { result ≡ true → (48 ≤ digit) × (digit ≤ 57) }
{
    three == b'3' && digit >= b'0' && digit <= b'9'
}
