//! The numbers that digits spell, cut off at a bound so that there may be any number of digits.

ghost use Rattle.std.specs.Prelude.{◌≡◌, ◌+◌, ◌*◌, ◌-◌, ◌<◌, ◌^◌, min};
ghost use Rattle.line_text.specs.Lines.{decimal_number, hexadecimal_number, hexadecimal_value};

/// A digit after a number, or `most + 1` where that is more than `most`.
fn with_digit(number: u64, base: u64, digit: u64, most: u64) -> u64
    requires { most + 1 < 2 ^ 64 }
    ensures { result ≡ min (number * base + digit) (most + 1) }
{
    number
        .saturating_mul(base)
        .saturating_add(digit)
        .min(most + 1)
}

/// The number that decimal digits spell, or `most + 1` where it is more than `most`. No digits
/// spell 0.
///
/// A byte that is no digit counts as how far it is above `0`, and as 0 below it:
/// [`digits_len`](crate::spans::digits_len) says where the digits end.
pub fn saturating_number(digits: &[u8], most: u64) -> u64
    requires { most + 1 < 2 ^ 64 }
    ensures { result ≡ min (decimal_number digits.now) (most + 1) }
{
    let mut number = 0;
    for &digit in digits {
        number = with_digit(number, 10, u64::from(digit.saturating_sub(b'0')), most);
    }
    number
}

/// What a hexadecimal digit stands for. Other bytes count as `hexadecimal_value` says.
fn digit_of(byte: u8) -> u64
    ensures { result ≡ hexadecimal_value byte }
{
    let value = match byte {
        b'a'..=u8::MAX => byte - b'a' + 10,
        b'A'..=u8::MAX => byte - b'A' + 10,
        _ => byte.saturating_sub(b'0'),
    };
    u64::from(value)
}

/// The number that hexadecimal digits of either case spell, or `most + 1` where it is more than
/// `most`. No digits spell 0.
///
/// A byte that is no digit counts as how far it is above the nearest of `0`, `A` and `a` below it,
/// ten more for the letters: [`hexadecimal_len`](crate::spans::hexadecimal_len) says where the
/// digits end.
pub fn saturating_hexadecimal(digits: &[u8], most: u64) -> u64
    requires { most + 1 < 2 ^ 64 }
    ensures { result ≡ min (hexadecimal_number digits.now) (most + 1) }
{
    let mut number = 0;
    for &digit in digits {
        number = with_digit(number, 16, digit_of(digit), most);
    }
    number
}
