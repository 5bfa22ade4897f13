//! Numbers of JSON.

ghost use Rattle.std.specs.Prelude.{◌≡◌, ◌≤◌, ◌+◌, ◌-◌, ◌*◌, ◌^◌, ◌&&◌, Some, None, nat_lt, if◌then◌else◌};
ghost use Rattle.mdb_recording_lines.specs.Numbers.{behind_point, is_digit, micros, millionths, plus, times, whole};

use mdb_base::cut;

// The number with one digit more, if the byte is one and it fits.
fn with_digit(number: u64, byte: u8) -> Option<u64>
    ensures { result ≡ (if is_digit byte && nat_lt (number * 10 + (byte - 48)) (2 ^ 64) then Some (number * 10 + (byte - 48)) else None) }
{
    if 48 <= byte && byte <= 57 {
        match number.checked_mul(10) {
            Some(tens) => tens.checked_add(u64::from(byte - 48)),
            None => None,
        }
    } else {
        None
    }
}

/// A whole number of 64 bits with no sign, if the bytes are one.
pub fn whole(bytes: &[u8]) -> Option<u64>
    ensures { result ≡ whole 0 bytes.now }
{
    let mut number = 0u64;
    let mut rest = bytes;
    while let Some((byte, more)) = rest.split_first() {
        match with_digit(number, *byte) {
            Some(next) => {
                number = next;
                rest = more;
            }
            None => return None,
        }
    }
    Some(number)
}

fn times(by: u64, number: Option<u64>) -> Option<u64>
    ensures { result ≡ times by number }
{
    match number {
        Some(number) => number.checked_mul(by),
        None => None,
    }
}

fn plus(a: Option<u64>, b: Option<u64>) -> Option<u64>
    ensures { result ≡ plus a b }
{
    match (a, b) {
        (Some(a), Some(b)) => a.checked_add(b),
        _ => None,
    }
}

// What a digit counts that so many stand before, behind a point.
fn power(digits: usize) -> u64
    requires { digits ≤ 6 }
    ensures { result ≡ 10 ^ (6 - digits) }
{
    match digits {
        0 => 1_000_000,
        1 => 100_000,
        2 => 10_000,
        3 => 1_000,
        4 => 100,
        5 => 10,
        _ => 1,
    }
}

fn millionths(digits: &[u8]) -> Option<u64>
    ensures { result ≡ millionths digits.now }
{
    if digits.len() <= 6 {
        times(power(digits.len()), whole(digits))
    } else {
        let (front, back) = digits.split_at(6);
        if whole(back).is_some() {
            whole(front)
        } else {
            None
        }
    }
}

fn behind_point(text: &[u8]) -> Option<u64>
    ensures { result ≡ behind_point text.now }
{
    match text.split_first() {
        Some((_point, digits)) => millionths(digits),
        None => Some(0),
    }
}

/// Seconds as microseconds of 64 bits, if the text is digits, maybe with a point and digits behind it; six of these count.
pub fn micros(text: &str) -> Option<u64>
    ensures { result ≡ micros text.now }
{
    let (seconds, rest) = cut(text, '.');
    plus(
        times(1_000_000, whole(seconds.as_bytes())),
        behind_point(rest.as_bytes()),
    )
}
