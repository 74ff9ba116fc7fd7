//! Times in nanoseconds: how they are read, in seconds, and how they are printed.

ghost use Rattle.std.specs.Prelude.{◌≡◌, ◌-◌, ◌<◌, ◌≤◌, ◌++◌, true, length, min, position, take, replicate, slice_index_or, IfSome, OnOk, OnErr};
ghost use Rattle.std.specs.List.{after_first, before_first, list_all, position_or_len};
ghost use Rattle.lola_value.specs.Times.{latest, time_text, read_time, is_digit, is_point, is_time, number_of};

use crate::text::{Memory, Text};
use itoa::write_digits;

/// The greatest time, and the greatest duration, in nanoseconds.
pub const LATEST: u64 = 4_000_000_000_000_000_000;

/// The nanoseconds of a second.
pub const SECOND: u64 = 1_000_000_000;

// One more than the seconds of the greatest time.
const TOO_LATE: u64 = 4_000_000_001;

/// The time that a field of a row spells in seconds, in nanoseconds: digits with at most one point among them, as
/// in `1.5`, `1.` and `.5`, and at least one digit. Decimals past the ninth are dropped. There is none where the
/// bytes are no time, or one above `LATEST`.
pub fn time_read(bytes: &[u8]) -> Option<u64>
    ensures value { result ≡ read_time bytes.now }
    ensures within { IfSome result (λ time. time ≤ latest) }
{
    let (whole, decimals) = parts(bytes);
    if !spells_time(whole, decimals) {
        return None;
    }
    let time = capped_seconds(whole) * SECOND + first_nine(decimals);
    if time <= LATEST { Some(time) } else { None }
}

// Where the first point is.
fn first_point(bytes: &[u8]) -> Option<usize>
    ensures { result ≡ position is_point bytes.now }
{
    bytes.iter().position(|b| *b == b'.')
}

// Where the first point is, or the length where there is none.
fn point_place(bytes: &[u8]) -> usize
    ensures place { result ≡ position_or_len is_point bytes.now }
    ensures within { result ≤ length bytes.now }
{
    first_point(bytes).unwrap_or(bytes.len())
}

// What stands before the first point, and what behind it.
fn parts(bytes: &[u8]) -> (&[u8], &[u8])
    ensures whole { result.0.now ≡ before_first is_point bytes.now }
    ensures decimals { result.1.now ≡ after_first is_point bytes.now }
{
    let point = point_place(bytes);
    let behind = (point + 1).min(bytes.len());
    (&bytes[..point], &bytes[behind..])
}

// Whether these are the digits of a time, before and behind its point.
fn spells_time(whole: &[u8], decimals: &[u8]) -> bool
    ensures { result ≡ is_time whole.now decimals.now }
{
    are_digits(whole) && are_digits(decimals) && (!whole.is_empty() || !decimals.is_empty())
}

// Whether there are digits alone.
fn are_digits(bytes: &[u8]) -> bool
    ensures { result ≡ list_all is_digit bytes.now }
{
    bytes.iter().all(|b| b'0' <= *b && *b <= b'9')
}

// The number that digits spell, where it is below `TOO_LATE`, and `TOO_LATE` for every other.
fn capped_seconds(digits: &[u8]) -> u64
    requires { list_all is_digit digits.now ≡ true }
    ensures { result ≡ min (number_of digits.now) TOO_LATE }
{
    let mut seconds = 0;
    for digit in digits {
        seconds = (seconds * 10 + (*digit - b'0') as u64).min(TOO_LATE);
    }
    seconds
}

// The number that nine digits spell: these, and zeros behind them where they are fewer.
fn first_nine(digits: &[u8]) -> u64
    requires { list_all is_digit digits.now ≡ true }
    ensures value { result ≡ number_of (take 9 (digits.now ++ replicate 9 48)) }
    ensures below { result < 1000000000 }
{
    let mut number = 0;
    for place in 0..9 {
        number = number * 10 + digit_at(digits, place);
    }
    number
}

// The value of the digit at a place, and 0 behind the last.
fn digit_at(digits: &[u8], place: usize) -> u64
    requires { list_all is_digit digits.now ≡ true }
    ensures value { result ≡ slice_index_or digits.now place 48 - 48 }
    ensures below { result < 10 }
{
    let digit = digits.get(place).copied().unwrap_or(b'0');
    (digit - b'0') as u64
}

/// Appends a time: its whole seconds, a point and nine digits of nanoseconds. Where there is no memory the text
/// is as it was.
pub fn time_text(t: u64, to: &mut Text) -> Result<(), Memory>
    ensures ok { OnOk result (to.new ≡ to.old ++ time_text t) }
    ensures err { OnErr result (to.new ≡ to.old) }
{
    // room for the eleven digits of the greatest whole seconds; the zeros lead the nanoseconds
    let mut text = [b'0'; 21];
    let _nanoseconds_from = write_digits(t % SECOND, &mut text, 21);
    text[11] = b'.';
    let from = write_digits(t / SECOND, &mut text, 11);
    to.append(&text[from..])
}
