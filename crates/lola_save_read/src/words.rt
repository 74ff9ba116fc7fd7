//! Numbers and times as words of a line. Each is spelled in one way: what is read is written again and compared.

ghost use Rattle.std.specs.Prelude.{◌≡◌, ◌≢◌, ◌↔◌, ◌^◌, ◌<◌, ◌≤◌, ℕ, Option, Some, true, codes, decimal, drop, replicate, IsTrue, MatchOption};
ghost use Rattle.lola_value.specs.Times.{latest, time_text};
ghost use Rattle.lola_save_text.specs.Fitting.{is_start, time_or};
ghost use Rattle.lola_save_text.specs.Lines.{time_or_dash};

use itoa::{Buffer, write_digits};
use lola_value::times::{SECOND, time_read};

// The number of some digits, and maybe one of other texts.
fn parsed(text: &str) -> Option<u64>
    ensures { (n : ℕ) → n < 2 ^ 64 → text.now ≡ decimal n → result ≡ Some n }
{
    text.parse::<u64>().ok()
}

// The same of bytes.
fn candidate(digits: &[u8]) -> Option<u64>
    ensures { (n : ℕ) → n < 2 ^ 64 → digits.now ≡ decimal n → result ≡ Some n }
{
    match str::from_utf8(digits) {
        Ok(text) => parsed(text),
        Err(_) => None,
    }
}

/// Whether these are the digits of a number.
pub(crate) fn is_decimal(n: u64, digits: &[u8]) -> bool
    ensures { IsTrue result ↔ (digits.now ≡ decimal n) }
{
    let mut buffer = Buffer::new();
    buffer.format(n).as_bytes() == digits
}

/// The number whose digits these are, with no leading zero. None where they are those of no number below 2^64.
pub(crate) fn number_word(digits: &[u8]) -> Option<u64>
    ensures { MatchOption result ((n : ℕ) → n < 2 ^ 64 → digits.now ≢ decimal n) (λ n. digits.now ≡ decimal n) }
{
    match candidate(digits) {
        None => None,
        Some(n) => { if is_decimal(n, digits) { Some(n) } else { None } }
    }
}

// Prints a time at the end of a buffer of zeros, and answers where it begins.
fn print_time(t: u64, room: &mut [u8; 21]) -> usize
    requires { room.old ≡ replicate 21 48 }
    ensures text { drop result room.new ≡ time_text t }
    ensures within { result ≤ 21 }
{
    // room for the eleven digits of the greatest whole seconds; the zeros lead the nanoseconds
    let _nanoseconds_from = write_digits(t % SECOND, room, 21);
    room[11] = b'.';
    write_digits(t / SECOND, room, 11)
}

// Whether these bytes are a time as it is printed.
fn is_time_text(t: u64, bytes: &[u8]) -> bool
    ensures { IsTrue result ↔ (bytes.now ≡ time_text t) }
{
    let mut room = [b'0'; 21];
    let from = print_time(t, &mut room);
    &room[from..] == bytes
}

/// The time, in nanoseconds, that is printed as these bytes. None where they are no time, or one above the latest.
pub(crate) fn time_word(bytes: &[u8]) -> Option<u64>
    ensures { MatchOption result ((t : ℕ) → t ≤ latest → bytes.now ≢ time_text t) (λ t. (t ≤ latest) × (bytes.now ≡ time_text t)) }
{
    match time_read(bytes) {
        None => None,
        Some(t) => {
            if is_time_text(t, bytes) {
                Some(t)
            } else {
                None
            }
        }
    }
}

/// Whether this is the dash that stands for no time.
pub(crate) fn is_dash(bytes: &[u8]) -> bool
    ensures { IsTrue result ↔ (bytes.now ≡ codes "-") }
{
    bytes == b"-".as_slice()
}

/// A time as it is printed, or a dash where there is none.
pub(crate) fn time_or_dash(bytes: &[u8]) -> Option<Option<u64>>
    ensures { MatchOption result ((o : Option ℕ) → is_start o ≡ true → bytes.now ≢ time_or_dash o) (λ o. (is_start o ≡ true) × (bytes.now ≡ time_or_dash o)) }
{
    if is_dash(bytes) {
        return Some(None);
    }
    match time_word(bytes) {
        None => None,
        Some(t) => Some(Some(t)),
    }
}

/// A time, or this one where there is none.
pub(crate) fn time_or(time: u64, other: Option<u64>) -> u64
    ensures { result ≡ time_or time other }
{
    match other {
        None => time,
        Some(t) => t,
    }
}
