//! Numbers with a sign as words of a line, up to 127 bits. Each is spelled in one way: what is read is written again and compared.

ghost use Rattle.std.specs.Prelude.{◌≡◌, ◌≢◌, ◌↔◌, ◌^◌, ◌<◌, ℕ, ℤ, Some, pos, neg_ℤ, decimal, unsigned_abs, IfSome, IsTrue, MatchOption};
ghost use Rattle.lola_value.specs.Numbers.{integer_text};

use crate::cuts::behind;
use itoa::Buffer;

// The number of some digits, and maybe one of other texts.
fn parsed(text: &str) -> Option<u128>
    ensures { (n : ℕ) → n < 2 ^ 127 → text.now ≡ decimal n → result ≡ Some n }
{
    text.parse::<u128>().ok()
}

// The same of bytes.
fn size(digits: &[u8]) -> Option<u128>
    ensures { (n : ℕ) → n < 2 ^ 127 → digits.now ≡ decimal n → result ≡ Some n }
{
    match str::from_utf8(digits) {
        Ok(text) => parsed(text),
        Err(_) => None,
    }
}

// The same with a sign, where there is room for it.
fn positive(digits: &[u8]) -> Option<i128>
    ensures number { (n : ℕ) → n < 2 ^ 127 → digits.now ≡ decimal n → result ≡ Some (pos n) }
    ensures small { IfSome result (λ z. unsigned_abs z < 2 ^ 127) }
{
    match size(digits) {
        None => None,
        Some(n) => {
            if n <= i128::MAX as u128 {
                Some(n as i128)
            } else {
                None
            }
        }
    }
}

// The same with a minus sign.
fn negative(digits: &[u8]) -> Option<i128>
    ensures number { (n : ℕ) → n < 2 ^ 127 → digits.now ≡ decimal n → result ≡ Some (neg_ℤ (pos n)) }
    ensures small { IfSome result (λ z. unsigned_abs z < 2 ^ 127) }
{
    match size(digits) {
        None => None,
        Some(n) => {
            if n <= i128::MAX as u128 {
                Some(-(n as i128))
            } else {
                None
            }
        }
    }
}

// The number that is spelled so, and maybe one of other bytes.
fn candidate(bytes: &[u8]) -> Option<i128>
    ensures number { (z : ℤ) → unsigned_abs z < 2 ^ 127 → bytes.now ≡ integer_text z → result ≡ Some z }
    ensures small { IfSome result (λ z. unsigned_abs z < 2 ^ 127) }
{
    match behind(b"-", bytes) {
        None => positive(bytes),
        Some(digits) => negative(digits),
    }
}

// Whether this is how a number is spelled.
fn is_integer_text(z: i128, bytes: &[u8]) -> bool
    ensures { IsTrue result ↔ (bytes.now ≡ integer_text z) }
{
    let mut buffer = Buffer::new();
    buffer.format(z).as_bytes() == bytes
}

/// The number that is spelled so, with a minus sign where it is negative and no leading zero. None where the bytes spell no number
/// of less than 127 bits.
pub(crate) fn integer_word(bytes: &[u8]) -> Option<i128>
    ensures { MatchOption result ((z : ℤ) → unsigned_abs z < 2 ^ 127 → bytes.now ≢ integer_text z) (λ z. (unsigned_abs z < 2 ^ 127) × (bytes.now ≡ integer_text z)) }
{
    match candidate(bytes) {
        None => None,
        Some(z) => {
            if is_integer_text(z, bytes) {
                Some(z)
            } else {
                None
            }
        }
    }
}
