//! Numbers from the digits of a field.

ghost use Rattle.std.specs.Prelude.{◌≡◌, ◌^◌};
ghost use Rattle.lola_rows.specs.Values.{below, digit_after, in_range, read_below, read_number, small_integer};

use lola_value::arithmetic::range;
use lola_value::value::Kind;

// A number with one more digit at its end, if it fits.
fn with_digit(size: u64, byte: u8) -> Option<u64>
    ensures { result ≡ below (2 ^ 64) (digit_after size byte) }
{
    if !byte.is_ascii_digit() {
        return None;
    }
    size.checked_mul(10)?.checked_add((byte - b'0') as u64)
}

// The number of digits, if it fits.
fn size_of(digits: &[u8]) -> Option<u64>
    ensures { result ≡ read_below (2 ^ 64) digits.now }
{
    if digits.is_empty() {
        return None;
    }
    let mut size = 0u64;
    for digit in digits {
        size = with_digit(size, *digit)?;
    }
    Some(size)
}

// The number that a field spells, if it has less than 64 bits.
fn integer(text: &[u8]) -> Option<i128>
    ensures { result ≡ small_integer text.now }
{
    match text {
        [b'-', digits @ ..] => {
            let size = size_of(digits)?;
            Some(-(size as i128))
        }
        [b'+', digits @ ..] => {
            let size = size_of(digits)?;
            Some(size as i128)
        }
        _ => {
            let size = size_of(text)?;
            Some(size as i128)
        }
    }
}

// A number, if the kind has it.
fn in_kind(kind: Kind, z: i128) -> Option<i128>
    ensures { result ≡ in_range kind z }
{
    let (least, greatest) = range(kind);
    if least <= z && z <= greatest {
        Some(z)
    } else {
        None
    }
}

/// The number that a field spells, where it is one of a kind of numbers: a sign or none, and digits, of which there is
/// one at least and some may be leading zeros.
pub fn number(kind: Kind, text: &[u8]) -> Option<i128>
    ensures { result ≡ read_number kind text.now }
{
    in_kind(kind, integer(text)?)
}
