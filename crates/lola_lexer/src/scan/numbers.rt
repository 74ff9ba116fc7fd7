//! Integers and quantities.

ghost use Rattle.std.specs.Prelude.{◌≡◌, ◌≢◌, ◌<◌, ◌≤◌, ◌+◌, length, slice_index, true};
ghost use Rattle.std.specs.Char.{is_ascii_digit};
ghost use Rattle.lola_lexer.specs.Lexical as lexical;

use crate::scan::bytes::{Class, byte_at, is_digit};
use crate::scan::thing::Thing;
use crate::shape::TokenShape;

/// The most digits of a number.
const MOST_DIGITS: usize = 38;

fn is_unit(word: &[u8]) -> bool
    ensures { result ≡ lexical.is_unit word.now }
{
    matches!(
        word,
        b"ns" | b"us" | b"ms" | b"s" | b"min" | b"h" | b"d" | b"mHz" | b"Hz" | b"kHz" | b"MHz"
    )
}

/// The place behind a point and digits, where they stand at the place, and else the place.
fn past_fraction(bytes: &[u8], at: usize) -> usize
    requires { at ≤ length bytes.now }
    ensures value { result ≡ lexical.past_fraction at bytes.now }
    ensures within { (at ≤ result) × (result ≤ length bytes.now) }
    ensures point { result ≢ at → at < result }
{
    if byte_at(bytes, at) == b'.' && is_digit(byte_at(bytes, at + 1)) {
        at + 1 + Class::Digit.run(bytes, at + 1)
    } else {
        at
    }
}

/// What a number of so many digits is that ends at the place, by the word that stands directly behind it.
fn measured(bytes: &[u8], digits: usize, end: usize) -> Thing
    requires { (1 ≤ end) × (end ≤ length bytes.now) }
    ensures value { result ≡ lexical.measured digits end bytes.now }
    ensures within { lexical.IsWithin (length bytes.now) result }
{
    let unit = Class::Name.run(bytes, end);
    if digits > MOST_DIGITS {
        Thing::Bad
    } else if unit == 0 {
        if digits == end {
            Thing::Token(TokenShape::Integer, end)
        } else {
            Thing::Bad
        }
    } else if is_unit(&bytes[end..end + unit]) {
        Thing::Token(TokenShape::Quantity, end + unit)
    } else {
        Thing::Bad
    }
}

/// The integer or quantity at the front.
#[tactic(auto, unfolding(crate::specs::Lexical::number))]
pub(crate) fn number(bytes: &[u8]) -> Thing
    requires { is_ascii_digit (slice_index bytes.now 0) ≡ true }
    ensures value { result ≡ lexical.number bytes.now }
    ensures within { lexical.IsWithin (length bytes.now) result }
{
    let whole = Class::Digit.run(bytes, 0);
    let end = past_fraction(bytes, whole);
    let digits = if end == whole { end } else { end - 1 };
    measured(bytes, digits, end)
}
