//! What the bytes of a literal stand for.

ghost use Rattle.std.specs.Prelude.{◌≡◌, ◌≤◌, length, IfOk, false};
ghost use Rattle.std.specs.Str.{bytes_eq};
ghost use Rattle.lola_parser_grammar.specs.Literals as spec;

use lola_parser_grammar::literals::QuantityUnit;
use lola_value::text::{Memory, Text};
use std::alloc::Global;

fn with_digit(number: u128, byte: u8) -> u128
    ensures { result ≡ spec.with_digit number byte }
{
    if byte.is_ascii_digit() {
        number
            .saturating_mul(10)
            .saturating_add(u128::from(byte - b'0'))
    } else {
        number
    }
}

/// The number that the digits among these bytes spell.
#[tactic(auto, using(std::proofs::lemmas::List::Sums::fold_more))]
pub fn number(text: &[u8]) -> u128
    ensures { result ≡ spec.number_of text.now }
{
    let mut number = 0;
    for byte in text {
        number = with_digit(number, *byte);
    }
    number
}

/// How many digits there are.
pub fn count_of_digits(text: &[u8]) -> usize
    ensures { result ≡ spec.digits_in text.now }
{
    text.iter().filter(|byte| byte.is_ascii_digit()).count()
}

/// How many bytes stand before the point.
fn before_point(text: &[u8]) -> usize
    ensures within { result ≤ length text.now }
    ensures value { result ≡ spec.before_point text.now }
{
    for (at, byte) in text.iter().enumerate() {
        if *byte == b'.' {
            return at;
        }
    }
    text.len()
}

/// How many bytes stand before the first letter.
fn before_letters(text: &[u8]) -> usize
    ensures within { result ≤ length text.now }
    ensures value { result ≡ spec.before_letters text.now }
{
    for (at, byte) in text.iter().enumerate() {
        if byte.is_ascii_alphabetic() {
            return at;
        }
    }
    text.len()
}

/// How many digits stand behind the point.
pub fn count_of_decimals(text: &[u8]) -> usize
    ensures { result ≡ spec.decimals_in text.now }
{
    count_of_digits(&text[before_point(text)..])
}

fn is(a: &[u8], b: &[u8]) -> bool
    ensures { result ≡ bytes_eq a.now b.now }
{
    a == b
}

fn unit_named(word: &[u8]) -> QuantityUnit
    ensures { result ≡ spec.unit_named word.now }
{
    if is(word, b"ns") {
        QuantityUnit::Nanoseconds
    } else if is(word, b"us") {
        QuantityUnit::Microseconds
    } else if is(word, b"ms") {
        QuantityUnit::Milliseconds
    } else if is(word, b"s") {
        QuantityUnit::Seconds
    } else if is(word, b"min") {
        QuantityUnit::Minutes
    } else if is(word, b"h") {
        QuantityUnit::Hours
    } else if is(word, b"d") {
        QuantityUnit::Days
    } else if is(word, b"mHz") {
        QuantityUnit::Millihertz
    } else if is(word, b"Hz") {
        QuantityUnit::Hertz
    } else if is(word, b"kHz") {
        QuantityUnit::Kilohertz
    } else {
        QuantityUnit::Megahertz
    }
}

/// The unit that stands from the first letter on.
pub fn unit(text: &[u8]) -> QuantityUnit
    ensures { result ≡ spec.unit_of text.now }
{
    unit_named(&text[before_letters(text)..])
}

fn escaped(byte: u8) -> u8
    ensures { result ≡ spec.escaped byte }
{
    if byte == b'n' {
        b'\n'
    } else if byte == b'r' {
        b'\r'
    } else if byte == b't' {
        b'\t'
    } else {
        byte
    }
}

/// These bytes, with each escape as the byte that it stands for.
fn unescaped(alloc: Global, inner: &[u8]) -> Result<Text, Memory>
    ensures { IfOk result (λ text. text ≡ spec.unescaped false inner.now) }
{
    let mut text = Text::from_bytes(alloc, b"")?;
    let mut is_escaped = false;
    for byte in inner {
        if is_escaped {
            text.append(&[escaped(*byte)])?;
            is_escaped = false;
        } else if *byte == b'\\' {
            is_escaped = true;
        } else {
            text.append(&[*byte])?;
        }
    }
    Ok(text)
}

/// What stands between the quotes.
pub fn text(alloc: Global, literal: &[u8]) -> Result<Text, Memory>
    ensures { IfOk result (λ text. text ≡ spec.text_of_literal literal.now) }
{
    if literal.len() < 2 {
        return unescaped(alloc, b"");
    }
    unescaped(alloc, &literal[1..literal.len() - 1])
}
