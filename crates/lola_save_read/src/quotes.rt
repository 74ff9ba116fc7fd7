//! Texts between double quotes: the bytes that do not stand for themselves there are spelled with a backslash, and no others.

ghost use Rattle.std.specs.Prelude.{◌≡◌, ◌≢◌, ◌↔◌, ◌∷◌, ◌++◌, [], ℕ, List, IfOk, IsTrue, MatchOption, flat_map};
ghost use Rattle.lola_model.specs.Texts.{escaped, quoted};

use crate::cuts::{behind, split};
use lola_value::text::{Memory, Text};

// The byte that stands for itself behind a backslash, or that a letter stands for there.
fn byte_for(letter: u8) -> Option<u8>
    ensures { MatchOption result ((b : ℕ) → escaped b ≢ 92 ∷ letter ∷ []) (λ b. escaped b ≡ 92 ∷ letter ∷ []) }
{
    match letter {
        b'"' => Some(b'"'),
        b'\\' => Some(b'\\'),
        b'n' => Some(b'\n'),
        b'r' => Some(b'\r'),
        b't' => Some(b'\t'),
        _ => None,
    }
}

// Whether a byte stands for itself.
fn is_plain(byte: u8) -> bool
    ensures { IsTrue result ↔ (escaped byte ≡ byte ∷ []) }
{
    !matches!(byte, b'"' | b'\\' | b'\n' | b'\r' | b'\t')
}

// The byte that is spelled by these behind a backslash, and what stands behind its spelling.
fn escaped_byte(bytes: &[u8]) -> Option<(u8, &[u8])>
    ensures { MatchOption result ((b : ℕ) (rest : List ℕ) → 92 ∷ bytes.now ≢ escaped b ++ rest) (λ x. 92 ∷ bytes.now ≡ escaped x.0 ++ x.1.now) }
{
    match split(bytes) {
        None => None,
        Some((letter, rest)) => match byte_for(letter) {
            None => None,
            Some(byte) => Some((byte, rest)),
        },
    }
}

// The byte that is spelled by the first of these, and what stands behind it.
fn plain_byte(bytes: &[u8]) -> Option<(u8, &[u8])>
    requires { (rest : List ℕ) → bytes.now ≢ 92 ∷ rest }
    ensures { MatchOption result ((b : ℕ) (rest : List ℕ) → bytes.now ≢ escaped b ++ rest) (λ x. bytes.now ≡ escaped x.0 ++ x.1.now) }
{
    match split(bytes) {
        None => None,
        Some((byte, rest)) => {
            if is_plain(byte) {
                Some((byte, rest))
            } else {
                None
            }
        }
    }
}

// The byte that is spelled first, and what stands behind its spelling.
fn first_byte(bytes: &[u8]) -> Option<(u8, &[u8])>
    ensures { MatchOption result ((b : ℕ) (rest : List ℕ) → bytes.now ≢ escaped b ++ rest) (λ x. bytes.now ≡ escaped x.0 ++ x.1.now) }
{
    match behind(b"\\", bytes) {
        Some(left) => match escaped_byte(left) {
            None => None,
            Some((byte, rest)) => Some((byte, rest)),
        },
        None => plain_byte(bytes),
    }
}

// Puts the text up to the closing quote into `room`, and answers what stands behind that.
fn unquote_rest<'a>(bytes: &'a [u8], room: &mut Text) -> Result<Option<&'a [u8]>, Memory>
    ensures { IfOk result (λ read. MatchOption read ((text rest : List ℕ) → bytes.now ≢ flat_map escaped text ++ 34 ∷ rest) (λ rest. bytes.now ≡ flat_map escaped room.new ++ 34 ∷ rest.now)) }
{
    room.clear();
    let mut left = bytes;
    'letters: loop {
        match behind(b"\"", left) {
            Some(rest) => return Ok(Some(rest)),
            None => match first_byte(left) {
                None => return Ok(None),
                Some((byte, rest)) => {
                    room.append(&[byte])?;
                    left = rest;
                }
            },
        }
    }
}

/// Puts the text between the double quotes with which bytes begin into `room`, and answers what stands behind them.
pub(crate) fn unquote<'a>(bytes: &'a [u8], room: &mut Text) -> Result<Option<&'a [u8]>, Memory>
    ensures { IfOk result (λ read. MatchOption read ((text rest : List ℕ) → bytes.now ≢ quoted text ++ rest) (λ rest. bytes.now ≡ quoted room.new ++ rest.now)) }
{
    match behind(b"\"", bytes) {
        None => Ok(None),
        Some(left) => unquote_rest(left, room),
    }
}
