//! A value as a word of a line.

ghost use Rattle.std.specs.Prelude.{◌≡◌, ◌≢◌, ◌↔◌, ◌++◌, ℕ, ℤ, Bool, List, true, false, IfOk, IsTrue, MatchOption};
ghost use Rattle.std.specs.Str.{is_utf8};
ghost use Rattle.lola_value.specs.Arithmetic.{is_within};
ghost use Rattle.lola_value.specs.Kinds.{is_integer, is_text};
ghost use Rattle.lola_value.specs.Numbers.{integer_text};
ghost use Rattle.lola_value.specs.declared.text.Field.{Field};
ghost use Rattle.lola_value.specs.declared.value.Kind.TheVariants as kind;
ghost use Rattle.lola_model.specs.Texts.{value_text};
ghost use Rattle.lola_report.specs.Pieces.{bool_name};
ghost use Rattle.lola_save_text.specs.Fitting.{is_value};
ghost use Rattle.lola_save_read.specs.Words.{IsNextValue, IsValueRead, IsWordEnd};

use crate::cuts::{behind_space, cut_word, is_word, is_word_end};
use crate::quotes::unquote;
use crate::wide::integer_word;
use lola_value::arithmetic::range;
use lola_value::text::{Field, Memory, Text};
use lola_value::value::Kind;
use std::alloc::Global;
use std::str::from_utf8;

/// The truth value that is spelled so.
pub(crate) fn truth_word(word: &[u8]) -> Option<bool>
    ensures { MatchOption result ((b : Bool) → word.now ≢ bool_name b) (λ b. word.now ≡ bool_name b) }
{
    if is_word(word, b"true") {
        return Some(true);
    }
    if is_word(word, b"false") {
        Some(false)
    } else {
        None
    }
}

/// Whether a kind has a number.
pub(crate) fn is_within(kind: Kind, z: &i128) -> bool
    ensures { result ≡ is_within kind z.now }
{
    let (least, greatest) = range(kind);
    least <= *z && *z <= greatest
}

/// The number that is spelled so, where a kind has it.
pub(crate) fn number_of_kind(kind: Kind, word: &[u8]) -> Option<i128>
    ensures { MatchOption result ((z : ℤ) → is_within kind z ≡ true → word.now ≢ integer_text z) (λ z. (is_within kind z ≡ true) × (word.now ≡ integer_text z)) }
{
    match integer_word(word) {
        None => None,
        Some(z) => { if is_within(kind, &z) { Some(z) } else { None } }
    }
}

// A truth value.
fn truth_value(word: &[u8]) -> Option<Field>
    ensures { MatchOption result ((v : Field) → is_value kind.Bool v ≡ true → word.now ≢ value_text v) (λ v. (is_value kind.Bool v ≡ true) × (word.now ≡ value_text v)) }
{
    match truth_word(word) {
        None => None,
        Some(b) => Some(Field::Bool(b)),
    }
}

// A number.
fn number_value(kind: Kind, word: &[u8]) -> Option<Field>
    requires { is_integer kind ≡ true }
    ensures { MatchOption result ((v : Field) → is_value kind v ≡ true → word.now ≢ value_text v) (λ v. (is_value kind v ≡ true) × (word.now ≡ value_text v)) }
{
    match number_of_kind(kind, word) {
        None => None,
        Some(z) => Some(Field::Int(z)),
    }
}

// The value that a word spells, of a kind that is not of texts.
fn word_value(kind: Kind, word: &[u8]) -> Option<Field>
    requires { is_text kind ≡ false }
    ensures { MatchOption result ((v : Field) → is_value kind v ≡ true → word.now ≢ value_text v) (λ v. (is_value kind v ≡ true) × (word.now ≡ value_text v)) }
{
    match kind {
        Kind::Bool => truth_value(word),
        _ => number_value(kind, word),
    }
}

// The value that the first word spells, of a kind that is not of texts, and what stands behind it.
fn first_value(kind: Kind, bytes: &[u8]) -> Option<(Field, &[u8])>
    requires { is_text kind ≡ false }
    ensures { MatchOption result ((v : Field) (rest : List ℕ) → IsValueRead kind bytes.now v rest → ⊥) (λ x. IsValueRead kind bytes.now x.0 x.1.now) }
{
    let (word, rest) = cut_word(bytes);
    match word_value(kind, word) {
        None => None,
        Some(value) => Some((value, rest)),
    }
}

// Whether a text is in UTF-8.
fn is_utf8(text: &[u8]) -> bool
    ensures { result ≡ is_utf8 text.now }
{
    from_utf8(text).is_ok()
}

// Whether this is the text of a value, and these bytes may stand behind it.
fn is_text_before(text: &[u8], rest: &[u8]) -> bool
    ensures { IsTrue result ↔ ((is_utf8 text.now ≡ true) × IsWordEnd rest.now) }
{
    is_utf8(text) && is_word_end(rest)
}

// A text, and what stands behind it.
fn first_text<'a>(
    alloc: Global,
    bytes: &'a [u8],
    room: &mut Text,
) -> Result<Option<(Field, &'a [u8])>, Memory>
    ensures { IfOk result (λ read. MatchOption read ((v : Field) (rest : List ℕ) → IsValueRead kind.Text bytes.now v rest → ⊥) (λ x. IsValueRead kind.Text bytes.now x.0 x.1.now)) }
{
    match unquote(bytes, room)? {
        None => Ok(None),
        Some(rest) => {
            if is_text_before(room.as_bytes(), rest) {
                let text = Text::from_bytes(alloc, room.as_bytes())?;
                Ok(Some((Field::Text(text), rest)))
            } else {
                Ok(None)
            }
        }
    }
}

// The value with which bytes begin, and what stands behind it.
fn value<'a>(
    alloc: Global,
    kind: Kind,
    bytes: &'a [u8],
    room: &mut Text,
) -> Result<Option<(Field, &'a [u8])>, Memory>
    ensures { IfOk result (λ read. MatchOption read ((v : Field) (rest : List ℕ) → IsValueRead kind bytes.now v rest → ⊥) (λ x. IsValueRead kind bytes.now x.0 x.1.now)) }
{
    match kind {
        Kind::Text => first_text(alloc, bytes, room),
        _ => Ok(first_value(kind, bytes)),
    }
}

/// The value behind the space with which bytes begin, and what stands behind it.
pub(crate) fn next_value<'a>(
    alloc: Global,
    kind: Kind,
    bytes: &'a [u8],
    room: &mut Text,
) -> Result<Option<(Field, &'a [u8])>, Memory>
    ensures { IfOk result (λ read. MatchOption read ((v : Field) (rest : List ℕ) → IsNextValue kind bytes.now v rest → ⊥) (λ x. IsNextValue kind bytes.now x.0 x.1.now)) }
{
    match behind_space(bytes) {
        None => Ok(None),
        Some(left) => match value(alloc, kind, left, room)? {
            None => Ok(None),
            Some((value, rest)) => Ok(Some((value, rest))),
        },
    }
}
