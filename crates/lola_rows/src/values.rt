//! The values that fields spell.

ghost use Rattle.std.specs.Prelude.{◌≡◌, IfOk};
ghost use Rattle.lola_rows.specs.Values.{is_absent, read_plain, read_truth, read_value};

use crate::blanks::trim;
use crate::numbers::number;
use lola_value::text::{Field, Memory, Text};
use lola_value::value::Kind;
use std::alloc::Global;

// Whether a field has no value.
fn is_absent(text: &[u8]) -> bool
    ensures { result ≡ is_absent text.now }
{
    text.is_empty() || text == b"#".as_slice()
}

// The truth value that a field spells.
fn truth(text: &[u8]) -> Option<bool>
    ensures { result ≡ read_truth text.now }
{
    if text == b"true".as_slice() {
        Some(true)
    } else if text == b"false".as_slice() {
        Some(false)
    } else {
        None
    }
}

// The truth value or the number that a field spells.
fn plain(kind: Kind, text: &[u8]) -> Option<Field>
    ensures { result ≡ read_plain kind text.now }
{
    match kind {
        Kind::Bool => Some(Field::Bool(truth(text)?)),
        _ => Some(Field::Int(number(kind, text)?)),
    }
}

/// The value of a kind that a field spells, `Absent` where the field is empty or `#`, and none where it is no value of
/// the kind. The spaces and tabs around truth values and numbers are dropped; texts stay as they are, and take memory.
pub fn value(alloc: Global, kind: Kind, text: &[u8]) -> Result<Option<Field>, Memory>
    ensures { IfOk result (λ field. field ≡ read_value kind text.now) }
{
    if let Kind::Text = kind {
        if is_absent(text) {
            return Ok(Some(Field::Absent));
        }
        return Ok(Some(Field::Text(Text::from_bytes(alloc, text)?)));
    }
    let text = trim(text);
    if is_absent(text) {
        return Ok(Some(Field::Absent));
    }
    Ok(plain(kind, text))
}
