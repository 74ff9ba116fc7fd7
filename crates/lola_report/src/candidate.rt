//! The entry that the fields of a line are taken for.
//!
//! What is read here may be no trace line, as where a number has leading zeros; but where a line is one, it is the
//! line of the entry that is read.

ghost use Rattle.std.specs.Prelude.{◌≡◌, IfOk};
ghost use Rattle.std.specs.Str.{is_utf8};
ghost use Rattle.csv.specs.Records.{fields_of};
ghost use Rattle.lola_value.specs.declared.value.Kind.TheVariants as kind;
ghost use Rattle.lola_report.specs.Candidates.{is_field_text, read_entry, read_field, read_fields, read_head, read_integer, read_mark, read_natural, read_text, text_at};

use csv::ByteRecord;
use lola_model::journal::{Entry, Mark, Row};
use lola_rows::line::has_line_end;
use lola_rows::numbers::number;
use lola_value::text::{Field, Fields, Memory, Text};
use lola_value::times::time_read;
use lola_value::value::Kind;
use std::alloc::Global;
use std::str::from_utf8;

// What a line tells of a row before its fields.
#[derive(Clone, Copy)]
pub(crate) struct Head {
    source: u32,
    number: u64,
    stamp: u64,
    mark: Mark,
}

// The field at a place, and an empty one behind the last.
fn text_at(fields: &ByteRecord, place: usize) -> &[u8]
    ensures { result.now ≡ text_at (fields_of fields.now) place }
{
    match fields.get(place) {
        Some(text) => text,
        None => &[],
    }
}

// A number that is not negative, of a kind.
fn natural(kind: Kind, text: &[u8]) -> Option<u64>
    ensures { result ≡ read_natural kind text.now }
{
    let z = number(kind, text)?;
    if z < 0 {
        return None;
    }
    Some(z as u64)
}

// The number of a source.
fn source(text: &[u8]) -> Option<u32>
    ensures { result ≡ read_natural kind.UInt32 text.now }
{
    let n = natural(Kind::UInt32, text)?;
    Some(n as u32)
}

// The mark of a row.
fn mark(text: &[u8]) -> Option<Mark>
    ensures { result ≡ read_mark text.now }
{
    match text {
        [b'L', time @ ..] => Some(Mark::Late(time_read(time)?)),
        _ => Some(Mark::Accepted),
    }
}

// What the first four fields tell.
fn head_of(fields: &ByteRecord) -> Option<Head>
    ensures { result ≡ read_head (fields_of fields.now) }
{
    let source = source(text_at(fields, 0))?;
    let number = natural(Kind::UInt64, text_at(fields, 1))?;
    let stamp = time_read(text_at(fields, 2))?;
    let mark = mark(text_at(fields, 3))?;
    Some(Head {
        source,
        number,
        stamp,
        mark,
    })
}

// Whether a text is in UTF-8.
fn is_utf8(text: &[u8]) -> bool
    ensures { result ≡ is_utf8 text.now }
{
    from_utf8(text).is_ok()
}

// Whether a text can stand in a field of a line.
fn is_field_text(text: &[u8]) -> bool
    ensures { result ≡ is_field_text text.now }
{
    is_utf8(text) && !text.is_empty() && !has_line_end(text)
}

// The value of an input of this kind.
fn value(alloc: Global, kind: Kind, text: &[u8]) -> Result<Option<Field>, Memory>
    ensures { IfOk result (λ field. field ≡ read_field kind text.now) }
{
    if text == b"#".as_slice() {
        return Ok(Some(Field::Absent));
    }
    match kind {
        Kind::Bool => Ok(Some(Field::Bool(text == b"true".as_slice()))),
        Kind::Text => text_value(alloc, text),
        _ => Ok(number_value(kind, text)),
    }
}

// A text as a value.
fn text_value(alloc: Global, text: &[u8]) -> Result<Option<Field>, Memory>
    ensures { IfOk result (λ field. field ≡ read_text text.now) }
{
    if is_field_text(text) {
        Ok(Some(Field::Text(Text::from_bytes(alloc, text)?)))
    } else {
        Ok(None)
    }
}

// A number as a value.
fn number_value(kind: Kind, text: &[u8]) -> Option<Field>
    ensures { result ≡ read_integer kind text.now }
{
    Some(Field::Int(number(kind, text)?))
}

// The values of all inputs, behind the first four fields.
fn values(alloc: Global, kinds: &[Kind], fields: &ByteRecord) -> Result<Option<Fields>, Memory>
    ensures { IfOk result (λ values. values ≡ read_fields (fields_of fields.now) 4 kinds.now) }
{
    let mut values = Fields::create(alloc);
    let mut place = 4;
    for kind in kinds {
        let Some(value) = value(alloc, *kind, text_at(fields, place))? else {
            return Ok(None);
        };
        values.push(value)?;
        place += 1;
    }
    Ok(Some(values))
}

/// The entry of these fields, for inputs of these kinds.
pub(crate) fn entry(
    alloc: Global,
    kinds: &[Kind],
    fields: &ByteRecord,
) -> Result<Option<Entry>, Memory>
    ensures { IfOk result (λ entry. entry ≡ read_entry kinds.now (fields_of fields.now)) }
{
    let Some(head) = head_of(fields) else {
        return Ok(None);
    };
    let Some(fields) = values(alloc, kinds, fields)? else {
        return Ok(None);
    };
    let row = Row {
        source: head.source,
        number: head.number,
        stamp: head.stamp,
        fields,
    };
    Ok(Some(Entry {
        row,
        mark: head.mark,
    }))
}
