//! Lines put together from pieces.

ghost use Rattle.std.specs.Prelude.{◌≡◌, ◌∷◌, ◌++◌, OnOk, OnErr, decimal, flat_map};
ghost use Rattle.lola_value.specs.Appending.{AppendsPart};
ghost use Rattle.lola_model.specs.Texts.{value_text, commas, params_text};
ghost use Rattle.lola_model.specs.Trace.{field_bytes, mark_text};
ghost use Rattle.lola_report.specs.Pieces.{bool_name, piece_text};
ghost use Rattle.lola_report.specs.Rows.{joined_fields};

use crate::spelling::quote;
use itoa::Buffer;
use lola_model::journal::Mark;
use lola_value::numbers::{integer_text, number_text};
use lola_value::text::{Field, Memory, Text};
use lola_value::times::time_text;

/// A piece of a line.
#[derive(Clone, Copy)]
pub enum LinePiece<'a> {
    /// Bytes as they are.
    Words(&'a [u8]),
    /// A number in decimal.
    Number(u64),
    /// A number of up to 128 bits in decimal.
    Wide(u128),
    /// A time in nanoseconds, as seconds with nine decimals.
    Time(u64),
    /// A text between double quotes, with escapes.
    Quoted(&'a [u8]),
    /// A value as a verdict line shows it.
    Value(&'a Field),
    /// The parameters of an instance in brackets, or nothing where there are none.
    Params(&'a [Field]),
    /// The mark of a row of the trace.
    Mark(Mark),
    /// A field of a row of the trace as it is.
    Field(&'a Field),
}

/// Appends a number of up to 128 bits in decimal. Where there is no memory the text is as it was.
fn wide_number_text(n: u128, to: &mut Text) -> Result<(), Memory>
    ensures ok { OnOk result (to.new ≡ to.old ++ decimal n) }
    ensures err { OnErr result (to.new ≡ to.old) }
{
    let mut buffer = Buffer::new();
    to.append(buffer.format(n).as_bytes())
}

fn bool_name(value: bool) -> &'static str
    ensures { result.now ≡ bool_name value }
{
    if value { "true" } else { "false" }
}

/// Appends a value as a verdict line shows it.
fn value_text(value: &Field, to: &mut Text) -> Result<(), Memory>
    ensures ok { OnOk result (to.new ≡ to.old ++ value_text value.now) }
    ensures memory { OnErr result (AppendsPart to.old to.new (value_text value.now)) }
{
    match value {
        Field::Absent => to.append(b"#"),
        Field::Bool(b) => to.append(bool_name(*b).as_bytes()),
        Field::Int(z) => integer_text(*z, to),
        Field::Text(text) => quote(text.as_bytes(), to),
    }
}

/// Appends a value behind a comma.
fn one_more_value(value: &Field, to: &mut Text) -> Result<(), Memory>
    ensures ok { OnOk result (to.new ≡ to.old ++ 44 ∷ value_text value.now) }
    ensures memory { OnErr result (AppendsPart to.old to.new (44 ∷ value_text value.now)) }
{
    to.append(b",")?;
    value_text(value, to)
}

/// Appends values, each behind a comma.
fn more_values(values: &[Field], to: &mut Text) -> Result<(), Memory>
    ensures ok { OnOk result (to.new ≡ to.old ++ flat_map (λ v. 44 ∷ value_text v) values.now) }
    ensures memory { OnErr result (AppendsPart to.old to.new (flat_map (λ v. 44 ∷ value_text v) values.now)) }
{
    for value in values {
        one_more_value(value, to)?;
    }
    Ok(())
}

/// Appends values with commas between them.
fn commas_text(first: &Field, others: &[Field], to: &mut Text) -> Result<(), Memory>
    ensures ok { OnOk result (to.new ≡ to.old ++ commas (first.now ∷ others.now)) }
    ensures memory { OnErr result (AppendsPart to.old to.new (commas (first.now ∷ others.now))) }
{
    value_text(first, to)?;
    more_values(others, to)
}

/// Appends the parameters of an instance.
fn params_text(params: &[Field], to: &mut Text) -> Result<(), Memory>
    ensures ok { OnOk result (to.new ≡ to.old ++ params_text params.now) }
    ensures memory { OnErr result (AppendsPart to.old to.new (params_text params.now)) }
{
    let Some((first, others)) = params.split_first() else {
        return Ok(());
    };
    to.append(b"(")?;
    commas_text(first, others, to)?;
    to.append(b")")
}

/// Appends a field of the trace as it is.
fn field_bytes(field: &Field, to: &mut Text) -> Result<(), Memory>
    ensures ok { OnOk result (to.new ≡ to.old ++ field_bytes field.now) }
    ensures memory { OnErr result (AppendsPart to.old to.new (field_bytes field.now)) }
{
    match field {
        Field::Absent => to.append(b"#"),
        Field::Bool(b) => to.append(bool_name(*b).as_bytes()),
        Field::Int(z) => integer_text(*z, to),
        Field::Text(text) => to.append(text.as_bytes()),
    }
}

/// Appends a comma and then a field of the trace.
#[inline(never)]
fn comma_and_field(field: &Field, to: &mut Text) -> Result<(), Memory>
    ensures ok { OnOk result (to.new ≡ to.old ++ 44 ∷ field_bytes field.now) }
    ensures memory { OnErr result (AppendsPart to.old to.new (44 ∷ field_bytes field.now)) }
{
    to.append(b",")?;
    field_bytes(field, to)
}

/// Appends a field of the trace behind a comma. Of many inputs most are absent in a row: such a field is one write.
fn one_more_field(field: &Field, to: &mut Text) -> Result<(), Memory>
    ensures ok { OnOk result (to.new ≡ to.old ++ 44 ∷ field_bytes field.now) }
    ensures memory { OnErr result (AppendsPart to.old to.new (44 ∷ field_bytes field.now)) }
{
    match field {
        Field::Absent => to.append(b",#"),
        _ => comma_and_field(field, to),
    }
}

/// Appends the fields of a row of the trace as they are, each behind a comma.
pub(crate) fn joined_fields(fields: &[Field], to: &mut Text) -> Result<(), Memory>
    ensures ok { OnOk result (to.new ≡ to.old ++ joined_fields fields.now) }
    ensures memory { OnErr result (AppendsPart to.old to.new (joined_fields fields.now)) }
{
    for field in fields {
        one_more_field(field, to)?;
    }
    Ok(())
}

/// Appends the mark of a row of the trace.
pub(crate) fn mark_text(mark: Mark, to: &mut Text) -> Result<(), Memory>
    ensures ok { OnOk result (to.new ≡ to.old ++ mark_text mark) }
    ensures memory { OnErr result (AppendsPart to.old to.new (mark_text mark)) }
{
    match mark {
        Mark::Accepted => to.append(b"A"),
        Mark::Late(merged) => {
            to.append(b"L")?;
            time_text(merged, to)
        }
    }
}

/// Appends a piece.
pub fn append_piece(piece: &LinePiece, to: &mut Text) -> Result<(), Memory>
    ensures ok { OnOk result (to.new ≡ to.old ++ piece_text piece.now) }
    ensures memory { OnErr result (AppendsPart to.old to.new (piece_text piece.now)) }
{
    match *piece {
        LinePiece::Words(bytes) => to.append(bytes),
        LinePiece::Number(n) => number_text(n, to),
        LinePiece::Wide(n) => wide_number_text(n, to),
        LinePiece::Time(t) => time_text(t, to),
        LinePiece::Quoted(bytes) => quote(bytes, to),
        LinePiece::Value(value) => value_text(value, to),
        LinePiece::Params(params) => params_text(params, to),
        LinePiece::Mark(mark) => mark_text(mark, to),
        LinePiece::Field(field) => field_bytes(field, to),
    }
}

/// Appends pieces, one after another.
pub fn append_all(pieces: &[LinePiece], to: &mut Text) -> Result<(), Memory>
    ensures ok { OnOk result (to.new ≡ to.old ++ flat_map piece_text pieces.now) }
    ensures memory { OnErr result (AppendsPart to.old to.new (flat_map piece_text pieces.now)) }
{
    for piece in pieces {
        append_piece(piece, to)?;
    }
    Ok(())
}
