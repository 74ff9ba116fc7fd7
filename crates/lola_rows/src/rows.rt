//! What one line gives: the columns of a heading, or a row.
ghost use Rattle.std.specs.Prelude.{◌≡◌, false, slice_get, IfOk, OnOk, option_map};
ghost use Rattle.std.specs.List.{list_any};
ghost use Rattle.csv.specs.Records.{fields_of};
ghost use Rattle.lola_rows.specs.Line.{fields_of_line, has_line_end};
ghost use Rattle.lola_rows.specs.Lines.{is_line_end};
ghost use Rattle.lola_rows.specs.Places.{layout_columns};
ghost use Rattle.lola_rows.specs.Rows.{columns_of_line, row_of_fields, row_of_line, time_of, value_at, value_of, values_of};
ghost use Rattle.lola_rows.specs.Steps.{Makes, Pushes};

use crate::blanks::trim;
use crate::checks::{begins_with_mark, check_line};
use crate::columns::{Column, Input, Layout, read_layout};
use crate::flaw::Flaw;
use crate::line::read_line;
use crate::values::value;
use csv::ByteRecord;
use lola_model::journal::Row;
use lola_model::source::MalformedKind;
use lola_value::text::{Field, Fields, Memory};
use lola_value::times::time_read;
use lola_value::value::Kind;
use std::alloc::Global;

/// What the rows of a source have to be: the number of the source, and the most rows.
#[derive(Clone, Copy)]
pub(crate) struct Form {
    pub(crate) index: u32,
    pub(crate) most: u64,
}

/// Room for the fields of a line, which is kept from line to line.
#[derive(Drop)]
pub(crate) struct Room {
    pub(crate) fields: ByteRecord,
    pub(crate) spare: Vec<u8>,
}

impl Room {
    /// Room that grows with the lines.
    pub(crate) fn create(alloc: Global) -> Room {
        Room {
            fields: ByteRecord::new(alloc),
            spare: Vec::new(alloc),
        }
    }

    // Reads the fields of a line.
    fn read(&mut self, text: &[u8]) -> Result<(), Memory>
        requires { has_line_end text.now ≡ false }
        ensures { OnOk result (fields_of self.new.fields ≡ fields_of_line text.now) }
    {
        read_line(text, &mut self.fields, &mut self.spare)?;
        Ok(())
    }
}

/// The columns of a heading: a line of so many bytes, of which these are its text.
pub(crate) fn read_heading(
    alloc: Global,
    inputs: &[Input],
    size: usize,
    text: &[u8],
    room: &mut Room,
) -> Result<Layout, Flaw>
    requires { list_any is_line_end text.now ≡ false }
    ensures { Makes layout_columns result (columns_of_line inputs.now (record { size = size; text = text.now })) }
{
    if let Err(kind) = check_line(size, text) {
        return Err(Flaw::Malformed(kind));
    }
    if begins_with_mark(text) {
        return Err(Flaw::Malformed(MalformedKind::BadHeading));
    }
    room.read(text)?;
    read_layout(alloc, inputs, &room.fields)
}

/// The row of a line of so many bytes, of which these are its text.
pub(crate) fn read_row(
    alloc: Global,
    form: Form,
    layout: &Layout,
    number: u64,
    size: usize,
    text: &[u8],
    room: &mut Room,
) -> Result<Row, Flaw>
    requires { list_any is_line_end text.now ≡ false }
    ensures { Makes (λ row. row) result (row_of_line form.index form.most (layout_columns layout.now) number (record { size = size; text = text.now })) }
{
    if let Err(kind) = check_line(size, text) {
        return Err(Flaw::Malformed(kind));
    }
    if begins_with_mark(text) {
        return Err(Flaw::Malformed(MalformedKind::BadText));
    }
    if number > form.most {
        return Err(Flaw::Malformed(MalformedKind::TooManyRows));
    }
    room.read(text)?;
    row_of_fields(alloc, form, layout, number, &room.fields)
}

// The row of these fields.
fn row_of_fields(
    alloc: Global,
    form: Form,
    layout: &Layout,
    number: u64,
    fields: &ByteRecord,
) -> Result<Row, Flaw>
    ensures { Makes (λ row. row) result (row_of_fields form.index form.most (layout_columns layout.now) number (fields_of fields.now)) }
{
    if fields.len() != layout.width {
        return Err(Flaw::Malformed(MalformedKind::FieldCount));
    }
    let Some(stamp) = time_of(fields, layout.time) else {
        return Err(Flaw::Malformed(MalformedKind::BadTime));
    };
    let Some(values) = values_of(alloc, &layout.columns, fields)? else {
        return Err(Flaw::Malformed(MalformedKind::BadValue));
    };
    Ok(Row {
        source: form.index,
        number,
        stamp,
        fields: values,
    })
}

// The time of a row.
fn time_of(fields: &ByteRecord, place: usize) -> Option<u64>
    ensures { result ≡ time_of (fields_of fields.now) place }
{
    match fields.get(place) {
        Some(text) => time_read(trim(text)),
        None => None,
    }
}

// The values of all inputs, unless a field is none.
fn values_of(
    alloc: Global,
    columns: &[Column],
    fields: &ByteRecord,
) -> Result<Option<Fields>, Memory>
    ensures { IfOk result (λ values. values ≡ values_of (fields_of fields.now) columns.now) }
{
    let mut values = Fields::with_room(alloc, columns.len())?;
    for column in columns {
        if !push_value(alloc, column, fields, &mut values)? {
            return Ok(None);
        }
    }
    Ok(Some(values))
}

// Puts the value of an input behind others, unless its field is none. Where the heading has no column for it no field is looked at.
fn push_value(
    alloc: Global,
    column: &Column,
    fields: &ByteRecord,
    values: &mut Fields,
) -> Result<bool, Memory>
    ensures { IfOk result (λ there. Pushes there (value_of (fields_of fields.now) column.now) values.old values.new) }
{
    let Some(place) = column.place else {
        values.push(Field::Absent)?;
        return Ok(true);
    };
    let Some(value) = value_at(alloc, column.kind, fields, place)? else {
        return Ok(false);
    };
    values.push(value)?;
    Ok(true)
}

// The value of a kind at a place, absent where there is no field.
fn value_at(
    alloc: Global,
    kind: Kind,
    fields: &ByteRecord,
    place: usize,
) -> Result<Option<Field>, Memory>
    ensures { IfOk result (λ value. value ≡ value_at kind (slice_get (fields_of fields.now) place)) }
{
    match fields.get(place) {
        Some(text) => value(alloc, kind, text),
        None => Ok(Some(Field::Absent)),
    }
}
