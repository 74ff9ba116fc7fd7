//! Which fields of a source's rows give its times and its inputs, as the heading tells.
ghost use Rattle.std.specs.Prelude.{◌≡◌, ◌++◌, ◌∷◌, [], map, IfOk, OnOk};
ghost use Rattle.csv.specs.Records.{fields_of};
ghost use Rattle.lola_rows.specs.Blanks.{trimmed};
ghost use Rattle.lola_rows.specs.Columns.{columns_in, inputs_of, is_time_name};
ghost use Rattle.lola_rows.specs.Places.{after_title, column_made, columns_made, is_wanted, layout_columns, places_in, title_at};
ghost use Rattle.lola_rows.specs.Rows.{or_else_flaw};
ghost use Rattle.lola_rows.specs.Steps.{Makes};
ghost use Rattle.lola_model.specs.declared.source.MalformedKind.TheVariants as malformed;

use crate::blanks::trim;
use crate::flaw::Flaw;
use csv::ByteRecord;
use lola_model::source::MalformedKind;
use lola_model::spec::{Sort, Stream};
use lola_value::text::{Memory, Text};
use lola_value::value::Kind;
use std::alloc::Global;

/// An input of a specification.
#[derive(Drop)]
pub(crate) struct Input {
    pub(crate) name: Text,
    pub(crate) kind: Kind,
}

/// Where an input's values come from: its field, if the heading names it.
#[derive(Clone, Copy)]
pub(crate) struct Column {
    pub(crate) kind: Kind,
    pub(crate) place: Option<usize>,
}

/// The fields of a row: how many there are, which is the time, and which give the inputs.
#[derive(Drop)]
pub(crate) struct Layout {
    pub(crate) width: usize,
    pub(crate) time: usize,
    pub(crate) columns: Vec<Column>,
}

impl Layout {
    ghost use Rattle.lola_rows.specs.Reading.{no_columns};

    /// No fields, before there is a heading.
    pub(crate) fn create(alloc: Global) -> Layout
        ensures { layout_columns result ≡ no_columns }
    {
        Layout {
            width: 0,
            time: 0,
            columns: Vec::new(alloc),
        }
    }
}

/// What is sought among the titles of a heading.
#[derive(Clone, Copy)]
enum Wanted<'a> {
    /// The time.
    Time,
    /// An input of this name.
    Input(&'a [u8]),
}

/// Where it was found.
#[derive(Clone, Copy)]
enum Places {
    Nowhere,
    At(usize),
    Twice,
}

/// The inputs among streams, in order.
pub(crate) fn inputs(alloc: Global, streams: &[Stream]) -> Result<Vec<Input>, Memory>
    ensures { IfOk result (λ inputs. inputs.items ≡ inputs_of streams.now) }
{
    let mut inputs = Vec::new(alloc);
    for stream in streams {
        add_input(alloc, &mut inputs, stream)?;
    }
    Ok(inputs)
}

// Adds a stream, where it is an input.
fn add_input(alloc: Global, inputs: &mut Vec<Input>, stream: &Stream) -> Result<(), Memory>
    ensures { OnOk result (inputs.new.items ≡ inputs.old.items ++ inputs_of (stream.now ∷ [])) }
{
    if matches!(stream.sort, Sort::Input) {
        inputs.push(Input {
            name: Text::from_bytes(alloc, stream.name.as_bytes())?,
            kind: stream.filled_kind(),
        })?;
    }
    Ok(())
}

// Whether a title is that of a time column.
fn is_time_name(title: &[u8]) -> bool
    ensures { result ≡ is_time_name title.now }
{
    if title == b"time".as_slice() {
        return true;
    }
    if title == b"ts".as_slice() {
        return true;
    }
    title == b"timestamp".as_slice()
}

// Whether a title is the one that is sought.
fn is_wanted(wanted: Wanted<'_>, title: &[u8]) -> bool
    ensures { result ≡ is_wanted wanted.entry title.now }
{
    match wanted {
        Wanted::Time => is_time_name(title),
        Wanted::Input(name) => name == title,
    }
}

// A field of a heading without the blanks around it.
fn title(fields: &ByteRecord, place: usize) -> &[u8]
    ensures { result.now ≡ title_at (fields_of fields.now) place }
{
    match fields.get(place) {
        Some(field) => trim(field),
        None => trim(b""),
    }
}

impl Places {
    // What is known after one more title.
    fn after(self, hit: bool, place: usize) -> Places
        ensures { result ≡ after_title self hit place }
    {
        match self {
            Places::Nowhere if hit => Places::At(place),
            Places::At(_) if hit => Places::Twice,
            _ => self,
        }
    }
}

// The places of what is sought.
fn find_titles(fields: &ByteRecord, wanted: Wanted<'_>) -> Places
    ensures { result ≡ places_in (is_wanted wanted.entry) (map trimmed (fields_of fields.now)) }
{
    let mut found = Places::Nowhere;
    for place in 0..fields.len() {
        found = found.after(is_wanted(wanted, title(fields, place)), place);
    }
    found
}

impl Input {
    // Its column, where its values stand here.
    fn column_at(&self, place: Option<usize>) -> Column
        ensures { result ≡ record { kind = self.now.kind; place = place } }
    {
        Column {
            kind: self.kind,
            place,
        }
    }
}

// The column of an input. An input is named once at most, and the time gives none.
fn input_column(fields: &ByteRecord, input: &Input) -> Result<Column, MalformedKind>
    ensures { result ≡ column_made (map trimmed (fields_of fields.now)) input.now }
{
    let name = input.name.as_bytes();
    match find_titles(fields, Wanted::Input(name)) {
        Places::Twice => Err(MalformedKind::BadHeading),
        Places::Nowhere => Ok(input.column_at(None)),
        Places::At(place) => {
            if is_time_name(name) {
                return Ok(input.column_at(None));
            }
            Ok(input.column_at(Some(place)))
        }
    }
}

// The columns of all inputs.
fn input_columns(alloc: Global, inputs: &[Input], fields: &ByteRecord) -> Result<Vec<Column>, Flaw>
    ensures { Makes (λ columns. columns.items) result (columns_made (map trimmed (fields_of fields.now)) inputs.now) }
{
    let mut columns = Vec::new(alloc);
    for input in inputs {
        match input_column(fields, input) {
            Ok(column) => columns.push(column)?,
            Err(kind) => return Err(Flaw::Malformed(kind)),
        }
    }
    Ok(columns)
}

/// The columns of a heading with these fields.
pub(crate) fn read_layout(
    alloc: Global,
    inputs: &[Input],
    fields: &ByteRecord,
) -> Result<Layout, Flaw>
    ensures { Makes layout_columns result (or_else_flaw (columns_in inputs.now (map trimmed (fields_of fields.now))) malformed.BadHeading) }
{
    let Places::At(time) = find_titles(fields, Wanted::Time) else {
        return Err(Flaw::Malformed(MalformedKind::BadHeading));
    };
    match input_columns(alloc, inputs, fields) {
        Ok(columns) => Ok(Layout {
            width: fields.len(),
            time,
            columns,
        }),
        Err(flaw) => Err(flaw),
    }
}
