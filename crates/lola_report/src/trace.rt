//! The lines of the trace: one for each row that was taken, in the order of the journal.

ghost use Rattle.std.specs.Prelude.{◌≡◌, ◌++◌, OnOk, OnErr};
ghost use Rattle.std.specs.List.{list_any};
ghost use Rattle.csv.specs.Writing.{default_writer, needs_quotes};
ghost use Rattle.memchr.specs.Find.{is_byte2};
ghost use Rattle.lola_value.specs.Appending.{AppendsPart};
ghost use Rattle.lola_model.specs.Trace.{trace_line};
ghost use Rattle.lola_report.specs.Rows.{has_quoted, is_quoted, joined_line, marked_line};

use crate::head::head_text;
use crate::piece::{joined_fields, mark_text};
use crate::row::written_line;
use lola_model::journal::Entry;
use lola_value::text::{Field, Memory, Text};
use memchr::memchr2;
use std::alloc::Global;

// Whether a text has a comma or a double quote.
fn has_mark(text: &[u8]) -> bool
    ensures { result ≡ list_any (is_byte2 44 34) text.now }
{
    memchr2(b',', b'"', text).is_some()
}

// Whether a text has a line end.
fn has_line_end(text: &[u8]) -> bool
    ensures { result ≡ list_any (is_byte2 13 10) text.now }
{
    memchr2(b'\r', b'\n', text).is_some()
}

// Whether a text is quoted.
fn calls_for_quotes(text: &[u8]) -> bool
    ensures { result ≡ needs_quotes default_writer text.now }
{
    has_mark(text) || has_line_end(text)
}

// Whether a field is quoted. Numbers, truth values and `#` are not.
fn is_quoted(field: &Field) -> bool
    ensures { result ≡ is_quoted field.now }
{
    match field {
        Field::Text(text) => calls_for_quotes(text.as_bytes()),
        _ => false,
    }
}

// Whether one of these fields is quoted.
fn has_quoted(fields: &[Field]) -> bool
    ensures { result ≡ has_quoted fields.now }
{
    fields.iter().any(|field| is_quoted(field))
}

// Appends the mark and the fields of an entry, and then LF.
fn marked_line(entry: &Entry, to: &mut Text) -> Result<(), Memory>
    ensures ok { OnOk result (to.new ≡ to.old ++ marked_line entry.now) }
    ensures memory { OnErr result (AppendsPart to.old to.new (marked_line entry.now)) }
{
    mark_text(entry.mark, to)?;
    joined_fields(entry.row.fields.as_slice(), to)?;
    to.append(b"\n")
}

// Appends the fields of an entry as they are, with commas between them, and then LF.
fn joined_line(entry: &Entry, to: &mut Text) -> Result<(), Memory>
    ensures ok { OnOk result (to.new ≡ to.old ++ joined_line entry.now) }
    ensures memory { OnErr result (AppendsPart to.old to.new (joined_line entry.now)) }
{
    head_text(&entry.row, to)?;
    marked_line(entry, to)
}

/// Appends the line of an entry, a record of CSV with the fields `SOURCE`, `NUMBER`, `TIME`, `MARK` and one for each
/// input, its LF included.
///
/// Sources count from 0 and rows from 1, and the time is the row's stamp in seconds with nine decimals. The mark is
/// `A` for an accepted row, and for a late one `L` and the merged time. A field that is absent is
/// `#`, and a text stands as it is. Where a text has a comma, a double quote or a line end, the crate csv writes the line,
/// in memory of its own, and puts quotes where they are called for; every other line is joined by commas, which is the
/// same. After `Memory` a front of the line may stand behind what was there.
pub fn trace_line(alloc: Global, entry: &Entry, to: &mut Text) -> Result<(), Memory>
    ensures ok { OnOk result (to.new ≡ to.old ++ trace_line entry.now) }
    ensures memory { OnErr result (AppendsPart to.old to.new (trace_line entry.now)) }
{
    if has_quoted(entry.row.fields.as_slice()) {
        written_line(alloc, entry, to)
    } else {
        joined_line(entry, to)
    }
}
