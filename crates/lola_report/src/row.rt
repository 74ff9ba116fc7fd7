//! Lines of the trace as the crate csv writes them.

ghost use Rattle.std.specs.Prelude.{◌≡◌, [], ◌∷◌, ◌++◌, ℕ, List, IfOk, OnOk, OnErr, map};
ghost use Rattle.csv.specs.Writing.{fields_written, has_written, tail_text, writer_setup};
ghost use Rattle.lola_value.specs.Appending.{AppendsPart};
ghost use Rattle.lola_model.specs.Trace.{field_bytes, trace_line};
ghost use Rattle.lola_report.specs.Pieces.{piece_text};
ghost use Rattle.lola_report.specs.Rows.{HasFields, head_fields, written};

use crate::piece::{LinePiece, append_piece};
use csv::Writer;
use lola_model::journal::Entry;
use lola_value::text::{Field, Memory, Text};
use std::alloc::Global;

// Writes one more field of a line. A writer into memory fails for want of it alone.
fn write_bytes(bytes: &[u8], row: &mut Writer<Vec<u8>>) -> Result<(), Memory>
    ensures { OnOk result ((fields : List (List ℕ)) → HasFields row.old fields → HasFields row.new (fields ++ bytes.now ∷ [])) }
{
    match row.write_field(bytes) {
        Ok(()) => Ok(()),
        Err(_) => Err(Memory),
    }
}

// Writes a piece as one more field of a line. What is in `scratch` does not count.
fn write_piece(
    piece: LinePiece,
    scratch: &mut Text,
    row: &mut Writer<Vec<u8>>,
) -> Result<(), Memory>
    ensures { OnOk result ((fields : List (List ℕ)) → HasFields row.old fields → HasFields row.new (fields ++ piece_text piece.entry ∷ [])) }
{
    scratch.clear();
    append_piece(&piece, scratch)?;
    write_bytes(scratch.as_bytes(), row)
}

// Writes the source, the number, the stamp and the mark of an entry.
fn write_head(entry: &Entry, scratch: &mut Text, row: &mut Writer<Vec<u8>>) -> Result<(), Memory>
    ensures { OnOk result (HasFields row.old [] → HasFields row.new (head_fields entry.now)) }
{
    write_piece(LinePiece::Number(u64::from(entry.row.source)), scratch, row)?;
    write_piece(LinePiece::Number(entry.row.number), scratch, row)?;
    write_piece(LinePiece::Time(entry.row.stamp), scratch, row)?;
    write_piece(LinePiece::Mark(entry.mark), scratch, row)
}

// Writes fields of the inputs.
fn write_fields(
    fields: &[Field],
    scratch: &mut Text,
    row: &mut Writer<Vec<u8>>,
) -> Result<(), Memory>
    ensures { OnOk result ((front : List (List ℕ)) → HasFields row.old front → HasFields row.new (front ++ map field_bytes fields.now)) }
{
    for field in fields {
        write_piece(LinePiece::Field(field), scratch, row)?;
    }
    Ok(())
}

// Ends a line.
fn end_row(row: &mut Writer<Vec<u8>>) -> Result<(), Memory>
    ensures { OnOk result (written row.new ≡ written row.old ++ tail_text (writer_setup row.old) (has_written row.old) (fields_written row.old)) }
{
    match row.end_record() {
        Ok(()) => Ok(()),
        Err(_) => Err(Memory),
    }
}

// Writes the line of an entry.
fn write_row(entry: &Entry, scratch: &mut Text, row: &mut Writer<Vec<u8>>) -> Result<(), Memory>
    requires { HasFields row.old [] }
    ensures { OnOk result (written row.new ≡ trace_line entry.now) }
{
    write_head(entry, scratch, row)?;
    write_fields(entry.row.fields.as_slice(), scratch, row)?;
    end_row(row)
}

// The line of an entry.
fn row_bytes(alloc: Global, entry: &Entry) -> Result<Vec<u8>, Memory>
    ensures { IfOk result (λ row. row.items ≡ trace_line entry.now) }
{
    let mut scratch = Text::from_bytes(alloc, b"")?;
    let mut row = Writer::from_writer(Vec::new(alloc));
    write_row(entry, &mut scratch, &mut row)?;
    match row.into_inner() {
        Ok(bytes) => Ok(bytes),
        Err(_) => Err(Memory),
    }
}

/// Appends the line of an entry, as csv's writer writes it.
#[inline(never)]
pub fn written_line(alloc: Global, entry: &Entry, to: &mut Text) -> Result<(), Memory>
    ensures ok { OnOk result (to.new ≡ to.old ++ trace_line entry.now) }
    ensures memory { OnErr result (AppendsPart to.old to.new (trace_line entry.now)) }
{
    let row = row_bytes(alloc, entry)?;
    to.append(row.as_slice())
}
