//! The fields of a line of CSV, as the default reader of the crate `csv` gives them for the line alone.
//!
//! A reader of that crate costs microseconds to make, so the fields are read here, and its definition is the contract.

ghost use Rattle.std.specs.Prelude.{◌≡◌, ◌<◌, ◌≤◌, ◌-◌, [], ◌∷◌, false, take, drop, length, get_or, IfOk, OnOk, ℕ, List, ◌++◌};
ghost use Rattle.std.specs.List.{list_any};
ghost use Rattle.csv.specs.Records.{fields_of, partial_of};
ghost use Rattle.lola_rows.specs.Line.{IsField, fields_of_line, has_line_end, is_comma, is_quote};

use csv::ByteRecord;
use memchr::memchr;
use std::alloc::{AllocError, Global};

// Most fields end within so many bytes, where looking at each costs less than a search by vectors.
const NEAR: usize = 16;

// The place of the first comma from here on, or the end of the line.
fn comma_from(line: &[u8], start: usize) -> usize
    requires { start ≤ length line.now }
    ensures bounds { (start ≤ result) × (result ≤ length line.now) }
    ensures run { list_any is_comma (take (result - start) (drop start line.now)) ≡ false }
    ensures comma { result < length line.now → get_or line.now result 0 ≡ 44 }
{
    let near = near_end(line, start);
    for at in start..near {
        if line[at] == b',' {
            return at;
        }
    }
    far_comma(line, near)
}

// Where to stop looking at each byte.
fn near_end(line: &[u8], start: usize) -> usize
    requires { start ≤ length line.now }
    ensures { (start ≤ result) × (result ≤ length line.now) }
{
    if line.len() - start > NEAR {
        start + NEAR
    } else {
        line.len()
    }
}

// The same as `comma_from`, by a search for the byte.
fn far_comma(line: &[u8], start: usize) -> usize
    requires { start ≤ length line.now }
    ensures bounds { (start ≤ result) × (result ≤ length line.now) }
    ensures run { list_any is_comma (take (result - start) (drop start line.now)) ≡ false }
    ensures comma { result < length line.now → get_or line.now result 0 ≡ 44 }
{
    match memchr(b',', &line[start..]) {
        Some(at) => start + at,
        None => line.len(),
    }
}

// The place of the first double quote from here on, or the end of the line.
fn quote_from(line: &[u8], start: usize) -> usize
    requires { start ≤ length line.now }
    ensures bounds { (start ≤ result) × (result ≤ length line.now) }
    ensures run { list_any is_quote (take (result - start) (drop start line.now)) ≡ false }
{
    match memchr(b'"', &line[start..]) {
        Some(at) => start + at,
        None => line.len(),
    }
}

// Appends the byte here and those behind it up to a double quote or the end of the line, and returns the place after them.
fn copy_run(line: &[u8], start: usize, field: &mut Vec<u8>) -> Result<usize, AllocError>
    requires within { start < length line.now }
    requires plain { is_quote (get_or line.now start 0) ≡ false }
    ensures bounds { IfOk result (λ end. (start < end) × (end ≤ length line.now)) }
    ensures run { IfOk result (λ end. list_any is_quote (take (end - start) (drop start line.now)) ≡ false) }
    ensures field { IfOk result (λ end. field.new.items ≡ field.old.items ++ take (end - start) (drop start line.now)) }
{
    let end = quote_from(line, start + 1);
    field.extend_from_slice(&line[start..end])?;
    Ok(end)
}

// Reads the field that starts with the double quote here, and returns the place after it.
fn quoted_field(line: &[u8], start: usize, field: &mut Vec<u8>) -> Result<usize, AllocError>
    requires within { start < length line.now }
    requires quote { get_or line.now start 0 ≡ 34 }
    requires one { has_line_end line.now ≡ false }
    ensures bounds { IfOk result (λ end. (start ≤ end) × (end ≤ length line.now)) }
    ensures comma { IfOk result (λ end. end < length line.now → get_or line.now end 0 ≡ 44) }
    ensures field { IfOk result (λ end. IsField (drop start line.now) field.new.items (drop end line.now)) }
{
    field.clear();
    let mut at = start + 1;
    let mut inside = true;
    while at < line.len() {
        let byte = line[at];
        if byte == b'"' {
            if !inside {
                field.push(byte)?;
            }
            inside = !inside;
            at += 1;
        } else if inside {
            at = copy_run(line, at, field)?;
        } else {
            break;
        }
    }
    let end = comma_from(line, at);
    field.extend_from_slice(&line[at..end])?;
    Ok(end)
}

// Adds the field that starts here to `fields`, and returns the place after it.
fn read_field(
    line: &[u8],
    start: usize,
    fields: &mut ByteRecord,
    spare: &mut Vec<u8>,
) -> Result<usize, AllocError>
    requires within { start ≤ length line.now }
    requires one { has_line_end line.now ≡ false }
    requires fresh { partial_of fields.old ≡ [] }
    ensures bounds { IfOk result (λ end. (start ≤ end) × (end ≤ length line.now)) }
    ensures comma { IfOk result (λ end. end < length line.now → get_or line.now end 0 ≡ 44) }
    ensures fresh { OnOk result (partial_of fields.new ≡ []) }
    ensures field { IfOk result (λ end. (field : List ℕ) × (fields_of fields.new ≡ fields_of fields.old ++ (field ∷ []))
        × IsField (drop start line.now) field (drop end line.now)) }
{
    if start < line.len() && line[start] == b'"' {
        let end = quoted_field(line, start, spare)?;
        fields.push_field(spare.as_slice())?;
        return Ok(end);
    }
    let end = comma_from(line, start);
    fields.push_field(&line[start..end])?;
    Ok(end)
}

/// Makes `fields` the fields of a line, which holds no CR and no LF. A field that begins with a double quote ends at
/// the next double quote that is not doubled, and two stand for one; bytes behind it up to the comma belong to the
/// field; a quote that is never closed lasts to the line's end. Elsewhere a double quote is an ordinary byte.
///
/// `spare` is room for fields in double quotes. No memory is taken once both have grown to the longest line.
pub fn read_line(
    line: &[u8],
    fields: &mut ByteRecord,
    spare: &mut Vec<u8>,
) -> Result<(), AllocError>
    requires { has_line_end line.now ≡ false }
    ensures { OnOk result (fields_of fields.new ≡ fields_of_line line.now) }
{
    fields.clear();
    if line.is_empty() {
        return Ok(());
    }
    let mut start = 0usize;
    loop {
        let end = read_field(line, start, fields, spare)?;
        if end == line.len() {
            return Ok(());
        }
        start = end + 1;
    }
}

/// Whether a line holds a CR or an LF, which `read_line` does not take.
pub fn has_line_end(line: &[u8]) -> bool
    ensures { result ≡ has_line_end line.now }
{
    line.iter().any(|b| *b == b'\r' || *b == b'\n')
}
