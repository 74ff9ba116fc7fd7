//! Whether a line is one of the end lines that may stand behind the verdicts.

ghost use Rattle.std.specs.Prelude.{◌≡◌, ◌≢◌, ◌≤◌, IfOk, OnOk, length, slice_get, take};
ghost use Rattle.std.specs.Bool.{MatchBool};
ghost use Rattle.lola_value.specs.declared.value.Kind.TheVariants as kind;
ghost use Rattle.lola_model.specs.declared.source.MalformedKind.{MalformedKind};
ghost use Rattle.lola_report.specs.Candidates.{read_natural};
ghost use Rattle.lola_report.specs.Ends.{done_text, end_text, malformed_text};
ghost use Rattle.lola_replay.specs.Ends.{IsMalformedLine, IsUnreadableLine, fault_line, name_in};
ghost use Rattle.lola_replay.specs.EndLines.{IsMalformedAt, kind_at, malformed_front, number_in, word_long};
ghost use Rattle.lola_replay.specs.Progressing.{the_run_fault};

use crate::progress::{Course, Fault};
use lola_model::source::MalformedKind;
use lola_report::end::{EndLine, end_line};
use lola_rows::numbers::number;
use lola_value::numbers::number_text;
use lola_value::text::{Memory, Text};
use lola_value::value::Kind;

/// The most rows of a source.
pub const MOST_ROWS: u64 = 1_099_511_627_776;

/// What the end line of a run tells that has no fault.
#[derive(Clone, Copy)]
pub struct RunCounts {
    /// How many rows were accepted, and how many were late.
    pub accepted: u64,
    pub late: u64,
    /// How many steps there were, and how many verdict lines.
    pub steps: u64,
    pub lines: u64,
}

// Whether a line is this end line.
fn is_end(end: &EndLine, line: &[u8], written: &mut Text) -> Result<bool, Memory>
    ensures { IfOk result (λ same. MatchBool same (line.now ≡ end_text end.now) (line.now ≢ end_text end.now)) }
{
    written.clear();
    end_line(end, written)?;
    Ok(line == written.as_bytes())
}

/// Whether a line says that a source could not be read.
pub fn is_unreadable(line: &[u8], written: &mut Text) -> Result<bool, Memory>
    ensures { IfOk result (λ is. MatchBool is (IsUnreadableLine line.now) (¬ (IsUnreadableLine line.now))) }
{
    for source in 0..64u32 {
        if is_end(&EndLine::UnreadableSource(source), line, written)? {
            return Ok(true);
        }
    }
    Ok(false)
}

// How long the first word is: how many bytes stand before the first space.
fn word_length(text: &[u8]) -> usize
    ensures value { result ≡ word_long text.now }
    ensures within { result ≤ length text.now }
{
    let mut long = 0;
    for byte in text {
        if *byte == b' ' {
            return long;
        }
        long += 1;
    }
    long
}

// The first word.
fn first_word(text: &[u8]) -> &[u8]
    ensures { result.now ≡ take (word_long text.now) text.now }
{
    &text[..word_length(text)]
}

// A number that is not negative.
fn natural(text: &[u8]) -> Option<u64>
    ensures { result ≡ read_natural kind.UInt64 text.now }
{
    let z = number(Kind::UInt64, text)?;
    if z < 0 {
        return None;
    }
    Some(z as u64)
}

// The number that stands behind so many bytes and before a space.
fn number_behind(line: &[u8], place: usize) -> Option<u64>
    ensures { result ≡ number_in line.now place }
{
    if place < line.len() {
        natural(first_word(&line[place..]))
    } else {
        None
    }
}

// Writes what stands before the row in the end line for a malformed line of a source.
fn write_front(source: u32, to: &mut Text) -> Result<(), Memory>
    ensures { OnOk result (to.new ≡ malformed_front source) }
{
    to.clear();
    to.append(b"= malformed source ")?;
    number_text(u64::from(source), to)?;
    to.append(b" row ")
}

// A kind of malformed line, by its number from 0.
fn kind_at(number: u32) -> MalformedKind
    ensures { result ≡ kind_at number }
{
    match number {
        0 => MalformedKind::BadHeading,
        1 => MalformedKind::FieldCount,
        2 => MalformedKind::BadTime,
        3 => MalformedKind::BadValue,
        4 => MalformedKind::BadText,
        5 => MalformedKind::BareCr,
        6 => MalformedKind::RowTooLong,
        _ => MalformedKind::TooManyRows,
    }
}

// Whether a line says that a source has a malformed line at this row.
fn is_malformed_row(source: u32, row: u64, line: &[u8], written: &mut Text) -> Result<bool, Memory>
    ensures { IfOk result (λ is. MatchBool is ((k : MalformedKind) × (line.now ≡ malformed_text source row k)) ((k : MalformedKind) → line.now ≢ malformed_text source row k)) }
{
    for number in 0..8u32 {
        let kind = kind_at(number);
        if is_end(&EndLine::Malformed { source, row, kind }, line, written)? {
            return Ok(true);
        }
    }
    Ok(false)
}

// The row that a line tells where it says that this source has a malformed line.
fn malformed_row(source: u32, line: &[u8], written: &mut Text) -> Result<Option<u64>, Memory>
    ensures { IfOk result (λ row. row ≡ number_in line.now (length (malformed_front source))) }
{
    write_front(source, written)?;
    Ok(number_behind(line, written.as_bytes().len()))
}

// Whether a line says that this source has a malformed line.
fn is_malformed_source(source: u32, line: &[u8], written: &mut Text) -> Result<bool, Memory>
    ensures { IfOk result (λ is. MatchBool is (IsMalformedAt source line.now) (¬ (IsMalformedAt source line.now))) }
{
    match malformed_row(source, line, written)? {
        Some(row) => {
            if row <= MOST_ROWS + 1 {
                is_malformed_row(source, row, line, written)
            } else {
                Ok(false)
            }
        }
        None => Ok(false),
    }
}

/// Whether a line says that a source has a malformed line.
pub fn is_malformed(line: &[u8], written: &mut Text) -> Result<bool, Memory>
    ensures { IfOk result (λ is. MatchBool is (IsMalformedLine line.now) (¬ (IsMalformedLine line.now))) }
{
    for source in 0..64u32 {
        if is_malformed_source(source, line, written)? {
            return Ok(true);
        }
    }
    Ok(false)
}

/// Whether a line says that a run is done, with these counts.
pub fn is_done(counts: &RunCounts, line: &[u8], written: &mut Text) -> Result<bool, Memory>
    ensures { IfOk result (λ is. MatchBool is (line.now ≡ done_text counts.now.accepted counts.now.late counts.now.steps counts.now.lines) (line.now ≢ done_text counts.now.accepted counts.now.late counts.now.steps counts.now.lines)) }
{
    let end = EndLine::Done {
        accepted: counts.accepted,
        late: counts.late,
        steps: counts.steps,
        lines: u128::from(counts.lines),
    };
    is_end(&end, line, written)
}

// The name of a stream.
fn name_of(course: &Course, stream: usize) -> Result<Text, Memory>
    ensures { IfOk result (λ name. name ≡ name_in (slice_get course.now.plan.now.spec.streams stream)) }
{
    match course.plan.spec.streams.as_slice().get(stream) {
        Some(stream) => Text::from_bytes(course.alloc, stream.name.as_bytes()),
        None => Text::from_bytes(course.alloc, b""),
    }
}

/// Whether a line tells this fault.
pub fn is_fault(
    course: &Course,
    fault: Fault,
    line: &[u8],
    written: &mut Text,
) -> Result<bool, Memory>
    ensures { IfOk result (λ is. MatchBool is (line.now ≡ fault_line course.now.plan.now (the_run_fault fault)) (line.now ≢ fault_line course.now.plan.now (the_run_fault fault))) }
{
    let end = EndLine::Fault {
        name: name_of(course, fault.stream)?,
        kind: fault.kind,
        time: fault.time,
    };
    is_end(&end, line, written)
}
