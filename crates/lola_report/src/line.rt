//! One line of a trace.

ghost use Rattle.std.specs.Prelude.{◌≡◌, ◌≢◌, ◌↔◌, ◌++◌, ◌∷◌, [], ℕ, List, IfOk, IsTrue, MatchOption};
ghost use Rattle.lola_model.specs.declared.plan.Plan.{Plan};
ghost use Rattle.lola_model.specs.Trace.{input_kinds, trace_line};
ghost use Rattle.lola_report.specs.Candidates.{candidate_of};
ghost use Rattle.lola_report.specs.Journals.{ReadsLine};

use crate::candidate::entry;
use crate::trace::trace_line;
use csv::ByteRecord;
use lola_model::journal::Entry;
use lola_rows::line::{has_line_end, read_line};
use lola_value::text::{Memory, Text};
use lola_value::value::Kind;
use std::alloc::Global;

/// Room that is kept from line to line: for the fields of a line, and for the line of the entry that it is taken for.
#[derive(Drop)]
pub struct LineRoom {
    fields: ByteRecord,
    spare: Vec<u8>,
    written: Text,
}

impl LineRoom {
    /// Room that grows with the lines.
    pub fn create(alloc: Global) -> Result<LineRoom, Memory> {
        Ok(LineRoom {
            fields: ByteRecord::new(alloc),
            spare: Vec::new(alloc),
            written: Text::from_bytes(alloc, b"")?,
        })
    }
}

// The entry that a line is taken for; the line is given without its LF.
fn candidate(
    alloc: Global,
    kinds: &[Kind],
    line: &[u8],
    room: &mut LineRoom,
) -> Result<Option<Entry>, Memory>
    ensures { IfOk result (λ entry. entry ≡ candidate_of kinds.now line.now) }
{
    if has_line_end(line) {
        return Ok(None);
    }
    read_line(line, &mut room.fields, &mut room.spare)?;
    entry(alloc, kinds, &room.fields)
}

// Whether this is the line of an entry, its LF included.
fn is_line_of(alloc: Global, entry: &Entry, line: &[u8], written: &mut Text) -> Result<bool, Memory>
    ensures { IfOk result (λ same. IsTrue same ↔ trace_line entry.now ≡ line.now) }
{
    written.clear();
    trace_line(alloc, entry, written)?;
    Ok(written.as_bytes() == line)
}

/// The entry whose line this is, for inputs of these kinds; none where it is the line of no entry that a trace can
/// tell. The line is given with its LF, and without.
pub fn entry_of_line(
    alloc: Global,
    kinds: &[Kind],
    line: &[u8],
    body: &[u8],
    room: &mut LineRoom,
) -> Result<Option<Entry>, Memory>
    requires { line.now ≡ body.now ++ 10 ∷ [] }
    ensures { (plan : Plan) → input_kinds plan.spec.streams ≡ kinds.now → IfOk result (ReadsLine plan line.now) }
{
    let Some(entry) = candidate(alloc, kinds, body, room)? else {
        return Ok(None);
    };
    if is_line_of(alloc, &entry, line, &mut room.written)? {
        Ok(Some(entry))
    } else {
        Ok(None)
    }
}

// A line without its LF, if it ends with one.
fn body_of(line: &[u8]) -> Option<&[u8]>
    ensures { MatchOption result ((body : List ℕ) → line.now ≢ body ++ 10 ∷ []) (λ body. line.now ≡ body.now ++ 10 ∷ []) }
{
    if line.is_empty() {
        return None;
    }
    let last = line.len() - 1;
    if line[last] == b'\n' {
        Some(&line[..last])
    } else {
        None
    }
}

/// The entry whose line this is, for inputs of these kinds; none where it is the line of no entry that a trace can tell, as is a
/// line that does not end with LF.
pub fn entry_of(
    alloc: Global,
    kinds: &[Kind],
    line: &[u8],
    room: &mut LineRoom,
) -> Result<Option<Entry>, Memory>
    ensures { (plan : Plan) → input_kinds plan.spec.streams ≡ kinds.now → IfOk result (ReadsLine plan line.now) }
{
    match body_of(line) {
        Some(body) => entry_of_line(alloc, kinds, line, body, room),
        None => Ok(None),
    }
}
