//! The journal that a trace text tells.

ghost use Rattle.std.specs.Prelude.{◌≡◌, ◌+◌, ◌<◌, ◌++◌, ◌∷◌, [], drop, length, IfOk, OnOk};
ghost use Rattle.std.specs.List.{position};
ghost use Rattle.lola_model.specs.declared.plan.Plan.{Plan};
ghost use Rattle.lola_model.specs.Trace.{input_kinds};
ghost use Rattle.lola_report.specs.Journals.{Fills, Reads, is_lf};

use crate::line::{LineRoom, entry_of_line};
use lola_model::journal::Journal;
use lola_model::plan::Plan;
use lola_model::spec::{Kinds, Sort, Stream};
use lola_value::text::Memory;
use lola_value::value::Kind;
use std::alloc::Global;
use thiserror::Error;

/// Why a text gave no journal.
#[derive(Clone, Copy, Debug, Error)]
pub enum JournalEnd {
    /// The first line, counted from 1, that tells no entry.
    #[error("line {0} of the trace is no trace line")]
    BadLine(u64),
    /// There is no memory for the journal.
    #[error("there is no memory to read the trace")]
    Memory,
}

impl From<Memory> for JournalEnd {
    ghost use Rattle.std.specs.Prelude.{◌≡◌};
    ghost use Rattle.lola_report.specs.declared.read.JournalEnd.TheVariants as end;

    ghost from_gives = { λ _ e. e ≡ end.Memory };

    fn from(_: Memory) -> Self {
        JournalEnd::Memory
    }
}

/// The kinds of the inputs, in order.
pub fn kinds_of(alloc: Global, streams: &[Stream]) -> Result<Kinds, Memory>
    ensures { IfOk result (λ kinds. kinds ≡ input_kinds streams.now) }
{
    let mut kinds = Kinds::create(alloc);
    for stream in streams {
        add_kind(&mut kinds, stream)?;
    }
    Ok(kinds)
}

// Adds the kind of a stream, where it is an input.
fn add_kind(kinds: &mut Kinds, stream: &Stream) -> Result<(), Memory>
    ensures { OnOk result (kinds.new ≡ kinds.old ++ input_kinds (stream.now ∷ [])) }
{
    if matches!(stream.sort, Sort::Input) {
        kinds.push(stream.filled_kind())?;
    }
    Ok(())
}

// Where the first LF is.
fn first_lf(bytes: &[u8]) -> Option<usize>
    ensures { result ≡ position is_lf bytes.now }
{
    bytes.iter().position(|b| *b == b'\n')
}

// What stands behind a place.
fn behind(bytes: &[u8], place: usize) -> &[u8]
    requires { place < length bytes.now }
    ensures { result.now ≡ drop (place + 1) bytes.now }
{
    &bytes[place + 1..]
}

// Puts the entries of all whole lines behind those of a journal, which has none yet.
fn fill(
    alloc: Global,
    kinds: &[Kind],
    bytes: &[u8],
    room: &mut LineRoom,
    journal: &mut Journal,
) -> Result<(), JournalEnd>
    requires { journal.old ≡ [] }
    ensures { (plan : Plan) → input_kinds plan.spec.streams ≡ kinds.now → Fills plan bytes.now journal.new result }
{
    let mut rest = bytes;
    let mut number = 1u64;
    while let Some(place) = first_lf(rest) {
        let Some(entry) = entry_of_line(alloc, kinds, &rest[..place + 1], &rest[..place], room)?
        else {
            return Err(JournalEnd::BadLine(number));
        };
        journal.push(entry)?;
        rest = behind(rest, place);
        number += 1;
    }
    Ok(())
}

/// The journal that a trace text of a plan tells: an entry for each whole line. What follows the last LF is no whole
/// line, and is left out.
///
/// Errors: `BadLine` with the number, from 1, of the first whole line that is the line of no entry which the plan's
/// trace can tell, and `Memory`.
pub fn journal(alloc: Global, plan: &Plan, bytes: &[u8]) -> Result<Journal, JournalEnd>
    ensures { Reads plan.now bytes.now result }
{
    let kinds = kinds_of(alloc, plan.spec.streams.as_slice())?;
    let mut room = LineRoom::create(alloc)?;
    let mut journal = Journal::create(alloc);
    fill(alloc, kinds.as_slice(), bytes, &mut room, &mut journal)?;
    Ok(journal)
}
