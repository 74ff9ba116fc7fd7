//! The leaves of a clause.

ghost use Rattle.std.specs.Prelude.{◌≡◌, ◌≤◌, ◌<◌, ◌+◌, ◌^◌, [], IfOk, OnOk, length, map};
ghost use Rattle.lola_model.specs.Accepted.{IsClauseInRange, IsSpecInRange};
ghost use Rattle.lola_model.specs.Leaves.{AreLeaves, onward};
ghost use Rattle.lola_pacing.specs.Flags.{AreEndsBelow, IsBlank};

use crate::follow::followed_from;
pub use crate::follow::{is_end, lists_of};
use crate::numbers::StreamNumbers;
use crate::search::visit;
use lola_model::spec::{Clause, Spec, Stream};
use lola_value::text::Memory;
use std::alloc::Global;

/// Puts a stream, if it is flagged and the search ends there.
fn put_end(
    streams: &[Stream],
    flags: &[bool],
    stream: u32,
    leaves: &mut StreamNumbers,
) -> Result<(), Memory>
    requires stream { stream < length streams.now }
    requires flags { length flags.now ≡ length streams.now }
    requires before { AreEndsBelow streams.now flags.now stream leaves.old }
    ensures { OnOk result (AreEndsBelow streams.now flags.now (stream + 1) leaves.new) }
{
    if !flags[stream as usize] {
        return Ok(());
    }
    if !is_end(&streams[stream as usize]) {
        return Ok(());
    }
    leaves.push(stream)?;
    Ok(())
}

/// The streams that are flagged and at which the search ends.
fn flagged_ends(alloc: Global, streams: &[Stream], flags: &[bool]) -> Result<StreamNumbers, Memory>
    requires count { length streams.now < 2 ^ 32 }
    requires flags { length flags.now ≡ length streams.now }
    ensures { IfOk result (λ leaves. AreEndsBelow streams.now flags.now (length streams.now) leaves) }
{
    let mut leaves = StreamNumbers::create(alloc);
    for stream in 0..streams.len() as u32 {
        put_end(streams, flags, stream, &mut leaves)?;
    }
    Ok(leaves)
}

/// The leaves of a clause, found in room for a flag of each stream and for streams to be looked at.
fn found(
    alloc: Global,
    spec: &Spec,
    lists: &[StreamNumbers],
    own: u32,
    clause: &Option<Clause>,
    flags: &mut [bool],
    noted: &mut Vec<u32>,
) -> Result<StreamNumbers, Memory>
    requires numbers { IsSpecInRange spec.now }
    requires streams { length spec.now.streams ≤ 1024 }
    requires clause { IsClauseInRange (length spec.now.streams) (length spec.now.windows) clause.now }
    requires lists { lists.now ≡ map onward spec.now.streams }
    requires flags { length flags.old ≡ length lists.now }
    requires blank { IsBlank flags.old }
    requires noted { noted.old.items ≡ [] }
    ensures { IfOk result (λ leaves. AreLeaves spec.now.streams own clause.now leaves) }
{
    let first = followed_from(alloc, clause)?;
    visit(lists, own, first.as_slice(), flags, noted)?;
    let leaves = flagged_ends(alloc, spec.streams.as_slice(), flags)?;
    Ok(leaves)
}

/// The leaves of a clause of the own stream, as far as its expressions show: over direct and offset accesses, through
/// streams whose eval clauses have no pacing of their own, to inputs and to streams whose eval clauses have one. The
/// lists are those of all streams of the specification.
pub fn leaves(
    alloc: Global,
    spec: &Spec,
    lists: &[StreamNumbers],
    own: u32,
    clause: &Option<Clause>,
) -> Result<StreamNumbers, Memory>
    requires numbers { IsSpecInRange spec.now }
    requires streams { length spec.now.streams ≤ 1024 }
    requires clause { IsClauseInRange (length spec.now.streams) (length spec.now.windows) clause.now }
    requires lists { lists.now ≡ map onward spec.now.streams }
    ensures { IfOk result (λ leaves. AreLeaves spec.now.streams own clause.now leaves) }
{
    let mut flags = vec![in alloc; false; lists.len()]?;
    let mut noted = Vec::new(alloc);
    found(alloc, spec, lists, own, clause, &mut flags, &mut noted)
}
