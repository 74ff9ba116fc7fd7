//! The refusals of clauses whose pacings are found.

ghost use Rattle.std.specs.Prelude.{◌≡◌, ◌++◌, [], ◌∷◌, OnOk, unwrap_or, slice_get, flat_map, None};
ghost use Rattle.lola_value.specs.declared.front.Code.TheVariants as code;
ghost use Rattle.lola_model.specs.Named.{has_clause, has_when as has_condition};
ghost use Rattle.lola_model.specs.PacingFound.{finding_at};
ghost use Rattle.lola_model.specs.PacingRefused.{clause_refusals, does_imply, finding_refusal, is_filtered as is_filtered_stream, not_implied, refusal_where, use_refusals, refusal_of_window};

use crate::uses::uses_of;
use lola_model::finding::FoundPacing;
use lola_model::pacing::Pacing;
use lola_model::spec::{Clause, Stream};
use lola_model::uses::Use;
use lola_pacing_normal::implies::implies;
use lola_value::front::{Code, Refusal};
use lola_value::text::Memory;
use std::alloc::Global;

/// Whether one pacing implies another: wherever the one is active, so is the other.
fn is_implied(pacing: &Pacing, other: &Pacing) -> bool
    ensures { result ≡ does_imply pacing.now other.now }
{
    implies(pacing, other)
}

/// Puts a refusal.
fn put(list: &mut Vec<Refusal>, code: Code, at: u32) -> Result<(), Memory>
    ensures { OnOk result (list.new.items ≡ list.old.items ++ record { code = code; at = at } ∷ []) }
{
    list.push(Refusal { code, at })?;
    Ok(())
}

/// Puts E11, where two pacings are found and the one does not imply the other.
fn put_not_implied(
    list: &mut Vec<Refusal>,
    own: &FoundPacing,
    read: &FoundPacing,
    at: u32,
) -> Result<(), Memory>
    ensures { OnOk result (list.new.items ≡ list.old.items ++ not_implied own.now read.now at) }
{
    match own {
        FoundPacing::Paced(pacing) => match read {
            FoundPacing::Paced(other) => {
                if is_implied(pacing, other) {
                    Ok(())
                } else {
                    put(list, Code::NotImplied, at)
                }
            }
            FoundPacing::Refused(_) => Ok(()),
            FoundPacing::Unpaced => Ok(()),
        },
        FoundPacing::Refused(_) => Ok(()),
        FoundPacing::Unpaced => Ok(()),
    }
}

/// Puts E11 for an access of a stream.
fn put_unimplied_at(
    list: &mut Vec<Refusal>,
    evals: &[FoundPacing],
    own: &FoundPacing,
    stream: u32,
    at: u32,
) -> Result<(), Memory>
    ensures { OnOk result (list.new.items ≡ list.old.items ++ not_implied own.now (finding_at evals.now stream) at) }
{
    match evals.get(stream as usize) {
        Some(read) => put_not_implied(list, own, read, at),
        None => put_not_implied(list, own, &FoundPacing::Unpaced, at),
    }
}

/// Whether an eval clause has a condition.
fn has_when(clause: &Option<Clause>) -> bool
    ensures { result ≡ has_condition clause.now }
{
    match clause {
        None => false,
        Some(clause) => clause.when.is_some(),
    }
}

/// Whether a stream has values only where it is spawned, or only under a condition.
fn is_filtered(streams: &[Stream], stream: u32) -> bool
    ensures { result ≡ is_filtered_stream (slice_get streams.now stream) }
{
    match streams.get(stream as usize) {
        None => false,
        Some(stream) => stream.spawn.is_some() || has_when(&stream.eval),
    }
}

/// Puts E14 for an access of a stream that is filtered.
fn put_filtered(
    list: &mut Vec<Refusal>,
    streams: &[Stream],
    stream: u32,
    at: u32,
) -> Result<(), Memory>
    ensures { OnOk result (list.new.items ≡ list.old.items ++ refusal_where (is_filtered_stream (slice_get streams.now stream)) code.DirectToFiltered at) }
{
    if is_filtered(streams, stream) {
        put(list, Code::DirectToFiltered, at)
    } else {
        Ok(())
    }
}

/// What stands against a window, if anything does.
fn window_refusal_at(window_refusals: &[Option<Code>], window: u32) -> Option<Code>
    ensures { result ≡ unwrap_or (slice_get window_refusals.now window) None }
{
    match window_refusals.get(window as usize) {
        Some(window_refusal) => *window_refusal,
        None => None,
    }
}

/// Puts what stands against a window, if anything does.
fn put_window_refusal(
    list: &mut Vec<Refusal>,
    window_refusal: Option<Code>,
    at: u32,
) -> Result<(), Memory>
    ensures { OnOk result (list.new.items ≡ list.old.items ++ refusal_of_window window_refusal at) }
{
    match window_refusal {
        None => Ok(()),
        Some(code) => put(list, code, at),
    }
}

/// Puts the refusals at a direct access or a window.
fn put_use(
    list: &mut Vec<Refusal>,
    streams: &[Stream],
    evals: &[FoundPacing],
    window_refusals: &[Option<Code>],
    own: &FoundPacing,
    part: &Use,
) -> Result<(), Memory>
    ensures { OnOk result (list.new.items ≡ list.old.items ++ use_refusals streams.now evals.now window_refusals.now own.now part.now) }
{
    match part {
        Use::OfStream(at, stream) => {
            put_unimplied_at(list, evals, own, *stream, *at)?;
            put_filtered(list, streams, *stream, *at)
        }
        Use::OfWindow(at, window) => put_window_refusal(
            list,
            window_refusal_at(window_refusals, *window),
            *at,
        ),
    }
}

/// Puts the refusals at direct accesses and windows.
fn put_uses(
    list: &mut Vec<Refusal>,
    streams: &[Stream],
    evals: &[FoundPacing],
    window_refusals: &[Option<Code>],
    own: &FoundPacing,
    parts: &[Use],
) -> Result<(), Memory>
    ensures { OnOk result (list.new.items ≡ list.old.items ++ flat_map (use_refusals streams.now evals.now window_refusals.now own.now) parts.now) }
{
    for part in parts {
        put_use(list, streams, evals, window_refusals, own, part)?;
    }
    Ok(())
}

/// Puts the refusal that says why there is no pacing, if one says so.
fn put_finding(list: &mut Vec<Refusal>, finding: &FoundPacing) -> Result<(), Memory>
    ensures { OnOk result (list.new.items ≡ list.old.items ++ finding_refusal finding.now) }
{
    match finding {
        FoundPacing::Paced(_) => Ok(()),
        FoundPacing::Refused(refusal) => put(list, refusal.code, refusal.at),
        FoundPacing::Unpaced => Ok(()),
    }
}

/// Puts the refusals of a clause, if there is one, of which the last is found: why it has no pacing, E11 and E14 at its
/// direct accesses, and what stands against its windows.
pub fn put_clause(
    alloc: Global,
    list: &mut Vec<Refusal>,
    streams: &[Stream],
    evals: &[FoundPacing],
    window_refusals: &[Option<Code>],
    own: &FoundPacing,
    clause: &Option<Clause>,
) -> Result<(), Memory>
    ensures { OnOk result (list.new.items ≡ list.old.items ++ clause_refusals streams.now evals.now window_refusals.now own.now clause.now) }
{
    put_finding(list, own)?;
    let parts = uses_of(alloc, clause)?;
    put_uses(list, streams, evals, window_refusals, own, &parts)
}
