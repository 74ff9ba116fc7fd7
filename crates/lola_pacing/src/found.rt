//! Pacings that are found from leaves.

ghost use Rattle.std.specs.Prelude.{◌≡◌, ◌<◌, IfOk, length};
ghost use Rattle.lola_model.specs.PacingFound.{any_row, finding_at, findings_at, form_of, forms_of, IsCombined, IsFound, IsJoined};
ghost use Rattle.lola_pacing.specs.Joins.{AnswersNext};

use crate::given_rates::{none_found, one_too_wide};
use crate::rates::of_rates;
use crate::sorts::{are_events, are_periodic, form_at, is_some_unpaced};
use lola_model::finding::FoundPacing;
use lola_model::pacing::{InputSet, NormalForm, Pacing};
use lola_pacing_normal::answer::NormalEnd;
use lola_pacing_normal::normal::conjunction;
use lola_value::text::Memory;
use std::alloc::Global;

/// The sets of a pacing, joined with those of a stream's pacing, if that is event-based.
fn next(
    alloc: Global,
    sets: NormalForm,
    findings: &[FoundPacing],
    stream: u32,
) -> Result<NormalForm, NormalEnd>
    ensures { AnswersNext sets (form_of (finding_at findings.now stream)) result }
{
    match form_at(findings, stream) {
        None => Ok(sets),
        Some(form) => conjunction(alloc, &sets, form),
    }
}

/// The pacing that every row satisfies.
fn of_any_row(alloc: Global) -> Result<NormalForm, Memory>
    ensures { IfOk result (λ sets. sets ≡ any_row) }
{
    let mut sets = NormalForm::create(alloc);
    sets.push(InputSet(0))?;
    Ok(sets)
}

/// The event-based pacings of leaves, joined in order, or E13.
fn joined(
    alloc: Global,
    at: u32,
    findings: &[FoundPacing],
    leaves: &[u32],
) -> Result<FoundPacing, Memory>
    ensures { IfOk result (λ finding. IsJoined at any_row (forms_of (findings_at findings.now leaves.now)) finding) }
{
    let mut sets = of_any_row(alloc)?;
    for leaf in leaves {
        match next(alloc, sets, findings, *leaf) {
            Ok(joined) => sets = joined,
            Err(NormalEnd::TooWide) => return Ok(one_too_wide(at)),
            Err(NormalEnd::Memory) => return Err(Memory),
        }
    }
    Ok(FoundPacing::Paced(Pacing::Event(sets)))
}

/// What is found from leaves that all have pacings.
fn combined(
    alloc: Global,
    at: u32,
    findings: &[FoundPacing],
    leaves: &[u32],
) -> Result<FoundPacing, Memory>
    requires { 0 < length leaves.now }
    ensures { IfOk result (λ finding. IsCombined at (findings_at findings.now leaves.now) finding) }
{
    if are_events(findings, leaves) {
        return joined(alloc, at, findings, leaves);
    }
    if are_periodic(findings, leaves) {
        return Ok(of_rates(at, findings, leaves));
    }
    Ok(none_found(at))
}

/// What is found of a clause with these leaves: their conjunction, their least rate, E12 or E13; without a leaf what it
/// has alone, and nothing where a leaf has no pacing.
pub fn of_leaves(
    alloc: Global,
    at: u32,
    alone: FoundPacing,
    findings: &[FoundPacing],
    leaves: &[u32],
) -> Result<FoundPacing, Memory>
    ensures { IfOk result (λ finding. IsFound at alone (findings_at findings.now leaves.now) finding) }
{
    if leaves.is_empty() {
        return Ok(alone);
    }
    if is_some_unpaced(findings, leaves) {
        return Ok(FoundPacing::Unpaced);
    }
    combined(alloc, at, findings, leaves)
}
