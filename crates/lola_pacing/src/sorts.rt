//! Of which sort the pacings of leaves are.

ghost use Rattle.std.specs.Prelude.{◌≡◌, [], ◌∷◌, MatchOption};
ghost use Rattle.std.specs.List.{list_all, list_any};
ghost use Rattle.lola_model.specs.PacingFound.{finding_at, findings_at, form_of, is_event, is_periodic, is_unpaced};

use lola_model::finding::FoundPacing;
use lola_model::pacing::{NormalForm, Pacing};

/// The sets of the pacing of a stream, if it is event-based.
pub fn form_at(findings: &[FoundPacing], stream: u32) -> Option<&NormalForm>
    ensures { MatchOption result (form_of (finding_at findings.now stream) ≡ []) (λ form. form_of (finding_at findings.now stream) ≡ form.now ∷ []) }
{
    match findings.get(stream as usize) {
        Some(FoundPacing::Paced(Pacing::Event(form))) => Some(form),
        _ => None,
    }
}

/// Whether the pacing of a stream is event-based.
fn is_event_at(findings: &[FoundPacing], stream: u32) -> bool
    ensures { result ≡ is_event (finding_at findings.now stream) }
{
    match findings.get(stream as usize) {
        Some(FoundPacing::Paced(Pacing::Event(_))) => true,
        _ => false,
    }
}

/// Whether the pacing of a stream is periodic.
fn is_periodic_at(findings: &[FoundPacing], stream: u32) -> bool
    ensures { result ≡ is_periodic (finding_at findings.now stream) }
{
    match findings.get(stream as usize) {
        Some(FoundPacing::Paced(Pacing::Periodic(_))) => true,
        _ => false,
    }
}

/// Whether a stream has no pacing.
fn is_unpaced_at(findings: &[FoundPacing], stream: u32) -> bool
    ensures { result ≡ is_unpaced (finding_at findings.now stream) }
{
    match findings.get(stream as usize) {
        Some(FoundPacing::Paced(_)) => false,
        _ => true,
    }
}

/// Whether the pacings of all these streams are event-based.
pub fn are_events(findings: &[FoundPacing], streams: &[u32]) -> bool
    ensures { result ≡ list_all is_event (findings_at findings.now streams.now) }
{
    for stream in streams {
        if !is_event_at(findings, *stream) {
            return false;
        }
    }
    true
}

/// Whether the pacings of all these streams are periodic.
pub fn are_periodic(findings: &[FoundPacing], streams: &[u32]) -> bool
    ensures { result ≡ list_all is_periodic (findings_at findings.now streams.now) }
{
    for stream in streams {
        if !is_periodic_at(findings, *stream) {
            return false;
        }
    }
    true
}

/// Whether some of these streams has no pacing.
pub fn is_some_unpaced(findings: &[FoundPacing], streams: &[u32]) -> bool
    ensures { result ≡ list_any is_unpaced (findings_at findings.now streams.now) }
{
    for stream in streams {
        if is_unpaced_at(findings, *stream) {
            return true;
        }
    }
    false
}
