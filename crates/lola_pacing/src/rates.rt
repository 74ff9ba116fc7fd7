//! Periodic pacings of leaves: the least rate, which all others have to be multiples of.

ghost use Rattle.std.specs.Prelude.{List, ◌≡◌, ◌≢◌, ◌++◌, [], ◌↔◌, IsTrue};
ghost use Rattle.lola_value.specs.Rate.{IsRate};
ghost use Rattle.lola_value.specs.Ratio.{Ratio};
ghost use Rattle.std.specs.List.{list_all};
ghost use Rattle.lola_model.specs.PacingFound.{finding_at, findings_at, is_multiple as is_multiple_of, rate_of, rates_of, IsAtMost, IsLeastRate, IsRateFound};
ghost use Rattle.lola_pacing.specs.Rates.{list_of, IsLeastOf};

use crate::given_rates::none_found;
use lola_model::finding::FoundPacing;
use lola_model::pacing::Pacing;
use lola_value::rate::Rate;

/// Whether a rate is a whole number of times another: then each deadline of the other is one of it.
pub fn is_multiple(rate: &Rate, other: &Rate) -> bool
    ensures { result ≡ is_multiple_of rate.now other.now }
{
    let times = other.num() as u128 * rate.den() as u128;
    let once = other.den() as u128 * rate.num() as u128;
    times % once == 0
}

/// Whether a rate is at most another.
fn is_at_most(rate: &Rate, other: &Rate) -> bool
    ensures most { IsTrue result ↔ IsAtMost rate.now other.now }
    ensures rate { IsRate other.now }
{
    rate.num() as u128 * other.den() as u128 <= other.num() as u128 * rate.den() as u128
}

/// The rate of a stream's pacing, if it is periodic.
fn rate_at(findings: &[FoundPacing], stream: u32) -> Option<Rate>
    ensures { list_of result ≡ rate_of (finding_at findings.now stream) }
{
    match findings.get(stream as usize) {
        Some(FoundPacing::Paced(Pacing::Periodic(rate))) => Some(*rate),
        _ => None,
    }
}

/// The lesser of two rates, if they are there.
fn lesser(least: Option<Rate>, next: Option<Rate>) -> Option<Rate>
    ensures { (rates : List Ratio) → IsLeastOf rates least → IsLeastOf (rates ++ list_of next) result }
{
    match next {
        None => least,
        Some(rate) => match least {
            None => Some(rate),
            Some(other) => {
                if is_at_most(&rate, &other) {
                    Some(rate)
                } else {
                    Some(other)
                }
            }
        },
    }
}

/// The least rate of the pacings of streams, if some are periodic.
fn least(findings: &[FoundPacing], streams: &[u32]) -> Option<Rate>
    ensures { IsLeastOf (rates_of (findings_at findings.now streams.now)) result }
{
    let mut least = None;
    for stream in streams {
        least = lesser(least, rate_at(findings, *stream));
    }
    least
}

/// Whether the rate of a stream's pacing, if it is periodic, is a multiple of a rate.
fn is_multiple_at(rate: &Rate, findings: &[FoundPacing], stream: u32) -> bool
    ensures { result ≡ list_all (is_multiple_of rate.now) (rate_of (finding_at findings.now stream)) }
{
    match findings.get(stream as usize) {
        Some(FoundPacing::Paced(Pacing::Periodic(other))) => is_multiple(rate, other),
        _ => true,
    }
}

/// Whether all rates of the pacings of streams are multiples of a rate.
fn are_multiples(rate: &Rate, findings: &[FoundPacing], streams: &[u32]) -> bool
    ensures { result ≡ list_all (is_multiple_of rate.now) (rates_of (findings_at findings.now streams.now)) }
{
    for stream in streams {
        if !is_multiple_at(rate, findings, *stream) {
            return false;
        }
    }
    true
}

/// What is found from the rates of leaves, some of which are periodic: the least rate, if it implies all others, else E12.
pub fn of_rates(at: u32, findings: &[FoundPacing], leaves: &[u32]) -> FoundPacing
    ensures { rates_of (findings_at findings.now leaves.now) ≢ [] → IsRateFound at (rates_of (findings_at findings.now leaves.now)) result }
{
    match least(findings, leaves) {
        None => none_found(at),
        Some(rate) => {
            if are_multiples(&rate, findings, leaves) {
                FoundPacing::Paced(Pacing::Periodic(rate))
            } else {
                none_found(at)
            }
        }
    }
}
