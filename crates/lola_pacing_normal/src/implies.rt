//! When one pacing implies another.

ghost use Rattle.std.specs.Prelude.{◌≡◌, ◌↔◌, IsTrue, All, true};
ghost use Rattle.lola_model.specs.Activity.{satisfies_some};
ghost use Rattle.lola_model.specs.Implication.{Implies, IsWholeMultipleOf};
ghost use Rattle.lola_model.specs.declared.pacing.InputSet.{InputSet as Set};

use crate::least::has_all_of_one;
use lola_model::pacing::{InputSet, Pacing};
use lola_value::rate::Rate;

/// Whether each set of one list has all of some set of another.
fn each_has_all_of_one(sets: &[InputSet], others: &[InputSet]) -> bool
    ensures { IsTrue result ↔ All (λ (s : Set). satisfies_some s.0 others.now ≡ true) sets.now }
{
    for set in sets {
        if !has_all_of_one(set.0, others) {
            return false;
        }
    }
    true
}

/// Whether a rate is a whole number of times another.
fn is_whole_multiple(rate: &Rate, other: &Rate) -> bool
    ensures { IsTrue result ↔ IsWholeMultipleOf rate.now other.now }
{
    let numerator = rate.num() as u128 * other.den() as u128;
    let denominator = rate.den() as u128 * other.num() as u128;
    numerator % denominator == 0
}

/// Whether one pacing implies another: wherever the first is active, so is the second. A rate implies
/// its whole multiples, and pacings of different sorts never imply each other.
pub fn implies(first: &Pacing, second: &Pacing) -> bool
    ensures { IsTrue result ↔ Implies first.now second.now }
{
    match (first, second) {
        (Pacing::Event(first), Pacing::Event(second)) => {
            each_has_all_of_one(first.as_slice(), second.as_slice())
        }
        (Pacing::Periodic(first), Pacing::Periodic(second)) => is_whole_multiple(second, first),
        _ => false,
    }
}
