//! The order in which the sets of a normal form stand.

ghost use Rattle.std.specs.Prelude.{◌≡◌, ◌≢◌, ◌<◌, ◌≤◌, All, AllPairs, MatchBool, OnOk, length, take, drop};
ghost use Rattle.lola_pacing_normal.specs.Kept.{IsPutIn};
ghost use Rattle.lola_model.specs.InputOrder.{HasLeastOther};
ghost use Rattle.lola_model.specs.declared.pacing.InputSet.{InputSet as Set};

use lola_model::pacing::InputSet;
use lola_value::text::Memory;

/// Whether the least input that only one of two sets has is in the first, and not in the second.
fn has_least_other(set: &InputSet, other: &InputSet) -> bool
    requires { set.now ≢ other.now }
    ensures { MatchBool result (HasLeastOther set.now other.now) (HasLeastOther other.now set.now) }
{
    let differ = set.0 ^ other.0;
    (set.0 >> differ.trailing_zeros()) & 1 == 1
}

/// The place of the first set of a list that a set stands before.
fn place_of(set: InputSet, sets: &[InputSet]) -> usize
    requires other { All (λ (s : Set). set ≢ s) sets.now }
    requires ordered { AllPairs HasLeastOther sets.now }
    ensures within { result ≤ length sets.now }
    ensures before { All (λ (s : Set). HasLeastOther s set) (take result sets.now) }
    ensures after { All (HasLeastOther set) (drop result sets.now) }
{
    for (place, other) in sets.iter().enumerate() {
        if has_least_other(&set, other) {
            return place;
        }
    }
    sets.len()
}

/// Puts a set into an ordered list, at its place.
pub(crate) fn put_in(set: InputSet, sets: &mut Vec<InputSet>) -> Result<(), Memory>
    requires other { All (λ (s : Set). set ≢ s) sets.old.items }
    requires ordered { AllPairs HasLeastOther sets.old.items }
    ensures { OnOk result (IsPutIn set sets.old.items sets.new.items) }
{
    let place = place_of(set, sets);
    sets.insert(place, set)?;
    Ok(())
}
