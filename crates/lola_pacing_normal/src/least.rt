//! The least of some sets of inputs.

ghost use Rattle.std.specs.Prelude.{◌≡◌, ◌<◌, ◌^◌, All, IfOk, IfErr, map, ℕ};
ghost use Rattle.std.specs.List.Sorted.{IsNonDecreasing};
ghost use Rattle.lola_model.specs.Activity.{satisfies_some};
ghost use Rattle.lola_pacing_normal.specs.Kept.{set_of, AreKept, AreManyKept};
ghost use Rattle.lola_pacing_normal.specs.Least.{AnswersLeast};
ghost use Rattle.lola_pacing_normal.specs.declared.answer.NormalEnd.TheVariants as ends;

use crate::answer::NormalEnd;
use crate::order::put_in;
use lola_model::pacing::{InputSet, NormalForm};
use lola_value::text::Memory;
use std::alloc::Global;

/// A normal form has at most so many sets.
const WIDEST: usize = 256;

/// Whether inputs have all of some set.
pub(crate) fn has_all_of_one(inputs: u64, sets: &[InputSet]) -> bool
    ensures { result ≡ satisfies_some inputs sets.now }
{
    for set in sets {
        if set.0 & inputs == set.0 {
            return true;
        }
    }
    false
}

/// The least of candidates that do not fall. A set that has all of another is the greater number, so
/// each candidate that has not all of a kept one is kept for good.
fn least_of(alloc: Global, candidates: &[u64]) -> Result<Vec<InputSet>, NormalEnd>
    requires { IsNonDecreasing candidates.now }
    ensures fit { All (λ c. c < 2 ^ 64) candidates.now }
    ensures kept { IfOk result (λ kept. AreKept candidates.now kept.items) }
    ensures many { IfErr result (λ end. end ≡ ends.TooWide → AreManyKept candidates.now) }
{
    let mut kept = Vec::new(alloc);
    for candidate in candidates {
        if has_all_of_one(*candidate, &kept) {
            continue;
        }
        if kept.len() == WIDEST {
            return Err(NormalEnd::TooWide);
        }
        put_in(InputSet(*candidate), &mut kept)?;
    }
    Ok(kept)
}

/// These sets as a normal form.
fn listed(alloc: Global, sets: &[InputSet]) -> Result<NormalForm, Memory>
    ensures { IfOk result (λ form. form ≡ sets.now) }
{
    let mut form = NormalForm::create(alloc);
    for set in sets {
        form.push(*set)?;
    }
    Ok(form)
}

/// The least of candidates, in any order.
pub(crate) fn least(alloc: Global, mut candidates: Vec<u64>) -> Result<NormalForm, NormalEnd>
    ensures { AnswersLeast (λ inputs. satisfies_some inputs (map set_of candidates.items)) result }
{
    candidates.sort_unstable();
    match least_of(alloc, &candidates) {
        Err(end) => Err(end),
        Ok(kept) => {
            let form = listed(alloc, &kept)?;
            Ok(form)
        }
    }
}
