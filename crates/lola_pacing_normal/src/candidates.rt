//! The sets of inputs among which the least are looked for, as numbers.

ghost use Rattle.std.specs.Prelude.{◌≡◌, ◌++◌, IfOk, OnOk, bit_or, map};
ghost use Rattle.lola_pacing_normal.specs.Kept.{candidate_of, unions_of};
ghost use Rattle.lola_model.specs.declared.pacing.InputSet.{InputSet as Set};

use lola_model::pacing::InputSet;
use lola_value::text::Memory;
use std::alloc::Global;

/// Appends the unions of a set with others.
fn push_unions(set: InputSet, others: &[InputSet], to: &mut Vec<u64>) -> Result<(), Memory>
    ensures { OnOk result (to.new.items ≡ to.old.items ++ map (λ (t : Set). bit_or set.0 t.0) others.now) }
{
    for other in others {
        to.push(set.0 | other.0)?;
    }
    Ok(())
}

/// Appends sets.
fn push_sets(sets: &[InputSet], to: &mut Vec<u64>) -> Result<(), Memory>
    ensures { OnOk result (to.new.items ≡ to.old.items ++ map candidate_of sets.now) }
{
    for set in sets {
        to.push(set.0)?;
    }
    Ok(())
}

/// The union of each set of one list with each of another.
pub(crate) fn unions(
    alloc: Global,
    first: &[InputSet],
    second: &[InputSet],
) -> Result<Vec<u64>, Memory>
    ensures { IfOk result (λ v. v.items ≡ unions_of first.now second.now) }
{
    let mut candidates = Vec::new(alloc);
    for set in first {
        push_unions(*set, second, &mut candidates)?;
    }
    Ok(candidates)
}

/// The sets of two lists.
pub(crate) fn both(
    alloc: Global,
    first: &[InputSet],
    second: &[InputSet],
) -> Result<Vec<u64>, Memory>
    ensures { IfOk result (λ v. v.items ≡ map candidate_of (first.now ++ second.now)) }
{
    let mut candidates = Vec::new(alloc);
    push_sets(first, &mut candidates)?;
    push_sets(second, &mut candidates)?;
    Ok(candidates)
}
