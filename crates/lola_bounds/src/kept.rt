//! How many values of each stream are kept.

ghost use Rattle.std.specs.Prelude.{◌≡◌, ◌+◌, ◌≤◌, ℕ, All, IfOk, Some, length, map, replicate, slice_get};
ghost use Rattle.lola_model.specs.Bounds.{IsKept};
ghost use Rattle.lola_bounds.specs.Offsets.{HasSmallOffsets};

use crate::offsets::{greatest_onto, raise_by_streams};
use lola_model::plan::Numbers;
use lola_model::spec::Spec;
use lola_value::text::Memory;
use std::alloc::Global;

/// How many values of a stream are kept: one, and as many more as the greatest offset onto it.
pub fn kept(spec: &Spec, stream: u32) -> u32
    requires { HasSmallOffsets spec.now }
    ensures { IsKept spec.now stream result }
{
    1 + greatest_onto(stream, spec.streams.as_slice())
}

/// One more than each of some offsets.
fn one_more(alloc: Global, greatest: &[u32]) -> Result<Numbers, Memory>
    requires { All (λ k. k ≤ 4096) greatest.now }
    ensures { IfOk result (λ numbers. numbers ≡ map (λ k. 1 + k) greatest.now) }
{
    let mut numbers = Numbers::create(alloc);
    for offset in greatest {
        numbers.push(1 + *offset)?;
    }
    Ok(numbers)
}

/// What is kept of each stream, found in room that has a 0 for each.
fn kept_in(alloc: Global, spec: &Spec, room: &mut Vec<u32>) -> Result<Numbers, Memory>
    requires small { HasSmallOffsets spec.now }
    requires room { room.old.items ≡ replicate (length spec.now.streams) 0 }
    ensures count { IfOk result (λ numbers. length numbers ≡ length spec.now.streams) }
    ensures each { IfOk result (λ numbers. (n k : ℕ) → slice_get numbers n ≡ Some k → IsKept spec.now n k) }
{
    raise_by_streams(room, spec.streams.as_slice());
    one_more(alloc, room)
}

/// How many values of each stream are kept, found in one pass over the specification.
pub fn kept_values(alloc: Global, spec: &Spec) -> Result<Numbers, Memory>
    requires { HasSmallOffsets spec.now }
    ensures count { IfOk result (λ numbers. length numbers ≡ length spec.now.streams) }
    ensures each { IfOk result (λ numbers. (n k : ℕ) → slice_get numbers n ≡ Some k → IsKept spec.now n k) }
{
    let mut room = vec![in alloc; 0; spec.streams.as_slice().len()]?;
    kept_in(alloc, spec, &mut room)
}
