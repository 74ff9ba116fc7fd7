//! Rings of panes from partial results.

ghost use Rattle.std.specs.Prelude.{◌≡◌, ◌≤◌, ◌<◌, ◌+◌, ◌++◌, ◌^◌, [], length, pos, slice_get, Some};
ghost use Rattle.std.specs.List.{sum_by};
ghost use Rattle.circular_buffer.specs.Buffer.{buffer};
ghost use Rattle.lola_panes.specs.Parts.{counted, total_size};
ghost use Rattle.lola_panes.specs.Restored.{first_offset, restored_pane, restored_panes, bettered_by, restored_best, whole_of};

use crate::answer::plus;
use crate::pane::Pane;
use crate::partial::{Partial, counted, extreme_in, totalled};
use crate::ring::{drop_beaten, note, pane_with};
use circular_buffer::HeapCircularBuffer;
use lola_model::spec::Agg;

/// The least offset that lies in pane `number`.
pub fn first_offset(pane: u64, number: u64) -> u64
    requires { first_offset pane number < 2 ^ 64 }
    ensures { result ≡ first_offset pane number }
{
    if number == 0 {
        0
    } else {
        (number - 1) * pane + 1
    }
}

/// The number of the first of so many panes up to pane `last`.
pub fn first_number(last: u64, count: usize) -> u64
    requires low { 1 ≤ count }
    requires high { count ≤ last + 1 }
    ensures { result + count ≡ last + 1 }
{
    last - (count as u64 - 1)
}

/// How many values some partial results count together.
pub fn count_all(aggregation: Agg, partials: &[Partial]) -> u64
    requires { sum_by (counted aggregation) partials.now < 2 ^ 64 }
    ensures { result ≡ sum_by (counted aggregation) partials.now }
{
    let mut count = 0;
    for q in partials {
        count += counted(aggregation, *q);
    }
    count
}

// One more pane, if it is kept.
fn put(
    ring: &mut HeapCircularBuffer<Pane>,
    number: u64,
    count: u64,
    total: i128,
    best: Option<i128>,
)
    requires { length ring.old.items < ring.old.capacity }
    ensures { ring.new ≡ buffer (ring.old.items ++ restored_pane number count total best) ring.old.capacity }
{
    match best {
        None => {}
        Some(z) => {
            ring.push_back(pane_with(number, count, total, z));
        }
    }
}

// The partial result at a place.
fn at(partials: &[Partial], i: usize) -> Partial
    requires { i < length partials.now }
    ensures { slice_get partials.now i ≡ Some result }
{
    partials[i]
}

/// The panes of some partial results, of which the first has this number and comes behind `before` values, in place of those
/// that are there. Answers what the partial results add to a total together.
pub fn refill(
    ring: &mut HeapCircularBuffer<Pane>,
    aggregation: Agg,
    first: u64,
    before: u64,
    partials: &[Partial],
) -> i128
    requires room { length partials.now ≤ ring.old.capacity }
    requires numbers { first + length partials.now ≤ 2 ^ 64 }
    requires counts { before + sum_by (counted aggregation) partials.now < 2 ^ 64 }
    requires totals { sum_by (total_size aggregation) partials.now + length partials.now < 2 ^ 127 }
    ensures panes { ring.new ≡ buffer (restored_panes aggregation first before (pos 0) partials.now) ring.old.capacity }
    ensures whole { result ≡ whole_of aggregation partials.now }
{
    ring.clear();
    let mut count = before;
    let mut total = 0;
    for i in 0..partials.len() {
        let q = at(partials, i);
        put(ring, first + i as u64, count, total, extreme_in(q));
        count += counted(aggregation, q);
        total = plus(total, totalled(aggregation, q));
    }
    total
}

// One more pane among the best, if it is kept.
fn put_best(
    best: &mut HeapCircularBuffer<Pane>,
    aggregation: Agg,
    number: u64,
    extreme: Option<i128>,
)
    ensures { best.new ≡ buffer (bettered_by best.old.capacity aggregation number extreme best.old.items) best.old.capacity }
{
    match extreme {
        None => {}
        Some(z) => {
            drop_beaten(best, aggregation, z);
            note(best, aggregation, number, 0, 0, z);
        }
    }
}

/// The best of the panes of some partial results, of which the first has this number, in place of those that are there.
pub fn rebuild(
    best: &mut HeapCircularBuffer<Pane>,
    aggregation: Agg,
    first: u64,
    partials: &[Partial],
)
    requires { first + length partials.now ≤ 2 ^ 64 }
    ensures { best.new ≡ buffer (restored_best best.old.capacity aggregation first partials.now []) best.old.capacity }
{
    best.clear();
    for i in 0..partials.len() {
        put_best(
            best,
            aggregation,
            first + i as u64,
            extreme_in(at(partials, i)),
        );
    }
}
