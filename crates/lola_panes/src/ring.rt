//! A ring of panes, the oldest first.

ghost use Rattle.std.specs.Prelude.{◌≡◌, ◌≤◌, ◌<◌, length, nat_eq, nat_lt, slice_get};
ghost use Rattle.circular_buffer.specs.Buffer.{buffer, keep_last, last_item};
ghost use Rattle.lola_panes.specs.Rings.{new_pane, with_value, noted, is_last_beaten, unbeaten, bettered, left_count, extreme_of, numbered, count_before, total_before, Rising};

use crate::answer::is_extreme;
use crate::pane::{Pane, beats, better_of, is_past};
use circular_buffer::HeapCircularBuffer;
use lola_model::spec::Agg;

/// A pane with one value, behind `added` values of this total.
pub fn pane_with(number: u64, added: u64, total: i128, weight: i128) -> Pane
    ensures { result ≡ new_pane number added total weight }
{
    Pane {
        number,
        count_before: added,
        total_before: total,
        extreme: weight,
    }
}

/// A pane with one more value.
fn pane_and(aggregation: Agg, p: Pane, weight: i128) -> Pane
    ensures { result ≡ with_value aggregation weight p }
{
    Pane {
        number: p.number,
        count_before: p.count_before,
        total_before: p.total_before,
        extreme: better_of(aggregation, p.extreme, weight),
    }
}

// Whether a value of the pane with this number goes into a pane.
fn is_of(p: Pane, number: u64) -> bool
    ensures { result ≡ nat_eq p.number number }
{
    p.number == number
}

/// Puts one more value in the last pane, or in a new one where that has another number. The oldest pane goes where
/// there is no room.
pub fn note(
    ring: &mut HeapCircularBuffer<Pane>,
    aggregation: Agg,
    number: u64,
    added: u64,
    total: i128,
    weight: i128,
)
    ensures { ring.new ≡ buffer (keep_last ring.old.capacity (noted aggregation number added total weight ring.old.items)) ring.old.capacity }
{
    match ring.back().copied() {
        None => {
            ring.push_back(pane_with(number, added, total, weight));
        }
        Some(last) => {
            if is_of(last, number) {
                ring.pop_back();
                ring.push_back(pane_and(aggregation, last, weight));
            } else {
                ring.push_back(pane_with(number, added, total, weight));
            }
        }
    }
}

// Whether there is a last pane, and its extreme is not better than a number.
fn is_end_beaten(ring: &HeapCircularBuffer<Pane>, aggregation: Agg, weight: i128) -> bool
    ensures { result ≡ is_last_beaten aggregation weight (last_item ring.now.items) }
{
    match ring.back().copied() {
        None => false,
        Some(last) => !beats(aggregation, last.extreme, weight),
    }
}

/// Takes away the panes at the end that are not better than a number, which outlives them in each window.
pub fn drop_beaten(ring: &mut HeapCircularBuffer<Pane>, aggregation: Agg, weight: i128)
    ensures { ring.new ≡ buffer (unbeaten aggregation weight ring.old.items) ring.old.capacity }
{
    while is_end_beaten(ring, aggregation, weight) {
        ring.pop_back();
    }
}

/// Puts one more value among the best of the panes, where the answer is one of the values: those go that no window needs once
/// it has the value. Each pane goes once, so that on average this takes as long however many there are.
pub fn keep_best(best: &mut HeapCircularBuffer<Pane>, aggregation: Agg, number: u64, weight: i128)
    ensures { best.new ≡ buffer (bettered best.old.capacity aggregation number weight best.old.items) best.old.capacity }
{
    if is_extreme(aggregation) {
        drop_beaten(best, aggregation, weight);
        note(best, aggregation, number, 0, 0, weight);
    }
}

// Whether the pane at a place has left the window that ends with pane `k`.
fn has_left(ring: &HeapCircularBuffer<Pane>, place: usize, count: u32, k: u64) -> bool
    requires rising { Rising 0 ring.now.items }
    requires place { place < length ring.now.items }
    ensures { result ≡ nat_lt place (left_count count k ring.now.items) }
{
    match ring.get(place) {
        None => false,
        Some(p) => is_past(p.number, count, k),
    }
}

// A place from the first one on and before the last: as far behind the first as that lies behind the front, at most half way. So
// what stands near the front is found soon.
fn place_between(low: usize, high: usize) -> usize
    requires { low < high }
    ensures from { low ≤ result }
    ensures before { result < high }
{
    low + low.min((high - low) / 2)
}

/// How many panes have left the window that ends with pane `k`: numbers rise, so they stand in front, and few leave at a time.
pub fn left(ring: &HeapCircularBuffer<Pane>, count: u32, k: u64) -> usize
    requires { Rising 0 ring.now.items }
    ensures { result ≡ left_count count k ring.now.items }
{
    let mut low = 0;
    let mut high = ring.len();
    while low < high {
        let middle = place_between(low, high);
        if has_left(ring, middle, count, k) {
            low = middle + 1;
        } else {
            high = middle;
        }
    }
    low
}

/// The extreme of the pane at a place; `None` past the end.
pub fn extreme_at(ring: &HeapCircularBuffer<Pane>, place: usize) -> Option<i128>
    ensures { result ≡ extreme_of (slice_get ring.now.items place) }
{
    match ring.get(place) {
        None => None,
        Some(p) => Some(p.extreme),
    }
}

/// The pane at a place, where it has this number.
pub fn pane_at(ring: &HeapCircularBuffer<Pane>, place: usize, number: u64) -> Option<Pane>
    ensures { result ≡ numbered number (slice_get ring.now.items place) }
{
    match ring.get(place).copied() {
        None => None,
        Some(p) => if is_of(p, number) { Some(p) } else { None },
    }
}

/// How many values come before the pane at a place, of so many in all.
pub fn count_before(ring: &HeapCircularBuffer<Pane>, place: usize, added: u64) -> u64
    ensures { result ≡ count_before added (slice_get ring.now.items place) }
{
    match ring.get(place) {
        None => added,
        Some(p) => p.count_before,
    }
}

/// The total of the values before the pane at a place, of this total in all.
pub fn total_before(ring: &HeapCircularBuffer<Pane>, place: usize, total: i128) -> i128
    ensures { result ≡ total_before total (slice_get ring.now.items place) }
{
    match ring.get(place) {
        None => total,
        Some(p) => p.total_before,
    }
}
