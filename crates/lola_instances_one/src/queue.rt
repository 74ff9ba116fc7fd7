//! A queue of births, in the order of their next deadlines.

ghost use Rattle.std.specs.Prelude.{◌≡◌, ℕ, ◌≤◌, ◌<◌, ◌∷◌, true, false, slice_index_or, Contains, IfSome};
ghost use Rattle.std.specs.List.Sorted.{IsPermutation};
ghost use Rattle.std.specs.VecDeque.{deque_capacity, deque_len};
ghost use Rattle.lola_instances_one.specs.Moments.{least_due};
ghost use Rattle.lola_instances_one.specs.Queues.{births_of, AreInOrder, IsQueue, IsWithout};

use crate::due::{AFTER_LATEST, next_due};
use lola_value::rate::Rate;
use std::collections::VecDeque;

/// The birth of an instance, and its next deadline.
#[derive(Clone, Copy)]
pub struct Birth {
    pub due: u64,
    pub born: u64,
}

// Whether a birth stands before another: it is due earlier, or at the same moment and is no later.
fn stands_before(entry: Birth, other: Birth) -> bool
    ensures before { result ≡ true → entry.due ≤ other.due }
    ensures behind { result ≡ false → other.due ≤ entry.due }
{
    entry.due < other.due || entry.due == other.due && entry.born <= other.born
}

// The place of a birth behind those that are due earlier, and among those that are due then in the order of births; it is found by
// halves.
fn place_of(queue: &VecDeque<Birth>, entry: Birth) -> usize
    requires { AreInOrder queue.now.items }
    ensures within { result ≤ deque_len queue.now }
    ensures before { (k : ℕ) (d : Birth) → k < result → (slice_index_or queue.now.items k d).due ≤ entry.due }
    ensures behind { (k : ℕ) (d : Birth) → result ≤ k → k < deque_len queue.now → entry.due ≤ (slice_index_or queue.now.items k d).due }
{
    let mut low = 0;
    let mut high = queue.len();
    while low < high {
        let middle = low + (high - low) / 2;
        if stands_before(queue[middle], entry) {
            low = middle + 1;
        } else {
            high = middle;
        }
    }
    low
}

/// One more birth, in room that was made.
pub fn put(queue: &mut VecDeque<Birth>, entry: Birth)
    requires room { deque_len queue.old < deque_capacity queue.old }
    requires order { AreInOrder queue.old.items }
    ensures order { AreInOrder queue.new.items }
    ensures entries { IsPermutation (entry ∷ queue.old.items) queue.new.items }
    ensures capacity { deque_capacity queue.old ≤ deque_capacity queue.new }
{
    let place = place_of(queue, entry);
    match queue.insert(place, entry) {
        Ok(()) => {}
        Err(_) => {}
    }
}

// Sets the first birth to its next deadline, where it was due before a moment.
fn renew_first(queue: &mut VecDeque<Birth>, rates: &[Rate], moment: u64) -> bool
    requires { IsQueue rates.now moment queue.old.items }
    ensures queue { IsQueue rates.now moment queue.new.items }
    ensures births { IsPermutation (births_of queue.old.items) (births_of queue.new.items) }
    ensures capacity { deque_capacity queue.old ≤ deque_capacity queue.new }
{
    if queue.is_empty() {
        return false;
    }
    let first = queue[0];
    if moment <= first.due {
        return false;
    }
    let _passed = queue.pop_front();
    let born = first.born;
    let due = next_due(rates, born, moment);
    put(queue, Birth { due, born });
    true
}

/// Sets each birth that was due before a moment to its next deadline.
pub fn renew(queue: &mut VecDeque<Birth>, rates: &[Rate], moment: u64)
    requires { IsQueue rates.now moment queue.old.items }
    ensures queue { IsQueue rates.now moment queue.new.items }
    ensures births { IsPermutation (births_of queue.old.items) (births_of queue.new.items) }
    ensures capacity { deque_capacity queue.old ≤ deque_capacity queue.new }
{
    for _turn in 0..queue.len() {
        if !renew_first(queue, rates, moment) {
            return;
        }
    }
}

// The place of a birth at `born`.
fn place_born(queue: &VecDeque<Birth>, born: u64) -> usize
    requires { Contains (births_of queue.now.items) born }
    ensures within { result < deque_len queue.now }
    ensures born { (d : Birth) → (slice_index_or queue.now.items result d).born ≡ born }
{
    for i in 0..queue.len() {
        if queue[i].born == born {
            return i;
        }
    }
    unreachable!()
}

// The place of a birth at the time of this one that is due when it is, if it is found at once.
fn place_due(queue: &VecDeque<Birth>, entry: Birth) -> Option<usize>
    requires { AreInOrder queue.now.items }
    ensures within { IfSome result (λ i. i < deque_len queue.now) }
    ensures born { IfSome result (λ i. (d : Birth) → (slice_index_or queue.now.items i d).born ≡ entry.born) }
{
    let behind = place_of(queue, entry);
    if behind == 0 {
        return None;
    }
    let last = behind - 1;
    if queue[last].born == entry.born {
        Some(last)
    } else {
        None
    }
}

// The place of a birth at `born`, first looked for where it stands if it is due at `due`.
fn place_taken(queue: &VecDeque<Birth>, due: u64, born: u64) -> usize
    requires order { AreInOrder queue.now.items }
    requires born { Contains (births_of queue.now.items) born }
    ensures within { result < deque_len queue.now }
    ensures born { (d : Birth) → (slice_index_or queue.now.items result d).born ≡ born }
{
    match place_due(queue, Birth { due, born }) {
        Some(place) => place,
        None => place_born(queue, born),
    }
}

/// Takes a birth at `born` out. It is found quickly where it is due at `due`.
pub fn take_out(queue: &mut VecDeque<Birth>, due: u64, born: u64)
    requires order { AreInOrder queue.old.items }
    requires born { Contains (births_of queue.old.items) born }
    ensures without { IsWithout born queue.old.items queue.new.items }
    ensures capacity { deque_capacity queue.new ≡ deque_capacity queue.old }
{
    let place = place_taken(queue, due, born);
    let _gone = queue.remove(place);
}

/// The first deadline that is not before `from`. What was due before a moment may stand in the queue for it still; from
/// that moment on only the births that are due before `from` are counted anew.
pub fn least_from(queue: &VecDeque<Birth>, rates: &[Rate], passed: u64, from: u64) -> u64
    requires { IsQueue rates.now passed queue.now.items }
    ensures { result ≡ least_due rates.now from (births_of queue.now.items) }
{
    let mut least = AFTER_LATEST;
    for i in 0..queue.len() {
        let entry = queue[i];
        if passed <= from && from <= entry.due {
            return entry.due.min(least);
        }
        least = next_due(rates, entry.born, from).min(least);
    }
    least
}
