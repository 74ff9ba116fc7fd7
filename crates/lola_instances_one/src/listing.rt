//! The places of the births that have a deadline at a moment.

ghost use Rattle.std.specs.Prelude.{◌≡◌, ℕ, ◌≤◌, ◌<◌, true, length, slice_index_or};
ghost use Rattle.std.specs.Vec.{vec_capacity};
ghost use Rattle.lola_value.specs.Times.{latest};
ghost use Rattle.lola_model.specs.Dues.{is_due};
ghost use Rattle.lola_instances_one.specs.Dues.{due_births};
ghost use Rattle.lola_instances_one.specs.Queues.{births_of, HasBirths, IsEntry, IsQueue};

use crate::due::is_due;
use crate::queue::Birth;
use lola_value::rate::Rate;
use std::collections::VecDeque;

// Whether a birth has a deadline at a moment. From a moment on its own is the next, until it is passed.
fn is_entry_due(entry: Birth, rates: &[Rate], passed: u64, time: u64) -> bool
    requires right { IsEntry rates.now passed entry }
    requires in_time { time ≤ latest }
    ensures { result ≡ is_due rates.now entry.born time }
{
    if passed <= time && time == entry.due {
        return true;
    }
    is_due(rates, entry.born, time)
}

// The place of a birth from a place on, looked for there and then by halves; the end, where it is not found.
fn place_from(births: &[u64], from: usize, born: u64) -> usize
    requires { from ≤ length births.now }
    ensures from { from ≤ result }
    ensures within { result ≤ length births.now }
    ensures born { (d : ℕ) → result < length births.now → slice_index_or births.now result d ≡ born }
{
    if from < births.len() && births[from] == born {
        return from;
    }
    let (_before, behind) = births.split_at(from);
    let place = from + behind.partition_point(|b| *b < born);
    if place < births.len() && births[place] == born {
        place
    } else {
        births.len()
    }
}

/// Lists the places of the births that have a deadline at a moment, from the births of the queue that are due first, and answers
/// whether it could: where these do not come in the order of the births, the list says nothing.
pub fn list_first(
    queue: &VecDeque<Birth>,
    births: &[u64],
    rates: &[Rate],
    passed: u64,
    time: u64,
    places: &mut Vec<u32>,
) -> bool
    requires queue { IsQueue rates.now passed queue.now.items }
    requires same { HasBirths births.now (births_of queue.now.items) }
    requires in_time { time ≤ latest }
    requires few { length births.now ≤ 65536 }
    requires room { length births.now ≤ vec_capacity places.old }
    ensures places { result ≡ true → places.new.items ≡ due_births rates.now time 0 births.now }
    ensures capacity { vec_capacity places.new ≡ vec_capacity places.old }
{
    places.clear();
    let mut from = 0;
    for i in 0..queue.len() {
        let entry = queue[i];
        if passed <= time && time < entry.due {
            return true;
        }
        if is_entry_due(entry, rates, passed, time) {
            let place = place_from(births, from, entry.born);
            if place == births.len() {
                return false;
            }
            places.push_reserved(place as u32);
            from = place + 1;
        }
    }
    true
}

/// Lists the places of the births that have a deadline at a moment, from all births.
pub fn list_all(births: &[u64], rates: &[Rate], time: u64, places: &mut Vec<u32>)
    requires in_time { time ≤ latest }
    requires few { length births.now ≤ 65536 }
    requires room { length births.now ≤ vec_capacity places.old }
    ensures places { places.new.items ≡ due_births rates.now time 0 births.now }
    ensures capacity { vec_capacity places.new ≡ vec_capacity places.old }
{
    places.clear();
    for (place, born) in births.iter().enumerate() {
        if is_due(rates, *born, time) {
            places.push_reserved(place as u32);
        }
    }
}
