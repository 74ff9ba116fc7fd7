//! The next deadline of an instance, and the instances that have one at a moment.

ghost use Rattle.std.specs.Prelude.{◌≡◌, ◌≤◌, ◌<◌, ◌+◌, ◌-◌, length};
ghost use Rattle.std.specs.Vec.{vec_capacity};
ghost use Rattle.lola_value.specs.Rate.{next_deadline};
ghost use Rattle.lola_value.specs.Times.{latest, up_to_latest};
ghost use Rattle.lola_model.specs.Activity.{is_deadline};
ghost use Rattle.lola_model.specs.Dues.{due_places, due_seen, is_due};
ghost use Rattle.lola_model.specs.NextStep.{earlier, first_due};
ghost use Rattle.lola_model.specs.Store.{instances_seen};
ghost use Rattle.lola_store.specs.Dues.{if_time, due_lives, due_of_lives, due_of_streams};
ghost use Rattle.lola_store.specs.Stores.{whole_seen};

use crate::instance::Instance;
use crate::population::Population;
use crate::store::WholeStore;
use lola_value::rate::Rate;
use lola_value::times::LATEST;

/// The earlier of two moments, if they are there.
fn earlier_of(a: Option<u64>, b: Option<u64>) -> Option<u64>
    ensures { result ≡ earlier a b }
{
    match (a, b) {
        (None, _) => b,
        (Some(_), None) => a,
        (Some(t), Some(u)) => Some(u.min(t)),
    }
}

/// The first deadline of a rate that counts from a moment, at `from` or later.
fn due_of_rate(rate: &Rate, counted: u64, from: u64) -> Option<u64>
    ensures { result ≡ up_to_latest (counted + next_deadline rate.now (from - counted - 1)) }
{
    let (_number, offset) = rate.next_after(from.saturating_sub(counted).saturating_sub(1))?;
    let time = counted as u128 + offset as u128;
    if time <= LATEST as u128 {
        Some(time as u64)
    } else {
        None
    }
}

/// Of all these rates.
fn due_of_rates(rates: &[Rate], counted: u64, from: u64) -> Option<u64>
    ensures { result ≡ if_time (first_due counted rates.now from) }
{
    let mut due = None;
    for rate in rates {
        due = earlier_of(due, due_of_rate(rate, counted, from));
    }
    due
}

/// Of all these instances, from whose births the rates count.
fn due_among(lives: &[Instance], rates: &[Rate], from: u64) -> Option<u64>
    ensures { result ≡ if_time (due_of_lives rates.now from lives.now) }
{
    let mut due = None;
    for x in lives {
        due = earlier_of(due, due_of_rates(rates, x.born, from));
    }
    due
}

/// Of the instances of all these streams.
fn due_in(streams: &[Population], from: u64) -> Option<u64>
    ensures { result ≡ if_time (due_of_streams from streams.now) }
{
    let mut due = None;
    for population in streams {
        due = earlier_of(
            due,
            due_among(
                population.lives.as_slice(),
                population.locals.as_slice(),
                from,
            ),
        );
    }
    due
}

/// The first deadline that counts from a birth, at `from` or later, of all instances that live.
pub fn local_due(s: &WholeStore, from: u64) -> Option<u64>
    ensures { result ≡ due_seen (whole_seen s.now) from }
{
    due_in(s.streams.as_slice(), from)
}

/// Whether a moment, so long after where a rate counts from, is one of its deadlines.
fn is_deadline(rate: &Rate, after: u64) -> bool
    requires { after ≤ latest }
    ensures { result ≡ is_deadline rate.now after }
{
    if after == 0 {
        return false;
    }
    match rate.next_after(after - 1) {
        Some((_number, offset)) => offset == after,
        None => false,
    }
}

/// Whether a moment is a deadline of one of these rates, counted from a birth.
fn is_due(rates: &[Rate], born: u64, time: u64) -> bool
    requires { time ≤ latest }
    ensures { result ≡ is_due rates.now born time }
{
    for rate in rates {
        if is_deadline(rate, time.saturating_sub(born)) {
            return true;
        }
    }
    false
}

/// Lists the places of these instances that have a deadline at a moment.
fn list_among(lives: &[Instance], rates: &[Rate], time: u64, places: &mut Vec<u32>)
    requires in_time { time ≤ latest }
    requires few { length lives.now ≤ 65536 }
    requires room { length lives.now ≤ vec_capacity places.old }
    ensures places { places.new.items ≡ due_lives rates.now time 0 lives.now }
    ensures capacity { vec_capacity places.new ≡ vec_capacity places.old }
{
    places.clear();
    for (place, x) in lives.iter().enumerate() {
        if is_due(rates, x.born, time) {
            places.push_reserved(place as u32);
        }
    }
}

/// Lists the places of the instances of a stream that have a deadline at a moment, of a clause that counts from their births.
pub fn list_due(s: &WholeStore, stream: u32, time: u64, places: &mut Vec<u32>)
    requires stream { stream < length (whole_seen s.now).layout.streams }
    requires in_time { time ≤ latest }
    requires room { length (instances_seen (whole_seen s.now) stream) ≤ vec_capacity places.old }
    ensures places { places.new.items ≡ due_places (whole_seen s.now) stream time }
    ensures capacity { vec_capacity places.new ≡ vec_capacity places.old }
{
    let population = &s.streams[stream as usize];
    list_among(
        population.lives.as_slice(),
        population.locals.as_slice(),
        time,
        places,
    );
}
