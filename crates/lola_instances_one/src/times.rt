//! The next deadline of the instances of a stream.

ghost use Rattle.std.specs.Prelude.{◌≡◌, ◌≤◌, ◌<◌, ◌+◌, ◌++◌, ◌∷◌, [], true, length, remove, option_and_then, OnOk};
ghost use Rattle.std.specs.Vec.{vec_capacity};
ghost use Rattle.std.specs.VecDeque.{deque_capacity};
ghost use Rattle.lola_value.specs.Times.{latest, up_to_latest};
ghost use Rattle.lola_instances_one.specs.Dues.{due_births, due_of_births, is_timed};

use crate::due::next_due;
use crate::listing::{list_all, list_first};
use crate::queue::{Birth, least_from, put, renew, take_out};
use lola_value::rate::Rate;
use lola_value::text::Memory;
use lola_value::times::LATEST;
use std::alloc::Global;
use std::collections::VecDeque;
use std::marker::Model;

/// The births of the instances of a stream, in their order, and the deadlines of rates that count from them. Without a rate
/// nothing is kept.
#[derive(Drop)]
pub struct DueTimes {
    rates: Vec<Rate>,
    births: Vec<u64>,
    // of each birth the next deadline as of this moment, or one that was due before it
    passed: u64,
    queue: VecDeque<Birth>,
    room: usize,
}

impl Model for DueTimes {
    ghost use Rattle.std.specs.Vec.{vec_capacity};
    ghost use Rattle.std.specs.VecDeque.{deque_capacity};
    ghost use Rattle.lola_instances_one.specs.Dues.{Timetable};

    ghost Value = { Timetable };

    ghost use Rattle.lola_instances_one.specs.Queues.{IsTimetable};

    ghost view = { λ d. record { rates = d.rates.items; births = d.births.items; room = d.room } };

    ghost invariant = { λ d. IsTimetable d.rates.items d.passed d.births.items d.queue.items d.room (vec_capacity d.births) (deque_capacity d.queue) };
}

impl DueTimes {
    /// Of no instance yet. It takes no memory.
    pub fn create(alloc: Global, rates: Vec<Rate>) -> DueTimes
        ensures { result ≡ record { rates = rates.items; births = []; room = 0 } }
    {
        DueTimes {
            rates,
            births: Vec::new(alloc),
            passed: 0,
            queue: VecDeque::new(alloc),
            room: 0,
        }
    }

    /// Whether some rate counts from births.
    pub fn is_timed(&self) -> bool
        ensures { result ≡ is_timed self.now.rates }
    {
        !self.rates.is_empty()
    }

    /// Makes room for so many more births, where some rate counts from them.
    pub fn make_room(&mut self, more: usize) -> Result<(), Memory>
        ensures rates { self.new.rates ≡ self.old.rates }
        ensures births { self.new.births ≡ self.old.births }
        ensures room { self.old.room ≤ self.new.room }
        ensures ok { OnOk result (is_timed self.old.rates ≡ true → more ≤ self.new.room) }
    {
        if self.rates.is_empty() || more <= self.room {
            return Ok(());
        }
        match reserve(&mut self.births, &mut self.queue, more) {
            Ok(()) => {
                self.room = more;
                Ok(())
            }
            Err(memory) => Err(memory),
        }
    }

    /// One more birth, behind the others, in room that was made.
    pub fn add(&mut self, born: u64)
        requires { is_timed self.old.rates ≡ true → 1 ≤ self.old.room }
        ensures rates { self.new.rates ≡ self.old.rates }
        ensures births { is_timed self.old.rates ≡ true → self.new.births ≡ self.old.births ++ born ∷ [] }
        ensures room { self.old.room ≤ self.new.room + 1 }
    {
        if self.rates.is_empty() {
            return;
        }
        let due = next_due(self.rates.as_slice(), born, self.passed);
        self.births.push_reserved(born);
        put(&mut self.queue, Birth { due, born });
        self.room -= 1;
    }

    /// Takes the birth at a place away; later ones move up by one.
    pub fn remove(&mut self, index: usize)
        requires { is_timed self.old.rates ≡ true → index < length self.old.births }
        ensures rates { self.new.rates ≡ self.old.rates }
        ensures births { is_timed self.old.rates ≡ true → self.new.births ≡ remove self.old.births index }
        ensures room { self.new.room ≡ self.old.room }
    {
        if self.rates.is_empty() {
            return;
        }
        let born = self.births.remove(index);
        let due = next_due(self.rates.as_slice(), born, self.passed);
        take_out(&mut self.queue, due, born);
    }

    /// Deadlines before a moment are passed: `next` is quick from that moment on.
    pub fn pass(&mut self, moment: u64)
        ensures { self.new ≡ self.old }
    {
        if moment <= self.passed {
            return;
        }
        renew(&mut self.queue, self.rates.as_slice(), moment);
        self.passed = moment;
    }

    /// The first deadline that is at `from` or later. There is none exactly where there is none up to `LATEST`.
    pub fn next(&self, from: u64) -> Option<u64>
        ensures { result ≡ option_and_then up_to_latest (due_of_births self.now.rates from self.now.births) }
    {
        let least = least_from(&self.queue, self.rates.as_slice(), self.passed, from);
        if least <= LATEST { Some(least) } else { None }
    }

    /// Lists the places of the births that have a deadline at a moment, in their order, in a list that has the room. It is quick where
    /// the deadlines before that moment are passed and births were added in the order of time.
    pub fn list(&self, time: u64, places: &mut Vec<u32>)
        requires in_time { time ≤ latest }
        requires few { is_timed self.now.rates ≡ true → length self.now.births ≤ 65536 }
        requires room { is_timed self.now.rates ≡ true → length self.now.births ≤ vec_capacity places.old }
        ensures places { places.new.items ≡ due_births self.now.rates time 0 self.now.births }
        ensures capacity { vec_capacity places.new ≡ vec_capacity places.old }
    {
        if !self.is_timed() {
            places.clear();
            return;
        }
        let rates = self.rates.as_slice();
        let births = self.births.as_slice();
        if !list_first(&self.queue, births, rates, self.passed, time, places) {
            list_all(births, rates, time, places);
        }
    }
}

// Room for so many more births, and in the queue too.
fn reserve(births: &mut Vec<u64>, queue: &mut VecDeque<Birth>, more: usize) -> Result<(), Memory>
    ensures births { births.new.items ≡ births.old.items }
    ensures queue { queue.new.items ≡ queue.old.items }
    ensures births_capacity { vec_capacity births.old ≤ vec_capacity births.new }
    ensures queue_capacity { deque_capacity queue.old ≤ deque_capacity queue.new }
    ensures ok { OnOk result (length births.new.items + more ≤ vec_capacity births.new) }
    ensures queue_ok { OnOk result (length queue.new.items + more ≤ deque_capacity queue.new) }
{
    match births.reserve(more) {
        Err(_) => Err(Memory),
        Ok(()) => match queue.reserve(more) {
            Err(_) => Err(Memory),
            Ok(()) => Ok(()),
        },
    }
}
