//! Room for one whole step.

ghost use Rattle.std.specs.Prelude.{◌≡◌, ◌+◌, ◌≤◌, length, vec_len, OnOk, OnErr};
ghost use Rattle.std.specs.Vec.{vec_capacity};
ghost use Rattle.lola_model.specs.Reading.{KeepsAll};
ghost use Rattle.lola_model.specs.Store.{after_prepare};
ghost use Rattle.lola_instances_stream.specs.Each.{Each};
ghost use Rattle.lola_store.specs.Paired.{Paired};
ghost use Rattle.lola_store.specs.Rooms.{IsAlike, IsRoomy, IsKept, IsReady};
ghost use Rattle.lola_store.specs.Stores.{whole_seen, whole_remembers};

use crate::instance::Instance;
use crate::population::Population;
use crate::store::WholeStore;
use crate::tally::Timed;
use lola_value::text::Memory;
use std::alloc::Global;

/// Room for two more values in each instance.
fn make_each_room(lives: &mut Vec<Instance>) -> Result<(), Memory>
    ensures alike { Paired IsAlike lives.old.items lives.new.items }
    ensures len { vec_len lives.new ≡ vec_len lives.old }
    ensures capacity { vec_capacity lives.new ≡ vec_capacity lives.old }
    ensures ok { OnOk result (Each IsRoomy lives.new.items) }
{
    for i in 0..lives.len() {
        let life = &mut lives[i];
        match life.make_room() {
            Ok(()) => {}
            Err(memory) => return Err(memory),
        }
    }
    Ok(())
}

/// Room for two more instances.
fn make_lives_room(lives: &mut Vec<Instance>) -> Result<(), Memory>
    ensures items { lives.new.items ≡ lives.old.items }
    ensures len { vec_len lives.new ≡ vec_len lives.old }
    ensures capacity { vec_capacity lives.old ≤ vec_capacity lives.new }
    ensures ok { OnOk result (vec_len lives.new + 2 ≤ vec_capacity lives.new) }
{
    match lives.reserve(2) {
        Ok(()) => Ok(()),
        Err(_) => Err(Memory),
    }
}

/// One more spare, with room for two values.
fn add_spare(spares: &mut Vec<Vec<Timed>>, alloc: Global) -> Result<(), Memory>
    ensures more { length spares.old.items ≤ length spares.new.items }
    ensures ok { OnOk result (length spares.old.items + 1 ≤ length spares.new.items) }
    ensures spare { Each (λ v. (vec_len v ≡ 0) × (2 ≤ vec_capacity v)) spares.old.items → Each (λ v. (vec_len v ≡ 0) × (2 ≤ vec_capacity v)) spares.new.items }
{
    match Vec::with_capacity(alloc, 2) {
        Err(_) => Err(Memory),
        Ok(spare) => match spares.push(spare) {
            Ok(()) => Ok(()),
            Err(_) => Err(Memory),
        },
    }
}

/// Two spares at least.
fn fill_spares(spares: &mut Vec<Vec<Timed>>, alloc: Global) -> Result<(), Memory>
    ensures more { length spares.old.items ≤ length spares.new.items }
    ensures ok { OnOk result (2 ≤ length spares.new.items) }
    ensures spare { Each (λ v. (vec_len v ≡ 0) × (2 ≤ vec_capacity v)) spares.old.items → Each (λ v. (vec_len v ≡ 0) × (2 ≤ vec_capacity v)) spares.new.items }
{
    if spares.len() >= 2 {
        return Ok(());
    }
    match add_spare(spares, alloc) {
        Err(memory) => Err(memory),
        Ok(()) => add_spare(spares, alloc),
    }
}

/// Room for a step in a stream that spawns.
fn make_births_room(population: &mut Population, alloc: Global) -> Result<(), Memory>
    ensures kept { IsKept population.old population.new }
    ensures same { population.new.lives.items ≡ population.old.lives.items }
    ensures lives { OnOk result (vec_len population.new.lives + 2 ≤ vec_capacity population.new.lives) }
    ensures spares { OnOk result (2 ≤ length population.new.spares.items) }
{
    match make_lives_room(&mut population.lives) {
        Err(memory) => Err(memory),
        Ok(()) => fill_spares(&mut population.spares, alloc),
    }
}

/// Room for a step in a stream.
fn make_ready(population: &mut Population, alloc: Global) -> Result<(), Memory>
    ensures kept { IsKept population.old population.new }
    ensures ok { OnOk result (IsReady population.new) }
{
    match make_each_room(&mut population.lives) {
        Err(memory) => Err(memory),
        Ok(()) => {
            if population.spawns {
                make_births_room(population, alloc)
            } else {
                Ok(())
            }
        }
    }
}

/// Room for a step in each stream.
fn make_all_ready(streams: &mut Vec<Population>, alloc: Global) -> Result<(), Memory>
    ensures kept { Paired IsKept streams.old.items streams.new.items }
    ensures ok { OnOk result (Each IsReady streams.new.items) }
{
    for i in 0..streams.len() {
        let population = &mut streams[i];
        match make_ready(population, alloc) {
            Ok(()) => {}
            Err(memory) => return Err(memory),
        }
    }
    Ok(())
}

/// Makes room for one whole step, so that no call of the step takes memory. It does so too where this step is not over,
/// so room is made for two values and two births.
pub fn prepare(s: &mut WholeStore) -> Result<(), Memory>
    ensures ok { OnOk result (whole_seen s.new ≡ after_prepare (whole_seen s.old)) }
    ensures err { OnErr result (whole_seen s.new ≡ whole_seen s.old) }
    ensures past { KeepsAll (whole_remembers s.old) (whole_remembers s.new) }
{
    match make_all_ready(&mut s.streams, s.alloc) {
        Err(memory) => Err(memory),
        Ok(()) => {
            s.prepared = true;
            Ok(())
        }
    }
}
