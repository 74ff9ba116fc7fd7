//! The calls that change instances.

ghost use Rattle.std.specs.Prelude.{◌≡◌, ◌<◌, ◌≤◌, [], ℕ, List, true, IsTrue, not, length, slice_get, vec_len};
ghost use Rattle.std.specs.Vec.{vec_capacity};
ghost use Rattle.lola_value.specs.declared.text.Field.{Field};
ghost use Rattle.lola_value.specs.declared.value.Outcome.TheVariants as outcome;
ghost use Rattle.lola_value.specs.Naming.{Naming, IsHeld};
ghost use Rattle.lola_model.specs.Reading.{KeepsAll, KeepsOthers};
ghost use Rattle.lola_model.specs.Spawning.{has_room, spawn_end};
ghost use Rattle.lola_model.specs.Store.{Fits, IsRunning, instances_seen, now_seen, is_silent, is_of_kind, kind_in, place_of, spawns_in, has_spawned, time_seen, after_outcome, after_poison_stream, after_spawn, after_close};
ghost use Rattle.lola_store.specs.Stores.{whole_seen, whole_remembers};
ghost use Rattle.lola_store.specs.Populations.{Bore};

use crate::instance::Instance;
use crate::population::Population;
use crate::reading::{found, instances};
use crate::store::WholeStore;
use lola_instances::phase::time_of;
use lola_model::store::SpawnEnd;
use lola_value::value::{Outcome, Params, Value};

/// Gives an instance its value of this step.
pub fn push(s: &mut WholeStore, stream: u32, index: u32, value: Value)
    requires running { IsRunning (whole_seen s.old) }
    requires index { index < length (instances_seen (whole_seen s.old) stream) }
    requires silent { IsTrue (is_silent (now_seen (whole_seen s.old) stream index)) }
    requires kind { IsTrue (is_of_kind (kind_in (slice_get (whole_seen s.old).layout.streams stream)) value) }
    ensures seen { whole_seen s.new ≡ after_outcome (whole_seen s.old) stream index (outcome.Value value) }
    ensures past { (names : Naming) (n i : ℕ) (values : List (ℕ × Field)) → IsHeld names value
        → whole_remembers s.old names n i values → whole_remembers s.new names n i values }
{
    let time = time_of(s.phase);
    let step = s.step;
    let population = &mut s.streams[stream as usize];
    let life = &mut population.lives[index as usize];
    life.push(step, time, value);
}

/// Poisons an instance in this step.
pub fn poison(s: &mut WholeStore, stream: u32, index: u32)
    requires running { IsRunning (whole_seen s.old) }
    requires index { index < length (instances_seen (whole_seen s.old) stream) }
    requires silent { IsTrue (is_silent (now_seen (whole_seen s.old) stream index)) }
    ensures seen { whole_seen s.new ≡ after_outcome (whole_seen s.old) stream index outcome.Poison }
    ensures past { KeepsAll (whole_remembers s.old) (whole_remembers s.new) }
{
    let step = s.step;
    let population = &mut s.streams[stream as usize];
    let life = &mut population.lives[index as usize];
    life.poison(step);
}

/// Poisons a stream in this step.
pub fn poison_stream(s: &mut WholeStore, stream: u32)
    requires running { IsRunning (whole_seen s.old) }
    requires stream { stream < length (whole_seen s.old).layout.streams }
    ensures seen { whole_seen s.new ≡ after_poison_stream (whole_seen s.old) stream }
    ensures past { KeepsAll (whole_remembers s.old) (whole_remembers s.new) }
{
    let step = s.step;
    let population = &mut s.streams[stream as usize];
    population.bad_at = step;
}

/// Takes an instance away with its values.
pub fn close(s: &mut WholeStore, stream: u32, index: u32)
    requires running { IsRunning (whole_seen s.old) }
    requires spawns { IsTrue (spawns_in (slice_get (whole_seen s.old).layout.streams stream)) }
    requires index { index < length (instances_seen (whole_seen s.old) stream) }
    ensures seen { whole_seen s.new ≡ after_close (whole_seen s.old) stream index }
    ensures past { KeepsOthers stream index (whole_remembers s.old) (whole_remembers s.new) }
{
    let population = &mut s.streams[stream as usize];
    let _gone = population.lives.remove(index as usize);
}

/// An instance is born from a spare at a time, with no values.
fn bear(population: &mut Population, step: u64, time: u64, params: Params)
    requires spare { 1 ≤ length population.old.spares.items }
    requires room { vec_len population.old.lives < vec_capacity population.old.lives }
    ensures { Bore step time params population.old population.new }
{
    population.spawned_at = step;
    if let Some(values) = population.spares.pop() {
        population.lives.push_reserved(Instance {
            params,
            born: time,
            told_at: 0,
            outcome: Outcome::Missing,
            values,
        });
    }
}

/// When an instance is born that is born in this step.
fn birth(s: &WholeStore) -> u64
    ensures { result ≡ time_seen (whole_seen s.now) }
{
    time_of(s.phase)
}

/// An instance is born at the time of this step. It does not live yet, and there is room.
fn bear_at(s: &mut WholeStore, stream: u32, params: Params)
    requires running { IsRunning (whole_seen s.old) }
    requires fits { Fits (whole_seen s.old) stream params }
    requires spawns { IsTrue (spawns_in (slice_get (whole_seen s.old).layout.streams stream)) }
    requires first { IsTrue (not (has_spawned (slice_get (whole_seen s.old).streams stream))) }
    requires few { length (instances_seen (whole_seen s.old) stream) < 65536 }
    ensures seen { whole_seen s.new ≡ after_spawn (whole_seen s.old) stream params true }
    ensures past { KeepsAll (whole_remembers s.old) (whole_remembers s.new) }
    ensures new { (names : Naming) → whole_remembers s.new names stream (length (instances_seen (whole_seen s.old) stream)) [] }
{
    let time = birth(s);
    let step = s.step;
    let population = &mut s.streams[stream as usize];
    bear(population, step, time, params);
}

/// A new instance, if it does not live and there is room.
pub fn spawn(s: &mut WholeStore, stream: u32, params: Params) -> SpawnEnd
    requires running { IsRunning (whole_seen s.old) }
    requires fits { Fits (whole_seen s.old) stream params }
    requires spawns { IsTrue (spawns_in (slice_get (whole_seen s.old).layout.streams stream)) }
    requires first { IsTrue (not (has_spawned (slice_get (whole_seen s.old).streams stream))) }
    ensures end { result ≡ spawn_end (place_of (whole_seen s.old) stream params) (length (instances_seen (whole_seen s.old) stream)) }
    ensures seen { whole_seen s.new ≡ after_spawn (whole_seen s.old) stream params (has_room (place_of (whole_seen s.old) stream params) (length (instances_seen (whole_seen s.old) stream))) }
    ensures past { KeepsAll (whole_remembers s.old) (whole_remembers s.new) }
    ensures new { (names : Naming) → IsTrue (has_room (place_of (whole_seen s.old) stream params) (length (instances_seen (whole_seen s.old) stream)))
        → whole_remembers s.new names stream (length (instances_seen (whole_seen s.old) stream)) [] }
{
    if found(s, stream, &params).is_some() {
        return SpawnEnd::Living;
    }
    if instances(s, stream) >= 65536 {
        return SpawnEnd::TooMany;
    }
    bear_at(s, stream, params);
    SpawnEnd::Born
}
