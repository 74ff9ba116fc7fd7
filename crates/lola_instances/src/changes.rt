//! The calls that change instances.

ghost use Rattle.std.specs.Prelude.{◌≡◌, ◌<◌, [], ℕ, List, IsTrue, not, length, slice_get};
ghost use Rattle.lola_value.specs.declared.text.Field.{Field};
ghost use Rattle.lola_value.specs.declared.value.Outcome.TheVariants as outcome;
ghost use Rattle.lola_value.specs.Naming.{Naming, IsHeld};
ghost use Rattle.lola_model.specs.Reading.{KeepsAll, KeepsOthers};
ghost use Rattle.lola_model.specs.Spawning.{has_room, spawn_end};
ghost use Rattle.lola_model.specs.Store.{Fits, IsRunning, instances_seen, now_seen, is_silent, is_of_kind, kind_in, place_of, spawns_in, has_spawned, after_outcome, after_poison_stream, after_spawn, after_close};
ghost use Rattle.lola_instances.specs.Phases.{time_in};
ghost use Rattle.lola_instances.specs.Stores.{bounded_seen, bounded_remembers};

use crate::phase::{StorePhase, time_of};
use crate::store::{BoundedStore, offset_of};
use lola_model::store::SpawnEnd;
use lola_value::brief::BriefValue;
use lola_value::value::Params;

/// Gives an instance its value of this step.
pub fn push(s: &mut BoundedStore, stream: u32, index: u32, value: BriefValue)
    requires running { IsRunning (bounded_seen s.old) }
    requires index { index < length (instances_seen (bounded_seen s.old) stream) }
    requires silent { IsTrue (is_silent (now_seen (bounded_seen s.old) stream index)) }
    requires kind { IsTrue (is_of_kind (kind_in (slice_get (bounded_seen s.old).layout.streams stream)) value) }
    ensures seen { bounded_seen s.new ≡ after_outcome (bounded_seen s.old) stream index (outcome.Value value) }
    ensures past { (names : Naming) (n i : ℕ) (values : List (ℕ × Field)) → IsHeld names value
        → bounded_remembers s.old names n i values → bounded_remembers s.new names n i values }
{
    let step = s.step;
    let offset = offset_of(s);
    let lives = &mut s.streams[stream as usize];
    lives.push(step, offset, index as usize, value);
}

/// Poisons an instance in this step.
pub fn poison(s: &mut BoundedStore, stream: u32, index: u32)
    requires running { IsRunning (bounded_seen s.old) }
    requires index { index < length (instances_seen (bounded_seen s.old) stream) }
    requires silent { IsTrue (is_silent (now_seen (bounded_seen s.old) stream index)) }
    ensures seen { bounded_seen s.new ≡ after_outcome (bounded_seen s.old) stream index outcome.Poison }
    ensures past { KeepsAll (bounded_remembers s.old) (bounded_remembers s.new) }
{
    let step = s.step;
    let offset = offset_of(s);
    let lives = &mut s.streams[stream as usize];
    lives.poison(step, offset, index as usize);
}

/// Poisons a stream in this step.
pub fn poison_stream(s: &mut BoundedStore, stream: u32)
    requires running { IsRunning (bounded_seen s.old) }
    requires stream { stream < length (bounded_seen s.old).layout.streams }
    ensures seen { bounded_seen s.new ≡ after_poison_stream (bounded_seen s.old) stream }
    ensures past { KeepsAll (bounded_remembers s.old) (bounded_remembers s.new) }
{
    let step = s.step;
    let lives = &mut s.streams[stream as usize];
    lives.poison_stream(step);
}

/// Takes an instance away with its values.
pub fn close(s: &mut BoundedStore, stream: u32, index: u32)
    requires running { IsRunning (bounded_seen s.old) }
    requires spawns { IsTrue (spawns_in (slice_get (bounded_seen s.old).layout.streams stream)) }
    requires index { index < length (instances_seen (bounded_seen s.old) stream) }
    ensures seen { bounded_seen s.new ≡ after_close (bounded_seen s.old) stream index }
    ensures past { KeepsOthers stream index (bounded_remembers s.old) (bounded_remembers s.new) }
{
    let lives = &mut s.streams[stream as usize];
    lives.close(index as usize);
}

/// When the instances are born that are born in this step.
fn birth_time(phase: StorePhase) -> u64
    ensures { result ≡ time_in phase }
{
    time_of(phase)
}

/// A new instance, if it does not live and there is room.
pub fn spawn(s: &mut BoundedStore, stream: u32, params: Params) -> SpawnEnd
    requires running { IsRunning (bounded_seen s.old) }
    requires fits { Fits (bounded_seen s.old) stream params }
    requires spawns { IsTrue (spawns_in (slice_get (bounded_seen s.old).layout.streams stream)) }
    requires first { IsTrue (not (has_spawned (slice_get (bounded_seen s.old).streams stream))) }
    ensures end { result ≡ spawn_end (place_of (bounded_seen s.old) stream params) (length (instances_seen (bounded_seen s.old) stream)) }
    ensures seen { bounded_seen s.new ≡ after_spawn (bounded_seen s.old) stream params (has_room (place_of (bounded_seen s.old) stream params) (length (instances_seen (bounded_seen s.old) stream))) }
    ensures past { KeepsAll (bounded_remembers s.old) (bounded_remembers s.new) }
    ensures new { (names : Naming) → IsTrue (has_room (place_of (bounded_seen s.old) stream params) (length (instances_seen (bounded_seen s.old) stream)))
        → bounded_remembers s.new names stream (length (instances_seen (bounded_seen s.old) stream)) [] }
{
    let step = s.step;
    let offset = offset_of(s);
    let time = birth_time(s.phase);
    let lives = &mut s.streams[stream as usize];
    lives.spawn(step, offset, time, params)
}
