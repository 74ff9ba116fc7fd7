//! The calls of a store that change it, each with what becomes of the content that it stands for: whatever content it stood for
//! before, it stands for the changed one after.

ghost use Rattle.std.specs.Prelude.{◌≡◌, ◌<◌, IsTrue, not, length, slice_get, OnOk, OnErr, IsOk};
ghost use Rattle.lola_value.specs.Answer.{Given, Poisoned};
ghost use Rattle.lola_value.specs.declared.value.Outcome.TheVariants as outcome;
ghost use Rattle.lola_value.specs.Naming.{Naming, IsNaming, IsHeld, AreHeld, read, read_params, the_values};
ghost use Rattle.lola_model.specs.Content.{Content};
ghost use Rattle.lola_model.specs.Runs.{begun};
ghost use Rattle.lola_model.specs.Spawning.{has_room};
ghost use Rattle.lola_model.specs.Store.{CanBegin, Fits, IsRunning, Stands, after_begin, after_close, after_outcome, after_poison_stream, after_prepare, after_spawn, has_spawned, instances_seen, is_of_kind, is_silent, kind_in, never_spawns, now_seen, place_of, spawns_in};
ghost use Rattle.lola_step_contents.specs.Changed.{after_spawning, closed, lives_in, spawn_end_among, spoiled, told};

use lola_model::store::{SpawnEnd, StreamStore};
use lola_value::brief::BriefValue;
use lola_value::text::Memory;
use lola_value::value::Params;

/// Makes room for one whole step. The content stays, also where there is no memory.
pub fn prepare<S: StreamStore>(store: &mut S) -> Result<(), Memory>
    ensures ok { OnOk result (S.seen store.new ≡ after_prepare (S.seen store.old)) }
    ensures err { OnErr result (S.seen store.new ≡ S.seen store.old) }
    ensures bounded { IsTrue S.BOUNDED → IsTrue (never_spawns (S.seen store.old).layout.streams) → IsOk result }
    ensures stands { (names : Naming) (c : Content) → Stands names (S.remembers store.old) (S.seen store.old) c
        → Stands names (S.remembers store.new) (S.seen store.new) c }
{
    store.prepare()
}

/// Begins a step at a time in nanoseconds: what was the step's before is an earlier value now.
pub fn begin<S: StreamStore>(store: &mut S, time: u64)
    requires { CanBegin (S.seen store.old) time }
    ensures seen { S.seen store.new ≡ after_begin (S.seen store.old) time }
    ensures stands { (names : Naming) (c : Content) → Stands names (S.remembers store.old) (S.seen store.old) c
        → Stands names (S.remembers store.new) (S.seen store.new) (begun c time) }
{
    store.begin(time)
}

/// Gives an instance its value of this step.
pub fn push<S: StreamStore>(store: &mut S, stream: u32, index: u32, value: BriefValue)
    requires running { IsRunning (S.seen store.old) }
    requires index { index < length (instances_seen (S.seen store.old) stream) }
    requires silent { IsTrue (is_silent (now_seen (S.seen store.old) stream index)) }
    requires kind { IsTrue (is_of_kind (kind_in (slice_get (S.seen store.old).layout.streams stream)) value) }
    ensures seen { S.seen store.new ≡ after_outcome (S.seen store.old) stream index (outcome.Value value) }
    ensures stands { (names : Naming) (c : Content) → IsHeld names value → Stands names (S.remembers store.old) (S.seen store.old) c
        → Stands names (S.remembers store.new) (S.seen store.new) (told c stream index (Given (read names value))) }
{
    store.push(stream, index, value)
}

/// Poisons an instance in this step.
pub fn poison<S: StreamStore>(store: &mut S, stream: u32, index: u32)
    requires running { IsRunning (S.seen store.old) }
    requires index { index < length (instances_seen (S.seen store.old) stream) }
    requires silent { IsTrue (is_silent (now_seen (S.seen store.old) stream index)) }
    ensures seen { S.seen store.new ≡ after_outcome (S.seen store.old) stream index outcome.Poison }
    ensures stands { (names : Naming) (c : Content) → Stands names (S.remembers store.old) (S.seen store.old) c
        → Stands names (S.remembers store.new) (S.seen store.new) (told c stream index Poisoned) }
{
    store.poison(stream, index)
}

/// Poisons a stream in this step.
pub fn poison_stream<S: StreamStore>(store: &mut S, stream: u32)
    requires running { IsRunning (S.seen store.old) }
    requires stream { stream < length (S.seen store.old).layout.streams }
    ensures seen { S.seen store.new ≡ after_poison_stream (S.seen store.old) stream }
    ensures stands { (names : Naming) (c : Content) → Stands names (S.remembers store.old) (S.seen store.old) c
        → Stands names (S.remembers store.new) (S.seen store.new) (spoiled c stream) }
{
    store.poison_stream(stream)
}

/// A new instance, if it does not live and there is room.
pub fn spawn<S: StreamStore>(store: &mut S, stream: u32, params: Params) -> SpawnEnd
    requires running { IsRunning (S.seen store.old) }
    requires fits { Fits (S.seen store.old) stream params }
    requires spawns { IsTrue (spawns_in (slice_get (S.seen store.old).layout.streams stream)) }
    requires first { IsTrue (not (has_spawned (slice_get (S.seen store.old).streams stream))) }
    ensures seen { S.seen store.new ≡ after_spawn (S.seen store.old) stream params (has_room (place_of (S.seen store.old) stream params) (length (instances_seen (S.seen store.old) stream))) }
    ensures end { (names : Naming) (c : Content) → IsNaming names → AreHeld names (the_values params) → Stands names (S.remembers store.old) (S.seen store.old) c
        → result ≡ spawn_end_among (read_params names params) (lives_in (slice_get c.streams stream)) }
    ensures stands { (names : Naming) (c : Content) → AreHeld names (the_values params) → Stands names (S.remembers store.old) (S.seen store.old) c
        → Stands names (S.remembers store.new) (S.seen store.new) (after_spawning result c stream (read_params names params)) }
{
    store.spawn(stream, params)
}

/// Takes an instance away with its values.
pub fn close<S: StreamStore>(store: &mut S, stream: u32, index: u32)
    requires running { IsRunning (S.seen store.old) }
    requires spawns { IsTrue (spawns_in (slice_get (S.seen store.old).layout.streams stream)) }
    requires index { index < length (instances_seen (S.seen store.old) stream) }
    ensures seen { S.seen store.new ≡ after_close (S.seen store.old) stream index }
    ensures stands { (names : Naming) (c : Content) → Stands names (S.remembers store.old) (S.seen store.old) c
        → Stands names (S.remembers store.new) (S.seen store.new) (closed c stream index) }
{
    store.close(stream, index)
}
