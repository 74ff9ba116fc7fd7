//! The instances of streams.

ghost use Rattle.std.specs.Prelude.{◌≡◌, ◌<◌, ◌≤◌, IfOk, Some, None, if◌then◌else◌, length, slice_get, MatchOption};
ghost use Rattle.lola_model.specs.Store.{instances_seen};
ghost use Rattle.lola_instances.specs.Stores.{bounded_remembers, bounded_seen};
ghost use Rattle.lola_save.specs.Fitting.{AreStreamsOf, IsStreamOf};
ghost use Rattle.lola_save.specs.Taken.{AreStreamsTaken, AreTaken, IsTaken};

use crate::fields::fields_of;
use crate::panes::all_panes;
use crate::values::ring_of;
use lola_engine::engine::Engine;
use lola_instances::law::kept_values_are_last;
use lola_instances::store::BoundedStore;
use lola_model::store::StreamStore;
use lola_save_text::forms::StreamForm;
use lola_save_text::state::{SavedInstance, SavedInstances, SavedStreams};
use lola_value::text::Memory;
use std::alloc::Global;

// When an instance was born, where its stream has a spawn clause.
fn birth_of(store: &BoundedStore, form: &StreamForm, stream: u32, index: u32) -> Option<u64>
    requires form { IsStreamOf (bounded_seen store.now).layout stream form.now }
    requires index { index < length (instances_seen (bounded_seen store.now) stream) }
    ensures { MatchOption (slice_get (instances_seen (bounded_seen store.now) stream) index) ⊥ (λ x. result ≡ if form.now.spawns then Some x.born else None) }
{
    if form.spawns {
        Some(store.born(stream, index))
    } else {
        None
    }
}

// An instance.
fn instance_of(
    alloc: Global,
    engine: &Engine<BoundedStore>,
    store: &BoundedStore,
    form: &StreamForm,
    stream: u32,
    index: u32,
) -> Result<SavedInstance, Memory>
    requires form { IsStreamOf (bounded_seen store.now).layout stream form.now }
    requires index { index < length (instances_seen (bounded_seen store.now) stream) }
    ensures { IfOk result (λ y. MatchOption (slice_get (instances_seen (bounded_seen store.now) stream) index) ⊥
        (λ x. IsTaken (bounded_seen store.now) (bounded_remembers store.now) engine.now.state.texts.held form.now stream index x y)) }
{
    kept_values_are_last(store);
    let born = birth_of(store, form, stream, index);
    let params = fields_of(alloc, engine, &store.params_of(stream, index))?;
    let ring = ring_of(alloc, engine, store, stream, index)?;
    let panes = all_panes(alloc, store, form.windows.as_slice(), stream, index)?;
    Ok(SavedInstance {
        born,
        params,
        ring,
        panes,
    })
}

// All instances of a stream.
fn instances_of(
    alloc: Global,
    engine: &Engine<BoundedStore>,
    store: &BoundedStore,
    form: &StreamForm,
    stream: u32,
) -> Result<SavedInstances, Memory>
    requires form { IsStreamOf (bounded_seen store.now).layout stream form.now }
    ensures { IfOk result (AreTaken (bounded_seen store.now) (bounded_remembers store.now) engine.now.state.texts.held form.now stream 0 (instances_seen (bounded_seen store.now) stream)) }
{
    let mut instances = SavedInstances::create(alloc);
    for index in 0..store.instances(stream) {
        let instance = instance_of(alloc, engine, store, form, stream, index)?;
        instances.push(instance)?;
    }
    Ok(instances)
}

/// The instances of all streams.
pub(crate) fn streams_of(
    alloc: Global,
    engine: &Engine<BoundedStore>,
    store: &BoundedStore,
    forms: &[StreamForm],
) -> Result<SavedStreams, Memory>
    requires forms { AreStreamsOf (bounded_seen store.now).layout 0 forms.now }
    requires few { length forms.now ≤ 1024 }
    requires streams { length (bounded_seen store.now).streams ≡ length forms.now }
    ensures { IfOk result (AreStreamsTaken (bounded_seen store.now) (bounded_remembers store.now) engine.now.state.texts.held 0 forms.now (bounded_seen store.now).streams) }
{
    let mut streams = SavedStreams::create(alloc);
    for (number, form) in forms.iter().enumerate() {
        let instances = instances_of(alloc, engine, store, form, number as u32)?;
        streams.push(instances)?;
    }
    Ok(streams)
}
