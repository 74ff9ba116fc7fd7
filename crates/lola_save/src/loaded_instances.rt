//! The instances of streams are restored.

ghost use Rattle.std.specs.Prelude.{◌≡◌, ◌≤◌, ◌<◌, ◌+◌, ◌^◌, ℕ, [], false, true, OnOk, Some, is_some, length, slice_get};
ghost use Rattle.lola_value.specs.Arithmetic.{all_equal};
ghost use Rattle.lola_value.specs.Naming.{Naming, read_params};
ghost use Rattle.lola_model.specs.Reading.{IsHeldBy};
ghost use Rattle.lola_model.specs.Store.{SeenInstance, instances_seen, has_spawned, time_seen, start_seen};
ghost use Rattle.lola_instances.specs.Stores.{bounded_seen};
ghost use Rattle.lola_save_text.specs.Fitting.{time_or};
ghost use Rattle.lola_save_text.specs.Validity.{AreStreams, IsBorn, IsInstance, IsStream};
ghost use Rattle.lola_save_text.specs.declared.forms.StreamForm.{StreamForm};
ghost use Rattle.lola_save_text.specs.declared.state.SavedInstance.{SavedInstance};
ghost use Rattle.lola_save.specs.Fitting.{IsFormOf, IsWholeStreamOf};
ghost use Rattle.lola_save.specs.Loaded.{AreStreamsLoaded, CanLoad, ChangesOne, ChangesStream, GoesOn, HasBirth, HasMore, HasRoom, IsBlank, IsLoaded, IsNewborn, IsOpen, IsStreamLoaded, IsUnseen, times_seen};

use crate::loaded_panes::load_panes;
use crate::loaded_values::load_values;
use crate::named::params_of;
use lola_instances::law::{
    kept_values_are_last, panes_stand_for_values, silent_remembers_by_windows,
};
use lola_instances::store::BoundedStore;
use lola_model::store::StreamStore;
use lola_save_text::forms::StreamForm;
use lola_save_text::panes::panes_are_restored;
use lola_save_text::restored::values_are_within;
use lola_save_text::state::{SavedInstance, SavedInstances};
use lola_text::TextTable;
use lola_value::text::Memory;

// An instance that has no value yet.
fn load_instance(
    store: &mut BoundedStore,
    texts: &mut TextTable,
    stream: u32,
    index: u32,
    form: &StreamForm,
    saved: &SavedInstance,
) -> Result<(), Memory>
    requires room { HasRoom texts.old }
    requires step { CanLoad (bounded_seen store.old) }
    requires form { IsWholeStreamOf (bounded_seen store.old).layout stream form.now }
    requires saved { IsInstance (times_seen (bounded_seen store.old)) form.now saved.now }
    requires blank { IsBlank store.old stream index }
    requires newborn { (x : SeenInstance) → slice_get (instances_seen (bounded_seen store.old) stream) index ≡ Some x → IsNewborn texts.old.held form.now x saved.now }
    ensures more { OnOk result (HasMore texts.old texts.new) }
    ensures one { OnOk result (ChangesOne stream index store.old store.new) }
    ensures loaded { OnOk result (IsLoaded (times_seen (bounded_seen store.old)) texts.new.held store.new stream index form.now saved.now) }
{
    kept_values_are_last(store);
    panes_stand_for_values(store);
    values_are_within();
    panes_are_restored();
    load_values(store, texts, stream, index, saved.ring.as_slice())?;
    load_panes(
        store,
        stream,
        index,
        form.windows.as_slice(),
        saved.panes.as_slice(),
    )?;
    silent_remembers_by_windows(store);
    Ok(())
}

// One more instance, of a stream with a spawn clause.
fn load_born(
    store: &mut BoundedStore,
    texts: &mut TextTable,
    stream: u32,
    form: &StreamForm,
    saved: &SavedInstance,
) -> Result<(), Memory>
    requires room { HasRoom texts.old }
    requires step { CanLoad (bounded_seen store.old) }
    requires form { IsWholeStreamOf (bounded_seen store.old).layout stream form.now }
    requires spawns { form.now.spawns ≡ true }
    requires saved { IsInstance (times_seen (bounded_seen store.old)) form.now saved.now }
    requires born { is_some saved.now.born ≡ true }
    requires unseen { IsUnseen texts.old.held store.old stream saved.now.params }
    requires space { length (instances_seen (bounded_seen store.old) stream) < 65536 }
    requires over { has_spawned (slice_get (bounded_seen store.old).streams stream) ≡ true }
    ensures more { OnOk result (HasMore texts.old texts.new) }
    ensures birth { OnOk result (HasBirth stream store.old store.new) }
    ensures loaded { OnOk result (IsLoaded (times_seen (bounded_seen store.old)) texts.new.held store.new stream (length (instances_seen (bounded_seen store.old) stream)) form.now saved.now) }
{
    let params = params_of(saved.params.as_slice(), texts)?;
    let index = store.instances(stream);
    store.restore(stream, params, saved.born.unwrap_or(0))?;
    load_instance(store, texts, stream, index, form, saved)?;
    Ok(())
}

// All instances of a stream with a spawn clause.
fn load_all_born(
    store: &mut BoundedStore,
    texts: &mut TextTable,
    stream: u32,
    form: &StreamForm,
    saved: &[SavedInstance],
) -> Result<(), Memory>
    requires room { HasRoom texts.old }
    requires step { CanLoad (bounded_seen store.old) }
    requires form { IsWholeStreamOf (bounded_seen store.old).layout stream form.now }
    requires spawns { form.now.spawns ≡ true }
    requires saved { IsStream (times_seen (bounded_seen store.old)) form.now saved.now }
    requires open { IsOpen store.old stream form.now.spawns }
    ensures more { OnOk result (HasMore texts.old texts.new) }
    ensures stream { OnOk result (ChangesStream stream store.old store.new) }
    ensures loaded { OnOk result (IsStreamLoaded (times_seen (bounded_seen store.old)) texts.new.held store.new stream form.now saved.now) }
{
    for instance in saved {
        load_born(store, texts, stream, form, instance)?;
    }
    Ok(())
}

// The one instance of a stream without a spawn clause.
fn load_plain(
    store: &mut BoundedStore,
    texts: &mut TextTable,
    stream: u32,
    form: &StreamForm,
    saved: &[SavedInstance],
) -> Result<(), Memory>
    requires room { HasRoom texts.old }
    requires step { CanLoad (bounded_seen store.old) }
    requires form { IsWholeStreamOf (bounded_seen store.old).layout stream form.now }
    requires plain { form.now.spawns ≡ false }
    requires none { form.now.parameters ≡ [] }
    requires saved { IsStream (times_seen (bounded_seen store.old)) form.now saved.now }
    requires open { IsOpen store.old stream form.now.spawns }
    ensures more { OnOk result (HasMore texts.old texts.new) }
    ensures stream { OnOk result (ChangesStream stream store.old store.new) }
    ensures loaded { OnOk result (IsStreamLoaded (times_seen (bounded_seen store.old)) texts.new.held store.new stream form.now saved.now) }
{
    load_instance(store, texts, stream, 0, form, &saved[0])?;
    Ok(())
}

// All instances of a stream.
fn load_stream(
    store: &mut BoundedStore,
    texts: &mut TextTable,
    stream: u32,
    form: &StreamForm,
    saved: &[SavedInstance],
) -> Result<(), Memory>
    requires room { HasRoom texts.old }
    requires step { CanLoad (bounded_seen store.old) }
    requires form { IsWholeStreamOf (bounded_seen store.old).layout stream form.now }
    requires plain { form.now.spawns ≡ false → form.now.parameters ≡ [] }
    requires saved { IsStream (times_seen (bounded_seen store.old)) form.now saved.now }
    requires open { IsOpen store.old stream form.now.spawns }
    ensures more { OnOk result (HasMore texts.old texts.new) }
    ensures stream { OnOk result (ChangesStream stream store.old store.new) }
    ensures loaded { OnOk result (IsStreamLoaded (times_seen (bounded_seen store.old)) texts.new.held store.new stream form.now saved.now) }
{
    if form.spawns {
        load_all_born(store, texts, stream, form, saved)
    } else {
        load_plain(store, texts, stream, form, saved)
    }
}

/// The instances of all streams.
pub(crate) fn load_streams(
    store: &mut BoundedStore,
    texts: &mut TextTable,
    forms: &[StreamForm],
    saved: &[SavedInstances],
) -> Result<(), Memory>
    requires room { HasRoom texts.old }
    requires step { CanLoad (bounded_seen store.old) }
    requires count { length forms.now ≤ 1024 }
    requires forms { (n : ℕ) (form : StreamForm) → slice_get forms.now n ≡ Some form → IsFormOf (bounded_seen store.old).layout n form }
    requires saved { AreStreams (times_seen (bounded_seen store.old)) forms.now saved.now }
    requires open { (n : ℕ) (form : StreamForm) → slice_get forms.now n ≡ Some form → IsOpen store.old n form.spawns }
    ensures more { OnOk result (HasMore texts.old texts.new) }
    ensures on { OnOk result (GoesOn store.old store.new) }
    ensures loaded { OnOk result (AreStreamsLoaded (times_seen (bounded_seen store.old)) texts.new.held store.new forms.now saved.now) }
{
    for (number, form) in forms.iter().enumerate() {
        load_stream(store, texts, number as u32, form, saved[number].as_slice())?;
    }
    Ok(())
}
