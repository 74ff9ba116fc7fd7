//! The last values of an instance are restored.

ghost use Rattle.std.specs.Prelude.{◌≡◌, ◌≤◌, ◌<◌, [], true, IsTrue, OnOk, length, slice_get};
ghost use Rattle.std.specs.List.{list_all};
ghost use Rattle.lola_model.specs.Store.{kept_in, kind_in};
ghost use Rattle.lola_instances.specs.Stores.{bounded_seen, values_kept};
ghost use Rattle.lola_save_text.specs.Fitting.{is_value};
ghost use Rattle.lola_save.specs.Loaded.{AreValuesOf, CanLoad, ChangesOne, HasMore, HasValueMore, HasRoom, IsSilentAt, KeepsPanes};

use crate::named::value_of;
use lola_instances::store::BoundedStore;
use lola_text::TextTable;
use lola_value::brief::BriefValue;
use lola_value::text::{Field, Memory};

// One more value.
fn load_value(
    store: &mut BoundedStore,
    texts: &mut TextTable,
    stream: u32,
    index: u32,
    field: &Field,
) -> Result<(), Memory>
    requires room { HasRoom texts.old }
    requires step { CanLoad (bounded_seen store.old) }
    requires silent { IsSilentAt store.old stream index }
    requires kind { is_value (kind_in (slice_get (bounded_seen store.old).layout.streams stream)) field.now ≡ true }
    requires free { length (values_kept store.old stream index) < kept_in (slice_get (bounded_seen store.old).layout.streams stream) }
    ensures more { OnOk result (HasMore texts.old texts.new) }
    ensures one { OnOk result (ChangesOne stream index store.old store.new) }
    ensures panes { OnOk result (KeepsPanes stream index store.old store.new) }
    ensures value { OnOk result (HasValueMore texts.new.held (kind_in (slice_get (bounded_seen store.old).layout.streams stream)) field.now
        (values_kept store.old stream index) (values_kept store.new stream index)) }
{
    let value = value_of(field, texts)?;
    store.restore_value(stream, index, BriefValue::of(value));
    Ok(())
}

/// All of them, from the oldest on.
pub(crate) fn load_values(
    store: &mut BoundedStore,
    texts: &mut TextTable,
    stream: u32,
    index: u32,
    ring: &[Field],
) -> Result<(), Memory>
    requires room { HasRoom texts.old }
    requires step { CanLoad (bounded_seen store.old) }
    requires silent { IsSilentAt store.old stream index }
    requires none { values_kept store.old stream index ≡ [] }
    requires kinds { list_all (is_value (kind_in (slice_get (bounded_seen store.old).layout.streams stream))) ring.now ≡ true }
    requires few { length ring.now ≤ kept_in (slice_get (bounded_seen store.old).layout.streams stream) }
    ensures more { OnOk result (HasMore texts.old texts.new) }
    ensures one { OnOk result (ChangesOne stream index store.old store.new) }
    ensures panes { OnOk result (KeepsPanes stream index store.old store.new) }
    ensures values { OnOk result (AreValuesOf texts.new.held ring.now (values_kept store.new stream index)) }
{
    for field in ring {
        load_value(store, texts, stream, index, field)?;
    }
    Ok(())
}
