//! The panes of an instance are restored.

ghost use Rattle.std.specs.Prelude.{◌≡◌, ℕ, [], Option, true, OnOk, Some, length, slice_get, MatchOption};
ghost use Rattle.std.specs.List.{AllByRecursion};
ghost use Rattle.lola_model.specs.Store.{kind_in};
ghost use Rattle.lola_model.specs.declared.spec.WindowSpec.{WindowSpec};
ghost use Rattle.lola_panes.specs.Standing.{StandFor};
ghost use Rattle.lola_instances.specs.Saved.{panes_at};
ghost use Rattle.lola_instances.specs.Stores.{bounded_seen, values_kept};
ghost use Rattle.lola_save_text.specs.Fitting.{are_panes};
ghost use Rattle.lola_save_text.specs.Validity.{AllPanes};
ghost use Rattle.lola_save_text.specs.declared.forms.WindowForm.{WindowForm};
ghost use Rattle.lola_save_text.specs.declared.state.SavedPanes.{SavedPanes};
ghost use Rattle.lola_save.specs.Fitting.{AreAllOnto, IsWindowOnto};
ghost use Rattle.lola_save.specs.Loaded.{ArePanesLoaded, CanLoad, ChangesOne, IsSilentAt, times_seen};

use lola_instances::law::windows_have_own_places;
use lola_instances::store::BoundedStore;
use lola_save_text::forms::WindowForm;
use lola_save_text::state::SavedPanes;
use lola_value::text::Memory;

// Those of a window. Windows are numbered with 32 bits: one with a greater number is answered with `Memory`.
fn load_window(
    store: &mut BoundedStore,
    stream: u32,
    index: u32,
    window: &WindowForm,
    saved: &Option<SavedPanes>,
) -> Result<(), Memory>
    requires step { CanLoad (bounded_seen store.old) }
    requires silent { IsSilentAt store.old stream index }
    requires window { IsWindowOnto (bounded_seen store.old).layout stream window.now }
    requires fits { are_panes (times_seen (bounded_seen store.old)) (kind_in (slice_get (bounded_seen store.old).layout.streams stream)) window.now saved.now ≡ true }
    requires none { MatchOption (panes_at store.old window.now.number index) ⊥ (λ p. StandFor p []) }
    ensures one { OnOk result (ChangesOne stream index store.old store.new) }
    ensures values { OnOk result (values_kept store.new stream index ≡ values_kept store.old stream index) }
    ensures others { OnOk result ((v : ℕ) (a : WindowSpec) → slice_get (bounded_seen store.old).layout.windows v ≡ Some a → a.target ≡ stream → (v ≡ window.now.number → ⊥)
        → panes_at store.new v index ≡ panes_at store.old v index) }
    ensures loaded { OnOk result (ArePanesLoaded store.new index (kind_in (slice_get (bounded_seen store.old).layout.streams stream)) window.now saved.now) }
{
    let Some(panes) = saved else {
        return Ok(());
    };
    if window.number > u32::MAX as usize {
        return Err(Memory);
    }
    windows_have_own_places(store);
    store.restore_panes(
        window.number as u32,
        index,
        panes.last,
        panes.partials.as_slice(),
    );
    Ok(())
}

/// Those of each window onto its stream.
pub(crate) fn load_panes(
    store: &mut BoundedStore,
    stream: u32,
    index: u32,
    windows: &[WindowForm],
    saved: &[Option<SavedPanes>],
) -> Result<(), Memory>
    requires step { CanLoad (bounded_seen store.old) }
    requires silent { IsSilentAt store.old stream index }
    requires windows { AllByRecursion (IsWindowOnto (bounded_seen store.old).layout stream) windows.now }
    requires onto { AreAllOnto (bounded_seen store.old).layout stream windows.now }
    requires fit { AllPanes (times_seen (bounded_seen store.old)) (kind_in (slice_get (bounded_seen store.old).layout.streams stream)) windows.now saved.now }
    requires none { (w : ℕ) (v : WindowSpec) → slice_get (bounded_seen store.old).layout.windows w ≡ Some v → v.target ≡ stream → MatchOption (panes_at store.old w index) ⊥ (λ p. StandFor p []) }
    ensures one { OnOk result (ChangesOne stream index store.old store.new) }
    ensures values { OnOk result (values_kept store.new stream index ≡ values_kept store.old stream index) }
    ensures loaded { OnOk result ((k : ℕ) (w : WindowForm) (o : Option SavedPanes) → slice_get windows.now k ≡ Some w → slice_get saved.now k ≡ Some o
        → ArePanesLoaded store.new index (kind_in (slice_get (bounded_seen store.old).layout.streams stream)) w o) }
{
    for (place, window) in windows.iter().enumerate() {
        load_window(store, stream, index, window, &saved[place])?;
    }
    Ok(())
}
