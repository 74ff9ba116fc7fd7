//! The panes of an instance.

ghost use Rattle.std.specs.Prelude.{◌≡◌, ◌+◌, ◌<◌, ℕ, List, IfOk, length, map, min, slice_get, MatchOption};
ghost use Rattle.std.specs.List.{AllByRecursion};
ghost use Rattle.lola_value.specs.declared.text.Field.{Field};
ghost use Rattle.lola_value.specs.Naming.{Naming};
ghost use Rattle.lola_model.specs.Store.{instances_seen, start_seen, target_of};
ghost use Rattle.lola_instances.specs.Saved.{panes_at, values_by_now};
ghost use Rattle.lola_instances.specs.Stores.{bounded_remembers, bounded_seen};
ghost use Rattle.lola_save_text.specs.PaneFolds.{panes_of};
ghost use Rattle.lola_save.specs.Fitting.{IsWindowOnto};
ghost use Rattle.lola_save.specs.Taken.{ArePartsOf, HavePanes};

use lola_instances::law::panes_stand_for_values;
use lola_instances::store::BoundedStore;
use lola_save_text::forms::WindowForm;
use lola_save_text::panes::{kept_partials_are_same, newest_panes_are_same};
use lola_save_text::state::{InstancePanes, Partials, SavedPanes};
use lola_value::text::Memory;
use std::alloc::Global;

// The partial results of so many panes of a window up to its newest.
fn partials_of(
    alloc: Global,
    store: &BoundedStore,
    window: u32,
    index: u32,
    count: u32,
) -> Result<Partials, Memory>
    requires window { window < length (bounded_seen store.now).layout.windows }
    requires index { index < length (instances_seen (bounded_seen store.now) (target_of (slice_get (bounded_seen store.now).layout.windows window))) }
    requires panes { MatchOption (panes_at store.now window index) ⊥ (HavePanes count) }
    ensures { IfOk result (λ qs. MatchOption (panes_at store.now window index) ⊥ (ArePartsOf count qs)) }
{
    let mut partials = Partials::create(alloc);
    let mut left = count;
    while left > 0 {
        left -= 1;
        partials.push(store.partial(window, index, left))?;
    }
    Ok(partials)
}

// How many panes are kept where the newest has this number.
fn kept_panes(last: u64, count: u32) -> u32
    ensures { result ≡ min (last + 1) count }
{
    last.saturating_add(1).min(count as u64) as u32
}

// The panes of a window onto an instance of its target. Windows are numbered with 32 bits: one with a greater number is answered with
// `Memory`.
fn window_panes(
    alloc: Global,
    store: &BoundedStore,
    window: &WindowForm,
    stream: u32,
    index: u32,
) -> Result<Option<SavedPanes>, Memory>
    requires window { IsWindowOnto (bounded_seen store.now).layout stream window.now }
    requires index { index < length (instances_seen (bounded_seen store.now) stream) }
    ensures { IfOk result (λ panes. (names : Naming) (values : List (ℕ × Field)) → bounded_remembers store.now names stream index values
        → panes ≡ panes_of (start_seen (bounded_seen store.now)) window.now (values_by_now store.now names stream index values)) }
{
    panes_stand_for_values(store);
    newest_panes_are_same();
    kept_partials_are_same();
    if window.number > u32::MAX as usize {
        return Err(Memory);
    }
    let number = window.number as u32;
    match store.newest_pane(number, index) {
        None => Ok(None),
        Some(last) => {
            let partials = partials_of(
                alloc,
                store,
                number,
                index,
                kept_panes(last, window.count),
            )?;
            Ok(Some(SavedPanes { last, partials }))
        }
    }
}

/// The panes of an instance, for each window onto its stream.
pub(crate) fn all_panes(
    alloc: Global,
    store: &BoundedStore,
    windows: &[WindowForm],
    stream: u32,
    index: u32,
) -> Result<InstancePanes, Memory>
    requires windows { AllByRecursion (IsWindowOnto (bounded_seen store.now).layout stream) windows.now }
    requires index { index < length (instances_seen (bounded_seen store.now) stream) }
    ensures { IfOk result (λ panes. (names : Naming) (values : List (ℕ × Field)) → bounded_remembers store.now names stream index values
        → panes ≡ map (λ w. panes_of (start_seen (bounded_seen store.now)) w (values_by_now store.now names stream index values)) windows.now) }
{
    let mut panes = InstancePanes::create(alloc);
    for window in windows {
        let of_window = window_panes(alloc, store, window, stream, index)?;
        panes.push(of_window)?;
    }
    Ok(panes)
}
