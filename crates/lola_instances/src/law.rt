//! Laws of the definitions. A law is a function that does nothing: what it ensures is the law, and
//! its proof is proved with the crate.

ghost use Rattle.std.specs.Prelude.{◌≡◌, ◌+◌, ℕ, List, None, Some, IsTrue, MatchOption, map, slice_get};
ghost use Rattle.circular_buffer.specs.Buffer.{keep_last};
ghost use Rattle.lola_value.specs.declared.text.Field.{Field};
ghost use Rattle.lola_value.specs.Naming.{Naming, read};
ghost use Rattle.lola_model.specs.Acceptance.{IsAccepted};
ghost use Rattle.lola_model.specs.Store.{Layout, Running, Started, is_silent, kept_in, new_seen, now_seen, start_seen, target_of};
ghost use Rattle.lola_model.specs.declared.plan.PaneSize.{PaneSize};
ghost use Rattle.lola_model.specs.declared.spec.WindowSpec.{WindowSpec};
ghost use Rattle.lola_panes.specs.declared.partial.Partial.{Partial};
ghost use Rattle.lola_panes.specs.Standing.{Partials, StandFor};
ghost use Rattle.lola_instances_one.specs.Holdings.{Holdings};
ghost use Rattle.lola_instances_one.specs.Memories.{shifted};
ghost use Rattle.lola_instances_one.specs.Saved.{MayHaveHad, WereRestored};
ghost use Rattle.lola_instances.specs.Opening.{IsStorable};
ghost use Rattle.lola_instances.specs.Restoring.{HasPanesOf, IsInstanceChanged, after_resume};
ghost use Rattle.lola_instances.specs.Saved.{MayHaveHadIn, instance_at, panes_at, places_in, values_by_now};
ghost use Rattle.lola_instances.specs.Stores.{bounded_seen, bounded_remembers, values_kept};

use crate::store::BoundedStore;
use lola_model::plan::Plan;

/// A bounded store can be made for an accepted plan.
pub fn accepted_is_storable(_plan: &Plan)
    requires { IsAccepted _plan.now }
    ensures { IsStorable _plan.now }
{}

/// A new store is as it was where a run had not begun. Where it had a start and no row, time counts from there. Behind a last row the store
/// is in the step of that row, which is one more than the steps that ran before it.
pub fn resumed_is_there()
    ensures new { (l : Layout) → after_resume (new_seen l) None None 0 ≡ new_seen l }
    ensures started { (l : Layout) (start steps : ℕ) → after_resume (new_seen l) (Some start) None steps ≡ record (new_seen l) { phase = Started start; steps = steps } }
    ensures running { (l : Layout) (start last steps : ℕ) → (after_resume (new_seen l) (Some start) (Some last) steps).phase ≡ Running start last }
    ensures steps { (l : Layout) (start last steps : ℕ) → (after_resume (new_seen l) (Some start) (Some last) steps).steps ≡ steps + 1 }
{}

/// An instance that is silent in a step remembers each list of values that it may have had.
pub fn silent_remembers(_store: &BoundedStore)
    ensures { (n i : ℕ) (s : Holdings) (names : Naming) (values : List (ℕ × Field)) → instance_at _store.now n i ≡ Some s → IsTrue (is_silent (now_seen (bounded_seen _store.now) n i))
        → MayHaveHad (start_seen (bounded_seen _store.now)) names s values → bounded_remembers _store.now names n i values }
{}

/// The values that a store keeps of an instance are the last ones of whatever values it remembers, with this step's.
pub fn kept_values_are_last(_store: &BoundedStore)
    ensures { (names : Naming) (n i : ℕ) (values : List (ℕ × Field)) → bounded_remembers _store.now names n i values
        → map (read names) (values_kept _store.now n i) ≡ keep_last (kept_in (slice_get (bounded_seen _store.now).layout.streams n)) (map (λ v. v.1) (values_by_now _store.now names n i values)) }
{}

/// The panes of a window onto an instance stand for whatever values it remembers, with this step's, and are those of the window.
pub fn panes_stand_for_values(_store: &BoundedStore)
    ensures stand { (names : Naming) (w i : ℕ) (values : List (ℕ × Field)) (p : Partials) → panes_at _store.now w i ≡ Some p
        → bounded_remembers _store.now names (target_of (slice_get (bounded_seen _store.now).layout.windows w)) i values
        → StandFor p (map (shifted (start_seen (bounded_seen _store.now))) (values_by_now _store.now names (target_of (slice_get (bounded_seen _store.now).layout.windows w)) i values)) }
    ensures window { (w i : ℕ) (v : WindowSpec) (z : PaneSize) (p : Partials) → slice_get (bounded_seen _store.now).layout.windows w ≡ Some v
        → slice_get (bounded_seen _store.now).layout.panes w ≡ Some z → panes_at _store.now w i ≡ Some p
        → (p.aggregation ≡ v.using) × (p.pane ≡ z.pane) × (p.count ≡ z.count) }
{}

/// The panes of two windows onto one stream stand at two places.
pub fn windows_have_own_places(_store: &BoundedStore)
    ensures { (v w : ℕ) (a b : WindowSpec) → slice_get (bounded_seen _store.now).layout.windows v ≡ Some a → slice_get (bounded_seen _store.now).layout.windows w ≡ Some b
        → a.target ≡ b.target → slice_get (places_in _store.now) v ≡ slice_get (places_in _store.now) w → v ≡ w }
{}

/// An instance that is silent in a step remembers each list of values that it may have had, by what is read of it for each window.
pub fn silent_remembers_by_windows(_store: &BoundedStore)
    ensures { (names : Naming) (n i : ℕ) (values : List (ℕ × Field)) → IsTrue (is_silent (now_seen (bounded_seen _store.now) n i)) → MayHaveHadIn _store.now names n i values
        → bounded_remembers _store.now names n i values }
{}

/// Where the panes of one window onto an instance were restored, those of each other window and instance are as they were.
pub fn other_panes_stay(_old: &BoundedStore, _new: &BoundedStore)
    ensures restored { (w i last count : ℕ) (parts : List Partial) (b : WindowSpec) → (bounded_seen _new.now).layout.windows ≡ (bounded_seen _old.now).layout.windows
        → places_in _new.now ≡ places_in _old.now → slice_get (bounded_seen _old.now).layout.windows w ≡ Some b
        → IsInstanceChanged (HasPanesOf _old.now w last parts count) (target_of (slice_get (bounded_seen _old.now).layout.windows w)) i _old.now _new.now
        → MatchOption (panes_at _old.now w i) ⊥ (λ p. MatchOption (panes_at _new.now w i) ⊥ (WereRestored last parts count p)) }
    ensures others { (w i last count : ℕ) (parts : List Partial) (b : WindowSpec) → (bounded_seen _new.now).layout.windows ≡ (bounded_seen _old.now).layout.windows
        → places_in _new.now ≡ places_in _old.now → slice_get (bounded_seen _old.now).layout.windows w ≡ Some b
        → IsInstanceChanged (HasPanesOf _old.now w last parts count) (target_of (slice_get (bounded_seen _old.now).layout.windows w)) i _old.now _new.now
        → (v j : ℕ) (a : WindowSpec) → slice_get (bounded_seen _old.now).layout.windows v ≡ Some a → (v ≡ w → j ≡ i → ⊥) → panes_at _new.now v j ≡ panes_at _old.now v j }
{}
