//! What a saved state has of the instances of a stream: read, and restored.

ghost use Rattle.std.specs.Prelude.{◌≡◌, ℕ, ◌≤◌, ◌<◌, ◌+◌, ◌-◌, ◌++◌, ◌∷◌, [], List, None, true, length, map, slice_get, IsTrue, MatchOption, OnOk, OnErr};
ghost use Rattle.lola_value.specs.declared.text.Field.{Field};
ghost use Rattle.lola_value.specs.Kinds.{are_of_kinds, is_of_kind, is_well_formed};
ghost use Rattle.lola_value.specs.Naming.{Naming, the_values};
ghost use Rattle.lola_model.specs.Store.{is_silent};
ghost use Rattle.lola_buffer.specs.Kept.{before_newest};
ghost use Rattle.lola_panes.specs.Restored.{first_offset};
ghost use Rattle.lola_instances_one.specs.Holdings.{slot_seen};
ghost use Rattle.lola_instances_one.specs.Saved.{CanBeRestored, HasPane, IsNewestPane, IsPartial};
ghost use Rattle.lola_instances_stream.specs.Births.{newborn};
ghost use Rattle.lola_instances_stream.specs.Changes.{IsChangedAt};
ghost use Rattle.lola_instances_stream.specs.Crowds.{RemembersAt, place_in, shown_at};
ghost use Rattle.lola_instances_stream.specs.Restoring.{HasOneMore, HasPanesRestored};
ghost use Rattle.lola_instances_stream.specs.Rights.{AreRight, AreSteady};

use crate::instances::Instances;
use lola_panes::partial::Partial;
use lola_value::brief::BriefValue;
use lola_value::text::Memory;
use lola_value::value::{Params, Value};

impl Instances {
    /// The value that stands `k` places before the newest of the last values of the instance at a place, which is at 0;
    /// `None` exactly where it keeps no more than `k`.
    pub fn value_back(&self, index: usize, k: u32) -> Option<Value>
        requires { index < length self.now.slots }
        ensures { MatchOption (slice_get self.now.slots index) ⊥ (λ s. result ≡ before_newest k s.ring.values) }
    {
        self.slot(index).value_back(k)
    }

    /// The pane of the newest value that a window, by its place, was given of the instance at a place; `None` exactly
    /// where it was given none.
    pub fn newest_pane(&self, place: usize, index: usize) -> Option<u64>
        requires index { index < length self.now.slots }
        requires place { place < length self.now.windows }
        requires steady { AreSteady self.now }
        ensures { MatchOption (slice_get self.now.slots index) ⊥ (λ s. MatchOption (slice_get s.panes place) ⊥ (IsNewestPane result)) }
    {
        self.slot(index).newest_pane(place)
    }

    /// The partial result of the pane `k` before that one, where it is one of the panes of the window that ends with that.
    pub fn partial(&self, place: usize, index: usize, k: u32) -> Partial
        requires index { index < length self.now.slots }
        requires place { place < length self.now.windows }
        requires steady { AreSteady self.now }
        requires pane { MatchOption (slice_get self.now.slots index) ⊥ (λ s. MatchOption (slice_get s.panes place) ⊥ (HasPane k)) }
        ensures { MatchOption (slice_get self.now.slots index) ⊥ (λ s. MatchOption (slice_get s.panes place) ⊥ (IsPartial k result)) }
    {
        self.slot(index).partial(place, k)
    }

    /// The stream is in the step of a number, in which its spawn clause does not run any more: what was saved is given back
    /// in the step that is over.
    pub fn resume(&mut self, step: u64)
        ensures { self.new ≡ record self.old { spawned_at = step } }
    {
        self.spawned_at = step;
    }

    // The number of the step in which its spawn clause ran last.
    fn last_spawn(&self) -> u64
        ensures { result ≡ self.now.spawned_at }
    {
        self.spawned_at
    }

    /// An instance that was saved, with no values yet: it has these parameters, and was born at a time. Room is made for it
    /// first.
    pub fn restore(&mut self, time: u64, params: Params) -> Result<(), Memory>
        requires places { IsTrue (is_well_formed params) }
        requires kinds { IsTrue (are_of_kinds self.old.layout.parameters (the_values params)) }
        requires spawns { self.old.layout.spawns ≡ true }
        requires absent { place_in params self.old.slots 0 ≡ None }
        ensures ok { OnOk result (self.new ≡ record self.old { slots = self.old.slots ++ newborn self.old.layout.kept self.old.windows time params ∷ []; capacity = self.new.capacity; spares = self.new.spares }) }
        ensures err { OnErr result (self.new ≡ record self.old { capacity = self.new.capacity; spares = self.new.spares }) }
        ensures capacity { self.old.capacity ≤ self.new.capacity }
        ensures more { OnErr result (self.old.spares ≤ self.new.spares) }
        ensures room { OnOk result (length self.new.slots + 1 ≤ self.new.capacity) }
        ensures spares { OnOk result (1 ≤ self.new.spares) }
        ensures right { (step offset : ℕ) → 1 ≤ step → AreRight true step offset self.old → AreRight true step offset self.new }
        ensures past { (start time step : ℕ) (names : Naming) (i : ℕ) (values : List (ℕ × Field)) → RemembersAt start time step names (slice_get self.old.slots i) values → RemembersAt start time step names (slice_get self.new.slots i) values }
        ensures new { OnOk result ((start time step : ℕ) (names : Naming) → RemembersAt start time step names (slice_get self.new.slots (length self.old.slots)) []) }
    {
        match self.prepare(0) {
            Err(memory) => Err(memory),
            Ok(()) => {
                let step = self.last_spawn();
                self.give_birth(step, time, params);
                Ok(())
            }
        }
    }

    /// One more of the values that the instance at a place had when it was saved, from the oldest of its last values on. It
    /// is none of this step, which is over.
    pub fn restore_value(&mut self, step: u64, _offset: u64, index: usize, value: BriefValue)
        requires step_ge { 2 ≤ step }
        requires index { index < length self.old.slots }
        requires silent { IsTrue (is_silent (shown_at step (slice_get self.old.slots index))) }
        requires kind { IsTrue (is_of_kind self.old.layout.kind value) }
        requires right { AreRight true step _offset self.old }
        ensures right { AreRight true step _offset self.new }
        ensures rest { self.new ≡ record self.old { slots = self.new.slots } }
        ensures count { length self.new.slots ≡ length self.old.slots }
        ensures seen { map (slot_seen step) self.new.slots ≡ map (slot_seen step) self.old.slots }
        ensures slot { IsChangedAt (HasOneMore value) index self.old.slots self.new.slots }
    {
        self.slots.restore_value(index, step - 1, value);
    }

    /// The panes that the instance at a place had when it was saved, for the window at another place among those onto the
    /// stream: the partial results of the last ones up to pane `last`, in order, behind a value in each step before this one
    /// at most. None of them begins behind `offset`.
    pub fn restore_panes(
        &mut self,
        step: u64,
        _offset: u64,
        place: usize,
        index: usize,
        last: u64,
        partials: &[Partial],
    )
        requires step_ge { 2 ≤ step }
        requires index { index < length self.old.slots }
        requires silent { IsTrue (is_silent (shown_at step (slice_get self.old.slots index))) }
        requires panes { MatchOption (slice_get self.old.slots index) ⊥ (λ s. MatchOption (slice_get s.panes place) ⊥ (CanBeRestored last partials.now (step - 2))) }
        requires newest { MatchOption (slice_get self.old.slots index) ⊥ (λ s. MatchOption (slice_get s.panes place) ⊥ (λ p. first_offset p.pane last ≤ _offset)) }
        requires right { AreRight true step _offset self.old }
        ensures right { AreRight true step _offset self.new }
        ensures rest { self.new ≡ record self.old { slots = self.new.slots } }
        ensures count { length self.new.slots ≡ length self.old.slots }
        ensures seen { map (slot_seen step) self.new.slots ≡ map (slot_seen step) self.old.slots }
        ensures slot { IsChangedAt (HasPanesRestored last partials.now (step - 2) place) index self.old.slots self.new.slots }
    {
        self.slots
            .restore_panes(index, step - 1, place, last, partials, step - 2);
    }
}
