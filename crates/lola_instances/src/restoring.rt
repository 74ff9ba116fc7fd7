//! A new store goes on where a run had come, and what was saved of its instances is restored.

ghost use Rattle.std.specs.Prelude.{◌≡◌, ◌≤◌, ◌<◌, ◌+◌, ◌-◌, ◌^◌, [], ℕ, None, Some, IsTrue, MatchOption, OnErr, OnOk, length, map, slice_get};
ghost use Rattle.lola_value.specs.Naming.{Naming};
ghost use Rattle.lola_model.specs.Reading.{KeepsAll};
ghost use Rattle.lola_model.specs.Store.{Fits, IsRunning, has_spawned, instances_seen, is_of_kind, is_silent, kind_in, new_seen, now_seen, place_of, spawns_in, start_seen, target_of, time_seen};
ghost use Rattle.lola_panes.specs.Restored.{first_offset};
ghost use Rattle.lola_instances_one.specs.Holdings.{Holdings};
ghost use Rattle.lola_instances_one.specs.Saved.{CanBeRestored};
ghost use Rattle.lola_instances_stream.specs.Restoring.{HasOneMore};
ghost use Rattle.lola_instances.specs.Restoring.{FollowsStart, HasPanesOf, IsInstanceChanged, after_restore, after_resume, newborn_in, resumed, spawned_in, store_phase_at, steps_at};
ghost use Rattle.lola_instances.specs.Saved.{instance_at, panes_at, places_in};
ghost use Rattle.lola_instances.specs.Stores.{bounded_seen, bounded_remembers};

use crate::phase::{StorePhase, start_of, time_of, time_since};
use crate::reading::{place_of_panes, spec_of};
use crate::store::{BoundedStore, offset_of};
use lola_instances_stream::instances::Instances;
use lola_panes::partial::Partial;
use lola_value::brief::BriefValue;
use lola_value::text::Memory;
use lola_value::value::Params;

// How far a store is where time counts from a start, and the last row came at a time.
fn store_phase_of(start: Option<u64>, last: Option<u64>) -> StorePhase
    ensures { result ≡ store_phase_at start last }
{
    match start {
        None => StorePhase::New,
        Some(start) => match last {
            None => StorePhase::Started(start),
            Some(last) => StorePhase::Running(start, last),
        },
    }
}

// The number of the step that it is in: one more than the number of steps that began.
fn step_of(last: Option<u64>, steps: u64) -> u64
    requires { steps ≤ 2 ^ 62 }
    ensures { result ≡ steps_at last steps + 1 }
{
    match last {
        None => steps + 1,
        Some(_) => steps + 2,
    }
}

// The spawn clause of each stream ran in the step of a number.
fn resume_each(streams: &mut Vec<Instances>, step: u64)
    ensures { streams.new.items ≡ map (spawned_in step) streams.old.items }
{
    for i in 0..streams.len() {
        let lives = &mut streams[i];
        lives.resume(step);
    }
}

// The same, behind a last row.
fn resume_streams(streams: &mut Vec<Instances>, last: Option<u64>, step: u64)
    ensures { streams.new.items ≡ resumed last step streams.old.items }
{
    match last {
        None => {}
        Some(_) => resume_each(streams, step),
    }
}

impl BoundedStore {
    /// A new store goes on where a run had come: time counts from `start`, the last row came at `last`, and so many steps ran. Behind a
    /// last row the store is in the step that is over, in which what was saved of its instances is restored.
    pub fn resume_at(&mut self, start: Option<u64>, last: Option<u64>, steps: u64)
        requires new { bounded_seen self.old ≡ new_seen (bounded_seen self.old).layout }
        requires order { FollowsStart start last }
        requires few { steps ≤ 2 ^ 62 }
        ensures seen { bounded_seen self.new ≡ after_resume (bounded_seen self.old) start last steps }
        ensures past { KeepsAll (bounded_remembers self.old) (bounded_remembers self.new) }
        ensures slots { (n i : ℕ) → instance_at self.new n i ≡ instance_at self.old n i }
        ensures places { places_in self.new ≡ places_in self.old }
    {
        let phase = store_phase_of(start, last);
        let step = step_of(last, steps);
        resume_streams(&mut self.streams, last, step);
        self.offset = time_since(start_of(phase), time_of(phase));
        self.phase = phase;
        self.step = step;
    }

    /// An instance that was saved, with its parameters and the time of its birth, and no value yet. Memory is all that can be lacking.
    pub fn restore(&mut self, stream: u32, params: Params, born: u64) -> Result<(), Memory>
        requires running { IsRunning (bounded_seen self.old) }
        requires fits { Fits (bounded_seen self.old) stream params }
        requires spawns { IsTrue (spawns_in (slice_get (bounded_seen self.old).layout.streams stream)) }
        requires over { IsTrue (has_spawned (slice_get (bounded_seen self.old).streams stream)) }
        requires absent { place_of (bounded_seen self.old) stream params ≡ None }
        requires few { length (instances_seen (bounded_seen self.old) stream) < 65536 }
        ensures ok { OnOk result (bounded_seen self.new ≡ after_restore (bounded_seen self.old) stream born params) }
        ensures err { OnErr result (bounded_seen self.new ≡ bounded_seen self.old) }
        ensures past { KeepsAll (bounded_remembers self.old) (bounded_remembers self.new) }
        ensures new { OnOk result ((names : Naming) → bounded_remembers self.new names stream (length (instances_seen (bounded_seen self.old) stream)) []) }
        ensures others { (n i : ℕ) (s : Holdings) → instance_at self.old n i ≡ Some s → instance_at self.new n i ≡ Some s }
        ensures slot { OnOk result (instance_at self.new stream (length (instances_seen (bounded_seen self.old) stream)) ≡ newborn_in self.old stream born params) }
        ensures places { places_in self.new ≡ places_in self.old }
    {
        let lives = &mut self.streams[stream as usize];
        match lives.restore(born, params) {
            Ok(()) => Ok(()),
            Err(memory) => Err(memory),
        }
    }

    /// One more of the values that a saved instance had, from the oldest of its last values on. It is none of this step.
    pub fn restore_value(&mut self, stream: u32, index: u32, value: BriefValue)
        requires running { IsRunning (bounded_seen self.old) }
        requires index { index < length (instances_seen (bounded_seen self.old) stream) }
        requires silent { IsTrue (is_silent (now_seen (bounded_seen self.old) stream index)) }
        requires kind { IsTrue (is_of_kind (kind_in (slice_get (bounded_seen self.old).layout.streams stream)) value) }
        ensures seen { bounded_seen self.new ≡ bounded_seen self.old }
        ensures slot { IsInstanceChanged (HasOneMore value) stream index self.old self.new }
        ensures places { places_in self.new ≡ places_in self.old }
    {
        let step = self.step;
        let offset = offset_of(self);
        let lives = &mut self.streams[stream as usize];
        lives.restore_value(step, offset, index as usize, value);
    }

    /// The panes that a saved instance had for a window: the partial results of the last ones up to pane `last`, in order. All the values
    /// of the steps that are over may be in them.
    pub fn restore_panes(&mut self, window: u32, index: u32, last: u64, partials: &[Partial])
        requires running { IsRunning (bounded_seen self.old) }
        requires window { window < length (bounded_seen self.old).layout.windows }
        requires index { index < length (instances_seen (bounded_seen self.old) (target_of (slice_get (bounded_seen self.old).layout.windows window))) }
        requires silent { IsTrue (is_silent (now_seen (bounded_seen self.old) (target_of (slice_get (bounded_seen self.old).layout.windows window)) index)) }
        requires panes { MatchOption (panes_at self.old window index) ⊥ (CanBeRestored last partials.now ((bounded_seen self.old).steps - 1)) }
        requires newest { MatchOption (panes_at self.old window index) ⊥ (λ p. first_offset p.pane last ≤ time_seen (bounded_seen self.old) - start_seen (bounded_seen self.old)) }
        ensures seen { bounded_seen self.new ≡ bounded_seen self.old }
        ensures slot { IsInstanceChanged (HasPanesOf self.old window last partials.now ((bounded_seen self.old).steps - 1)) (target_of (slice_get (bounded_seen self.old).layout.windows window)) index self.old self.new }
        ensures places { places_in self.new ≡ places_in self.old }
    {
        let target = spec_of(self, window).target;
        let place = place_of_panes(self, window);
        let step = self.step;
        let offset = offset_of(self);
        let lives = &mut self.streams[target as usize];
        lives.restore_panes(step, offset, place, index as usize, last, partials);
    }
}
