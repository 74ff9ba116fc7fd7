//! The calls that read.

ghost use Rattle.std.specs.Prelude.{◌≡◌, ◌<◌, ◌≤◌, ◌+◌, ◌*◌, ℕ, List, [], Some, length, slice_get, MatchOption, IsTrue};
ghost use Rattle.std.specs.Vec.{vec_capacity};
ghost use Rattle.lola_value.specs.declared.text.Field.{Field};
ghost use Rattle.lola_value.specs.declared.value.Outcome.TheVariants as outcome;
ghost use Rattle.lola_value.specs.Naming.{Naming, read_outcome, the_values, IsHeldIn};
ghost use Rattle.lola_value.specs.Times.{latest};
ghost use Rattle.lola_model.specs.Store.{Fits, IsRunning, instances_seen, place_of, now_of, max_offset, target_of, pane_of, kept_in, start_seen, time_seen, kind_in, window_kind, is_outcome_of, are_of_kinds, is_well_formed, no_params, parameters_of};
ghost use Rattle.lola_model.specs.Accesses.{from_end};
ghost use Rattle.lola_model.specs.Dues.{due_places, due_seen};
ghost use Rattle.lola_model.specs.Reading.{held_answer, window_reading};
ghost use Rattle.lola_model.specs.Whereabouts.{StandsOnlyAt};
ghost use Rattle.lola_instances_stream.specs.Dues.{in_time};
ghost use Rattle.lola_instances.specs.Dues.{due_of_crowds};
ghost use Rattle.lola_instances.specs.Stores.{bounded_seen, bounded_remembers, panes_kept, values_kept};

use crate::store::{BoundedStore, offset_of};
use lola_instances_stream::due::earlier;
use lola_instances_stream::instances::Instances;
use lola_model::spec::WindowSpec;
use lola_model::store::Whereabouts;
use lola_value::brief::Brief;
use lola_value::value::{Outcome, Params};

/// The instances of a stream.
pub(crate) fn lives_of(s: &BoundedStore, stream: u32) -> &Instances
    requires { stream < length (bounded_seen s.now).layout.streams }
    ensures { slice_get s.now.streams.items stream ≡ Some result.now }
{
    &s.streams[stream as usize]
}

/// The value at this step.
pub fn now(s: &BoundedStore, stream: u32, params: &Params) -> Outcome
    requires running { IsRunning (bounded_seen s.now) }
    requires fits { Fits (bounded_seen s.now) stream params.now }
    ensures value { result ≡ now_of (bounded_seen s.now) stream params.now }
    ensures kind { IsTrue (is_outcome_of (kind_in (slice_get (bounded_seen s.now).layout.streams stream)) result) }
{
    lives_of(s, stream).now(s.step, params)
}

/// The newest value at this step or before.
pub fn newest(s: &BoundedStore, stream: u32, params: &Params) -> Outcome
    requires running { IsRunning (bounded_seen s.now) }
    requires fits { Fits (bounded_seen s.now) stream params.now }
    ensures living { MatchOption (place_of (bounded_seen s.now) stream params.now)
        (result ≡ now_of (bounded_seen s.now) stream params.now)
        (λ i. (names : Naming) (values : List (ℕ × Field)) → bounded_remembers s.now names stream i values
        → IsHeldIn names (now_of (bounded_seen s.now) stream params.now)
        → (read_outcome names result ≡ held_answer (read_outcome names (now_of (bounded_seen s.now) stream params.now)) values) × IsHeldIn names result) }
    ensures kind { IsTrue (is_outcome_of (kind_in (slice_get (bounded_seen s.now).layout.streams stream)) result) }
{
    lives_of(s, stream).newest(s.step, params)
}

/// The k-th value before this step from the newest, from 1.
pub fn back(s: &BoundedStore, stream: u32, params: &Params, k: u32) -> Outcome
    requires running { IsRunning (bounded_seen s.now) }
    requires fits { Fits (bounded_seen s.now) stream params.now }
    requires k_low { 1 ≤ k }
    requires k_high { k ≤ max_offset (bounded_seen s.now) stream }
    ensures living { MatchOption (place_of (bounded_seen s.now) stream params.now)
        (result ≡ outcome.Missing)
        (λ i. (names : Naming) (values : List (ℕ × Field)) → bounded_remembers s.now names stream i values
        → (read_outcome names result ≡ from_end values k) × IsHeldIn names result) }
    ensures kind { IsTrue (is_outcome_of (kind_in (slice_get (bounded_seen s.now).layout.streams stream)) result) }
{
    lives_of(s, stream).back(s.step, params, k)
}

/// The value at this step of a stream without parameters.
#[inline(always)]
pub fn now_alone(s: &BoundedStore, stream: u32) -> Brief
    requires stream { stream < length (bounded_seen s.now).layout.streams }
    requires none { parameters_of (slice_get (bounded_seen s.now).layout.streams stream) ≡ [] }
    ensures value { result ≡ now_of (bounded_seen s.now) stream no_params }
    ensures kind { IsTrue (is_outcome_of (kind_in (slice_get (bounded_seen s.now).layout.streams stream)) result) }
{
    lives_of(s, stream).now_alone(s.step)
}

/// The newest value at this step or before of a stream without parameters.
#[inline(always)]
pub fn newest_alone(s: &BoundedStore, stream: u32) -> Brief
    requires stream { stream < length (bounded_seen s.now).layout.streams }
    requires none { parameters_of (slice_get (bounded_seen s.now).layout.streams stream) ≡ [] }
    ensures living { MatchOption (place_of (bounded_seen s.now) stream no_params)
        (result ≡ now_of (bounded_seen s.now) stream no_params)
        (λ i. (names : Naming) (values : List (ℕ × Field)) → bounded_remembers s.now names stream i values
        → IsHeldIn names (now_of (bounded_seen s.now) stream no_params)
        → (read_outcome names result ≡ held_answer (read_outcome names (now_of (bounded_seen s.now) stream no_params)) values) × IsHeldIn names result) }
    ensures kind { IsTrue (is_outcome_of (kind_in (slice_get (bounded_seen s.now).layout.streams stream)) result) }
{
    lives_of(s, stream).newest_alone(s.step)
}

/// The k-th value before this step from the newest, from 1, of a stream without parameters.
#[inline(always)]
pub fn back_alone(s: &BoundedStore, stream: u32, k: u32) -> Brief
    requires stream { stream < length (bounded_seen s.now).layout.streams }
    requires none { parameters_of (slice_get (bounded_seen s.now).layout.streams stream) ≡ [] }
    requires k_low { 1 ≤ k }
    requires k_high { k ≤ max_offset (bounded_seen s.now) stream }
    ensures living { MatchOption (place_of (bounded_seen s.now) stream no_params)
        (result ≡ outcome.Missing)
        (λ i. (names : Naming) (values : List (ℕ × Field)) → bounded_remembers s.now names stream i values
        → (read_outcome names result ≡ from_end values k) × IsHeldIn names result) }
    ensures kind { IsTrue (is_outcome_of (kind_in (slice_get (bounded_seen s.now).layout.streams stream)) result) }
{
    lives_of(s, stream).back_alone(s.step, k)
}

/// How many instances of a stream live.
pub fn instances(s: &BoundedStore, stream: u32) -> u32
    requires { stream < length (bounded_seen s.now).layout.streams }
    ensures { result ≡ length (instances_seen (bounded_seen s.now) stream) }
{
    lives_of(s, stream).instances() as u32
}

/// The parameters of an instance, by its place.
pub fn params_of(s: &BoundedStore, stream: u32, index: u32) -> Params
    requires { index < length (instances_seen (bounded_seen s.now) stream) }
    ensures value { MatchOption (slice_get (instances_seen (bounded_seen s.now) stream) index) ⊥ (λ x. result ≡ x.params) }
    ensures kinds { IsTrue (are_of_kinds (parameters_of (slice_get (bounded_seen s.now).layout.streams stream)) (the_values result)) }
    ensures places { IsTrue (is_well_formed result) }
{
    lives_of(s, stream).params_of(index as usize)
}

/// When an instance was born, by its place.
pub fn born(s: &BoundedStore, stream: u32, index: u32) -> u64
    requires { index < length (instances_seen (bounded_seen s.now) stream) }
    ensures { MatchOption (slice_get (instances_seen (bounded_seen s.now) stream) index) ⊥ (λ x. result ≡ x.born) }
{
    lives_of(s, stream).born(index as usize)
}

/// The first deadline from a moment on of the instances of these streams, if it is a time.
fn due_of_streams(streams: &[Instances], from: u64) -> Option<u64>
    ensures { result ≡ in_time (due_of_crowds from streams.now) }
{
    let mut first = None;
    for lives in streams {
        first = earlier(first, lives.local_due(from));
    }
    first
}

/// The first deadline from a moment on that counts from a birth, if it is a time.
pub fn local_due(s: &BoundedStore, from: u64) -> Option<u64>
    ensures { result ≡ due_seen (bounded_seen s.now) from }
{
    due_of_streams(s.streams.as_slice(), from)
}

/// Lists the places of the instances of a stream that have a deadline at a moment, of a clause that counts from their births.
pub fn list_due(s: &BoundedStore, stream: u32, time: u64, places: &mut Vec<u32>)
    requires stream { stream < length (bounded_seen s.now).layout.streams }
    requires in_time { time ≤ latest }
    requires room { length (instances_seen (bounded_seen s.now) stream) ≤ vec_capacity places.old }
    ensures places { places.new.items ≡ due_places (bounded_seen s.now) stream time }
    ensures capacity { vec_capacity places.new ≡ vec_capacity places.old }
{
    lives_of(s, stream).list_due(time, places);
}

/// Where the instance of a stream with these parameters stands, where a table of the stream's instances is kept.
pub fn find(s: &BoundedStore, stream: u32, params: &Params) -> Whereabouts
    requires stream { stream < length (bounded_seen s.now).layout.streams }
    requires places { IsTrue (is_well_formed params.now) }
    ensures { StandsOnlyAt result (parameters_of (slice_get (bounded_seen s.now).layout.streams stream)) params.now (instances_seen (bounded_seen s.now) stream) }
{
    lives_of(s, stream).find(params)
}

/// What a window is.
pub(crate) fn spec_of(s: &BoundedStore, window: u32) -> &WindowSpec
    requires { window < length (bounded_seen s.now).layout.windows }
    ensures { slice_get (bounded_seen s.now).layout.windows window ≡ Some result.now }
{
    let windows = s.windows.as_slice();
    &windows[window as usize]
}

/// The place of a window's panes among those of its target.
pub(crate) fn place_of_panes(s: &BoundedStore, window: u32) -> usize
    requires { window < length (bounded_seen s.now).layout.windows }
    ensures { slice_get s.now.places.items window ≡ Some result }
{
    s.places[window as usize]
}

/// The answer of a window at this step.
pub fn window(s: &BoundedStore, window: u32, params: &Params) -> Outcome
    requires running { IsRunning (bounded_seen s.now) }
    requires window { window < length (bounded_seen s.now).layout.windows }
    requires fits { Fits (bounded_seen s.now) (target_of (slice_get (bounded_seen s.now).layout.windows window)) params.now }
    requires whole { (k : ℕ) × (time_seen (bounded_seen s.now) ≡ start_seen (bounded_seen s.now) + k * pane_of (slice_get (bounded_seen s.now).layout.panes window)) }
    ensures living { MatchOption (place_of (bounded_seen s.now) (target_of (slice_get (bounded_seen s.now).layout.windows window)) params.now)
        ((names : Naming) → read_outcome names result ≡ window_reading (bounded_seen s.now) window names (now_of (bounded_seen s.now) (target_of (slice_get (bounded_seen s.now).layout.windows window)) params.now) [])
        (λ i. (names : Naming) (values : List (ℕ × Field)) → bounded_remembers s.now names (target_of (slice_get (bounded_seen s.now).layout.windows window)) i values
        → read_outcome names result ≡ window_reading (bounded_seen s.now) window names (now_of (bounded_seen s.now) (target_of (slice_get (bounded_seen s.now).layout.windows window)) params.now) values) }
    ensures kind { IsTrue (is_outcome_of (window_kind (bounded_seen s.now) window) result) }
{
    let target = spec_of(s, window).target;
    let place = place_of_panes(s, window);
    lives_of(s, target).window(s.step, params, place, offset_of(s))
}

impl BoundedStore {
    /// How many values are kept now of an instance: never more than the plan has for its stream.
    pub fn kept(&self, stream: u32, index: u32) -> u32
        requires { index < length (instances_seen (bounded_seen self.now) stream) }
        ensures length { result ≡ length (values_kept self.now stream index) }
        ensures within { result ≤ kept_in (slice_get (bounded_seen self.now).layout.streams stream) }
    {
        lives_of(self, stream).kept(index as usize)
    }

    /// How many panes are kept now of a window onto an instance: never more than the plan has for the window.
    pub fn panes(&self, window: u32, index: u32) -> u32
        requires window { window < length (bounded_seen self.now).layout.windows }
        requires index { index < length (instances_seen (bounded_seen self.now) (target_of (slice_get (bounded_seen self.now).layout.windows window))) }
        ensures length { result ≡ length (panes_kept self.now window index) }
        ensures within { MatchOption (slice_get (bounded_seen self.now).layout.panes window) ⊥ (λ p. result ≤ p.count) }
    {
        let target = spec_of(self, window).target;
        let place = place_of_panes(self, window);
        lives_of(self, target).panes(place, index as usize)
    }
}
