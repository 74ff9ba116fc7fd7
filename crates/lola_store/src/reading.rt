//! The calls that read.

ghost use Rattle.std.specs.Prelude.{◌≡◌, ◌<◌, ◌≤◌, ◌+◌, ◌++◌, ◌&&◌, ℕ, List, [], Some, not, nat_lt, length, slice_get, MatchOption, IsTrue};
ghost use Rattle.lola_value.specs.declared.text.Field.{Field};
ghost use Rattle.lola_value.specs.declared.value.Outcome.TheVariants as outcome;
ghost use Rattle.lola_value.specs.Naming.{Naming, read_outcome, the_values, IsHeldIn};
ghost use Rattle.lola_model.specs.Store.{Fits, IsRunning, instances_seen, place_of, now_of, is_bad_seen, target_of, time_seen, kind_in, window_kind, gives_kind, is_outcome_of, are_of_kinds, is_well_formed, parameters_of};
ghost use Rattle.lola_model.specs.Accesses.{from_end, one_more};
ghost use Rattle.lola_model.specs.Typing.{takes};
ghost use Rattle.lola_model.specs.Windows.{aggregated, values_within};
ghost use Rattle.lola_model.specs.Reading.{held_answer, window_over, window_reading, spoiled};
ghost use Rattle.lola_store.specs.Populations.{instance_at};
ghost use Rattle.lola_store.specs.Stores.{whole_seen, whole_remembers};

use crate::instance::Instance;
use crate::population::place;
use crate::store::WholeStore;
use crate::tally::aggregate;
use lola_instances::phase::{start_of, time_of};
use lola_model::spec::WindowSpec;
use lola_value::value::{Outcome, Params};

/// Whether a stream is poisoned in this step.
fn is_bad(s: &WholeStore, stream: u32) -> bool
    requires { stream < length (whole_seen s.now).layout.streams }
    ensures { result ≡ is_bad_seen (slice_get (whole_seen s.now).streams stream) }
{
    s.streams[stream as usize].bad_at == s.step
}

/// The place of the instance with these parameters.
pub fn found(s: &WholeStore, stream: u32, params: &Params) -> Option<usize>
    requires fits { Fits (whole_seen s.now) stream params.now }
    ensures { result ≡ place_of (whole_seen s.now) stream params.now }
{
    let population = &s.streams[stream as usize];
    place(population.lives.as_slice(), params)
}

/// An instance by its place.
fn instance(s: &WholeStore, stream: u32, index: usize) -> &Instance
    requires { index < length (instances_seen (whole_seen s.now) stream) }
    ensures { instance_at s.now.streams.items stream index ≡ Some result.now }
{
    let population = &s.streams[stream as usize];
    &population.lives[index]
}

/// The value at this step.
pub fn now(s: &WholeStore, stream: u32, params: &Params) -> Outcome
    requires running { IsRunning (whole_seen s.now) }
    requires fits { Fits (whole_seen s.now) stream params.now }
    ensures value { result ≡ now_of (whole_seen s.now) stream params.now }
    ensures kind { IsTrue (is_outcome_of (kind_in (slice_get (whole_seen s.now).layout.streams stream)) result) }
{
    if is_bad(s, stream) {
        return Outcome::Poison;
    }
    match found(s, stream, params) {
        None => Outcome::Missing,
        Some(i) => instance(s, stream, i).now(s.step),
    }
}

/// The newest value at this step or before.
pub fn newest(s: &WholeStore, stream: u32, params: &Params) -> Outcome
    requires running { IsRunning (whole_seen s.now) }
    requires fits { Fits (whole_seen s.now) stream params.now }
    ensures living { MatchOption (place_of (whole_seen s.now) stream params.now)
        (result ≡ now_of (whole_seen s.now) stream params.now)
        (λ i. (names : Naming) (values : List (ℕ × Field)) → whole_remembers s.now names stream i values
        → IsHeldIn names (now_of (whole_seen s.now) stream params.now)
        → (read_outcome names result ≡ held_answer (read_outcome names (now_of (whole_seen s.now) stream params.now)) values) × IsHeldIn names result) }
    ensures kind { IsTrue (is_outcome_of (kind_in (slice_get (whole_seen s.now).layout.streams stream)) result) }
{
    if is_bad(s, stream) {
        return Outcome::Poison;
    }
    match found(s, stream, params) {
        None => Outcome::Missing,
        Some(i) => instance(s, stream, i).newest(s.step),
    }
}

/// The k-th value before this step from the newest, from 1.
pub fn back(s: &WholeStore, stream: u32, params: &Params, k: u32) -> Outcome
    requires running { IsRunning (whole_seen s.now) }
    requires fits { Fits (whole_seen s.now) stream params.now }
    requires k_low { 1 ≤ k }
    ensures living { MatchOption (place_of (whole_seen s.now) stream params.now)
        (result ≡ outcome.Missing)
        (λ i. (names : Naming) (values : List (ℕ × Field)) → whole_remembers s.now names stream i values
        → (read_outcome names result ≡ from_end values k) × IsHeldIn names result) }
    ensures kind { IsTrue (is_outcome_of (kind_in (slice_get (whole_seen s.now).layout.streams stream)) result) }
{
    match found(s, stream, params) {
        None => Outcome::Missing,
        Some(i) => instance(s, stream, i).back(s.step, k),
    }
}

/// How many instances of a stream live.
pub fn instances(s: &WholeStore, stream: u32) -> u32
    requires { stream < length (whole_seen s.now).layout.streams }
    ensures { result ≡ length (instances_seen (whole_seen s.now) stream) }
{
    s.streams[stream as usize].lives.len() as u32
}

/// The parameters of an instance, by its place.
pub fn params_of(s: &WholeStore, stream: u32, index: u32) -> Params
    requires { index < length (instances_seen (whole_seen s.now) stream) }
    ensures value { MatchOption (slice_get (instances_seen (whole_seen s.now) stream) index) ⊥ (λ x. result ≡ x.params) }
    ensures kinds { IsTrue (are_of_kinds (parameters_of (slice_get (whole_seen s.now).layout.streams stream)) (the_values result)) }
    ensures places { IsTrue (is_well_formed result) }
{
    instance(s, stream, index as usize).params
}

/// When an instance was born, by its place.
pub fn born(s: &WholeStore, stream: u32, index: u32) -> u64
    requires { index < length (instances_seen (whole_seen s.now) stream) }
    ensures { MatchOption (slice_get (instances_seen (whole_seen s.now) stream) index) ⊥ (λ x. result ≡ x.born) }
{
    instance(s, stream, index as usize).born
}

/// Whether a window is exact and its whole length has not passed since the start.
fn is_early(exact: bool, start: u64, over: u64, time: u64) -> bool
    ensures { result ≡ (exact && nat_lt time (start + over)) }
{
    exact && (time as u128) < start as u128 + over as u128
}

/// Whether an outcome poisons those that read it.
fn spoils(outcome: Outcome) -> bool
    ensures { (names : Naming) → result ≡ spoiled (read_outcome names outcome) }
{
    match outcome {
        Outcome::Fault(_) | Outcome::Poison => true,
        _ => false,
    }
}

/// The values of the window's target that a window folds: all of the instance that was found.
fn folded(s: &WholeStore, w: &WindowSpec, params: &Params) -> Outcome
    requires fits { Fits (whole_seen s.now) w.now.target params.now }
    requires taken { IsTrue (takes w.now.using (kind_in (slice_get (whole_seen s.now).layout.streams w.now.target))) }
    requires good { IsTrue (not (is_bad_seen (slice_get (whole_seen s.now).streams w.now.target))) }
    ensures living { MatchOption (place_of (whole_seen s.now) w.now.target params.now)
        ((names : Naming) → read_outcome names result ≡ aggregated w.now.using (kind_in (slice_get (whole_seen s.now).layout.streams w.now.target)) (values_within w.now.over (time_seen (whole_seen s.now)) ([] ++ one_more (time_seen (whole_seen s.now)) (read_outcome names (now_of (whole_seen s.now) w.now.target params.now)))))
        (λ i. (names : Naming) (values : List (ℕ × Field)) → whole_remembers s.now names w.now.target i values
        → read_outcome names result ≡ aggregated w.now.using (kind_in (slice_get (whole_seen s.now).layout.streams w.now.target)) (values_within w.now.over (time_seen (whole_seen s.now)) (values ++ one_more (time_seen (whole_seen s.now)) (read_outcome names (now_of (whole_seen s.now) w.now.target params.now))))) }
    ensures kind { IsTrue (is_outcome_of (gives_kind w.now.using (kind_in (slice_get (whole_seen s.now).layout.streams w.now.target))) result) }
{
    let time = time_of(s.phase);
    let kind = s.streams[w.target as usize].kind;
    match found(s, w.target, params) {
        None => aggregate(&[], w.using, kind, w.over, time),
        Some(i) => {
            let life = instance(s, w.target, i);
            aggregate(life.values.as_slice(), w.using, kind, w.over, time)
        }
    }
}

/// The answer of a window by what it is.
fn answered(s: &WholeStore, w: &WindowSpec, params: &Params) -> Outcome
    requires running { IsRunning (whole_seen s.now) }
    requires fits { Fits (whole_seen s.now) w.now.target params.now }
    requires taken { IsTrue (takes w.now.using (kind_in (slice_get (whole_seen s.now).layout.streams w.now.target))) }
    ensures living { MatchOption (place_of (whole_seen s.now) w.now.target params.now)
        ((names : Naming) → read_outcome names result ≡ window_over (whole_seen s.now) (Some w.now) (kind_in (slice_get (whole_seen s.now).layout.streams w.now.target)) (read_outcome names (now_of (whole_seen s.now) w.now.target params.now)) [])
        (λ i. (names : Naming) (values : List (ℕ × Field)) → whole_remembers s.now names w.now.target i values
        → read_outcome names result ≡ window_over (whole_seen s.now) (Some w.now) (kind_in (slice_get (whole_seen s.now).layout.streams w.now.target)) (read_outcome names (now_of (whole_seen s.now) w.now.target params.now)) values) }
    ensures kind { IsTrue (is_outcome_of (gives_kind w.now.using (kind_in (slice_get (whole_seen s.now).layout.streams w.now.target))) result) }
{
    if spoils(now(s, w.target, params)) {
        return Outcome::Poison;
    }
    if is_early(w.exact, start_of(s.phase), w.over, time_of(s.phase)) {
        return Outcome::Missing;
    }
    folded(s, w, params)
}

/// What a window is.
fn spec_of(s: &WholeStore, window: u32) -> &WindowSpec
    requires { window < length (whole_seen s.now).layout.windows }
    ensures { slice_get (whole_seen s.now).layout.windows window ≡ Some result.now }
{
    let windows = s.windows.as_slice();
    &windows[window as usize]
}

/// The answer of a window at this step.
pub fn window(s: &WholeStore, window: u32, params: &Params) -> Outcome
    requires running { IsRunning (whole_seen s.now) }
    requires window { window < length (whole_seen s.now).layout.windows }
    requires fits { Fits (whole_seen s.now) (target_of (slice_get (whole_seen s.now).layout.windows window)) params.now }
    ensures living { MatchOption (place_of (whole_seen s.now) (target_of (slice_get (whole_seen s.now).layout.windows window)) params.now)
        ((names : Naming) → read_outcome names result ≡ window_reading (whole_seen s.now) window names (now_of (whole_seen s.now) (target_of (slice_get (whole_seen s.now).layout.windows window)) params.now) [])
        (λ i. (names : Naming) (values : List (ℕ × Field)) → whole_remembers s.now names (target_of (slice_get (whole_seen s.now).layout.windows window)) i values
        → read_outcome names result ≡ window_reading (whole_seen s.now) window names (now_of (whole_seen s.now) (target_of (slice_get (whole_seen s.now).layout.windows window)) params.now) values) }
    ensures kind { IsTrue (is_outcome_of (window_kind (whole_seen s.now) window) result) }
{
    let w = spec_of(s, window);
    answered(s, w, params)
}
