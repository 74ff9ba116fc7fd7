//! Stores: what a run keeps of its past.
//!
//! A store shows exactly what it is between two calls (`seen`): how far it is, and the living
//! instances of each stream with their parameters, their births and their outcomes of this step. Of the values
//! before this step it need not keep all: `remembers` says which lists of them it may stand for, and
//! each reading call answers what every such list has.

ghost use Rattle.std.specs.Prelude.{◌≡◌, ℕ, ◌+◌, ◌-◌, ◌*◌, ◌%◌, ◌^◌, ◌<◌, ◌≤◌, ◌↔◌, List, [], ◌∷◌, ◌++◌, Bool, true, not, length, slice_get, remove, OnOk, OnErr, IsOk, IsTrue, MatchOption, if◌then◌else◌};
ghost use Rattle.std.specs.Thread.{IsSync};
ghost use Rattle.std.specs.Vec.{vec_capacity};
ghost use Rattle.lola_value.specs.declared.text.Field.{Field};
ghost use Rattle.lola_value.specs.declared.value.Outcome.TheVariants as outcome;
ghost use Rattle.lola_value.specs.Naming.{Naming, read_outcome, the_values, IsHeld, IsHeldIn};
ghost use Rattle.lola_value.specs.Times.{latest};
ghost use Rattle.lola_model.specs.Store.{Seen, Fits, CanBegin, IsNew, IsStarted, IsRunning, start_seen, time_seen, max_offset, target_of, pane_of, never_spawns, instances_seen, place_of, now_of, now_seen, is_silent, is_of_kind, is_outcome_of, are_of_kinds, is_well_formed, parameters_of, kind_in, spawns_in, after_start, after_prepare, after_begin, after_outcome, after_poison_stream, after_spawn, after_close, window_kind, has_spawned, no_params};
ghost use Rattle.lola_model.specs.Reading.{held_answer, window_reading, KeepsAll, KeepsOthers, IsHeldBy};
ghost use Rattle.lola_model.specs.Given.{AreHeldIn, AreOutcomesOf, after_each};
ghost use Rattle.lola_model.specs.Spawning.{has_room, spawn_end};
ghost use Rattle.lola_model.specs.Whereabouts.{StandsOnlyAt};
ghost use Rattle.lola_model.specs.Dues.{due_places, due_seen};
ghost use Rattle.lola_model.specs.Accesses.{from_end, one_more};

use lola_value::brief::{Brief, BriefValue};
use lola_value::text::Memory;
use lola_value::value::{Outcome, Params, Value};
use std::thread::Threads;

/// What became of an instance that a spawn clause names.
#[derive(Clone, Copy)]
pub enum SpawnEnd {
    /// The instance lives from this step on.
    Born,
    /// It lived already, and nothing has changed.
    Living,
    /// 65,536 instances of the stream live, and nothing has changed.
    TooMany,
}

/// Where an instance stands that is looked for by its parameters, among the instances of its stream in order of birth.
#[derive(Clone, Copy)]
pub enum Whereabouts {
    /// At this place, and at no other.
    At(u32),
    /// It does not live.
    Nowhere,
    /// Nothing is said of it.
    Unknown,
}

// No parameters, each unused place as `no_params` has it.
fn without_parameters() -> Params
    ensures { result ≡ no_params }
{
    let unused = Value::Bool(false);
    Params {
        count: 0,
        at0: unused,
        at1: unused,
        at2: unused,
        at3: unused,
    }
}

/// The values of all streams so far, or as much of them as accesses need.
pub trait StreamStore: Drop {
    /// Whether it keeps only what accesses need, and has its room from the start: `prepare` then never
    /// lacks memory where no stream has a spawn clause.
    const BOUNDED: bool;

    ghost BOUNDED: { Bool };

    /// What it shows, also where it stands for nothing.
    ghost seen: { Self → Seen };

    /// Which earlier values it remembers for an instance, by its stream and place.
    ghost remembers: { Self → Naming → ℕ → ℕ → List (ℕ × Field) → Type 0 };

    /// Sets where time counts from, in nanoseconds. Once, before the first step.
    fn start_at(&mut self, start: u64)
        requires { IsNew (seen self.old) }
        ensures seen { seen self.new ≡ after_start (seen self.old) start }
        ensures past { KeepsAll (remembers self.old) (remembers self.new) };

    /// Makes room for one whole step, so that no call of the step takes memory.
    fn prepare(&mut self) -> Result<(), Memory>
        ensures ok { OnOk result (seen self.new ≡ after_prepare (seen self.old)) }
        ensures err { OnErr result (seen self.new ≡ seen self.old) }
        ensures past { KeepsAll (remembers self.old) (remembers self.new) }
        ensures bounded { IsTrue BOUNDED → IsTrue (never_spawns (seen self.old).layout.streams) → IsOk result };

    /// Begins a step at a time in nanoseconds: what was this step's is now an earlier value.
    fn begin(&mut self, time: u64)
        requires { CanBegin (seen self.old) time }
        ensures seen { seen self.new ≡ after_begin (seen self.old) time }
        ensures past { (names : Naming) (n i : ℕ) (values : List (ℕ × Field)) → remembers self.old names n i values
            → remembers self.new names n i (values ++ one_more (time_seen (seen self.old)) (read_outcome names (now_seen (seen self.old) n i))) };

    /// The value at this step, for a direct access and `get`: poison where the stream is poisoned, and
    /// missing where the instance does not live.
    fn now(&self, stream: u32, params: &Params) -> Outcome
        requires running { IsRunning (seen self.now) }
        requires fits { Fits (seen self.now) stream params.now }
        ensures value { result ≡ now_of (seen self.now) stream params.now }
        ensures kind { IsTrue (is_outcome_of (kind_in (slice_get (seen self.now).layout.streams stream)) result) };

    /// The newest value at this step or before, for `hold`.
    fn newest(&self, stream: u32, params: &Params) -> Outcome
        requires running { IsRunning (seen self.now) }
        requires fits { Fits (seen self.now) stream params.now }
        ensures living { MatchOption (place_of (seen self.now) stream params.now)
            (result ≡ now_of (seen self.now) stream params.now)
            (λ i. (names : Naming) (values : List (ℕ × Field)) → remembers self.now names stream i values
            → IsHeldIn names (now_of (seen self.now) stream params.now)
            → (read_outcome names result ≡ held_answer (read_outcome names (now_of (seen self.now) stream params.now)) values) × IsHeldIn names result) }
        ensures kind { IsTrue (is_outcome_of (kind_in (slice_get (seen self.now).layout.streams stream)) result) };

    /// The k-th value before this step from the newest, from 1, for `offset(by: -k)`.
    fn back(&self, stream: u32, params: &Params, k: u32) -> Outcome
        requires running { IsRunning (seen self.now) }
        requires fits { Fits (seen self.now) stream params.now }
        requires k_low { 1 ≤ k }
        requires k_high { k ≤ max_offset (seen self.now) stream }
        ensures living { MatchOption (place_of (seen self.now) stream params.now)
            (result ≡ outcome.Missing)
            (λ i. (names : Naming) (values : List (ℕ × Field)) → remembers self.now names stream i values
            → (read_outcome names result ≡ from_end values k) × IsHeldIn names result) }
        ensures kind { IsTrue (is_outcome_of (kind_in (slice_get (seen self.now).layout.streams stream)) result) };

    /// The value at this step of a stream that has no parameters, as `now` has it: no parameters are made, handed down or compared
    /// by a store that knows where the one instance stands.
    fn now_alone(&self, stream: u32) -> Brief
        requires running { IsRunning (seen self.now) }
        requires stream { stream < length (seen self.now).layout.streams }
        requires none { parameters_of (slice_get (seen self.now).layout.streams stream) ≡ [] }
        ensures value { result ≡ now_of (seen self.now) stream no_params }
        ensures kind { IsTrue (is_outcome_of (kind_in (slice_get (seen self.now).layout.streams stream)) result) }
    {
        Brief::of(self.now(stream, &without_parameters()))
    }

    /// The newest value at this step or before of a stream that has no parameters, as `newest` has it.
    fn newest_alone(&self, stream: u32) -> Brief
        requires running { IsRunning (seen self.now) }
        requires stream { stream < length (seen self.now).layout.streams }
        requires none { parameters_of (slice_get (seen self.now).layout.streams stream) ≡ [] }
        ensures living { MatchOption (place_of (seen self.now) stream no_params)
            (result ≡ now_of (seen self.now) stream no_params)
            (λ i. (names : Naming) (values : List (ℕ × Field)) → remembers self.now names stream i values
            → IsHeldIn names (now_of (seen self.now) stream no_params)
            → (read_outcome names result ≡ held_answer (read_outcome names (now_of (seen self.now) stream no_params)) values) × IsHeldIn names result) }
        ensures kind { IsTrue (is_outcome_of (kind_in (slice_get (seen self.now).layout.streams stream)) result) }
    {
        Brief::of(self.newest(stream, &without_parameters()))
    }

    /// The k-th value before this step from the newest, from 1, of a stream that has no parameters, as `back` has it.
    fn back_alone(&self, stream: u32, k: u32) -> Brief
        requires running { IsRunning (seen self.now) }
        requires stream { stream < length (seen self.now).layout.streams }
        requires none { parameters_of (slice_get (seen self.now).layout.streams stream) ≡ [] }
        requires k_low { 1 ≤ k }
        requires k_high { k ≤ max_offset (seen self.now) stream }
        ensures living { MatchOption (place_of (seen self.now) stream no_params)
            (result ≡ outcome.Missing)
            (λ i. (names : Naming) (values : List (ℕ × Field)) → remembers self.now names stream i values
            → (read_outcome names result ≡ from_end values k) × IsHeldIn names result) }
        ensures kind { IsTrue (is_outcome_of (kind_in (slice_get (seen self.now).layout.streams stream)) result) }
    {
        Brief::of(self.back(stream, &without_parameters(), k))
    }

    /// The answer of a window at this step, whose time is a whole number of panes after the start.
    fn window(&self, window: u32, params: &Params) -> Outcome
        requires running { IsRunning (seen self.now) }
        requires window { window < length (seen self.now).layout.windows }
        requires fits { Fits (seen self.now) (target_of (slice_get (seen self.now).layout.windows window)) params.now }
        requires whole { (k : ℕ) × (time_seen (seen self.now) ≡ start_seen (seen self.now) + k * pane_of (slice_get (seen self.now).layout.panes window)) }
        ensures living { MatchOption (place_of (seen self.now) (target_of (slice_get (seen self.now).layout.windows window)) params.now)
            ((names : Naming) → read_outcome names result ≡ window_reading (seen self.now) window names (now_of (seen self.now) (target_of (slice_get (seen self.now).layout.windows window)) params.now) [])
            (λ i. (names : Naming) (values : List (ℕ × Field)) → remembers self.now names (target_of (slice_get (seen self.now).layout.windows window)) i values
            → read_outcome names result ≡ window_reading (seen self.now) window names (now_of (seen self.now) (target_of (slice_get (seen self.now).layout.windows window)) params.now) values) }
        ensures kind { IsTrue (is_outcome_of (window_kind (seen self.now) window) result) };

    /// How many instances of a stream live.
    fn instances(&self, stream: u32) -> u32
        requires { stream < length (seen self.now).layout.streams }
        ensures { result ≡ length (instances_seen (seen self.now) stream) };

    /// The parameters of an instance, by its place among those of its stream in order of birth.
    fn params_of(&self, stream: u32, index: u32) -> Params
        requires { index < length (instances_seen (seen self.now) stream) }
        ensures value { MatchOption (slice_get (instances_seen (seen self.now) stream) index) ⊥ (λ x. result ≡ x.params) }
        ensures kinds { IsTrue (are_of_kinds (parameters_of (slice_get (seen self.now).layout.streams stream)) (the_values result)) }
        ensures places { IsTrue (is_well_formed result) };

    /// When an instance was born, in nanoseconds: the time of the step in which the spawn clause of its stream made it.
    fn born(&self, stream: u32, index: u32) -> u64
        requires spawns { IsTrue (spawns_in (slice_get (seen self.now).layout.streams stream)) }
        requires index { index < length (instances_seen (seen self.now) stream) }
        ensures { MatchOption (slice_get (instances_seen (seen self.now) stream) index) ⊥ (λ x. result ≡ x.born) };

    /// The first deadline that is at `from` or later of all clauses that count from the birth of an instance, over all instances that
    /// live; in nanoseconds, and none where there is none up to the greatest time.
    fn local_due(&self, from: u64) -> Option<u64>
        ensures { result ≡ due_seen (seen self.now) from };

    /// Lists the places of the instances of a stream that have a deadline at a moment, of a clause that counts from their births. They
    /// come in order of birth, in a list that has the room.
    fn list_due(&self, stream: u32, time: u64, places: &mut Vec<u32>)
        requires stream { stream < length (seen self.now).layout.streams }
        requires in_time { time ≤ latest }
        requires room { length (instances_seen (seen self.now) stream) ≤ vec_capacity places.old }
        ensures places { places.new.items ≡ due_places (seen self.now) stream time }
        ensures capacity { vec_capacity places.new ≡ vec_capacity places.old };

    /// Where the instance of a stream with these parameters stands, if it lives. A store that keeps no table of its instances does not
    /// say.
    fn find(&self, _stream: u32, _params: &Params) -> Whereabouts
        requires stream { _stream < length (seen self.now).layout.streams }
        requires places { IsTrue (is_well_formed _params.now) }
        ensures { StandsOnlyAt result (parameters_of (slice_get (seen self.now).layout.streams _stream)) _params.now (instances_seen (seen self.now) _stream) }
    {
        Whereabouts::Unknown
    }

    /// Gives an instance its value of this step.
    fn push(&mut self, stream: u32, index: u32, value: BriefValue)
        requires running { IsRunning (seen self.old) }
        requires index { index < length (instances_seen (seen self.old) stream) }
        requires silent { IsTrue (is_silent (now_seen (seen self.old) stream index)) }
        requires kind { IsTrue (is_of_kind (kind_in (slice_get (seen self.old).layout.streams stream)) value) }
        ensures seen { seen self.new ≡ after_outcome (seen self.old) stream index (outcome.Value value) }
        // through the namings that have the value's text: no other could read it at the next step
        ensures past { (names : Naming) (n i : ℕ) (values : List (ℕ × Field)) → IsHeld names value
            → remembers self.old names n i values → remembers self.new names n i values };

    /// Poisons an instance in this step: its expression has a fault, or read one that is poisoned.
    fn poison(&mut self, stream: u32, index: u32)
        requires running { IsRunning (seen self.old) }
        requires index { index < length (instances_seen (seen self.old) stream) }
        requires silent { IsTrue (is_silent (now_seen (seen self.old) stream index)) }
        ensures seen { seen self.new ≡ after_outcome (seen self.old) stream index outcome.Poison }
        ensures past { KeepsAll (remembers self.old) (remembers self.new) };

    /// Gives each instance of a stream what it comes to in this step, in order of birth: a value is pushed, a fault or poison poisons it,
    /// and where there is none nothing happens. The instances are shared out among at most so many threads.
    fn give_each<R: Threads + Sync>(
        &mut self,
        rt: &R,
        stream: u32,
        outcomes: &[Brief],
        workers: u32,
    )
        requires running { IsRunning (seen self.old) }
        requires stream { stream < length (seen self.old).layout.streams }
        requires workers { 1 ≤ workers }
        // as the bound says, which the body of an `impl` is not told
        requires shared { IsSync R.row }
        requires each { length outcomes.now ≡ length (instances_seen (seen self.old) stream) }
        requires silent { (i : ℕ) → IsTrue (is_silent (now_seen (seen self.old) stream i)) }
        requires kinds { AreOutcomesOf (kind_in (slice_get (seen self.old).layout.streams stream)) outcomes.now }
        ensures seen { seen self.new ≡ after_each (seen self.old) stream outcomes.now }
        // as with `push`
        ensures past { (names : Naming) (n i : ℕ) (values : List (ℕ × Field)) → AreHeldIn names outcomes.now
            → remembers self.old names n i values → remembers self.new names n i values };

    /// Poisons a stream in this step: its spawn clause has a fault or is poisoned.
    fn poison_stream(&mut self, stream: u32)
        requires running { IsRunning (seen self.old) }
        requires stream { stream < length (seen self.old).layout.streams }
        ensures seen { seen self.new ≡ after_poison_stream (seen self.old) stream }
        ensures past { KeepsAll (remembers self.old) (remembers self.new) };

    /// A new instance, if it does not live and there is room. At most one of a stream in a step.
    fn spawn(&mut self, stream: u32, params: Params) -> SpawnEnd
        requires running { IsRunning (seen self.old) }
        requires fits { Fits (seen self.old) stream params }
        requires spawns { IsTrue (spawns_in (slice_get (seen self.old).layout.streams stream)) }
        requires first { IsTrue (not (has_spawned (slice_get (seen self.old).streams stream))) }
        ensures end { result ≡ spawn_end (place_of (seen self.old) stream params) (length (instances_seen (seen self.old) stream)) }
        ensures seen { seen self.new ≡ after_spawn (seen self.old) stream params (has_room (place_of (seen self.old) stream params) (length (instances_seen (seen self.old) stream))) }
        ensures past { KeepsAll (remembers self.old) (remembers self.new) }
        ensures new { (names : Naming) → IsTrue (has_room (place_of (seen self.old) stream params) (length (instances_seen (seen self.old) stream)))
            → remembers self.new names stream (length (instances_seen (seen self.old) stream)) [] };

    /// Takes an instance away with its values; later ones move up by one.
    fn close(&mut self, stream: u32, index: u32)
        requires running { IsRunning (seen self.old) }
        requires spawns { IsTrue (spawns_in (slice_get (seen self.old).layout.streams stream)) }
        requires index { index < length (instances_seen (seen self.old) stream) }
        ensures seen { seen self.new ≡ after_close (seen self.old) stream index }
        ensures past { KeepsOthers stream index (remembers self.old) (remembers self.new) };

    /// A naming that has more texts serves as well.
    ghost renamed: { (s : Self) (names more : Naming) (n i : ℕ) (values : List (ℕ × Field))
        → IsHeldBy names more → remembers s names n i values → remembers s more n i values };
}
