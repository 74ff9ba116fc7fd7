//! The instances of one stream, each with the last of its values and the panes of each window onto the stream.

ghost use Rattle.std.specs.Prelude.{◌≡◌, ℕ, ◌≤◌, ◌<◌, ◌+◌, ◌-◌, ◌^◌, ◌++◌, ◌∷◌, [], List, Some, None, true, false, not, map, nat_eq, length, slice_get, remove, IfOk, IsOk, OnOk, IsTrue, MatchOption};
ghost use Rattle.std.specs.Vec.{vec_capacity};
ghost use Rattle.lola_value.specs.declared.text.Field.{Field};
ghost use Rattle.lola_value.specs.declared.value.Outcome.TheVariants as outcome;
ghost use Rattle.lola_value.specs.Kinds.{are_of_kinds, is_of_kind, is_outcome_of, is_well_formed};
ghost use Rattle.lola_value.specs.Naming.{Naming, read_outcome, the_values, IsHeld, IsHeldIn};
ghost use Rattle.lola_value.specs.Times.{latest};
ghost use Rattle.lola_model.specs.Accesses.{from_end};
ghost use Rattle.lola_model.specs.Given.{AreHeldIn, AreOutcomesOf, given_each};
ghost use Rattle.lola_model.specs.Reading.{held_answer};
ghost use Rattle.lola_model.specs.Spawning.{has_room, spawn_end};
ghost use Rattle.lola_model.specs.Store.{gives_kind, is_silent, no_params, opened, told_at};
ghost use Rattle.lola_model.specs.Typing.{takes};
ghost use Rattle.lola_instances_one.specs.Holdings.{slot_seen};
ghost use Rattle.lola_instances_one.specs.Unborn.{AllOnto, AllSound};
ghost use Rattle.lola_instances_stream.specs.Births.{births_of, firsts, newborn};
ghost use Rattle.lola_instances_stream.specs.Crowds.{RemembersAt, crowd, crowd_seen, now_in, place_in, shown_at};
ghost use Rattle.lola_instances_stream.specs.Dues.{due_at_births, due_since, in_time};
ghost use Rattle.lola_instances_stream.specs.Listings.{StandsOnly};
ghost use Rattle.lola_model.specs.Whereabouts.{may_stand_at};
ghost use Rattle.lola_instances_stream.specs.Rights.{AreRight, AreSteady, AreTimely, CrowdRight};
ghost use Rattle.lola_instances_stream.specs.Texts.{crowd_texts};
ghost use Rattle.lola_instances_stream.specs.Windowed.{IsWhole, windowed};

use crate::cells::Cells;
use crate::due::{first_dues, make_places};
use crate::giving::give_in_turn;
use crate::nothing::without_values;
use crate::slots::{bear, fill_spares, first_slots};
use lola_instances_one::instance::Instance;
use lola_instances_one::times::DueTimes;
use lola_instances_one::window::WindowPanes;
use lola_model::spec::Kinds;
use lola_model::store::{SpawnEnd, Whereabouts};
use lola_text::ids::Ids;
use lola_value::brief::{Brief, BriefValue};
use lola_value::rate::Rate;
use lola_value::short::Short;
use lola_value::text::Memory;
use lola_value::value::{Kind, Outcome, Params};
use std::alloc::Global;
use std::hash::RandomState;
use std::marker::Model;
use std::thread::Threads;

/// The instances of a stream, in order of birth. The numbers of steps, from 1, say when it was poisoned last and when its
/// spawn clause ran last; 0 is none. Nothing is done to it when a step begins.
#[derive(Drop)]
pub struct Instances {
    alloc: Global,
    kind: Kind,
    parameters: Kinds,
    spawns: bool,
    kept: u32,
    // of the clauses that count from the birth of each instance
    dues: DueTimes,
    windows: Vec<WindowPanes>,
    bad_at: u64,
    pub(crate) spawned_at: u64,
    pub(crate) slots: Cells,
    // made ahead, for instances that are still to be born
    spares: Vec<Instance>,
}

impl Model for Instances {
    ghost use Rattle.std.specs.Prelude.{length};
    ghost use Rattle.lola_instances_stream.specs.Crowds.{Crowd, crowd};
    ghost use Rattle.lola_instances_stream.specs.Dues.{IsDated};
    ghost use Rattle.lola_instances_stream.specs.Rights.{HasPlaces, IsSettled};

    ghost Value = { Crowd };

    ghost view = { λ l. crowd (record { kind = l.kind; parameters = l.parameters; spawns = l.spawns; kept = l.kept; locals = l.dues.rates }) l.windows.items l.bad_at l.spawned_at l.slots.items l.slots.capacity (length l.spares.items) };

    ghost invariant = { λ l. IsSettled l.kind l.kept l.windows.items l.spares.items × HasPlaces l.spares.items l.slots × IsDated l.slots.items l.spares.items l.dues };
}

// Whether the instances have parameters: a stream with no spawn clause has one instance with none.
fn has_parameters(spawns: bool, parameters: &Kinds) -> bool
    ensures { result ≡ true → spawns ≡ true }
{
    spawns && !parameters.as_slice().is_empty()
}

// A place as a store tells it; one past all numbers of instances is not told.
fn place_of(place: usize) -> Whereabouts
    ensures { may_stand_at result place ≡ true }
{
    match u32::try_from(place) {
        Ok(index) => Whereabouts::At(index),
        Err(_) => Whereabouts::Unknown,
    }
}

impl Instances {
    /// The instances of a stream of a new store: one, where there is no spawn clause. Each keeps its last `kept` values
    /// and the panes of these windows, and has the deadlines of these rates, counted from its birth. Among many with parameters one
    /// is looked up by a hash under the keys of `hasher`: where nobody who chooses parameters knows the keys, nobody can choose
    /// parameters that collide. The keys change no answer.
    pub fn create(
        alloc: Global,
        hasher: RandomState,
        kind: Kind,
        parameters: Kinds,
        spawns: bool,
        kept: u32,
        locals: Vec<Rate>,
        windows: Vec<WindowPanes>,
    ) -> Result<Instances, Memory>
        requires kept { 1 ≤ kept }
        requires sound { AllSound windows.items }
        requires onto { AllOnto kind windows.items }
        ensures crowd { IfOk result (λ l. l ≡ crowd (record { kind = kind; parameters = parameters; spawns = spawns; kept = kept; locals = locals.items }) windows.items 0 0 (firsts spawns kept windows.items) l.capacity 0) }
        ensures seen { IfOk result (λ l. crowd_seen 1 l ≡ opened l.layout) }
        ensures right { IfOk result (λ l. (spawns ≡ false → parameters ≡ []) → CrowdRight false false 1 0 l) }
        ensures past { IfOk result (λ l. (start time : ℕ) (names : Naming) (i : ℕ) → i < length l.slots → RemembersAt start time 1 names (slice_get l.slots i) []) }
    {
        let is_kept = has_parameters(spawns, &parameters);
        let slots = first_slots(alloc, hasher, is_kept, spawns, kept, windows.as_slice())?;
        let dues = first_dues(alloc, spawns, locals)?;
        Ok(Instances {
            alloc,
            kind,
            parameters,
            spawns,
            kept,
            dues,
            windows,
            bad_at: 0,
            spawned_at: 0,
            slots,
            spares: Vec::new(alloc),
        })
    }

    /// How many instances live.
    pub fn instances(&self) -> usize
        ensures { result ≡ length self.now.slots }
    {
        self.slots.len()
    }

    /// Whether the stream has a spawn clause.
    pub fn spawns(&self) -> bool
        ensures { result ≡ self.now.layout.spawns }
    {
        self.spawns
    }

    // The instance at a place.
    pub(crate) fn slot(&self, index: usize) -> &Instance
        requires { index < length self.now.slots }
        ensures { slice_get self.now.slots index ≡ Some result.now }
    {
        self.slots.get(index)
    }

    // The place of the instance with these parameters: one instance is looked at, and among many it is looked up.
    fn found(&self, params: &Params) -> Option<usize>
        requires { IsTrue (is_well_formed params.now) }
        ensures { result ≡ place_in params.now self.now.slots 0 }
    {
        self.slots.place(params)
    }

    // The place of the instance of a stream without parameters: the first, if one lives. Nothing is searched or compared.
    fn alone(&self) -> Option<usize>
        requires none { self.now.layout.parameters ≡ [] }
        requires steady { AreSteady self.now }
        ensures { result ≡ place_in no_params self.now.slots 0 }
    {
        if self.instances() > 0 { Some(0) } else { None }
    }

    /// Where the instance with these parameters stands, where a table of them is kept; else nothing is said.
    pub fn find(&self, params: &Params) -> Whereabouts
        requires places { IsTrue (is_well_formed params.now) }
        requires steady { AreSteady self.now }
        ensures { StandsOnly result self.now.layout.parameters params.now self.now.slots }
    {
        if !self.slots.is_kept() {
            return Whereabouts::Unknown;
        }
        match self.slots.find(params) {
            None => Whereabouts::Nowhere,
            Some(place) => place_of(place),
        }
    }

    /// The parameters of the instance at a place.
    pub fn params_of(&self, index: usize) -> Params
        requires index { index < length self.now.slots }
        requires steady { AreSteady self.now }
        ensures value { MatchOption (slice_get self.now.slots index) ⊥ (λ s. result ≡ s.params) }
        ensures kinds { IsTrue (are_of_kinds self.now.layout.parameters (the_values result)) }
        ensures places { IsTrue (is_well_formed result) }
    {
        self.slot(index).params()
    }

    /// When the instance at a place was born.
    pub fn born(&self, index: usize) -> u64
        requires { index < length self.now.slots }
        ensures { MatchOption (slice_get self.now.slots index) ⊥ (λ s. result ≡ s.born) }
    {
        self.slot(index).born()
    }

    /// The first deadline from a moment on of the clauses that count from the birth of each instance, if it is a time.
    pub fn local_due(&self, from: u64) -> Option<u64>
        ensures { result ≡ in_time (due_since self.now.layout.locals from (births_of self.now.slots)) }
    {
        self.dues.next(from)
    }

    /// Lists the places of the instances that have a deadline at a moment, of a clause that counts from the birth of each, in a list
    /// that has the room.
    pub fn list_due(&self, time: u64, places: &mut Vec<u32>)
        requires in_time { time ≤ latest }
        requires few { length self.now.slots ≤ 65536 }
        requires room { length self.now.slots ≤ vec_capacity places.old }
        ensures places { places.new.items ≡ due_at_births self.now.layout.locals time (births_of self.now.slots) }
        ensures capacity { vec_capacity places.new ≡ vec_capacity places.old }
    {
        self.dues.list(time, places);
    }

    /// The value in the step of a number: poison where the stream is poisoned, and missing where the instance does not
    /// live.
    pub fn now(&self, step: u64, params: &Params) -> Outcome
        requires places { IsTrue (is_well_formed params.now) }
        requires steady { AreSteady self.now }
        ensures value { result ≡ now_in step self.now params.now }
        ensures kind { IsTrue (is_outcome_of self.now.layout.kind result) }
    {
        if self.is_bad(step) {
            return Outcome::Poison;
        }
        match self.found(params) {
            None => Outcome::Missing,
            Some(i) => self.slot(i).now(step).widen(),
        }
    }

    /// The newest value in this step or before.
    pub fn newest(&self, step: u64, params: &Params) -> Outcome
        requires places { IsTrue (is_well_formed params.now) }
        requires steady { AreSteady self.now }
        ensures living { MatchOption (place_in params.now self.now.slots 0)
            (result ≡ now_in step self.now params.now)
            (λ i. (start time : ℕ) (names : Naming) (values : List (ℕ × Field)) → RemembersAt start time step names (slice_get self.now.slots i) values
            → (read_outcome names result ≡ held_answer (read_outcome names (now_in step self.now params.now)) values) × IsHeldIn names result) }
        ensures kind { IsTrue (is_outcome_of self.now.layout.kind result) }
    {
        if self.is_bad(step) {
            return Outcome::Poison;
        }
        match self.found(params) {
            None => Outcome::Missing,
            Some(i) => self.slot(i).newest(step).widen(),
        }
    }

    /// The k-th value before this step from the newest, from 1 to one less than how many it keeps.
    pub fn back(&self, step: u64, params: &Params, k: u32) -> Outcome
        requires places { IsTrue (is_well_formed params.now) }
        requires steady { AreSteady self.now }
        requires k_low { 1 ≤ k }
        requires k_high { k ≤ self.now.layout.kept - 1 }
        ensures living { MatchOption (place_in params.now self.now.slots 0)
            (result ≡ outcome.Missing)
            (λ i. (start time : ℕ) (names : Naming) (values : List (ℕ × Field)) → RemembersAt start time step names (slice_get self.now.slots i) values
            → (read_outcome names result ≡ from_end values k) × IsHeldIn names result) }
        ensures kind { IsTrue (is_outcome_of self.now.layout.kind result) }
    {
        match self.found(params) {
            None => Outcome::Missing,
            Some(i) => self.slot(i).back(step, k).widen(),
        }
    }

    /// The value in the step of a number, of a stream without parameters.
    #[inline(always)]
    pub fn now_alone(&self, step: u64) -> Brief
        requires none { self.now.layout.parameters ≡ [] }
        requires steady { AreSteady self.now }
        ensures value { result ≡ now_in step self.now no_params }
        ensures kind { IsTrue (is_outcome_of self.now.layout.kind result) }
    {
        if self.is_bad(step) {
            return Brief::create(Short::Poison);
        }
        match self.alone() {
            None => Brief::missing(),
            Some(first) => self.slot(first).now(step),
        }
    }

    /// The newest value in this step or before, of a stream without parameters.
    #[inline(always)]
    pub fn newest_alone(&self, step: u64) -> Brief
        requires none { self.now.layout.parameters ≡ [] }
        requires steady { AreSteady self.now }
        ensures living { MatchOption (place_in no_params self.now.slots 0)
            (result ≡ now_in step self.now no_params)
            (λ i. (start time : ℕ) (names : Naming) (values : List (ℕ × Field)) → RemembersAt start time step names (slice_get self.now.slots i) values
            → (read_outcome names result ≡ held_answer (read_outcome names (now_in step self.now no_params)) values) × IsHeldIn names result) }
        ensures kind { IsTrue (is_outcome_of self.now.layout.kind result) }
    {
        if self.is_bad(step) {
            return Brief::create(Short::Poison);
        }
        match self.alone() {
            None => Brief::missing(),
            Some(first) => self.slot(first).newest(step),
        }
    }

    /// The k-th value before this step from the newest, from 1 to one less than how many it keeps, of a stream without parameters.
    #[inline(always)]
    pub fn back_alone(&self, step: u64, k: u32) -> Brief
        requires none { self.now.layout.parameters ≡ [] }
        requires steady { AreSteady self.now }
        requires k_low { 1 ≤ k }
        requires k_high { k ≤ self.now.layout.kept - 1 }
        ensures living { MatchOption (place_in no_params self.now.slots 0)
            (result ≡ outcome.Missing)
            (λ i. (start time : ℕ) (names : Naming) (values : List (ℕ × Field)) → RemembersAt start time step names (slice_get self.now.slots i) values
            → (read_outcome names result ≡ from_end values k) × IsHeldIn names result) }
        ensures kind { IsTrue (is_outcome_of self.now.layout.kind result) }
    {
        match self.alone() {
            None => Brief::missing(),
            Some(first) => self.slot(first).back(step, k),
        }
    }

    // The window at a place.
    fn window_at(&self, place: usize) -> &WindowPanes
        requires { place < length self.now.windows }
        ensures at { slice_get self.now.windows place ≡ Some result.now }
        ensures takes { IsTrue (takes result.now.aggregation result.now.kind) }
    {
        &self.windows[place]
    }

    // Whether the stream is poisoned in the step of a number.
    fn is_bad(&self, step: u64) -> bool
        ensures { result ≡ nat_eq self.now.bad_at step }
    {
        self.bad_at == step
    }

    /// The answer of the window at a place among those onto the stream, `offset` after the start, where a pane of it
    /// ends. It is poison where this step's outcome is.
    pub fn window(&self, step: u64, params: &Params, place: usize, offset: u64) -> Outcome
        requires places { IsTrue (is_well_formed params.now) }
        requires steady { AreSteady self.now }
        requires timely { AreTimely step offset self.now }
        requires place { place < length self.now.windows }
        requires whole { MatchOption (slice_get self.now.windows place) ⊥ (IsWhole offset) }
        ensures living { MatchOption (slice_get self.now.windows place) ⊥ (λ w. MatchOption (place_in params.now self.now.slots 0)
            ((start time : ℕ) (names : Naming) → offset ≡ time - start → start ≤ time
            → read_outcome names result ≡ windowed start time w (read_outcome names (now_in step self.now params.now)) [])
            (λ i. (start time : ℕ) (names : Naming) (values : List (ℕ × Field)) → RemembersAt start time step names (slice_get self.now.slots i) values → offset ≡ time - start → start ≤ time
            → read_outcome names result ≡ windowed start time w (read_outcome names (now_in step self.now params.now)) values)) }
        ensures kind { MatchOption (slice_get self.now.windows place) ⊥ (λ w. IsTrue (is_outcome_of (gives_kind w.aggregation w.kind) result)) }
    {
        if self.is_bad(step) {
            return Outcome::Poison;
        }
        match self.found(params) {
            None => without_values(self.window_at(place), offset),
            Some(i) => self.slot(i).window(step, place, offset),
        }
    }

    /// How many values it keeps now of the instance at a place, never more than it was made for.
    pub fn kept(&self, index: usize) -> u32
        requires index { index < length self.now.slots }
        requires steady { AreSteady self.now }
        ensures length { MatchOption (slice_get self.now.slots index) ⊥ (λ s. result ≡ length s.ring.values) }
        ensures within { result ≤ self.now.layout.kept }
    {
        self.slot(index).kept()
    }

    /// How many panes it keeps now of a window, by its place, of the instance at a place; never more than the window has.
    pub fn panes(&self, place: usize, index: usize) -> u32
        requires index { index < length self.now.slots }
        requires place { place < length self.now.windows }
        requires steady { AreSteady self.now }
        ensures length { MatchOption (slice_get self.now.slots index) ⊥ (λ s. MatchOption (slice_get s.panes place) ⊥ (λ p. result ≡ length p.panes)) }
        ensures within { MatchOption (slice_get self.now.windows place) ⊥ (λ w. result ≤ w.count) }
    {
        self.slot(index).panes(place)
    }

    /// Adds the numbers of the texts that the instances hold, one instance after another. Where there is no memory some of
    /// them may have been added.
    pub fn texts(&self, into: &mut Ids) -> Result<(), Memory>
        ensures { OnOk result (into.new ≡ into.old ++ crowd_texts self.now) }
    {
        for i in 0..self.instances() {
            self.slot(i).texts(into)?;
        }
        Ok(())
    }

    /// Makes room for the births of one whole step, so that none of its calls takes memory: none is wanted where there
    /// is no spawn clause. It does so too where this step is not over, so two instances are made ahead. From a moment on
    /// before which all deadlines are passed, the next one is found quickly.
    pub fn prepare(&mut self, passed: u64) -> Result<(), Memory>
        ensures rest { self.new ≡ record self.old { capacity = self.new.capacity; spares = self.new.spares } }
        ensures capacity { self.old.capacity ≤ self.new.capacity }
        ensures spares { self.old.spares ≤ self.new.spares }
        ensures room { OnOk result (self.old.layout.spawns ≡ true → length self.old.slots + 2 ≤ self.new.capacity) }
        ensures ready { OnOk result (self.old.layout.spawns ≡ true → 2 ≤ self.new.spares) }
        ensures plain { self.old.layout.spawns ≡ false → IsOk result }
    {
        if !self.spawns {
            return Ok(());
        }
        self.dues.pass(passed);
        match self.slots.make_room() {
            Err(memory) => Err(memory),
            Ok(()) => self.make_spares(),
        }
    }

    // Two instances at least that are made ahead, and room for their parameters and births.
    fn make_spares(&mut self) -> Result<(), Memory>
        ensures rest { self.new ≡ record self.old { spares = self.new.spares } }
        ensures spares { self.old.spares ≤ self.new.spares }
        ensures ready { OnOk result (2 ≤ self.new.spares) }
    {
        let more = self.spares.len() + 2;
        match make_places(&mut self.slots, &mut self.dues, more) {
            Err(memory) => Err(memory),
            Ok(()) => fill_spares(
                &mut self.spares,
                self.alloc,
                self.kept,
                self.windows.as_slice(),
            ),
        }
    }

    /// The value of the instance at a place in this step, `offset` after the start.
    pub fn push(&mut self, step: u64, offset: u64, index: usize, value: BriefValue)
        requires step_ge { 2 ≤ step }
        requires step_le { step ≤ 2 ^ 63 + 1 }
        requires index { index < length self.old.slots }
        requires silent { IsTrue (is_silent (shown_at step (slice_get self.old.slots index))) }
        requires kind { IsTrue (is_of_kind self.old.layout.kind value) }
        requires right { AreRight true step offset self.old }
        ensures right { AreRight true step offset self.new }
        ensures rest { self.new ≡ record self.old { slots = self.new.slots } }
        ensures count { length self.new.slots ≡ length self.old.slots }
        ensures seen { map (slot_seen step) self.new.slots ≡ told_at (map (slot_seen step) self.old.slots) index (outcome.Value value) }
        ensures past { (start time : ℕ) (names : Naming) (i : ℕ) (values : List (ℕ × Field)) → offset ≡ time - start → start ≤ time → IsHeld names value
            → RemembersAt start time step names (slice_get self.old.slots i) values → RemembersAt start time step names (slice_get self.new.slots i) values }
    {
        self.slots.add_value(index, step, offset, value);
    }

    /// Poisons the instance at a place in this step.
    pub fn poison(&mut self, step: u64, _offset: u64, index: usize)
        requires index { index < length self.old.slots }
        requires silent { IsTrue (is_silent (shown_at step (slice_get self.old.slots index))) }
        requires right { AreRight true step _offset self.old }
        ensures right { AreRight true step _offset self.new }
        ensures rest { self.new ≡ record self.old { slots = self.new.slots } }
        ensures count { length self.new.slots ≡ length self.old.slots }
        ensures seen { map (slot_seen step) self.new.slots ≡ told_at (map (slot_seen step) self.old.slots) index outcome.Poison }
        ensures past { (start time : ℕ) (names : Naming) (i : ℕ) (values : List (ℕ × Field))
            → RemembersAt start time step names (slice_get self.old.slots i) values → RemembersAt start time step names (slice_get self.new.slots i) values }
    {
        self.slots.poison(index, step);
    }

    // Gives each instance what it comes to in this step, if none was closed whose cell is empty. Answers whether it was so.
    fn give_together<R: Threads + Sync>(
        &mut self,
        rt: &R,
        step: u64,
        offset: u64,
        outcomes: &[Brief],
        workers: u32,
    ) -> bool
        requires step_ge { 2 ≤ step }
        requires step_le { step ≤ 2 ^ 63 + 1 }
        requires workers { 1 ≤ workers }
        requires each { length outcomes.now ≡ length self.old.slots }
        requires silent { (i : ℕ) → IsTrue (is_silent (shown_at step (slice_get self.old.slots i))) }
        requires kinds { AreOutcomesOf self.old.layout.kind outcomes.now }
        requires right { AreRight true step offset self.old }
        ensures none { result ≡ false → self.new ≡ self.old }
        ensures right { result ≡ true → AreRight true step offset self.new }
        ensures rest { result ≡ true → self.new ≡ record self.old { slots = self.new.slots } }
        ensures count { result ≡ true → length self.new.slots ≡ length self.old.slots }
        ensures seen { result ≡ true → map (slot_seen step) self.new.slots ≡ given_each (map (slot_seen step) self.old.slots) outcomes.now }
        ensures past { result ≡ true → (start time : ℕ) (names : Naming) (i : ℕ) (values : List (ℕ × Field)) → offset ≡ time - start → start ≤ time → AreHeldIn names outcomes.now
            → RemembersAt start time step names (slice_get self.old.slots i) values → RemembersAt start time step names (slice_get self.new.slots i) values }
    {
        self.slots
            .give_together(rt, step, offset, outcomes, workers)
    }

    /// Gives each instance what it comes to in this step, `offset` after the start, in order of birth: a value is added, a fault or poison
    /// poisons it, and where there is none nothing happens. The instances are shared out among at most so many threads, as long as none
    /// of those that were closed left an empty place between them.
    pub fn give_each<R: Threads + Sync>(
        &mut self,
        rt: &R,
        step: u64,
        offset: u64,
        outcomes: &[Brief],
        workers: u32,
    )
        requires step_ge { 2 ≤ step }
        requires step_le { step ≤ 2 ^ 63 + 1 }
        requires workers { 1 ≤ workers }
        requires each { length outcomes.now ≡ length self.old.slots }
        requires silent { (i : ℕ) → IsTrue (is_silent (shown_at step (slice_get self.old.slots i))) }
        requires kinds { AreOutcomesOf self.old.layout.kind outcomes.now }
        requires right { AreRight true step offset self.old }
        ensures right { AreRight true step offset self.new }
        ensures rest { self.new ≡ record self.old { slots = self.new.slots } }
        ensures count { length self.new.slots ≡ length self.old.slots }
        ensures seen { map (slot_seen step) self.new.slots ≡ given_each (map (slot_seen step) self.old.slots) outcomes.now }
        ensures past { (start time : ℕ) (names : Naming) (i : ℕ) (values : List (ℕ × Field)) → offset ≡ time - start → start ≤ time → AreHeldIn names outcomes.now
            → RemembersAt start time step names (slice_get self.old.slots i) values → RemembersAt start time step names (slice_get self.new.slots i) values }
    {
        if !self.give_together(rt, step, offset, outcomes, workers) {
            give_in_turn(self, step, offset, outcomes);
        }
    }

    /// Poisons the stream in this step.
    pub fn poison_stream(&mut self, step: u64)
        ensures { self.new ≡ record self.old { bad_at = step } }
    {
        self.bad_at = step;
    }

    // A new instance, from one that was made ahead.
    pub(crate) fn give_birth(&mut self, step: u64, time: u64, params: Params)
        requires places { IsTrue (is_well_formed params) }
        requires room { length self.old.slots < self.old.capacity }
        requires spare { 1 ≤ self.old.spares }
        requires absent { place_in params self.old.slots 0 ≡ None }
        ensures kept { 1 ≤ self.old.layout.kept }
        ensures born { self.new ≡ record self.old { spawned_at = step; slots = self.old.slots ++ newborn self.old.layout.kept self.old.windows time params ∷ []; spares = self.new.spares } }
        ensures spares { self.new.spares + 1 ≡ self.old.spares }
        ensures onto { AllOnto self.old.layout.kind self.old.windows }
    {
        self.spawned_at = step;
        bear(
            &mut self.slots,
            &mut self.spares,
            params,
            time,
            self.kept,
            self.windows.as_slice(),
        );
        self.dues.add(time);
    }

    /// A new instance with no values, born at a time, if it does not live and fewer than 65,536 do. There is room for it, and one was
    /// made ahead.
    pub fn spawn(&mut self, step: u64, _offset: u64, time: u64, params: Params) -> SpawnEnd
        requires step_ge { 1 ≤ step }
        requires places { IsTrue (is_well_formed params) }
        requires kinds { IsTrue (are_of_kinds self.old.layout.parameters (the_values params)) }
        requires room { length self.old.slots < self.old.capacity }
        requires spare { 1 ≤ self.old.spares }
        requires right { AreRight true step _offset self.old }
        ensures right { AreRight true step _offset self.new }
        ensures end { result ≡ spawn_end (place_in params self.old.slots 0) (length self.old.slots) }
        ensures living { IsTrue (not (has_room (place_in params self.old.slots 0) (length self.old.slots))) → self.new ≡ self.old }
        ensures born { IsTrue (has_room (place_in params self.old.slots 0) (length self.old.slots))
            → self.new ≡ record self.old { spawned_at = step; slots = self.old.slots ++ newborn self.old.layout.kept self.old.windows time params ∷ []; spares = self.new.spares } }
        ensures spares { self.old.spares ≤ self.new.spares + 1 }
        ensures past { (start time : ℕ) (names : Naming) (i : ℕ) (values : List (ℕ × Field))
            → RemembersAt start time step names (slice_get self.old.slots i) values → RemembersAt start time step names (slice_get self.new.slots i) values }
        ensures new { IsTrue (has_room (place_in params self.old.slots 0) (length self.old.slots))
            → (start time : ℕ) (names : Naming) → RemembersAt start time step names (slice_get self.new.slots (length self.old.slots)) [] }
    {
        if self.found(&params).is_some() {
            return SpawnEnd::Living;
        }
        if self.slots.len() >= 65536 {
            return SpawnEnd::TooMany;
        }
        self.give_birth(step, time, params);
        SpawnEnd::Born
    }

    /// Takes the instance at a place away with its values; later ones move up by one.
    pub fn close(&mut self, index: usize)
        requires { index < length self.old.slots }
        ensures { self.new ≡ record self.old { slots = remove self.old.slots index } }
    {
        self.slots.remove(index);
        self.dues.remove(index);
    }
}
