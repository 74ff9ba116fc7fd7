//! An instance of a stream that keeps what accesses need of its values: the last ones, and the panes of each window.

ghost use Rattle.std.specs.Prelude.{◌≡◌, ℕ, ◌≤◌, ◌<◌, ◌-◌, ◌*◌, List, ◌++◌, ◌∷◌, [], length, slice_get, IfOk, IsTrue, MatchOption, OnOk, map};
ghost use Rattle.circular_buffer.specs.Buffer.{keep_last};
ghost use Rattle.lola_value.specs.declared.text.Field.{Field};
ghost use Rattle.lola_value.specs.declared.value.Kind.{Kind};
ghost use Rattle.lola_value.specs.declared.value.Outcome.TheVariants as outcome;
ghost use Rattle.lola_value.specs.Kinds.{is_outcome_of, is_well_formed};
ghost use Rattle.lola_value.specs.Naming.{Naming, read_outcome, IsHeld, IsHeldIn};
ghost use Rattle.lola_model.specs.Accesses.{from_end};
ghost use Rattle.lola_model.specs.Reading.{held_answer};
ghost use Rattle.lola_model.specs.Store.{gives_kind, no_params};
ghost use Rattle.lola_buffer.specs.Kept.{before_newest, kept};
ghost use Rattle.lola_instances_one.specs.Holdings.{shown, value_or_missing, AllOf};
ghost use Rattle.lola_instances_one.specs.Memories.{Remembers, RemembersNothing};
ghost use Rattle.lola_instances_one.specs.Saved.{ArePanesChanged, CanBeRestored, HasPane, IsNewestPane, IsPartial, WereRestored};
ghost use Rattle.lola_instances_one.specs.Telling.{IsReady, AllReady, Told, ToldAll};
ghost use Rattle.lola_instances_one.specs.Texts.{slot_texts};
ghost use Rattle.lola_instances_one.specs.Unborn.{AllSound, empty_panes, unborn};
ghost use Rattle.lola_instances_one.specs.WindowAnswers.{IsFold, IsWindowAnswer};

use crate::saved::{newest_at, partial_at, restore_at};
use crate::texts::add_ring;
use crate::window::WindowPanes;
use lola_buffer::buffer::Buffer;
use lola_panes::panes::Panes;
use lola_panes::partial::Partial;
use lola_text::adding::add_params;
use lola_text::ids::Ids;
use lola_value::brief::{Brief, BriefValue};
use lola_value::short::Short;
use lola_value::text::Memory;
use lola_value::value::{Outcome, Params, Value};
use std::alloc::Global;
use std::marker::Model;

/// An instance. Its outcome belongs to the step of a number, and is none of a later one, so that a step begins without a
/// pass over the instances. A step's value is among the last values and in the panes as soon as it is given.
#[derive(Drop)]
pub struct Instance {
    params: Params,
    born: u64,
    stamp: u64,
    outcome: Brief,
    values: Buffer,
    panes: Vec<Panes>,
}

impl Model for Instance {
    ghost use Rattle.std.specs.Prelude.{IsTrue};
    ghost use Rattle.lola_value.specs.Kinds.{is_well_formed};
    ghost use Rattle.lola_instances_one.specs.Holdings.{Holdings, holdings};

    ghost Value = { Holdings };

    ghost view = { λ s. holdings s.params s.born s.stamp s.outcome s.values s.panes.items };

    ghost invariant = { λ s. IsTrue (is_well_formed s.params) };
}

// The value, if there is one.
#[inline(always)]
pub(crate) fn or_missing(value: Option<BriefValue>) -> Brief
    ensures { result ≡ value_or_missing value }
{
    match value {
        None => Brief::missing(),
        Some(value) => Brief::given(value),
    }
}

// The fold of the values in the window of the panes at a place.
fn fold_at(panes: &Vec<Panes>, place: usize, offset: u64) -> Outcome
    requires place { place < length panes.now.items }
    requires newest { MatchOption (slice_get panes.now.items place) ⊥ (λ p. p.newest ≤ offset) }
    requires whole { MatchOption (slice_get panes.now.items place) ⊥ (λ p. (k : ℕ) × (offset ≡ k * p.pane)) }
    ensures value { MatchOption (slice_get panes.now.items place) ⊥ (IsFold offset result) }
    ensures kind { MatchOption (slice_get panes.now.items place) ⊥ (λ p. IsTrue (is_outcome_of (gives_kind p.aggregation p.kind) result)) }
{
    panes[place].read(offset)
}

// The value, to the panes of a window.
fn give(panes: &mut Panes, offset: u64, value: Value)
    requires { IsReady offset value panes.old }
    ensures { Told offset value panes.old panes.new }
{
    panes.add(offset, value);
}

// The value in full, to each window's panes.
fn tell_each(panes: &mut Vec<Panes>, offset: u64, value: Value)
    requires { AllReady offset value panes.old.items }
    ensures { ToldAll offset value panes.old.items panes.new.items }
{
    for i in 0..panes.len() {
        let p = &mut panes[i];
        give(p, offset, value);
    }
}

// The value, to each window's panes, of which there is one at least. It is a function of its own, so that a stream with no window onto it has
// no registers for them, and its value is not widened.
#[inline(never)]
fn tell_widened(panes: &mut Vec<Panes>, offset: u64, value: BriefValue)
    requires { AllReady offset value panes.old.items }
    ensures { ToldAll offset value panes.old.items panes.new.items }
{
    tell_each(panes, offset, value.widen());
}

// The value, to each window's panes.
#[inline(always)]
fn tell_panes(panes: &mut Vec<Panes>, offset: u64, value: BriefValue)
    requires { AllReady offset value panes.old.items }
    ensures { ToldAll offset value panes.old.items panes.new.items }
{
    if panes.len() > 0 {
        tell_widened(panes, offset, value);
    }
}

// The panes of these windows, with no value.
fn panes_of(alloc: Global, windows: &[WindowPanes]) -> Result<Vec<Panes>, Memory>
    requires { AllSound windows.now }
    ensures { IfOk result (λ panes. panes.items ≡ map empty_panes windows.now) }
{
    let mut made = Vec::new(alloc);
    for w in windows {
        let panes = Panes::create(alloc, w.aggregation, w.kind, w.pane, w.count, w.exact)?;
        made.push(panes)?;
    }
    Ok(made)
}

// No parameters.
fn without_parameters() -> Params
    ensures { result ≡ no_params }
{
    let unused = Value::Bool(false);
    Params {
        count: 0,
        at0: unused,
        at1: unused,
        at2: unused,
        at3: unused,
    }
}

impl Instance {
    /// An instance with no parameters and no value, and all the memory that it will ever take: for its last `capacity`
    /// values, and for the panes of each of these windows.
    pub fn create(alloc: Global, capacity: u32, windows: &[WindowPanes]) -> Result<Instance, Memory>
        requires capacity { 1 ≤ capacity }
        requires windows { AllSound windows.now }
        ensures unborn { IfOk result (λ s. s ≡ unborn capacity windows.now) }
        ensures nothing { IfOk result (λ s. RemembersNothing s) }
    {
        let values = Buffer::create(alloc, capacity)?;
        let panes = panes_of(alloc, windows)?;
        Ok(Instance {
            params: without_parameters(),
            born: 0,
            stamp: 0,
            outcome: Brief::missing(),
            values,
            panes,
        })
    }

    /// An instance that was made before it is born gets its parameters, and the time of its birth. It was given no value
    /// yet.
    pub fn begin_life(&mut self, params: Params, time: u64)
        requires formed { IsTrue (is_well_formed params) }
        requires blank { self.old.ring.values ≡ [] }
        ensures slot { self.new ≡ record self.old { params = params; born = time } }
        ensures nothing { RemembersNothing self.old → RemembersNothing self.new }
    {
        self.params = params;
        self.born = time;
    }

    /// The parameters.
    pub fn params(&self) -> Params
        ensures value { result ≡ self.now.params }
        ensures formed { IsTrue (is_well_formed result) }
    {
        self.params
    }

    /// The time of its birth.
    pub fn born(&self) -> u64
        ensures { result ≡ self.now.born }
    {
        self.born
    }

    /// The outcome in the step of this number, missing where it was given none.
    #[inline(always)]
    pub fn now(&self, step: u64) -> Brief
        ensures { result ≡ shown step self.now }
    {
        if self.stamp == step {
            self.outcome
        } else {
            Brief::missing()
        }
    }

    /// The newest value, that of this step included.
    #[inline(always)]
    pub fn newest(&self, step: u64) -> Brief
        ensures value { (start time : ℕ) (names : Naming) (values : List (ℕ × Field)) → Remembers start time step names self.now values
            → (read_outcome names result ≡ held_answer (read_outcome names (shown step self.now)) values) × IsHeldIn names result }
        ensures kind { (k : Kind) → IsTrue (is_outcome_of k self.now.outcome) → AllOf k self.now.ring.values → IsTrue (is_outcome_of k result) }
    {
        let now = self.now(step);
        match now.short() {
            Short::Missing => or_missing(self.values.back(0)),
            _ => now,
        }
    }

    /// The k-th value before this step, from 1 to one less than the number of values that it keeps.
    #[inline(always)]
    pub fn back(&self, step: u64, k: u32) -> Brief
        requires low { 1 ≤ k }
        requires high { k ≤ self.now.ring.capacity - 1 }
        ensures value { (start time : ℕ) (names : Naming) (values : List (ℕ × Field)) → Remembers start time step names self.now values
            → (read_outcome names result ≡ from_end values k) × IsHeldIn names result }
        ensures kind { (k : Kind) → AllOf k self.now.ring.values → IsTrue (is_outcome_of k result) }
    {
        match self.now(step).value() {
            Some(_) => or_missing(self.values.back(k)),
            None => or_missing(self.values.back(k - 1)),
        }
    }

    /// The answer of the window at a place, `offset` after the start. It ends with a pane, and not before a value that
    /// was given. It is poison where this step's outcome is.
    pub fn window(&self, step: u64, place: usize, offset: u64) -> Outcome
        requires place { place < length self.now.panes }
        requires newest { MatchOption (slice_get self.now.panes place) ⊥ (λ p. p.newest ≤ offset) }
        requires whole { MatchOption (slice_get self.now.panes place) ⊥ (λ p. (k : ℕ) × (offset ≡ k * p.pane)) }
        ensures value { MatchOption (slice_get self.now.panes place) ⊥ (IsWindowAnswer step offset self.now result) }
        ensures kind { MatchOption (slice_get self.now.panes place) ⊥ (λ p. IsTrue (is_outcome_of (gives_kind p.aggregation p.kind) result)) }
    {
        match self.now(step).widen() {
            Outcome::Poison => Outcome::Poison,
            Outcome::Fault(_) => Outcome::Poison,
            _ => fold_at(&self.panes, place, offset),
        }
    }

    /// The value of this step, `offset` after the start.
    pub fn add_value(&mut self, step: u64, offset: u64, value: BriefValue)
        requires ready { AllReady offset value self.old.panes }
        ensures params { self.new.params ≡ self.old.params }
        ensures born { self.new.born ≡ self.old.born }
        ensures stamp { self.new.stamp ≡ step }
        ensures outcome { self.new.outcome ≡ outcome.Value value }
        ensures ring { self.new.ring ≡ kept (keep_last self.old.ring.capacity (self.old.ring.values ++ value ∷ [])) self.old.ring.capacity }
        ensures panes { ToldAll offset value self.old.panes self.new.panes }
        ensures past { (start time : ℕ) (names : Naming) (values : List (ℕ × Field)) → Remembers start time step names self.old values
            → IsHeld names value → shown step self.old ≡ outcome.Missing → offset ≡ time - start → start ≤ time
            → Remembers start time step names self.new values }
    {
        self.stamp = step;
        self.outcome = Brief::given(value);
        self.values.push(value);
        tell_panes(&mut self.panes, offset, value);
    }

    /// Poison in this step.
    pub fn poison(&mut self, step: u64)
        ensures slot { self.new ≡ record self.old { stamp = step; outcome = outcome.Poison } }
        ensures past { (start time : ℕ) (names : Naming) (values : List (ℕ × Field)) → Remembers start time step names self.old values
            → shown step self.old ≡ outcome.Missing → Remembers start time step names self.new values }
    {
        self.stamp = step;
        self.outcome = Brief::create(Short::Poison);
    }

    /// How many values it keeps now.
    pub fn kept(&self) -> u32
        ensures length { result ≡ length self.now.ring.values }
        ensures capacity { result ≤ self.now.ring.capacity }
    {
        self.values.len()
    }

    /// How many panes it keeps now of the window at a place.
    pub fn panes(&self, place: usize) -> u32
        requires { place < length self.now.panes }
        ensures { MatchOption (slice_get self.now.panes place) ⊥ (λ p. (result ≡ length p.panes) × (result ≤ p.count)) }
    {
        self.panes[place].len()
    }

    /// Adds the numbers of the texts that it holds: of its parameters and of its last values, this step's among them.
    /// Where there is no memory some of them may have been added.
    pub fn texts(&self, into: &mut Ids) -> Result<(), Memory>
        ensures { OnOk result (into.new ≡ into.old ++ slot_texts self.now) }
    {
        add_params(&self.params, into)?;
        add_ring(&self.values, into)
    }

    /// The value that stands `k` places before the newest of its last values, which is at 0; `None` exactly where it keeps
    /// no more than `k`.
    pub fn value_back(&self, k: u32) -> Option<Value>
        ensures { result ≡ before_newest k self.now.ring.values }
    {
        match self.values.back(k) {
            None => None,
            Some(value) => Some(value.widen()),
        }
    }

    /// The pane of the newest value that the window at a place was given; `None` exactly where it was given none.
    pub fn newest_pane(&self, place: usize) -> Option<u64>
        requires { place < length self.now.panes }
        ensures { MatchOption (slice_get self.now.panes place) ⊥ (IsNewestPane result) }
    {
        newest_at(&self.panes, place)
    }

    /// The partial result of the pane `k` before that one, where it is one of the panes of the window that ends with that.
    pub fn partial(&self, place: usize, k: u32) -> Partial
        requires place { place < length self.now.panes }
        requires pane { MatchOption (slice_get self.now.panes place) ⊥ (HasPane k) }
        ensures { MatchOption (slice_get self.now.panes place) ⊥ (IsPartial k result) }
    {
        partial_at(&self.panes, place, k)
    }

    /// It was given nothing later than in the step of this number, which is over, and nothing in it that is shown.
    pub fn rest(&mut self, step: u64)
        ensures { self.new ≡ record self.old { stamp = step; outcome = outcome.Missing } }
    {
        self.stamp = step;
        self.outcome = Brief::missing();
    }

    /// One more of the values that a saved instance had, from the oldest of its last values on. It is none of this step.
    pub fn restore_value(&mut self, value: BriefValue)
        ensures { self.new ≡ record self.old { ring = kept (keep_last self.old.ring.capacity (self.old.ring.values ++ value ∷ [])) self.old.ring.capacity } }
    {
        self.values.push(value);
    }

    /// The panes that a saved instance had for the window at a place: the partial results of the last ones up to pane `last`,
    /// in order, behind `added` values in all.
    pub fn restore_panes(&mut self, place: usize, last: u64, partials: &[Partial], added: u64)
        requires place { place < length self.old.panes }
        requires panes { MatchOption (slice_get self.old.panes place) ⊥ (CanBeRestored last partials.now added) }
        ensures rest { self.new ≡ record self.old { panes = self.new.panes } }
        ensures panes { ArePanesChanged (WereRestored last partials.now added) place self.old.panes self.new.panes }
    {
        restore_at(&mut self.panes, place, last, partials, added);
    }
}
