//! An instance of a stream: its parameters, its outcome of this step, and all its values.

ghost use Rattle.std.specs.Prelude.{◌≡◌, ℕ, ◌+◌, ◌-◌, ◌<◌, ◌≤◌, ◌++◌, ◌∷◌, [], List, IsTrue, OnOk, vec_len};
ghost use Rattle.std.specs.Vec.{vec_capacity};
ghost use Rattle.lola_value.specs.declared.text.Field.{Field};
ghost use Rattle.lola_value.specs.declared.value.Outcome.TheVariants as outcome;
ghost use Rattle.lola_value.specs.Naming.{Naming, read_outcome, IsHeldIn};
ghost use Rattle.lola_model.specs.Accesses.{from_end};
ghost use Rattle.lola_model.specs.Reading.{held_answer};
ghost use Rattle.lola_model.specs.Store.{is_outcome_of};
ghost use Rattle.lola_value.specs.declared.value.Kind.{Kind};
ghost use Rattle.lola_store.specs.Tallies.{AllOf};
ghost use Rattle.lola_store.specs.Instances.{shown, Recalls, outcome_from_end};

use crate::tally::Timed;
use lola_value::text::Memory;
use lola_value::value::{Outcome, Params, Value};

/// An instance, with the time of its birth. Its outcome belongs to the step of its number, and is none of a later one,
/// so that a step begins without a pass over the instances. Its values include that of this step.
#[derive(Drop)]
pub struct Instance {
    pub params: Params,
    pub born: u64,
    pub told_at: u64,
    pub outcome: Outcome,
    pub values: Vec<Timed>,
}

/// The k-th value from the end, from 1.
fn from_last(values: &[Timed], k: usize) -> Outcome
    requires { 1 ≤ k }
    ensures { result ≡ outcome_from_end values.now k }
{
    if k <= values.len() {
        Outcome::Value(values[values.len() - k].item)
    } else {
        Outcome::Missing
    }
}

impl Instance {
    /// The outcome in the step of this number.
    pub fn now(&self, step: u64) -> Outcome
        ensures { result ≡ shown step self.now }
    {
        if self.told_at == step {
            self.outcome
        } else {
            Outcome::Missing
        }
    }

    /// The newest value, that of this step included.
    pub fn newest(&self, step: u64) -> Outcome
        ensures value { (time : ℕ) (names : Naming) (values : List (ℕ × Field)) → Recalls time step names self.now values
            → (read_outcome names result ≡ held_answer (read_outcome names (shown step self.now)) values) × IsHeldIn names result }
        ensures kind { (k : Kind) → IsTrue (is_outcome_of k self.now.outcome) → AllOf k self.now.values.items → IsTrue (is_outcome_of k result) }
    {
        match self.now(step) {
            Outcome::Missing => from_last(self.values.as_slice(), 1),
            outcome => outcome,
        }
    }

    /// The k-th value before this step.
    pub fn back(&self, step: u64, k: u32) -> Outcome
        requires { 1 ≤ k }
        ensures value { (time : ℕ) (names : Naming) (values : List (ℕ × Field)) → Recalls time step names self.now values
            → (read_outcome names result ≡ from_end values k) × IsHeldIn names result }
        ensures kind { (k : Kind) → AllOf k self.now.values.items → IsTrue (is_outcome_of k result) }
    {
        match self.now(step) {
            Outcome::Value(_) => from_last(self.values.as_slice(), k as usize + 1),
            _ => from_last(self.values.as_slice(), k as usize),
        }
    }

    /// The value of this step. There is room for it.
    pub fn push(&mut self, step: u64, time: u64, v: Value)
        requires { vec_len self.old.values < vec_capacity self.old.values }
        ensures params { self.new.params ≡ self.old.params }
        ensures born { self.new.born ≡ self.old.born }
        ensures told_at { self.new.told_at ≡ step }
        ensures outcome { self.new.outcome ≡ outcome.Value v }
        ensures values { self.new.values.items ≡ self.old.values.items ++ record { at = time; item = v } ∷ [] }
        ensures len { vec_len self.new.values ≡ vec_len self.old.values + 1 }
        ensures capacity { vec_capacity self.new.values ≡ vec_capacity self.old.values }
    {
        self.told_at = step;
        self.outcome = Outcome::Value(v);
        self.values.push_reserved(Timed { at: time, item: v });
    }

    /// Poison in this step.
    pub fn poison(&mut self, step: u64)
        ensures params { self.new.params ≡ self.old.params }
        ensures born { self.new.born ≡ self.old.born }
        ensures told_at { self.new.told_at ≡ step }
        ensures outcome { self.new.outcome ≡ outcome.Poison }
        ensures values { self.new.values ≡ self.old.values }
    {
        self.told_at = step;
        self.outcome = Outcome::Poison;
    }

    /// Makes room for two more values. It keeps the room that there is, whatever the answer.
    pub fn make_room(&mut self) -> Result<(), Memory>
        ensures params { self.new.params ≡ self.old.params }
        ensures born { self.new.born ≡ self.old.born }
        ensures told_at { self.new.told_at ≡ self.old.told_at }
        ensures outcome { self.new.outcome ≡ self.old.outcome }
        ensures values { self.new.values.items ≡ self.old.values.items }
        ensures len { vec_len self.new.values ≡ vec_len self.old.values }
        ensures capacity { vec_capacity self.old.values ≤ vec_capacity self.new.values }
        ensures ok { OnOk result (vec_len self.new.values + 2 ≤ vec_capacity self.new.values) }
    {
        match self.values.reserve(2) {
            Ok(()) => Ok(()),
            Err(_) => Err(Memory),
        }
    }
}
