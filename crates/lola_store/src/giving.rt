//! A whole stream is given what it comes to in a step.

ghost use Rattle.std.specs.Prelude.{◌≡◌, ◌<◌, ℕ, List, IsTrue, length, slice_get};
ghost use Rattle.lola_value.specs.declared.text.Field.{Field};
ghost use Rattle.lola_value.specs.Kinds.{is_outcome_of};
ghost use Rattle.lola_value.specs.Naming.{Naming, IsHeldIn};
ghost use Rattle.lola_model.specs.Given.{AreHeldIn, AreOutcomesOf, after_each, after_given};
ghost use Rattle.lola_model.specs.Store.{IsRunning, instances_seen, now_seen, is_silent, kind_in};
ghost use Rattle.lola_store.specs.Stores.{whole_seen, whole_remembers};

use crate::changes::{poison, push};
use crate::reading::instances;
use crate::store::WholeStore;
use lola_value::brief::Brief;
use lola_value::value::Outcome;

/// Gives an instance what it comes to in this step.
fn give(s: &mut WholeStore, stream: u32, index: u32, outcome: Outcome)
    requires running { IsRunning (whole_seen s.old) }
    requires index { index < length (instances_seen (whole_seen s.old) stream) }
    requires silent { IsTrue (is_silent (now_seen (whole_seen s.old) stream index)) }
    requires kind { IsTrue (is_outcome_of (kind_in (slice_get (whole_seen s.old).layout.streams stream)) outcome) }
    ensures seen { whole_seen s.new ≡ after_given (whole_seen s.old) stream index outcome }
    ensures past { (names : Naming) (n i : ℕ) (values : List (ℕ × Field)) → IsHeldIn names outcome
        → whole_remembers s.old names n i values → whole_remembers s.new names n i values }
{
    match outcome {
        Outcome::Value(value) => push(s, stream, index, value),
        Outcome::Missing => {}
        Outcome::Fault(_) | Outcome::Poison => poison(s, stream, index),
    }
}

/// Gives each instance of a stream what it comes to in this step, in order of birth.
pub fn give_each(s: &mut WholeStore, stream: u32, outcomes: &[Brief])
    requires running { IsRunning (whole_seen s.old) }
    requires stream { stream < length (whole_seen s.old).layout.streams }
    requires each { length outcomes.now ≡ length (instances_seen (whole_seen s.old) stream) }
    requires silent { (i : ℕ) → IsTrue (is_silent (now_seen (whole_seen s.old) stream i)) }
    requires kinds { AreOutcomesOf (kind_in (slice_get (whole_seen s.old).layout.streams stream)) outcomes.now }
    ensures seen { whole_seen s.new ≡ after_each (whole_seen s.old) stream outcomes.now }
    ensures past { (names : Naming) (n i : ℕ) (values : List (ℕ × Field)) → AreHeldIn names outcomes.now
        → whole_remembers s.old names n i values → whole_remembers s.new names n i values }
{
    for i in 0..instances(s, stream) {
        give(s, stream, i, outcomes[i as usize].widen());
    }
}
