//! The start of the run, and of a step.

ghost use Rattle.std.specs.Prelude.{◌≡◌, ◌++◌, ℕ, List};
ghost use Rattle.lola_value.specs.declared.text.Field.{Field};
ghost use Rattle.lola_value.specs.Naming.{Naming, read_outcome};
ghost use Rattle.lola_model.specs.Accesses.{one_more};
ghost use Rattle.lola_model.specs.Reading.{KeepsAll};
ghost use Rattle.lola_model.specs.Store.{IsNew, CanBegin, after_start, after_begin, time_seen, now_seen};
ghost use Rattle.lola_store.specs.Stores.{whole_seen, whole_remembers};

use crate::store::WholeStore;
use lola_instances::phase::{StorePhase, start_of};

/// Sets where time counts from.
pub fn start_at(s: &mut WholeStore, start: u64)
    requires { IsNew (whole_seen s.old) }
    ensures seen { whole_seen s.new ≡ after_start (whole_seen s.old) start }
    ensures past { KeepsAll (whole_remembers s.old) (whole_remembers s.new) }
{
    s.phase = StorePhase::Started(start);
}

/// Begins a step. What was this step's is an earlier value by the number of the step alone.
pub fn begin(s: &mut WholeStore, time: u64)
    requires { CanBegin (whole_seen s.old) time }
    ensures seen { whole_seen s.new ≡ after_begin (whole_seen s.old) time }
    ensures past { (names : Naming) (n i : ℕ) (values : List (ℕ × Field)) → whole_remembers s.old names n i values
        → whole_remembers s.new names n i (values ++ one_more (time_seen (whole_seen s.old)) (read_outcome names (now_seen (whole_seen s.old) n i))) }
{
    s.phase = StorePhase::Running(start_of(s.phase), time);
    s.prepared = false;
    s.step += 1;
}
