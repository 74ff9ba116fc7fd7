//! The start of the run, and of a step.

ghost use Rattle.std.specs.Prelude.{◌≡◌, ◌++◌, ℕ, List};
ghost use Rattle.lola_value.specs.declared.text.Field.{Field};
ghost use Rattle.lola_value.specs.Naming.{Naming, read_outcome};
ghost use Rattle.lola_model.specs.Accesses.{one_more};
ghost use Rattle.lola_model.specs.Reading.{KeepsAll};
ghost use Rattle.lola_model.specs.Store.{IsNew, CanBegin, after_start, after_begin, time_seen, now_seen};
ghost use Rattle.lola_instances.specs.Stores.{bounded_seen, bounded_remembers};

use crate::phase::{StorePhase, start_of, time_since};
use crate::store::BoundedStore;

/// Sets where time counts from.
pub fn start_at(s: &mut BoundedStore, start: u64)
    requires { IsNew (bounded_seen s.old) }
    ensures seen { bounded_seen s.new ≡ after_start (bounded_seen s.old) start }
    ensures past { KeepsAll (bounded_remembers s.old) (bounded_remembers s.new) }
{
    s.phase = StorePhase::Started(start);
}

/// Begins a step. What was this step's is an earlier value by the number of the step alone.
pub fn begin(s: &mut BoundedStore, time: u64)
    requires { CanBegin (bounded_seen s.old) time }
    ensures seen { bounded_seen s.new ≡ after_begin (bounded_seen s.old) time }
    ensures past { (names : Naming) (n i : ℕ) (values : List (ℕ × Field)) → bounded_remembers s.old names n i values
        → bounded_remembers s.new names n i (values ++ one_more (time_seen (bounded_seen s.old)) (read_outcome names (now_seen (bounded_seen s.old) n i))) }
{
    let start = start_of(s.phase);
    s.phase = StorePhase::Running(start, time);
    s.offset = time_since(start, time);
    s.prepared = false;
    s.step += 1;
}
