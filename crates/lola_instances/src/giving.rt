//! All instances of a stream are given what they come to in a step.

ghost use Rattle.std.specs.Prelude.{◌≡◌, ◌<◌, ◌≤◌, ℕ, List, IsTrue, length, slice_get};
ghost use Rattle.lola_value.specs.declared.text.Field.{Field};
ghost use Rattle.lola_value.specs.Naming.{Naming};
ghost use Rattle.lola_model.specs.Given.{AreHeldIn, AreOutcomesOf, after_each};
ghost use Rattle.lola_model.specs.Store.{IsRunning, instances_seen, now_seen, is_silent, kind_in};
ghost use Rattle.lola_instances.specs.Stores.{bounded_seen, bounded_remembers};

use crate::store::{BoundedStore, offset_of};
use lola_value::brief::Brief;
use std::thread::Threads;

/// Gives each instance of a stream what it comes to in this step, in order of birth, by at most so many threads.
pub fn give_each<R: Threads + Sync>(
    s: &mut BoundedStore,
    rt: &R,
    stream: u32,
    outcomes: &[Brief],
    workers: u32,
)
    requires running { IsRunning (bounded_seen s.old) }
    requires stream { stream < length (bounded_seen s.old).layout.streams }
    requires workers { 1 ≤ workers }
    requires each { length outcomes.now ≡ length (instances_seen (bounded_seen s.old) stream) }
    requires silent { (i : ℕ) → IsTrue (is_silent (now_seen (bounded_seen s.old) stream i)) }
    requires kinds { AreOutcomesOf (kind_in (slice_get (bounded_seen s.old).layout.streams stream)) outcomes.now }
    ensures seen { bounded_seen s.new ≡ after_each (bounded_seen s.old) stream outcomes.now }
    ensures past { (names : Naming) (n i : ℕ) (values : List (ℕ × Field)) → AreHeldIn names outcomes.now
        → bounded_remembers s.old names n i values → bounded_remembers s.new names n i values }
{
    let step = s.step;
    let offset = offset_of(s);
    let lives = &mut s.streams[stream as usize];
    lives.give_each(rt, step, offset, outcomes, workers);
}
