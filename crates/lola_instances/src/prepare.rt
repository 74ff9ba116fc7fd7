//! Room for one whole step.

ghost use Rattle.std.specs.Prelude.{◌≡◌, Some, IsOk, IsTrue, OnOk, OnErr, map, slice_get};
ghost use Rattle.lola_model.specs.Reading.{KeepsAll};
ghost use Rattle.lola_model.specs.Store.{after_prepare, never_spawns};
ghost use Rattle.lola_instances_stream.specs.Crowds.{Crowd};
ghost use Rattle.lola_instances.specs.Rooms.{AreKept, AreReady, IsReady};
ghost use Rattle.lola_instances.specs.Stores.{bounded_seen, bounded_remembers};
ghost use Rattle.lola_instances.specs.Streams.{crowd_layout};

use crate::phase::time_of;
use crate::store::BoundedStore;
use lola_instances_stream::instances::Instances;
use lola_value::text::Memory;

/// Room for a step in the stream of a number, after deadlines before a moment are passed.
fn make_ready(streams: &mut Vec<Instances>, number: usize, passed: u64) -> Result<(), Memory>
    ensures kept { AreKept streams.old.items streams.new.items }
    ensures ok { OnOk result ((c : Crowd) → slice_get streams.new.items number ≡ Some c → IsReady c) }
    ensures plain { IsTrue (never_spawns (map crowd_layout streams.old.items)) → IsOk result }
{
    if streams.len() <= number {
        return Ok(());
    }
    let lives = &mut streams[number];
    match lives.prepare(passed) {
        Ok(()) => Ok(()),
        Err(memory) => Err(memory),
    }
}

/// Room for a step in the streams of these numbers, after deadlines before a moment are passed.
fn make_all_ready(
    streams: &mut Vec<Instances>,
    numbers: &[usize],
    passed: u64,
) -> Result<(), Memory>
    ensures kept { AreKept streams.old.items streams.new.items }
    ensures ok { OnOk result (AreReady streams.new.items numbers.now) }
    ensures plain { IsTrue (never_spawns (map crowd_layout streams.old.items)) → IsOk result }
{
    for number in numbers {
        match make_ready(streams, *number, passed) {
            Ok(()) => {}
            Err(memory) => return Err(memory),
        }
    }
    Ok(())
}

/// Makes room for one whole step, so that no call of the step takes memory. Only births want some, so no stream without a spawn clause
/// is looked at.
pub fn prepare(s: &mut BoundedStore) -> Result<(), Memory>
    ensures ok { OnOk result (bounded_seen s.new ≡ after_prepare (bounded_seen s.old)) }
    ensures err { OnErr result (bounded_seen s.new ≡ bounded_seen s.old) }
    ensures past { KeepsAll (bounded_remembers s.old) (bounded_remembers s.new) }
    ensures plain { IsTrue (never_spawns (bounded_seen s.old).layout.streams) → IsOk result }
{
    let passed = time_of(s.phase);
    match make_all_ready(&mut s.streams, s.spawning.as_slice(), passed) {
        Err(memory) => Err(memory),
        Ok(()) => {
            s.prepared = true;
            Ok(())
        }
    }
}
