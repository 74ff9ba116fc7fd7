//! What was taken of sources that handed in their rows in any order, run by an engine.

ghost use Rattle.std.specs.Prelude.{◌≡◌, ◌^◌, ◌≤◌, List, OnOk, [], length};
ghost use Rattle.lola_model.specs.Journal.{accepted};
ghost use Rattle.lola_model.specs.declared.journal.Row.{Row};
ghost use Rattle.lola_merge.specs.Interleaving.{StandRight, beginning, run};
ghost use Rattle.lola_merge.specs.declared.world.Actor.{Actor};
ghost use Rattle.lola_engine.specs.Engines.{IsEngine, StandsFor};
ghost use Rattle.lola_monitor_run.specs.Handing.{IsSetAs};
ghost use Rattle.lola_monitor_run.specs.Schedules.{HasRowsFor, RunsOrder};

use crate::entries::run_entries;
use lola_engine::end::EngineEnd;
use lola_engine::engine::Engine;
use lola_merge::law::every_order;
use lola_merge::world::World;
use lola_port::Gate;
use lola_text::store::TextStore;
use lola_value::text::Text;
use std::thread::Threads;

/// Hands what a world took to an engine that has run nothing. Whatever rows were to come of each source, and in whatever order
/// sources and taker took turns: what was taken is a legal journal of the first rows of each source, in their order. The engine has
/// run it and appended exactly its settled verdict text, or it answers the first fault of its settled steps, and the text is that of
/// the steps before it. Where there is no memory it is a front of that text.
pub fn run_taken<R: Threads + Sync, S: TextStore + Sync, G: Gate + Sync>(
    rt: &R,
    gate: &G,
    engine: &mut Engine<S>,
    world: &World,
    lines: &mut Text,
) -> Result<(), EngineEnd>
    requires engine { IsEngine engine.old.state (S.seen engine.old.store) }
    requires fresh { StandsFor engine.old.state (S.seen engine.old.store) (S.remembers engine.old.store) [] }
    requires rows { HasRowsFor engine.old.state.plan engine.old.state.given_start world.now }
    requires few { length (accepted world.now.taken) ≤ 2 ^ 47 }
    ensures engine { OnOk result (IsEngine engine.new.state (S.seen engine.new.store)) }
    ensures setting { IsSetAs engine.old.state engine.new.state }
    ensures every_order { (lists : List (List Row)) (actors : List Actor) → StandRight lists → world.now ≡ run (beginning lists engine.old.state.given_start) actors
        → RunsOrder result lists world.now.taken engine.old.state engine.new.state (S.seen engine.new.store) (S.remembers engine.new.store) lines.old lines.new }
{
    every_order();
    run_entries(rt, gate, engine, world.taken(), lines)
}
