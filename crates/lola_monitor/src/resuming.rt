//! A run that goes on from a saved state.
ghost use Rattle.std.specs.Prelude.{◌≡◌, ◌≤◌, ◌<◌, Some, true, MatchResult, map, string_bytes};
ghost use Rattle.std.specs.List.{list_all};
ghost use Rattle.std.specs.Str.{is_utf8};
ghost use Rattle.lola_model.specs.Acceptance.{IsAccepted};
ghost use Rattle.lola_monitor_command.specs.Bounds.{IsRunInBounds};
ghost use Rattle.lola_monitor_command.specs.Command.{command_of};
ghost use Rattle.lola_monitor_run.specs.Running.{keeping};
ghost use Rattle.lola_monitor.specs.Causes.{Causes};
ghost use Rattle.lola_monitor.specs.Command.{names_asked, resumption_with};
ghost use Rattle.lola_monitor.specs.Monitor.{Asked, outside};
ghost use Rattle.lola_monitor.specs.Resumed.{inputs_of};
ghost use Rattle.lola_monitor.specs.ResumedOutcomes.{RunRead, WorksResumed, without_engine as without_engine_of};
ghost use Rattle.lola_monitor.specs.Stating.{NoEngine};

use crate::call_end::{CallEnd, Unloaded};
use crate::planning::without_plan;
use crate::sources::run_sources;
use crate::stating::{ReadSpecification, read_engine, read_specification};
use lola_model::journal::Show;
use lola_model::plan::Plan;
use lola_monitor_command::command::{Command, RunCommand};
use lola_monitor_command::names::named;
use lola_monitor_command::said::NamePlace;
use lola_monitor_run::run::Run;
use lola_port::{Gate, Shelf, Sink};
use lola_value::words::word_at;
use std::alloc::Global;
use std::hash::RandomState;
use std::sync::Wait;
use std::thread::Threads;

/// A run that goes on, and where the merge of its sources begins.
#[derive(Drop)]
pub struct Resumed {
    pub run: Run,
    pub start: Option<u64>,
}

/// How a call ends without an engine.
pub fn without_engine(end: Unloaded) -> CallEnd
    ensures { result ≡ without_engine_of end }
{
    match end {
        Unloaded::Stated(end) => CallEnd::Stated(end),
        Unloaded::Memory => CallEnd::Memory,
    }
}

/// Reads a state of a plan, whose specification is given by its bytes, and makes a run that goes on from it. The bytes of the state are let
/// go.
pub fn run_of_state<F: Shelf>(
    alloc: Global,
    hasher: RandomState,
    specification: &[u8],
    plan: Plan,
    name: &str,
    show: Show,
    workers: u32,
    shelf: &mut F,
) -> Result<Resumed, Unloaded>
    requires out { (F.state shelf.old).out < 65536 }
    requires accepted { IsAccepted plan }
    requires texts { list_all is_utf8 plan.spec.texts ≡ true }
    requires workers { (1 ≤ workers) × (workers ≤ 64) }
    ensures { MatchResult result (λ resumed. RunRead specification.now plan show name.now (keeping resumed.run) resumed.start (F.state shelf.old) (F.state shelf.new))
        (λ end. NoEngine end specification.now plan name.now (F.state shelf.old) (F.state shelf.new)) }
{
    let engine = match read_engine(
        alloc,
        hasher,
        specification,
        plan,
        name,
        show,
        workers,
        shelf,
    ) {
        Ok(engine) => engine,
        Err(end) => return Err(end),
    };
    let start = engine.times().merge_start();
    match Run::resume(alloc, engine) {
        Ok(run) => Ok(Resumed { run, start }),
        Err(_) => Err(Unloaded::Memory),
    }
}

// The same of a specification, whose bytes are let go too.
fn read_run<F: Shelf>(
    alloc: Global,
    hasher: RandomState,
    specification: ReadSpecification,
    name: &str,
    show: Show,
    workers: u32,
    shelf: &mut F,
) -> Result<Resumed, Unloaded>
    requires out { (F.state shelf.old).out < 65536 }
    requires accepted { IsAccepted specification.plan }
    requires texts { list_all is_utf8 specification.plan.spec.texts ≡ true }
    requires workers { (1 ≤ workers) × (workers ≤ 64) }
    ensures { MatchResult result (λ resumed. RunRead specification.bytes.items specification.plan show name.now (keeping resumed.run) resumed.start (F.state shelf.old) (F.state shelf.new))
        (λ end. NoEngine end specification.bytes.items specification.plan name.now (F.state shelf.old) (F.state shelf.new)) }
{
    let ReadSpecification { bytes, plan } = specification;
    run_of_state(alloc, hasher, &bytes, plan, name, show, workers, shelf)
}

/// All but the last line of a run that goes on from a saved state: the specification is read, then the state, and then the sources, whose
/// rows come behind the journal whose state it is. The merge of the sources begins where that journal had come to.
pub fn resume<R: Threads + Wait + Sync, F: Shelf, K: Sink, T: Sink, G: Gate + Sync>(
    rt: &R,
    alloc: Global,
    hasher: RandomState,
    words: &[String],
    command: &RunCommand,
    place: NamePlace,
    shelf: &mut F,
    out: &mut K,
    trace: &mut T,
    gate: &G,
) -> CallEnd
    requires out { (F.state shelf.old).out ≡ 0 }
    requires is_run { command_of (map string_bytes words.now) ≡ Some (Command.Run command.now) }
    requires bounds { IsRunInBounds command.now }
    requires is_state { command.now.state ≡ Some place }
    ensures works { WorksResumed result (resumption_with (map string_bytes words.now) command.now place) (outside (F.state shelf.old) (K.state out.old) (T.state trace.old))
        (outside (F.state shelf.new) (K.state out.new) (T.state trace.new)) }
    ensures cause { Causes result (inputs_of (resumption_with (map string_bytes words.now) command.now place)) (outside (F.state shelf.old) (K.state out.old) (T.state trace.old))
        (outside (F.state shelf.new) (K.state out.new) (T.state trace.new)) }
    ensures asked { Asked (names_asked (map string_bytes words.now)) (F.state shelf.old) (F.state shelf.new) }
{
    let specification = match read_specification(
        alloc,
        shelf,
        word_at(words, command.specification),
    ) {
        Ok(specification) => specification,
        Err(end) => return without_plan(end),
    };
    let name = named(words, place);
    let resumed = match read_run(
        alloc,
        hasher,
        specification,
        name,
        command.show,
        command.workers,
        shelf,
    ) {
        Ok(resumed) => resumed,
        Err(end) => return without_engine(end),
    };
    run_sources(
        rt,
        alloc,
        resumed.run,
        resumed.start,
        words,
        command,
        shelf,
        out,
        trace,
        gate,
    )
}
