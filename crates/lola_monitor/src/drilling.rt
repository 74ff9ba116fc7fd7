//! A drill: two made-up sources, run in turns.
ghost use Rattle.std.specs.Prelude.{◌≡◌, ◌<◌, ◌≤◌, [], All, IfOk};
ghost use Rattle.lola_feed.specs.Drills.{drill_text};
ghost use Rattle.lola_front.specs.Front.{IsPlanOf};
ghost use Rattle.lola_model.specs.Acceptance.{IsAccepted};
ghost use Rattle.lola_monitor_run.specs.Behind.{HasTakenNone, IsBehind};
ghost use Rattle.lola_monitor_run.specs.Running.{keeping, setting_in};
ghost use Rattle.lola_monitor.specs.Drilling.{AreDrillWorkers, DrillsBy, IsDrillWorker, drill_setting};
ghost use Rattle.lola_monitor.specs.Monitor.{HasItsModels};

use crate::call_end::{CallEnd, Unplanned};
use crate::ending::{call_end_after, end_of};
use crate::nowhere::Nowhere;
use crate::planning::plan_of;
use lola_feed::worker::SourceWorker;
use lola_feed::{Drill, specification};
use lola_model::journal::Show;
use lola_model::plan::Plan;
use lola_monitor_command::command::DrillCommand;
use lola_monitor_run::rows::{MOST_ROWS, resume_in_turns};
use lola_monitor_run::run::Run;
use lola_port::Gate;
use lola_report::end::EndLine;
use lola_rows::RowReader;
use lola_value::text::Memory;
use std::alloc::Global;
use std::hash::RandomState;
use std::thread::Threads;

// The worker of source 0 or 1 of a drill.
fn drill_worker(
    alloc: Global,
    plan: &Plan,
    command: &DrillCommand,
    source: u32,
) -> Result<SourceWorker<Drill>, Memory>
    requires source { source < 2 }
    requires number { command.now.number < 2147483647 }
    ensures { IfOk result (λ worker. IsDrillWorker plan.now command.now source worker) }
{
    let file = Drill::create(command.number, source, command.rows);
    let reader = RowReader::create(alloc, plan, source, MOST_ROWS, file)?;
    Ok(SourceWorker::create(reader))
}

// The workers of both sources.
fn drill_workers(
    alloc: Global,
    plan: &Plan,
    command: &DrillCommand,
) -> Result<Vec<SourceWorker<Drill>>, Memory>
    requires number { command.now.number < 2147483647 }
    ensures { IfOk result (λ workers. AreDrillWorkers plan.now command.now workers.items) }
{
    let mut workers = Vec::with_capacity(alloc, 2)?;
    workers.push_reserved(drill_worker(alloc, plan, command, 0)?);
    workers.push_reserved(drill_worker(alloc, plan, command, 1)?);
    Ok(workers)
}

// The workers of both sources, and a run of the plan.
fn drill_room(
    alloc: Global,
    hasher: RandomState,
    plan: Plan,
    command: &DrillCommand,
) -> Result<(Run, Vec<SourceWorker<Drill>>), Memory>
    requires accepted { IsAccepted plan }
    requires number { command.now.number < 2147483647 }
    requires workers { (1 ≤ command.now.workers) × (command.now.workers ≤ 64) }
    ensures none { IfOk result (λ room. HasTakenNone (keeping room.0)) }
    ensures run { IfOk result (λ room. IsBehind [] [] (keeping room.0)) }
    ensures setting { IfOk result (λ room. setting_in (keeping room.0) ≡ drill_setting plan) }
    ensures workers { IfOk result (λ room. AreDrillWorkers plan command.now room.1.items) }
{
    let workers = drill_workers(alloc, &plan, command)?;
    let run = Run::create(alloc, hasher, plan, None, Show::Triggers, command.workers)?;
    Ok((run, workers))
}

// Lets workers go, none of whose sources has failed.
fn let_go(workers: Vec<SourceWorker<Drill>>)
    ensures { All (λ worker. worker.reader.source.count ≡ 0) workers.items }
{
    let mut workers = workers;
    while let Some(worker) = workers.pop() {
        let _source = worker.into_reader().into_source();
    }
}

// Runs made-up sources by a run that is new.
fn run_workers<R: Threads + Sync, G: Gate + Sync>(
    rt: &R,
    alloc: Global,
    run: &mut Run,
    workers: Vec<SourceWorker<Drill>>,
    _command: &DrillCommand,
    gate: &G,
) -> CallEnd
    requires accepted { IsAccepted (keeping run.old).state.plan }
    requires none { HasTakenNone (keeping run.old) }
    requires behind { IsBehind [] [] (keeping run.old) }
    requires setting { setting_in (keeping run.old) ≡ drill_setting (keeping run.old).state.plan }
    requires workers { AreDrillWorkers (keeping run.old).state.plan _command.now workers.items }
    ensures { IsPlanOf drill_text (keeping run.old).state.plan → HasItsModels (keeping run.old).state.plan → DrillsBy result _command.now }
{
    let mut out = Nowhere;
    let mut trace = Nowhere;
    let (workers, stopped) = resume_in_turns(
        rt, alloc, run, workers, None, &mut out, &mut trace, gate,
    );
    let end = end_of(workers.as_slice());
    let_go(workers);
    match call_end_after(alloc, run, stopped, end) {
        CallEnd::Line(line) => CallEnd::Drilled(line),
        _ => CallEnd::Memory,
    }
}

// Runs the made-up sources of a plan.
fn run_drill<R: Threads + Sync, G: Gate + Sync>(
    rt: &R,
    alloc: Global,
    hasher: RandomState,
    plan: Plan,
    command: &DrillCommand,
    gate: &G,
) -> CallEnd
    requires accepted { IsAccepted plan }
    requires number { command.now.number < 2147483647 }
    requires workers { (1 ≤ command.now.workers) × (command.now.workers ≤ 64) }
    ensures { IsPlanOf drill_text plan → HasItsModels plan → DrillsBy result command.now }
{
    let Ok(room) = drill_room(alloc, hasher, plan, command) else {
        return CallEnd::Memory;
    };
    let (mut run, workers) = room;
    run_workers(rt, alloc, &mut run, workers, command, gate)
}

/// Compiles the drill's specification and runs its two made-up sources under it, in turns. It fetches nothing, puts nothing, and
/// keeps one row of each source at most.
pub fn drill<R: Threads + Sync, G: Gate + Sync>(
    rt: &R,
    alloc: Global,
    hasher: RandomState,
    command: &DrillCommand,
    gate: &G,
) -> CallEnd
    requires number { command.now.number < 2147483647 }
    requires workers { (1 ≤ command.now.workers) × (command.now.workers ≤ 64) }
    ensures { DrillsBy result command.now }
{
    match plan_of(alloc, specification().as_bytes()) {
        Ok(plan) => run_drill(rt, alloc, hasher, plan, command, gate),
        Err(Unplanned::Refused(refusal)) => CallEnd::Drilled(EndLine::Refused(refusal)),
        Err(_) => CallEnd::Memory,
    }
}
